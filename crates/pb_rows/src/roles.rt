//! Folders of roles, as the system has them. A test removes the links that it made, since no check takes a crate with links in its folder.

ghost use Rattle.std.specs.Prelude.{◌≤◌};
ghost use Rattle.pb_value.specs.Limits.{max_bytes};

use crate::kept::Kept;
use crate::seen::{Seen, play_texts};
use crate::vanishing::Vanishing;
use pb_cli::role_files::read_role_files;
use pb_roles::RoleFiles;
use std::alloc::{AllocError, Global};
use std::fs;
use std::fs::Files;
use std::io::ErrorKind;
use std::os::unix::fs::symlink;
use std::process::{Processes, SystemProcess};
use std::sync::Wait;
use std::test::Fail;
use std::thread::Threads;
use std::time::Clock;

/// More room than the files of these tests take.
const ROOM: usize = 1_000;

/// A folder of roles without one.
fn make_empty(rt: &HostRuntime, dir: &str) -> Result<(), Fail> {
    let _ = fs::remove_dir_all(rt, dir);
    fs::create_dir(rt, dir)?;
    Ok(())
}

/// Puts a file into a folder below.
fn put_file(rt: &HostRuntime, dir: &str, below: &str, text: &str) -> Result<(), Fail> {
    let whole = format!(in rt.alloc(); "{dir}/{below}")?;
    fs::create_dir_all(rt, whole.as_str())?;
    let path = format!(in rt.alloc(); "{whole}/main.json")?;
    fs::write(rt, path.as_str(), text)?;
    Ok(())
}

/// The paths of files, each behind a space, with the number of their bytes.
fn shown(alloc: Global, roles: &RoleFiles) -> Result<String, AllocError> {
    let mut text = String::new(alloc);
    for file in roles.files.as_slice() {
        write!(text, " {} {}", file.path, file.bytes.len())?;
    }
    Ok(text)
}

fn read(rt: &HostRuntime, dir: &str, room: usize) -> Result<String, Fail>
    requires { room ≤ max_bytes }
{
    let roles = read_role_files(rt, dir, room)?;
    Ok(shown(rt.alloc(), &roles)?)
}

/// Plays nothing, with this folder of roles.
fn play<
    R: Files + AllocGlobal + Processes<Started = SystemProcess> + Clock + Threads + Wait + Sync,
>(rt: &R, dir: &str) -> Result<Seen, Fail> {
    fs::write(rt, "roles_inventory", "{}")?;
    fs::write(rt, "roles_playbook", "[]")?;
    let words = ["-i", "roles_inventory", "--roles", dir, "roles_playbook"];
    Ok(play_texts(rt, words.as_slice(), Kept::new(rt.alloc()))?)
}

/// Whether a fault of a file was reported, and nothing shown.
fn has_file_fault<
    R: Files + AllocGlobal + Processes<Started = SystemProcess> + Clock + Threads + Wait + Sync,
>(rt: &R, dir: &str) -> Result<bool, Fail> {
    let seen = play(rt, dir)?;
    Ok(seen.status == 1 && seen.err.starts_with(b"pb-play: file: ") && seen.out.is_empty())
}

#[test]
fn files_in_byte_order_of_their_paths(rt: HostRuntime) -> Result<(), Fail> {
    let dir = "roles_in_order";
    make_empty(&rt, dir)?;
    put_file(&rt, dir, "web/vars", "{}")?;
    put_file(&rt, dir, "web/tasks", "[]")?;
    put_file(&rt, dir, "web/meta", "{}")?;
    put_file(&rt, dir, "web/handlers", "[ ]")?;
    put_file(&rt, dir, "web/defaults", "{}")?;
    put_file(&rt, dir, "web-2/tasks", "[]")?;
    put_file(&rt, dir, "Db/tasks", "[]")?;
    put_file(&rt, dir, "web/templates", "[]")?;
    let read = read(&rt, dir, ROOM)?;
    assert_eq!(rt;
        read.as_str(),
        " Db/tasks/main.json 2 web-2/tasks/main.json 2 web/defaults/main.json 2 web/handlers/main.json 3 web/meta/main.json 2 web/tasks/main.json 2 web/vars/main.json 2"
    );
    Ok(())
}

#[test]
fn what_is_no_role(rt: HostRuntime) -> Result<(), Fail> {
    let dir = "roles_and_more";
    make_empty(&rt, dir)?;
    fs::write(&rt, "roles_and_more/README", "Roles.")?;
    fs::create_dir_all(&rt, "roles_and_more/empty/tasks")?;
    put_file(&rt, "roles_elsewhere", "db/tasks", "[]")?;
    symlink(&rt, "../roles_elsewhere/db", "roles_and_more/db")?;
    symlink(&rt, "nowhere", "roles_and_more/dead")?;
    let read = read(&rt, dir, ROOM)?;
    assert_eq!(rt; read.as_str(), " db/tasks/main.json 2");
    let seen = play(&rt, dir)?;
    assert!(rt; seen.status == 0 && seen.err.is_empty());
    fs::remove_dir_all(&rt, dir)?;
    Ok(())
}

#[test]
fn one_byte_over_the_room(rt: HostRuntime) -> Result<(), Fail> {
    let dir = "roles_too_long";
    make_empty(&rt, dir)?;
    put_file(&rt, dir, "a/tasks", "[        ]")?;
    put_file(&rt, dir, "b/tasks", "[        ]")?;
    let whole = read(&rt, dir, 54)?;
    assert_eq!(rt;
        whole.as_str(),
        " a/tasks/main.json 10 b/tasks/main.json 10"
    );
    let over = read(&rt, dir, 52)?;
    assert_eq!(rt; over.as_str(), " a/tasks/main.json 10 b/tasks/main.json 9");
    let over = read(&rt, dir, 20)?;
    assert_eq!(rt; over.as_str(), " a/tasks/main.json 4 b/tasks/main.json 1");
    Ok(())
}

#[test]
fn a_bundle_with_too_long_a_file(rt: HostRuntime) -> Result<(), Fail> {
    let dir = "roles_of_64_mib";
    make_empty(&rt, dir)?;
    put_file(&rt, dir, "a/tasks", "")?;
    let path = "roles_of_64_mib/a/tasks/main.json";
    let file = fs::File::options().write(true).open(&rt, path)?;
    file.set_len(64 * 1024 * 1024 + 1)?;
    let seen = play(&rt, dir)?;
    assert_eq!(rt;
        seen.err.as_slice(),
        b"pb-play: bundle: 7 TooLarge\n".as_slice()
    );
    fs::remove_dir_all(&rt, dir)?;
    Ok(())
}

#[test]
fn folders_that_cannot_be_read(rt: HostRuntime) -> Result<(), Fail> {
    let _ = fs::remove_dir_all(&rt, "roles_gone");
    assert!(rt; has_file_fault(&rt, "roles_gone")?);
    fs::write(&rt, "roles_no_folder", "")?;
    assert!(rt; has_file_fault(&rt, "roles_no_folder")?);
    make_empty(&rt, "roles_in_a_circle")?;
    symlink(&rt, "web", "roles_in_a_circle/web")?;
    assert!(rt; has_file_fault(&rt, "roles_in_a_circle")?);
    fs::remove_dir_all(&rt, "roles_in_a_circle")?;
    make_empty(&rt, "roles_of_folders")?;
    fs::create_dir_all(&rt, "roles_of_folders/web/tasks/main.json")?;
    assert!(rt; has_file_fault(&rt, "roles_of_folders")?);
    Ok(())
}

#[test]
fn a_file_that_vanishes(rt: HostRuntime) -> Result<(), Fail> {
    let dir = "roles_that_vanish";
    make_empty(&rt, dir)?;
    put_file(&rt, dir, "web/tasks", "[]")?;
    let gone = (Vanishing { files: &rt }, rt.alloc());
    match read_role_files(&gone, dir, ROOM) {
        Ok(_) => Err(Fail::new("an error")),
        Err(error) => {
            assert!(rt; error.error.kind() == ErrorKind::NotFound);
            Ok(())
        }
    }
}
