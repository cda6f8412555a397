//! The files of the roles that stand in a folder.

ghost use Rattle.std.specs.Prelude.{◌≡◌, ◌≤◌, ◌+◌, ◌-◌, ◌++◌, length, map, string_bytes, codes, IfOk, IfErr, IfSome};
ghost use Rattle.pb_value.specs.Limits.{max_bytes};
ghost use Rattle.pb_cli.specs.RoleFiles.{folder_name, role_path, AreRolePaths, FitIn, InOrder, AreRoleFiles};

use crate::files::{FileFault, read_named};
use pb_roles::{RoleFile, RoleFiles};
use pb_value::items::Items;
use pb_value::text::Text;
use std::alloc::{AllocError, Global};
use std::fs;
use std::fs::Files;
use std::io::ErrorKind;

/// A folder of a role, which has one file.
#[derive(Clone, Copy, Debug, PartialEq, Eq)]
pub enum RoleFolder {
    Defaults,
    Handlers,
    Meta,
    Tasks,
    Vars,
}

impl RoleFolder {
    /// The folder's name.
    pub fn name(self) -> &'static str
        ensures { result.now ≡ folder_name self }
    {
        match self {
            RoleFolder::Defaults => "defaults",
            RoleFolder::Handlers => "handlers",
            RoleFolder::Meta => "meta",
            RoleFolder::Tasks => "tasks",
            RoleFolder::Vars => "vars",
        }
    }
}

/// The path of the file in a folder of a role, from the folder of the roles on.
fn role_path(alloc: Global, name: &str, folder: RoleFolder) -> Result<String, AllocError>
    ensures { IfOk result (λ path. string_bytes path ≡ role_path name.now folder) }
{
    let mut path = String::from_str(alloc, name)?;
    path.push('/')?;
    path.push_str(folder.name())?;
    path.push_str("/main.json")?;
    Ok(path)
}

/// The path of what stands in a folder.
fn path_in(alloc: Global, dir: &str, path: &str) -> Result<String, AllocError>
    ensures { IfOk result (λ whole. string_bytes whole ≡ dir.now ++ codes "/" ++ path.now) }
{
    let mut whole = String::from_str(alloc, dir)?;
    whole.push('/')?;
    whole.push_str(path)?;
    Ok(whole)
}

/// Whether something stands at the path in the folder. What can't be looked for is an error: a link that leads in a circle, or a
/// folder that can't be searched.
fn is_there<R: Files + AllocGlobal>(rt: &R, dir: &str, path: &str) -> Result<bool, FileFault> {
    let whole = path_in(rt.alloc(), dir, path)?;
    match fs::metadata(rt, whole.as_str()) {
        Ok(_) => Ok(true),
        Err(error) => match error.kind() {
            ErrorKind::NotFound | ErrorKind::NotADirectory => Ok(false),
            _ => Err(FileFault::at(rt.alloc(), whole.as_str(), error)),
        },
    }
}

/// Adds the path of the file in a folder of a role, where it is there.
#[tactic(auto, using(crate::proofs::RolePaths::push_path))]
fn push_path<R: Files + AllocGlobal>(
    rt: &R,
    dir: &str,
    name: &str,
    folder: RoleFolder,
    paths: &mut Vec<String>,
) -> Result<(), FileFault>
    ensures { AreRolePaths (map string_bytes paths.old.items) → IfOk result (λ _. AreRolePaths (map string_bytes paths.new.items)) }
{
    let path = role_path(rt.alloc(), name, folder)?;
    if is_there(rt, dir, path.as_str())? {
        paths.push(path)?;
    }
    Ok(())
}

/// Adds the paths of the files of a role.
fn push_role<R: Files + AllocGlobal>(
    rt: &R,
    dir: &str,
    name: &str,
    paths: &mut Vec<String>,
) -> Result<(), FileFault>
    ensures { AreRolePaths (map string_bytes paths.old.items) → IfOk result (λ _. AreRolePaths (map string_bytes paths.new.items)) }
{
    push_path(rt, dir, name, RoleFolder::Defaults, paths)?;
    push_path(rt, dir, name, RoleFolder::Handlers, paths)?;
    push_path(rt, dir, name, RoleFolder::Meta, paths)?;
    push_path(rt, dir, name, RoleFolder::Tasks, paths)?;
    push_path(rt, dir, name, RoleFolder::Vars, paths)?;
    Ok(())
}

/// The paths of the roles' files in a folder, as they come. An entry of it that isn't a folder, or is one without such files, has none.
#[tactic(auto, using(crate::proofs::RolePaths::no_paths))]
fn found_paths<R: Files + AllocGlobal>(rt: &R, dir: &str) -> Result<Vec<String>, FileFault>
    ensures { IfOk result (λ paths. AreRolePaths (map string_bytes paths.items)) }
{
    let mut paths = Vec::new(rt.alloc());
    let entries = match fs::read_dir(&(rt, rt.alloc()), dir) {
        Ok(entries) => entries,
        Err(error) => return Err(FileFault::at(rt.alloc(), dir, error)),
    };
    for entry in entries {
        let entry = match entry {
            Ok(entry) => entry,
            Err(error) => return Err(FileFault::at(rt.alloc(), dir, error)),
        };
        push_role(rt, dir, entry.file_name(), &mut paths)?;
    }
    Ok(paths)
}

/// The paths of the roles' files in a folder, in byte order.
#[tactic(auto, using(crate::proofs::RolePaths::moved_paths, crate::proofs::RolePaths::in_order))]
fn sorted_paths<R: Files + AllocGlobal>(rt: &R, dir: &str) -> Result<Vec<String>, FileFault>
    ensures form { IfOk result (λ paths. AreRolePaths (map string_bytes paths.items)) }
    ensures order { IfOk result (λ paths. InOrder (map string_bytes paths.items)) }
{
    let mut paths = found_paths(rt, dir)?;
    paths.sort()?;
    Ok(paths)
}

/// How much room is left where a path and a file's bytes are taken in.
fn room_behind(room: usize, path: usize, bytes: usize) -> usize
    ensures { result ≡ room - path - bytes }
{
    room.saturating_sub(path).saturating_sub(bytes)
}

/// The file at a path in the folder: as many of its bytes as there is room for beside its path, and one more where there are more.
fn read_role_file<R: Files + AllocGlobal>(
    rt: &R,
    dir: &str,
    path: &str,
    room: usize,
) -> Result<RoleFile, FileFault>
    requires { room ≤ max_bytes }
    ensures path { IfOk result (λ file. file.path ≡ path.now) }
    ensures bound { IfOk result (λ file. length file.bytes ≤ room - length path.now + 1) }
    ensures fault { IfErr result (λ fault. IfSome fault.path (λ named. named ≡ dir.now ++ codes "/" ++ path.now)) }
{
    let alloc = rt.alloc();
    let whole = path_in(alloc, dir, path)?;
    let bytes = read_named(rt, whole.as_str(), room.saturating_sub(path.len()))?;
    Ok(RoleFile {
        path: Text::from_str(alloc, path)?,
        bytes: Items::from_vec(bytes),
    })
}

/// The files at these paths in the folder.
fn read_paths<R: Files + AllocGlobal>(
    rt: &R,
    dir: &str,
    paths: &[String],
    room: usize,
) -> Result<Vec<RoleFile>, FileFault>
    requires { room ≤ max_bytes }
    ensures paths { IfOk result (λ files. map (λ f. f.path) files.items ≡ map string_bytes paths.now) }
    ensures room { IfOk result (λ files. FitIn room files.items) }
{
    let mut files = Vec::new(rt.alloc());
    let mut left = room;
    for path in paths {
        let file = read_role_file(rt, dir, path.as_str(), left)?;
        left = room_behind(left, file.path.len(), file.bytes.len());
        files.push(file)?;
    }
    Ok(files)
}

/// The files of the roles in a folder, `NAME/{defaults,handlers,meta,tasks,vars}/main.json`: by path in byte order, and of each
/// as many bytes as there is room for behind those before it and beside its path, and one more where there are more.
///
/// # Errors
/// The first that is met: the folder isn't there or can't be read, a link leads in a circle, a file that was there is gone or can't be
/// read, or memory was refused.
#[tactic(auto, using(crate::proofs::RolePaths::role_files))]
pub fn read_role_files<R: Files + AllocGlobal>(
    rt: &R,
    dir: &str,
    room: usize,
) -> Result<RoleFiles, FileFault>
    requires { room ≤ max_bytes }
    ensures { IfOk result (λ roles. AreRoleFiles room roles.files) }
{
    let paths = sorted_paths(rt, dir)?;
    let files = read_paths(rt, dir, paths.as_slice(), room)?;
    Ok(RoleFiles {
        files: Items::from_vec(files),
    })
}
