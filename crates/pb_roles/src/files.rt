//! The files of roles.
ghost use Rattle.std.specs.Prelude.{◌≡◌, ◌&&◌, IfOk, codes};
ghost use Rattle.std.specs.Option.{option_copied};
ghost use Rattle.pb_roles.specs.Files.{main_path, file_at, file_of, has_no, has_none};

use pb_value::items::Items;
use pb_value::text::Text;
use std::alloc::{AllocError, Global};

/// A file of a role.
#[derive(Drop)]
pub struct RoleFile {
    /// Where it lies, under the folder of all roles: `NAME/KIND/main.json`.
    pub path: Text,
    /// What it holds.
    pub bytes: Items<u8>,
}

/// The files of all roles.
#[derive(Drop)]
pub struct RoleFiles {
    pub files: Items<RoleFile>,
}

/// Where the file of this kind of a role lies.
fn main_path(alloc: Global, name: &Text, kind: &str) -> Result<Text, AllocError>
    ensures { IfOk result (λ path. path ≡ main_path name.now kind.now) }
{
    let mut path = String::from_str(alloc, name.as_str())?;
    path.push_str("/")?;
    path.push_str(kind)?;
    path.push_str("/main.json")?;
    Ok(Text::from_string(path))
}

/// The file at a path, the first if there are several.
fn file_at<'a>(files: &'a [RoleFile], path: &Text) -> Option<&'a RoleFile>
    ensures { option_copied result ≡ file_at path.now files.now }
{
    for file in files {
        if file.path.as_str() == path.as_str() {
            return Some(file);
        }
    }
    None
}

/// The file of this kind of a role, if it has one.
pub(crate) fn file_of<'a>(
    alloc: Global,
    files: &'a RoleFiles,
    name: &Text,
    kind: &str,
) -> Result<Option<&'a RoleFile>, AllocError>
    ensures { IfOk result (λ file. option_copied file ≡ file_of kind.now files.now name.now) }
{
    let path = main_path(alloc, name, kind)?;
    Ok(file_at(files.files.as_slice(), &path))
}

/// Whether a role has no file of this kind.
fn has_no(alloc: Global, files: &RoleFiles, name: &Text, kind: &str) -> Result<bool, AllocError>
    ensures { IfOk result (λ none. none ≡ has_no kind.now files.now name.now) }
{
    let found = file_of(alloc, files, name, kind)?;
    Ok(found.is_none())
}

/// Whether a role has no file of variables that count more than others, of tasks or of handlers.
fn has_no_later(alloc: Global, files: &RoleFiles, name: &Text) -> Result<bool, AllocError>
    ensures { IfOk result (λ none. none ≡ (has_no (codes "vars") files.now name.now && (has_no (codes "tasks") files.now name.now && has_no (codes "handlers") files.now name.now))) }
{
    let no_vars = has_no(alloc, files, name, "vars")?;
    let no_tasks = has_no(alloc, files, name, "tasks")?;
    let no_handlers = has_no(alloc, files, name, "handlers")?;
    Ok(no_vars && no_tasks && no_handlers)
}

/// Whether a role has none of the files of a role.
pub(crate) fn has_none(alloc: Global, files: &RoleFiles, name: &Text) -> Result<bool, AllocError>
    ensures { IfOk result (λ none. none ≡ has_none files.now name.now) }
{
    let no_meta = has_no(alloc, files, name, "meta")?;
    let no_defaults = has_no(alloc, files, name, "defaults")?;
    let no_others = has_no_later(alloc, files, name)?;
    Ok(no_meta && no_defaults && no_others)
}
