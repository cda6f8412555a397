//! What stands in the files of a role.
ghost use Rattle.std.specs.Prelude.{◌≡◌, ◌≢◌, [], codes};
ghost use Rattle.pb_play.specs.Nodes.{Nothing};
ghost use Rattle.pb_role_files.specs.RoleFiles.{nodes_of_file, handlers_of_file, variables_of_file, meta_of_file};
ghost use Rattle.pb_roles.specs.Answers.{Gives};
ghost use Rattle.pb_roles.specs.Files.{file_of, loaded, no_meta};

use crate::fault::RoleFault;
use crate::files::{RoleFile, RoleFiles, file_of};
use pb_play::node::NodeList;
use pb_play_reading::handlers::Handler;
use pb_role_files::files::{
    read_handlers_file, read_meta_file, read_nodes_file, read_variables_file,
};
use pb_role_files::meta::RoleMeta;
use pb_value::items::Items;
use pb_value::text::Text;
use pb_value::val::Dict;
use pb_written::fault::LoadFault;
use std::alloc::Global;

/// A fault in a file, reported with its path.
fn in_file(file: &RoleFile, fault: LoadFault) -> RoleFault
    ensures reported { result ≢ RoleFault.Memory → result ≡ RoleFault.Load file.now.path fault }
    ensures memory { fault ≡ LoadFault.Memory → result ≡ RoleFault.Memory }
{
    match fault {
        LoadFault::Memory => RoleFault::Memory,
        fault => match file.path.try_clone() {
            Ok(path) => RoleFault::Load { path, fault },
            Err(_) => {
                drop(fault);
                RoleFault::Memory
            }
        },
    }
}

/// What the role says of itself.
pub(crate) fn load_meta(
    alloc: Global,
    files: &RoleFiles,
    name: &Text,
) -> Result<RoleMeta, RoleFault>
    ensures { Gives result (loaded meta_of_file no_meta (file_of (codes "meta") files.now name.now)) }
{
    let Some(file) = file_of(alloc, files, name, "meta")? else {
        return Ok(RoleMeta {
            dependencies: Items::new(alloc),
            allow_duplicates: false,
        });
    };
    match read_meta_file(alloc, file.bytes.as_slice()) {
        Ok(meta) => Ok(meta),
        Err(fault) => Err(in_file(file, fault)),
    }
}

/// Its variables, of its defaults or of its own.
pub(crate) fn load_variables(
    alloc: Global,
    files: &RoleFiles,
    name: &Text,
    kind: &str,
) -> Result<Dict, RoleFault>
    ensures { Gives result (loaded variables_of_file [] (file_of kind.now files.now name.now)) }
{
    let Some(file) = file_of(alloc, files, name, kind)? else {
        return Ok(Dict::new(alloc));
    };
    match read_variables_file(alloc, file.bytes.as_slice()) {
        Ok(variables) => Ok(variables),
        Err(fault) => Err(in_file(file, fault)),
    }
}

/// Its tasks and blocks.
pub(crate) fn load_nodes(
    alloc: Global,
    files: &RoleFiles,
    name: &Text,
) -> Result<NodeList, RoleFault>
    ensures { Gives result (loaded nodes_of_file Nothing (file_of (codes "tasks") files.now name.now)) }
{
    let Some(file) = file_of(alloc, files, name, "tasks")? else {
        return Ok(NodeList {
            nodes: Vec::new(alloc),
        });
    };
    match read_nodes_file(alloc, file.bytes.as_slice()) {
        Ok(nodes) => Ok(nodes),
        Err(fault) => Err(in_file(file, fault)),
    }
}

/// Its handlers.
pub(crate) fn load_handlers(
    alloc: Global,
    files: &RoleFiles,
    name: &Text,
) -> Result<Items<Handler>, RoleFault>
    ensures { Gives result (loaded handlers_of_file [] (file_of (codes "handlers") files.now name.now)) }
{
    let Some(file) = file_of(alloc, files, name, "handlers")? else {
        return Ok(Items::new(alloc));
    };
    match read_handlers_file(alloc, file.bytes.as_slice()) {
        Ok(handlers) => Ok(handlers),
        Err(fault) => Err(in_file(file, fault)),
    }
}
