ghost use Rattle.std.specs.Prelude.{◌≡◌, ◌≢◌, [], IfOk, IfErr, Ok, Err};
ghost use Rattle.serde_json.specs.View.{view};
ghost use Rattle.pb_reading.specs.Reading.{Gives};
ghost use Rattle.pb_role_files.specs.RoleFiles.{file_of, nodes_of_file, handlers_of_file, variables_of_file, meta_of_file};

use crate::meta::{MetaOfRole, RoleMeta};
use pb_play::node::NodeList;
use pb_play_reading::handlers::{Handler, OneHandler};
use pb_play_reading::nodes::TaskList;
use pb_reading::list::{Each, EachNamed};
use pb_reading::reads::Reads;
use pb_reading::stop::Stop;
use pb_value::items::Items;
use pb_value::read_json::{JsonFault, read_json};
use pb_value::text::Text;
use pb_value::val::Dict;
use pb_written::fault::{LoadFault, fault_of};
use pb_written::values::TemplateValue;
use serde_json::Value;
use std::alloc::Global;

/// What the JSON of a file is read as. Its path is the empty one.
fn read_whole<R: Reads<LoadFault>>(alloc: Global, json: &Value) -> Result<R::Value, Stop<LoadFault>>
    ensures { Gives result (R.reads [] (view json.now)) }
{
    let path = Text::from_str(alloc, "")?;
    R::read(alloc, &path, json)
}

/// What a file is read as.
fn read_file<R: Reads<LoadFault>>(alloc: Global, bytes: &[u8]) -> Result<R::Value, LoadFault>
    ensures value { IfOk result (λ v. file_of R.reads bytes.now ≡ Ok v) }
    ensures fault { IfErr result (λ e. e ≢ LoadFault.Memory → file_of R.reads bytes.now ≡ Err e) }
{
    let json = match read_json(alloc, bytes) {
        Ok(json) => json,
        Err(JsonFault::NotJson) => return Err(LoadFault::NotJson),
        Err(JsonFault::Memory) => return Err(LoadFault::Memory),
    };
    match read_whole::<R>(alloc, &json) {
        Ok(value) => Ok(value),
        Err(stop) => Err(fault_of(stop)),
    }
}

/// The tasks and blocks of a role, or the first fault in the file.
#[tactic(auto, unfolding(crate::specs::RoleFiles::nodes_of_file))]
pub fn read_nodes_file(alloc: Global, bytes: &[u8]) -> Result<NodeList, LoadFault>
    ensures value { IfOk result (λ v. nodes_of_file bytes.now ≡ Ok v) }
    ensures fault { IfErr result (λ e. e ≢ LoadFault.Memory → nodes_of_file bytes.now ≡ Err e) }
{
    read_file::<TaskList>(alloc, bytes)
}

/// The handlers of a role, or the first fault in the file.
#[tactic(auto, unfolding(crate::specs::RoleFiles::handlers_of_file))]
pub fn read_handlers_file(alloc: Global, bytes: &[u8]) -> Result<Items<Handler>, LoadFault>
    ensures value { IfOk result (λ v. handlers_of_file bytes.now ≡ Ok v) }
    ensures fault { IfErr result (λ e. e ≢ LoadFault.Memory → handlers_of_file bytes.now ≡ Err e) }
{
    read_file::<Each<OneHandler>>(alloc, bytes)
}

/// Variables of a role, those of its defaults or its own, or the first fault in the file. Their texts are templates.
#[tactic(auto, unfolding(crate::specs::RoleFiles::variables_of_file))]
pub fn read_variables_file(alloc: Global, bytes: &[u8]) -> Result<Dict, LoadFault>
    ensures value { IfOk result (λ v. variables_of_file bytes.now ≡ Ok v) }
    ensures fault { IfErr result (λ e. e ≢ LoadFault.Memory → variables_of_file bytes.now ≡ Err e) }
{
    read_file::<EachNamed<TemplateValue>>(alloc, bytes)
}

/// What a role says of itself, or the first fault in the file.
#[tactic(auto, unfolding(crate::specs::RoleFiles::meta_of_file))]
pub fn read_meta_file(alloc: Global, bytes: &[u8]) -> Result<RoleMeta, LoadFault>
    ensures value { IfOk result (λ v. meta_of_file bytes.now ≡ Ok v) }
    ensures fault { IfErr result (λ e. e ≢ LoadFault.Memory → meta_of_file bytes.now ≡ Err e) }
{
    read_file::<MetaOfRole>(alloc, bytes)
}
