ghost use Rattle.serde_json.specs.View.{view};
ghost use Rattle.pb_reading.specs.Ahead.{ahead};
ghost use Rattle.pb_reading.specs.Fields.{value_of};
ghost use Rattle.pb_reading.specs.Reading.{Gives};
ghost use Rattle.pb_play_reading.specs.Handlers.{rest_of_handler, handler};

use crate::task::{Head, Modules, read_head, read_loop, read_rest};
use pb_play::task::Task;
use pb_reading::keys::Keys;
use pb_reading::reads::Reads;
use pb_reading::stop::{Stop, wrong};
use pb_value::items::Items;
use pb_value::text::Text;
use pb_written::fault::LoadFault;
use pb_written::texts::Texts;
use serde_json::Value;
use std::alloc::Global;

/// A handler: a task that runs where it was notified. See Ansible's documentation, "Handlers: running operations on change".
#[derive(Drop)]
pub struct Handler {
    pub task: Task,
    /// The topics by which it is notified, beside its name.
    pub listens: Items<Text>,
}

/// The handler, whose keys up to `ignore_errors` are these.
fn read_rest_of_handler(
    alloc: Global,
    mut keys: Keys<'_, Modules>,
    path: &Text,
    head: Head,
) -> Result<Handler, Stop<LoadFault>>
    ensures { Gives result (value_of (rest_of_handler path.now head (ahead keys.entry))) }
{
    let listens = keys.field_or::<Texts>(alloc, "listen", Items::new(alloc))?;
    let looped = read_loop(alloc, &mut keys)?;
    let task = read_rest(alloc, keys, path, head, looped)?;
    Ok(Handler { task, listens })
}

/// Reads a handler. (A type of its own, so that crates that name `Handler` don't load what JSON needs.)
pub struct OneHandler;

impl Reads<LoadFault> for OneHandler {
    type Value = Handler;

    ghost reads = { handler };

    #[tactic(auto, unfolding(crate::specs::Handlers::handler))]
    fn read(alloc: Global, path: &Text, json: &Value) -> Result<Handler, Stop<LoadFault>> {
        let Value::Object(members) = json else {
            return wrong(path);
        };
        let mut keys = Keys::of(path, members, Modules::Nothing);
        let head = read_head(alloc, &mut keys)?;
        read_rest_of_handler(alloc, keys, path, head)
    }
}
