ghost use Rattle.std.specs.Prelude.{◌≡◌, IfOk};
ghost use Rattle.pb_play_reading.specs.Gathering.{gathering_task, begun};

use crate::short::plain;
use pb_play::modules::Module;
use pb_play::node::{Node, NodeList};
use pb_play::task::Task;
use pb_value::text::Text;
use std::alloc::{AllocError, Global};

/// The task that gathers the facts of a host.
fn gathering_task(alloc: Global) -> Result<Task, AllocError>
    ensures { IfOk result (λ t. t ≡ gathering_task) }
{
    let name = Text::from_str(alloc, "Gathering Facts")?;
    Ok(plain(alloc, name, Module::Setup))
}

/// The first nodes of a play: where it gathers facts, it begins with that.
pub(crate) fn begin(
    alloc: Global,
    gathers: bool,
    pre_tasks: &mut NodeList,
) -> Result<(), AllocError>
    ensures { IfOk result (λ _. pre_tasks.new ≡ begun gathers pre_tasks.old) }
{
    if gathers {
        let first = gathering_task(alloc)?;
        pre_tasks.nodes.insert(0, Node::Task(first))?;
    }
    Ok(())
}
