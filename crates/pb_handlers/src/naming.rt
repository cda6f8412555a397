ghost use Rattle.std.specs.Prelude.{◌≡◌, IfOk};
ghost use Rattle.pb_handlers.specs.Naming.{counting, kept, last_named};

use crate::words::WordSet;
use pb_value::items::Items;
use pb_value::text::Text;
use std::alloc::{AllocError, Global};

/// What a handler is notified by: its name, and the topics that it listens to.
#[derive(Drop)]
pub struct HandlerNames {
    pub name: Text,
    pub listens: Items<Text>,
}

/// Of each of a play's handlers, in the order of definition, whether it counts: of those with one name the last does, at its own position.
pub fn counting(alloc: Global, handlers: &[HandlerNames]) -> Result<Vec<bool>, AllocError>
    ensures value { IfOk result (λ counts. counts.items ≡ counting handlers.now) }
    ensures last { IfOk result (λ counts. kept counts.items handlers.now ≡ last_named handlers.now) }
{
    let mut counts = vec![in alloc; false; handlers.len()]?;
    let mut later = WordSet::new(alloc);
    let mut at = handlers.len();
    while at > 0 {
        at -= 1;
        let (_, is_new) = later.insert(alloc, handlers[at].name.as_str())?;
        counts[at] = is_new;
    }
    Ok(counts)
}
