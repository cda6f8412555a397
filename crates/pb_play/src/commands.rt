use pb_prepared::prepared::{Prepared, PreparedText};
use pb_value::items::Items;

/// The words of a `command` task, as they are written.
#[derive(Drop)]
pub enum CommandWords {
    /// All in one text, which is cut into words when the task starts.
    Line(PreparedText),
    /// One by one. A word may be a value of any kind: its text is taken when the task starts.
    Argv(Items<Prepared>),
}
