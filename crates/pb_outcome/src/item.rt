ghost use Rattle.std.specs.Prelude.{◌≡◌};
ghost use Rattle.pb_outcome.specs.Items.{waits};

use crate::gather::ItemResult;
use crate::job::Call;
use pb_value::text::Text;
use pb_value::val::Val;

/// What an item of a task is when the task starts.
#[derive(Drop)]
pub enum Planned {
    /// It has its result at once.
    Decided(ItemResult),
    /// It is sent as a job.
    Sends(Call),
}

/// One item of a task.
#[derive(Drop)]
pub struct Item {
    /// The value of the loop variable, where the task has a loop.
    pub value: Option<Val>,
    /// The host that the item is delegated to, if it is.
    pub delegate: Option<Text>,
    /// How many of its attempts came back without ending it.
    pub tried: u8,
    /// Its result, or what is sent for it.
    pub step: Planned,
}

impl Item {
    /// Whether the item has no result yet.
    pub fn waits(&self) -> bool
        ensures { result ≡ waits self.now }
    {
        matches!(self.step, Planned::Sends(_))
    }
}
