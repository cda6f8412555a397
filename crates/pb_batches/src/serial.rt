//! What a play says of the sizes of its batches.

ghost use Rattle.std.specs.Prelude.{◌≡◌, ◌∷◌, [], IfOk};

use pb_value::items::Items;
use std::alloc::{AllocError, Global};

/// The size of a batch.
#[derive(Clone, Copy, Debug, PartialEq, Eq)]
pub enum Entry {
    /// So many hosts; 0 or less are all that are left.
    Number(i64),
    /// So many hundredths of the play's hosts, but one host at least.
    Percent(u32),
}

/// The sizes of a play's batches, one after another. The last one holds for all batches behind it; where there is none, all hosts are one batch
/// (Ansible's documentation, "Controlling playbook execution: strategies and more", "Setting the batch size with serial").
#[derive(Debug, Drop)]
pub struct Serial {
    pub entries: Items<Entry>,
}

impl Serial {
    /// All hosts are one batch. It takes no memory.
    pub fn whole(alloc: Global) -> Serial
        ensures { result.entries ≡ [] }
    {
        Serial {
            entries: Items::new(alloc),
        }
    }

    /// All batches have one size.
    pub fn of(alloc: Global, entry: Entry) -> Result<Serial, AllocError>
        ensures { IfOk result (λ serial. serial.entries ≡ entry ∷ []) }
    {
        let mut entries = Items::new(alloc);
        entries.push(entry)?;
        Ok(Serial { entries })
    }
}
