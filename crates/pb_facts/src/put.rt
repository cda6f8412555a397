//! Variables over others.
ghost use Rattle.std.specs.Prelude.{◌≡◌, ◌<◌, ℕ, length, take, OnOk, OnErr};
ghost use Rattle.pb_facts.specs.Facts.{put_all};

use pb_value::val::Dict;
use std::alloc::{AllocError, Global};

/// Puts a copy of each value under its name, in place of one that stands there. The only error is want of memory: copies of the first few are put then.
pub fn put_all(alloc: Global, known: &mut Dict, entries: &Dict) -> Result<(), AllocError>
    ensures ok { OnOk result (known.new ≡ put_all entries.now known.old) }
    ensures err { OnErr result ((n : ℕ) × (n < length entries.now) × (known.new ≡ put_all (take n entries.now) known.old)) }
{
    for (name, value) in entries.iter() {
        known.put(alloc, name.as_str(), value.try_clone(alloc)?)?;
    }
    Ok(())
}
