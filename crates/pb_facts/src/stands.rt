//! What stands under a name of a dict, and puts that are taken back.

ghost use Rattle.std.specs.Prelude.{◌≡◌, ℕ, List, None, IsSome, IfOk, OnOk, OnErr, string_bytes};
ghost use Rattle.pb_value.specs.Datum.{Datum, value_at, put};
ghost use Rattle.pb_facts.specs.Stood.{StoodThere, without};

use pb_value::val::{Dict, Val};
use std::alloc::AllocError;

/// Puts a value under a name, and hands back the one that stood there. Only a name that is new can be refused memory.
pub(crate) fn replace(dict: &mut Dict, name: String, value: Val) -> Result<Option<Val>, AllocError>
    ensures ok { OnOk result (dict.new ≡ put (string_bytes name) value dict.old) }
    ensures before { IfOk result (λ before. StoodThere (string_bytes name) before value dict.old) }
    ensures absent { OnErr result (value_at (string_bytes name) dict.old ≡ None) }
    ensures err { OnErr result (dict.new ≡ dict.old) }
{
    dict.replace(name, value)
}

/// Puts a value under a name that is there, in place of the one that stands there.
#[tactic(auto, using(crate::proofs::Restored::not_refused))]
fn put_over(dict: &mut Dict, name: String, value: Val)
    ensures { IsSome (value_at (string_bytes name) dict.old) → dict.new ≡ put (string_bytes name) value dict.old }
{
    match replace(dict, name, value) {
        Ok(before) => drop(before),
        Err(_) => {}
    }
}

/// Takes a name out.
fn forget(dict: &mut Dict, name: &str)
    ensures { dict.new ≡ without name.now dict.old }
{
    dict.remove(name);
}

/// Puts back what stood under a name before a value was put there. It takes no memory.
pub(crate) fn restore(dict: &mut Dict, name: String, before: Option<Val>)
    ensures { (value : Datum) (was : List (List ℕ × Datum)) → StoodThere (string_bytes name) before value was → dict.old ≡ put (string_bytes name) value was → dict.new ≡ was }
{
    match before {
        Some(value) => put_over(dict, name, value),
        None => forget(dict, name.as_str()),
    }
}
