//! Outcomes from JSON and as JSON.
ghost use Rattle.std.specs.Prelude.{◌≡◌, ◌≢◌, ℕ, List, IfOk, IfErr, Ok, Err};
ghost use Rattle.serde_json.specs.View.{view};
ghost use Rattle.pb_outcome.specs.Reading.{outcome_of};
ghost use Rattle.pb_outcome.specs.Writing.{outcome_json};

use pb_outcome::fault::OutcomeFault;
use pb_outcome::outcome::Outcome;
use pb_outcome::reading::read_outcome;
use pb_outcome::writing::outcome_to_json;
use pb_value::text::Text;
use serde_json::Value;
use std::alloc::{AllocError, Global};

/// What became of a job, as it is read from JSON and written as JSON: `Outcome` is it.
pub trait OutcomeJson: Drop {
    ghost use Rattle.pb_outcome.specs.declared.outcome.Form.{Form};

    /// Its form and what it holds.
    ghost form: { Self → Form };

    /// The outcome that stands at the path of a file, or the first fault in it. It is an object with exactly the keys
    /// of one of four forms: `err`, `out` and `rc`; `facts`; `unreachable`; `not_started`, a number from 1 to 6. What
    /// the constructors refuse as too large is a wrong shape here.
    ///
    /// # Errors
    /// The first wrong shape by its path, and `Memory` in place of any answer.
    fn read(alloc: Global, path: &Text, json: &Value) -> Result<Self, OutcomeFault>
        ensures value { IfOk result (λ o. outcome_of path.now (view json.now) ≡ Ok (form o)) }
        ensures fault { IfErr result
            (λ e. e ≢ OutcomeFault.Memory → outcome_of path.now (view json.now) ≡ Err e) };

    /// The outcome as JSON: an object with the keys of its form, which `read` reads as the same outcome.
    ///
    /// # Errors
    /// Where memory is refused.
    fn to_json(&self, alloc: Global) -> Result<Value, AllocError>
        ensures json { IfOk result (λ j. view j ≡ outcome_json (form self.now)) }
        ensures reads_back { IfOk result (λ j. (path : List ℕ) → outcome_of path (view j) ≡ Ok (form self.now)) };
}

impl OutcomeJson for Outcome {
    ghost form = { λ o. o };

    fn read(alloc: Global, path: &Text, json: &Value) -> Result<Outcome, OutcomeFault> {
        read_outcome(alloc, path, json)
    }

    fn to_json(&self, alloc: Global) -> Result<Value, AllocError> {
        outcome_to_json(alloc, self)
    }
}
