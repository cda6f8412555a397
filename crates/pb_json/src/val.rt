//! Values from JSON and as JSON.
ghost use Rattle.std.specs.Prelude.{◌≡◌, ◌≢◌, ◌≤◌, ◌<◌, IfOk, IfErr, Ok, Err};
ghost use Rattle.serde_json.specs.View.{view};
ghost use Rattle.pb_value.specs.Depth.{depth};
ghost use Rattle.pb_value.specs.FromJson.{value_of};
ghost use Rattle.pb_value.specs.JsonDepth.{json_depth};
ghost use Rattle.pb_value.specs.Limits.{max_depth};
ghost use Rattle.pb_value.specs.ToJson.{json_of};

use pb_value::fault::ValFault;
use pb_value::from_json::from_json;
use pb_value::to_json::to_json;
use pb_value::val::Val;
use serde_json::Value;
use std::alloc::{AllocError, Global};

/// A value that is read from JSON and written as JSON: `Val` is one.
pub trait ValJson: Drop {
    ghost use Rattle.pb_value.specs.Datum.{Datum};

    /// The plain tree that it is.
    ghost datum: { Self → Datum };

    /// The value of a JSON value, or the first fault in it: lists are looked at from the front and
    /// the members of an object in byte order of their keys, and a list or object that stands too
    /// deep is a fault before its members are looked at. A value is too deep exactly where it nests deeper than 64 levels.
    ///
    /// # Errors
    /// `1 NotWhole`, `2 OutOfRange`, `3 TooDeep`, and `4 Memory` in place of any answer.
    fn from_json(alloc: Global, json: &Value) -> Result<Self, ValFault>
        ensures value { IfOk result (λ v. value_of (view json.now) ≡ Ok (datum v)) }
        ensures fault { IfErr result (λ e. e ≢ ValFault.Memory → value_of (view json.now) ≡ Err e) }
        ensures shallow { IfOk result (λ v. depth (datum v) ≤ max_depth) }
        ensures nested { IfOk result (λ v. depth (datum v) ≡ json_depth (view json.now)) }
        ensures deep { IfErr result (λ e. e ≡ ValFault.TooDeep → max_depth < json_depth (view json.now)) };

    /// The value as JSON.
    ///
    /// # Errors
    /// Where memory is refused.
    fn to_json(&self, alloc: Global) -> Result<Value, AllocError>
        ensures { IfOk result (λ j. view j ≡ json_of (datum self.now)) };
}

impl ValJson for Val {
    ghost datum = { λ v. v };

    fn from_json(alloc: Global, json: &Value) -> Result<Val, ValFault> {
        from_json(alloc, json)
    }

    fn to_json(&self, alloc: Global) -> Result<Value, AllocError> {
        to_json(alloc, self)
    }
}
