ghost use Rattle.std.specs.Prelude.{◌≡◌, ◌≢◌, true, IfOk, IfErr, Ok, Err, nat_lt, length};
ghost use Rattle.pb_outcome.specs.declared.outcome.Form.TheVariants.{Ran, Module, Unreachable, NotStarted};
ghost use Rattle.pb_outcome.specs.Whole.{is_whole};
ghost use Rattle.pb_outcome.specs.Limits.{IsWithin, ran_of, module_of, unreachable_of};
ghost use Rattle.pb_value.specs.Limits.{max_text};

use crate::cause::Cause;
use crate::fault::OutcomeFault;
use pb_value::limits::{MAX_DEPTH, MAX_TEXT};
use pb_value::text::Text;
use pb_value::val::Val;
use std::alloc::{AllocError, Global};
use std::marker::Model;

/// What came of a job. Its texts have at most 1,048,576 bytes each, and its value nests at most 64 deep.
#[derive(Drop)]
pub struct Outcome {
    pub(crate) form: Form,
}

/// What came of a job, by its kind.
pub enum Form {
    /// The program ran to its end: its exit status, and what it wrote to standard output and to standard error.
    Ran { rc: i64, out: Text, err: Text },
    /// The facts program gave this value.
    Module(Val),
    /// The target can't be reached, and the connector's words about it.
    Unreachable { msg: Text },
    /// There is no answer of a program.
    NotStarted { cause: Cause },
}

impl Drop for Form {
    fn drop(self) {
        match self {
            Form::Ran { rc: _, out, err } => {
                drop(out);
                drop(err);
            }
            Form::Module(value) => drop(value),
            Form::Unreachable { msg } => drop(msg),
            Form::NotStarted { cause: _ } => {}
        }
    }
}

impl Model for Outcome {
    ghost use Rattle.pb_outcome.specs.declared.outcome.Form.{Form};

    ghost Value = { Form };

    ghost use Rattle.pb_outcome.specs.Code.{coded_form};

    ghost coded = { coded_form };

    ghost use Rattle.std.specs.Prelude.{◌≡◌, true};
    ghost use Rattle.pb_outcome.specs.Limits.{IsWithin};
    ghost use Rattle.pb_outcome.specs.Whole.{is_whole};

    ghost view = { λ o. o.form };

    ghost invariant = { λ o. IsWithin o.form × (is_whole o.form ≡ true) };
}

pub(crate) fn is_large(text: &str) -> bool
    ensures { result ≡ nat_lt max_text (length text.now) }
{
    text.len() > MAX_TEXT
}

impl Outcome {
    /// A program's end. Texts of more than 1,048,576 bytes are refused as too large.
    pub fn ran(rc: i64, out: Text, err: Text) -> Result<Outcome, OutcomeFault>
        ensures { result ≡ ran_of rc out err }
    {
        if is_large(out.as_str()) || is_large(err.as_str()) {
            return Err(OutcomeFault::TooLarge);
        }
        Ok(Outcome {
            form: Form::Ran { rc, out, err },
        })
    }

    /// The value of a facts program. One that nests more than 64 deep is refused as too large.
    pub fn module(value: Val) -> Result<Outcome, OutcomeFault>
        ensures { result ≡ module_of value }
    {
        if !value.is_within(MAX_DEPTH) {
            return Err(OutcomeFault::TooLarge);
        }
        Ok(Outcome {
            form: Form::Module(value),
        })
    }

    /// A target that can't be reached. A text of more than 1,048,576 bytes is refused as too large.
    pub fn unreachable(msg: Text) -> Result<Outcome, OutcomeFault>
        ensures { result ≡ unreachable_of msg }
    {
        if is_large(msg.as_str()) {
            return Err(OutcomeFault::TooLarge);
        }
        Ok(Outcome {
            form: Form::Unreachable { msg },
        })
    }

    /// No answer of a program. It takes no memory.
    pub fn not_started(cause: Cause) -> Outcome
        ensures { result ≡ NotStarted cause }
    {
        Outcome {
            form: Form::NotStarted { cause },
        }
    }

    /// What came of the job, by its kind.
    pub fn form(&self) -> &Form
        ensures is { result.now ≡ self.now }
        ensures within { IsWithin self.now }
        ensures whole { is_whole self.now ≡ true }
    {
        &self.form
    }

    /// An equal outcome of its own.
    pub fn try_clone(&self, alloc: Global) -> Result<Outcome, AllocError>
        ensures { IfOk result (λ o. o ≡ self.now) }
    {
        let form = match &self.form {
            Form::Ran { rc, out, err } => Form::Ran {
                rc: *rc,
                out: out.try_clone()?,
                err: err.try_clone()?,
            },
            Form::Module(value) => Form::Module(value.try_clone(alloc)?),
            Form::Unreachable { msg } => Form::Unreachable {
                msg: msg.try_clone()?,
            },
            Form::NotStarted { cause } => Form::NotStarted { cause: *cause },
        };
        Ok(Outcome { form })
    }
}
