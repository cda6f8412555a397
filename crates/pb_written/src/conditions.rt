ghost use Rattle.serde_json.specs.View.{view};
ghost use Rattle.pb_reading.specs.Reading.{Gives};
ghost use Rattle.pb_written.specs.Conditions.{expression_in, condition, conditions};

use crate::fault::{LoadFault, no_expression};
use pb_expr_syntax::fault::ExprFault;
use pb_expr_syntax::tree::{Expr, Form};
use pb_reading::list::read_each;
use pb_reading::reads::Reads;
use pb_reading::stop::{Stop, wrong};
use pb_value::items::Items;
use pb_value::text::Text;
use serde_json::Value;
use std::alloc::Global;

/// The expression that a text at the path spells, as a whole and without braces.
pub fn read_expression(alloc: Global, path: &Text, text: &str) -> Result<Expr, Stop<LoadFault>>
    ensures { Gives result (expression_in path.now text.now) }
{
    match Expr::parse(alloc, text) {
        Ok(expr) => Ok(expr),
        Err(ExprFault::Memory) => Err(Stop::Memory),
        Err(_) => no_expression(path),
    }
}

/// Reads one condition.
struct Condition;

impl Reads<LoadFault> for Condition {
    type Value = Expr;

    ghost reads = { condition };

    fn read(alloc: Global, path: &Text, json: &Value) -> Result<Expr, Stop<LoadFault>> {
        match json {
            Value::Bool(holds) => Ok(Expr {
                form: Form::Truth(*holds),
            }),
            Value::String(text) => read_expression(alloc, path, text.as_str()),
            _ => wrong(path),
        }
    }
}

/// Reads one condition, or a list of conditions.
pub struct Conditions;

impl Reads<LoadFault> for Conditions {
    type Value = Items<Expr>;

    ghost reads = { conditions };

    #[tactic(auto, unfolding(crate::specs::Conditions::conditions))]
    fn read(alloc: Global, path: &Text, json: &Value) -> Result<Items<Expr>, Stop<LoadFault>> {
        match json {
            Value::Array(items) => read_each::<LoadFault, Condition>(alloc, path, items.as_slice()),
            _ => {
                let condition = Condition::read(alloc, path, json)?;
                let mut conditions = Items::new(alloc);
                conditions.push(condition)?;
                Ok(conditions)
            }
        }
    }
}
