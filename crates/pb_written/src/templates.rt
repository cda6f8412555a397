ghost use Rattle.std.specs.Prelude.{◌≡◌, IfOk};
ghost use Rattle.serde_json.specs.View.{view, items_view, members_view};
ghost use Rattle.pb_written.specs.Templates.{is_template, are_templates, items_are_templates, members_are_templates};

use pb_expr_syntax::fault::ExprFault;
use pb_template::plain::stands_for_itself;
use pb_template::template::Template;
use serde_json::{Map, Value};
use std::alloc::{AllocError, Global};

/// Whether the text is a template. One that stands for itself isn't parsed.
#[tactic(auto, unfolding(crate::specs::Templates::is_template))]
pub fn is_template(alloc: Global, text: &str) -> Result<bool, AllocError>
    ensures { IfOk result (λ b. b ≡ is_template text.now) }
{
    if stands_for_itself(text) {
        return Ok(true);
    }
    match Template::parse(alloc, text) {
        Ok(_) => Ok(true),
        Err(ExprFault::Memory) => Err(AllocError),
        Err(_) => Ok(false),
    }
}

/// Whether every text of the value is a template, at any depth, keys aside.
#[cycle(templates)]
pub fn are_templates(alloc: Global, json: &Value) -> Result<bool, AllocError>
    ensures { IfOk result (λ b. b ≡ are_templates (view json.now)) }
{
    match json {
        Value::Null | Value::Bool(_) | Value::Number(_) => Ok(true),
        Value::String(text) => is_template(alloc, text.as_str()),
        Value::Array(items) => items_are_templates(alloc, items),
        Value::Object(members) => members_are_templates(alloc, members),
    }
}

#[cycle(templates)]
fn items_are_templates(alloc: Global, items: &Vec<Value>) -> Result<bool, AllocError>
    ensures { IfOk result (λ b. b ≡ items_are_templates (items_view items.now.items)) }
{
    for item in items {
        if !are_templates(alloc, item)? {
            return Ok(false);
        }
    }
    Ok(true)
}

#[cycle(templates)]
fn members_are_templates(alloc: Global, members: &Map<String, Value>) -> Result<bool, AllocError>
    ensures { IfOk result (λ b. b ≡ members_are_templates (members_view members.now.entries)) }
{
    for (_key, member) in members.iter() {
        if !are_templates(alloc, member)? {
            return Ok(false);
        }
    }
    Ok(true)
}
