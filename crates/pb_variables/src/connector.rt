//! The words of the program that connects to a host.
ghost use Rattle.std.specs.Prelude.{◌≡◌, unwrap_or, [], IfOk};
ghost use Rattle.pb_value.specs.Datum.{items_of};
ghost use Rattle.pb_layers.specs.Merged.{merged};
ghost use Rattle.pb_variables.specs.Connector.{texts_in, words_in, connector_in};

use pb_layers::lent::Merged;
use pb_value::items::Items;
use pb_value::text::Text;
use pb_value::val::{Dict, Node, Val};
use std::alloc::{AllocError, Global};

/// The words that connect to a host, as its inventory variable `pb_connector` has them: a list of texts. Its own variable stands
/// before that of its groups, and any other value than a list of texts counts as no words. Texts are taken as they stand, and are
/// no templates. The only error is want of memory.
pub fn connector(alloc: Global, own: &Dict, groups: Merged) -> Result<Items<Text>, AllocError>
    ensures { IfOk result (λ words. words ≡ connector_in own.now (merged groups.entry)) }
{
    if let Some(value) = own.get("pb_connector") {
        return words_in(alloc, value);
    }
    match groups.get("pb_connector") {
        Some(value) => words_in(alloc, value),
        None => Ok(Items::new(alloc)),
    }
}

fn words_in(alloc: Global, value: &Val) -> Result<Items<Text>, AllocError>
    ensures { IfOk result (λ words. words ≡ words_in value.now) }
{
    match &value.node {
        Node::List(values) => texts_in(alloc, values.as_slice()),
        _ => Ok(Items::new(alloc)),
    }
}

/// The texts of values that are all texts; else none.
#[tactic(auto, using(crate::proofs::Texts::behind_a_text, crate::proofs::Texts::behind_nothing))]
fn texts_in(alloc: Global, values: &[Val]) -> Result<Items<Text>, AllocError>
    ensures { IfOk result (λ words. words ≡ unwrap_or (texts_in (items_of values.now)) []) }
{
    let mut words = Items::new(alloc);
    for value in values {
        let Node::Text(word) = &value.node else {
            return Ok(Items::new(alloc));
        };
        words.push(word.try_clone()?)?;
    }
    Ok(words)
}
