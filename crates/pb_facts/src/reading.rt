ghost use Rattle.std.specs.Prelude.{◌≡◌};
ghost use Rattle.std.specs.Option.{option_copied};
ghost use Rattle.pb_facts.specs.Facts.{dict_of, facts_in, gathered_in};
ghost use Rattle.pb_facts.specs.Update.{IsOrdered};

use pb_value::val::{Dict, Node, Val};

/// The members of a value that has some.
fn dict_of(value: &Val) -> Option<&Dict>
    ensures { option_copied result ≡ dict_of value.now }
{
    match &value.node {
        Node::Dict(members) => Some(members),
        _ => None,
    }
}

/// The facts that stand in a layer of gathered ones, or among the members of a result.
pub(crate) fn gathered_in(layer: &Dict) -> Option<&Dict>
    ensures { option_copied result ≡ gathered_in layer.now }
{
    match layer.get("ansible_facts") {
        Some(facts) => dict_of(facts),
        None => None,
    }
}

/// The facts that stand in an item's result, if some do: the members of `ansible_facts` there.
pub fn facts_in(shown: &Val) -> Option<&Dict>
    ensures { option_copied result ≡ facts_in shown.now }
{
    match dict_of(shown) {
        Some(members) => gathered_in(members),
        None => None,
    }
}

/// The names of a dict stand in order.
pub(crate) fn names_are_ordered(known: &Dict)
    ensures { IsOrdered known.now }
{
    drop(known.iter());
}
