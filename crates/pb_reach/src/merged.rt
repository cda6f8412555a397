//! Words in the texts of what a host has from its groups.
ghost use Rattle.std.specs.Prelude.{◌≡◌};
ghost use Rattle.pb_value.specs.Datum.{members_of};
ghost use Rattle.pb_layers.specs.Lent.{lent_map};
ghost use Rattle.pb_layers.specs.Merged.{merged};
ghost use Rattle.pb_mentions.specs.Mentions.{members_mention};

use pb_layers::lent::Merged;
use pb_mentions::values::{members_mention, mentions};
use pb_value::val::Val;

/// Whether a word stands in a text of one of these values, at any depth, names of dicts aside.
fn lent_mention(word: &str, entries: &[(&str, &Val)]) -> bool
    ensures { result ≡ members_mention word.now (members_of (lent_map entries.now)) }
{
    for entry in entries {
        if mentions(word, entry.1) {
            return true;
        }
    }
    false
}

/// The same of one of the variables of a host's groups.
pub(crate) fn merged_mention(word: &str, variables: Merged) -> bool
    ensures { result ≡ members_mention word.now (members_of (merged variables.entry)) }
{
    match variables {
        Merged::Kept(variables) => members_mention(word, variables),
        Merged::Lent(variables) => lent_mention(word, variables.entries()),
    }
}
