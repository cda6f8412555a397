ghost use Rattle.std.specs.Prelude.{◌≡◌, ◌≢◌, [], ◌∷◌, ◌++◌, length, IfOk, IfErr, OnOk, Ok, Err, if◌then◌else◌};
ghost use Rattle.pb_planes.specs.Set.{has_some};
ghost use Rattle.pb_patterns.specs.Selection.{selected_by};
ghost use Rattle.std.specs.List.{flat_map};
ghost use Rattle.pb_patterns.specs.Spelling.{spelt};
ghost use Rattle.pb_patterns.specs.Expressions.{AreTaken, IsFirstFault};
ghost use Rattle.pb_patterns.specs.Reading.{pattern_of, expressions_of};

use crate::choice::Choice;
use crate::element::Element;
use crate::fault::PatFault;
use crate::reading::elements_of;
use crate::selected::Selected;
use crate::spelling::push_spelt;
use pb_inventory::inventory::Inventory;
use pb_planes::HostSet;
use pb_value::items::Items;
use pb_value::text::Text;
use std::alloc::{AllocError, Global};
use std::marker::Model;

/// A pattern of hosts: its elements in their order.
#[derive(Drop)]
pub struct Pattern {
    elements: Items<Element>,
}

impl Model for Pattern {
    ghost use Rattle.std.specs.Prelude.{List};
    ghost use Rattle.pb_patterns.specs.declared.element.Element.{Element};

    ghost Value = { List Element };

    ghost view = { λ p. p.elements };
}

fn spelt_in(alloc: Global, texts: &[Text]) -> Result<Vec<Text>, AllocError>
    ensures { IfOk result (λ v. v.items ≡ flat_map spelt texts.now) }
{
    let mut spelt = Vec::new(alloc);
    for text in texts {
        push_spelt(alloc, text.as_str(), &mut spelt)?;
    }
    Ok(spelt)
}

fn push_unmatched(text: &Text, set: &HostSet, unmatched: &mut Items<Text>) -> Result<(), AllocError>
    ensures { OnOk result (unmatched.new ≡ (if has_some set.now then unmatched.old else unmatched.old ++ text.now ∷ [])) }
{
    if set.is_empty() {
        unmatched.push(text.try_clone()?)?;
    }
    Ok(())
}

fn selected(
    alloc: Global,
    elements: &[Element],
    inventory: &Inventory,
) -> Result<Selected, AllocError>
    ensures selection { IfOk result (λ selected. selected ≡ selected_by inventory.now elements.now) }
    ensures width { IfOk result (λ selected. length selected.hosts ≡ length inventory.now.hosts) }
{
    let mut choice = Choice::new(alloc, inventory.hosts())?;
    let mut unmatched = Items::new(alloc);
    for element in elements {
        let set = element.what.set(alloc, inventory)?;
        choice.add(element.mark, &set);
        push_unmatched(&element.text, &set, &mut unmatched)?;
    }
    let hosts = choice.hosts(alloc, inventory.hosts())?;
    Ok(Selected { hosts, unmatched })
}

impl Pattern {
    /// The pattern that a text spells, or its first fault: the text is cut at `,` and `:` outside
    /// square brackets, the pieces are trimmed of spaces and empty ones dropped. `BadRegex` stands
    /// for an expression that the `regex` crate refuses for another cause than memory.
    pub fn parse(alloc: Global, text: &str) -> Result<Pattern, PatFault>
        ensures value { IfOk result (λ p. pattern_of (text.now ∷ []) ≡ Ok p) }
        ensures taken { OnOk result (AreTaken (expressions_of (text.now ∷ []))) }
        ensures fault { IfErr result (λ e. e ≢ PatFault.Memory → IsFirstFault (expressions_of (text.now ∷ [])) (pattern_of (text.now ∷ [])) PatFault.BadRegex e) }
    {
        let texts = vec![in alloc; Text::from_str(alloc, text)?]?;
        Pattern::parse_all(alloc, texts.as_slice())
    }

    /// The pattern that several texts spell, taken together: it is empty only where none of them
    /// has an element.
    #[tactic(auto, unfolding(crate::specs::Reading::pattern_of, crate::specs::Reading::expressions_of))]
    pub fn parse_all(alloc: Global, texts: &[Text]) -> Result<Pattern, PatFault>
        ensures value { IfOk result (λ p. pattern_of texts.now ≡ Ok p) }
        ensures taken { OnOk result (AreTaken (expressions_of texts.now)) }
        ensures fault { IfErr result (λ e. e ≢ PatFault.Memory → IsFirstFault (expressions_of texts.now) (pattern_of texts.now) PatFault.BadRegex e) }
    {
        let spelt = spelt_in(alloc, texts)?;
        match elements_of(alloc, spelt.as_slice()) {
            Ok(elements) => Ok(Pattern { elements }),
            Err(fault) => Err(fault),
        }
    }

    /// The hosts that the pattern means in an inventory, and the elements that mean none. The order of
    /// the elements says nothing.
    pub fn select(&self, alloc: Global, inventory: &Inventory) -> Result<Selected, AllocError>
        ensures selection { IfOk result (λ selected. selected ≡ selected_by inventory.now self.now) }
        ensures width { IfOk result (λ selected. length selected.hosts ≡ length inventory.now.hosts) }
    {
        selected(alloc, self.elements.as_slice(), inventory)
    }

    /// The elements, in their order.
    pub fn elements(&self) -> &[Element]
        ensures { result.now ≡ self.now }
    {
        self.elements.as_slice()
    }
}
