ghost use Rattle.std.specs.Prelude.{◌≡◌, ◌≢◌, IfOk, IfErr, OnOk, Ok, Err};
ghost use Rattle.pb_patterns.specs.Expressions.{AreTaken, IsFirstFault};
ghost use Rattle.pb_patterns.specs.Reading.{mark_of, behind_mark, element_of, each_of, elements_of, expression_in, each_expression};

use crate::element::{Element, Mark};
use crate::fault::PatFault;
use crate::meaning::read_meaning;
use pb_value::items::Items;
use pb_value::text::Text;
use std::alloc::Global;

fn mark_of(bytes: &[u8]) -> Mark
    ensures { result ≡ mark_of bytes.now }
{
    match bytes {
        [b'&', ..] => Mark::Met,
        [b'!', ..] => Mark::Excluded,
        _ => Mark::Unmarked,
    }
}

fn behind_mark(text: &str) -> &str
    ensures { result.now ≡ behind_mark text.now }
{
    match mark_of(text.as_bytes()) {
        Mark::Unmarked => text,
        _ => &text[1..],
    }
}

fn element(alloc: Global, text: &str) -> Result<Element, PatFault>
    ensures value { IfOk result (λ element. element_of text.now ≡ Ok element) }
    ensures taken { OnOk result (AreTaken (expression_in (behind_mark text.now))) }
    ensures fault { IfErr result (λ e. e ≢ PatFault.Memory → IsFirstFault (expression_in (behind_mark text.now)) (element_of text.now) PatFault.BadRegex e) }
{
    match read_meaning(alloc, behind_mark(text)) {
        Ok(what) => Ok(Element {
            text: Text::from_str(alloc, text)?,
            mark: mark_of(text.as_bytes()),
            what,
        }),
        Err(fault) => Err(fault),
    }
}

fn each_of(alloc: Global, texts: &[Text]) -> Result<Items<Element>, PatFault>
    ensures value { IfOk result (λ elements. each_of texts.now ≡ Ok elements) }
    ensures taken { OnOk result (AreTaken (each_expression texts.now)) }
    ensures fault { IfErr result (λ e. e ≢ PatFault.Memory → IsFirstFault (each_expression texts.now) (each_of texts.now) PatFault.BadRegex e) }
{
    let mut elements = Items::new(alloc);
    for text in texts {
        match element(alloc, text.as_str()) {
            Ok(element) => elements.push(element)?,
            Err(fault) => return Err(fault),
        }
    }
    Ok(elements)
}

/// The elements that these texts spell.
pub fn elements_of(alloc: Global, texts: &[Text]) -> Result<Items<Element>, PatFault>
    ensures value { IfOk result (λ elements. elements_of texts.now ≡ Ok elements) }
    ensures taken { OnOk result (AreTaken (each_expression texts.now)) }
    ensures fault { IfErr result (λ e. e ≢ PatFault.Memory → IsFirstFault (each_expression texts.now) (elements_of texts.now) PatFault.BadRegex e) }
{
    match texts {
        [] => Err(PatFault::Empty),
        _ => each_of(alloc, texts),
    }
}
