ghost use Rattle.std.specs.Prelude.{◌≡◌, ◌<◌, ◌^◌, IfOk, length, map, not};
ghost use Rattle.std.specs.List.{list_any};
ghost use Rattle.std.specs.Option.{option_copied};
ghost use Rattle.pb_handlers.specs.Naming.{answers_to, is_notified, notified_from, first_unknown};
ghost use Rattle.pb_handlers.specs.Index.{marked_from};

use crate::index::Index;
use crate::marks::Marks;
use crate::naming::HandlerNames;
use pb_value::text::Text;
use std::alloc::{AllocError, Global};
use std::marker::Model;

/// A play's handlers that count, in the order of definition, by their names and topics. A word is looked up without a look at the others.
#[derive(Drop)]
pub struct Handlers {
    handlers: Vec<HandlerNames>,
    index: Index,
}

impl Model for Handlers {
    ghost use Rattle.std.specs.Prelude.{◌<◌, ◌^◌, List, length};
    ghost use Rattle.std.specs.Coded.{codes};
    ghost use Rattle.pb_handlers.specs.declared.naming.HandlerNames.{HandlerNames};
    ghost use Rattle.pb_handlers.specs.Index.{IsIndex};

    ghost Value = { List HandlerNames };

    ghost coded = { Prim.hlevel codes };

    ghost view = { λ h. h.handlers.items };

    ghost invariant = { λ h. (length h.handlers.items < 2 ^ 32) × IsIndex h.handlers.items h.index };
}

impl Handlers {
    /// These handlers, each with its position as its number.
    pub fn of(alloc: Global, handlers: Vec<HandlerNames>) -> Result<Handlers, AllocError>
        requires { length handlers.items < 2 ^ 32 }
        ensures { IfOk result (λ made. made ≡ handlers.items) }
    {
        let index = Index::of(alloc, handlers.as_slice())?;
        Ok(Handlers { handlers, index })
    }

    /// How many handlers there are.
    pub fn len(&self) -> usize
        ensures { result ≡ length self.now }
    {
        self.handlers.len()
    }

    /// The numbers of the handlers that have one of these words as their name, or listen to one, each once, in the order of definition.
    #[tactic(auto, using(crate::proofs::Collected::notified_marked))]
    pub fn notified(&self, alloc: Global, words: &[Text]) -> Result<Vec<u32>, AllocError>
        ensures { IfOk result (λ numbers. numbers.items ≡ notified_from words.now 0 self.now) }
    {
        let marks = self.marked(alloc, words)?;
        numbers_of(alloc, marks.as_slice())
    }

    fn marked(&self, alloc: Global, words: &[Text]) -> Result<Marks, AllocError>
        ensures marks { IfOk result (λ marks. marks ≡ map (is_notified words.now) self.now) }
        ensures few { IfOk result (λ marks. length marks < 2 ^ 32) }
    {
        let mut marks = Marks::none(alloc, self.handlers.len())?;
        for word in words {
            if let Some(numbers) = self.index.under(word.as_str()) {
                marks.notify(numbers.as_slice());
            }
        }
        Ok(marks)
    }

    /// The first of these words that stands for no handler, if there is one.
    pub fn unknown<'a>(&self, words: &'a [Text]) -> Option<&'a Text>
        ensures { option_copied result ≡ first_unknown self.now words.now }
    {
        for word in words {
            if !self.has(word.as_str()) {
                return Some(word);
            }
        }
        None
    }

    /// Whether a word stands for some handler.
    fn has(&self, word: &str) -> bool
        ensures { result ≡ list_any (answers_to word.now) self.now }
    {
        match self.index.under(word) {
            Some(numbers) => !numbers.is_empty(),
            None => false,
        }
    }
}

/// The numbers at which there is a mark, in order.
fn numbers_of(alloc: Global, marks: &[bool]) -> Result<Vec<u32>, AllocError>
    requires { length marks.now < 2 ^ 32 }
    ensures { IfOk result (λ numbers. numbers.items ≡ marked_from 0 marks.now) }
{
    let mut numbers = Vec::new(alloc);
    for (number, is_marked) in marks.iter().enumerate() {
        if *is_marked {
            numbers.push(number as u32)?;
        }
    }
    Ok(numbers)
}
