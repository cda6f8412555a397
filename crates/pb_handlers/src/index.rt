ghost use Rattle.std.specs.Prelude.{◌≡◌, ◌<◌, ◌^◌, ◌&&◌, ◌||◌, [], ℕ, List, IfOk, OnOk, length, nat_eq, slice_get, unwrap_or};
ghost use Rattle.std.specs.Option.{option_copied};
ghost use Rattle.std.specs.Str.{bytes_eq};
ghost use Rattle.pb_handlers.specs.Pending.{is_among};
ghost use Rattle.pb_handlers.specs.Naming.{answers_to};
ghost use Rattle.pb_handlers.specs.Index.{under, numbers_under, IsIndex};

use crate::naming::HandlerNames;
use crate::words::WordSet;
use pb_value::items::Items;
use std::alloc::{AllocError, Global};
use std::marker::Model;

/// Words, and beside each the numbers of the handlers that answer to it.
#[derive(Drop)]
pub(crate) struct Index {
    words: WordSet,
    numbers: Vec<Items<u32>>,
}

impl Model for Index {
    ghost use Rattle.pb_handlers.specs.Index.{WordsOf};

    ghost Value = { WordsOf };

    ghost view = { λ i. record { words = i.words; numbers = i.numbers.items } };
}

impl Index {
    /// The index of these handlers, each with its position as its number.
    pub(crate) fn of(alloc: Global, handlers: &[HandlerNames]) -> Result<Index, AllocError>
        requires { length handlers.now < 2 ^ 32 }
        ensures { IfOk result (λ index. IsIndex handlers.now index) }
    {
        let mut words = WordSet::new(alloc);
        let mut numbers = Vec::new(alloc);
        for (number, handler) in handlers.iter().enumerate() {
            add_handler(alloc, &mut words, &mut numbers, handler, number as u32)?;
        }
        Ok(Index { words, numbers })
    }

    /// The numbers of the handlers that answer to a word; there may be none.
    pub(crate) fn under(&self, word: &str) -> Option<&Items<u32>>
        ensures { unwrap_or (option_copied result) [] ≡ numbers_under word.now self.now }
    {
        self.at(self.words.number(word)?)
    }

    fn at(&self, at: usize) -> Option<&Items<u32>>
        ensures { option_copied result ≡ slice_get self.now.numbers at }
    {
        self.numbers.get(at)
    }
}

/// Puts a handler's number beside its name and its topics.
fn add_handler(
    alloc: Global,
    words: &mut WordSet,
    numbers: &mut Vec<Items<u32>>,
    handler: &HandlerNames,
    number: u32,
) -> Result<(), AllocError>
    requires { length words.old ≡ length numbers.old.items }
    ensures long { OnOk result (length words.new ≡ length numbers.new.items) }
    ensures among { OnOk result ((word : List ℕ) (k : ℕ) → is_among k (under word words.new numbers.new.items)
        ≡ (is_among k (under word words.old numbers.old.items) || (answers_to word handler.now && nat_eq k number))) }
{
    add(alloc, words, numbers, handler.name.as_str(), number)?;
    for topic in handler.listens.as_slice() {
        add(alloc, words, numbers, topic.as_str(), number)?;
    }
    Ok(())
}

/// Puts a number beside a word.
fn add(
    alloc: Global,
    words: &mut WordSet,
    numbers: &mut Vec<Items<u32>>,
    word: &str,
    number: u32,
) -> Result<(), AllocError>
    requires { length words.old ≡ length numbers.old.items }
    ensures long { OnOk result (length words.new ≡ length numbers.new.items) }
    ensures among { OnOk result ((other : List ℕ) (k : ℕ) → is_among k (under other words.new numbers.new.items)
        ≡ (is_among k (under other words.old numbers.old.items) || (bytes_eq other word.now && nat_eq k number))) }
{
    let (at, is_new) = words.insert(alloc, word)?;
    if is_new {
        let mut first = Items::new(alloc);
        first.push(number)?;
        numbers.push(first)?;
    } else {
        numbers[at].push(number)?;
    }
    Ok(())
}
