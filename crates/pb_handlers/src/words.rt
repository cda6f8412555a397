ghost use Rattle.std.specs.Prelude.{◌≡◌, [], IfOk, OnOk, not, position};
ghost use Rattle.std.specs.List.{list_any, position_or_len};
ghost use Rattle.std.specs.Str.{bytes_eq};
ghost use Rattle.pb_handlers.specs.Index.{with_word};

use pb_names::NameList;
use std::alloc::{AllocError, Global};
use std::marker::Model;

/// Words, each once, in the order in which they came. A word is found without a look at the others.
pub(crate) struct WordSet {
    list: NameList,
}

impl Drop for WordSet {
    fn drop(self) {
        let WordSet { list } = self;
        drop(list);
    }
}

impl Model for WordSet {
    ghost use Rattle.std.specs.Prelude.{ℕ, List};

    ghost Value = { List (List ℕ) };

    ghost view = { λ w. w.list };
}

impl WordSet {
    /// No word.
    pub(crate) fn new(alloc: Global) -> WordSet
        ensures { result ≡ [] }
    {
        WordSet {
            list: NameList::new(alloc),
        }
    }

    /// The number of a word, in the order in which they came.
    pub(crate) fn number(&self, word: &str) -> Option<usize>
        ensures { result ≡ position (bytes_eq word.now) self.now }
    {
        self.list.number(word)
    }

    /// Puts a word in, unless it is there; the word's number, and whether it is new.
    pub(crate) fn insert(&mut self, alloc: Global, word: &str) -> Result<(usize, bool), AllocError>
        ensures number { IfOk result (λ r. r.0 ≡ position_or_len (bytes_eq word.now) self.old) }
        ensures is_new { IfOk result (λ r. r.1 ≡ not (list_any (bytes_eq word.now) self.old)) }
        ensures words { OnOk result (self.new ≡ with_word word.now self.old) }
    {
        match self.list.number(word) {
            Some(number) => Ok((number, false)),
            None => {
                let number = self.list.len();
                self.list.put(alloc, word)?;
                Ok((number, true))
            }
        }
    }
}
