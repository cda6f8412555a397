ghost use Rattle.std.specs.Prelude.{◌≡◌, ◌≢◌, ◌∷◌, ◌++◌, [], ℕ, List, false, IfOk, IfErr, Ok, Err};
ghost use Rattle.std.specs.Char.{encode_utf8};
ghost use Rattle.std.specs.Str.{chars};
ghost use Rattle.pb_words.specs.declared.words.Spot.TheVariants as spot;
ghost use Rattle.pb_words.specs.Words.{is_space, is_quote, between, some_word, words_of};
ghost use Rattle.pb_words.specs.Cutting.{resumed_at, resumed};

use crate::fault::CallFault;
use pb_value::items::Items;
use pb_value::text::Text;
use std::alloc::{AllocError, Global};
use std::marker::Model;

/// A word that grows at its end.
#[derive(Drop)]
struct Word {
    text: String,
}

impl Model for Word {
    ghost use Rattle.std.specs.Prelude.{ℕ, List, string_bytes};

    ghost Value = { List ℕ };

    ghost view = { λ w. string_bytes w.text };
}

/// Where in a text its characters are read, with what the word has so far.
#[derive(Drop)]
enum Spot {
    /// Between two words.
    Between,
    /// In a word.
    Within(Word),
    /// In a word, between two of these quotes.
    Quoted(Word, char),
}

/// A text that is cut into words from its front on.
#[derive(Drop)]
struct Cutter {
    words: Items<Text>,
    spot: Spot,
}

fn is_space(c: char) -> bool
    ensures { result ≡ is_space c }
{
    c == ' ' || c == '\t' || c == '\n' || c == '\r'
}

fn is_quote(c: char) -> bool
    ensures { result ≡ is_quote c }
{
    c == '\'' || c == '"'
}

impl Word {
    fn new(alloc: Global) -> Word
        ensures { result ≡ [] }
    {
        Word {
            text: String::new(alloc),
        }
    }

    fn with(self, c: char) -> Result<Word, AllocError>
        ensures { IfOk result (λ w. w ≡ self ++ encode_utf8 c) }
    {
        let Word { mut text } = self;
        text.push(c)?;
        Ok(Word { text })
    }

    fn into_text(self) -> Text
        ensures { result ≡ self }
    {
        let Word { text } = self;
        Text::from_string(text)
    }
}

impl Spot {
    /// Behind a character that is no space, in a word that has begun.
    fn inside(word: Word, c: char) -> Result<Spot, AllocError>
        ensures { IfOk result (λ after. (before : List (List ℕ)) (cs : List ℕ) → is_space c ≡ false
            → resumed_at after before cs ≡ resumed_at (spot.Within word) before (c ∷ cs)) }
    {
        if is_quote(c) {
            return Ok(Spot::Quoted(word, c));
        }
        Ok(Spot::Within(word.with(c)?))
    }

    /// Behind a character between quotes.
    fn quoted(word: Word, quote: char, c: char) -> Result<Spot, AllocError>
        ensures { IfOk result (λ after. (before : List (List ℕ)) (cs : List ℕ)
            → resumed_at after before cs ≡ resumed_at (spot.Quoted word quote) before (c ∷ cs)) }
    {
        if c == quote {
            return Ok(Spot::Within(word));
        }
        Ok(Spot::Quoted(word.with(c)?, quote))
    }
}

/// Behind a character between two words.
fn behind_space(alloc: Global, words: Items<Text>, c: char) -> Result<Cutter, AllocError>
    ensures { IfOk result (λ after. (cs : List ℕ)
        → resumed after cs ≡ resumed_at spot.Between words (c ∷ cs)) }
{
    if is_space(c) {
        return Ok(Cutter {
            words,
            spot: Spot::Between,
        });
    }
    let spot = Spot::inside(Word::new(alloc), c)?;
    Ok(Cutter { words, spot })
}

/// Behind a character in a word.
fn behind_word(words: Items<Text>, word: Word, c: char) -> Result<Cutter, AllocError>
    ensures { IfOk result (λ after. (cs : List ℕ)
        → resumed after cs ≡ resumed_at (spot.Within word) words (c ∷ cs)) }
{
    if is_space(c) {
        return ended(words, word);
    }
    let spot = Spot::inside(word, c)?;
    Ok(Cutter { words, spot })
}

/// Behind the space that ends a word.
fn ended(mut words: Items<Text>, word: Word) -> Result<Cutter, AllocError>
    ensures { IfOk result (λ after. after ≡ record { words = words ++ word ∷ []; spot = spot.Between }) }
{
    words.push(word.into_text())?;
    Ok(Cutter {
        words,
        spot: Spot::Between,
    })
}

impl Cutter {
    fn new(alloc: Global) -> Cutter
        ensures { result ≡ record { words = []; spot = spot.Between } }
    {
        Cutter {
            words: Items::new(alloc),
            spot: Spot::Between,
        }
    }

    /// The text read one character further.
    fn with(self, alloc: Global, c: char) -> Result<Cutter, AllocError>
        ensures { IfOk result (λ after. (cs : List ℕ) → resumed after cs ≡ resumed self (c ∷ cs)) }
    {
        let Cutter { words, spot } = self;
        match spot {
            Spot::Between => behind_space(alloc, words, c),
            Spot::Within(word) => behind_word(words, word, c),
            Spot::Quoted(word, quote) => {
                let spot = Spot::quoted(word, quote, c)?;
                Ok(Cutter { words, spot })
            }
        }
    }

    /// The words of the whole text.
    fn finish(self) -> Result<Items<Text>, CallFault>
        ensures value { IfOk result (λ ws. resumed self [] ≡ Ok ws) }
        ensures fault { IfErr result (λ e. e ≢ CallFault.Memory → resumed self [] ≡ Err e) }
    {
        let Cutter { mut words, spot } = self;
        match spot {
            Spot::Between => {}
            Spot::Within(word) => words.push(word.into_text())?,
            Spot::Quoted(_, _) => return Err(CallFault::UnclosedQuote),
        }
        Ok(words)
    }
}

fn cut(alloc: Global, text: &str) -> Result<Cutter, AllocError>
    ensures { IfOk result (λ cutter. resumed cutter [] ≡ between (chars text.now)) }
{
    let mut cutter = Cutter::new(alloc);
    for c in text.chars() {
        cutter = cutter.with(alloc, c)?;
    }
    Ok(cutter)
}

/// The words, unless there are none.
pub(crate) fn some_words(words: Items<Text>) -> Result<Items<Text>, CallFault>
    ensures { result ≡ some_word words }
{
    if words.is_empty() {
        return Err(CallFault::NoCommand);
    }
    Ok(words)
}

/// The words of a command's text, which is cut at spaces, tabs and line ends. `'..'` and `".."` keep what stands between
/// them, without escapes. A text without a word is no command. See Ansible's documentation of `ansible.builtin.command`.
pub fn words_of(alloc: Global, text: &str) -> Result<Items<Text>, CallFault>
    ensures value { IfOk result (λ ws. words_of text.now ≡ Ok ws) }
    ensures fault { IfErr result (λ e. e ≢ CallFault.Memory → words_of text.now ≡ Err e) }
{
    let words = cut(alloc, text)?.finish()?;
    some_words(words)
}
