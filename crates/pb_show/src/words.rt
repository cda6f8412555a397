//! The words of the program.

ghost use Rattle.std.specs.Prelude.{◌≡◌, map, string_bytes};
ghost use Rattle.pb_show.specs.Words.{word_named, asked};

use crate::look::Look;

/// What the words ask for.
#[derive(Clone, Copy)]
pub enum Asked {
    /// The words of the program.
    Help,
    /// To show lines so.
    Show(Look),
    /// Nothing: the word of this number isn't one of the program's.
    Unknown(usize),
}

/// A word of the program.
#[derive(Clone, Copy)]
enum Word {
    Color,
    Plain,
    Starts,
    Help,
    Other,
}

/// Which of the program's words it is.
fn word_named(word: &str) -> Word
    ensures { result ≡ word_named word.now }
{
    if word == "--color" {
        Word::Color
    } else if word == "--plain" {
        Word::Plain
    } else if word == "--starts" {
        Word::Starts
    } else if word == "--help" {
        Word::Help
    } else if word == "-h" {
        Word::Help
    } else {
        Word::Other
    }
}

/// What these words ask for, which stand behind the program's name; and how lines look where they don't say.
pub fn read_words(words: &[String], look: Look) -> Asked
    ensures { result ≡ asked look 0 (map string_bytes words.now) }
{
    let mut wanted = look;
    for (i, word) in words.iter().enumerate() {
        match word_named(word.as_str()) {
            Word::Color => wanted.color = true,
            Word::Plain => {
                wanted.color = false;
                wanted.progress = false;
            }
            Word::Starts => wanted.starts = true,
            Word::Help => return Asked::Help,
            Word::Other => return Asked::Unknown(i),
        }
    }
    Asked::Show(wanted)
}
