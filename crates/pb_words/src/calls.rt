ghost use Rattle.std.specs.Prelude.{◌≡◌, ◌≢◌, IfOk, IfErr, Ok, Err, length, nat_lt};
ghost use Rattle.pb_value.specs.Limits.{max_text};
ghost use Rattle.pb_words.specs.Calls.{within_limit, word_of, each_word, line_call, argv_call, shell_call};

use crate::fault::CallFault;
use crate::words::{some_words, words_of};
use pb_outcome::job::Call;
use pb_value::items::Items;
use pb_value::limits::MAX_TEXT;
use pb_value::text::Text;
use pb_value::val::Val;
use std::alloc::Global;

fn is_large(text: &str) -> bool
    ensures { result ≡ nat_lt max_text (length text.now) }
{
    text.len() > MAX_TEXT
}

/// The command of a text, which is cut into words.
pub fn line_call(alloc: Global, line: &str) -> Result<Call, CallFault>
    ensures value { IfOk result (λ call. line_call line.now ≡ Ok call) }
    ensures fault { IfErr result (λ e. e ≢ CallFault.Memory → line_call line.now ≡ Err e) }
{
    if is_large(line) {
        return Err(CallFault::TooLarge);
    }
    let words = words_of(alloc, line)?;
    Ok(Call::Command { words })
}

/// The command of these words, each the text of a value.
pub fn argv_call(alloc: Global, argv: &[Val]) -> Result<Call, CallFault>
    ensures value { IfOk result (λ call. argv_call argv.now ≡ Ok call) }
    ensures fault { IfErr result (λ e. e ≢ CallFault.Memory → argv_call argv.now ≡ Err e) }
{
    let words = each_word(alloc, argv)?;
    let words = some_words(words)?;
    Ok(Call::Command { words })
}

/// The call of a text for the shell.
pub fn shell_call(alloc: Global, cmd: &str) -> Result<Call, CallFault>
    ensures value { IfOk result (λ call. shell_call cmd.now ≡ Ok call) }
    ensures fault { IfErr result (λ e. e ≢ CallFault.Memory → shell_call cmd.now ≡ Err e) }
{
    if is_large(cmd) {
        return Err(CallFault::TooLarge);
    }
    let text = Text::from_str(alloc, cmd)?;
    Ok(Call::Shell { text })
}

/// The text of a value: at most 1,048,576 bytes.
pub fn word_of(alloc: Global, value: &Val) -> Result<Text, CallFault>
    ensures value { IfOk result (λ s. word_of value.now ≡ Ok s) }
    ensures fault { IfErr result (λ e. e ≢ CallFault.Memory → word_of value.now ≡ Err e) }
{
    let text = Text::from_string(value.text_of(alloc)?);
    if is_large(text.as_str()) {
        return Err(CallFault::TooLarge);
    }
    Ok(text)
}

fn each_word(alloc: Global, values: &[Val]) -> Result<Items<Text>, CallFault>
    ensures value { IfOk result (λ ws. each_word values.now ≡ Ok ws) }
    ensures fault { IfErr result (λ e. e ≢ CallFault.Memory → each_word values.now ≡ Err e) }
{
    let mut words = Vec::new(alloc);
    for value in values {
        words.push(word_of(alloc, value)?)?;
    }
    Ok(Items::from_vec(words))
}
