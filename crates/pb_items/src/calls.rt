//! What tasks of `command` and `shell` run.
ghost use Rattle.std.specs.Prelude.{◌≡◌, ◌≢◌, IfOk, IfErr, Ok, Err};
ghost use Rattle.pb_value.specs.Reading.{map_ok};
ghost use Rattle.pb_outcome.specs.declared.job.Call.TheVariants as call;
ghost use Rattle.pb_words.specs.Words.{some_word};
ghost use Rattle.pb_items.specs.Faults.{called};
ghost use Rattle.pb_items.specs.Calls.{word_in, words_in, command_in, shell_in};
ghost use Rattle.pb_items.specs.declared.fault.ItemFault.TheVariants as item;

use crate::fault::ItemFault;
use pb_expr_eval::eval::render_prepared;
use pb_layers::scope::Scope;
use pb_outcome::job::Call;
use pb_play::commands::CommandWords;
use pb_prepared::prepared::{Prepared, PreparedText};
use pb_value::items::Items;
use pb_value::text::Text;
use pb_words::calls::{line_call, word_of};
use pb_words::fault::CallFault;
use std::alloc::Global;

/// The text of what a value gives.
fn word_in(alloc: Global, value: &Prepared, scope: &Scope) -> Result<Text, ItemFault>
    ensures value { IfOk result (λ s. word_in scope.now value.now ≡ Ok s) }
    ensures fault { IfErr result (λ e. e ≢ item.Memory → word_in scope.now value.now ≡ Err e) }
{
    let value = render_prepared(alloc, value, scope)?;
    Ok(word_of(alloc, &value)?)
}

/// The texts of what values give, of which each is read whole before the next.
fn words_in(alloc: Global, values: &[Prepared], scope: &Scope) -> Result<Items<Text>, ItemFault>
    ensures value { IfOk result (λ ws. words_in scope.now values.now ≡ Ok ws) }
    ensures fault { IfErr result (λ e. e ≢ item.Memory → words_in scope.now values.now ≡ Err e) }
{
    let mut words = Vec::new(alloc);
    for value in values {
        words.push(word_in(alloc, value, scope)?)?;
    }
    Ok(Items::from_vec(words))
}

/// The command of these words.
fn words_call(words: Items<Text>) -> Result<Call, CallFault>
    ensures { result ≡ map_ok call.Command (some_word words) }
{
    if words.is_empty() {
        return Err(CallFault::NoCommand);
    }
    Ok(Call::Command { words })
}

/// What a task of `command` runs.
pub(crate) fn command_in(
    alloc: Global,
    words: &CommandWords,
    scope: &Scope,
) -> Result<Call, ItemFault>
    ensures value { IfOk result (λ c. command_in scope.now words.now ≡ Ok c) }
    ensures fault { IfErr result (λ e. e ≢ item.Memory → command_in scope.now words.now ≡ Err e) }
{
    match words {
        CommandWords::Line(line) => {
            let line = word_in(alloc, line.prepared(), scope)?;
            Ok(line_call(alloc, line.as_str())?)
        }
        CommandWords::Argv(argv) => {
            let words = words_in(alloc, argv.as_slice(), scope)?;
            Ok(words_call(words)?)
        }
    }
}

/// What a task of `shell` runs.
pub(crate) fn shell_in(alloc: Global, cmd: &PreparedText, scope: &Scope) -> Result<Call, ItemFault>
    ensures value { IfOk result (λ c. shell_in scope.now cmd.now ≡ Ok c) }
    ensures fault { IfErr result (λ e. e ≢ item.Memory → shell_in scope.now cmd.now ≡ Err e) }
{
    let text = word_in(alloc, cmd.prepared(), scope)?;
    Ok(Call::Shell { text })
}
