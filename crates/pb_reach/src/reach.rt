//! What a task can look up.
ghost use Rattle.std.specs.Prelude.{◌≡◌, ◌<◌, ◌≤◌, ℕ, Bool, false, List, length, drop, Option};
ghost use Rattle.std.specs.Option.{option_copied};
ghost use Rattle.pb_value.specs.Datum.{Datum};
ghost use Rattle.pb_value.specs.Datum as datum;
ghost use Rattle.pb_mentions.specs.Mentions.{items_mention};
ghost use Rattle.pb_layers.specs.Found.{maps_in};
ghost use Rattle.pb_layers.specs.Scope.{Map};
ghost use Rattle.pb_outcome.specs.declared.gather.ItemResult.{ItemResult};
ghost use Rattle.pb_items.specs.Items.{StartOf, attempted_item, items_of};
ghost use Rattle.pb_reach.specs.Apart.{SameBut};
ghost use Rattle.pb_reach.specs.Reach.{words_mention, module_mentions, loop_mentions, conditions_name, result_names, conditions_reach, result_reaches, task_mentions, delegate_mentions, own_texts_mention, each_mentions, layers_mention, may_read, may_read_of_result, start_from, with_magic};
ghost use Rattle.pb_reach.specs.ResultConditions.{has_result_conditions, until_of, LeavesResults};

use crate::exprs::{has_name, some_names, some_reach};
use crate::merged::merged_mention;
use pb_expr_syntax::tree::Expr;
use pb_layers::layers::Layers;
use pb_mentions::texts::has_inside;
use pb_mentions::values::{members_mention, mentions};
use pb_play::commands::CommandWords;
use pb_play::loops::Loop;
use pb_play::modules::Module;
use pb_play::retrying::Retrying;
use pb_play::task::Task;
use pb_prepared::prepared::{Prepared, PreparedText};
use pb_value::items::Items;
use pb_value::val::Dict;

/// Whether a word stands in the texts of one of some values.
fn argv_mentions(word: &str, values: &[Prepared]) -> bool
    ensures { result ≡ items_mention word.now (datum.items_of values.now) }
{
    for value in values {
        if mentions(word, value.value()) {
            return true;
        }
    }
    false
}

fn words_mention(word: &str, words: &CommandWords) -> bool
    ensures { result ≡ words_mention word.now words.now }
{
    match words {
        CommandWords::Line(line) => has_inside(word, line.as_str()),
        CommandWords::Argv(argv) => argv_mentions(word, argv.as_slice()),
    }
}

fn module_mentions(word: &str, called: &Module) -> bool
    ensures { result ≡ module_mentions word.now called.now }
{
    match called {
        Module::Assert {
            that,
            fail_msg,
            success_msg,
        } => {
            some_names(word, that.as_slice())
                || mentions(word, fail_msg.value())
                || mentions(word, success_msg.value())
        }
        Module::Command(words) => words_mention(word, words),
        Module::Debug { msg } => mentions(word, msg.value()),
        Module::DebugVar { text: _, expr } => has_name(word, expr),
        Module::Fail { msg } => mentions(word, msg.value()),
        Module::Meta(_) => false,
        Module::SetFact { facts } => members_mention(word, facts.dict()),
        Module::Setup => false,
        Module::Shell { cmd } => has_inside(word, cmd.as_str()),
    }
}

fn loop_mentions(word: &str, looped: &Option<Loop>) -> bool
    ensures { result ≡ loop_mentions word.now looped.now }
{
    match looped {
        Some(looped) => mentions(word, looped.over.value()),
        None => false,
    }
}

fn conditions_name(word: &str, conditions: &Option<Items<Expr>>) -> bool
    ensures { result ≡ conditions_name word.now conditions.now }
{
    match conditions {
        Some(conditions) => some_names(word, conditions.as_slice()),
        None => false,
    }
}

fn until_names(word: &str, retrying: &Option<Retrying>) -> bool
    ensures { result ≡ conditions_name word.now (until_of retrying.now) }
{
    match retrying {
        Some(retrying) => conditions_name(word, &retrying.until),
        None => false,
    }
}

fn result_names(word: &str, task: &Task) -> bool
    ensures { result ≡ result_names word.now task.now }
{
    conditions_name(word, &task.changed_when)
        || conditions_name(word, &task.failed_when)
        || until_names(word, &task.retrying)
}

fn conditions_reach(layers: &Layers, conditions: &Option<Items<Expr>>) -> bool
    ensures { result ≡ conditions_reach layers.now conditions.now }
{
    match conditions {
        Some(conditions) => some_reach(layers, conditions.as_slice()),
        None => false,
    }
}

fn until_reaches(layers: &Layers, retrying: &Option<Retrying>) -> bool
    ensures { result ≡ conditions_reach layers.now (until_of retrying.now) }
{
    match retrying {
        Some(retrying) => conditions_reach(layers, &retrying.until),
        None => false,
    }
}

fn result_reaches(layers: &Layers, task: &Task) -> bool
    ensures { result ≡ result_reaches layers.now task.now }
{
    conditions_reach(layers, &task.changed_when)
        || conditions_reach(layers, &task.failed_when)
        || until_reaches(layers, &task.retrying)
}

fn task_mentions(word: &str, task: &Task) -> bool
    ensures { result ≡ task_mentions word.now task.now }
{
    module_mentions(word, &task.module)
        || loop_mentions(word, &task.looped)
        || result_names(word, task)
}

fn delegate_mentions(word: &str, delegate_to: Option<&PreparedText>) -> bool
    ensures { result ≡ delegate_mentions word.now (option_copied delegate_to.entry) }
{
    match delegate_to {
        Some(template) => has_inside(word, template.as_str()),
        None => false,
    }
}

/// Whether a word stands in the texts of one of some maps.
fn some_mention(word: &str, maps: &[&Dict]) -> bool
    requires { length maps.now ≤ 7 }
    ensures { result ≡ each_mentions word.now (maps_in maps.now) }
{
    match maps {
        [] => false,
        [map, below @ ..] => members_mention(word, *map) || some_mention(word, below),
    }
}

/// Whether a word stands in the lowest two layers.
fn lowest_mention(word: &str, layers: &Layers) -> bool
    ensures { result ≡ each_mentions word.now (drop 9 layers.now) }
{
    merged_mention(word, layers.group_variables) || members_mention(word, layers.role_defaults)
}

/// Whether a word stands in the layers whose texts are templates: all but the facts of the host, and what was set or registered.
fn layers_mention(word: &str, layers: &Layers) -> bool
    ensures { result ≡ layers_mention word.now layers.now }
{
    let maps = [
        layers.extra_variables,
        layers.role_parameters,
        layers.task_variables,
        layers.block_variables,
        layers.role_variables,
        layers.play_variables,
        layers.host_variables,
    ];
    some_mention(word, &maps) || lowest_mention(word, layers)
}

/// Whether a name can be looked up while the items of a task are read.
///
/// Where it can't, it doesn't matter what stands under it among the magic variables (Ansible's documentation, "Special variables"). It may
/// be said of a name that is never looked up that it can be.
pub fn may_read(
    word: &str,
    task: &Task,
    conditions: &[Expr],
    delegate_to: Option<&PreparedText>,
    layers: &Layers,
) -> bool
    requires { 0 < length word.now }
    ensures value { result ≡ may_read word.now task.now conditions.now (option_copied delegate_to.entry) layers.now }

    // A task that doesn't read the name has the same items whatever stands under it.
    ensures items { result ≡ false → (program : Bool) (magic other : Map) → SameBut word.now magic other →
        items_of (start_from task.now conditions.now (option_copied delegate_to.entry) program layers.now magic)
        ≡ items_of (start_from task.now conditions.now (option_copied delegate_to.entry) program layers.now other) }
{
    reads(word, task, conditions, delegate_to, layers)
}

fn reads(
    word: &str,
    task: &Task,
    conditions: &[Expr],
    delegate_to: Option<&PreparedText>,
    layers: &Layers,
) -> bool
    ensures { result ≡ may_read word.now task.now conditions.now (option_copied delegate_to.entry) layers.now }
{
    (task_mentions(word, task) || some_names(word, conditions))
        || (delegate_mentions(word, delegate_to) || layers_mention(word, layers))
}

/// Whether a name can be looked up while the items of a task are read, where it stands in no template among the variables that the task sees: these
/// aren't searched.
pub fn may_read_by_itself(
    word: &str,
    task: &Task,
    conditions: &[Expr],
    delegate_to: Option<&PreparedText>,
) -> bool
    requires { 0 < length word.now }
    ensures value { result ≡ own_texts_mention word.now task.now conditions.now (option_copied delegate_to.entry) }

    // Over variables without the name it then has the same items whatever stands under it.
    ensures items { result ≡ false → (layers : List Map) → layers_mention word.now layers ≡ false → (program : Bool) (magic other : Map) → SameBut word.now magic other →
        items_of (start_from task.now conditions.now (option_copied delegate_to.entry) program layers magic)
        ≡ items_of (start_from task.now conditions.now (option_copied delegate_to.entry) program layers other) }
{
    own_texts_mention(word, task, conditions, delegate_to)
}

fn own_texts_mention(
    word: &str,
    task: &Task,
    conditions: &[Expr],
    delegate_to: Option<&PreparedText>,
) -> bool
    ensures { result ≡ own_texts_mention word.now task.now conditions.now (option_copied delegate_to.entry) }
{
    (task_mentions(word, task) || some_names(word, conditions))
        || delegate_mentions(word, delegate_to)
}

/// Whether a task says itself of a result whether it changed something, whether it failed, or whether the task is tried again. See Ansible's
/// documentation, "Error handling in playbooks" and "Retrying a task until a condition is met".
pub fn has_result_conditions(task: &Task) -> bool
    ensures value { result ≡ has_result_conditions task.now }

    // A task that says nothing leaves each result as it came back, whatever it sees.
    ensures silent { result ≡ false → LeavesResults task.now }
{
    has_any(task)
}

fn has_any(task: &Task) -> bool
    ensures { result ≡ has_result_conditions task.now }
{
    task.changed_when.is_some() || task.failed_when.is_some() || task.retrying.is_some()
}

/// Whether a name can be looked up while a task says of a result whether it changed something or failed, and whether it is tried again: its module
/// and its loop aren't searched, nor are the variables where its conditions reach no template among them.
///
/// It may be said of a name that is never looked up that it can be.
pub fn may_read_of_result(word: &str, task: &Task, layers: &Layers) -> bool
    requires { 0 < length word.now }
    ensures value { result ≡ may_read_of_result word.now task.now layers.now }

    // Each attempt at an item of a task that doesn't read the name comes to the same whatever stands under it.
    ensures results { result ≡ false → (start : StartOf) (other : Map) (value : Option Datum) (attempt : ℕ) (item : ItemResult) →
        start.task ≡ task.now → start.layers ≡ layers.now → SameBut word.now start.magic other →
        attempted_item start value attempt item ≡ attempted_item (with_magic start other) value attempt item }
{
    reads_of_result(word, task, layers)
}

fn reads_of_result(word: &str, task: &Task, layers: &Layers) -> bool
    ensures { result ≡ may_read_of_result word.now task.now layers.now }
{
    result_names(word, task) || (result_reaches(layers, task) && layers_mention(word, layers))
}

/// The same where the name stands in no template among the variables that the task sees: these aren't searched.
pub fn may_read_of_result_by_itself(word: &str, task: &Task) -> bool
    requires { 0 < length word.now }
    ensures value { result ≡ result_names word.now task.now }

    // Over variables without the name each attempt then comes to the same whatever stands under it.
    ensures results { result ≡ false → (start : StartOf) (other : Map) (value : Option Datum) (attempt : ℕ) (item : ItemResult) →
        start.task ≡ task.now → layers_mention word.now start.layers ≡ false → SameBut word.now start.magic other →
        attempted_item start value attempt item ≡ attempted_item (with_magic start other) value attempt item }
{
    result_names(word, task)
}
