ghost use Rattle.std.specs.Prelude.{◌≡◌, option_map, codes};
ghost use Rattle.serde_json.specs.Data as json;
ghost use Rattle.serde_json.specs.View.{view, members_view};
ghost use Rattle.pb_value.specs.Reading.{below, map_ok};
ghost use Rattle.pb_reading.specs.Ahead.{ahead, Takes};
ghost use Rattle.pb_reading.specs.Fields.{optional, value_of};
ghost use Rattle.pb_reading.specs.Reading.{Gives, required};
ghost use Rattle.pb_play_reading.specs.Refusals.{GivesOf};
ghost use Rattle.pb_play_reading.specs.Hosts.{hosts};
ghost use Rattle.pb_play_reading.specs.NodeLists.{node_list};
ghost use Rattle.pb_play_reading.specs.NoEffect.{key_or};
ghost use Rattle.pb_play.specs.Nodes.{Nothing};
ghost use Rattle.pb_play_reading.specs.Plays.{on_failure, before_hosts, tolerance, manner, play_of, lists, after_hosts, play_over, rest_of_play, play, expressions_at, expressions_of_play};

use crate::batches::Sizes;
use crate::gathering::begin;
use crate::handlers::{Handler, OneHandler};
use crate::hosts::{PlayHosts, read_hosts};
use crate::nodes::{TaskList, no_nodes};
use crate::other_keys::WithoutEffect;
use crate::percentage::Percentage;
use crate::strategies::StrategyName;
use pb_batches::Serial;
use pb_patterns::pattern::Pattern;
use pb_play::node::NodeList;
use pb_reading::keys::Keys;
use pb_reading::list::{Each, EachNamed};
use pb_reading::simple::PlainText;
use pb_reading::stop::{Stop, required, wrong};
use pb_role_entries::entry::RoleEntry;
use pb_role_entries::reading::OneRoleEntry;
use pb_strategies::Strategy;
use pb_value::items::Items;
use pb_value::path::child;
use pb_value::text::Text;
use pb_value::val::Dict;
use pb_written::fault::LoadFault;
use pb_written::simple::Switch;
use pb_written::values::TemplateValue;
use serde_json::{Map, Value};
use std::alloc::Global;

/// A play of a playbook.
#[derive(Drop)]
pub struct Play {
    /// Its name as it is written, or its pattern's text: that of `hosts` as it is written, a list's texts with `,` between.
    pub name: Text,
    /// The pattern of its hosts, from the text at `hosts`, or from the texts of a list there, taken together. A text is cut at `,`
    /// and `:` outside square brackets. An element names groups or hosts, with `*` and `?` for unknown letters, perhaps with a
    /// subscript behind, or is a regular expression behind `~`; `&` or `!` in front keeps to its hosts or leaves them out.
    /// See Ansible's documentation, "Patterns: targeting hosts and groups".
    pub hosts: Pattern,
    /// Its variables, each a value under its name, as they are written: their texts are templates. They are layer 5 of those that a task
    /// sees (`pb_layers`): over those of the inventory, under those of the task. See Ansible's documentation, "Using variables".
    pub vars: Dict,
    /// Whether a failure on one host ends the play for all, where the play says so: where neither the task nor a block round it does, this counts.
    /// See Ansible's documentation, "Error handling in playbooks".
    pub any_errors_fatal: Option<bool>,
    /// Whether failures in it are ignored, where neither the task nor a block round it says so.
    pub ignore_errors: bool,
    /// How many of a batch's hosts in a hundred may fail before the play ends for the others, 0 to 100, where the play says so.
    pub max_fail_percentage: Option<u32>,
    /// What it does before its tasks, in this order: first it gathers the facts of its hosts, where that isn't switched off.
    pub pre_tasks: NodeList,
    /// What it does, in this order.
    pub tasks: NodeList,
    /// What it does after its tasks, in this order.
    pub post_tasks: NodeList,
    /// The roles that it takes between its `pre_tasks` and its `tasks`, in this order.
    pub roles: Items<RoleEntry>,
    /// Its handlers, in the order of their definition: they come behind those of its roles.
    pub handlers: Items<Handler>,
    /// Whether a host on which it failed still runs, at its end, the handlers that are pending there.
    pub force_handlers: bool,
    /// How the hosts of a batch go through its tasks.
    pub strategy: Strategy,
    /// The sizes of the batches of its hosts.
    pub serial: Serial,
}

/// The hosts, where they are written.
fn read_hosts_at(
    alloc: Global,
    path: &Text,
    json: Option<&Value>,
) -> Result<Option<PlayHosts>, Stop<LoadFault>>
    ensures { GivesOf result (expressions_at (below path.now (codes "hosts")) (option_map (λ v. view v.now) json.entry)) (optional hosts (below path.now (codes "hosts")) (option_map (λ v. view v.now) json.entry)) }
{
    match json {
        Some(json) => {
            let here = child(alloc, path, "hosts")?;
            match read_hosts(alloc, &here, json) {
                Ok(hosts) => Ok(Some(hosts)),
                Err(stop) => Err(stop),
            }
        }
        None => Ok(None),
    }
}

/// What comes of a failure in a play: whether it ends the play for all hosts, and whether handlers run behind it.
#[derive(Drop)]
struct OnFailure {
    any_errors_fatal: Option<bool>,
    force_handlers: bool,
}

fn read_on_failure(
    alloc: Global,
    keys: &mut Keys<'_, WithoutEffect>,
) -> Result<OnFailure, Stop<LoadFault>>
    ensures value { Takes (λ v. v) result (ahead keys.new) (on_failure (ahead keys.old)) }
    ensures path { (ahead keys.new).path ≡ (ahead keys.old).path }
{
    let any_errors_fatal = keys.field::<Switch>(alloc, "any_errors_fatal")?;
    let force_handlers = keys.field_or::<Switch>(alloc, "force_handlers", false)?;
    Ok(OnFailure {
        any_errors_fatal,
        force_handlers,
    })
}

/// What the keys in front of `hosts` say.
#[derive(Drop)]
struct BeforeHosts {
    on_failure: OnFailure,
    gathers: bool,
    handlers: Items<Handler>,
}

fn read_before_hosts(
    alloc: Global,
    keys: &mut Keys<'_, WithoutEffect>,
) -> Result<BeforeHosts, Stop<LoadFault>>
    ensures value { Takes (λ v. v) result (ahead keys.new) (before_hosts (ahead keys.old)) }
    ensures path { (ahead keys.new).path ≡ (ahead keys.old).path }
{
    let on_failure = read_on_failure(alloc, keys)?;
    let gathers = keys.field_or::<Switch>(alloc, "gather_facts", true)?;
    let handlers = keys.field_or::<Each<OneHandler>>(alloc, "handlers", Items::new(alloc))?;
    Ok(BeforeHosts {
        on_failure,
        gathers,
        handlers,
    })
}

/// Which failures a play bears: whether it ignores them, and how many hosts in a hundred may fail.
#[derive(Drop)]
struct Tolerance {
    ignore_errors: bool,
    max_fail_percentage: Option<u32>,
}

fn read_tolerance(
    alloc: Global,
    keys: &mut Keys<'_, WithoutEffect>,
) -> Result<Tolerance, Stop<LoadFault>>
    ensures value { Takes (λ v. v) result (ahead keys.new) (tolerance (ahead keys.old)) }
    ensures path { (ahead keys.new).path ≡ (ahead keys.old).path }
{
    let ignore_errors = keys.field_or::<Switch>(alloc, "ignore_errors", false)?;
    let max_fail_percentage = keys.field::<Percentage>(alloc, "max_fail_percentage")?;
    Ok(Tolerance {
        ignore_errors,
        max_fail_percentage,
    })
}

/// How the hosts go through a play: in which batches, and by which strategy.
#[derive(Drop)]
struct Manner {
    serial: Serial,
    strategy: Strategy,
}

fn read_manner(alloc: Global, keys: &mut Keys<'_, WithoutEffect>) -> Result<Manner, Stop<LoadFault>>
    ensures value { Takes (λ v. v) result (ahead keys.new) (manner (ahead keys.old)) }
    ensures path { (ahead keys.new).path ≡ (ahead keys.old).path }
{
    let serial = keys.field_or::<Sizes>(alloc, "serial", Serial::whole(alloc))?;
    let strategy = keys.field_or::<StrategyName>(alloc, "strategy", Strategy::Linear)?;
    Ok(Manner { serial, strategy })
}

/// The lists of nodes of a play, the one of its roles, and what stands between their keys.
struct Lists {
    post_tasks: NodeList,
    pre_tasks: NodeList,
    roles: Items<RoleEntry>,
    manner: Manner,
    tasks: NodeList,
}

impl Drop for Lists {
    fn drop(self) {
        let Lists {
            post_tasks,
            pre_tasks,
            roles,
            manner,
            tasks,
        } = self;
        drop(post_tasks);
        drop(pre_tasks);
        drop(roles);
        drop(manner);
        drop(tasks);
    }
}

impl Lists {
    /// The play that has them, as they are.
    fn of(
        self,
        before: BeforeHosts,
        name: Text,
        hosts: Pattern,
        vars: Dict,
        tolerance: Tolerance,
    ) -> Play
        ensures { result ≡ record (play_of before name hosts vars tolerance self) { pre_tasks = self.pre_tasks } }
    {
        let Lists {
            post_tasks,
            pre_tasks,
            roles,
            manner,
            tasks,
        } = self;
        let Manner { serial, strategy } = manner;
        let BeforeHosts {
            on_failure,
            gathers: _,
            handlers,
        } = before;
        let OnFailure {
            any_errors_fatal,
            force_handlers,
        } = on_failure;
        let Tolerance {
            ignore_errors,
            max_fail_percentage,
        } = tolerance;
        Play {
            name,
            hosts,
            vars,
            any_errors_fatal,
            ignore_errors,
            max_fail_percentage,
            pre_tasks,
            tasks,
            post_tasks,
            roles,
            handlers,
            force_handlers,
            strategy,
            serial,
        }
    }
}

/// The nodes at a key of a play: none where it doesn't stand there.
fn read_tasks(
    alloc: Global,
    keys: &mut Keys<'_, WithoutEffect>,
    key: &str,
) -> Result<NodeList, Stop<LoadFault>>
    ensures value { Takes (λ v. v) result (ahead keys.new) (key_or key.now node_list Nothing (ahead keys.old)) }
    ensures path { (ahead keys.new).path ≡ (ahead keys.old).path }
{
    keys.field_or::<TaskList>(alloc, key, no_nodes(alloc))
}

fn read_lists(alloc: Global, keys: &mut Keys<'_, WithoutEffect>) -> Result<Lists, Stop<LoadFault>>
    ensures value { Takes (λ v. v) result (ahead keys.new) (lists (ahead keys.old)) }
    ensures path { (ahead keys.new).path ≡ (ahead keys.old).path }
{
    let post_tasks = read_tasks(alloc, keys, "post_tasks")?;
    let pre_tasks = read_tasks(alloc, keys, "pre_tasks")?;
    let roles = keys.field_or::<Each<OneRoleEntry>>(alloc, "roles", Items::new(alloc))?;
    let manner = read_manner(alloc, keys)?;
    let tasks = read_tasks(alloc, keys, "tasks")?;
    Ok(Lists {
        post_tasks,
        pre_tasks,
        roles,
        manner,
        tasks,
    })
}

/// What the keys between `hosts` and `vars` say.
struct AfterHosts {
    tolerance: Tolerance,
    name: Option<Text>,
    lists: Lists,
}

impl Drop for AfterHosts {
    fn drop(self) {
        let AfterHosts {
            tolerance: _,
            name,
            lists,
        } = self;
        drop(name);
        drop(lists);
    }
}

impl AfterHosts {
    /// The play over these hosts, with the lists as they are.
    fn over(self, before: BeforeHosts, hosts: PlayHosts, vars: Dict) -> Play
        ensures { result ≡ record (play_over before self vars hosts) { pre_tasks = self.lists.pre_tasks } }
    {
        let AfterHosts {
            tolerance,
            name,
            lists,
        } = self;
        let PlayHosts { text, pattern } = hosts;
        lists.of(before, name.unwrap_or(text), pattern, vars, tolerance)
    }
}

fn read_after_hosts(
    alloc: Global,
    keys: &mut Keys<'_, WithoutEffect>,
) -> Result<AfterHosts, Stop<LoadFault>>
    ensures value { Takes (λ v. v) result (ahead keys.new) (after_hosts (ahead keys.old)) }
    ensures path { (ahead keys.new).path ≡ (ahead keys.old).path }
{
    let tolerance = read_tolerance(alloc, keys)?;
    let name = keys.field::<PlainText>(alloc, "name")?;
    let lists = read_lists(alloc, keys)?;
    Ok(AfterHosts {
        tolerance,
        name,
        lists,
    })
}

/// What the keys up to `hosts` say.
struct UpToHosts {
    before: BeforeHosts,
    hosts: Option<PlayHosts>,
}

impl Drop for UpToHosts {
    fn drop(self) {
        let UpToHosts { before, hosts } = self;
        let BeforeHosts {
            on_failure: _,
            gathers: _,
            handlers,
        } = before;
        drop(handlers);
        match hosts {
            Some(PlayHosts { text, pattern }) => {
                drop(text);
                drop(pattern);
            }
            None => {}
        }
    }
}

impl UpToHosts {
    /// The play at the path, of which the other keys tell this.
    fn finish(
        self,
        alloc: Global,
        path: &Text,
        after: AfterHosts,
        vars: Dict,
    ) -> Result<Play, Stop<LoadFault>>
        ensures { Gives result (map_ok (play_over self.before after vars) (required path.now self.hosts)) }
    {
        let UpToHosts { before, hosts } = self;
        let hosts = required(path, hosts)?;
        let mut after = after;
        begin(alloc, before.gathers, &mut after.lists.pre_tasks)?;
        Ok(after.over(before, hosts, vars))
    }
}

/// The play, whose keys up to `hosts` are these.
fn read_rest(
    alloc: Global,
    mut keys: Keys<'_, WithoutEffect>,
    path: &Text,
    up_to_hosts: UpToHosts,
) -> Result<Play, Stop<LoadFault>>
    ensures { Gives result (value_of (rest_of_play path.now up_to_hosts.before up_to_hosts.hosts (ahead keys.entry))) }
{
    let after = read_after_hosts(alloc, &mut keys)?;
    let vars = keys.field_or::<EachNamed<TemplateValue>>(alloc, "vars", Dict::new(alloc))?;
    keys.others(alloc)?;
    up_to_hosts.finish(alloc, path, after, vars)
}

/// The play that the members of an object make.
fn read_members(
    alloc: Global,
    path: &Text,
    members: &Map<String, Value>,
) -> Result<Play, Stop<LoadFault>>
    ensures { GivesOf result (expressions_of_play path.now (json.object (members_view members.now.entries))) (play path.now (json.object (members_view members.now.entries))) }
{
    let mut keys = Keys::of(path, members, WithoutEffect);
    let before = match read_before_hosts(alloc, &mut keys) {
        Ok(before) => before,
        Err(stop) => return Err(stop),
    };
    let found = match keys.value_at(alloc, "hosts") {
        Ok(found) => found,
        Err(stop) => return Err(stop),
    };
    match read_hosts_at(alloc, path, found) {
        Ok(hosts) => read_rest(alloc, keys, path, UpToHosts { before, hosts }),
        Err(stop) => Err(stop),
    }
}

/// A play, as an object spells it.
#[tactic(auto, unfolding(crate::specs::Plays::play, crate::specs::Plays::expressions_of_play))]
pub(crate) fn read_play(alloc: Global, path: &Text, json: &Value) -> Result<Play, Stop<LoadFault>>
    ensures { GivesOf result (expressions_of_play path.now (view json.now)) (play path.now (view json.now)) }
{
    match json {
        Value::Object(members) => read_members(alloc, path, members),
        _ => wrong(path),
    }
}
