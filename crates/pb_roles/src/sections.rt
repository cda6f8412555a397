//! What stands in a play, with its roles.
ghost use Rattle.std.specs.Prelude.{◌≡◌, map, IfOk};
ghost use Rattle.pb_roles.specs.Building.{all_places};
ghost use Rattle.pb_roles.specs.Plays.{with_tree};
ghost use Rattle.pb_roles.specs.Sections.{names_of};

use crate::collected::{HandlerIn, Section};
use crate::flush::all_tasks;
use crate::flush_tasks::Flushes;
use crate::placing::push_part;
use pb_batches::Serial;
use pb_handlers::Handlers;
use pb_patterns::pattern::Pattern;
use pb_places::Place;
use pb_play::node::NodeList;
use pb_play_reading::handlers::Handler;
use pb_strategies::Strategy;
use pb_tree::PlayTree;
use pb_value::items::Items;
use pb_value::text::Text;
use pb_value::val::Dict;
use std::alloc::{AllocError, Global};

/// What a play says of failures in all its tasks and handlers, where nothing inside says so.
#[derive(Clone, Copy)]
pub struct PlayKeys {
    /// Whether one on a host ends the play for all.
    pub any_errors_fatal: Option<bool>,
    /// Whether they are ignored.
    pub ignore_errors: bool,
}

/// The keys that linear plays alone heed: which of them are written in a play, whatever their values.
#[derive(Clone, Copy, Debug, PartialEq, Eq)]
pub struct LinearKeys {
    pub any_errors_fatal: bool,
    pub max_fail_percentage: bool,
    pub run_once: bool,
}

/// The lists of nodes of a play, in the order in which they run, and its handlers.
pub struct Sections {
    /// What it hands down to what stands in it.
    pub keys: PlayKeys,
    /// Behind each of these three the handlers run that are pending: what is done first,
    pub pre: Items<Section>,
    /// what the roles bring, and then the play's own tasks,
    pub tasks: Items<Section>,
    /// and what is done at last.
    pub post: Items<Section>,
    /// The handlers that count, those of the roles first.
    pub handlers: Items<HandlerIn>,
    /// Whether its handlers run after a failure too.
    pub force_handlers: bool,
}

// (by hand, as below: it is then dropped by one call, and not part by part at each exit)
impl Drop for Sections {
    fn drop(self) {
        let Sections {
            keys: _,
            pre,
            tasks,
            post,
            handlers,
            force_handlers: _,
        } = self;
        drop(pre);
        drop(tasks);
        drop(post);
        drop(handlers);
    }
}

impl Sections {
    /// What stands at the places of a play, whose handlers are notified by these names. Every task outside of handlers has one place, to which it is moved.
    pub(crate) fn all_places(
        self,
        alloc: Global,
        names: Handlers,
    ) -> Result<Items<Place>, AllocError>
        requires { names ≡ map names_of self.handlers }
        ensures { IfOk result (λ all. all ≡ all_places self) }
    {
        let Sections {
            keys,
            pre,
            tasks,
            post,
            handlers,
            force_handlers: _,
        } = self;
        let handlers = all_tasks(alloc, keys, handlers)?;
        let flushes = Flushes { names, handlers };
        let mut places = Vec::new(alloc);
        push_part(alloc, &mut places, &flushes, keys, pre)?;
        push_part(alloc, &mut places, &flushes, keys, tasks)?;
        push_part(alloc, &mut places, &flushes, keys, post)?;
        Ok(Items::from_vec(places))
    }
}

/// A play with its tree and what stands at each place of the tree, in the order of places.
#[derive(Drop)]
pub struct Expanded {
    /// Its name, as it is printed.
    pub name: Text,
    /// The pattern of its hosts.
    pub hosts: Pattern,
    /// Its variables, as they are written.
    pub vars: Dict,
    /// How the hosts of a batch go through its tasks.
    pub strategy: Strategy,
    /// The sizes of the batches of its hosts.
    pub serial: Serial,
    /// How many of a batch's hosts in a hundred may fail before the play ends for the others: 0 to 100.
    pub max_fail_percentage: u32,
    /// Which of the keys that linear plays alone heed stand in it and in its roles.
    pub linear_keys: LinearKeys,
    pub tree: PlayTree,
    pub places: Items<Place>,
}

/// What stands in a play itself.
#[derive(Drop)]
pub(crate) struct Own {
    pub(crate) pre: NodeList,
    pub(crate) tasks: NodeList,
    pub(crate) post: NodeList,
    pub(crate) handlers: Items<Handler>,
}

/// What stays of a play as it is.
pub(crate) struct Head {
    pub(crate) name: Text,
    pub(crate) hosts: Pattern,
    pub(crate) vars: Dict,
    pub(crate) strategy: Strategy,
    pub(crate) serial: Serial,
    pub(crate) max_fail_percentage: u32,
    pub(crate) linear_keys: LinearKeys,
}

impl Drop for Head {
    fn drop(self) {
        let Head {
            name,
            hosts,
            vars,
            strategy: _,
            serial,
            max_fail_percentage: _,
            linear_keys: _,
        } = self;
        drop(name);
        drop(hosts);
        drop(vars);
        drop(serial);
    }
}

impl Head {
    /// With a tree, and what stands at its places.
    pub(crate) fn with(self, tree: PlayTree, places: Items<Place>) -> Expanded
        ensures { result ≡ with_tree self tree places }
    {
        let Head {
            name,
            hosts,
            vars,
            strategy,
            serial,
            max_fail_percentage,
            linear_keys,
        } = self;
        Expanded {
            name,
            hosts,
            vars,
            strategy,
            serial,
            max_fail_percentage,
            linear_keys,
            tree,
            places,
        }
    }
}
