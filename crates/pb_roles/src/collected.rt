//! What has come of a play's roles.
ghost use Rattle.std.specs.Prelude.{◌≡◌, IfOk};
ghost use Rattle.pb_roles.specs.Sections.{with_roles};

use crate::entry_key::EntryKey;
use crate::expansion::{push_own, with_handlers};
use crate::origin::Origin;
use crate::sections::{Own, PlayKeys, Sections};
use pb_play::node::NodeList;
use pb_play_reading::handlers::Handler;
use pb_value::items::Items;
use std::alloc::{AllocError, Global};

/// A list of nodes with where they come from.
#[derive(Drop)]
pub struct Section {
    pub origin: Origin,
    pub nodes: NodeList,
}

/// A handler with where it comes from.
#[derive(Drop)]
pub struct HandlerIn {
    pub handler: Handler,
    pub origin: Origin,
}

/// The entries that have come, also those that were left out, and what the roles bring whose entries count.
pub struct Expansion {
    pub came: Items<EntryKey>,
    pub sections: Items<Section>,
    pub handlers: Items<HandlerIn>,
}

// (by hand: it is then dropped by one call, and not part by part at each exit)
impl Drop for Expansion {
    fn drop(self) {
        let Expansion {
            came,
            sections,
            handlers,
        } = self;
        drop(came);
        drop(sections);
        drop(handlers);
    }
}

impl Expansion {
    /// What stands in a play whose roles brought this.
    pub(crate) fn with_own(
        self,
        alloc: Global,
        keys: PlayKeys,
        force_handlers: bool,
        own: Own,
    ) -> Result<Sections, AllocError>
        ensures { IfOk result (λ all. all ≡ with_roles self keys force_handlers own) }
    {
        let Expansion {
            came,
            sections,
            handlers,
        } = self;
        let Own {
            pre,
            tasks,
            post,
            handlers: own,
        } = own;
        drop(came);
        let handlers = with_handlers(alloc, handlers, own)?;
        let mut all = Sections {
            keys,
            pre: Items::new(alloc),
            tasks: sections,
            post: Items::new(alloc),
            handlers,
            force_handlers,
        };
        push_own(&mut all.pre, pre)?;
        push_own(&mut all.tasks, tasks)?;
        push_own(&mut all.post, post)?;
        Ok(all)
    }
}
