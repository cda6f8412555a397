//! A role that is open: its dependencies are being met.
ghost use Rattle.std.specs.Prelude.{◌≡◌};

use crate::origin::Origin;
use crate::queue::Queue;
use pb_play::node::NodeList;
use pb_play_reading::handlers::Handler;
use pb_role_entries::entry::RoleEntry;
use pb_value::items::Items;
use pb_value::text::Text;

/// A role whose entry counts, with what it brings, and the entries of the roles that it depends on.
pub struct OpenRole {
    /// How many roles may be opened inside it: so many names of roles with files are left.
    pub left: usize,
    pub name: Text,
    pub origin: Origin,
    pub nodes: NodeList,
    pub handlers: Items<Handler>,
    pub dependencies: Queue<RoleEntry>,
}

impl Drop for OpenRole {
    fn drop(self) {
        let OpenRole {
            left: _,
            name,
            origin,
            nodes,
            handlers,
            dependencies,
        } = self;
        drop(name);
        drop(origin);
        drop(nodes);
        drop(handlers);
        drop(dependencies);
    }
}

impl OpenRole {
    /// What the role brings.
    pub(crate) fn into_parts(self) -> (Origin, NodeList, Items<Handler>)
        ensures origin { result.0 ≡ self.origin }
        ensures nodes { result.1 ≡ self.nodes }
        ensures handlers { result.2 ≡ self.handlers }
    {
        let OpenRole {
            left: _,
            name,
            origin,
            nodes,
            handlers,
            dependencies,
        } = self;
        drop(name);
        drop(dependencies);
        (origin, nodes, handlers)
    }
}
