ghost use Rattle.std.specs.Prelude.{◌≡◌, IfOk, IfErr};
ghost use Rattle.pb_flat.specs.Deep.{always_depth, IsOnlyDeep};
ghost use Rattle.pb_flat.specs.Seen.{LaysOut};

use pb_flat::{FlatFault, FlatPlan};
use pb_tree::PlayTree;
use std::alloc::Global;
use std::marker::Model;

/// A play's tree, and the plan that it is laid out as.
#[derive(Debug)]
pub struct LaidTree {
    tree: PlayTree,
    flat: FlatPlan,
}

// (by hand: the crates above then know nothing of what it is made of)
impl Drop for LaidTree {
    fn drop(self) {
        let LaidTree { tree, flat } = self;
        drop(tree);
        drop(flat);
    }
}

impl Model for LaidTree {
    ghost use Rattle.pb_cursors.specs.Walks.{LaidOf};
    ghost use Rattle.pb_tree.specs.contracts.tree.PlayTree as play_tree;
    ghost use Rattle.std.specs.Coded.{codes};

    ghost Value = { LaidOf };

    ghost coded = { Prim.hlevel (codes, play_tree.the_row.coded) };

    ghost view = { λ l. record { tree = l.tree; flat = l.flat } };

    ghost use Rattle.pb_flat.specs.Seen.{LaysOut};

    ghost invariant = { λ l. LaysOut l.flat l.tree };
}

impl LaidTree {
    /// Lays a tree out.
    ///
    /// # Errors
    /// `TooDeep` only where always parts stand in one another, more than 32 deep; `Memory` where memory was refused.
    pub fn of(alloc: Global, tree: PlayTree) -> Result<LaidTree, FlatFault>
        ensures tree { IfOk result (λ laid. laid.tree ≡ tree) }
        ensures deep { IfErr result (λ e. IsOnlyDeep e (always_depth tree.nodes)) }
    {
        match FlatPlan::of(alloc, &tree) {
            Ok(flat) => Ok(LaidTree { tree, flat }),
            Err(fault) => Err(fault),
        }
    }

    /// The tree.
    pub fn tree(&self) -> &PlayTree
        ensures { result.now ≡ self.now.tree }
    {
        &self.tree
    }

    /// The plan that it is laid out as.
    pub fn flat(&self) -> &FlatPlan
        ensures value { result.now ≡ self.now.flat }
        ensures lays_out { LaysOut self.now.flat self.now.tree }
    {
        &self.flat
    }
}
