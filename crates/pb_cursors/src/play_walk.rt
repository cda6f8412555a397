ghost use Rattle.std.specs.Prelude.{◌≡◌, IfOk};
ghost use Rattle.pb_tree.specs.Walk.{reach, status_now, marks_of};

use crate::laid::LaidTree;
use crate::walk::HostWalk;
use pb_tree::{Answer, Reach, Status};
use std::alloc::{AllocError, Global};
use std::marker::Model;
use std::rc::Rc;

/// A host's walk through a play: the play's tree, which all its hosts share, and the answers of its host so far, of which a proof alone speaks.
pub struct PlayWalk {
    laid: Rc<LaidTree>,
    walk: HostWalk,
}

// (by hand: the crates above then let it go by one call, and know nothing of what a walk is made of)
impl Drop for PlayWalk {
    fn drop(self) {
        let PlayWalk { laid, walk } = self;
        drop(laid);
        drop(walk);
    }
}

impl Model for PlayWalk {
    ghost use Rattle.pb_cursors.specs.Walks.{PlayWalkOf};
    ghost use Rattle.pb_tree.specs.contracts.tree.PlayTree as play_tree;
    ghost use Rattle.std.specs.Coded.{codes};

    ghost Value = { PlayWalkOf };

    ghost coded = { Prim.hlevel (codes, play_tree.the_row.coded) };

    ghost view = { λ w. record { tree = w.laid.value.tree; answers = w.walk.answers } };

    ghost use Rattle.pb_flat.specs.Seen.{LaysOut};
    ghost use Rattle.pb_cursors.specs.Tracked.{IsTracked};

    ghost invariant = { λ w. IsTracked w.laid.value.flat w.walk × LaysOut w.laid.value.flat w.laid.value.tree };
}

impl PlayWalk {
    ghost use Rattle.pb_cursors.specs.Walks.{walk_from, walk_after};

    /// A host that gave no answer yet.
    pub fn first(alloc: Global, laid: &Rc<LaidTree>) -> Result<PlayWalk, AllocError>
        ensures { IfOk result (λ w. w ≡ walk_from laid.now.value.tree) }
    {
        let walk = HostWalk::first(alloc, laid.flat())?;
        let laid = laid.clone()?;
        Ok(PlayWalk { laid, walk })
    }

    /// A copy of it, which costs the same however many answers there were.
    pub fn try_clone(&self, alloc: Global) -> Result<PlayWalk, AllocError>
        ensures { IfOk result (λ w. w ≡ self.now) }
    {
        let laid = self.laid.clone()?;
        let walk = self.walk.try_clone(alloc)?;
        Ok(PlayWalk { laid, walk })
    }

    /// Takes one answer more. It walks no tree, and takes no memory.
    pub fn answer(&mut self, answer: &Answer)
        ensures { self.new ≡ walk_after answer.now self.old }
    {
        self.walk.answer(self.laid.flat(), answer);
    }

    /// Where the host is: at the next place, or done.
    pub fn reach(&self) -> Reach
        ensures { result ≡ reach self.now.tree self.now.answers }
    {
        self.walk.reach()
    }

    /// What the host is at once: one whose walk went bad is out also while handlers run that are forced.
    pub fn status_now(&self) -> Status
        ensures { result ≡ status_now self.now.tree self.now.answers }
    {
        self.walk.status_now()
    }

    /// For each handler whether it is pending: notified, and not run since.
    pub fn pending(&self) -> &[bool]
        ensures { result.now ≡ marks_of self.now.tree self.now.answers }
    {
        self.walk.pending()
    }
}
