ghost use Rattle.std.specs.Prelude.{◌≡◌, ◌∷◌, ◌++◌, [], IfOk};
ghost use Rattle.pb_tree.specs.Tree.{TreeOf};
ghost use Rattle.pb_tree.specs.Walk.{reach, status_of, status_now, marks_of};
ghost use Rattle.pb_flat.specs.Seen.{PlanOf, LaysOut};
ghost use Rattle.pb_cursors.specs.Tracked.{IsTracked};

use crate::answered::Answered;
use pb_flat::{Cursor, FlatPlan};
use pb_tree::{Answer, Reach, Status};
use std::alloc::{AllocError, Global};
use std::marker::Model;

/// A host's answers, of which a proof alone speaks, and the cursor that stands where they lead.
#[derive(Drop)]
pub struct HostWalk {
    answers: Answered,
    cursor: Cursor,
}

impl Model for HostWalk {
    ghost use Rattle.pb_cursors.specs.Walks.{WalkOf};

    ghost Value = { WalkOf };

    ghost view = { λ w. record { answers = w.answers.list; cursor = w.cursor } };
}

impl HostWalk {
    /// A host that gave no answer yet.
    pub fn first(alloc: Global, plan: &FlatPlan) -> Result<HostWalk, AllocError>
        ensures none { IfOk result (λ w. w.answers ≡ []) }
        ensures tracked { IfOk result (λ w. IsTracked plan.now w) }
    {
        let cursor = Cursor::first(alloc, plan)?;
        Ok(HostWalk {
            answers: Answered::none(),
            cursor,
        })
    }

    /// A copy of it, which costs the same however many answers there were.
    pub fn try_clone(&self, alloc: Global) -> Result<HostWalk, AllocError>
        ensures { IfOk result (λ w. w ≡ self.now) }
    {
        let cursor = self.cursor.try_clone(alloc)?;
        let answers = self.answers.again();
        Ok(HostWalk { answers, cursor })
    }

    /// Takes one answer more. It takes no memory.
    pub fn answer(&mut self, plan: &FlatPlan, answer: &Answer)
        ensures answers { self.new.answers ≡ self.old.answers ++ answer.now ∷ [] }
        ensures tracked { IsTracked plan.now self.old → IsTracked plan.now self.new }
    {
        self.cursor.advance(plan, answer);
        self.answers = self.answers.and(answer);
    }

    /// Where the host is: at the next place, or done.
    pub fn reach(&self) -> Reach
        ensures { (plan : PlanOf) (tree : TreeOf) → IsTracked plan self.now → LaysOut plan tree → result ≡ reach tree self.now.answers }
    {
        self.cursor.reach()
    }

    /// What the host is for the plays that follow.
    pub fn status(&self) -> Status
        ensures { (plan : PlanOf) (tree : TreeOf) → IsTracked plan self.now → LaysOut plan tree → result ≡ status_of tree self.now.answers }
    {
        self.cursor.status()
    }

    /// What the host is at once: one whose walk went bad is out also while handlers run that are forced.
    pub fn status_now(&self) -> Status
        ensures { (plan : PlanOf) (tree : TreeOf) → IsTracked plan self.now → LaysOut plan tree → result ≡ status_now tree self.now.answers }
    {
        self.cursor.status_now()
    }

    /// For each handler whether it is pending: notified, and not run since.
    pub fn pending(&self) -> &[bool]
        ensures { (plan : PlanOf) (tree : TreeOf) → IsTracked plan self.now → LaysOut plan tree → result.now ≡ marks_of tree self.now.answers }
    {
        self.cursor.pending()
    }
}
