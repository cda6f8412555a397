ghost use Rattle.std.specs.Prelude.{◌≡◌, ◌<◌, ◌∷◌, ◌++◌, [], IfOk, length, replicate, slice_set, slice_index_or};
ghost use Rattle.pb_tree.specs.Tree.{TreeOf};
ghost use Rattle.pb_tree.specs.Walk.{reach, marks_of, status_of};
ghost use Rattle.pb_flat.specs.Seen.{LaysOut};
ghost use Rattle.pb_cursors.specs.Tracked.{IsTracked, answers_of};
ghost use Rattle.std.specs.List.{All};

use crate::walk::HostWalk;
use pb_flat::FlatPlan;
use pb_tree::{Answer, Reach, Status};
use std::alloc::{AllocError, Global};
use std::marker::Model;

/// The hosts of a play, each where its answers lead in the play's plan.
#[derive(Drop)]
pub struct Cursors {
    plan: FlatPlan,
    hosts: Vec<HostWalk>,
}

impl Model for Cursors {
    ghost use Rattle.pb_cursors.specs.Walks.{CursorsOf};
    ghost use Rattle.pb_cursors.specs.Tracked.{answers_of};

    ghost Value = { CursorsOf };

    ghost view = { λ c. record { plan = c.plan; answers = answers_of c.hosts.items } };

    ghost use Rattle.std.specs.List.{All};
    ghost use Rattle.pb_cursors.specs.Tracked.{IsTracked};

    ghost invariant = { λ c. All (IsTracked c.plan) c.hosts.items };
}

impl Cursors {
    ghost use Rattle.pb_cursors.specs.Walks.{CursorsOf};

    /// So many hosts, none of which gave an answer yet.
    pub fn open(alloc: Global, plan: FlatPlan, hosts: usize) -> Result<Cursors, AllocError>
        ensures { IfOk result (λ c. c ≡ record { plan = plan; answers = replicate hosts [] }) }
    {
        let hosts = first_walks(alloc, &plan, hosts)?;
        Ok(Cursors { plan, hosts })
    }

    /// A copy of it.
    pub fn try_clone(&self, alloc: Global) -> Result<Cursors, AllocError>
        ensures { IfOk result (λ c. c ≡ self.now) }
    {
        let plan = self.plan.try_clone(alloc)?;
        let hosts = copy_walks(alloc, self.hosts.as_slice())?;
        Ok(Cursors { plan, hosts })
    }

    /// A host's answer at the place where it is. It takes no memory.
    pub fn answer(&mut self, host: usize, answer: &Answer)
        requires { host < length self.old.answers }
        ensures { self.new ≡ record { plan = self.old.plan; answers = slice_set self.old.answers host (slice_index_or self.old.answers host [] ++ answer.now ∷ []) } }
    {
        self.hosts[host].answer(&self.plan, answer);
    }

    /// Where a host is: at the next place, or done.
    pub fn reach(&self, host: usize) -> Reach
        requires { host < length self.now.answers }
        ensures { (tree : TreeOf) → LaysOut self.now.plan tree → result ≡ reach tree (slice_index_or self.now.answers host []) }
    {
        self.hosts[host].reach()
    }

    /// What a host is for the plays that follow.
    pub fn status(&self, host: usize) -> Status
        requires { host < length self.now.answers }
        ensures { (tree : TreeOf) → LaysOut self.now.plan tree → result ≡ status_of tree (slice_index_or self.now.answers host []) }
    {
        self.hosts[host].status()
    }

    /// For each handler whether it is pending at a host: notified, and not run since.
    pub fn pending(&self, host: usize) -> &[bool]
        requires { host < length self.now.answers }
        ensures { (tree : TreeOf) → LaysOut self.now.plan tree → result.now ≡ marks_of tree (slice_index_or self.now.answers host []) }
    {
        self.hosts[host].pending()
    }
}

fn copy_walks(alloc: Global, walks: &[HostWalk]) -> Result<Vec<HostWalk>, AllocError>
    ensures { IfOk result (λ copies. copies.items ≡ walks.now) }
{
    let mut copies = Vec::new(alloc);
    for walk in walks {
        copies.push(walk.try_clone(alloc)?)?;
    }
    Ok(copies)
}

fn first_walks(alloc: Global, plan: &FlatPlan, hosts: usize) -> Result<Vec<HostWalk>, AllocError>
    ensures none { IfOk result (λ walks. answers_of walks.items ≡ replicate hosts []) }
    ensures tracked { IfOk result (λ walks. All (IsTracked plan.now) walks.items) }
{
    let mut walks = Vec::new(alloc);
    for _ in 0..hosts {
        let walk = HostWalk::first(alloc, plan)?;
        walks.push(walk)?;
    }
    Ok(walks)
}
