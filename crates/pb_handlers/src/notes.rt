ghost use Rattle.std.specs.Prelude.{◌≡◌, ◌<◌, ◌↔◌, ◌∷◌, ◌++◌, [], ℕ, List, IfOk, length, map, replicate, slice_index_or, true, false};
ghost use Rattle.pb_tree.specs.Answer.{AnswerOf};
ghost use Rattle.pb_tree.specs.Tree.{TreeOf};
ghost use Rattle.pb_tree.specs.Walk.{marks_of};
ghost use Rattle.pb_handlers.specs.Pending.{Noted, Notified, Ran, IsPending};
ghost use Rattle.pb_handlers.specs.Notes.{notes_after, history_at, with_noted, closed, unmarked_all};
ghost use Rattle.pb_handlers.specs.History.{history_of};

use crate::marks::Marks;
use crate::marks_are_notes;
use pb_ids::{HostNo, Place};
use std::alloc::{AllocError, Global};
use std::marker::Model;

/// For each host of a batch the handlers that are pending there. Contracts see it as a list for each host, in which each handler's number
/// has whether it is pending; they say what the calls make of the notes that some histories of these hosts lead to.
#[derive(Debug, Drop)]
pub struct Notes {
    hosts: Vec<Marks>,
}

impl Model for Notes {
    ghost use Rattle.std.specs.Prelude.{List, Bool};

    ghost Value = { List (List Bool) };

    ghost view = { λ n. n.hosts.items };
}

impl Notes {
    /// So many hosts in a play with so many handlers. Nothing has happened there yet.
    pub fn new(alloc: Global, hosts: usize, handlers: usize) -> Result<Notes, AllocError>
        ensures { IfOk result (λ notes. notes ≡ notes_after handlers (replicate hosts [])) }
    {
        let hosts = first_marks(alloc, hosts, handlers)?;
        Ok(Notes { hosts })
    }

    /// A task of the host notified these handlers. A number that no handler has is passed over.
    pub fn notify(&mut self, host: HostNo, handlers: &[u32])
        requires { host.0 < length self.old }
        ensures { (n : ℕ) (histories : List (List Noted)) → self.old ≡ notes_after n histories → self.new ≡ notes_after n (with_noted host.0 (Notified handlers.now) histories) }
    {
        self.hosts[host.0 as usize].notify(handlers);
    }

    /// The handler at this place of a Flush finished on the host, or the host got another one's answer for it. Such a place ends with the
    /// handler's number; one without a step changes nothing.
    pub fn take(&mut self, host: HostNo, place: &Place)
        requires { host.0 < length self.old }
        ensures ran { (above : List ℕ) (handler n : ℕ) (histories : List (List Noted)) → place.now ≡ above ++ handler ∷ []
            → self.old ≡ notes_after n histories → self.new ≡ notes_after n (with_noted host.0 (Ran handler) histories) }
        ensures top { place.now ≡ [] → self.new ≡ self.old }
    {
        if let Some(handler) = place.as_slice().last() {
            self.hosts[host.0 as usize].take(*handler);
        }
    }

    /// For each handler whether it is pending on the host: its history has a notification of the handler, behind which that hasn't run. Where
    /// the history is what the host's answers in a play tell, these are the marks of its walk.
    pub fn pending(&self, host: HostNo) -> &[bool]
        requires { host.0 < length self.now }
        ensures value { result.now ≡ slice_index_or self.now host.0 [] }
        ensures pending { (n handler : ℕ) (histories : List (List Noted)) → self.now ≡ notes_after n histories → handler < n
            → (slice_index_or result.now handler false ≡ true) ↔ IsPending handler (history_at histories host.0) }
        ensures marks { (tree : TreeOf) (answers : List AnswerOf) (histories : List (List Noted)) → self.now ≡ notes_after tree.handlers histories
            → history_at histories host.0 ≡ history_of tree answers → result.now ≡ marks_of tree answers }
    {
        marks_are_notes();
        self.hosts[host.0 as usize].as_slice()
    }

    /// The batch is closed: nothing is pending on any host.
    #[tactic(auto, using(crate::proofs::Histories::closed_notes))]
    pub fn clear(&mut self)
        ensures { (n : ℕ) (histories : List (List Noted)) → self.old ≡ notes_after n histories → self.new ≡ notes_after n (closed histories) }
    {
        self.unmark();
    }

    fn unmark(&mut self)
        ensures { self.new ≡ map unmarked_all self.old }
    {
        unmark_each(self.hosts.as_mut_slice());
    }
}

fn first_marks(alloc: Global, hosts: usize, handlers: usize) -> Result<Vec<Marks>, AllocError>
    ensures { IfOk result (λ marks. marks.items ≡ notes_after handlers (replicate hosts [])) }
{
    let mut marks = Vec::with_capacity(alloc, hosts)?;
    for _ in 0..hosts {
        marks.push(Marks::none(alloc, handlers)?)?;
    }
    Ok(marks)
}

fn unmark_each(hosts: &mut [Marks])
    ensures { hosts.new ≡ map unmarked_all hosts.old }
{
    for marks in hosts.iter_mut() {
        marks.clear();
    }
}
