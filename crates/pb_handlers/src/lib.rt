//! Which handlers are pending on which host, and which handlers names stand for.
//!
//! For the layers above: `Notes` has, for each host of a batch, the handlers that are pending there: those that a task of the host
//! notified and that haven't run since. Its calls speak of what happened on each host from the batch's beginning on (`specs/Pending.antt`);
//! `notify`, `take` and `clear` take no memory. `marks_are_notes` says that the marks which a host's walk carries (`pb_tree`) are these.
//! `counting` says which handlers count where several have one name, and `Handlers` for which handlers, by their numbers, names and topics
//! stand (`specs/Naming.antt`).
#![tactic(auto)]

ghost use Rattle.pb_handlers.specs.Laws.{MarksAreNotes, HandlersEndPlaces, PendingIsPending};

pub mod handlers;
mod index;
mod marks;
pub mod naming;
pub mod notes;
mod words;

pub use handlers::Handlers;
pub use naming::{HandlerNames, counting};
pub use notes::Notes;

/// What holds of every play and every host: the marks of a host's walk are what its answers tell, each at the place to which those before
/// it led; the last step of a handler's place is its number; and what is pending is what was notified and hasn't run since.
pub fn marks_are_notes()
    ensures marks { MarksAreNotes }
    ensures places { HandlersEndPlaces }
    ensures pending { PendingIsPending }
{
    pb_flat::courses_are_walks();
}
