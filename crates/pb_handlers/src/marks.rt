ghost use Rattle.std.specs.Prelude.{◌≡◌, [], IfOk, slice_set, true, false};
ghost use Rattle.pb_tree.specs.Walk.{noted};
ghost use Rattle.pb_handlers.specs.Notes.{unmarked_all};
ghost use Rattle.pb_handlers.specs.Pending.{marks_after};

use std::alloc::{AllocError, Global};
use std::marker::Model;

/// Of each handler of a play whether it is pending on a host.
#[derive(Debug, Drop)]
pub(crate) struct Marks {
    marks: Vec<bool>,
}

impl Model for Marks {
    ghost use Rattle.std.specs.Prelude.{List, Bool};

    ghost Value = { List Bool };

    ghost view = { λ m. m.marks.items };
}

impl Marks {
    /// Those of so many handlers, none of which was notified yet.
    #[tactic(auto, using(crate::proofs::Bits::first_marks))]
    pub(crate) fn none(alloc: Global, handlers: usize) -> Result<Marks, AllocError>
        ensures { IfOk result (λ marks. marks ≡ marks_after handlers []) }
    {
        let marks = vec![in alloc; false; handlers]?;
        Ok(Marks { marks })
    }

    pub(crate) fn as_slice(&self) -> &[bool]
        ensures { result.now ≡ self.now }
    {
        self.marks.as_slice()
    }

    /// Marks these handlers.
    pub(crate) fn notify(&mut self, handlers: &[u32])
        ensures { self.new ≡ noted self.old handlers.now }
    {
        note(self.marks.as_mut_slice(), handlers);
    }

    /// Takes a handler's mark away.
    pub(crate) fn take(&mut self, handler: u32)
        ensures { self.new ≡ slice_set self.old handler false }
    {
        set_mark(self.marks.as_mut_slice(), handler, false);
    }

    /// Unmarks all handlers.
    pub(crate) fn clear(&mut self)
        ensures { self.new ≡ unmarked_all self.old }
    {
        unmark_all(self.marks.as_mut_slice());
    }
}

fn set_mark(marks: &mut [bool], handler: u32, is_marked: bool)
    ensures { marks.new ≡ slice_set marks.old handler is_marked }
{
    let at = handler as usize;
    if at < marks.len() {
        marks[at] = is_marked;
    }
}

fn note(marks: &mut [bool], handlers: &[u32])
    ensures { marks.new ≡ noted marks.old handlers.now }
{
    for handler in handlers {
        set_mark(marks, *handler, true);
    }
}

fn unmark_all(marks: &mut [bool])
    ensures { marks.new ≡ unmarked_all marks.old }
{
    for mark in marks.iter_mut() {
        *mark = false;
    }
}
