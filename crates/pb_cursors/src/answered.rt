//! A host's answers, as proofs alone read them. Whatever is asked of them its cursor tells, so that a run keeps none: they take no memory, and these calls
//! do nothing when the program runs.

ghost use Rattle.std.specs.Prelude.{◌≡◌, List, [], ◌∷◌, ◌++◌};
ghost use Rattle.std.specs.Borrow.{ftrue};
ghost use Rattle.pb_tree.specs.Answer.{AnswerOf};

use pb_tree::Answer;
use std::marker::Model;

/// The answers of a host, which a clause reads as `list`.
#[derive(Drop)]
pub(crate) struct Answered {
    ghost list: { List AnswerOf },
}

impl Model for Answered {
    ghost also_owns = { λ _. ftrue };
}

impl Answered {
    /// No answers yet.
    pub(crate) fn none() -> Answered
        ensures { result.list ≡ [] }
    {
        Answered {}
    }

    /// The same answers.
    pub(crate) fn again(&self) -> Answered
        ensures { result.list ≡ self.now.list }
    {
        Answered {}
    }

    /// One answer more.
    pub(crate) fn and(&self, _answer: &Answer) -> Answered
        ensures { result.list ≡ self.now.list ++ _answer.now ∷ [] }
    {
        Answered {}
    }
}
