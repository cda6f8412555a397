//! A list that is taken from at its front.
ghost use Rattle.std.specs.Prelude.{◌≡◌, ◌∷◌, [], IfSome, IfNone};

use pb_value::items::Items;
use std::collections::VecDeque;
use std::marker::Model;

/// A list that is taken from at its front. Contracts see the list.
#[derive(Drop)]
pub struct Queue<T> {
    items: VecDeque<T>,
}

impl<T> Model for Queue<T> {
    ghost use Rattle.std.specs.Prelude.{List};
    ghost use Rattle.std.specs.Coded.{coded_list};

    ghost Value = { List T };

    ghost coded = { coded_list T.code };

    ghost view = { λ line. line.items.items };
}

impl<T> Queue<T> {
    /// The line of these elements.
    pub(crate) fn of(items: Items<T>) -> Queue<T>
        ensures { result ≡ items }
    {
        Queue {
            items: VecDeque::from_vec(items.into_vec()),
        }
    }

    /// The element at the front leaves.
    pub(crate) fn pop(&mut self) -> Option<T>
        ensures some { IfSome result (λ item. self.old ≡ item ∷ self.new) }
        ensures none { IfNone result (self.old ≡ []) }
    {
        self.items.pop_front()
    }
}
