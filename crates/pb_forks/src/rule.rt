use crate::parcel::Parcel;
use crate::views::View;
use atomic_table::TableRule;
use pb_outcome::job::Allows;
use std::marker::PhantomData;

/// The rule that each step on a pool's table keeps, for runners whose relation is `A`.
pub struct Mailboxes<A> {
    runner: PhantomData<A>,
}

impl<A: Allows> TableRule<Option<Parcel>, View, u32> for Mailboxes<A> {
    ghost use Rattle.pb_forks.specs.Rule.{Kept};
    ghost use Rattle.pb_forks.specs.Views.{first_main};
    ghost use Rattle.pb_forks.specs.declared.views.View.TheVariants.{Main};

    ghost holds = { Kept A.allows };

    ghost first = { λ k. Main (first_main k) };
}
