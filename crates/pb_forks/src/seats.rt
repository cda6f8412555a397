ghost use Rattle.std.specs.Prelude.{◌≡◌, ◌^◌, ◌<◌, ◌≤◌, false, [], length};
ghost use Rattle.pb_forks.specs.Views.{main_of, fork_of};
ghost use Rattle.pb_forks.specs.declared.views.View.TheVariants.{Main, Fork};

use crate::parcel::Parcel;
use crate::rule::Mailboxes;
use crate::views::View;
use atomic_table::{Seat, Table};
use pb_outcome::job::Allows;
use std::alloc::Global;
use std::sync::atomic::AtomicU64;

/// A mailbox for each of 1 to 256 forks, for runners whose relation is `A`. Threads share it by reference. Its bell is rung behind each
/// answer, so that who waits for one may sleep.
pub struct Pool<A: Allows> {
    pub(crate) table: Table<Option<Parcel>, View, u32, Mailboxes<A>, Global>,
    pub(crate) forks: u32,
    pub(crate) bell: AtomicU64,
    pub ghost keyed: { table.shared.key ≡ forks },
    pub ghost sized: { (table.shared.table_id.words ≡ forks) × (table.shared.table_id.slots ≡ forks) },
    pub ghost some_fork: { 0 < forks },
    pub ghost few_forks: { forks ≤ 256 },
}

/// The seat that offers jobs and collects reports. It remembers the last word that it saw of each fork.
pub struct MainSeat {
    pub(crate) seat: Seat<Option<Parcel>, View>,
    pub(crate) seen: Vec<u64>,
    pub ghost is_main: { seat.me.0 ≡ Main (main_of seat.me.0) },
    pub ghost bare: { seat.me.1 ≡ [] },
    pub ghost free: { (main_of seat.me.0).hand ≡ 0 },
    pub ghost remembers: { (main_of seat.me.0).seen ≡ seen.items },
    pub ghost sees_all: { length seen.items ≡ seat.table_id.words },
}

/// The seat of one fork, which takes its jobs and answers them.
pub struct ForkSeat {
    pub(crate) seat: Seat<Option<Parcel>, View>,
    pub(crate) fork: u32,
    pub ghost is_fork: { seat.me.0 ≡ Fork fork (fork_of seat.me.0) },
    pub ghost bare: { seat.me.1 ≡ [] },
    pub ghost free: { (fork_of seat.me.0).holds ≡ false },
    pub ghost small: { (fork_of seat.me.0).seen < 2 ^ 64 },
    pub ghost within: { fork < seat.table_id.words },
}

impl Drop for MainSeat {
    fn drop(self) {
        let Self { seat, seen } = self;
        drop(seat);
        drop(seen);
    }
}

impl Drop for ForkSeat {
    fn drop(self) {
        let Self { seat, fork: _ } = self;
        drop(seat);
    }
}

impl MainSeat {
    pub(crate) fn into_seat(self) -> Seat<Option<Parcel>, View>
        ensures { result ≡ self.seat }
    {
        let Self { seat, seen } = self;
        drop(seen);
        seat
    }
}

impl ForkSeat {
    pub(crate) fn into_seat(self) -> Seat<Option<Parcel>, View>
        ensures { result ≡ self.seat }
    {
        let Self { seat, fork: _ } = self;
        seat
    }
}

impl<A: Allows> Drop for Pool<A> {
    fn drop(self) {
        let Self {
            table,
            forks: _,
            bell: _,
        } = self;
        drop(table);
    }
}

impl<A: Allows> Pool<A> {
    pub(crate) fn into_table(self) -> Table<Option<Parcel>, View, u32, Mailboxes<A>, Global>
        ensures { result ≡ self.table }
    {
        let Self {
            table,
            forks: _,
            bell: _,
        } = self;
        table
    }
}
