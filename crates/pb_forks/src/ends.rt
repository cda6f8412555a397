//! The pool's start and its end.
ghost use Rattle.std.specs.Prelude.{◌≡◌, ℕ, ◌<◌, ◌≤◌, All, IfOk, map, length, replicate, vec_capacity, [], slice_index, slice_index_or};
ghost use Rattle.std.specs.Mem.Slots.{slots_items, IsFull};
ghost use Rattle.pb_forks.specs.declared.views.ForkView.{ForkView};
ghost use Rattle.pb_forks.specs.declared.views.Lodged.TheVariants.{Here, Away};
ghost use Rattle.pb_forks.specs.Logs.{Rises};
ghost use Rattle.pb_forks.specs.Views.{first_main, fresh, deals, start, idle_forks, jobs_out, main_dealt, main_joined, upto};
ghost use Rattle.pb_forks.specs.Seats.{main_view, fork_view, last_seen, number, forks_of, IsMainOf, IsForkOf, IsFreshOf, IsEachOnce, IsSameMain, rejoin};
ghost use Rattle.pb_forks.specs.Ends.{end_word, end_view, IsJoined, EndedFork, EndedShut};

use crate::closed::PoolEnd;
use crate::parcel::Parcel;
use crate::plays::{Deals, Joins};
use crate::seats::{ForkSeat, MainSeat, Pool};
use atomic_table::{Closed, Table};
use pb_outcome::job::Allows;
use std::alloc::{AllocError, Global};
use std::snapshot::Snapshot;
use std::sync::atomic::AtomicU64;

fn zeros(alloc: Global, count: usize) -> Result<Vec<u64>, AllocError>
    ensures { IfOk result (λ v. v.items ≡ replicate count 0) }
{
    Ok(vec![in alloc; 0; count]?)
}

impl<A: Allows> Pool<A> {
    /// Splits the next fork's seat off.
    fn deal(&self, main: &mut MainSeat, fork: u32) -> ForkSeat
        requires seat { IsMainOf self.now main.old }
        requires fork { (fork < forks_of self.now) × ((main_view main.old).next ≡ fork) × (slice_index_or (main_view main.old).parts fork Away ≡ Here fresh) }
        ensures main { IsSameMain main.old main.new × (main_view main.new ≡ main_dealt (main_view main.old)) }
        ensures fork { IsFreshOf self.now result × (number result ≡ fork) }
    {
        let seat = self.table.shared.split_seat::<Deals>(&mut main.seat);
        ForkSeat { seat, fork }
    }

    /// Joins a fork's seat: its view stands in the main view from now on.
    fn join(&self, main: &mut MainSeat, fork: ForkSeat)
        requires main { IsMainOf self.now main.old }
        requires fork { IsForkOf self.now fork }
        ensures { IsSameMain main.old main.new × (main_view main.new ≡ main_joined (number fork) (fork_view fork) (main_view main.old)) }
    {
        let seat = fork.into_seat();
        self.table.shared.join_seat::<Joins>(&mut main.seat, seat);
    }

    fn open(alloc: Global, forks: u32) -> Result<(Pool<A>, MainSeat), AllocError>
        requires { (0 < forks) × (forks ≤ 256) }
        ensures { IfOk result (λ r. (forks_of r.0 ≡ forks) × IsMainOf r.0 r.1 × (main_view r.1 ≡ first_main forks)) }
    {
        let count = forks as usize;
        let words = zeros(alloc, count)?;
        let seen = zeros(alloc, count)?;
        let (table, seat) = Table::vacant(alloc, words.as_slice(), count, &forks)?;
        let bell = AtomicU64::new(0);
        Ok((Pool { table, forks, bell }, MainSeat { seat, seen }))
    }

    fn deal_all(&self, main: &mut MainSeat, seats: &mut Vec<ForkSeat>)
        requires seat { IsMainOf self.now main.old }
        requires first { main_view main.old ≡ first_main (forks_of self.now) }
        requires room { (seats.old.items ≡ []) × (forks_of self.now ≤ vec_capacity seats.old) }
        ensures main { IsSameMain main.old main.new × (main_view main.new ≡ deals (forks_of self.now) (first_main (forks_of self.now))) }
        ensures fresh { All (IsFreshOf self.now) seats.new.items }
        ensures numbers { map number seats.new.items ≡ upto (forks_of self.now) }
    {
        for fork in 0..self.forks {
            let seat = self.deal(main, fork);
            seats.push_reserved(seat);
        }
    }

    /// A pool of 1 to 256 forks, its main seat, and the forks' seats in order. Nothing else takes memory.
    pub fn new(alloc: Global, forks: u32) -> Result<(Pool<A>, MainSeat, Vec<ForkSeat>), AllocError>
        requires { (0 < forks) × (forks ≤ 256) }
        ensures pool { IfOk result (λ r. (forks_of r.0 ≡ forks) × IsMainOf r.0 r.1 × (main_view r.1 ≡ start forks)) }
        ensures idle { IfOk result (λ r. (idle_forks (main_view r.1) ≡ forks) × (jobs_out (main_view r.1) ≡ 0)) }
        ensures forks { IfOk result (λ r. All (IsFreshOf r.0) r.2.items × (map number r.2.items ≡ upto forks)) }
    {
        let mut seats = Vec::with_capacity(alloc, forks as usize)?;
        let (pool, mut main) = Pool::open(alloc, forks)?;
        pool.deal_all(&mut main, &mut seats);
        Ok((pool, main, seats))
    }

    #[tactic(auto, using(crate::proofs::AtEnd::rejoin_snoc))]
    fn join_all(&self, mut main: MainSeat, forks: Vec<ForkSeat>) -> MainSeat
        requires main { IsMainOf self.now main }
        requires forks { All (IsForkOf self.now) forks.items }
        ensures { IsSameMain main result × (main_view result ≡ rejoin forks.items (main_view main)) }
    {
        for fork in forks {
            self.join(&mut main, fork);
        }
        main
    }

    /// Joins the seats, each fork's once and in any order, drops what lies in the slots, and ends the pool. Of each
    /// fork the end tells the word and the four lists, and the tickets of all offers rise; of each fork that was shut
    /// the four lists are equal.
    pub fn close(self, main: MainSeat, forks: Vec<ForkSeat>) -> PoolEnd
        requires main { IsMainOf self main }
        requires forks { All (IsForkOf self) forks.items }
        requires each_once { IsEachOnce (forks_of self) forks.items }
        ensures view { end_view result ≡ rejoin forks.items (main_view main) }
        ensures main { ((end_view result).log ≡ (main_view main).log) × ((end_view result).seen ≡ (main_view main).seen) }
        ensures rises { Rises 0 (end_view result).log }
        ensures joined { All (λ s. IsJoined (end_view result) (number s) (fork_view s)) forks.items }
        ensures ended { (j : ℕ) → j < forks_of self → (p : ForkView) × IsJoined (end_view result) j p × EndedFork A.allows j (end_word result j) (end_view result) p }
        ensures shut { (j : ℕ) → j < forks_of self → last_seen (main_view main) j ≡ 4 → EndedShut j result }
    {
        let joined = self.join_all(main, forks);
        let seat = joined.into_seat();
        let table = self.into_table();
        let view = Snapshot::of(&seat);
        let closed = table.close_with(seat);
        let end = Snapshot::of(&closed);
        empty(closed);
        PoolEnd {
            table: end,
            seat: view,
        }
    }
}

/// Drops what lies in the slots.
fn empty(mut closed: Closed<Option<Parcel>, Global>)
    requires { IsFull closed.slots }
{
    let mut i = 0;
    while i < closed.slot_count() {
        drop(closed.take(i));
        i += 1;
    }
    closed.free();
}
