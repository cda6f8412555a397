//! Who chooses among the hosts that are ready.

ghost use Rattle.std.specs.Prelude.{◌≡◌, ◌+◌, ℕ, List, Bool, true, slice_get, Some};
ghost use Rattle.pb_planes.specs.Set.{has_some, IsNextFrom};
ghost use Rattle.pb_engine.specs.Picking.{IsNextRound};

use pb_ids::HostNo;
use pb_planes::HostSet;

/// Chooses a host of a set that has one.
pub trait Picker {
    /// What it may pick: of a picker, the hosts that are ready, and the host picked, and what it leaves of the picker.
    ghost picks: { Self → List Bool → ℕ → Self → Type 0 };

    /// A host of the set.
    fn pick(&mut self, ready: &HostSet) -> HostNo
        requires { has_some ready.now ≡ true }
        ensures member { slice_get ready.now result.0 ≡ Some true }
        ensures picks { picks self.old ready.now result.0 self.new };
}

/// Chooses the least host of the set.
#[derive(Clone, Copy, Debug)]
pub struct Lowest;

impl Picker for Lowest {
    ghost picks = { λ _ ready host _. IsNextFrom ready 0 host };

    #[tactic(auto, using(crate::proofs::Members::some_next))]
    fn pick(&mut self, ready: &HostSet) -> HostNo {
        match ready.next_at(0) {
            Some(host) => host,
            None => unreachable!(),
        }
    }
}

/// Chooses the least host of the set above the one that it chose last, and the least of all where there is none.
#[derive(Clone, Copy, Debug, PartialEq, Eq)]
pub struct RoundRobin {
    /// The number behind the host that was chosen last, and 0 before.
    pub from: u32,
}

impl RoundRobin {
    /// One that has chosen no host.
    pub fn new() -> RoundRobin
        ensures { result.from ≡ 0 }
    {
        RoundRobin { from: 0 }
    }
}

impl Picker for RoundRobin {
    ghost picks = { λ old ready host new. IsNextRound ready old.from host × (new.from ≡ host + 1) };

    #[tactic(auto, using(crate::proofs::Members::some_next, crate::proofs::Members::member_below))]
    fn pick(&mut self, ready: &HostSet) -> HostNo {
        let host = next_round(ready, self.from);
        let width = ready.width();
        prove!(host.0 < width);
        self.from = host.0 + 1;
        host
    }
}

/// The least host of a set from this number on, or the least of all where there is none.
fn next_round(ready: &HostSet, from: u32) -> HostNo
    requires { has_some ready.now ≡ true }
    ensures round { IsNextRound ready.now from result.0 }
    ensures member { slice_get ready.now result.0 ≡ Some true }
{
    match ready.next_at(from) {
        Some(host) => host,
        None => {
            let mut lowest = Lowest;
            lowest.pick(ready)
        }
    }
}
