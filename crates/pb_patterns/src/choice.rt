ghost use Rattle.std.specs.Prelude.{◌≡◌, length, replicate, true, IfOk, if◌then◌else◌};
ghost use Rattle.pb_patterns.specs.Choosing.{IsBegun, IsAdded, chosen_by};

use crate::element::Mark;
use pb_planes::HostSet;
use std::alloc::{AllocError, Global};

/// What the elements so far tell of the hosts.
pub struct Choice {
    /// Those of some unmarked element.
    joined: HostSet,
    /// Those of each element marked `&`.
    met: HostSet,
    /// Those of some element marked `!`.
    excluded: HostSet,
    has_unmarked: bool,
}

// (by hand: it is then dropped by one call, and not set by set at each exit)
impl Drop for Choice {
    fn drop(self) {
        let Choice {
            joined,
            met,
            excluded,
            has_unmarked: _,
        } = self;
        drop(joined);
        drop(met);
        drop(excluded);
    }
}

/// The hosts of the unmarked elements, or all where there is none.
fn first_hosts(
    alloc: Global,
    joined: HostSet,
    has_unmarked: bool,
    width: u32,
) -> Result<HostSet, AllocError>
    requires { length joined ≡ width }
    ensures width { IfOk result (λ set. length set ≡ width) }
    ensures set { IfOk result (λ set. set ≡ (if has_unmarked then joined else replicate width true)) }
{
    if has_unmarked {
        Ok(joined)
    } else {
        HostSet::full(alloc, width)
    }
}

impl Choice {
    /// What no element tells.
    pub fn new(alloc: Global, hosts: u32) -> Result<Choice, AllocError>
        ensures { IfOk result (λ choice. IsBegun hosts choice) }
    {
        Ok(Choice {
            joined: HostSet::empty(alloc, hosts)?,
            met: HostSet::full(alloc, hosts)?,
            excluded: HostSet::empty(alloc, hosts)?,
            has_unmarked: false,
        })
    }

    /// Adds what an element tells that means these hosts.
    pub fn add(&mut self, mark: Mark, set: &HostSet)
        requires joined { length self.old.joined ≡ length set.now }
        requires met { length self.old.met ≡ length set.now }
        requires excluded { length self.old.excluded ≡ length set.now }
        ensures { IsAdded mark set.now self.old self.new }
    {
        match mark {
            Mark::Unmarked => {
                self.joined.or_with(set);
                self.has_unmarked = true;
            }
            Mark::Met => self.met.and_with(set),
            Mark::Excluded => self.excluded.or_with(set),
        }
    }

    /// The hosts that are chosen.
    pub fn hosts(self, alloc: Global, width: u32) -> Result<HostSet, AllocError>
        requires joined { length self.joined ≡ width }
        requires met { length self.met ≡ width }
        requires excluded { length self.excluded ≡ width }
        ensures { IfOk result (λ set. set ≡ chosen_by width self) }
    {
        let Choice {
            joined,
            met,
            excluded,
            has_unmarked,
        } = self;
        let mut hosts = first_hosts(alloc, joined, has_unmarked, width)?;
        hosts.and_with(&met);
        hosts.minus_with(&excluded);
        Ok(hosts)
    }
}
