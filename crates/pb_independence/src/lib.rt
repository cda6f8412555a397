//! Plans whose hosts know nothing of each other.
//!
//! For the layers above: `is_independent` says of a plan that no expression in it names `hostvars`, and that no task gives its facts to another host
//! (`specs/Independent.antt`). What that means for the machine is the law `hosts_are_apart`.
#![tactic(auto)]

ghost use Rattle.pb_independence.specs.Apart.{HostsAreApart};

/// In an independent plan a task has the same items, and the same is said of what came of them, whatever other hosts have learnt; and it gives nothing to another
/// host.
#[tactic(auto, using(crate::proofs::Independence::apart_of))]
pub fn hosts_are_apart()
    ensures { HostsAreApart }
{}
