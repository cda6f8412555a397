//! How many hosts run, in all and at each place: what forks and throttles are compared with.
//!
//! For the layers above: what hosts run is a list, of each host the place of its task or nothing; `Limits` holds the counts of such a list
//! (`specs/Counts.antt`), and goes with it as a host starts or finishes a task. Hosts are counted, not jobs: a host runs from the start of its task
//! until that is finished. Only `new` takes memory.
#![tactic(auto)]

pub mod limits;

pub use limits::Limits;
