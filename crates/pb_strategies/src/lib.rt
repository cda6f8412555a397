//! Which hosts may start their next task.
//!
//! For the layers above: a `View` is what a strategy sees of a run; `ready` gives exactly the hosts that may start, `may_start` says it of one, and
//! `turn_ready` says whether the batch goes on from its current place, as `specs/MayStart.antt` says. None of them fails: where `ready` would take memory
//! for a set and it is refused, the hosts are looked at. Where the hosts that may start are kept as they change (`kept`), they needn't be put into a set. Where each host stands is kept in a `Standings`, which
//! contracts see as a plain list: the layer above says of a host where it stands as that changes (`put`), and lends the list to a view. It also says which
//! places to watch (`stand_at`, `watch`): no contract tells that, but what is asked of the hosts there is then known without a look at each host.
#![tactic(auto)]

mod numbers;
mod one_host;
pub mod standings;
pub mod starts;
pub mod strategy;
pub mod view;
mod watched;

pub use one_host::may_start;
pub use standings::{Standing, Standings};
pub use starts::{kept, none_may_start, ready, turn_ready};
pub use strategy::Strategy;
pub use view::View;
