//! Whether one host may start its next task.

ghost use Rattle.std.specs.Prelude.{◌≡◌};
ghost use Rattle.pb_strategies.specs.MayStart.{is_first_at, may_run_once, suits, may_start_from, may_start};

use crate::standings::{Standing, Standings, same_place};
use crate::starts::{has_room, has_room_at, has_room_to_begin, is_open_once, runs_once};
use crate::strategy::Strategy;
use crate::view::View;
use pb_ids::HostNo;

/// Whether no host before this one has this next place.
fn is_first_at(hosts: &Standings, place: usize, host: usize) -> bool
    ensures { result ≡ is_first_at hosts.now place host }
{
    !hosts.some_next_before(place, host)
}

/// Whether a host starts a task that runs once.
fn may_run_once(view: &View, host: usize, place: usize) -> bool
    ensures { result ≡ may_run_once view.now host place }
{
    is_open_once(view, place) && is_first_at(view.hosts, place, host)
}

/// What the strategy asks of a host whose next place is this one.
fn suits(view: &View, host: usize, standing: Standing, place: usize) -> bool
    ensures { result ≡ suits view.now.strategy view.now host standing place }
{
    match view.strategy {
        Strategy::Linear => {
            same_place(view.place, Some(place))
                && (!runs_once(view, place) || may_run_once(view, host, place))
        }
        Strategy::Free => true,
        Strategy::HostPinned => standing.has_begun || has_room_to_begin(view),
    }
}

/// Whether a host that stands here may start, where hosts may run beside those that do.
fn may_start_from(view: &View, host: usize, standing: Standing) -> bool
    ensures { result ≡ may_start_from view.now host standing }
{
    if standing.runs.is_some() {
        return false;
    }
    match standing.next {
        Some(place) => has_room_at(view, place) && suits(view, host, standing, place),
        None => false,
    }
}

/// Whether a host may start its next task.
pub fn may_start(view: &View, host: HostNo) -> bool
    ensures { result ≡ may_start view.now host.0 }
{
    if !has_room(view) {
        return false;
    }
    match view.hosts.as_slice().get(host.0 as usize) {
        Some(standing) => may_start_from(view, host.0 as usize, *standing),
        None => false,
    }
}
