//! Which hosts may start their next task.

ghost use Rattle.std.specs.Prelude.{◌≡◌, ◌&&◌, ◌<◌, IfSome, true, false, not, length, map, replicate, Some, None, slice_get, slice_set, slice_index_or};
ghost use Rattle.std.specs.List.{range_with_len};
ghost use Rattle.std.specs.Option.{option_map_or};
ghost use Rattle.std.specs.Simd.Lanes.{zip2};
ghost use Rattle.pb_planes.specs.Set.{has_some};
ghost use Rattle.pb_limits.specs.Counts.{running};
ghost use Rattle.pb_strategies.specs.Hosts.{is_running, runs_in};
ghost use Rattle.pb_strategies.specs.MayStart.{has_room, has_room_at, has_room_to_begin, runs_once, is_open_once, is_linear, is_idle, ready, turn_ready};
ghost use Rattle.pb_strategies.specs.Parts.{is_open_at, is_shut_by, opened, begins, stands_at, first_standing};

use crate::standings::{Standings, behind, same_place};
use crate::strategy::Strategy;
use crate::view::View;
use pb_ids::HostNo;
use pb_limits::limits::is_below;
use pb_planes::HostSet;

/// Whether hosts may run beside those that do.
pub(crate) fn has_room(view: &View) -> bool
    ensures { result ≡ has_room view.now }
{
    !view.is_stopped && view.hosts.running() < view.forks
}

/// The throttle of a place.
fn throttle_at(throttles: &[u32], place: usize) -> u32
    ensures { result ≡ slice_index_or throttles.now place 0 }
{
    match throttles.get(place) {
        Some(throttle) => *throttle,
        None => 0,
    }
}

/// Whether hosts may run the task at a place beside those that do.
pub(crate) fn has_room_at(view: &View, place: usize) -> bool
    ensures { result ≡ has_room_at view.now place }
{
    is_below(
        view.hosts.running_at(place),
        throttle_at(view.throttles, place),
    )
}

/// Whether the task at a place runs once.
pub(crate) fn runs_once(view: &View, place: usize) -> bool
    ensures { result ≡ runs_once view.now place }
{
    match view.run_once.get(place) {
        Some(once) => *once,
        None => false,
    }
}

/// Whether no host runs the task at a place, which runs once, and it isn't done.
pub(crate) fn is_open_once(view: &View, place: usize) -> bool
    ensures { result ≡ is_open_once view.now place }
{
    view.hosts.running_at(place) == 0 && !view.is_run_once_done
}

/// Whether another host may begin.
pub(crate) fn has_room_to_begin(view: &View) -> bool
    ensures { result ≡ has_room_to_begin view.now }
{
    view.hosts.under_way() < view.forks
}

/// Takes the hosts out of a set whose next place is this one, which a host runs, if its throttle lets no more hosts start there.
fn drop_beside(view: &View, runs: Option<usize>, set: &mut HostSet)
    requires { length set.old ≡ length view.now.hosts }
    ensures { set.new ≡ zip2 (λ a b. a && not b) set.old (map (is_shut_by view.now runs) view.now.hosts) }
{
    if let Some(place) = runs {
        if !has_room_at(view, place) {
            view.hosts.drop_next(place, set);
        }
    }
}

/// The same where those of another place were taken out already, which may be this one.
fn drop_further(view: &View, runs: Option<usize>, last: Option<usize>, set: &mut HostSet)
    requires width { length set.old ≡ length view.now.hosts }
    requires last { set.old ≡ zip2 (λ a b. a && not b) set.old (map (is_shut_by view.now last) view.now.hosts) }
    ensures { set.new ≡ zip2 (λ a b. a && not b) set.old (map (is_shut_by view.now runs) view.now.hosts) }
{
    if !same_place(runs, last) {
        drop_beside(view, runs, set);
    }
}

/// Takes the hosts out of a set that the throttles of their next places don't let start. Where a throttle lets no more hosts start some host runs, so that
/// the hosts that run tell these places.
fn keep_open(view: &View, set: &mut HostSet)
    requires { length set.old ≡ length view.now.hosts }
    ensures { set.new ≡ opened view.now set.old }
{
    let running = view.hosts.running_hosts();
    let mut from = 0;
    let mut last = None;
    while let Some(host) = running.next_at(from) {
        let runs = view.hosts.runs_of(host);
        drop_further(view, runs, last, set);
        last = runs;
        from = behind(running, host);
    }
}

/// The hosts that may start under `Free`.
fn free_into(view: &View, set: &mut HostSet)
    requires width { length set.old ≡ length view.now.hosts }
    requires room { has_room view.now ≡ true }
    requires free { view.now.strategy ≡ Strategy.Free }
    ensures { set.new ≡ ready view.now }
{
    view.hosts.waiting_into(set);
    keep_open(view, set);
}

/// The hosts that wait and either have begun or may begin.
fn begins_into(view: &View, set: &mut HostSet)
    requires { length set.old ≡ length view.now.hosts }
    ensures { set.new ≡ map (begins view.now) view.now.hosts }
{
    view.hosts.waiting_into(set);
    if !has_room_to_begin(view) {
        view.hosts.keep_begun(set);
    }
}

/// The hosts that may start under `HostPinned`.
fn pinned_into(view: &View, set: &mut HostSet)
    requires width { length set.old ≡ length view.now.hosts }
    requires room { has_room view.now ≡ true }
    requires pinned { view.now.strategy ≡ Strategy.HostPinned }
    ensures { set.new ≡ ready view.now }
{
    begins_into(view, set);
    keep_open(view, set);
}

/// The hosts that don't run and whose next place is this one.
fn standing_into(hosts: &Standings, place: usize, set: &mut HostSet)
    requires { length set.old ≡ length hosts.now }
    ensures { set.new ≡ map (stands_at place) hosts.now }
{
    hosts.next_into(place, set);
    hosts.drop_running(set);
}

/// Whether a host runs.
fn is_running(hosts: &Standings, host: HostNo) -> bool
    ensures { result ≡ option_map_or is_running (slice_get hosts.now host.0) false }
{
    match hosts.as_slice().get(host.0 as usize) {
        Some(standing) => standing.runs.is_some(),
        None => false,
    }
}

/// Puts one host alone into a set, or none.
fn one_into(hosts: &Standings, host: HostNo, is_in: bool, set: &mut HostSet)
    requires width { length set.old ≡ length hosts.now }
    requires host { host.0 < length set.old }
    ensures { set.new ≡ slice_set (replicate (length set.old) false) host.0 is_in }
{
    hosts.none_into(set);
    set.put(host, is_in);
}

/// The first host whose next place is this one, if it doesn't run.
fn first_into(hosts: &Standings, place: usize, set: &mut HostSet)
    requires { length set.old ≡ length hosts.now }
    ensures { set.new ≡ map (first_standing hosts.now place) (range_with_len 0 (length hosts.now)) }
{
    hosts.next_into(place, set);
    if let Some(first) = set.next_at(0) {
        one_into(hosts, first, !is_running(hosts, first), set);
    }
}

/// The hosts that may start under `Linear` at the current place, where there is room.
fn linear_at(view: &View, place: usize, set: &mut HostSet)
    requires width { length set.old ≡ length view.now.hosts }
    requires room { has_room view.now ≡ true }
    requires linear { view.now.strategy ≡ Strategy.Linear }
    requires current { view.now.place ≡ Some place }
    requires room_at { has_room_at view.now place ≡ true }
    ensures { set.new ≡ ready view.now }
{
    if !runs_once(view, place) {
        standing_into(view.hosts, place, set);
    } else if is_open_once(view, place) {
        first_into(view.hosts, place, set);
    } else {
        view.hosts.none_into(set);
    }
}

/// The hosts that may start under `Linear`.
fn linear_into(view: &View, set: &mut HostSet)
    requires width { length set.old ≡ length view.now.hosts }
    requires room { has_room view.now ≡ true }
    requires linear { view.now.strategy ≡ Strategy.Linear }
    ensures { set.new ≡ ready view.now }
{
    match view.place {
        Some(place) => {
            if has_room_at(view, place) {
                linear_at(view, place, set);
            } else {
                view.hosts.none_into(set);
            }
        }
        None => view.hosts.none_into(set),
    }
}

/// Puts the hosts that may start their next task into a set: these, and no others. The set is as wide as there are hosts.
pub fn ready(view: &View, set: &mut HostSet)
    requires { length set.old ≡ length view.now.hosts }
    ensures { set.new ≡ ready view.now }
{
    if !has_room(view) {
        view.hosts.none_into(set);
        return;
    }
    match view.strategy {
        Strategy::Linear => linear_into(view, set),
        Strategy::Free => free_into(view, set),
        Strategy::HostPinned => pinned_into(view, set),
    }
}

/// The hosts that may start under `Linear` at the current place, where they are kept.
fn linear_kept_at<'a>(view: &View<'a>, place: usize) -> Option<&'a HostSet>
    requires room { has_room view.now ≡ true }
    requires linear { view.now.strategy ≡ Strategy.Linear }
    requires current { view.now.place ≡ Some place }
    ensures { IfSome result (λ set. set.now ≡ ready view.now) }
{
    if has_room_at(view, place) && !runs_once(view, place) {
        view.hosts.idle_at(place)
    } else {
        None
    }
}

/// The hosts that may start under `Linear`, where they are kept.
fn linear_kept<'a>(view: &View<'a>) -> Option<&'a HostSet>
    requires room { has_room view.now ≡ true }
    requires linear { view.now.strategy ≡ Strategy.Linear }
    ensures { IfSome result (λ set. set.now ≡ ready view.now) }
{
    match view.place {
        Some(place) => linear_kept_at(view, place),
        None => None,
    }
}

/// The hosts that may start their next task, where they are kept: under `Linear`, at a current place whose task each host runs, as long as there is
/// room for more. Then they needn't be put into a set.
pub fn kept<'a>(view: &View<'a>) -> Option<&'a HostSet>
    ensures { IfSome result (λ set. set.now ≡ ready view.now) }
{
    if is_linear(view.strategy) && has_room(view) {
        linear_kept(view)
    } else {
        None
    }
}

/// Whether surely no host may start, since there is no room for more.
pub fn none_may_start(view: &View) -> bool
    ensures { result ≡ true → ready view.now ≡ replicate (length view.now.hosts) false }
{
    !has_room(view)
}

/// Whether the task at a place may start, where hosts stand there.
fn is_open_at(view: &View, place: usize) -> bool
    ensures { result ≡ is_open_at view.now place }
{
    has_room(view)
        && has_room_at(view, place)
        && (!runs_once(view, place) || is_open_once(view, place))
}

/// Whether some host may start under `Linear` at the current place, where nobody runs.
fn some_may_start(view: &View, place: usize) -> bool
    requires linear { view.now.strategy ≡ Strategy.Linear }
    requires current { view.now.place ≡ Some place }
    requires idle { running (runs_in view.now.hosts) ≡ 0 }
    ensures { result ≡ has_some (ready view.now) }
{
    let is_open = is_open_at(view, place);
    let is_there = view.hosts.some_next_at(place);
    is_open && is_there
}

/// Whether the hosts go from place to place together.
fn is_linear(strategy: Strategy) -> bool
    ensures { result ≡ is_linear strategy }
{
    matches!(strategy, Strategy::Linear)
}

/// Whether nobody runs under `Linear`, and the run isn't stopped.
fn is_idle(view: &View) -> bool
    ensures { result ≡ is_idle view.now }
{
    is_linear(view.strategy) && !view.is_stopped && view.hosts.running() == 0
}

/// Whether the batch goes on from its current place: under `Linear`, once nobody runs and nobody may start.
pub fn turn_ready(view: &View) -> bool
    ensures { result ≡ turn_ready view.now }
{
    match view.place {
        Some(place) => {
            if is_idle(view) {
                !some_may_start(view, place)
            } else {
                false
            }
        }
        None => false,
    }
}
