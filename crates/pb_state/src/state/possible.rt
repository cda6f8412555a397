//! What may happen in a state.

ghost use Rattle.std.specs.Prelude.{◌≡◌, ◌≤◌, IfSome, true, false};
ghost use Rattle.std.specs.Option.{option_copied, option_map_or};
ghost use Rattle.pb_state.specs.Strategies.{view_of};

use super::EngineState;
use crate::event::Event;
use pb_hosts::{first_play, is_run_once_done, least_place};
use pb_ids::{HostNo, Ticket};
use pb_outcome::job::Report;
use pb_plan::{Plan, PlanPlay};
use pb_strategies::{View, may_start, turn_ready};

impl EngineState {
    ghost use Rattle.pb_host.specs.Runs.{may_send_item, awaits};
    ghost use Rattle.pb_hosts.specs.Hosts.{at_row};
    ghost use Rattle.pb_state.specs.Machine.{open_play, next_play, is_left, may_open, may_start_in, may_send_in, may_report_in, may_turn_in, may_close_in, possible};

    /// The play whose batch is open.
    pub(crate) fn open_play<'a>(&self, plan: &'a Plan) -> Option<&'a PlanPlay>
        ensures value { option_copied result ≡ open_play plan.now self.now }
        ensures open { IfSome result (λ _. self.now.is_open ≡ true) }
    {
        if self.is_open {
            plan.plays().get(self.play)
        } else {
            None
        }
    }

    /// What the strategy of a play sees of the state.
    pub(crate) fn view<'a>(&'a self, play: &'a PlanPlay) -> View<'a>
        ensures { result ≡ view_of self.now play.now }
    {
        View {
            strategy: play.strategy(),
            forks: self.forks,
            is_stopped: self.stopped,
            place: self.place,
            is_run_once_done: is_run_once_done(&self.rows, play, self.place),
            throttles: play.throttles(),
            run_once: play.run_once(),
            hosts: self.rows.standings(),
        }
    }

    /// The number of the play that begins next.
    pub(crate) fn next_play(&self, plan: &Plan) -> Option<usize>
        ensures value { result ≡ next_play plan.now self.now }
        ensures least { IfSome result (λ number. self.now.play ≤ number) }
    {
        first_play(self.rows.as_slice(), plan.plays(), self.play)
    }

    /// Whether a batch is left: of the play that goes on, or of one that is still to begin.
    pub(crate) fn is_left(&self, plan: &Plan) -> bool
        ensures { result ≡ is_left plan.now self.now }
    {
        if self.sizes_left.has_some() {
            plan.plays().get(self.play).is_some()
        } else {
            self.next_play(plan).is_some()
        }
    }

    /// Whether a batch can open.
    pub fn may_open(&self, plan: &Plan) -> bool
        ensures { result ≡ may_open plan.now self.now }
    {
        !self.stopped && !self.is_open && !self.ended && self.is_left(plan)
    }

    /// Whether a host may start in a play.
    pub(crate) fn may_start_in(&self, host: HostNo, play: &PlanPlay) -> bool
        ensures { result ≡ may_start_in self.now host.0 play.now }
    {
        let view = self.view(play);
        may_start(&view, host)
    }

    /// Whether a host may start.
    pub fn may_start(&self, plan: &Plan, host: HostNo) -> bool
        ensures { result ≡ option_map_or (may_start_in self.now host.0) (open_play plan.now self.now) false }
    {
        match self.open_play(plan) {
            Some(play) => self.may_start_in(host, play),
            None => false,
        }
    }

    /// Whether a host has a job of this attempt at the item to send.
    pub(crate) fn may_send_item(&self, host: HostNo, item: u32, attempt: u32) -> bool
        ensures { result ≡ at_row (may_send_item item attempt) self.now.rows host.0 }
    {
        match self.row_at(host) {
            Some(row) => row.may_send_item(item, attempt),
            None => false,
        }
    }

    /// Whether a host's job can go out under a ticket.
    pub fn may_send(
        &self,
        plan: &Plan,
        host: HostNo,
        item: u32,
        attempt: u32,
        ticket: Ticket,
    ) -> bool
        ensures { result ≡ option_map_or (may_send_in self.now host.0 item attempt ticket) (open_play plan.now self.now) false }
    {
        match self.open_play(plan) {
            Some(_) => {
                !self.stopped && ticket.0 == self.sends && self.may_send_item(host, item, attempt)
            }
            None => false,
        }
    }

    /// Whether a host waits for what comes of the job of this attempt at its item under a ticket.
    pub fn awaits(&self, host: HostNo, item: u32, attempt: u32, ticket: Ticket) -> bool
        ensures { result ≡ at_row (awaits ticket item attempt) self.now.rows host.0 }
    {
        match self.row_at(host) {
            Some(row) => row.awaits(ticket, item, attempt),
            None => false,
        }
    }

    /// Whether a report is waited for.
    pub fn may_report(&self, plan: &Plan, report: &Report) -> bool
        ensures { result ≡ option_map_or (may_report_in self.now report.now) (open_play plan.now self.now) false }
    {
        match self.open_play(plan) {
            Some(_) => self.awaits(report.host, report.item, report.attempt, report.ticket),
            None => false,
        }
    }

    /// Whether the current place can be left.
    pub fn may_turn(&self, plan: &Plan) -> bool
        ensures { result ≡ option_map_or (may_turn_in self.now) (open_play plan.now self.now) false }
    {
        match self.open_play(plan) {
            Some(play) => self.may_turn_in(play),
            None => false,
        }
    }

    pub(crate) fn may_turn_in(&self, play: &PlanPlay) -> bool
        ensures { result ≡ may_turn_in self.now play.now }
    {
        let view = self.view(play);
        turn_ready(&view)
    }

    /// Whether the batch can close.
    pub fn may_close(&self, plan: &Plan) -> bool
        ensures { result ≡ option_map_or (may_close_in self.now) (open_play plan.now self.now) false }
    {
        match self.open_play(plan) {
            Some(_) => {
                !self.stopped
                    && self.place.is_none()
                    && !self.rows.some_running()
                    && least_place(&self.rows).is_none()
            }
            None => false,
        }
    }

    /// Whether an event is possible.
    pub fn is_possible(&self, plan: &Plan, event: &Event) -> bool
        ensures { result ≡ possible plan.now self.now event.now }
    {
        match event {
            Event::Open => self.may_open(plan),
            Event::Start(host) => self.may_start(plan, *host),
            Event::Send {
                host,
                item,
                attempt,
                ticket,
            } => self.may_send(plan, *host, *item, *attempt, *ticket),
            Event::Report(report) => self.may_report(plan, report),
            Event::Turn => self.may_turn(plan),
            Event::Close => self.may_close(plan),
            Event::Stop => true,
            Event::Forks(forks) => 1 <= *forks && *forks <= self.pool,
        }
    }
}
