//! How a job goes out, and how its report comes in.

ghost use Rattle.std.specs.Prelude.{◌≡◌, ℕ, Option, OnOk, OnErr, IfOk, IfSome, slice_get, true, false};
ghost use Rattle.std.specs.Option.{option_map_or};
ghost use Rattle.pb_value.specs.Datum.{Datum};
ghost use Rattle.pb_outcome.specs.declared.gather.ItemResult.{ItemResult};
ghost use Rattle.pb_task_vars.specs.Results.{came_at};
ghost use Rattle.pb_task_vars.specs.WithHostvars.{with_hosts};
ghost use Rattle.pb_state.specs.Machine.{learnt_by, plan_seen};
ghost use Rattle.pb_state.specs.Known.{IsKnown, hosts_now};
ghost use Rattle.pb_hosts.specs.Applied.{LearnInTurn};
ghost use Rattle.pb_host.specs.Back.{SameAttempts};

use super::EngineState;
use crate::event::Event;
use crate::hostvars::{Shown, unread, whole};
use crate::known::keep;
use pb_facts::facts::Facts;
use pb_facts::update::FactsUndo;
use pb_host::put_step_result;
use pb_hosts::{report_row, send_row};
use pb_ids::{HostNo, Ticket};
use pb_outcome::job::Report;
use pb_plan::{Plan, PlanPlay};
use pb_task_vars::site::Site;
use pb_task_vars::with_hostvars::PlanWithHostvars;
use pb_value::val::Dict;
use std::alloc::AllocError;

impl EngineState {
    ghost use Rattle.pb_state.specs.Machine.{open_play, may_send_in, may_report_in};
    ghost use Rattle.pb_state.specs.Machine.{after, sent_in, reported_in, reported_seen};

    pub(crate) fn send(
        &mut self,
        plan: &Plan,
        host: HostNo,
        item: u32,
        attempt: u32,
        ticket: Ticket,
    ) -> Result<(), AllocError>
        requires { option_map_or (may_send_in self.old host.0 item attempt ticket) (open_play plan.now self.old) false ≡ true }
        ensures ok { OnOk result (self.new ≡ after plan.now self.old (Event.Send host item attempt ticket)) }
        ensures err { OnErr result (self.new ≡ self.old) }
    {
        match self.open_play(plan) {
            Some(play) => self.send_in(host, item, attempt, ticket, play),
            None => Ok(()),
        }
    }

    pub(crate) fn send_in(
        &mut self,
        host: HostNo,
        item: u32,
        attempt: u32,
        ticket: Ticket,
        play: &PlanPlay,
    ) -> Result<(), AllocError>
        requires open { self.old.is_open ≡ true }
        requires may { may_send_in self.old host.0 item attempt ticket play.now ≡ true }
        ensures ok { OnOk result (self.new ≡ sent_in self.old host.0 ticket play.now) }
        ensures err { OnErr result (self.new ≡ self.old) }
    {
        // (what only the clauses speak of)
        let _item = item;
        let _attempt = attempt;
        let _play = play;
        send_row(&mut self.rows, host, ticket)?;
        self.sends += 1;
        put_step_result(&mut self.step_result, None);
        Ok(())
    }

    /// What was before each host learnt something is handed out, in the order in which they did.
    pub(crate) fn report(
        &mut self,
        plan: &Plan,
        report: &Report,
        known: &mut Option<Dict>,
    ) -> Result<Vec<(HostNo, FactsUndo)>, AllocError>
        requires may { option_map_or (may_report_in self.old report.now) (open_play plan.now self.old) false ≡ true }
        requires known { IsKnown plan.now self.old known.old }
        ensures ok { OnOk result (self.new ≡ after plan.now self.old (Event.Report report.now)) }
        ensures learnt { IfOk result (λ log. LearnInTurn log.items (learnt_by self.old.rows) (learnt_by self.new.rows)) }
        ensures err { OnErr result (self.new ≡ self.old) }
        ensures known { IsKnown plan.now self.old known.new }
    {
        match self.open_play(plan) {
            Some(play) => self.report_in(plan, play, report, known),
            None => Ok(Vec::new(self.alloc)),
        }
    }

    /// The variable `hostvars` as the task that a host runs may see it.
    pub(crate) fn hosts_back(
        &self,
        plan: &Plan,
        play: &PlanPlay,
        host: HostNo,
    ) -> Result<Shown, AllocError>
        ensures same { IfOk result (λ shown. IfSome (slice_get self.now.rows host.0)
            (λ row. SameAttempts (with_hosts plan.now shown.hosts) (plan_seen plan.now self.now) play.now row row.running)) }
        ensures whole { IfOk result (λ shown. shown.is_whole ≡ true → shown.hosts ≡ hosts_now plan.now self.now) }
    {
        let Some(row) = self.row_at(host) else {
            return Ok(unread(self.alloc));
        };
        let Some(running) = row.running() else {
            return Ok(unread(self.alloc));
        };
        self.hosts_at_report(plan, play, row.host(), row.facts(), running.place)
    }

    /// The variable `hostvars` as the task at a place may see it as a report comes in of a host that has learnt this: where what the task says of an attempt
    /// doesn't look it up, it isn't there, which is the same to what the task says.
    pub(crate) fn hosts_at_report(
        &self,
        plan: &Plan,
        play: &PlanPlay,
        host: HostNo,
        facts: &Facts,
        place: usize,
    ) -> Result<Shown, AllocError>
        ensures same { IfOk result (λ shown. (value : Option Datum) (attempt : ℕ) (item : ItemResult) → came_at (with_hosts plan.now shown.hosts) play.now host.0 facts.now place value attempt item
            ≡ came_at (plan_seen plan.now self.now) play.now host.0 facts.now place value attempt item) }
        ensures whole { IfOk result (λ shown. shown.is_whole ≡ true → shown.hosts ≡ hosts_now plan.now self.now) }
    {
        let none = unread(self.alloc);
        let seen = PlanWithHostvars::new(plan, &none.hosts);
        let site = Site {
            plan: &seen,
            play,
            host,
            facts,
            place,
        };
        let reads = site.reads_of_result(self.alloc)?;
        if reads {
            return whole(self.alloc, plan, self.rows.as_slice());
        }
        Ok(none)
    }

    pub(crate) fn report_in(
        &mut self,
        plan: &Plan,
        play: &PlanPlay,
        report: &Report,
        known: &mut Option<Dict>,
    ) -> Result<Vec<(HostNo, FactsUndo)>, AllocError>
        requires open { self.old.is_open ≡ true }
        requires may { may_report_in self.old report.now play.now ≡ true }
        requires known { IsKnown plan.now self.old known.old }
        ensures ok { OnOk result (self.new ≡ reported_in plan.now self.old report.now play.now) }
        ensures learnt { IfOk result (λ log. LearnInTurn log.items (learnt_by self.old.rows) (learnt_by self.new.rows)) }
        ensures err { OnErr result (self.new ≡ self.old) }
        ensures known { IsKnown plan.now self.old known.new }
    {
        if let Some(hosts) = known.as_ref() {
            let seen = PlanWithHostvars::new(plan, hosts);
            return self.report_seen(&seen, play, report);
        }
        let shown = self.hosts_back(plan, play, report.host)?;
        let seen = PlanWithHostvars::new(plan, &shown.hosts);
        let learnt = self.report_seen(&seen, play, report)?;
        keep(known, shown);
        Ok(learnt)
    }

    /// A report comes in, where tasks see the plan so. What was before each host learnt something, where the task ends, is handed out.
    pub(crate) fn report_seen(
        &mut self,
        plan: &PlanWithHostvars,
        play: &PlanPlay,
        report: &Report,
    ) -> Result<Vec<(HostNo, FactsUndo)>, AllocError>
        requires open { self.old.is_open ≡ true }
        requires may { may_report_in self.old report.now play.now ≡ true }
        ensures ok { OnOk result (self.new ≡ reported_seen plan.now self.old report.now play.now) }
        ensures learnt { IfOk result (λ log. LearnInTurn log.items (learnt_by self.old.rows) (learnt_by self.new.rows)) }
        ensures err { OnErr result (self.new ≡ self.old) }
    {
        let (step_result, learnt) = report_row(
            self.alloc,
            &mut self.rows,
            report.host,
            plan,
            play,
            &report.outcome,
        )?;
        put_step_result(&mut self.step_result, step_result);
        Ok(learnt)
    }
}
