//! Which hosts are due and in the batch, and which jobs are out, beside the rows of all hosts.

ghost use Rattle.std.specs.Prelude.{false, ◌≡◌, ◌<◌, ◌≤◌, ◌-◌, ◌^◌, length, map, replicate, slice_get, count_by, true, IfOk, IfSome, OnOk, OnErr, None};
ghost use Rattle.std.specs.List.{list_any};
ghost use Rattle.std.specs.Option.{option_map_or};
ghost use Rattle.pb_host.specs.Host.{first_rows, is_waiting, as_play_begins, left, progressed, sent, reported};
ghost use Rattle.pb_hosts.specs.Batches.{joined_first};
ghost use Rattle.pb_hosts.specs.Joining.{joined_by};
ghost use Rattle.pb_host.specs.Ends.{IsAtMost};
ghost use Rattle.pb_host.specs.Runs.{is_in, is_running, has_send, is_out, has_ticket};
ghost use Rattle.pb_host.specs.StepResults.{done_if, report_result};
ghost use Rattle.pb_hosts.specs.Hosts.{at_row, change, least_place, pending_in};
ghost use Rattle.pb_hosts.specs.Giving.{with_delegated, gifts_at, report_gives};
ghost use Rattle.pb_host.specs.Standing.{standing};
ghost use Rattle.pb_hosts.specs.Due.{asked_at, is_inside, AreOutside};
ghost use Rattle.pb_strategies.specs.Hosts.{nowhere};
ghost use Rattle.pb_hosts.specs.Oldest.{oldest_out};
ghost use Rattle.pb_hosts.specs.Applied.{LearnInTurn, learnt_in, with_update};
ghost use Rattle.pb_hosts.specs.Turn.{is_run_once_done};
ghost use Rattle.pb_hosts.specs.TurnMade.{halts_at, turned_rows, turning_row};

use crate::apply::apply_each;
use crate::inside::{
    empty_by, least_inside, leave_inside, put_in, some_inside, stand_inside, stand_left,
    turn_inside,
};
use crate::jobs_out::{drop_job, first_job, put_job, some_under};
use crate::list::play_hosts::{begin_all, play_hosts_set};
use crate::list::{self, first_rows, item_in, join_waiting, row_at, take_back, undo, walks_for};
use crate::own::OwnTask;
use crate::turned::{TurnMade, TurnResult, is_run_once_done_at, turn_of};
use pb_cursors::{LaidTree, PlayWalk};
use pb_facts::update::FactsUndo;
use pb_host::{Host, PlanPlay, PlanWithHostvars, StepResult, TaskDone, TaskItems};
use pb_ids::{HostNo, Ticket};
use pb_inventory::inventory::Inventory;
use pb_outcome::outcome::Outcome;
use pb_planes::HostSet;
use pb_strategies::Standings;
use std::alloc::{AllocError, Global};
use std::marker::Model;
use std::rc::Rc;

/// The rows of all hosts. Which of them have a job to send, where each stands, which are in the batch, which wait for theirs, and which jobs are out is
/// kept beside them: a step that changes one host's row asks that row alone, and one that is about the batch the batch's rows.
pub struct Hosts {
    rows: Vec<Host>,
    sends: HostSet,
    standings: Standings,
    /// The hosts of the batch.
    batch: HostSet,
    /// Those of the play that goes on whose batch hasn't closed.
    awaits_batch: HostSet,
    /// The jobs that are out, in the order in which they were sent.
    out: Vec<(HostNo, Ticket)>,
}

impl Drop for Hosts {
    fn drop(self) {
        let Hosts {
            rows,
            sends,
            standings,
            batch,
            awaits_batch,
            out,
        } = self;
        drop(rows);
        drop(sends);
        drop(standings);
        drop(batch);
        drop(awaits_batch);
        drop(out);
    }
}

impl Model for Hosts {
    ghost use Rattle.std.specs.Prelude.{List};
    ghost use Rattle.pb_tree.specs.contracts.tree.PlayTree as play_tree;
    ghost use Rattle.pb_value.specs.contracts.val.Val as val;
    ghost use Rattle.std.specs.Coded.{codes};
    ghost use Rattle.pb_host.specs.Host.{HostOf};
    ghost use Rattle.pb_hosts.specs.Due.{IsDue};

    ghost Value = { List HostOf };

    ghost coded = { Prim.hlevel (codes, val.the_row.coded, play_tree.the_row.coded) };

    ghost view = { λ r. r.rows.items };

    ghost invariant = { λ r. IsDue r.sends r.standings r.batch r.awaits_batch r.out.items r.rows.items };
}

impl Hosts {
    /// The rows of this many hosts before the run.
    pub fn first(alloc: Global, hosts: u32) -> Result<Hosts, AllocError>
        ensures { IfOk result (λ rows. rows ≡ first_rows 0 hosts) }
    {
        let sends = HostSet::empty(alloc, hosts)?;
        let batch = HostSet::empty(alloc, hosts)?;
        let awaits_batch = HostSet::empty(alloc, hosts)?;
        let rows = first_rows(alloc, hosts)?;
        // (last: they are of many parts, each of which is let go at an exit)
        let standings = Standings::new(alloc, hosts, 0)?;
        let out = Vec::new(alloc);
        Ok(Hosts {
            rows,
            sends,
            standings,
            batch,
            awaits_batch,
            out,
        })
    }

    /// The rows, in the order of hosts.
    pub fn as_slice(&self) -> &[Host]
        ensures { result.now ≡ self.now }
    {
        self.rows.as_slice()
    }

    /// Whether a host runs.
    pub fn some_running(&self) -> bool
        ensures { result ≡ list_any is_running self.now }
    {
        self.standings.running() != 0
    }

    /// The hosts that have a job to send.
    pub fn sends(&self) -> &HostSet
        ensures { result.now ≡ map has_send self.now }
    {
        &self.sends
    }

    /// The hosts of the batch.
    pub fn batch(&self) -> &HostSet
        ensures { result.now ≡ map is_inside self.now }
    {
        &self.batch
    }

    /// Takes all hosts out of a set.
    pub fn none_into(&self, set: &mut HostSet)
        requires { length set.old ≡ length self.now }
        ensures { set.new ≡ replicate (length set.old) false }
    {
        empty_by(&self.batch, set);
    }

    /// Where each host stands.
    pub fn standings(&self) -> &Standings
        ensures { result.now ≡ map standing self.now }
    {
        &self.standings
    }

    /// Of the jobs that are out the one that was sent first: its host and its ticket.
    pub fn oldest_out(&self) -> Option<(HostNo, Ticket)>
        ensures { result ≡ oldest_out self.now }
    {
        first_job(self.out.as_slice())
    }

    /// Whether a job is out.
    pub fn some_out(&self) -> bool
        ensures { result ≡ list_any is_out self.now }
    {
        self.oldest_out().is_some()
    }

    /// Whether a job is out under this ticket.
    pub fn is_ticket_out(&self, ticket: Ticket) -> bool
        ensures { result ≡ list_any (has_ticket ticket) self.now }
    {
        some_under(self.out.as_slice(), ticket)
    }
}

/// Asks the row of one host anew.
fn ask_one(rows: &Vec<Host>, host: HostNo, sends: &mut HostSet, standings: &mut Standings)
    ensures sends { sends.new ≡ asked_at has_send rows.now.items host.0 sends.old }
    ensures stands { standings.new ≡ asked_at standing rows.now.items host.0 standings.old }
{
    if let Some(row) = row_at(rows.as_slice(), host) {
        put_in(sends, host, row.has_send());
        standings.put(host, row.standing());
    }
}

/// A batch opens with these walks: the first hosts that wait take them, one each, and no other host is in it. No host of these stood anywhere.
fn open_batch(
    rows: &mut Vec<Host>,
    walks: Vec<PlayWalk>,
    awaits_batch: &HostSet,
    batch: &mut HostSet,
    sends: &mut HostSet,
    standings: &mut Standings,
)
    requires awaits_batch { awaits_batch.now ≡ map is_waiting rows.old.items }
    requires few { length walks.items ≤ count_by (λ b. b) awaits_batch.now }
    requires insiders { batch.old ≡ map is_inside rows.old.items }
    requires outsiders { AreOutside rows.old.items }
    requires sends { length sends.old ≡ length rows.old.items }
    requires stands { standings.old ≡ replicate (length rows.old.items) nowhere }
    ensures rows { rows.new.items ≡ joined_by walks.items rows.old.items }
    ensures batch { batch.new ≡ map is_inside rows.new.items }
    ensures sends { sends.new ≡ map has_send rows.new.items }
    ensures stands { standings.new ≡ map standing rows.new.items }
{
    join_waiting(rows, walks, awaits_batch, batch);
    empty_by(batch, sends);
    stand_inside(rows.as_slice(), batch, standings);
}

/// The least place at which a host of the batch is.
pub fn least_place(rows: &Hosts) -> Option<usize>
    ensures { result ≡ least_place rows.now }
{
    least_inside(rows.rows.as_slice(), &rows.batch)
}

/// Whether a host of the batch is active.
pub fn some_in(rows: &Hosts) -> bool
    ensures { result ≡ list_any is_in rows.now }
{
    some_inside(rows.rows.as_slice(), &rows.batch)
}

/// Whether a host did the task at the current place for all, if there is one and it runs once.
pub fn is_run_once_done(rows: &Hosts, play: &PlanPlay, place: Option<usize>) -> bool
    ensures { result ≡ is_run_once_done play.now rows.now place }
{
    match place {
        Some(place) => is_run_once_done_at(play, rows.rows.as_slice(), &rows.batch, place),
        None => false,
    }
}

/// From now on it is kept who is at this place.
pub fn stand_at(rows: &mut Hosts, place: Option<usize>)
    ensures { rows.new ≡ rows.old }
{
    rows.standings.stand_at(place);
}

impl Hosts {
    /// A host starts the task at a place with these items; where it ends at once, what it gives to other hosts is theirs. What was before they learnt something is
    /// handed out, in the order in which they did, that of the host itself last. An `Err` changes nothing.
    pub fn start_row(
        &mut self,
        alloc: Global,
        host: HostNo,
        inventory: &Inventory,
        play: &PlanPlay,
        place: usize,
        items: TaskItems,
    ) -> Result<(Option<TaskDone>, Vec<(HostNo, FactsUndo)>), AllocError>
        requires there { host.0 < length self.old }
        requires batch { IfSome (slice_get self.old host.0) (λ row. row.in_batch ≡ true) }
        requires room { IfSome (slice_get self.old host.0) (λ row. IsAtMost row.counts (2 ^ 64 - 2)) }
        ensures rows { OnOk result (self.new ≡ with_delegated (gifts_at inventory.now play.now place host.0 items) (change self.old host.0 (progressed inventory.now play.now place items))) }
        ensures done { IfOk result (λ started. started.0 ≡ done_if play.now place (pending_in self.old host.0) items) }
        ensures learnt { IfOk result (λ started. LearnInTurn started.1.items (learnt_in self.old) (learnt_in self.new)) }
        ensures err { OnErr result (self.new ≡ self.old) }
    {
        let own = OwnTask { inventory, play };
        let (done, learnt) = own.start(alloc, &mut self.rows, host, place, items)?;
        drop_job(&mut self.out, host);
        ask_one(&self.rows, host, &mut self.sends, &mut self.standings);
        Ok((done, learnt))
    }
}

/// The job of a host goes out that has one to send. An `Err` changes nothing.
pub fn send_row(rows: &mut Hosts, host: HostNo, ticket: Ticket) -> Result<(), AllocError>
    requires { at_row has_send rows.old host.0 ≡ true }
    ensures ok { OnOk result (rows.new ≡ change rows.old host.0 (sent ticket)) }
    ensures err { OnErr result (rows.new ≡ rows.old) }
{
    put_job(&mut rows.out, (host, ticket))?;
    list::send_row(&mut rows.rows, host, ticket);
    ask_one(&rows.rows, host, &mut rows.sends, &mut rows.standings);
    Ok(())
}

/// The job of a host that is out came to this; where its task ends, what it gives to other hosts is theirs. What was before they learnt something is handed
/// out, in the order in which they did, that of the host itself last. An `Err` changes nothing.
pub fn report_row(
    alloc: Global,
    rows: &mut Hosts,
    host: HostNo,
    plan: &PlanWithHostvars,
    play: &PlanPlay,
    outcome: &Outcome,
) -> Result<(Option<StepResult>, Vec<(HostNo, FactsUndo)>), AllocError>
    requires { IfSome (slice_get rows.old host.0) (λ row. IsAtMost row.counts (2 ^ 64 - 2)) }
    ensures rows { OnOk result (rows.new ≡ with_delegated (report_gives plan.now play.now outcome.now host.0 rows.old) (change rows.old host.0 (reported plan.now play.now outcome.now))) }
    ensures comes_to { IfOk result (λ reported. reported.0 ≡ option_map_or (report_result plan.now play.now outcome.now) (slice_get rows.old host.0) None) }
    ensures learnt { IfOk result (λ reported. LearnInTurn reported.1.items (learnt_in rows.old) (learnt_in rows.new)) }
    ensures err { OnErr result (rows.new ≡ rows.old) }
{
    let number = item_in(rows.rows.as_slice(), host);
    let came = take_back(alloc, &mut rows.rows, host, plan, play, outcome)?;
    let (before, retried) = came.parts();
    let inventory = plan.inventory();
    let own = OwnTask { inventory, play };
    match own.advance(alloc, &mut rows.rows, host, number, retried) {
        Ok((step_result, learnt)) => {
            drop(before);
            drop_job(&mut rows.out, host);
            ask_one(&rows.rows, host, &mut rows.sends, &mut rows.standings);
            Ok((step_result, learnt))
        }
        Err(error) => {
            undo(&mut rows.rows, host, before);
            Err(error)
        }
    }
}

/// From now on it is kept who is next at each place that has a throttle. Where memory is refused for it, it costs time and nothing else.
fn watch_throttled(alloc: Global, standings: &mut Standings, throttles: &[u32])
    ensures { standings.new ≡ standings.old }
{
    for place in 0..throttles.len() {
        if throttles[place] != 0 {
            let _is_watched = standings.watch(alloc, place);
        }
    }
}

/// Nobody stands anywhere, as a batch opens of a play that has these throttles, one for each of its places. An `Err` changes nothing.
fn clear(alloc: Global, standings: &mut Standings, throttles: &[u32]) -> Result<(), AllocError>
    ensures ok { OnOk result (standings.new ≡ replicate (length standings.old) nowhere) }
    ensures err { OnErr result (standings.new ≡ standings.old) }
{
    standings.clear(alloc, throttles.len())?;
    watch_throttled(alloc, standings, throttles);
    Ok(())
}

/// A batch of this size opens of the play that goes on, which has this tree and these throttles. An `Err` changes nothing.
pub fn join_first(
    alloc: Global,
    rows: &mut Hosts,
    size: u32,
    laid: &Rc<LaidTree>,
    throttles: &[u32],
) -> Result<(), AllocError>
    ensures ok { OnOk result (rows.new ≡ joined_first laid.now.value.tree size rows.old) }
    ensures err { OnErr result (rows.new ≡ rows.old) }
{
    let walks = walks_for(alloc, &rows.awaits_batch, size, laid)?;
    clear(alloc, &mut rows.standings, throttles)?;
    rows.out.clear();
    open_batch(
        &mut rows.rows,
        walks,
        &rows.awaits_batch,
        &mut rows.batch,
        &mut rows.sends,
        &mut rows.standings,
    );
    Ok(())
}

/// A play begins that has this tree, these throttles and these hosts of its own, with a batch of this size. An `Err` changes nothing.
pub fn begin_first(
    alloc: Global,
    rows: &mut Hosts,
    hosts: &HostSet,
    size: u32,
    laid: &Rc<LaidTree>,
    throttles: &[u32],
) -> Result<(), AllocError>
    ensures ok { OnOk result (rows.new ≡ joined_first laid.now.value.tree size (map (as_play_begins hosts.now) rows.old)) }
    ensures err { OnErr result (rows.new ≡ rows.old) }
{
    let width = rows.batch.width();
    let calls = play_hosts_set(alloc, &rows.rows, width, hosts)?;
    let walks = walks_for(alloc, &calls, size, laid)?;
    clear(alloc, &mut rows.standings, throttles)?;
    begin_all(&mut rows.rows, hosts);
    rows.awaits_batch = calls;
    rows.out.clear();
    open_batch(
        &mut rows.rows,
        walks,
        &rows.awaits_batch,
        &mut rows.batch,
        &mut rows.sends,
        &mut rows.standings,
    );
    Ok(())
}

/// Each host leaves the batch.
pub fn leave_all(rows: &mut Hosts)
    ensures { rows.new ≡ map left rows.old }
{
    stand_left(rows.rows.as_slice(), &rows.batch, &mut rows.standings);
    leave_inside(&mut rows.rows, &rows.batch);
    rows.out.clear();
    rows.awaits_batch.minus_with(&rows.batch);
    empty_by(&rows.batch, &mut rows.sends);
    empty_by(&rows.sends, &mut rows.batch);
}

/// A batch goes on, whose hosts are these, as was made: hosts learn what goes to them, and each gets its answers then. It says whether hosts are halted,
/// and hands out what was before they learnt it. An `Err` changes nothing.
fn turn_batch(
    alloc: Global,
    rows: &mut Vec<Host>,
    batch: &HostSet,
    standings: &mut Standings,
    made: TurnMade,
) -> Result<TurnResult, AllocError>
    requires insiders { batch.now ≡ map is_inside rows.old.items }
    requires outsiders { AreOutside rows.old.items }
    requires stands { standings.old ≡ map standing rows.old.items }
    ensures rows { OnOk result (rows.new.items ≡ map (turning_row made.turning) (with_update made.all.items rows.old.items)) }
    ensures stands { OnOk result (standings.new ≡ map standing rows.new.items) }
    ensures halts { IfOk result (λ came. came.halts ≡ made.turning.halts) }
    ensures learnt { IfOk result (λ came. LearnInTurn came.learnt.items (learnt_in rows.old.items) (learnt_in rows.new.items)) }
    ensures err { OnErr result (rows.new.items ≡ rows.old.items) }
    ensures same { OnErr result (standings.new ≡ standings.old) }
{
    let (all, turning) = made.parts();
    let learnt = apply_each(alloc, rows, all)?;
    // (nobody is at its old place from here on)
    stand_left(rows.as_slice(), batch, standings);
    turn_inside(alloc, rows, batch, turning);
    stand_inside(rows.as_slice(), batch, standings);
    Ok(TurnResult {
        halts: turning.halts,
        learnt,
    })
}

/// The batch goes on from a place: what one host did for all goes to the others, and hosts are halted; it says whether they are, and hands out what was
/// before the others learnt something. An `Err` changes nothing.
pub fn turn_rows(
    alloc: Global,
    rows: &mut Hosts,
    inventory: &Inventory,
    play: &PlanPlay,
    place: usize,
) -> Result<TurnResult, AllocError>
    ensures rows { OnOk result (rows.new ≡ turned_rows inventory.now play.now place rows.old) }
    ensures halts { IfOk result (λ came. came.halts ≡ halts_at inventory.now play.now place rows.old) }
    ensures learnt { IfOk result (λ came. LearnInTurn came.learnt.items (learnt_in rows.old) (learnt_in rows.new)) }
    ensures err { OnErr result (rows.new ≡ rows.old) }
{
    // (there are fewer rows than host numbers)
    let _hosts = rows.batch.width();
    match turn_of(
        alloc,
        inventory,
        play,
        place,
        rows.rows.as_slice(),
        &rows.batch,
    )? {
        Some(made) => {
            let came = turn_batch(
                alloc,
                &mut rows.rows,
                &rows.batch,
                &mut rows.standings,
                made,
            )?;
            Ok(came)
        }
        None => Ok(TurnResult::nothing(alloc)),
    }
}
