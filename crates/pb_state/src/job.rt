//! The jobs of running tasks.

ghost use Rattle.std.specs.Prelude.{◌≡◌, ◌<◌, IfOk, unwrap_or, length};
ghost use Rattle.std.specs.Option.{option_copied};
ghost use Rattle.pb_state.specs.Jobs.{connector_named, connector_for, delay_at, item_job, named_job, row_job, job_with};

use pb_host::{Host, Running};
use pb_ids::{HostNo, Place, PlayNo, Ticket};
use pb_outcome::job::{Call, Job};
use pb_plan::{Plan, PlanPlay};
use pb_play::retrying::delay_before;
use pb_value::items::Items;
use pb_value::text::Text;
use std::alloc::{AllocError, Global};

/// Of which play and which host a job is, and under which ticket.
#[derive(Clone, Copy)]
pub(crate) struct Head {
    pub(crate) play: PlayNo,
    pub(crate) host: HostNo,
    pub(crate) ticket: Ticket,
}

/// The name of the host on which a job runs, and the words that connect to it.
#[derive(Drop)]
pub(crate) struct Target {
    name: Text,
    connector: Items<Text>,
}

/// Which attempt at which item a job is, and how many seconds lie before it.
#[derive(Clone, Copy)]
pub(crate) struct Attempt {
    item: u32,
    attempt: u32,
    delay: u32,
}

/// How many seconds lie before this attempt at an item of the task at a place.
fn delay_at(play: &PlanPlay, place: usize, attempt: u32) -> u32
    ensures { result ≡ delay_at play.now place attempt }
{
    match play.place(place) {
        Some(place) => delay_before(&place.task().retrying, attempt),
        None => 0,
    }
}

/// The words that connect to a host of this name: a name that is no host's has none.
fn connector_named(alloc: Global, plan: &Plan, name: &Text) -> Result<Items<Text>, AllocError>
    ensures { IfOk result (λ words. words ≡ connector_named plan.now.inventory name.now) }
{
    match plan.inventory().number(name.as_str()) {
        Some(host) => plan.connector(alloc, host),
        None => Ok(Items::new(alloc)),
    }
}

/// The words that connect to a host, or to the one of that name, where it is delegated to it.
fn connector_for(
    alloc: Global,
    plan: &Plan,
    host: HostNo,
    delegate: Option<&Text>,
) -> Result<Items<Text>, AllocError>
    requires { host.0 < length plan.now.inventory.hosts }
    ensures { IfOk result (λ words. words ≡ connector_for plan.now.inventory host.0 (option_copied delegate.entry)) }
{
    match delegate {
        Some(name) => connector_named(alloc, plan, name),
        None => plan.connector(alloc, host),
    }
}

/// The name of the host on which a job runs: that of the host itself, or the one that it is delegated to.
fn target_of(alloc: Global, delegate: Option<&Text>, name: &str) -> Result<Text, AllocError>
    ensures { IfOk result (λ target. target ≡ unwrap_or (option_copied delegate.entry) name.now) }
{
    match delegate {
        Some(target) => target.try_clone(),
        None => Text::from_str(alloc, name),
    }
}

/// The job of the next item of the task that a host runs, under this head: it runs on the host itself, or on the one that the item is delegated to, by that
/// host's connector.
pub(crate) fn job_in(
    alloc: Global,
    plan: &Plan,
    play: &PlanPlay,
    row: &Host,
    head: Head,
) -> Result<Option<Job>, AllocError>
    ensures { IfOk result (λ job. job ≡ row_job plan.now head.play.0 head.host head.ticket play.now row.now) }
{
    let Some(running) = row.running() else {
        return Ok(None);
    };
    let Some(item) = running.items.next() else {
        return Ok(None);
    };
    head.item_job(alloc, plan, play, running, item)
}

impl Head {
    /// The job of the item with this number of a task that a host runs.
    fn item_job(
        self,
        alloc: Global,
        plan: &Plan,
        play: &PlanPlay,
        running: &Running,
        item: u32,
    ) -> Result<Option<Job>, AllocError>
        ensures { IfOk result (λ job. job ≡ item_job plan.now self.play.0 self.host self.ticket play.now running.now item) }
    {
        let Some(call) = running.items.call(item) else {
            return Ok(None);
        };
        let Some(place) = play.tree().place(running.place) else {
            return Ok(None);
        };
        let attempt = running.items.attempt();
        let next = Attempt {
            item,
            attempt,
            delay: delay_at(play, running.place, attempt),
        };
        let delegate = running.items.delegate(item);
        self.named_job(alloc, plan, next, delegate, call, place)
    }

    /// The job of an attempt at an item that is delegated to the host of this name, if it is, and that sends this at a place.
    fn named_job(
        self,
        alloc: Global,
        plan: &Plan,
        item: Attempt,
        delegate: Option<&Text>,
        call: &Call,
        place: &Place,
    ) -> Result<Option<Job>, AllocError>
        ensures { IfOk result (λ job. job
            ≡ named_job plan.now self.play.0 self.host self.ticket (record { item = item.item; attempt = item.attempt; delay = item.delay }) (option_copied delegate.entry) call.now place.now) }
    {
        if plan.host_count() <= self.host.0 {
            return Ok(None);
        }
        let name = plan.host_name(self.host);
        let target = Target {
            name: target_of(alloc, delegate, name)?,
            connector: connector_for(alloc, plan, self.host, delegate)?,
        };
        let job = self.job(alloc, item, call, name, target, place)?;
        Ok(Some(job))
    }

    /// The job of an item that is sent at a place, for a host with this name.
    fn job(
        self,
        alloc: Global,
        item: Attempt,
        call: &Call,
        name: &str,
        target: Target,
        place: &Place,
    ) -> Result<Job, AllocError>
        ensures { IfOk result (λ job. job
            ≡ job_with self.play.0 self.host self.ticket (record { item = item.item; attempt = item.attempt; delay = item.delay }) call.now name.now target.name target.connector place.now) }
    {
        let Target {
            name: target,
            connector,
        } = target;
        Ok(Job {
            ticket: self.ticket,
            host: self.host,
            name: Text::from_str(alloc, name)?,
            play: self.play,
            place: place.try_clone()?,
            item: item.item,
            attempt: item.attempt,
            delay: item.delay,
            target,
            connector,
            call: call.try_clone(alloc)?,
        })
    }
}
