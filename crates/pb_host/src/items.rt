//! The items of a task that a host runs.

ghost use Rattle.std.specs.Prelude.{◌≡◌, ◌<◌, ◌≤◌, ◌+◌, ◌||◌, [], length, slice_get, IfOk, OnOk, OnErr, Some, None, option_map};
ghost use Rattle.std.specs.Option.{option_copied, option_map_or};
ghost use Rattle.pb_outcome.specs.Items.{next_item, is_over};
ghost use Rattle.pb_outcome.specs.declared.item.Planned.TheVariants.{Decided};
ghost use Rattle.pb_host.specs.Kept.{first_waiting, with_item, with_step, with_tried};
ghost use Rattle.pb_host.specs.Attempts.{attempt_after, attempt_next, back_in, came, tried_next};
ghost use Rattle.pb_host.specs.Calls.{call_in, delegate_in, tried_of};
ghost use Rattle.pb_host.specs.Runs.{is_item};
ghost use Rattle.pb_host.specs.Host.{came_back};
ghost use Rattle.pb_host.specs.StepResults.{retried_by, retried_in};
ghost use Rattle.pb_host.specs.Back.{came_in, undone_by, undone_items};

use crate::step_result::Retried;
use pb_conditions::attempt::Back;
use pb_outcome::gather::ItemResult;
use pb_outcome::item::{Item, Planned};
use pb_outcome::items::has_unreachable;
use pb_outcome::job::Call;
use pb_outcome::judge::judge;
use pb_outcome::outcome::Outcome;
use pb_task_vars::PlanPlay;
use pb_task_vars::site::Site;
use pb_value::items::Items;
use pb_value::text::Text;
use std::alloc::{AllocError, Global};
use std::marker::Model;
use std::mem;

/// The items of a task, at most 10,000. The number of the next one to be sent is kept beside them, so that no item is gone over twice.
pub struct TaskItems {
    items: Vec<Item>,
    next: Option<u32>,
    lost: bool,
}

// (by hand: the crates above then let them go by one call, and know nothing of what an item is made of)
impl Drop for TaskItems {
    fn drop(self) {
        let TaskItems {
            items,
            next: _,
            lost: _,
        } = self;
        drop(items);
    }
}

impl Model for TaskItems {
    ghost use Rattle.std.specs.Prelude.{List};
    ghost use Rattle.std.specs.Coded.{codes};
    ghost use Rattle.pb_value.specs.contracts.val.Val as val;
    ghost use Rattle.pb_outcome.specs.declared.item.Item.{Item};

    ghost Value = { List Item };

    ghost coded = { Prim.hlevel (codes, val.the_row.coded) };

    ghost use Rattle.pb_host.specs.Kept.{IsKept};

    ghost view = { λ t. t.items.items };

    ghost invariant = { λ t. IsKept t.items.items t.next t.lost };
}

/// What an item was before its job came back.
pub struct Before {
    /// The item's number.
    pub number: u32,
    /// The step that it had, where it has another one now.
    pub step: Option<Planned>,
    /// How many attempts at it had come back.
    pub tried: u8,
}

impl Drop for Before {
    fn drop(self) {
        let Before {
            number: _,
            step,
            tried: _,
        } = self;
        drop(step);
    }
}

impl Before {
    /// The parts themselves.
    fn parts(self) -> (u32, Option<Planned>, u8)
        ensures { result ≡ (self.number, self.step, self.tried) }
    {
        let Before {
            number,
            step,
            tried,
        } = self;
        (number, step, tried)
    }
}

/// What is handed back where the job of an item came back.
pub struct CameBack {
    /// What the item was before, if there is one.
    pub before: Option<Before>,
    /// The attempt, if another one at the item comes behind it.
    pub retried: Option<Retried>,
}

impl Drop for CameBack {
    fn drop(self) {
        let CameBack { before, retried } = self;
        drop(before);
        drop(retried);
    }
}

impl CameBack {
    /// The parts themselves.
    pub fn parts(self) -> (Option<Before>, Option<Retried>)
        ensures { result ≡ (self.before, self.retried) }
    {
        let CameBack { before, retried } = self;
        (before, retried)
    }
}

/// The first item that waits, where none does before this number.
fn waiting_from(items: &[Item], from: u32) -> Option<u32>
    requires most { length items.now ≤ 10000 }
    requires passed { from ≤ first_waiting items.now }
    ensures { result ≡ next_item items.now }
{
    for number in from..items.len() as u32 {
        if items[number as usize].waits() {
            return Some(number);
        }
    }
    None
}

/// What is sent for the item with this number.
fn call_in(items: &[Item], number: u32) -> Option<&Call>
    ensures { option_copied result ≡ call_in items.now number }
{
    match items.get(number as usize) {
        Some(item) => match &item.step {
            Planned::Sends(call) => Some(call),
            Planned::Decided(_) => None,
        },
        None => None,
    }
}

/// What an attempt with this result at the item with this number comes to, as the task at hand says of it.
fn came_in(
    alloc: Global,
    site: &Site,
    items: &[Item],
    number: u32,
    judged: ItemResult,
) -> Result<Back, AllocError>
    ensures { IfOk result (λ back. back ≡ came_in site.now.plan.now site.now.play.now site.now.host.0 site.now.facts.now site.now.place items.now number judged) }
{
    match items.get(number as usize) {
        Some(item) => {
            let attempt = attempt_after(item.tried);
            site.came(alloc, &item.value, attempt, judged)
        }
        None => Ok(Back::Ends(judged)),
    }
}

/// Puts down the step of the item with this number, and hands back what it was.
fn put_step(items: &mut Vec<Item>, number: u32, step: Planned) -> Option<Planned>
    ensures items { items.new.items ≡ with_step number step items.old.items }
    ensures before { result ≡ option_map (λ item. item.step) (slice_get items.old.items number) }
{
    let at = number as usize;
    if at < items.len() {
        Some(mem::replace(&mut items[at].step, step))
    } else {
        None
    }
}

/// Puts down how many attempts at the item with this number came back.
fn put_tried(items: &mut Vec<Item>, number: u32, tried: u8)
    ensures { items.new.items ≡ with_tried number tried items.old.items }
{
    if let Some(item) = items.get_mut(number as usize) {
        item.tried = tried;
    }
}

/// Puts an item back as it was.
fn put_before(items: &mut Vec<Item>, before: Before)
    ensures { items.new.items ≡ undone_by before items.old.items }
{
    let (number, step, tried) = before.parts();
    put_tried(items, number, tried);
    if let Some(step) = step {
        put_step(items, number, step);
    }
}

fn either(a: bool, b: bool) -> bool
    ensures { result ≡ (a || b) }
{
    a || b
}

/// What an item was before that has another step now, if there is one.
fn before_of(number: u32, tried: u8, step: Option<Planned>) -> Option<Before>
    ensures { result ≡ option_map (λ step. record { number = number; step = Some step; tried = tried }) step }
{
    match step {
        Some(step) => Some(Before {
            number,
            step: Some(step),
            tried,
        }),
        None => None,
    }
}

/// What is handed back where no item came back.
pub(crate) fn none_back() -> CameBack
    ensures before { result.before ≡ None }
    ensures retried { result.retried ≡ None }
{
    CameBack {
        before: None,
        retried: None,
    }
}

/// The name of the host that the item with this number is delegated to, if it is.
fn delegate_in(items: &[Item], number: u32) -> Option<&Text>
    ensures { option_copied result ≡ delegate_in items.now number }
{
    match items.get(number as usize) {
        Some(item) => item.delegate.as_ref(),
        None => None,
    }
}

/// How many attempts at the item with this number came back without ending it.
fn tried_of(items: &[Item], number: u32) -> u8
    ensures { result ≡ tried_of items.now number }
{
    match items.get(number as usize) {
        Some(item) => item.tried,
        None => 0,
    }
}

/// The attempt that comes behind this many.
fn attempt_after(tried: u8) -> u32
    ensures { result ≡ attempt_after tried }
{
    if tried < 100 { tried as u32 + 1 } else { 101 }
}

/// An item's result has the names that are kept once for all hosts, where it is that of a program that ran.
fn share_step(play: &PlanPlay, step: &mut Planned)
    ensures { step.new ≡ step.old }
{
    if let Planned::Decided(result) = step {
        play.share(&mut result.result);
    }
}

impl TaskItems {
    /// The items of a task.
    pub fn of(items: Items<Item>) -> TaskItems
        requires { length items ≤ 10000 }
        ensures { result ≡ items }
    {
        let items = items.into_vec();
        let next = waiting_from(&items, 0);
        let lost = has_unreachable(&items);
        TaskItems { items, next, lost }
    }

    /// No items. It takes no memory.
    pub(crate) fn none(alloc: Global) -> TaskItems
        ensures { result ≡ [] }
    {
        TaskItems {
            items: Vec::new(alloc),
            next: None,
            lost: false,
        }
    }

    /// The items themselves.
    pub fn as_slice(&self) -> &[Item]
        ensures value { result.now ≡ self.now }
        ensures most { length self.now ≤ 10000 }
    {
        self.items.as_slice()
    }

    /// The items themselves, in place of what they were kept in.
    pub(crate) fn into_vec(self) -> Vec<Item>
        ensures { result.items ≡ self }
    {
        let TaskItems {
            items,
            next: _,
            lost: _,
        } = self;
        items
    }

    /// Where the task has no loop and its result is that of a program that ran, that has the names that are kept once for all hosts.
    pub(crate) fn share(&mut self, play: &PlanPlay)
        ensures { self.new ≡ self.old }
    {
        if self.items.len() == 1 {
            share_step(play, &mut self.items[0].step);
        }
    }

    /// The number of the next item to be sent, or of the one whose job is out.
    pub fn next(&self) -> Option<u32>
        ensures { result ≡ next_item self.now }
    {
        self.next
    }

    /// Whether the item with this number is that one.
    pub(crate) fn is_next(&self, item: u32) -> bool
        ensures { result ≡ is_item item self.now }
    {
        match self.next {
            Some(number) => number == item,
            None => false,
        }
    }

    /// How many attempts at it came back without ending it.
    #[tactic(auto, using(crate::proofs::InOrder::tried_there))]
    fn tried(&self) -> u8
        ensures { result ≡ tried_next self.now }
    {
        match self.next {
            Some(number) => tried_of(&self.items, number),
            None => 0,
        }
    }

    /// The attempt at it that is sent next, or whose job is out: 1 to 101.
    pub fn attempt(&self) -> u32
        ensures { result ≡ attempt_next self.now }
    {
        attempt_after(self.tried())
    }

    /// Whether the task is over: nothing is left to be sent, or an item found its host out of reach.
    pub fn is_over(&self) -> bool
        ensures { result ≡ is_over self.now }
    {
        self.lost || self.next.is_none()
    }

    /// What is sent for the item with this number.
    pub fn call(&self, number: u32) -> Option<&Call>
        ensures { option_copied result ≡ call_in self.now number }
    {
        call_in(&self.items, number)
    }

    /// The name of the host that the item with this number is delegated to, if it is.
    pub fn delegate(&self, number: u32) -> Option<&Text>
        ensures { option_copied result ≡ delegate_in self.now number }
    {
        delegate_in(&self.items, number)
    }

    /// The next item has this result. What it was before is handed back.
    fn put(&mut self, number: u32, item: ItemResult) -> Option<Before>
        requires { next_item self.old ≡ Some number }
        ensures items { self.new ≡ with_step number (Decided item) self.old }
        ensures undo { undone_items result self.new ≡ self.old }
    {
        let is_lost = item.ending.is_unreachable();
        let tried = tried_of(&self.items, number);
        let step = put_step(&mut self.items, number, Planned::Decided(item));
        self.next = waiting_from(&self.items, number + 1);
        self.lost = either(self.lost, is_lost);
        before_of(number, tried, step)
    }

    /// One attempt more than this came back at the item with this number. What it was before is handed back.
    fn try_again(&mut self, number: u32, tried: u8) -> Before
        requires tried { tried ≡ tried_of self.old number }
        requires few { tried < 100 }
        ensures items { self.new ≡ with_tried number (tried + 1) self.old }
        ensures undo { undone_by result self.new ≡ self.old }
    {
        put_tried(&mut self.items, number, tried + 1);
        Before {
            number,
            step: None,
            tried,
        }
    }

    /// An attempt at the next item comes to this.
    fn take(&mut self, number: u32, back: Back) -> CameBack
        requires { next_item self.old ≡ Some number }
        ensures items { self.new ≡ with_item number (came back) self.old }
        ensures retried { result.retried ≡ option_map_or (retried_by back) (slice_get self.old number) None }
        ensures undo { undone_items result.before self.new ≡ self.old }
    {
        let tried = tried_of(&self.items, number);
        match back {
            Back::Again(item) if tried < 100 => CameBack {
                before: Some(self.try_again(number, tried)),
                retried: Some(Retried {
                    attempt: attempt_after(tried),
                    result: item.result,
                }),
            },
            Back::Again(item) => CameBack {
                before: self.put(number, item),
                retried: None,
            },
            Back::Ends(item) => CameBack {
                before: self.put(number, item),
                retried: None,
            },
        }
    }

    /// What an attempt with this result at the item with this number comes to, as the task at hand says of it.
    fn came(
        &self,
        alloc: Global,
        site: &Site,
        number: u32,
        judged: ItemResult,
    ) -> Result<Back, AllocError>
        ensures { IfOk result (λ back. back ≡ came_in site.now.plan.now site.now.play.now site.now.host.0 site.now.facts.now site.now.place self.now number judged) }
    {
        came_in(alloc, site, &self.items, number, judged)
    }

    /// The job of the next item came to this: it is judged, and then the attempt comes to what the task at hand says of it. What the item was before is
    /// handed back, and the attempt where another one comes behind it. An `Err` changes nothing.
    pub(crate) fn back(
        &mut self,
        alloc: Global,
        site: &Site,
        outcome: &Outcome,
    ) -> Result<CameBack, AllocError>
        ensures ok { OnOk result (self.new ≡ back_in (came_back site.now.plan.now site.now.play.now site.now.host.0 site.now.facts.now site.now.place outcome.now) self.old) }
        ensures retried { IfOk result (λ came. came.retried ≡ retried_in (came_back site.now.plan.now site.now.play.now site.now.host.0 site.now.facts.now site.now.place outcome.now) self.old) }
        ensures undo { IfOk result (λ came. undone_items came.before self.new ≡ self.old) }
        ensures err { OnErr result (self.new ≡ self.old) }
    {
        let Some(number) = self.next() else {
            return Ok(none_back());
        };
        let Some(call) = self.call(number) else {
            return Ok(none_back());
        };
        let judged = judge(alloc, call, outcome)?;
        let back = self.came(alloc, site, number, judged)?;
        Ok(self.take(number, back))
    }

    /// Puts an item back as it was.
    pub(crate) fn undo(&mut self, before: Option<Before>)
        ensures { self.new ≡ undone_items before self.old }
    {
        if let Some(before) = before {
            put_before(&mut self.items, before);
            self.next = waiting_from(&self.items, 0);
            self.lost = has_unreachable(&self.items);
        }
    }
}
