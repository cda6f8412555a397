//! What lines are about.

ghost use Rattle.std.specs.Prelude.{◌≡◌, ◌<◌, IfOk, IfSome, slice_get};
ghost use Rattle.std.specs.Option.{option_copied};
ghost use Rattle.pb_tree.specs.Tree.{path_at};
ghost use Rattle.pb_events.specs.Lines.{site_at, site_of};

use pb_ids::HostNo;
use pb_places::Place;
use pb_state::{EngineState, Plan, PlanPlay, StepResult};
use std::alloc::{AllocError, Global};
use std::marker::Model;

/// What a step came to for a host, of the task at a place of a play.
#[derive(Drop)]
pub struct Site<'a> {
    pub play: &'a PlanPlay,
    /// The play's number.
    pub number: u32,
    /// The host's name.
    pub host: &'a str,
    /// What stands at the place.
    pub place: &'a Place,
    /// The place's path in the play's tree, as it is printed.
    pub path: String,
    pub step_result: &'a StepResult,
}

impl<'a> Model for Site<'a> {
    ghost use Rattle.std.specs.Prelude.{string_bytes};
    ghost use Rattle.std.specs.Coded.{codes};
    ghost use Rattle.pb_value.specs.contracts.val.Val as val;
    ghost use Rattle.pb_places.specs.contracts.place.Place as the_place;
    ghost use Rattle.pb_plan.specs.contracts.plan.PlanPlay as the_play;
    ghost use Rattle.pb_events.specs.Lines.{SiteOf};

    ghost Value = { SiteOf };

    ghost coded = { Prim.hlevel (codes, val.the_row.coded, the_place.the_row.coded, the_play.the_row.coded) };

    ghost view = { λ s. record {
      play = s.play.now;
      number = s.number;
      host = s.host.now;
      place = s.place.now;
      path = string_bytes s.path;
      step_result = s.step_result.now;
    } };
}

/// The play with a number.
#[tactic(auto, using(crate::proofs::Plays::below))]
pub fn play_at(plan: &Plan, number: usize) -> Option<&PlanPlay>
    ensures value { option_copied result ≡ slice_get plan.now.plays number }
    ensures below { IfSome result (λ _. number < 256) }
{
    plan.plays().get(number)
}

/// The name of a host, if there is one with this number.
#[tactic(auto, using(crate::proofs::Plays::past))]
pub(crate) fn name_of(plan: &Plan, host: HostNo) -> Option<&str>
    ensures { option_copied result ≡ slice_get plan.now.inventory.hosts host.0 }
{
    if host.0 < plan.host_count() {
        Some(plan.host_name(host))
    } else {
        None
    }
}

/// The site of what a step came to for a host in a play.
fn site_at<'a>(
    alloc: Global,
    play: &'a PlanPlay,
    number: u32,
    host: &'a str,
    step_result: &'a StepResult,
) -> Result<Option<Site<'a>>, AllocError>
    ensures { IfOk result (λ site. site ≡ site_at play.now number host.now step_result.now (slice_get play.now.places step_result.now.place) (path_at play.now.tree step_result.now.place)) }
{
    match (
        play.place(step_result.place),
        play.tree().place(step_result.place),
    ) {
        (Some(place), Some(at)) => {
            let path = at.text(alloc)?;
            Ok(Some(Site {
                play,
                number,
                host,
                place,
                path,
                step_result,
            }))
        }
        _ => Ok(None),
    }
}

/// The site of what the last step came to for a host. The only error is want of memory.
pub fn site_of<'a>(
    alloc: Global,
    plan: &'a Plan,
    state: &'a EngineState,
    host: HostNo,
) -> Result<Option<Site<'a>>, AllocError>
    ensures { IfOk result (λ site. site ≡ site_of plan.now state.now host.0) }
{
    match (
        play_at(plan, state.play()),
        state.step_result(),
        name_of(plan, host),
    ) {
        (Some(play), Some(step_result), Some(name)) => {
            site_at(alloc, play, state.play() as u32, name, step_result)
        }
        _ => Ok(None),
    }
}
