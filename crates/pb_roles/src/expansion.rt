//! The plays of a playbook, with their roles.
ghost use Rattle.std.specs.Prelude.{◌≡◌, ◌≢◌, ◌++◌, ◌∷◌, [], map, length, IfOk, IfErr, OnOk, Ok, Err, if◌then◌else◌};
ghost use Rattle.std.specs.List.{All};
ghost use Rattle.pb_handlers.specs.Naming.{kept};
ghost use Rattle.pb_roles.specs.Answers.{Gives};
ghost use Rattle.pb_roles.specs.Expansion.{handlers_in};
ghost use Rattle.pb_roles.specs.Origins.{from_play};
ghost use Rattle.pb_roles.specs.Plays.{built, checked, expanded, expansion_of, has_too_many_places, head_of, head_with, is_too_deep, IsBuilt};
ghost use Rattle.pb_roles.specs.Sections.{counted, names_of, own, own_of, sections_of};

use crate::collected::{Expansion, HandlerIn, Section};
use crate::fault::RoleFault;
use crate::files::RoleFiles;
use crate::flush::all_names;
use crate::linear_keys::linear_keys_of;
use crate::nodes::{is_part_deeper, part_left, tree_of};
use crate::origin::Origin;
use crate::queue::Queue;
use crate::roles::{push_handlers, roles_of};
use crate::sections::{Expanded, Head, LinearKeys, Own, PlayKeys, Sections};
use crate::unknown::unknown_with;
use pb_handlers::{Handlers, counting};
use pb_play::node::NodeList;
use pb_play_reading::handlers::Handler;
use pb_play_reading::play::Play;
use pb_play_reading::playbook::Playbook;
use pb_value::items::Items;
use std::alloc::{AllocError, Global};

/// The most places of a play.
const MAX_PLACES: u32 = 16_384;

/// The most handlers that can be numbered.
const MAX_HANDLERS: usize = 0xffff_ffff;

/// How deep always parts of a play may stand in one another.
const MAX_DEPTH: u32 = 32;

/// One more, if it is marked.
fn push_if(all: &mut Items<HandlerIn>, is_kept: bool, handler: HandlerIn) -> Result<(), AllocError>
    ensures { IfOk result (λ _. all.new ≡ all.old ++ (if is_kept then handler ∷ [] else [])) }
{
    if is_kept {
        all.push(handler)?;
    }
    Ok(())
}

/// Those that are marked.
fn kept(
    alloc: Global,
    marks: &[bool],
    handlers: Items<HandlerIn>,
) -> Result<Items<HandlerIn>, AllocError>
    ensures { IfOk result (λ all. all ≡ kept marks.now handlers) }
{
    let mut all = Items::new(alloc);
    let mut rest = Queue::of(handlers);
    for is_kept in marks {
        let Some(handler) = rest.pop() else {
            return Ok(all);
        };
        push_if(&mut all, *is_kept, handler)?;
    }
    Ok(all)
}

/// Of handlers with one name the last counts.
fn counted(alloc: Global, handlers: Items<HandlerIn>) -> Result<Items<HandlerIn>, AllocError>
    ensures { IfOk result (λ all. all ≡ counted handlers) }
{
    let names = all_names(alloc, handlers.as_slice())?;
    let marks = counting(alloc, names.as_slice())?;
    kept(alloc, marks.as_slice(), handlers)
}

/// Nodes that stand in the play itself are its last section there.
pub(crate) fn push_own(sections: &mut Items<Section>, nodes: NodeList) -> Result<(), AllocError>
    ensures { OnOk result (sections.new ≡ sections.old ++ own nodes ∷ []) }
{
    sections.push(Section {
        origin: Origin::from_play(),
        nodes,
    })?;
    Ok(())
}

/// The handlers of the roles and of the play that count.
pub(crate) fn with_handlers(
    alloc: Global,
    of_roles: Items<HandlerIn>,
    handlers: Items<Handler>,
) -> Result<Items<HandlerIn>, AllocError>
    ensures { IfOk result (λ all. all ≡ counted (of_roles ++ handlers_in from_play handlers)) }
{
    let mut all = of_roles;
    push_handlers(&Origin::from_play(), handlers, &mut all)?;
    counted(alloc, all)
}

/// A play in two: what stays of it as it is, and what stands in it.
fn parted(play: Play, linear_keys: LinearKeys) -> (Head, Own)
    ensures head { result.0 ≡ head_with play linear_keys }
    ensures own { result.1 ≡ own_of play }
{
    let Play {
        name,
        hosts,
        vars,
        any_errors_fatal: _,
        ignore_errors: _,
        max_fail_percentage,
        pre_tasks: pre,
        tasks,
        post_tasks: post,
        roles,
        handlers,
        force_handlers: _,
        strategy,
        serial,
    } = play;
    drop(roles);
    let head = Head {
        name,
        hosts,
        vars,
        strategy,
        serial,
        max_fail_percentage: max_fail_percentage.unwrap_or(100),
        linear_keys,
    };
    let own = Own {
        pre,
        tasks,
        post,
        handlers,
    };
    (head, own)
}

/// A play whose roles brought this: what stays of it as it is, and what stands in it.
fn sections_of(alloc: Global, play: Play, met: Expansion) -> Result<(Head, Sections), AllocError>
    ensures head { IfOk result (λ r. r.0 ≡ head_of play met) }
    ensures sections { IfOk result (λ r. r.1 ≡ sections_of play met) }
{
    let linear_keys = linear_keys_of(&play, &met);
    let keys = PlayKeys {
        any_errors_fatal: play.any_errors_fatal,
        ignore_errors: play.ignore_errors,
    };
    let force_handlers = play.force_handlers;
    let (head, own) = parted(play, linear_keys);
    let sections = met.with_own(alloc, keys, force_handlers, own)?;
    Ok((head, sections))
}

/// What the handlers are notified by. So many that 32 bits can't number them are too large for memory.
fn names_in(alloc: Global, handlers: &[HandlerIn]) -> Result<Handlers, AllocError>
    ensures { IfOk result (λ names. names ≡ map names_of handlers.now) }
{
    let names = all_names(alloc, handlers)?;
    if names.len() > MAX_HANDLERS {
        return Err(AllocError);
    }
    Handlers::of(alloc, names)
}

/// Whether a play has more places than it may have.
#[tactic(auto, using(crate::proofs::Trees::size_tree, crate::proofs::Trees::at_least))]
fn has_too_many_places(play: &Sections) -> bool
    ensures { result ≡ has_too_many_places play.now }
{
    let count = play.handlers.len();
    if count > MAX_PLACES as usize {
        return true;
    }
    let handlers = count as u32;
    let left = match part_left(play.pre.as_slice(), handlers, MAX_PLACES) {
        Some(left) => left,
        None => return true,
    };
    let left = match part_left(play.tasks.as_slice(), handlers, left) {
        Some(left) => left,
        None => return true,
    };
    part_left(play.post.as_slice(), handlers, left).is_none()
}

/// Whether always parts of a play stand in one another, deeper than they may.
#[tactic(auto, using(crate::proofs::Trees::depth_tree))]
fn is_too_deep(play: &Sections) -> bool
    ensures { result ≡ is_too_deep play.now }
{
    is_part_deeper(play.pre.as_slice(), MAX_DEPTH)
        || is_part_deeper(play.tasks.as_slice(), MAX_DEPTH)
        || is_part_deeper(play.post.as_slice(), MAX_DEPTH)
}

/// The tree and the places of a play that is within the limits, whose handlers are notified by these names.
fn built(alloc: Global, head: Head, names: Handlers, play: Sections) -> Result<Expanded, AllocError>
    requires { names ≡ map names_of play.handlers }
    ensures { IfOk result (λ e. e ≡ built head play) }
{
    let tree = tree_of(alloc, &play)?;
    let places = play.all_places(alloc, names)?;
    Ok(head.with(tree, places))
}

/// A play with what stands in it, or the first fault.
#[tactic(auto, using(crate::proofs::Each::unknown_fault, crate::proofs::Each::large_fault, crate::proofs::Each::checked_is))]
fn checked(alloc: Global, head: Head, play: Sections) -> Result<Expanded, RoleFault>
    ensures { Gives result (checked head play) }
{
    let names = names_in(alloc, play.handlers.as_slice())?;
    if let Some(name) = unknown_with(&names, &play) {
        let name = name.try_clone()?;
        return Err(RoleFault::Unknown { name });
    }
    if has_too_many_places(&play) || is_too_deep(&play) {
        return Err(RoleFault::TooLarge);
    }
    Ok(built(alloc, head, names, play)?)
}

/// A play with its roles.
#[tactic(auto, using(crate::proofs::Each::roles_fault, crate::proofs::Each::expanded_is))]
fn expanded(alloc: Global, files: &RoleFiles, play: Play) -> Result<Expanded, RoleFault>
    ensures { Gives result (expanded files.now play) }
{
    let met = roles_of(alloc, files, play.roles.as_slice())?;
    let (head, sections) = sections_of(alloc, play, met)?;
    checked(alloc, head, sections)
}

/// Plays with their roles, in their order.
fn each_expanded(
    alloc: Global,
    files: &RoleFiles,
    plays: Items<Play>,
) -> Result<Items<Expanded>, RoleFault>
    ensures { Gives result (expansion_of files.now plays) }
{
    let mut all = Items::new(alloc);
    for play in plays.into_vec() {
        let one = expanded(alloc, files, play)?;
        all.push(one)?;
    }
    Ok(all)
}

/// The plays of a playbook with their roles: of each its tree, and what stands at the places of the tree.
///
/// # Errors
/// Play by play, in the order in which entries of roles are met: `Cycle` where a role depends on itself, `Unknown` where a role has no file, `Load`
/// where a file has a fault; then `Unknown` where a name is notified that no handler has, and `TooLarge` where the play has more than 16,384
/// places. `Memory` may come at any point, where memory was refused.
pub fn expand(
    alloc: Global,
    playbook: Playbook,
    files: &RoleFiles,
) -> Result<Items<Expanded>, RoleFault>
    ensures value { IfOk result (λ all. expansion_of files.now playbook.plays ≡ Ok all) }

    // What a play has at its places fits its tree, which is within the limits.
    ensures fit { IfOk result (All IsBuilt) }
    ensures count { IfOk result (λ all. length all ≡ length playbook.plays) }
    ensures fault { IfErr result (λ e. e ≢ RoleFault.Memory → expansion_of files.now playbook.plays ≡ Err e) }
{
    each_expanded(alloc, files, playbook.plays)
}
