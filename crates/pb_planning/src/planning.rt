//! The plan of a bundle.

ghost use Rattle.std.specs.Prelude.{◌≡◌, ◌≢◌, ◌<◌, ◌≤◌, [], ◌∷◌, ◌++◌, List, ℕ, map, length, IfOk, IfErr, OnOk, Ok, Err};
ghost use Rattle.std.specs.List.{All};
ghost use Rattle.pb_inventory.specs.Reading.{inventory_of};
ghost use Rattle.pb_patterns.specs.Expressions.{AreTaken};
ghost use Rattle.pb_inventory.specs.Vars.{strangers};
ghost use Rattle.pb_play_reading.specs.Playbooks.{playbook_of, expressions_of_book};
ghost use Rattle.pb_play_reading.specs.Refusals.{AllTaken};
ghost use Rattle.pb_roles.specs.Plays.{expansion_of, IsBuilt};
ghost use Rattle.pb_patterns.specs.Selection.{IsSelection};
ghost use Rattle.pb_flat.specs.Deep.{always_depth};
ghost use Rattle.pb_plan.specs.Hostvars.{AreFreeHosts, AreFreePlaces};
ghost use Rattle.pb_plan.specs.Plan.{Fits, throttles_of, run_once_of};
ghost use Rattle.pb_variables.specs.Magic.{plan_magic, play_magic};
ghost use Rattle.pb_variables.specs.Shared.{AreKept};
ghost use Rattle.pb_planning.specs.Bundle.{in_part, both, limit_of, expressions_of_limit, extra_in, lines_of_play, stranger_line, unmatched_line, IsLimit, IsPlayOf, ArePlaysOf, IsPlanIn, IsPlanOf, IsBundleFault, IsPlaybookFault, IsLimitFault};

use crate::bundle::{Bundle, BundleFault, is_too_large};
use crate::ignored::push_ignored;
use pb_cursors::LaidTree;
use pb_flat::FlatFault;
use pb_inventory::fault::InvFault;
use pb_inventory::inventory::Inventory;
use pb_outcome::judge::ran_names;
use pb_outcome::result_names::ResultNames;
use pb_patterns::fault::PatFault;
use pb_patterns::pattern::Pattern;
use pb_patterns::selected::Selected;
use pb_plan::hostvars::{free_hosts, free_places};
use pb_plan::parts::{AtPlaces, PlanHosts, PlayHead, run_once_of, throttles_of};
use pb_plan::{Plan, PlanPlay, Planned};
use pb_planes::HostSet;
use pb_play_reading::playbook::Playbook;
use pb_roles::{Expanded, RoleFault, expand};
use pb_tree::PlayTree;
use pb_value::items::Items;
use pb_value::names::Names;
use pb_value::text::Text;
use pb_value::val::Dict;
use pb_variables::extra::read_extra;
use pb_variables::fault::ExtraFault;
use pb_variables::magic::{plan_magic, play_magic};
use pb_variables::shared::GroupShares;
use pb_written::fault::LoadFault;
use std::alloc::{AllocError, Global};
use std::rc::Rc;

/// The inventory of a bundle.
fn inventory_in(alloc: Global, bundle: &Bundle) -> Result<Inventory, BundleFault>
    ensures value { IfOk result (λ i. in_part BundleFault.Inventory (inventory_of bundle.now.inventory) ≡ Ok i) }
    ensures fault { IfErr result (λ e. e ≢ BundleFault.Memory → in_part BundleFault.Inventory (inventory_of bundle.now.inventory) ≡ Err e) }
{
    match Inventory::read(alloc, bundle.inventory.as_slice()) {
        Ok(inventory) => Ok(inventory),
        Err(InvFault::Memory) => Err(BundleFault::Memory),
        Err(fault) => Err(BundleFault::Inventory(fault)),
    }
}

/// The extra variables, if there are some.
fn extra_in(alloc: Global, extra: &Option<Text>) -> Result<Dict, BundleFault>
    ensures value { IfOk result (λ vars. extra_in extra.now ≡ Ok vars) }
    ensures fault { IfErr result (λ e. e ≢ BundleFault.Memory → extra_in extra.now ≡ Err e) }
{
    match extra {
        Some(text) => match read_extra(alloc, text.as_str().as_bytes()) {
            Ok(vars) => Ok(vars),
            Err(ExtraFault::Memory) => Err(BundleFault::Memory),
            Err(fault) => Err(BundleFault::Extra(fault)),
        },
        None => Ok(Dict::new(alloc)),
    }
}

/// The playbook of a bundle.
fn playbook_in(alloc: Global, bundle: &Bundle) -> Result<Playbook, BundleFault>
    ensures value { IfOk result (λ p. in_part BundleFault.Playbook (playbook_of bundle.now.playbook) ≡ Ok p) }
    ensures taken { OnOk result (AllTaken (expressions_of_book bundle.now.playbook)) }
    ensures limit { IfOk result (λ p. length p.plays ≤ 256) }
    ensures fault { IfErr result (λ e. e ≢ BundleFault.Memory → IsPlaybookFault bundle.now.playbook e) }
{
    match Playbook::read(alloc, bundle.playbook.as_slice()) {
        Ok(playbook) => Ok(playbook),
        Err(LoadFault::Memory) => Err(BundleFault::Memory),
        Err(fault) => Err(BundleFault::Playbook(fault)),
    }
}

/// The pattern of a limit, if there is one.
fn limit_in(alloc: Global, limit: &Option<Text>) -> Result<Option<Pattern>, BundleFault>
    ensures value { IfOk result (λ pattern. limit_of limit.now ≡ Ok pattern) }
    ensures taken { OnOk result (AreTaken (expressions_of_limit limit.now)) }
    ensures fault { IfErr result (λ e. e ≢ BundleFault.Memory → IsLimitFault limit.now e) }
{
    match limit {
        Some(text) => match Pattern::parse(alloc, text.as_str()) {
            Ok(pattern) => Ok(Some(pattern)),
            Err(PatFault::Memory) => Err(BundleFault::Memory),
            Err(fault) => Err(BundleFault::Limit(fault)),
        },
        None => Ok(None),
    }
}

/// The plays with their roles.
fn plays_in(
    alloc: Global,
    bundle: &Bundle,
    playbook: Playbook,
) -> Result<Items<Expanded>, BundleFault>
    ensures value { IfOk result (λ plays. in_part BundleFault.Roles (expansion_of bundle.now.roles playbook.plays) ≡ Ok plays) }
    ensures built { IfOk result (All IsBuilt) }
    ensures count { IfOk result (λ plays. length plays ≡ length playbook.plays) }
    ensures fault { IfErr result (λ e. e ≢ BundleFault.Memory → in_part BundleFault.Roles (expansion_of bundle.now.roles playbook.plays) ≡ Err e) }
{
    match expand(alloc, playbook, &bundle.roles) {
        Ok(plays) => Ok(plays),
        Err(RoleFault::Memory) => Err(BundleFault::Memory),
        Err(fault) => Err(BundleFault::Roles(fault)),
    }
}

/// What a limit selects: all hosts where there is none.
fn limit_selects(
    alloc: Global,
    inventory: &Inventory,
    limit: &Option<Pattern>,
) -> Result<Selected, AllocError>
    ensures selected { IfOk result (λ selected. IsLimit inventory.now limit.now selected) }
    ensures width { IfOk result (λ selected. length selected.hosts ≡ length inventory.now.hosts) }
{
    match limit {
        Some(pattern) => pattern.select(alloc, inventory),
        None => Ok(Selected {
            hosts: HostSet::full(alloc, inventory.hosts())?,
            unmatched: Items::new(alloc),
        }),
    }
}

/// Adds a line for each name, behind a label.
fn push_lines(
    alloc: Global,
    lines: &mut Items<Text>,
    label: &str,
    names: &[Text],
) -> Result<(), AllocError>
    ensures { OnOk result (lines.new ≡ lines.old ++ map (λ name. label.now ++ name) names.now) }
{
    for name in names {
        push_line(alloc, lines, label, name)?;
    }
    Ok(())
}

fn push_line(
    alloc: Global,
    lines: &mut Items<Text>,
    label: &str,
    name: &Text,
) -> Result<(), AllocError>
    ensures { OnOk result (lines.new ≡ lines.old ++ (label.now ++ name.now) ∷ []) }
{
    let mut line = String::from_str(alloc, label)?;
    line.push_str(name.as_str())?;
    lines.push(Text::from_string(line))?;
    Ok(())
}

/// The hosts that a play's own pattern and the limit select, and lines for the elements that select none and for the keys that the strategy ignores.
fn own_hosts(
    alloc: Global,
    inventory: &Inventory,
    limit: &HostSet,
    play: &Expanded,
    lines: &mut Items<Text>,
) -> Result<HostSet, AllocError>
    requires { length limit.now ≡ length inventory.now.hosts }
    ensures value { IfOk result (λ hosts. (own : Selected) × IsSelection inventory.now play.now.hosts own × (hosts ≡ both own.hosts limit.now) × (lines.new ≡ lines.old ++ lines_of_play own.unmatched play.now)) }
    ensures width { IfOk result (λ hosts. length hosts ≡ length inventory.now.hosts) }
{
    let mut own = play.hosts.select(alloc, inventory)?;
    push_lines(
        alloc,
        lines,
        "warning: no host matches ",
        own.unmatched.as_slice(),
    )?;
    push_ignored(alloc, lines, play.strategy, play.linear_keys)?;
    own.hosts.and_with(limit);
    Ok(own.hosts)
}

/// What is known of a play's places once for all hosts.
#[derive(Drop)]
struct KnownPlaces {
    /// How many hosts may run the task there at once.
    throttles: Vec<u32>,
    /// Whether the first host of a batch runs the task there for all.
    run_once: Vec<bool>,
    /// The places that are marked have no variable in whose text `hostvars` stands.
    free_places: Vec<bool>,
}

/// What is known of the places of a play.
fn known_of(alloc: Global, play: &Expanded) -> Result<KnownPlaces, AllocError>
    ensures throttles { IfOk result (λ known. known.throttles.items ≡ throttles_of play.now.places) }
    ensures once { IfOk result (λ known. known.run_once.items ≡ run_once_of play.now.places) }
    ensures free { IfOk result (λ known. AreFreePlaces play.now.vars play.now.places known.free_places.items) }
{
    let places = play.places.as_slice();
    let throttles = throttles_of(alloc, places)?;
    let run_once = run_once_of(alloc, places)?;
    let free_places = free_places(alloc, &play.vars, places)?;
    Ok(KnownPlaces {
        throttles,
        run_once,
        free_places,
    })
}

/// What is made for a play, beside what it says itself.
#[derive(Drop)]
struct Made {
    /// The hosts that are its own.
    hosts: HostSet,
    /// The variables that it gives by itself.
    magic: Dict,
    /// The names of results that are decided as a task starts.
    names: ResultNames,
    /// Those of the result of a program that ran.
    ran: Option<Names>,
    known: KnownPlaces,
}

/// What is made for a play within a limit, and lines for what is odd in it.
fn made_for(
    alloc: Global,
    inventory: &Inventory,
    limit: &HostSet,
    play: &Expanded,
    lines: &mut Items<Text>,
) -> Result<Made, AllocError>
    requires { length limit.now ≡ length inventory.now.hosts }
    ensures hosts { IfOk result (λ made. (own : Selected) × IsSelection inventory.now play.now.hosts own × (made.hosts ≡ both own.hosts limit.now) × (lines.new ≡ lines.old ++ lines_of_play own.unmatched play.now)) }
    ensures magic { IfOk result (λ made. made.magic ≡ play_magic inventory.now made.hosts) }
    ensures throttles { IfOk result (λ made. made.known.throttles.items ≡ throttles_of play.now.places) }
    ensures once { IfOk result (λ made. made.known.run_once.items ≡ run_once_of play.now.places) }
    ensures free { IfOk result (λ made. AreFreePlaces play.now.vars play.now.places made.known.free_places.items) }
{
    let hosts = own_hosts(alloc, inventory, limit, play, lines)?;
    let magic = play_magic(alloc, inventory, &hosts)?;
    let names = ResultNames::new(alloc)?;
    let ran = ran_names(alloc)?;
    let known = known_of(alloc, play)?;
    Ok(Made {
        hosts,
        magic,
        names,
        ran,
        known,
    })
}

/// A play's tree, laid out for its hosts. Its always parts stand in one another at most 32 deep.
fn laid_out(alloc: Global, tree: PlayTree) -> Result<Rc<LaidTree>, AllocError>
    requires { always_depth tree.nodes ≤ 32 }
    ensures { IfOk result (λ laid. laid.value.tree ≡ tree) }
{
    match LaidTree::of(alloc, tree) {
        Ok(laid) => Ok(Rc::new(alloc, laid)?),
        Err(FlatFault::TooDeep) => unreachable!(),
        Err(FlatFault::Memory) => Err(AllocError),
    }
}

/// A play with the hosts that its own pattern and the limit select, and lines for what is odd in it.
fn plan_play(
    alloc: Global,
    inventory: &Inventory,
    limit: &HostSet,
    play: Expanded,
    lines: &mut Items<Text>,
) -> Result<PlanPlay, AllocError>
    requires built { IsBuilt play }
    requires width { length limit.now ≡ length inventory.now.hosts }
    ensures { IfOk result (λ planned. (more : List (List ℕ)) × IsPlayOf inventory.now limit.now play planned more × (lines.new ≡ lines.old ++ more)) }
{
    let made = made_for(alloc, inventory, limit, &play, lines)?;
    let laid = laid_out(alloc, play.tree)?;
    let head = PlayHead {
        name: play.name,
        hosts: made.hosts,
        strategy: play.strategy,
        serial: play.serial,
        max_fail_percentage: play.max_fail_percentage,
        vars: play.vars,
        magic: made.magic,
    };
    let at_places = AtPlaces {
        places: play.places,
        throttles: made.known.throttles,
        run_once: made.known.run_once,
        free_places: made.known.free_places,
        ran: made.ran,
        names: made.names,
    };
    Ok(PlanPlay::new(head, laid, at_places))
}

/// The lines that warn of the inventory and of the limit.
fn first_lines(
    alloc: Global,
    inventory: &Inventory,
    limit: &Selected,
) -> Result<Items<Text>, AllocError>
    ensures { IfOk result (λ lines. lines ≡ map stranger_line (strangers inventory.now) ++ map unmatched_line limit.now.unmatched) }
{
    let mut lines = Items::new(alloc);
    let strangers = inventory.strangers(alloc)?;
    push_lines(
        alloc,
        &mut lines,
        "warning: no such host ",
        strangers.as_slice(),
    )?;
    push_lines(
        alloc,
        &mut lines,
        "warning: no host matches ",
        limit.unmatched.as_slice(),
    )?;
    Ok(lines)
}

/// The plays of a plan, and the lines that warn of the inventory, of the limit and of the plays.
#[derive(Drop)]
struct PlannedPlays {
    plays: Items<PlanPlay>,
    lines: Items<Text>,
}

/// The plays with their hosts within what a limit selects.
fn plan_plays(
    alloc: Global,
    inventory: &Inventory,
    limit: &Selected,
    plays: Items<Expanded>,
) -> Result<PlannedPlays, AllocError>
    requires built { All IsBuilt plays }
    requires width { length limit.now.hosts ≡ length inventory.now.hosts }
    ensures value { IfOk result (λ planned. (more : List (List ℕ)) × ArePlaysOf inventory.now limit.now.hosts plays planned.plays more × (planned.lines ≡ (map stranger_line (strangers inventory.now) ++ map unmatched_line limit.now.unmatched) ++ more)) }
    ensures count { IfOk result (λ planned. length planned.plays ≡ length plays) }
{
    let mut lines = first_lines(alloc, inventory, limit)?;
    let mut all = Items::new(alloc);
    for play in plays.into_vec() {
        let planned = plan_play(alloc, inventory, &limit.hosts, play, &mut lines)?;
        all.push(planned)?;
    }
    Ok(PlannedPlays { plays: all, lines })
}

/// The plays with the hosts that they have within a limit.
fn plays_within(
    alloc: Global,
    inventory: &Inventory,
    limit: &Option<Pattern>,
    plays: Items<Expanded>,
) -> Result<PlannedPlays, AllocError>
    requires { All IsBuilt plays }
    ensures value { IfOk result (λ planned. (selected : Selected) × (more : List (List ℕ)) × IsLimit inventory.now limit.now selected × ArePlaysOf inventory.now selected.hosts plays planned.plays more × (planned.lines ≡ (map stranger_line (strangers inventory.now) ++ map unmatched_line selected.unmatched) ++ more)) }
    ensures count { IfOk result (λ planned. length planned.plays ≡ length plays) }
{
    let selected = limit_selects(alloc, inventory, limit)?;
    plan_plays(alloc, inventory, &selected, plays)
}

/// What is known of the hosts of a plan once for all plays.
#[derive(Drop)]
struct KnownHosts {
    /// The variables that the plan gives by itself.
    magic: Dict,
    /// What hosts have from their groups.
    shares: GroupShares,
    /// The hosts that are marked have no variable in whose text `hostvars` stands.
    free_hosts: Vec<bool>,
}

/// What is known of the hosts of an inventory, beside these extra variables.
fn known_hosts(alloc: Global, inventory: &Inventory, extra: &Dict) -> Result<KnownHosts, AllocError>
    ensures magic { IfOk result (λ known. known.magic ≡ plan_magic inventory.now) }
    ensures kept { IfOk result (λ known. AreKept inventory.now known.shares) }
    ensures free { IfOk result (λ known. AreFreeHosts inventory.now extra.now known.free_hosts.items) }
{
    let magic = plan_magic(alloc, inventory)?;
    let shares = GroupShares::of(alloc, inventory)?;
    let free_hosts = free_hosts(alloc, inventory, &shares, extra)?;
    Ok(KnownHosts {
        magic,
        shares,
        free_hosts,
    })
}

/// The plan of what a bundle says.
fn plan_with(
    alloc: Global,
    bundle: &Bundle,
    inventory: Inventory,
    extra: Dict,
    plays: Items<Expanded>,
    limit: &Option<Pattern>,
) -> Result<Plan, BundleFault>
    requires some { 0 < bundle.now.forks }
    requires bound { bundle.now.forks ≤ 256 }
    requires plays { length plays ≤ 256 }
    requires built { All IsBuilt plays }
    ensures value { IfOk result (λ plan. IsPlanIn inventory extra limit.now bundle.now.forks bundle.now.has_facts_program plays plan) }
    ensures fault { IfErr result (λ e. e ≡ BundleFault.Memory) }
{
    let planned = plays_within(alloc, &inventory, limit, plays)?;
    let known = known_hosts(alloc, &inventory, &extra)?;
    let hosts = PlanHosts {
        inventory,
        extra,
        shares: known.shares,
        free_hosts: known.free_hosts,
    };
    Ok(Plan::from_parts(
        hosts,
        planned.plays,
        bundle.forks,
        bundle.has_facts_program,
        planned.lines,
        known.magic,
    ))
}

/// The plan of a bundle, or its first fault.
fn plan_of(alloc: Global, bundle: &Bundle) -> Result<Plan, BundleFault>
    ensures value { IfOk result (IsPlanOf bundle.now) }

    // What a play has at its places fits its tree.
    ensures fit { IfOk result (λ plan. All Fits plan.plays) }
    ensures fault { IfErr result (λ e. e ≢ BundleFault.Memory → IsBundleFault bundle.now e) }
{
    if is_too_large(bundle) {
        return Err(BundleFault::TooLarge);
    }
    let forks = bundle.forks;
    if forks == 0 || 256 < forks {
        return Err(BundleFault::BadForks);
    }
    let inventory = match inventory_in(alloc, bundle) {
        Ok(inventory) => inventory,
        Err(fault) => return Err(fault),
    };
    let extra = match extra_in(alloc, &bundle.extra) {
        Ok(extra) => extra,
        Err(fault) => return Err(fault),
    };
    let playbook = match playbook_in(alloc, bundle) {
        Ok(playbook) => playbook,
        Err(fault) => return Err(fault),
    };
    let limit = match limit_in(alloc, &bundle.limit) {
        Ok(limit) => limit,
        Err(fault) => return Err(fault),
    };
    let plays = match plays_in(alloc, bundle, playbook) {
        Ok(plays) => plays,
        Err(fault) => return Err(fault),
    };
    plan_with(alloc, bundle, inventory, extra, plays, &limit)
}

impl Planned for Bundle {
    ghost use Rattle.std.specs.Prelude.{◌≢◌};
    ghost use Rattle.pb_planning.specs.Bundle.{IsPlanOf, IsBundleFault};
    ghost use Rattle.pb_planning.specs.declared.bundle.BundleFault.TheVariants.{Memory};

    type Fault = BundleFault;

    ghost is_plan = { IsPlanOf };

    ghost is_fault = { λ b e. e ≢ Memory → IsBundleFault b e };

    /// A plan of a bundle, or its first fault.
    ///
    /// # Errors
    /// In this order: `TooLarge` where the bundle has more than 64 MiB, `BadForks` where its forks aren't 1 to 256, a fault of
    /// the inventory, one of the extra variables, one of the playbook, one of the limit, one of the plays' roles and trees. `Memory` may come at any point, where
    /// memory was refused. Which regular expressions are refused for their size is the `regex` crate's own choice.
    fn plan(&self, alloc: Global) -> Result<Plan, BundleFault> {
        plan_of(alloc, self)
    }
}
