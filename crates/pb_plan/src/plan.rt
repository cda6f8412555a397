//! What the machine reads of a bundle.

ghost use Rattle.std.specs.Prelude.{◌≡◌, ◌<◌, ◌≤◌, ℕ, List, false, length, slice_get, option_map, IfOk, Some};
ghost use Rattle.std.specs.Option.{option_copied};
ghost use Rattle.pb_value.specs.Datum.{value_at};
ghost use Rattle.pb_inventory.specs.Vars.{groups_of_host, last_given};
ghost use Rattle.pb_tree.specs.Tree.{size_of};
ghost use Rattle.pb_variables.specs.Connector.{connector_of};
ghost use Rattle.pb_variables.specs.Shared.{from_groups, AreKept};
ghost use Rattle.pb_plan.specs.Plan.{throttles_of, run_once_of};
ghost use Rattle.pb_plan.specs.Hostvars.{IsFreeAt, AreFreePlaces, IsFreeHost, AreFreeHosts};

mod result_names;

use crate::parts::{AtPlaces, PlanHosts, PlayHead};
use pb_batches::Serial;
use pb_cursors::LaidTree;
use pb_ids::{HostNo, PlayNo};
use pb_inventory::inventory::Inventory;
use pb_outcome::result_names::ResultNames;
use pb_places::Place;
use pb_planes::HostSet;
use pb_strategies::Strategy;
use pb_tree::PlayTree;
use pb_value::items::Items;
use pb_value::names::Names;
use pb_value::text::Text;
use pb_value::val::Dict;
use pb_variables::connector::connector;
use pb_variables::host_groups::HostGroups;
use pb_variables::shared::GroupShares;
use std::alloc::{AllocError, Global};
use std::marker::Model;
use std::rc::Rc;

/// A play: what it says of itself (`PlayHead`), its tree, and what stands at the tree's places (`AtPlaces`).
pub struct PlanPlay {
    name: Text,
    laid: Rc<LaidTree>,
    places: Items<Place>,
    throttles: Vec<u32>,
    run_once: Vec<bool>,
    free_places: Vec<bool>,
    ran: Option<Names>,
    names: ResultNames,
    hosts: HostSet,
    strategy: Strategy,
    serial: Serial,
    max_fail_percentage: u32,
    vars: Dict,
    magic: Dict,
}

impl Drop for PlanPlay {
    fn drop(self) {
        let PlanPlay {
            name,
            laid,
            places,
            throttles,
            run_once,
            free_places,
            ran,
            names,
            hosts,
            strategy: _,
            serial,
            max_fail_percentage: _,
            vars,
            magic,
        } = self;
        drop(name);
        drop(laid);
        drop(places);
        drop(throttles);
        drop(run_once);
        drop(free_places);
        drop(ran);
        drop(names);
        drop(hosts);
        drop(serial);
        drop(vars);
        drop(magic);
    }
}

impl Model for PlanPlay {
    ghost use Rattle.pb_plan.specs.Plan.{PlayOf};
    ghost use Rattle.pb_value.specs.contracts.val.Val as val;
    ghost use Rattle.pb_expr_syntax.specs.contracts.tree.Expr as expr;
    ghost use Rattle.pb_tree.specs.contracts.tree.PlayTree as play_tree;
    ghost use Rattle.pb_places.specs.contracts.place.Place as place;
    ghost use Rattle.std.specs.Coded.{codes};

    ghost Value = { PlayOf };

    ghost coded = { Prim.hlevel (codes, val.the_row.coded, expr.the_row.coded, play_tree.the_row.coded, place.the_row.coded) };

    ghost view = { λ p. record {
      name = p.name;
      tree = p.laid.value.tree;
      places = p.places;
      hosts = p.hosts;
      strategy = p.strategy;
      serial = p.serial.entries;
      max_fail_percentage = p.max_fail_percentage;
      vars = p.vars;
      magic = p.magic;
    } };

    ghost use Rattle.std.specs.Prelude.{◌≡◌, ◌≤◌, length};
    ghost use Rattle.pb_tree.specs.Tree.{size_of};
    ghost use Rattle.pb_plan.specs.Plan.{throttles_of, run_once_of};
    ghost use Rattle.pb_plan.specs.Hostvars.{AreFreePlaces};

    ghost invariant = { λ p. (size_of p.laid.value.tree ≤ 16384) × (length p.places ≡ size_of p.laid.value.tree) × (p.throttles.items ≡ throttles_of p.places) × (p.run_once.items ≡ run_once_of p.places)
        × AreFreePlaces p.vars p.places p.free_places.items };
}

impl PlanPlay {
    /// A play of these parts.
    pub fn new(head: PlayHead, laid: Rc<LaidTree>, at_places: AtPlaces) -> PlanPlay
        requires bound { size_of laid.value.tree ≤ 16384 }
        requires places { length at_places.places ≡ size_of laid.value.tree }
        requires throttles { at_places.throttles.items ≡ throttles_of at_places.places }
        requires once { at_places.run_once.items ≡ run_once_of at_places.places }
        requires free { AreFreePlaces head.vars at_places.places at_places.free_places.items }
        ensures { result ≡ record {
          name = head.name;
          tree = laid.value.tree;
          places = at_places.places;
          hosts = head.hosts;
          strategy = head.strategy;
          serial = head.serial.entries;
          max_fail_percentage = head.max_fail_percentage;
          vars = head.vars;
          magic = head.magic;
        } }
    {
        let PlayHead {
            name,
            hosts,
            strategy,
            serial,
            max_fail_percentage,
            vars,
            magic,
        } = head;
        let AtPlaces {
            places,
            throttles,
            run_once,
            free_places,
            ran,
            names,
        } = at_places;
        PlanPlay {
            name,
            laid,
            places,
            throttles,
            run_once,
            free_places,
            ran,
            names,
            hosts,
            strategy,
            serial,
            max_fail_percentage,
            vars,
            magic,
        }
    }

    /// The play's name, as it is printed.
    pub fn name(&self) -> &Text
        ensures { result.now ≡ self.now.name }
    {
        &self.name
    }

    /// The play's tree.
    pub fn tree(&self) -> &PlayTree
        ensures value { result.now ≡ self.now.tree }
        ensures bound { size_of self.now.tree ≤ 16384 }
    {
        self.laid.tree()
    }

    /// The play's tree with the plan that it is laid out as, for the walks of all hosts.
    pub fn laid(&self) -> &Rc<LaidTree>
        ensures value { result.now.value.tree ≡ self.now.tree }
        ensures bound { size_of self.now.tree ≤ 16384 }
    {
        &self.laid
    }

    /// What stands at a place, by the place's position in the tree.
    pub fn place(&self, place: usize) -> Option<&Place>
        ensures { option_copied result ≡ slice_get self.now.places place }
    {
        self.places.get(place)
    }

    /// How many hosts may run the task at each place at once, in the order of places; 0 is any number.
    pub fn throttles(&self) -> &[u32]
        ensures { result.now ≡ throttles_of self.now.places }
    {
        self.throttles.as_slice()
    }

    /// Whether the first host of a batch runs the task at each place for all, in the order of places.
    pub fn run_once(&self) -> &[bool]
        ensures { result.now ≡ run_once_of self.now.places }
    {
        self.run_once.as_slice()
    }

    /// Whether `hostvars` may stand in a text of the variables of the task at a place, of its role, its blocks or the play.
    pub fn may_read_hosts(&self, place: usize) -> bool
        ensures { result ≡ false → IsFreeAt self.now.vars self.now.places place }
    {
        match self.free_places.as_slice().get(place) {
            Some(is_free) => !*is_free,
            None => true,
        }
    }

    /// How the hosts of a batch go through the play's tasks.
    pub fn strategy(&self) -> Strategy
        ensures { result ≡ self.now.strategy }
    {
        self.strategy
    }

    /// What the play says of the sizes of its batches.
    pub fn serial(&self) -> &Serial
        ensures { result.now.entries ≡ self.now.serial }
    {
        &self.serial
    }

    /// How many of a batch's hosts in a hundred may fail before the others are halted.
    pub fn max_fail_percentage(&self) -> u32
        ensures { result ≡ self.now.max_fail_percentage }
    {
        self.max_fail_percentage
    }

    /// The hosts that are the play's own.
    pub fn hosts(&self) -> &HostSet
        ensures { result.now ≡ self.now.hosts }
    {
        &self.hosts
    }

    /// The play's variables, as they are written.
    pub fn vars(&self) -> &Dict
        ensures { result.now ≡ self.now.vars }
    {
        &self.vars
    }

    /// The variables that the play gives by itself.
    pub fn magic(&self) -> &Dict
        ensures { result.now ≡ self.now.magic }
    {
        &self.magic
    }
}

/// The inventory, the plays in order, how many hosts may run at once, whether there is a facts program, lines that tell what was odd in the
/// bundle, the extra variables, and those that the plan gives by itself, but for `hostvars`, which tells of what hosts learn in a run.
pub struct Plan {
    inventory: Inventory,
    plays: Items<PlanPlay>,
    forks: u32,
    has_facts_program: bool,
    warnings: Items<Text>,
    extra: Dict,
    magic: Dict,
    /// What hosts have from their groups, made once for all hosts of the same groups.
    shares: GroupShares,
    /// The hosts that are marked have no variable in whose text `hostvars` stands.
    free_hosts: Vec<bool>,
}

impl Drop for Plan {
    fn drop(self) {
        let Plan {
            inventory,
            plays,
            forks: _,
            has_facts_program: _,
            warnings,
            extra,
            magic,
            shares,
            free_hosts,
        } = self;
        drop(inventory);
        drop(plays);
        drop(warnings);
        drop(extra);
        drop(magic);
        drop(shares);
        drop(free_hosts);
    }
}

impl Model for Plan {
    ghost use Rattle.pb_plan.specs.Plan.{PlanOf};
    ghost use Rattle.pb_value.specs.contracts.val.Val as val;
    ghost use Rattle.pb_expr_syntax.specs.contracts.tree.Expr as expr;
    ghost use Rattle.pb_tree.specs.contracts.tree.PlayTree as play_tree;
    ghost use Rattle.pb_places.specs.contracts.place.Place as place;
    ghost use Rattle.std.specs.Coded.{codes};

    ghost Value = { PlanOf };

    ghost coded = { Prim.hlevel (codes, val.the_row.coded, expr.the_row.coded, play_tree.the_row.coded, place.the_row.coded) };

    ghost view = { λ p. record {
      plays = p.plays;
      forks = p.forks;
      has_facts_program = p.has_facts_program;
      warnings = p.warnings;
      inventory = p.inventory;
      extra = p.extra;
      magic = p.magic;
    } };

    ghost use Rattle.std.specs.Prelude.{◌<◌, ◌≤◌, length};
    ghost use Rattle.pb_variables.specs.Shared.{AreKept};
    ghost use Rattle.pb_plan.specs.Hostvars.{AreFreeHosts};

    ghost invariant = { λ p. (length p.plays ≤ 256) × (0 < p.forks) × (p.forks ≤ 256) × AreKept p.inventory p.shares × AreFreeHosts p.inventory p.extra p.free_hosts.items };
}

impl Plan {
    ghost use Rattle.std.specs.Prelude.{◌<◌};

    /// A plan of these parts.
    pub fn from_parts(
        hosts: PlanHosts,
        plays: Items<PlanPlay>,
        forks: u32,
        has_facts_program: bool,
        warnings: Items<Text>,
        magic: Dict,
    ) -> Plan
        requires plays { length plays ≤ 256 }
        requires some { 0 < forks }
        requires bound { forks ≤ 256 }
        requires kept { AreKept hosts.inventory hosts.shares }
        requires free { AreFreeHosts hosts.inventory hosts.extra hosts.free_hosts.items }
        ensures { result ≡ record {
          plays = plays;
          forks = forks;
          has_facts_program = has_facts_program;
          warnings = warnings;
          inventory = hosts.inventory;
          extra = hosts.extra;
          magic = magic;
        } }
    {
        let PlanHosts {
            inventory,
            extra,
            shares,
            free_hosts,
        } = hosts;
        Plan {
            inventory,
            plays,
            forks,
            has_facts_program,
            warnings,
            extra,
            magic,
            shares,
            free_hosts,
        }
    }

    /// How many hosts there are: at most 1,048,576.
    pub fn host_count(&self) -> u32
        ensures value { result ≡ length self.now.inventory.hosts }
        ensures bound { length self.now.inventory.hosts ≤ 1048576 }
    {
        self.inventory.hosts()
    }

    /// The name of a host.
    pub fn host_name(&self, host: HostNo) -> &str
        requires { host.0 < length self.now.inventory.hosts }
        ensures { slice_get self.now.inventory.hosts host.0 ≡ Some result.now }
    {
        self.inventory.name(host)
    }

    /// The plays, in order.
    pub fn plays(&self) -> &[PlanPlay]
        ensures value { result.now ≡ self.now.plays }
        ensures bound { length self.now.plays ≤ 256 }
    {
        self.plays.as_slice()
    }

    /// The hosts that the pattern of a play and the limit select.
    pub fn hosts(&self, alloc: Global, play: PlayNo) -> Result<HostSet, AllocError>
        requires { play.0 < length self.now.plays }
        ensures { IfOk result (λ set. option_map (λ p. p.hosts) (slice_get self.now.plays play.0) ≡ Some set) }
    {
        self.plays.as_slice()[play.0 as usize]
            .hosts()
            .try_clone(alloc)
    }

    /// How many hosts may run at once: 1 to 256.
    pub fn forks(&self) -> u32
        ensures value { result ≡ self.now.forks }
        ensures some { 0 < self.now.forks }
        ensures bound { self.now.forks ≤ 256 }
    {
        self.forks
    }

    /// Whether there is a program that gathers the facts of hosts.
    pub fn has_facts_program(&self) -> bool
        ensures { result ≡ self.now.has_facts_program }
    {
        self.has_facts_program
    }

    /// The inventory, with its variables.
    pub fn inventory(&self) -> &Inventory
        ensures { result.now ≡ self.now.inventory }
    {
        &self.inventory
    }

    /// What a host has from its groups: their variables, merged, and their names. Hosts of the same groups share it, as far as the plan keeps it; else the
    /// inventory lends the variables. The only error is want of memory.
    pub fn of_groups(&self, alloc: Global, host: HostNo) -> Result<HostGroups<'_>, AllocError>
        requires { host.0 < length self.now.inventory.hosts }
        ensures value { IfOk result (λ of. of ≡ from_groups self.now.inventory host.0) }
        ensures last { IfOk result (λ of. (name : List ℕ) → value_at name of.variables ≡ last_given self.now.inventory name (groups_of_host self.now.inventory host.0)) }
    {
        self.shares.of_groups(alloc, &self.inventory, host)
    }

    /// Whether `hostvars` may stand in a text of the variables of a host, of its groups, or of the extra ones.
    pub fn may_read_hosts(&self, host: HostNo) -> bool
        ensures { result ≡ false → IsFreeHost self.now.inventory self.now.extra host.0 }
    {
        match self.free_hosts.as_slice().get(host.0 as usize) {
            Some(is_free) => !*is_free,
            None => true,
        }
    }

    /// The words that connect to a host, as its inventory variable `pb_connector` has them. The only error is want of memory.
    pub fn connector(&self, alloc: Global, host: HostNo) -> Result<Items<Text>, AllocError>
        requires { host.0 < length self.now.inventory.hosts }
        ensures { IfOk result (λ words. words ≡ connector_of self.now.inventory host.0) }
    {
        let groups = self.of_groups(alloc, host)?;
        connector(alloc, self.inventory.host_vars(host), groups.variables())
    }

    /// The extra variables, as they are given.
    pub fn extra(&self) -> &Dict
        ensures { result.now ≡ self.now.extra }
    {
        &self.extra
    }

    /// The variables that the plan gives by itself, but for `hostvars`.
    pub fn magic(&self) -> &Dict
        ensures { result.now ≡ self.now.magic }
    {
        &self.magic
    }

    /// Lines that tell what was odd in the bundle.
    pub fn warnings(&self) -> &[Text]
        ensures { result.now ≡ self.now.warnings }
    {
        self.warnings.as_slice()
    }
}
