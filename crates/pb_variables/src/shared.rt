//! What hosts have from their groups, made once for all hosts of the same groups.
ghost use Rattle.std.specs.Prelude.{◌≡◌, ◌<◌, ◌+◌, ℕ, true, List, Some, map, length, slice_get, IfSome, IfNone, IfOk};
ghost use Rattle.pb_mentions.specs.Hostvars.{IsFree};
ghost use Rattle.pb_value.specs.Datum.{value_at};
ghost use Rattle.pb_inventory.specs.Vars.{groups_of_host, last_given};
ghost use Rattle.pb_variables.specs.Shared.{from_groups, numbers_of_host, IsKeptFor, AreKept};
ghost use Rattle.pb_variables.specs.Weight.{kept_weight};

use crate::host_groups::HostGroups;
use crate::put::texts;
use crate::weight::{behind_dict, behind_value};
use indexmap::IndexMap;
use pb_ids::{GroupNo, HostNo};
use pb_inventory::inventory::Inventory;
use pb_mentions::is_free_of_hostvars;
use pb_value::val::{Dict, Val};
use std::alloc::{AllocError, Global};
use std::marker::Model;
use std::rc::Rc;

/// How many bytes may be taken by what is kept: each set of groups has a copy of its own, and there may be as many such sets as hosts.
const ROOM: usize = 32 * 1024 * 1024;

/// What a host has from its groups.
pub struct OfGroups {
    /// Their variables, merged.
    pub variables: Dict,
    /// The list of their names, all but `all`, in byte order.
    pub names: Val,
}

impl Drop for OfGroups {
    fn drop(self) {
        let OfGroups { variables, names } = self;
        drop(variables);
        drop(names);
    }
}

impl OfGroups {
    fn of(alloc: Global, inventory: &Inventory, host: HostNo) -> Result<OfGroups, AllocError>
        requires { host.0 < length inventory.now.hosts }
        ensures { IfOk result (λ of. of ≡ from_groups inventory.now host.0) }
    {
        let variables = inventory.group_vars(alloc, host)?;
        let listed = inventory.group_names(alloc, host)?;
        let names = texts(alloc, listed)?;
        Ok(OfGroups { variables, names })
    }
}

/// What several hosts have alike from their groups, which contracts see as what one of them has.
#[derive(Drop)]
pub struct SharedGroups {
    of: Rc<OfGroups>,
    /// Whether the variables were searched for `hostvars`, which stands in none of them.
    is_free: bool,
}

impl Model for SharedGroups {
    ghost use Rattle.std.specs.Coded.{codes};
    ghost use Rattle.pb_value.specs.contracts.val.Val as val;
    ghost use Rattle.pb_variables.specs.declared.shared.OfGroups.{OfGroups};

    ghost Value = { OfGroups };

    ghost coded = { Prim.hlevel (codes, val.the_row.coded) };

    ghost view = { λ s. s.of.value };

    ghost use Rattle.std.specs.Prelude.{◌≡◌, true};
    ghost use Rattle.pb_mentions.specs.Hostvars.{IsFree};

    ghost invariant = { λ s. s.is_free ≡ true → IsFree s.of.value.variables };
}

impl SharedGroups {
    /// What is kept, whose variables are searched for `hostvars`.
    fn kept(alloc: Global, of: OfGroups) -> Result<SharedGroups, AllocError>
        ensures { IfOk result (λ shared. shared ≡ of) }
    {
        let is_free = is_free_of_hostvars(&of.variables);
        let of = Rc::new(alloc, of)?;
        Ok(SharedGroups { of, is_free })
    }

    /// The same, for one host more.
    fn share(&self) -> Result<SharedGroups, AllocError>
        ensures { IfOk result (λ shared. shared ≡ self.now) }
    {
        let of = self.of.clone()?;
        let is_free = self.is_free;
        Ok(SharedGroups { of, is_free })
    }

    /// The variables of the groups, merged.
    pub fn variables(&self) -> &Dict
        ensures { result.now ≡ self.now.variables }
    {
        let of = self.of.as_ref();
        &of.variables
    }

    /// The list of the groups' names, all but `all`, in byte order.
    pub fn names(&self) -> &Val
        ensures { result.now ≡ self.now.names }
    {
        let of = self.of.as_ref();
        &of.names
    }

    /// Whether `hostvars` stands in none of the variables, as was found when they were searched: once, where they are kept for all hosts of the same groups, and
    /// not at all where they were made for one host.
    pub fn is_free_of_hostvars(&self) -> bool
        ensures { result ≡ true → IsFree self.now.variables }
    {
        self.is_free
    }
}

/// The numbers of groups.
fn numbers_of(alloc: Global, groups: &[GroupNo]) -> Result<Vec<u32>, AllocError>
    ensures { IfOk result (λ numbers. numbers.items ≡ map (λ g. g.0) groups.now) }
{
    let mut numbers = Vec::with_capacity(alloc, groups.len())?;
    for group in groups {
        numbers.push(group.0)?;
    }
    Ok(numbers)
}

/// How much is left of a room behind what hosts have from groups with these numbers, where that has room there.
fn behind_kept(numbers: &[u32], of: &OfGroups, room: usize) -> Option<usize>
    ensures some { IfSome result (λ left. left + kept_weight numbers.now of.now ≡ room) }
    ensures none { IfNone result (room < kept_weight numbers.now of.now) }
{
    let key = numbers.len().checked_mul(4)?;
    let behind_entry = room.checked_sub(1024)?;
    let behind_key = behind_entry.checked_sub(key)?;
    let behind_names = behind_value(&of.names, behind_key)?;
    behind_dict(&of.variables, behind_names)
}

/// What hosts have from their groups, by the numbers of these in the order in which their variables merge, as far as there is room for it.
#[derive(Drop)]
struct Sharing<'a> {
    inventory: &'a Inventory,
    made: IndexMap<Vec<u32>, SharedGroups>,
    room: usize,
}

impl<'a> Model for Sharing<'a> {
    ghost use Rattle.std.specs.Prelude.{nat_eq};
    ghost use Rattle.std.specs.Cmp.Lexicographic.{pointwise};
    ghost use Rattle.std.specs.Coded.{codes};
    ghost use Rattle.indexmap.specs.IndexMap.{get_by};
    ghost use Rattle.pb_value.specs.contracts.val.Val as val;
    ghost use Rattle.pb_inventory.specs.InventoryOf.{InventoryOf};
    ghost use Rattle.pb_variables.specs.Shared.{FindsKept};

    ghost Value = { InventoryOf };

    ghost coded = { Prim.hlevel (codes, val.the_row.coded) };

    ghost view = { λ s. s.inventory.now };

    ghost invariant = { λ s. FindsKept s.inventory.now (λ numbers. get_by (λ key. pointwise nat_eq numbers key.items) s.made) };
}

impl<'a> Sharing<'a> {
    fn new(alloc: Global, inventory: &'a Inventory) -> Sharing<'a>
        ensures { result ≡ inventory.now }
    {
        Sharing {
            inventory,
            made: IndexMap::new(alloc),
            room: ROOM,
        }
    }

    /// What a host has from its groups, where that is kept.
    #[tactic(auto, using(crate::proofs::Keeping::found_kept))]
    fn of_host(&mut self, alloc: Global, host: HostNo) -> Result<Option<SharedGroups>, AllocError>
        requires { host.0 < length self.old.hosts }
        ensures same { self.new ≡ self.old }
        ensures kept { IfOk result (IsKeptFor self.old host.0) }
    {
        let groups = self.inventory.groups_of_host(alloc, host)?;
        let numbers = numbers_of(alloc, groups.as_slice())?;
        if let Some(found) = self.made.get(numbers.as_slice()) {
            let shared = found.share()?;
            return Ok(Some(shared));
        }
        self.make(alloc, host, numbers)
    }

    /// Makes what a host has from its groups, and keeps it where there is room. Where that of one set of groups has none, nothing further is made.
    #[tactic(auto, using(crate::proofs::Keeping::none_kept))]
    fn make(
        &mut self,
        alloc: Global,
        host: HostNo,
        numbers: Vec<u32>,
    ) -> Result<Option<SharedGroups>, AllocError>
        requires host { host.0 < length self.old.hosts }
        requires numbers { numbers.items ≡ numbers_of_host self.old host.0 }
        ensures same { self.new ≡ self.old }
        ensures kept { IfOk result (IsKeptFor self.old host.0) }
    {
        if self.room == 0 {
            return Ok(None);
        }
        let of = OfGroups::of(alloc, self.inventory, host)?;
        match behind_kept(numbers.as_slice(), &of, self.room) {
            Some(left) => {
                self.room = left;
                self.keep(alloc, host, numbers, of)
            }
            None => {
                self.room = 0;
                Ok(None)
            }
        }
    }

    /// Keeps what a host has from its groups.
    fn keep(
        &mut self,
        alloc: Global,
        host: HostNo,
        numbers: Vec<u32>,
        of: OfGroups,
    ) -> Result<Option<SharedGroups>, AllocError>
        requires numbers { numbers.items ≡ numbers_of_host self.old host.0 }
        requires of { of ≡ from_groups self.old host.0 }
        ensures same { self.new ≡ self.old }
        ensures kept { IfOk result (IsKeptFor self.old host.0) }
    {
        // (what only the clauses speak of)
        let _host = host;
        let kept = SharedGroups::kept(alloc, of)?;
        let shared = kept.share()?;
        drop(self.made.insert(numbers, kept)?);
        Ok(Some(shared))
    }
}

/// Of each host what it has from its groups, where that is kept: hosts of the same groups share it.
pub struct GroupShares {
    of_host: Vec<Option<SharedGroups>>,
}

impl Drop for GroupShares {
    fn drop(self) {
        let GroupShares { of_host } = self;
        drop(of_host);
    }
}

impl Model for GroupShares {
    ghost use Rattle.std.specs.Prelude.{List, Option};
    ghost use Rattle.std.specs.Coded.{codes};
    ghost use Rattle.pb_value.specs.contracts.val.Val as val;
    ghost use Rattle.pb_variables.specs.declared.shared.OfGroups.{OfGroups};

    ghost Value = { List (Option OfGroups) };

    ghost coded = { Prim.hlevel (codes, val.the_row.coded) };

    ghost view = { λ s. s.of_host.items };
}

impl GroupShares {
    /// What the hosts of an inventory have from their groups, made once for all hosts of the same groups. It takes at most about 32 MiB: of sets of groups
    /// that have no room there nothing is kept. The only error is want of memory.
    pub fn of(alloc: Global, inventory: &Inventory) -> Result<GroupShares, AllocError>
        ensures { IfOk result (AreKept inventory.now) }
    {
        let mut sharing = Sharing::new(alloc, inventory);
        let mut of_host = Vec::with_capacity(alloc, inventory.hosts() as usize)?;
        for n in 0..inventory.hosts() {
            let kept = sharing.of_host(alloc, HostNo(n))?;
            of_host.push(kept)?;
        }
        Ok(GroupShares { of_host })
    }

    /// What is kept for a host, where something is.
    pub fn kept(&self, host: HostNo) -> Option<&SharedGroups>
        ensures { IfSome result (λ shared. slice_get self.now host.0 ≡ Some (Some shared.now)) }
    {
        match self.of_host.as_slice().get(host.0 as usize) {
            Some(kept) => match kept {
                Some(shared) => Some(shared),
                None => None,
            },
            None => None,
        }
    }

    /// What a host of the inventory has from its groups: what is kept for it, or else what the inventory lends, so that no value is copied. Of each name it has
    /// the value of the last group, in the order in which they merge, that has it. The only error is want of memory.
    pub fn of_groups<'a>(
        &self,
        alloc: Global,
        inventory: &'a Inventory,
        host: HostNo,
    ) -> Result<HostGroups<'a>, AllocError>
        requires kept { AreKept inventory.now self.now }
        requires host { host.0 < length inventory.now.hosts }
        ensures value { IfOk result (λ of. of ≡ from_groups inventory.now host.0) }
        ensures last { IfOk result (λ of. (name : List ℕ) → value_at name of.variables ≡ last_given inventory.now name (groups_of_host inventory.now host.0)) }
    {
        self.lent(alloc, inventory, host)
    }

    #[tactic(auto, using(crate::proofs::Keeping::lent_right))]
    fn lent<'a>(
        &self,
        alloc: Global,
        inventory: &'a Inventory,
        host: HostNo,
    ) -> Result<HostGroups<'a>, AllocError>
        requires kept { AreKept inventory.now self.now }
        requires host { host.0 < length inventory.now.hosts }
        ensures { IfOk result (λ of. of ≡ from_groups inventory.now host.0) }
    {
        match self.kept(host) {
            Some(shared) => {
                let of = shared.share()?;
                Ok(HostGroups::shared(of))
            }
            None => HostGroups::lent(alloc, inventory, host),
        }
    }
}
