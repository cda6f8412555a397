ghost use Rattle.std.specs.Prelude.{◌≡◌, ◌<◌, ◌≤◌, ◌^◌, ◌↔◌, ℕ, map, length, replicate, slice_get, Some, IfOk};
ghost use Rattle.std.specs.List.{All};
ghost use Rattle.pb_planes.specs.Set.{is_in};
ghost use Rattle.pb_groups.specs.Members.{plane_at};
ghost use Rattle.std.specs.List.Sorted.{IsStrictlySortedBy};
ghost use Rattle.pb_groups.specs.Merging.{group_no, key_cmp};
ghost use Rattle.pb_groups.specs.Keys.{keys_to, has_host};

use crate::groups::Groups;
use pb_ids::{GroupNo, HostNo};
use pb_planes::HostSet;
use std::alloc::{AllocError, Global};
use std::collections::BTreeSet;

/// What a group is ordered by as groups merge: the first of these that
/// differs.
#[derive(Clone, Copy, Debug, PartialEq, Eq, PartialOrd, Ord)]
pub struct MergeKey {
    pub depth: u32,
    pub priority: i64,
    pub group: u32,
}

/// The keys of all groups, from the first to the last.
pub fn keys_of(
    alloc: Global,
    depths: &[u32],
    priorities: &[i64],
) -> Result<BTreeSet<MergeKey>, AllocError>
    requires small { length depths.now < 2 ^ 32 }
    requires priorities { length priorities.now ≡ length depths.now }
    ensures { IfOk result (λ keys. keys.keys ≡ keys_to depths.now priorities.now (length depths.now)) }
{
    let mut keys = BTreeSet::new(alloc);
    for group in 0..depths.len() {
        keys.insert(MergeKey {
            depth: depths[group],
            priority: priorities[group],
            group: group as u32,
        })?;
    }
    Ok(keys)
}

/// The groups of the keys.
pub fn groups_of(alloc: Global, keys: &BTreeSet<MergeKey>) -> Result<Vec<GroupNo>, AllocError>
    ensures groups { IfOk result (λ v. v.items ≡ map (λ k. group_no k.group) keys.now.keys) }
    ensures rising { IfOk result (λ v. IsStrictlySortedBy key_cmp keys.now.keys) }
{
    let mut groups = Vec::new(alloc);
    for key in keys.iter() {
        groups.push(GroupNo(key.group))?;
    }
    Ok(groups)
}

/// Those of the groups that have the host among their members.
pub fn having(
    alloc: Global,
    members: &[HostSet],
    order: &[GroupNo],
    host: HostNo,
) -> Result<Vec<GroupNo>, AllocError>
    requires groups { All (λ g. g.0 < length members.now) order.now }
    requires host { All (λ plane. host.0 < length plane) members.now }
    ensures { IfOk result (λ v. v.items ≡ has_host members.now host.0 order.now) }
{
    let mut groups = Vec::new(alloc);
    for group in order {
        if has(members, *group, host) {
            groups.push(*group)?;
        }
    }
    Ok(groups)
}

/// Whether the host is in the group's set.
pub fn has(members: &[HostSet], group: GroupNo, host: HostNo) -> bool
    requires group { group.0 < length members.now }
    requires host { All (λ plane. host.0 < length plane) members.now }
    ensures { result ≡ is_in (plane_at members.now group.0) host.0 }
{
    members[group.0 as usize].has(host)
}
