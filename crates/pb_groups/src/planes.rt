ghost use Rattle.std.specs.Prelude.{◌≡◌, ◌≢◌, ◌<◌, ◌≤◌, ◌+◌, ◌^◌, ◌||◌, ℕ, length, slice_index, slice_set, true, false, replicate, IfOk, OnOk};
ghost use Rattle.std.specs.Simd.Lanes.{zip2};
ghost use Rattle.pb_groups.specs.Ways.{AreLinksBelow, parent_at, child_at};
ghost use Rattle.pb_groups.specs.Depths.{AreDepths};
ghost use Rattle.pb_groups.specs.Members.{AreOwnBelow, plane_at};
ghost use Rattle.pb_groups.specs.Planes.{AreFilled, AreFilledFrom, AreInserted};

use crate::links::{ChildLink, OwnHost};
use pb_ids::HostNo;
use pb_planes::HostSet;
use std::alloc::{AllocError, Global};

/// What stands of some groups: who is whose child, their own hosts, how deep each of them lies, and how many hosts there are.
#[derive(Drop)]
struct Ranks<'a> {
    links: &'a [ChildLink],
    own: &'a [OwnHost],
    depths: &'a [u32],
    hosts: u32,
}

/// The members of each group, from the deepest groups up.
pub fn members_of(
    alloc: Global,
    links: &[ChildLink],
    own: &[OwnHost],
    depths: &[u32],
    hosts: u32,
) -> Result<Vec<HostSet>, AllocError>
    requires groups { length depths.now < 2 ^ 32 }
    requires links { AreLinksBelow links.now (length depths.now) }
    requires own { AreOwnBelow own.now (length depths.now) hosts }
    requires depths { AreDepths links.now (length depths.now) depths.now }
    ensures { IfOk result (λ planes. AreFilled links.now own.now (length depths.now) hosts planes.items) }
{
    let mut planes = empty_planes(alloc, depths.len(), hosts)?;
    insert_own(own, hosts, planes.as_mut_slice());
    let ranks = Ranks {
        links,
        own,
        depths,
        hosts,
    };
    for above in 0..depths.len() {
        let depth = depths.len() - 1 - above;
        join_children(alloc, &ranks, depth as u32, planes.as_mut_slice())?;
    }
    Ok(planes)
}

fn empty_planes(alloc: Global, groups: usize, hosts: u32) -> Result<Vec<HostSet>, AllocError>
    ensures { IfOk result (λ planes. planes.items ≡ replicate groups (replicate hosts false)) }
{
    let mut planes = Vec::new(alloc);
    for _group in 0..groups {
        planes.push(HostSet::empty(alloc, hosts)?)?;
    }
    Ok(planes)
}

fn insert_own(own: &[OwnHost], hosts: u32, planes: &mut [HostSet])
    requires within { AreOwnBelow own.now (length planes.old) hosts }
    requires empty { planes.old ≡ replicate (length planes.old) (replicate hosts false) }
    ensures { AreInserted own.now (length planes.old) hosts (length own.now) planes.new }
{
    for own_host in own {
        planes[own_host.group.0 as usize].insert(own_host.host);
    }
}

/// Adds to each group of this depth the members of its children.
fn join_children(
    alloc: Global,
    ranks: &Ranks<'_>,
    depth: u32,
    planes: &mut [HostSet],
) -> Result<(), AllocError>
    requires within { AreLinksBelow ranks.now.links.now (length ranks.now.depths.now) }
    requires depths { AreDepths ranks.now.links.now (length ranks.now.depths.now) ranks.now.depths.now }
    requires filled { AreFilledFrom ranks.now.links.now ranks.now.own.now ranks.now.depths.now ranks.now.hosts (depth + 1) planes.old }
    ensures { OnOk result (AreFilledFrom ranks.now.links.now ranks.now.own.now ranks.now.depths.now ranks.now.hosts depth planes.new) }
{
    for link in ranks.links {
        if ranks.depths[link.parent.0 as usize] == depth {
            join(alloc, planes, link.parent.0 as usize, link.child.0 as usize)?;
        }
    }
    Ok(())
}

/// Adds to one set the hosts of another.
fn join(alloc: Global, planes: &mut [HostSet], to: usize, from: usize) -> Result<(), AllocError>
    requires to { to < length planes.old }
    requires from { from < length planes.old }
    requires width { length (plane_at planes.old to) ≡ length (plane_at planes.old from) }
    ensures { OnOk result (planes.new ≡ slice_set planes.old to (zip2 (λ a b. a || b) (plane_at planes.old to) (plane_at planes.old from))) }
{
    let added = planes[from].try_clone(alloc)?;
    planes[to].or_with(&added);
    Ok(())
}
