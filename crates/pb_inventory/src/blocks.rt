//! Of each 64 hosts the groups that have one of them.

ghost use Rattle.std.specs.Prelude.{◌≡◌, ◌<◌, ◌≤◌, ◌+◌, ◌*◌, ◌/◌, ◌++◌, ◌∷◌, ◌^◌, [], ℕ, if◌then◌else◌, length, replicate, slice_index_or, IfOk, OnOk};
ghost use Rattle.std.specs.List.{All};
ghost use Rattle.pb_inventory.specs.ByBlock.{AreBlocks, has_some_of};
ghost use Rattle.pb_groups.specs.Merging.{in_order};
ghost use Rattle.pb_inventory.specs.GraphOf.{numbered};
ghost use Rattle.pb_inventory.specs.Vars.{priorities_in};

use crate::graph::Graph;
use crate::named::Named;
use crate::vars::GroupVars;
use pb_ids::GroupNo;
use pb_planes::HostSet;
use pb_value::items::Items;
use std::alloc::{AllocError, Global};

/// Of each 64 hosts the groups that have one of them, in the order in which their variables merge.
pub(crate) fn ordered_blocks(
    alloc: Global,
    graph: &Graph,
    vars: &Named<GroupVars>,
) -> Result<Vec<Items<GroupNo>>, AllocError>
    ensures { IfOk result (λ blocks. AreBlocks (numbered graph.now) (in_order (numbered graph.now) (priorities_in vars.now graph.now.groups)) blocks.items) }
{
    let order = graph.in_order(alloc, vars)?;
    blocks_of(alloc, graph, order.as_slice())
}

/// Of each 64 hosts those of the groups, in their order, that have one of them.
fn blocks_of(
    alloc: Global,
    graph: &Graph,
    order: &[GroupNo],
) -> Result<Vec<Items<GroupNo>>, AllocError>
    requires { All (λ g. g.0 < length graph.now.groups) order.now }
    ensures { IfOk result (λ blocks. AreBlocks (numbered graph.now) order.now blocks.items) }
{
    let mut blocks = no_groups(alloc, (graph.hosts() as usize + 63) / 64)?;
    for group in order {
        add_group(blocks.as_mut_slice(), graph.members(*group), *group)?;
    }
    Ok(blocks)
}

fn no_groups(alloc: Global, blocks: usize) -> Result<Vec<Items<GroupNo>>, AllocError>
    ensures { IfOk result (λ lists. lists.items ≡ replicate blocks []) }
{
    let mut lists = Vec::new(alloc);
    for _block in 0..blocks {
        lists.push(Items::new(alloc))?;
    }
    Ok(lists)
}

/// Puts a group at the end of the lists of the blocks in which it has a host.
fn add_group(
    blocks: &mut [Items<GroupNo>],
    members: &HostSet,
    group: GroupNo,
) -> Result<(), AllocError>
    requires few { length members.now ≤ 2 ^ 20 }
    requires room { length members.now ≤ 64 * length blocks.old }
    ensures long { length blocks.new ≡ length blocks.old }
    ensures added { OnOk result ((k : ℕ) → k < length blocks.old → slice_index_or blocks.new k []
        ≡ slice_index_or blocks.old k [] ++ (if has_some_of members.now (64 * k) 64 then group ∷ [] else [])) }
{
    let mut block = 0;
    while let Some(host) = members.next_at(block * 64) {
        let found = host.0 / 64;
        blocks[found as usize].push(group)?;
        block = found + 1;
    }
    Ok(())
}
