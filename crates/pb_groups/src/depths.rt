ghost use Rattle.std.specs.Prelude.{◌≡◌, ◌<◌, ◌+◌, ◌^◌, ℕ, length, true, false, slice_index, IfOk, MatchOption};
ghost use Rattle.pb_groups.specs.Ways.{Way, AreLinksBelow};
ghost use Rattle.pb_groups.specs.Depths.{IsLevel, IsEndless, AreDepths};

use crate::links::ChildLink;
use std::alloc::{AllocError, Global};

/// For each group the number of steps of the longest way to it, or `None` where ways go on without end.
pub fn depths_of(
    alloc: Global,
    links: &[ChildLink],
    groups: u32,
) -> Result<Option<Vec<u32>>, AllocError>
    requires some_group { 0 < groups }
    requires within { AreLinksBelow links.now groups }
    ensures { IfOk result (λ depths. MatchOption depths (IsEndless links.now groups) (λ d. (length d.items ≡ groups) × AreDepths links.now groups d.items)) }
{
    let mut depths = vec![in alloc; 0_u32; groups as usize]?;
    for depth in 0..groups {
        if !raise(links, depth, depths.as_mut_slice()) {
            return Ok(Some(depths));
        }
    }
    Ok(None)
}

/// Raises to the next depth each child of a group of this depth, and answers whether there is one.
fn raise(links: &[ChildLink], depth: u32, depths: &mut [u32]) -> bool
    requires small { depth + 1 < 2 ^ 32 }
    requires within { AreLinksBelow links.now (length depths.old) }
    requires level { IsLevel links.now depth depths.old }
    ensures level { IsLevel links.now (depth + 1) depths.new }
    ensures raised { result ≡ true → (group : ℕ) × (slice_index depths.new group ≡ depth + 1) }
    ensures are_depths { result ≡ false → AreDepths links.now (depth + 1) depths.new }
{
    let mut raised = false;
    for link in links {
        if depths[link.parent.0 as usize] >= depth {
            depths[link.child.0 as usize] = depth + 1;
            raised = true;
        }
    }
    raised
}
