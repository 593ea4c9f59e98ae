//! Heights of cells: the longest chain of references below each.
ghost use Rattle.std.specs.Prelude.{◌≡◌, ◌≤◌, length, IfOk};
ghost use Rattle.call_order.specs.Order.{IsCallOrder};
ghost use Rattle.cell_graph.specs.Chains.{AreHeights};
ghost use Rattle.cell_graph.specs.Parts.{AreInside, AreResolved, Places, called};
ghost use Rattle.cell_graph.specs.Rising.{IsOver, IsJustOver, IsHigher};

use crate::cells::Place;
use std::alloc::{AllocError, Global};

/// One more than a chain of references may have.
pub const DEEP: u32 = 65;

// What is above a number too, at most `DEEP`.
fn higher(most: u32, below: u32) -> u32
    requires { most ≤ 65 }
    ensures { IsHigher most below result }
{
    if most <= below && most < DEEP {
        return if below < DEEP { below + 1 } else { DEEP };
    }
    most
}

// The height of a cell by those of the placed cells so far, at most `DEEP`.
fn above(places: &[Place], heights: &[u32]) -> u32
    requires inside { AreInside places.now (length heights.now) }
    ensures over { IsOver places.now heights.now result }
    ensures just { IsJustOver places.now heights.now result }
    ensures low { result ≤ 65 }
{
    let mut most: u32 = 0;
    for place in places {
        most = higher(most, heights[place.cell as usize]);
    }
    most
}

/// The height of each cell, `DEEP` where a chain of more references goes down from it; `order` has
/// each cell behind those that it places. Linear in the references.
pub fn heights_along(
    alloc: Global,
    parts: &[Vec<Place>],
    order: &[u32],
) -> Result<Vec<u32>, AllocError>
    requires resolved { AreResolved parts.now }
    requires order { IsCallOrder (called parts.now) order.now }
    ensures count { IfOk result (λ v. length v.items ≡ length parts.now) }
    ensures heights { IfOk result (λ v. AreHeights (Places parts.now) v.items) }
{
    let mut heights = vec![in alloc; 0; parts.len()]?;
    for cell in order {
        let i = *cell as usize;
        let height = above(&parts[i], &heights);
        heights[i] = height;
    }
    Ok(heights)
}
