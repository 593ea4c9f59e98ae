//! Which cells stand below themselves, and how high all stand; both linear in the references.
ghost use Rattle.std.specs.Prelude.{◌≡◌, ◌<◌, ◌≤◌, ℕ, length, take, map, List, Option, IfOk, IfErr};
ghost use Rattle.std.specs.Prelude.{OnOk};
ghost use Rattle.call_order.specs.Order.{lists, IsCallOrder};
ghost use Rattle.cell_graph.specs.Chains.{AreHeights, IsTooDeep};
ghost use Rattle.cell_graph.specs.Drafts.{HasFew, HasNoRepeat, HasNoCycle, AreParts, AreSound};
ghost use Rattle.cell_graph.specs.Drafts.{IsFault};
ghost use Rattle.cell_graph.specs.Firsts.{IsFirstOr};
ghost use Rattle.cell_graph.specs.Parts.{AreResolved, Places, called};
ghost use Rattle.cell_graph.specs.Rising.{HaveHeights, height_in};

use crate::cells::Place;
use crate::drafts::{CellDraft, LinkFault};
use crate::heights::{DEEP, heights_along};
use crate::references::name_at;
use call_order::{CallOrder, call_order};
use std::alloc::{AllocError, Global};

fn cells_of(alloc: Global, places: &[Place]) -> Result<Vec<u32>, AllocError>
    ensures { IfOk result (λ v. v.items ≡ map (λ place. place.cell) places.now) }
{
    places.iter().map(|place| place.cell).collect(alloc)
}

// For each cell, those that it places.
fn rows_of(alloc: Global, parts: &[Vec<Place>]) -> Result<Vec<Vec<u32>>, AllocError>
    ensures { IfOk result (λ v. lists v.items ≡ called parts.now) }
{
    let mut rows = Vec::new(alloc);
    for part in parts {
        let row = cells_of(alloc, part)?;
        rows.push(row)?;
    }
    Ok(rows)
}

// The cells, each behind those that it places; or the first that stands below itself.
fn from_below(
    alloc: Global,
    cells: &[CellDraft],
    parts: &[Vec<Place>],
) -> Result<Vec<u32>, LinkFault>
    requires few { HasFew cells.now }
    requires once { HasNoRepeat cells.now }
    requires parts { AreParts cells.now parts.now }
    ensures order { IfOk result (λ v. IsCallOrder (called parts.now) v.items) }
    ensures no_cycle { OnOk result (HasNoCycle cells.now) }
    ensures fault { (top : Option (List ℕ)) → IfErr result (IsFault cells.now top) }
{
    let rows = rows_of(alloc, parts)?;
    match call_order(alloc, &rows)? {
        CallOrder::CalleesFirst(order) => Ok(order),
        CallOrder::Cycle(i) => Err(LinkFault::Cycle(name_at(alloc, cells, i as usize)?)),
    }
}

// The first cell below which a chain has more than 64 references.
fn first_deep(heights: &[u32]) -> Option<usize>
    ensures { IsFirstOr (λ i. 65 ≤ height_in heights.now i) (length heights.now) result }
{
    for i in 0..heights.len() {
        if DEEP <= heights[i] {
            return Some(i);
        }
    }
    None
}

/// The heights of all cells; or the first that stands below itself, else the first below which a
/// chain has more than 64 references.
pub fn sound_heights(
    alloc: Global,
    cells: &[CellDraft],
    parts: &[Vec<Place>],
) -> Result<Vec<u32>, LinkFault>
    requires few { HasFew cells.now }
    requires once { HasNoRepeat cells.now }
    requires parts { AreParts cells.now parts.now }
    ensures heights { IfOk result (λ v. HaveHeights cells.now v.items) }
    ensures sound { OnOk result (AreSound cells.now) }
    ensures fault { (top : Option (List ℕ)) → IfErr result (IsFault cells.now top) }
{
    let order = from_below(alloc, cells, parts)?;
    let heights = heights_along(alloc, parts, &order)?;
    match first_deep(&heights) {
        None => Ok(heights),
        Some(i) => Err(LinkFault::TooDeep(name_at(alloc, cells, i)?)),
    }
}
