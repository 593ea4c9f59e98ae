//! The cells of a design, once all references are known to be right.
ghost use Rattle.std.specs.Prelude.{◌≡◌, ◌<◌, length, IfOk, slice_get, Some, ℕ};
ghost use Rattle.cell_graph.specs.Extents.{found_at};
ghost use Rattle.cell_graph.specs.Finished.{IsBoundsHull, IsMade, AreMade, AreReached};
ghost use Rattle.cell_graph.specs.Ordering.{AreOrdered};
ghost use Rattle.cell_graph.specs.Parts.{AreResolved};
ghost use Rattle.cell_graph.specs.Rising.{height_in};

use crate::bounds::Bounds;
use crate::cells::{CellPart, Place};
use crate::drafts::CellDraft;
use crate::walking::below;
use geo_base::Rect;
use std::alloc::{AllocError, Global};
use std::mem;

/// The rectangle of the bounds, none where they have no width or no height.
fn hull_of(bounds: Option<Bounds>) -> Option<Rect>
    ensures { IsBoundsHull bounds result }
{
    let Some(b) = bounds else {
        return None;
    };
    if b.x1 < b.x2 && b.y1 < b.y2 {
        Some(Rect {
            x1: b.x1,
            y1: b.y1,
            x2: b.x2,
            y2: b.y2,
        })
    } else {
        None
    }
}

fn part_of(draft: CellDraft, places: Vec<Place>, bounds: Option<Bounds>, height: u32) -> CellPart
    ensures { IsMade draft places.items bounds height result }
{
    CellPart {
        name: draft.name,
        layers: draft.layers,
        texts: draft.texts,
        places,
        hull: hull_of(bounds),
        height,
    }
}

/// The cells, made of the drafts with their places, bounds and heights.
pub fn finished(
    alloc: Global,
    drafts: Vec<CellDraft>,
    parts: Vec<Vec<Place>>,
    bounds: &[Option<Bounds>],
    heights: &[u32],
) -> Result<Vec<CellPart>, AllocError>
    requires parts { length parts.items ≡ length drafts.items }
    requires bounds { length bounds.now ≡ length drafts.items }
    requires heights { length heights.now ≡ length drafts.items }
    ensures { IfOk result (λ v. AreMade drafts.items parts.items bounds.now heights.now v.items) }
{
    let mut parts = parts;
    let mut cells = Vec::new(alloc);
    let mut i = 0;
    for draft in drafts {
        let places = mem::replace(&mut parts[i], Vec::new(alloc));
        cells.push(part_of(draft, places, bounds[i], heights[i]))?;
        i += 1;
    }
    Ok(cells)
}

/// The cells on an order that the top reaches.
pub fn reached(
    alloc: Global,
    parts: &[Vec<Place>],
    order: &[u32],
    top: u32,
) -> Result<Vec<u32>, AllocError>
    requires resolved { AreResolved parts.now }
    requires top { top < length parts.now }
    requires inside { (k i : ℕ) → slice_get order.now k ≡ Some i → i < length parts.now }
    ensures { IfOk result (λ v. AreReached parts.now top order.now (length order.now) v.items) }
{
    let marks = below(alloc, parts, top as usize)?;
    let mut kept = Vec::new(alloc);
    for cell in order {
        if *cell == top || marks[*cell as usize] {
            kept.push(*cell)?;
        }
    }
    Ok(kept)
}
