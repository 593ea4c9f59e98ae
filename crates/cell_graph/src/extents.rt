//! The bounds of all cells, found from below.
ghost use Rattle.std.specs.Prelude.{◌≡◌, ◌<◌, ℕ, length, replicate, slice_get, List, Option, Some};
ghost use Rattle.std.specs.Prelude.{None, IfOk, IfErr, MatchOption};
ghost use Rattle.cell_graph.specs.declared.drafts.CellDraft.{CellDraft};
ghost use Rattle.cell_graph.specs.Drafts.{AreSound, AreParts, IsCorner, IsFault, IsTop};
ghost use Rattle.cell_graph.specs.Arrays.{ArrayPoint};
ghost use Rattle.cell_graph.specs.Extents.{found_at, AreArrays, HasFar, IsFarAway, PlacesPoint};
ghost use Rattle.cell_graph.specs.Extents.{CellPoint, AreBounds, HaveArrays, AreRects, IsCellFar};
ghost use Rattle.cell_graph.specs.Extents.{IsCellBounds};
ghost use Rattle.cell_graph.specs.Ordering.{AreOrdered};
ghost use Rattle.cell_graph.specs.Parts.{AreInside};
ghost use Rattle.cell_graph.specs.Rising.{HaveHeights};
ghost use Rattle.cell_graph.specs.Sides.{Widens, Among, AreNearIfAny};

use crate::arrays::{is_near, with_array};
use crate::bounds::{Bounds, with_corners, with_point};
use crate::cells::{OwnLayer, Place, RawText};
use crate::drafts::{CellDraft, LinkFault};
use crate::references::name_at;
use geo_base::{Point, Rect};
use std::alloc::{AllocError, Global};

fn with_rects(bounds: Option<Bounds>, rects: &[Rect]) -> Option<Bounds>
    ensures { Widens bounds (Among IsCorner rects.now) result }
{
    let mut all = bounds;
    for r in rects {
        let low = Point { x: r.x1, y: r.y1 };
        let high = Point { x: r.x2, y: r.y2 };
        all = Some(with_corners(all, low, high));
    }
    all
}

fn with_layers(bounds: Option<Bounds>, layers: &[OwnLayer]) -> Option<Bounds>
    ensures widens { Widens bounds (Among (λ l. Among IsCorner l.set) layers.now) result }
    ensures rects { AreRects layers.now }
{
    let mut all = bounds;
    for layer in layers {
        all = with_rects(all, layer.set.rects());
    }
    all
}

fn with_texts(bounds: Option<Bounds>, texts: &[RawText]) -> Option<Bounds>
    ensures { Widens bounds (Among (λ t p. t.at ≡ p) texts.now) result }
{
    let mut all = bounds;
    for text in texts {
        all = Some(with_point(all, text.at));
    }
    all
}

// The bounds with those of all placements; none where the origin of one is out of range.
fn with_places(
    bounds: Option<Bounds>,
    places: &[Place],
    found: &[Option<Bounds>],
) -> Option<Option<Bounds>>
    requires inside { AreInside places.now (length found.now) }
    requires arrays { AreArrays places.now }
    requires near { (i : ℕ) → AreNearIfAny (found_at found.now i) }
    ensures { MatchOption result (HasFar places.now)
        (Widens bounds (PlacesPoint places.now found.now)) }
{
    let mut all = bounds;
    for place in places {
        let Some(more) = with_array(all, found[place.cell as usize], place) else {
            return None;
        };
        all = Some(more);
    }
    Some(all)
}

// The bounds themselves, none where a side is out of range.
fn near_only(bounds: Option<Bounds>) -> Option<Option<Bounds>>
    ensures { MatchOption result (IsFarAway bounds) (λ b. (b ≡ bounds) × AreNearIfAny b) }
{
    let Some(b) = bounds else {
        return Some(None);
    };
    if is_near(b.x1) && is_near(b.y1) && is_near(b.x2) && is_near(b.y2) {
        Some(bounds)
    } else {
        None
    }
}

// The bounds of what stands in and below a cell, none where they are out of range.
fn bounds_of(cell: &CellDraft, places: &[Place], found: &[Option<Bounds>]) -> Option<Option<Bounds>>
    requires inside { AreInside places.now (length found.now) }
    requires arrays { AreArrays places.now }
    requires near { (i : ℕ) → AreNearIfAny (found_at found.now i) }
    ensures bounds { MatchOption result (IsCellFar cell.now places.now found.now)
        (IsCellBounds cell.now places.now found.now) }
    ensures rects { AreRects cell.now.layers.items }
{
    let own = with_texts(with_layers(None, &cell.layers), &cell.texts);
    let Some(all) = with_places(own, places, found) else {
        return None;
    };
    near_only(all)
}

// No bounds, so many times.
fn nothing(alloc: Global, count: usize) -> Result<Vec<Option<Bounds>>, AllocError>
    ensures { IfOk result (λ v. v.items ≡ replicate count None) }
{
    let mut none = Vec::new(alloc);
    for _ in 0..count {
        none.push(None)?;
    }
    Ok(none)
}

/// The bounds of all cells, by an order that has each behind those that it places; or the first
/// that reaches out of range.
pub fn all_bounds(
    alloc: Global,
    cells: &[CellDraft],
    parts: &[Vec<Place>],
    heights: &[u32],
    order: &[u32],
) -> Result<Vec<Option<Bounds>>, LinkFault>
    requires sound { AreSound cells.now }
    requires parts { AreParts cells.now parts.now }
    requires arrays { HaveArrays cells.now }
    requires heights { HaveHeights cells.now heights.now }
    requires order { AreOrdered heights.now 65 0 order.now }
    ensures bounds { IfOk result (λ v. AreBounds cells.now v.items) }
    ensures fault { (top : Option (List ℕ)) (i : ℕ) → IsTop cells.now top i
        → IfErr result (IsFault cells.now top) }
{
    let mut found = nothing(alloc, cells.len())?;
    for cell in order {
        let i = *cell as usize;
        let Some(bounds) = bounds_of(&cells[i], &parts[i], &found) else {
            return Err(LinkFault::CoordinateRange(name_at(alloc, cells, i)?));
        };
        found[i] = bounds;
    }
    Ok(found)
}
