//! A cell's candidates: what it holds itself of the regions' layer, and what goes up to it.

ghost use Rattle.std.specs.Prelude.{◌≡◌, ◌↔◌, ◌<◌, ◌≤◌, ◌^◌, ℕ, Some, true, length, slice_get};
ghost use Rattle.std.specs.Prelude.{IfOk, OnOk};
ghost use Rattle.std.specs.List.{All};
ghost use Rattle.geo_base.specs.Rects.{has};
ghost use Rattle.geo_base.specs.declared.shapes.Square.{Square};
ghost use Rattle.rect_sets.specs.Near.{IsNearSet};
ghost use Rattle.cell_context.specs.Arrays.{IsNearArray};
ghost use Rattle.cell_context.specs.Over.{IsPiece};
ghost use Rattle.cell_graph.specs.Linked.{IsFrame, IsRectWithin, cell_at, places_at};
ghost use Rattle.flat_layout.specs.Parts.{Corners};
ghost use Rattle.gate_phase.specs.Kept.{HoldsNear};
ghost use Rattle.gate_phase.specs.Own.{IsHeldPart};
ghost use Rattle.gate_phase.specs.Site.{layout_at};
ghost use Rattle.gate_shapes.specs.Sets.{in_set};
ghost use Rattle.select_laws.specs.Rest.{IsCandidate};
ghost use Rattle.select_laws.specs.Selects.{sight};
ghost use Rattle.select_phase.specs.Found.{AreFoundBelow, rest_in};
ghost use Rattle.select_phase.specs.Lifted.{Lands, Lifts};
ghost use Rattle.select_phase.specs.Selections.{IsReadySelection, meant_at};

use crate::cell::CellSelection;
use cell_context::{grown, place_visits, push_images};
use cell_graph::Place;
use gate_phase::{Site, plane};
use geo_base::Rect;
use rect_sets::RectSet;
use rule_text::SelectRule;
use std::alloc::{AllocError, Global};

// Adds the images of a placed cell's squares through all elements of an array; where it has none no
// element is visited.
fn push_lifted(
    alloc: Global,
    out: &mut Vec<Rect>,
    place: &Place,
    frame: &Rect,
    set: &RectSet,
    plane: &Rect,
) -> Result<(), AllocError>
    requires near { IsNearArray place.now }
    requires some { 0 < place.now.columns }
    requires frame { IsFrame frame.now }
    requires held { (q : Square) → in_set set.now q → has frame.now q ≡ true }
    requires near_set { IsNearSet set.now }
    requires plane { IsRectWithin (2 ^ 39) plane.now }
    requires lands { Lands place.now set.now plane.now }
    requires pieces { All (IsPiece plane.now) out.old.items }
    ensures lifts { OnOk result (Lifts place.now set.now out.old.items out.new.items) }
    ensures pieces { OnOk result (All (IsPiece plane.now) out.new.items) }
{
    let rects = set.rects();
    if rects.is_empty() {
        return Ok(());
    }
    for visit in &place_visits(alloc, place, frame, plane)? {
        push_images(out, rects, &visit.motion, plane)?;
    }
    Ok(())
}

// The same of what goes up from a placed cell. One without a hull has nothing.
fn push_rest(
    alloc: Global,
    out: &mut Vec<Rect>,
    site: &Site,
    place: &Place,
    below: &[Option<CellSelection>],
    reach: u32,
    plane: &Rect,
) -> Result<(), AllocError>
    requires reach { reach ≤ 10000 }
    requires place { (k : ℕ)
        × (slice_get (places_at (cell_at site.now.design.now site.now.cell)) k ≡ Some place.now) }
    requires count { length below.now ≡ length site.now.design.now.cells }
    requires held { IsHeldPart reach site.now.design.now place.now.cell
        (rest_in below.now place.now.cell) }
    requires plane { IsRectWithin (2 ^ 39) plane.now }
    requires all { HoldsNear plane.now }
    requires pieces { All (IsPiece plane.now) out.old.items }
    ensures lifts { OnOk result (Lifts place.now (rest_in below.now place.now.cell) out.old.items
        out.new.items) }
    ensures pieces { OnOk result (All (IsPiece plane.now) out.new.items) }
{
    site.design.sound();
    let Some(found) = &below[place.cell as usize] else {
        return Ok(());
    };
    match site.design.hull(place.cell) {
        Some(hull) => push_lifted(alloc, out, place, &grown(&hull, reach), &found.rest, plane),
        None => Ok(()),
    }
}

/// The squares that the cell holds itself of the regions' layer, and what goes up to it. In
/// O(n log n) for n rectangles of these: one for each of the cell's own, and of each element of an
/// array one for each that goes up from the placed cell.
pub fn candidates(
    alloc: Global,
    site: &Site,
    selection: &SelectRule,
    below: &[Option<CellSelection>],
) -> Result<RectSet, AllocError>
    requires ready { IsReadySelection site.now selection.now }
    requires count { length below.now ≡ length site.now.design.now.cells }
    requires below { AreFoundBelow (layout_at site.now) (meant_at site.now selection.now)
        site.now.cell below.now }
    ensures { IfOk result (λ r. (q : Square) → in_set r q ↔ IsCandidate (layout_at site.now) Corners
        (sight (meant_at site.now selection.now)) site.now.cell q) }
{
    site.design.sound();
    let reach = site.layers.reach(selection.region);
    let plane = plane();
    let local = site.layers.local(site.cell, selection.region);
    let mut out = local.rects().to_vec(alloc)?;
    for place in site.design.places(site.cell) {
        push_rest(alloc, &mut out, site, place, below, reach, &plane)?;
    }
    let set = RectSet::canon(alloc, out)?;
    Ok(set)
}
