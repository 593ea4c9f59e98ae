//! The parts of which a cell's layers are made.
ghost use Rattle.std.specs.Prelude.{◌≡◌, ◌↔◌, ◌<◌, ◌≤◌, ◌^◌, ◌&&◌, not, IfOk, true};
ghost use Rattle.std.specs.Prelude.{List, length};
ghost use Rattle.std.specs.List.{All};
ghost use Rattle.geo_base.specs.Rects.{IsRect, has, grown};
ghost use Rattle.geo_base.specs.declared.shapes.Rect.{Rect as Rectangle};
ghost use Rattle.geo_base.specs.declared.shapes.Square.{Square};
ghost use Rattle.rect_sets.specs.Rects.{covers};
ghost use Rattle.cell_graph.specs.Linked.{IsFrame, IsRectWithin};
ghost use Rattle.layer_phase.specs.Around.{around};
ghost use Rattle.layer_phase.specs.Keeps.{HasEntry, HaveEntries, IsKeptBy, IsZoneAt};
ghost use Rattle.cell_context.specs.Over.{IsPiece};
ghost use Rattle.layer_phase.specs.Looks.{AreNear};
ghost use Rattle.cell_context.specs.Placed.{Grows};
ghost use Rattle.sized_layers.specs.Sizes.{IsSetWithin};

use crate::grown::sized;
use crate::squares::{fewer, whole};
use crate::work::CellWork;
use cell_context::{Visit, grown, push_images, push_pieces, visits};
use deep_tables::{ZoneKey, Zones};
use geo_base::{Op, Rect};
use rect_sets::{RectSet, combine_rects};
use std::alloc::{AllocError, Global};

// What a visited cell leaves for a name in a window, as pieces of it: found by the index.
fn disturbed_near(
    alloc: Global,
    zones: &Zones,
    cell: u32,
    name: u32,
    window: &Rect,
) -> Result<Vec<Rect>, AllocError>
    requires window { IsRect window.now }
    requires entry { HasEntry zones.now cell name }
    ensures rects { IfOk result (λ r. All IsRect r.items) }
    ensures zone { IfOk result (λ r. (v : List Rectangle) → IsZoneAt zones.now cell name v
        → (q : Square) → covers r.items q ≡ (covers v q && has window.now q)) }
    ensures sound { IfOk result (λ _. (v : List Rectangle) → IsZoneAt zones.now cell name v
        → All IsRect v) }
{
    let zone = zones.indexed(cell, ZoneKey::Layer(name));
    let near = zone.near(alloc, window)?;
    let mut there = Vec::new(alloc);
    push_pieces(&mut there, zone.set().rects(), &near, window)?;
    Ok(there)
}

// A window without the squares of rectangles: all of it, where there is none, and nothing, where it
// lies in a single one, as most windows do.
fn cut(alloc: Global, window: &Rect, there: &[Rect]) -> Result<RectSet, AllocError>
    requires window { IsRect window.now }
    requires rects { All IsRect there.now }
    ensures { IfOk result (λ r. (q : Square)
        → covers r q ≡ (has window.now q && not (covers there.now q))) }
{
    match there {
        [] => whole(alloc, window),
        [one] if window.is_inside(one) => Ok(RectSet::empty(alloc)),
        _ => combine_rects(alloc, &[*window], there, Op::Not),
    }
}

// A window without the squares within so many squares of others in the grown window.
fn cut_near(
    alloc: Global,
    window: &Rect,
    there: Vec<Rect>,
    reach: u32,
) -> Result<RectSet, AllocError>
    requires window { IsFrame window.now }
    requires reach { reach ≤ 10000 }
    requires rects { All IsRect there.items }
    requires held { (q : Square) → covers there.items q ≡ true
        → has (grown reach window.now) q ≡ true }
    ensures { IfOk result (λ r. (q : Square)
        → covers r q ≡ (has window.now q && not (covers (around reach there.items) q))) }
{
    if reach == 0 {
        return cut(alloc, window, &there);
    }
    let set = RectSet::canon(alloc, there)?;
    let _rects = set.rects();
    let stirred = sized(alloc, &set, reach)?;
    cut(alloc, window, stirred.rects())
}

// The part of a visit's window near which the visited cell leaves nothing: only what it leaves in
// the grown window is looked at.
fn calm_part(
    alloc: Global,
    zones: &Zones,
    visit: &Visit,
    name: u32,
    reach: u32,
) -> Result<RectSet, AllocError>
    requires window { IsFrame visit.now.window }
    requires reach { reach ≤ 10000 }
    requires entry { HasEntry zones.now visit.now.cell name }
    ensures { IfOk result (λ r. (v : List Rectangle) → IsZoneAt zones.now visit.now.cell name v
        → (s : Square) → covers r s
        ≡ (has visit.now.window s && not (covers (around reach v) s))) }
{
    let wide = grown(&visit.window, reach);
    let there = disturbed_near(alloc, zones, visit.cell, name, &wide)?;
    cut_near(alloc, &visit.window, there, reach)
}

/// What the placed cells keep of a name's flat squares in a window: the parts of their hulls, grown
/// by the name's reach, near which they leave nothing.
pub fn calm_pieces(
    alloc: Global,
    work: &CellWork,
    name: u32,
    window: &Rect,
    reach: u32,
) -> Result<Vec<Rect>, AllocError>
    requires cell { work.now.cell < length work.now.design.now.cells }
    requires window { IsRectWithin (2 ^ 39) window.now }
    requires reach { reach ≤ 10000 }
    requires entries { HaveEntries work.now.design.now work.now.zones.now work.now.cell name }
    ensures pieces { IfOk result (λ r. All (IsPiece window.now) r.items) }
    ensures exact { IfOk result (λ r. (q : Square) → (covers r.items q ≡ true) ↔ ((has window.now q
        ≡ true) × IsKeptBy reach work.now.design.now work.now.zones.now work.now.cell name q)) }
{
    let design = work.design;
    design.sound();
    let mut out = Vec::new(alloc);
    let list = visits(alloc, design, work.cell, window, None, reach)?;
    for visit in &list {
        let keep = calm_part(alloc, work.zones, visit, name, reach)?;
        push_images(&mut out, keep.rects(), &visit.motion, window)?;
    }
    Ok(out)
}

// The same of all squares that are looked at.
fn calm_squares(
    alloc: Global,
    work: &CellWork,
    name: u32,
    places: &RectSet,
    reach: u32,
) -> Result<RectSet, AllocError>
    requires cell { work.now.cell < length work.now.design.now.cells }
    requires near { AreNear places.now }
    requires reach { reach ≤ 10000 }
    requires entries { HaveEntries work.now.design.now work.now.zones.now work.now.cell name }
    ensures { IfOk result (λ r. (q : Square) → (covers r q ≡ true) ↔ ((covers places.now q ≡ true) ×
        IsKeptBy reach work.now.design.now work.now.zones.now work.now.cell name q)) }
{
    let mut out = Vec::new(alloc);
    for rect in places.rects() {
        let more = calm_pieces(alloc, work, name, rect, reach)?;
        out.extend_from_slice(&more)?;
    }
    let set = RectSet::canon(alloc, out)?;
    Ok(set)
}

/// What placed cells keep of some squares that are looked at, and may be of others: sought is in
/// these, or in all that are looked at, whatever takes fewer rectangles.
pub fn kept_among(
    alloc: Global,
    work: &CellWork,
    name: u32,
    squares: &RectSet,
    looks: &RectSet,
    reach: u32,
) -> Result<RectSet, AllocError>
    requires cell { work.now.cell < length work.now.design.now.cells }
    requires within { IsSetWithin (2 ^ 39) looks.now }
    requires inside { Grows squares.now looks.now }
    requires reach { reach ≤ 10000 }
    requires entries { HaveEntries work.now.design.now work.now.zones.now work.now.cell name }
    ensures { IfOk result (λ r. (q : Square) → covers squares.now q ≡ true → (covers r q ≡ true)
        ↔ IsKeptBy reach work.now.design.now work.now.zones.now work.now.cell name q) }
{
    let chosen = fewer(squares, looks);
    let _rects = chosen.rects();
    calm_squares(alloc, work, name, chosen, reach)
}

/// The squares of the one set that the other doesn't have: itself, where that one is empty.
pub fn without(alloc: Global, set: RectSet, other: &RectSet) -> Result<RectSet, AllocError>
    ensures { IfOk result (λ r. (q : Square)
        → covers r q ≡ (covers set q && not (covers other.now q))) }
{
    if other.rects().is_empty() {
        return Ok(set);
    }
    set.combined(alloc, other, Op::Not)
}
