//! Flat squares of a cell in a window.

ghost use Rattle.std.specs.Prelude.{slice_get, ◌≡◌, ◌↔◌, ◌||◌, ◌&&◌, ◌<◌, ◌≤◌, ◌^◌, ℕ, OnOk, IfOk};
ghost use Rattle.std.specs.Prelude.{true};
ghost use Rattle.std.specs.Prelude.{length, Option, Some, None};
ghost use Rattle.std.specs.List.{All};
ghost use Rattle.geo_base.specs.Near.{IsNearMotion, IsNearRect};
ghost use Rattle.geo_base.specs.Rects.{IsRect, has};
ghost use Rattle.geo_base.specs.Motions.{moved_square};
ghost use Rattle.geo_base.specs.declared.shapes.Square.{Square};
ghost use Rattle.rect_sets.specs.Rects.{covers};
ghost use Rattle.flat_layout.specs.Layout.{InFlatInput, Some_of};
ghost use Rattle.cell_graph.specs.Linked.{IsRectWithin, cell_at, places_at, plain};
ghost use Rattle.cell_context.specs.Over.{AreVisited, IsOver, IsPiece, IsVisit, OverLaw};
ghost use Rattle.cell_context.specs.Search.{HasHitsAt, HasHitsOf, IsHit, IsSearch, references_of};
ghost use Rattle.cell_context.specs.Visits.{HasAllOf};
ghost use Rattle.tile_index.specs.Windows.{ArePositions};
ghost use Rattle.cell_graph.specs.declared.cells.Place.{Place};

use crate::arrays::{Visit, meet, push_elements};
use crate::growth::grown;
use cell_graph::{Design, Place};
use geo_base::{LayerKey, Motion, Rect};
use rect_sets::RectSet;
use std::alloc::{AllocError, Global};

// Adds the part of a rectangle that lies in the window.
fn push_piece(out: &mut Vec<Rect>, rect: &Rect, window: &Rect) -> Result<(), AllocError>
    requires pieces { All (IsPiece window.now) out.old.items }
    ensures pieces { OnOk result (All (IsPiece window.now) out.new.items) }
    ensures covers { OnOk result ((q : Square)
        → covers out.new.items q ≡ (covers out.old.items q
        || (has rect.now q && has window.now q))) }
{
    if let Some(piece) = meet(rect, window) {
        out.push(piece)?;
    }
    Ok(())
}

/// Adds the parts that lie in the window of those rectangles that share a square with it, by their
/// positions.
pub fn push_pieces(
    out: &mut Vec<Rect>,
    rects: &[Rect],
    near: &[u32],
    window: &Rect,
) -> Result<(), AllocError>
    requires near { ArePositions rects.now window.now near.now }
    requires pieces { All (IsPiece window.now) out.old.items }
    ensures pieces { OnOk result (All (IsPiece window.now) out.new.items) }
    ensures covers { OnOk result ((q : Square)
        → covers out.new.items q ≡ (covers out.old.items q
        || (covers rects.now q && has window.now q))) }
{
    for i in near {
        push_piece(out, &rects[*i as usize], window)?;
    }
    Ok(())
}

/// Adds the parts of the images of rectangles that lie in the window.
pub fn push_images(
    out: &mut Vec<Rect>,
    rects: &[Rect],
    motion: &Motion,
    window: &Rect,
) -> Result<(), AllocError>
    requires pieces { All (IsPiece window.now) out.old.items }
    requires near { IsNearMotion motion.now }
    requires rects { All IsRect rects.now }
    requires near_rects { All IsNearRect rects.now }
    ensures pieces { OnOk result (All (IsPiece window.now) out.new.items) }
    ensures covers { OnOk result ((s : Square)
        → covers out.new.items (moved_square motion.now s)
        ≡ (covers out.old.items (moved_square motion.now s)
        || (covers rects.now s && has window.now (moved_square motion.now s)))) }
{
    for rect in rects {
        push_piece(out, &motion.rect(*rect), window)?;
    }
    Ok(())
}

/// A search of a cell for the elements whose hulls, grown by so many squares on each side, come
/// into a window, but for those of one reference.
#[derive(Clone, Copy)]
pub struct Search<'a> {
    pub design: &'a Design,
    pub cell: u32,
    pub window: &'a Rect,
    pub skip: Option<usize>,
    pub by: u32,
}

// Adds the visits of one reference.
fn push_visits(
    alloc: Global,
    out: &mut Vec<Visit>,
    search: &Search<'_>,
    index: usize,
    place: &Place,
) -> Result<(), AllocError>
    requires search { IsSearch search.now }
    requires there { slice_get (references_of search.now) index ≡ Some place.now }
    requires kept { search.now.skip ≡ Some index → ⊥ }
    requires each { All (IsHit search.now) out.old.items }
    ensures each { OnOk result (All (IsHit search.now) out.new.items) }
    ensures found { OnOk result (HasHitsOf search.now index place.now out.new.items) }
    ensures stay { OnOk result (HasAllOf out.old.items out.new.items) }
{
    let design = search.design;
    design.sound();
    if let Some(hull) = design.hull(place.cell) {
        let wide = grown(&hull, search.by);
        push_elements(alloc, out, place, &wide, search.window)?;
    }
    Ok(())
}

// Adds the visits of the reference of a number, unless it is to be skipped.
fn push_kept(
    alloc: Global,
    out: &mut Vec<Visit>,
    search: &Search<'_>,
    index: usize,
) -> Result<(), AllocError>
    requires search { IsSearch search.now }
    requires there { index < length (references_of search.now) }
    requires each { All (IsHit search.now) out.old.items }
    ensures each { OnOk result (All (IsHit search.now) out.new.items) }
    ensures found { OnOk result (HasHitsAt search.now index out.new.items) }
    ensures stay { OnOk result (HasAllOf out.old.items out.new.items) }
{
    if search.skip == Some(index) {
        return Ok(());
    }
    let place = &search.design.places(search.cell)[index];
    push_visits(alloc, out, search, index, place)
}

/// The elements of a cell's references whose hulls, grown by so many squares on each side, come
/// into a window, but for one reference to be skipped. The design's index finds the references: the
/// others cost nothing.
pub fn visits(
    alloc: Global,
    design: &Design,
    cell: u32,
    window: &Rect,
    skip: Option<usize>,
    by: u32,
) -> Result<Vec<Visit>, AllocError>
    requires cell { cell < length design.now.cells }
    requires window { IsRectWithin (2 ^ 39) window.now }
    requires by { by ≤ 20001 }
    ensures each { IfOk result (λ v. All (IsVisit by design.now cell skip window.now) v.items) }
    ensures found { IfOk result (λ v. AreVisited by design.now cell skip window.now v.items) }
{
    design.sound();
    let search = Search {
        design,
        cell,
        window,
        skip,
        by,
    };
    let mut out = Vec::new(alloc);
    let wide = grown(window, by);
    let near = design.places_in(alloc, cell, wide)?;
    for i in &near {
        push_kept(alloc, &mut out, &search, *i as usize)?;
    }
    Ok(out)
}

/// Rectangles that cover exactly what lies over the squares of a window in a cell, other than
/// through a reference to be skipped: its own shapes on the layer and the flat squares of the cells
/// that its other references place. Cost: what reaches into the window, found by the design's
/// indexes.
pub fn gather(
    alloc: Global,
    design: &Design,
    cell: u32,
    key: LayerKey,
    window: &Rect,
    skip: Option<usize>,
) -> Result<Vec<Rect>, AllocError>
    requires cell { cell < length design.now.cells }
    requires window { IsRectWithin (2 ^ 39) window.now }
    ensures pieces { IfOk result (λ r. All (IsPiece window.now) r.items) }
    ensures exact { IfOk result (λ r. (q : Square) → (covers r.items q ≡ true)
        ↔ ((has window.now q ≡ true) × IsOver design.now cell skip key q)) }
{
    design.sound();
    let mut out = Vec::new(alloc);
    let near = design.own_in(alloc, cell, key, *window)?;
    push_pieces(&mut out, design.own(cell, key).rects(), &near, window)?;
    let list = visits(alloc, design, cell, window, skip, 0)?;
    for visit in &list {
        let below = gather(alloc, design, visit.cell, key, &visit.window, None)?;
        push_images(&mut out, &below, &visit.motion, window)?;
    }
    Ok(out)
}

/// Exactly the flat squares of the cell on an input layer in the window.
pub fn collect(
    alloc: Global,
    design: &Design,
    cell: u32,
    key: LayerKey,
    window: &Rect,
) -> Result<RectSet, AllocError>
    requires cell { cell < length design.now.cells }
    requires window { IsRectWithin (2 ^ 39) window.now }
    ensures { IfOk result (λ r. (q : Square) → (covers r q ≡ true)
        ↔ ((has window.now q ≡ true) × InFlatInput (plain design.now) cell key q)) }
{
    design.sound();
    let rects = gather(alloc, design, cell, key, window, None)?;
    let set = RectSet::canon(alloc, rects)?;
    Ok(set)
}

/// The flat squares of a cell on an input layer among these: one walk for each rectangle of them.
pub fn collect_in(
    alloc: Global,
    design: &Design,
    cell: u32,
    key: LayerKey,
    places: &RectSet,
) -> Result<RectSet, AllocError>
    requires cell { cell < length design.now.cells }
    requires near { All (IsRectWithin (2 ^ 39)) places.now }
    ensures { IfOk result (λ r. (q : Square) → (covers r q ≡ true)
        ↔ ((covers places.now q ≡ true) × InFlatInput (plain design.now) cell key q)) }
{
    design.sound();
    let mut out = Vec::new(alloc);
    for rect in places.rects() {
        let more = gather(alloc, design, cell, key, rect, None)?;
        out.extend_from_slice(&more)?;
    }
    let set = RectSet::canon(alloc, out)?;
    Ok(set)
}

/// Where nothing is skipped, what lies over a square is the flat layer.
pub fn over_laws()
    ensures { OverLaw }
{}
