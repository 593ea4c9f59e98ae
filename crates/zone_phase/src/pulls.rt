//! Squares that the elements of an array take onto rectangles.
ghost use Rattle.std.specs.Prelude.{◌≡◌, ◌↔◌, ◌<◌, ◌^◌, ◌||◌, true, IfOk, OnOk};
ghost use Rattle.std.specs.List.{All};
ghost use Rattle.geo_base.specs.Rects.{IsRect, has};
ghost use Rattle.geo_base.specs.declared.shapes.Square.{Square};
ghost use Rattle.rect_sets.specs.Rects.{covers};
ghost use Rattle.cell_graph.specs.Linked.{IsFrame, IsRectWithin};
ghost use Rattle.cell_context.specs.Arrays.{IsNearArray};
ghost use Rattle.zone_phase.specs.Pulls.{IsPulled};

use cell_context::place_visits;
use cell_graph::Place;
use geo_base::Rect;
use std::alloc::{AllocError, Global};

// Whether a rectangle is the last of a list.
pub fn is_last(rects: &[Rect], rect: &Rect) -> bool
    ensures { result ≡ true → (q : Square) → has rect.now q ≡ true → covers rects.now q ≡ true }
{
    let count = rects.len();
    count > 0 && rects[count - 1] == *rect
}

// Adds a rectangle, unless it is the last one already: elements of an array whose surroundings are
// alike add one.
fn push_new(out: &mut Vec<Rect>, rect: &Rect) -> Result<(), AllocError>
    requires some { IsRect rect.now }
    requires rects { All IsRect out.old.items }
    ensures rects { OnOk result (All IsRect out.new.items) }
    ensures covers { OnOk result ((q : Square) → covers out.new.items q
        ≡ (covers out.old.items q || has rect.now q)) }
{
    if !is_last(out, rect) {
        out.push(*rect)?;
    }
    Ok(())
}

// Adds the squares of a hull that some element takes into a rectangle.
pub fn push_pulled(
    alloc: Global,
    out: &mut Vec<Rect>,
    place: &Place,
    hull: &Rect,
    rect: &Rect,
) -> Result<(), AllocError>
    requires near { IsNearArray place.now }
    requires some { 0 < place.now.columns }
    requires hull { IsFrame hull.now }
    requires rect { IsRectWithin (2 ^ 39) rect.now }
    requires rects { All IsRect out.old.items }
    ensures rects { OnOk result (All IsRect out.new.items) }
    ensures exact { OnOk result ((q : Square) → (covers out.new.items q ≡ true)
        ↔ IsPulled place.now hull.now rect.now out.old.items q) }
{
    for visit in &place_visits(alloc, place, hull, rect)? {
        push_new(out, &visit.window)?;
    }
    Ok(())
}
