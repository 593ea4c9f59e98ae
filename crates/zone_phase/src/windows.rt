//! Windows of a parent that hold what the elements of an array make of a hull.

ghost use Rattle.std.specs.Prelude.{◌≡◌, ◌<◌, ◌^◌, ℕ, ◌≤ℤ◌, true, OnOk, IfOk};
ghost use Rattle.std.specs.List.{All};
ghost use Rattle.geo_base.specs.Near.{IsWithin};
ghost use Rattle.geo_base.specs.Rects.{has, moved_rect, IsInside};
ghost use Rattle.geo_base.specs.declared.shapes.Square.{Square};
ghost use Rattle.rect_sets.specs.Rects.{covers};
ghost use Rattle.cell_graph.specs.Linked.{IsFrame, IsRectWithin, motion_at};
ghost use Rattle.cell_context.specs.Arrays.{IsCloseArray};
ghost use Rattle.zone_phase.specs.Pulls.{OnRects, AreCovering};

use cell_context::motion_at;
use cell_graph::Place;
use geo_base::Rect;
use std::alloc::{AllocError, Global};

// What an element makes of a hull.
pub fn element_rect(place: &Place, row: u32, column: u32, hull: &Rect) -> Rect
    requires close { IsCloseArray place.now }
    requires row { row < place.now.rows }
    requires column { column < place.now.columns }
    requires hull { IsFrame hull.now }
    ensures exact { result ≡ moved_rect (motion_at place.now row column) hull.now }
    ensures near { IsRectWithin (2 ^ 39) result }
{
    let motion = motion_at(place, row, column);
    motion.rect(*hull)
}

// The least rectangle round two.
fn bounds(a: &Rect, b: &Rect) -> Rect
    requires a { IsRectWithin (2 ^ 39) a.now }
    requires b { IsRectWithin (2 ^ 39) b.now }
    ensures first { IsInside a.now result }
    ensures second { IsInside b.now result }
    ensures near { IsRectWithin (2 ^ 39) result }
{
    a.bounding_box(b)
}

// Whether the elements of a row fill at least half of the rectangle round them.
fn is_dense(element: &Rect, row: &Rect, columns: u32) -> bool {
    let wide = element.x2.abs_diff(element.x1);
    let high = element.y2.abs_diff(element.y1);
    let row_wide = row.x2.abs_diff(row.x1);
    let row_high = row.y2.abs_diff(row.y1);
    let twice = 2 * columns as u64;
    row_high == high && row_wide <= wide.saturating_mul(twice)
        || row_wide == wide && row_high <= high.saturating_mul(twice)
}

// Adds one window for each element of a row.
fn push_each(out: &mut Vec<Rect>, place: &Place, row: u32, hull: &Rect) -> Result<(), AllocError>
    requires close { IsCloseArray place.now }
    requires row { row < place.now.rows }
    requires hull { IsFrame hull.now }
    requires within { All (IsRectWithin (2 ^ 39)) out.old.items }
    ensures within { OnOk result (All (IsRectWithin (2 ^ 39)) out.new.items) }
    ensures covered { OnOk result ((column : ℕ) (q : Square) → column < place.now.columns
        → has hull.now q ≡ true → OnRects place.now out.new.items row column q) }
    ensures kept { OnOk result ((s : Square) → covers out.old.items s ≡ true
        → covers out.new.items s ≡ true) }
{
    for column in 0..place.columns as u32 {
        let rect = element_rect(place, row, column, hull);
        out.push(rect)?;
    }
    Ok(())
}

// Adds one window for a row that is dense, and else one for each element.
fn push_row(out: &mut Vec<Rect>, place: &Place, row: u32, hull: &Rect) -> Result<(), AllocError>
    requires close { IsCloseArray place.now }
    requires row { row < place.now.rows }
    requires some { 0 < place.now.columns }
    requires hull { IsFrame hull.now }
    requires within { All (IsRectWithin (2 ^ 39)) out.old.items }
    ensures within { OnOk result (All (IsRectWithin (2 ^ 39)) out.new.items) }
    ensures covered { OnOk result ((column : ℕ) (q : Square) → column < place.now.columns
        → has hull.now q ≡ true → OnRects place.now out.new.items row column q) }
    ensures kept { OnOk result ((s : Square) → covers out.old.items s ≡ true
        → covers out.new.items s ≡ true) }
{
    let columns = place.columns as u32;
    let first = element_rect(place, row, 0, hull);
    let last = element_rect(place, row, columns - 1, hull);
    let both = bounds(&first, &last);
    if is_dense(&first, &both, columns) {
        out.push(both)?;
    } else {
        push_each(out, place, row, hull)?;
    }
    Ok(())
}

// Windows that hold the images of a hull.
pub fn windows(alloc: Global, place: &Place, hull: &Rect) -> Result<Vec<Rect>, AllocError>
    requires close { IsCloseArray place.now }
    requires some { 0 < place.now.columns }
    requires hull { IsFrame hull.now }
    ensures within { IfOk result (λ r. All (IsRectWithin (2 ^ 39)) r.items) }
    ensures covered { IfOk result (λ r. AreCovering place.now hull.now r.items) }
{
    let mut out = Vec::new(alloc);
    for row in 0..place.rows as u32 {
        push_row(&mut out, place, row, hull)?;
    }
    Ok(out)
}
