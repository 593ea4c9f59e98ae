//! What the other elements of an array bring over one element.

ghost use Rattle.std.specs.Prelude.{◌≡◌, ◌↔◌, ◌⊎◌, ◌<◌, ◌^◌, ◌-◌, ◌*◌, ℕ, ℤ, pos, ◌+ℤ◌, ◌-ℤ◌, ◌*ℤ◌};
ghost use Rattle.std.specs.Prelude.{true, length, Some, OnOk, slice_get};
ghost use Rattle.std.specs.List.{All};
ghost use Rattle.geo_base.specs.Near.{IsWithin};
ghost use Rattle.geo_base.specs.Rects.{IsRect, has};
ghost use Rattle.geo_base.specs.Motions.{moved_square};
ghost use Rattle.geo_base.specs.declared.shapes.Square.{Square};
ghost use Rattle.rect_sets.specs.Rects.{covers};
ghost use Rattle.cell_graph.specs.Linked.{IsFrame, IsHull, IsRectWithin, cell_at, hull_of};
ghost use Rattle.cell_graph.specs.Linked.{places_at, motion_at};
ghost use Rattle.cell_context.specs.Arrays.{IsNearArray, IsCloseArray};
ghost use Rattle.cell_context.specs.Over.{IsPiece};
ghost use Rattle.deep_laws.specs.Zones.{IsFromSibling};
ghost use Rattle.zone_phase.specs.Pulls.{Adds};
ghost use Rattle.zone_phase.specs.Framed.{IsFramedArray};
ghost use Rattle.zone_phase.specs.Siblings.{AreShifts, Brings, IsRowShift, SomeBring, all_columns};
ghost use Rattle.zone_phase.specs.Siblings.{around, offset, row_siblings, siblings};

use crate::frame::Frame;
use crate::windows::element_rect;
use cell_context::{gather, motion_at, place_visits, push_images};
use cell_graph::{Design, Place};
use geo_base::{LayerKey, Motion, Rect};
use std::alloc::{AllocError, Global};

fn times(count: u32, step: i64) -> i64
    requires { IsWithin (2 ^ 37) (pos count *ℤ step) }
    ensures exact { result ≡ pos count *ℤ step }
    ensures near { IsWithin (2 ^ 37) result }
{
    count as i64 * step
}

fn less(a: i64, b: i64) -> i64
    requires a { IsWithin (2 ^ 37) a }
    requires b { IsWithin (2 ^ 37) b }
    ensures exact { result ≡ a -ℤ b }
    ensures near { IsWithin (2 ^ 38) result }
{
    a - b
}

fn more(a: i64, b: i64) -> i64
    requires a { IsWithin (2 ^ 39) a }
    requires b { IsWithin (2 ^ 38) b }
    ensures { result ≡ a +ℤ b }
{
    a + b
}

fn closer(a: i64, b: i64) -> i64
    requires a { IsWithin (2 ^ 36) a }
    requires b { IsWithin (2 ^ 38) b }
    ensures exact { result ≡ a +ℤ b }
    ensures near { IsWithin (2 ^ 39) result }
{
    a + b
}

/// Whole steps from where an array begins, ahead or back, and so many elements from there.
#[derive(Clone, Copy)]
pub struct Shift {
    pub ahead: u32,
    pub back: u32,
    pub count: u16,
}

/// The shifts of an array's rows and of its columns.
#[derive(Clone, Copy)]
pub struct Shifts {
    pub rows: Shift,
    pub columns: Shift,
}

// How far a shift leads.
fn offset(shift: Shift, step: i64) -> i64
    requires ahead { IsWithin (2 ^ 37) (pos shift.ahead *ℤ step) }
    requires back { IsWithin (2 ^ 37) (pos shift.back *ℤ step) }
    ensures exact { result ≡ offset shift step }
    ensures near { IsWithin (2 ^ 38) result }
{
    less(times(shift.ahead, step), times(shift.back, step))
}

fn begun(start: i64, shifts: Shifts, column_step: i64, row_step: i64) -> i64
    requires start { IsWithin (2 ^ 36) start }
    requires right { IsWithin (2 ^ 37) (pos shifts.columns.ahead *ℤ column_step) }
    requires left { IsWithin (2 ^ 37) (pos shifts.columns.back *ℤ column_step) }
    requires up { IsWithin (2 ^ 37) (pos shifts.rows.ahead *ℤ row_step) }
    requires down { IsWithin (2 ^ 37) (pos shifts.rows.back *ℤ row_step) }
    ensures { result ≡ (start +ℤ offset shifts.columns column_step) +ℤ
        offset shifts.rows row_step }
{
    let across = offset(shifts.columns, column_step);
    let along = offset(shifts.rows, row_step);
    more(closer(start, across), along)
}

// The array, begun so many rows and columns further on or back.
fn around(place: &Place, shifts: Shifts) -> Place
    requires close { IsCloseArray place.now }
    requires shifts { AreShifts place.now shifts }
    ensures { result ≡ around place.now shifts }
{
    let column_step = place.column_step;
    let row_step = place.row_step;
    Place {
        cell: place.cell,
        motion: Motion {
            turn: place.motion.turn,
            dx: begun(place.motion.dx, shifts, column_step.x, row_step.x),
            dy: begun(place.motion.dy, shifts, column_step.y, row_step.y),
        },
        columns: shifts.columns.count,
        rows: shifts.rows.count,
        column_step,
        row_step,
    }
}

/// Adds what an array brings into a window.
pub fn push_brought(
    alloc: Global,
    there: &mut Vec<Rect>,
    design: &Design,
    other: &Place,
    key: LayerKey,
    hull: &Rect,
    window: &Rect,
) -> Result<(), AllocError>
    requires near { IsNearArray other.now }
    requires some { 0 < other.now.columns }
    requires cell { other.now.cell < length design.now.cells }
    requires hull { hull_of (cell_at design.now other.now.cell) ≡ Some hull.now }
    requires frame { IsFrame hull.now }
    requires window { IsRectWithin (2 ^ 39) window.now }
    requires pieces { All (IsPiece window.now) there.old.items }
    ensures pieces { OnOk result (All (IsPiece window.now) there.new.items) }
    ensures exact { OnOk result (Brings design.now other.now key window.now there.old.items
        there.new.items) }
{
    design.sound();
    for visit in &place_visits(alloc, other, hull, window)? {
        let below = gather(alloc, design, other.cell, key, &visit.window, None)?;
        push_images(there, &below, &visit.motion, window)?;
    }
    Ok(())
}

// Adds what the array brings into a window where it is begun elsewhere.
fn push_around(
    alloc: Global,
    there: &mut Vec<Rect>,
    frame: &Frame<'_>,
    place: &Place,
    window: &Rect,
    shifts: Shifts,
) -> Result<(), AllocError>
    requires array { IsFramedArray frame.now place.now }
    requires shifts { 0 < shifts.rows.count → 0 < shifts.columns.count
        → AreShifts place.now shifts }
    requires window { IsRectWithin (2 ^ 39) window.now }
    requires pieces { All (IsPiece window.now) there.old.items }
    ensures pieces { OnOk result (All (IsPiece window.now) there.new.items) }
    ensures exact { OnOk result (Brings frame.now.design.now (around place.now shifts)
        frame.now.key window.now there.old.items there.new.items) }
{
    if shifts.rows.count > 0 && shifts.columns.count > 0 {
        let other = around(place, shifts);
        let hull = &frame.hull;
        push_brought(alloc, there, frame.design, &other, frame.key, hull, window)?;
    }
    Ok(())
}

// Adds what whole rows bring, as seen from each of their columns: by two arrays, so that both
// counts of columns fit.
fn push_rows(
    alloc: Global,
    there: &mut Vec<Rect>,
    frame: &Frame<'_>,
    place: &Place,
    window: &Rect,
    rows: Shift,
) -> Result<(), AllocError>
    requires array { IsFramedArray frame.now place.now }
    requires shift { 0 < rows.count → IsRowShift place.now rows }
    requires window { IsRectWithin (2 ^ 39) window.now }
    requires pieces { All (IsPiece window.now) there.old.items }
    ensures pieces { OnOk result (All (IsPiece window.now) there.new.items) }
    ensures exact { OnOk result (Brings frame.now.design.now (all_columns place.now rows)
        frame.now.key window.now there.old.items there.new.items) }
{
    let left = place.columns - 1;
    let columns = Shift {
        ahead: 0,
        back: left as u32,
        count: left,
    };
    push_around(alloc, there, frame, place, window, Shifts { rows, columns })?;
    let columns = Shift {
        ahead: 0,
        back: 0,
        count: place.columns,
    };
    push_around(alloc, there, frame, place, window, Shifts { rows, columns })?;
    Ok(())
}

// Adds what the other elements of its row bring, as seen from each element.
fn push_row(
    alloc: Global,
    there: &mut Vec<Rect>,
    frame: &Frame<'_>,
    place: &Place,
    window: &Rect,
) -> Result<(), AllocError>
    requires array { IsFramedArray frame.now place.now }
    requires window { IsRectWithin (2 ^ 39) window.now }
    requires pieces { All (IsPiece window.now) there.old.items }
    ensures pieces { OnOk result (All (IsPiece window.now) there.new.items) }
    ensures exact { OnOk result (SomeBring frame.now.design.now (row_siblings place.now)
        frame.now.key window.now there.old.items there.new.items) }
{
    let columns = place.columns - 1;
    let rows = Shift {
        ahead: 0,
        back: 0,
        count: 1,
    };
    let right = Shift {
        ahead: 1,
        back: 0,
        count: columns,
    };
    let left = Shift {
        ahead: 0,
        back: columns as u32,
        count: columns,
    };
    let right = Shifts {
        rows,
        columns: right,
    };
    push_around(alloc, there, frame, place, window, right)?;
    let left = Shifts {
        rows,
        columns: left,
    };
    push_around(alloc, there, frame, place, window, left)?;
    Ok(())
}

// Adds what the siblings of the array's elements bring into a window of the first element: four
// arrays round the first element tell.
fn push_others(
    alloc: Global,
    there: &mut Vec<Rect>,
    frame: &Frame<'_>,
    place: &Place,
    window: &Rect,
) -> Result<(), AllocError>
    requires array { IsFramedArray frame.now place.now }
    requires window { IsRectWithin (2 ^ 39) window.now }
    requires pieces { All (IsPiece window.now) there.old.items }
    ensures pieces { OnOk result (All (IsPiece window.now) there.new.items) }
    ensures exact { OnOk result (SomeBring frame.now.design.now (siblings place.now) frame.now.key
        window.now there.old.items there.new.items) }
{
    let rows = place.rows - 1;
    let above = Shift {
        ahead: 1,
        back: 0,
        count: rows,
    };
    push_rows(alloc, there, frame, place, window, above)?;
    let below = Shift {
        ahead: 0,
        back: rows as u32,
        count: rows,
    };
    push_rows(alloc, there, frame, place, window, below)?;
    push_row(alloc, there, frame, place, window)?;
    Ok(())
}

// Adds the squares of a grown hull over which some element of the array has a sibling.
pub fn push_siblings(
    alloc: Global,
    out: &mut Vec<Rect>,
    frame: &Frame<'_>,
    place: &Place,
) -> Result<(), AllocError>
    requires array { IsFramedArray frame.now place.now }
    requires near { IsNearArray place.now }
    requires grown { IsFrame frame.now.grown }
    requires rects { All IsRect out.old.items }
    ensures rects { OnOk result (All IsRect out.new.items) }
    ensures exact { OnOk result (Adds place.now frame.now.grown
        (λ row column q. IsFromSibling frame.now.design.now place.now row column frame.now.key q)
        out.old.items out.new.items) }
{
    let first = motion_at(place, 0, 0);
    let window = element_rect(place, 0, 0, &frame.grown);
    let mut there = Vec::new(alloc);
    push_others(alloc, &mut there, frame, place, &window)?;
    let mut more = Vec::new(alloc);
    push_images(&mut more, &there, &first.inverse(), &frame.grown)?;
    out.extend_from_slice(&more)?;
    Ok(())
}
