//! Which placements of a cell reach into a window.

ghost use Rattle.std.specs.List.{All};
ghost use Rattle.cell_context.specs.Visits.{AddsVisits, IsElementOf, IsElementVisit, IsMet, IsFound};
ghost use Rattle.std.specs.Prelude.{OnOk, IfOk, true, ◌↔◌};
ghost use Rattle.std.specs.Prelude.{◌≡◌, ◌<◌, ◌≤◌, ◌-◌, ◌^◌, ◌&&◌, ℕ, ℤ, pos, ◌+ℤ◌};
ghost use Rattle.std.specs.Prelude.{◌-ℤ◌, ◌*ℤ◌, ◌≤ℤ◌, ◌<ℤ◌};
ghost use Rattle.geo_base.specs.Near.{IsWithin, IsNearMotion};
ghost use Rattle.geo_base.specs.Rects.{IsRect, has, moved_rect, IsInside};
ghost use Rattle.geo_base.specs.Motions.{moved_square};
ghost use Rattle.geo_base.specs.declared.shapes.Square.{Square};
ghost use Rattle.cell_graph.specs.Linked.{IsFrame, IsRectWithin, motion_at};
ghost use Rattle.cell_context.specs.Arrays.{IsAlone, IsNearArray, IsMeet, IsReach, IsNearReach, turn_of};
ghost use Rattle.cell_context.specs.Arrays.{shift_x, shift_y, MayMeet};
ghost use Rattle.cell_context.specs.Steps.{Includes};

use crate::steps::{Steps, steps_between};
use cell_graph::Place;
use geo_base::{Motion, Rect};
use std::alloc::{AllocError, Global};

/// Whether a reference is of one placement.
pub fn is_alone(place: &Place) -> bool
    ensures { (result ≡ true) ↔ IsAlone place.now }
{
    place.rows == 1 && place.columns == 1
}

/// The common part of two rectangles.
pub fn meet(a: &Rect, b: &Rect) -> Option<Rect>
    ensures { IsMeet a.now b.now result }
{
    let part = a.common(b);
    if part.is_rect() { Some(part) } else { None }
}

// A multiple of a step.
fn times(count: u32, step: i64) -> i64
    requires { IsWithin (2 ^ 38) (pos count *ℤ step) }
    ensures { result ≡ pos count *ℤ step }
{
    count as i64 * step
}

fn plus(a: i64, b: i64) -> i64
    requires a { IsWithin (2 ^ 45) a }
    requires b { IsWithin (2 ^ 45) b }
    ensures { result ≡ a +ℤ b }
{
    a + b
}

fn minus(a: i64, b: i64) -> i64
    requires a { IsWithin (2 ^ 45) a }
    requires b { IsWithin (2 ^ 45) b }
    ensures { result ≡ a -ℤ b }
{
    a - b
}

// A shift by whole steps.
fn shift(start: i64, column: u32, column_step: i64, row: u32, row_step: i64) -> i64
    requires start { IsWithin (2 ^ 39) start }
    requires column { IsWithin (2 ^ 38) (pos column *ℤ column_step) }
    requires row { IsWithin (2 ^ 38) (pos row *ℤ row_step) }
    ensures { result ≡ (start +ℤ (pos column *ℤ column_step)) +ℤ (pos row *ℤ row_step) }
{
    let across = times(column, column_step);
    let up = times(row, row_step);
    plus(plus(start, across), up)
}

fn element_motion(place: &Place, row: u32, column: u32) -> Motion
    requires near { IsNearArray place.now }
    requires row { row < place.now.rows }
    requires column { column < place.now.columns }
    ensures { result ≡ motion_at place.now row column }
{
    Motion {
        turn: place.motion.turn,
        dx: shift(
            place.motion.dx,
            column,
            place.column_step.x,
            row,
            place.row_step.x,
        ),
        dy: shift(
            place.motion.dy,
            column,
            place.column_step.y,
            row,
            place.row_step.y,
        ),
    }
}

/// How an element of an array is moved.
pub fn motion_at(place: &Place, row: u32, column: u32) -> Motion
    requires near { IsNearArray place.now }
    requires row { row < place.now.rows }
    requires column { column < place.now.columns }
    ensures exact { result ≡ motion_at place.now row column }
    ensures near { IsNearMotion result }
{
    element_motion(place, row, column)
}

/// Between which numbers the shift of an element lies whose image of a hull meets a window.
#[derive(Clone, Copy, Debug)]
pub struct Reach {
    pub x_low: i64,
    pub x_high: i64,
    pub y_low: i64,
    pub y_high: i64,
}

// A hull as the elements of an array turn it.
fn turned_hull(place: &Place, hull: &Rect) -> Rect
    requires hull { IsFrame hull.now }
    ensures exact { result ≡ moved_rect (turn_of place.now) hull.now }
    ensures near { IsRectWithin (2 ^ 37) result }
{
    let turn = Motion {
        turn: place.motion.turn,
        dx: 0,
        dy: 0,
    };
    turn.rect(*hull)
}

fn reach_of(place: &Place, hull: &Rect, window: &Rect) -> Reach
    requires hull { IsFrame hull.now }
    requires window { IsRectWithin (2 ^ 39) window.now }
    ensures { IsReach place.now hull.now window.now result }
{
    let turned = turned_hull(place, hull);
    Reach {
        x_low: minus(window.x1, turned.x2),
        x_high: minus(window.x2, turned.x1),
        y_low: minus(window.y1, turned.y2),
        y_high: minus(window.y2, turned.y1),
    }
}

/// A placed cell, how it is moved, and a window of it.
#[derive(Clone, Copy, Debug)]
pub struct Visit {
    pub cell: u32,
    pub motion: Motion,
    pub window: Rect,
}

fn both(a: Steps, b: Steps) -> Steps
    ensures within { (n : ℕ) → a.to ≤ n → result.to ≤ n }
    ensures all { (i : ℕ) → Includes a i → Includes b i → Includes result i }
{
    Steps {
        from: a.from.max(b.from),
        to: a.to.min(b.to),
    }
}

// A shift by whole steps of one kind.
fn start_at(start: i64, count: u32, step: i64) -> i64
    requires start { IsWithin (2 ^ 39) start }
    requires near { IsWithin (2 ^ 38) (pos count *ℤ step) }
    ensures exact { result ≡ start +ℤ (pos count *ℤ step) }
    ensures near { IsWithin (2 ^ 40) result }
{
    more(start, times(count, step))
}

fn more(a: i64, b: i64) -> i64
    requires a { IsWithin (2 ^ 39) a }
    requires b { IsWithin (2 ^ 38) b }
    ensures exact { result ≡ a +ℤ b }
    ensures near { IsWithin (2 ^ 40) result }
{
    a + b
}

fn less(a: i64, b: i64) -> i64
    requires a { IsWithin (2 ^ 43) a }
    requires b { IsWithin (2 ^ 40) b }
    ensures exact { result ≡ a -ℤ b }
    ensures near { IsWithin (2 ^ 50) result }
{
    a - b
}

// The numbers whose steps from a start may lie between two numbers.
fn axis(count: u32, step: i64, start: i64, low: i64, high: i64) -> Steps
    requires start { IsWithin (2 ^ 40) start }
    requires low { IsWithin (2 ^ 43) low }
    requires high { IsWithin (2 ^ 43) high }
    ensures within { result.to ≤ count }
    ensures all { (i : ℕ) → i < count → low <ℤ (start +ℤ (pos i *ℤ step))
        → (start +ℤ (pos i *ℤ step)) <ℤ high → Includes result i }
{
    steps_between(count, step, less(low, start), less(high, start))
}

// How far the columns of an array may shift, in either direction.
#[derive(Clone, Copy, Debug)]
struct Extent {
    low: i64,
    high: i64,
}

fn extent_of(count: u32, step: i64) -> Extent
    requires some { 0 < count }
    requires near { IsWithin (2 ^ 38) (pos (count - 1) *ℤ step) }
    ensures low { IsWithin (2 ^ 39) result.low }
    ensures high { IsWithin (2 ^ 39) result.high }
    ensures all { (i : ℕ) → i < count → (result.low ≤ℤ (pos i *ℤ step))
        × ((pos i *ℤ step) ≤ℤ result.high) }
{
    let far = times(count - 1, step);
    Extent {
        low: far.min(0),
        high: far.max(0),
    }
}

fn widened(a: i64, b: i64) -> i64
    requires a { IsWithin (2 ^ 41) a }
    requires b { IsWithin (2 ^ 39) b }
    ensures exact { result ≡ a -ℤ b }
    ensures near { IsWithin (2 ^ 43) result }
{
    a - b
}

// The same where each number may also be shifted within an extent.
fn wide_axis(count: u32, step: i64, start: i64, low: i64, high: i64, extent: Extent) -> Steps
    requires start { IsWithin (2 ^ 39) start }
    requires low { IsWithin (2 ^ 41) low }
    requires high { IsWithin (2 ^ 41) high }
    requires extent_low { IsWithin (2 ^ 39) extent.low }
    requires extent_high { IsWithin (2 ^ 39) extent.high }
    ensures within { result.to ≤ count }
    ensures all { (i : ℕ) (z : ℤ) → i < count → extent.low ≤ℤ z → z ≤ℤ extent.high
        → low <ℤ ((start +ℤ z) +ℤ (pos i *ℤ step)) → ((start +ℤ z) +ℤ (pos i *ℤ step)) <ℤ high
        → Includes result i }
{
    axis(
        count,
        step,
        start,
        widened(low, extent.high),
        widened(high, extent.low),
    )
}

// The columns of a row whose elements may meet the window.
fn columns_meeting(place: &Place, reach: &Reach, row: u32) -> Steps
    requires near { IsNearArray place.now }
    requires reach { IsNearReach reach.now }
    requires row { row < place.now.rows }
    ensures within { result.to ≤ place.now.columns }
    ensures all { (column : ℕ) → column < place.now.columns → MayMeet reach.now place.now row column
        → Includes result column }
{
    let x = start_at(place.motion.dx, row, place.row_step.x);
    let y = start_at(place.motion.dy, row, place.row_step.y);
    let columns = place.columns as u32;
    let across = axis(columns, place.column_step.x, x, reach.x_low, reach.x_high);
    let up = axis(columns, place.column_step.y, y, reach.y_low, reach.y_high);
    both(across, up)
}

// The rows some of whose elements may meet the window.
fn rows_meeting(place: &Place, reach: &Reach) -> Steps
    requires near { IsNearArray place.now }
    requires reach { IsNearReach reach.now }
    requires some { 0 < place.now.columns }
    ensures within { result.to ≤ place.now.rows }
    ensures all { (row column : ℕ) → row < place.now.rows → column < place.now.columns
        → MayMeet reach.now place.now row column → Includes result row }
{
    let columns = place.columns as u32;
    let rows = place.rows as u32;
    let x = extent_of(columns, place.column_step.x);
    let y = extent_of(columns, place.column_step.y);
    let across = wide_axis(
        rows,
        place.row_step.x,
        place.motion.dx,
        reach.x_low,
        reach.x_high,
        x,
    );
    let up = wide_axis(
        rows,
        place.row_step.y,
        place.motion.dy,
        reach.y_low,
        reach.y_high,
        y,
    );
    both(across, up)
}

// Adds the visit of an element, where its image of the hull meets the window.
fn push_visit(
    out: &mut Vec<Visit>,
    place: &Place,
    row: u32,
    column: u32,
    hull: &Rect,
    window: &Rect,
) -> Result<(), AllocError>
    requires near { IsNearArray place.now }
    requires row { row < place.now.rows }
    requires column { column < place.now.columns }
    requires hull { IsFrame hull.now }
    requires window { IsRectWithin (2 ^ 39) window.now }
    ensures { OnOk result (AddsVisits place.now hull.now window.now
        (λ i j. (i ≡ row) × (j ≡ column)) out.old.items out.new.items) }
{
    let motion = motion_at(place, row, column);
    if let Some(part) = meet(&motion.rect(*hull), window) {
        let visit = Visit {
            cell: place.cell,
            motion,
            window: motion.inverse().rect(part),
        };
        out.push(visit)?;
    }
    Ok(())
}

// The visits of an array, found by its rows and columns.
fn array_visits(
    alloc: Global,
    place: &Place,
    hull: &Rect,
    window: &Rect,
) -> Result<Vec<Visit>, AllocError>
    requires near { IsNearArray place.now }
    requires some { 0 < place.now.columns }
    requires hull { IsFrame hull.now }
    requires window { IsRectWithin (2 ^ 39) window.now }
    ensures each { IfOk result (λ v. All (IsElementVisit place.now hull.now window.now) v.items) }
    ensures found { IfOk result (λ v. (row column : ℕ) (q : Square) → row < place.now.rows
        → column < place.now.columns → IsMet place.now hull.now window.now row column q
        → IsFound place.now row column q v.items) }
{
    let mut out = Vec::new(alloc);
    let reach = reach_of(place, hull, window);
    let rows = rows_meeting(place, &reach);
    for row in rows.from..rows.to {
        let columns = columns_meeting(place, &reach, row);
        for column in columns.from..columns.to {
            push_visit(&mut out, place, row, column, hull, window)?;
        }
    }
    Ok(out)
}

/// Adds the visits of the elements of an array whose images of a hull meet a window. For a
/// reference of one placement it is one look, and takes no list.
pub fn push_elements(
    alloc: Global,
    out: &mut Vec<Visit>,
    place: &Place,
    hull: &Rect,
    window: &Rect,
) -> Result<(), AllocError>
    requires near { IsNearArray place.now }
    requires some { 0 < place.now.columns }
    requires hull { IsFrame hull.now }
    requires window { IsRectWithin (2 ^ 39) window.now }
    ensures { OnOk result (AddsVisits place.now hull.now window.now (IsElementOf place.now)
        out.old.items out.new.items) }
{
    if is_alone(place) {
        push_visit(out, place, 0, 0, hull, window)?;
        return Ok(());
    }
    let more = array_visits(alloc, place, hull, window)?;
    out.extend_from_slice(&more)?;
    Ok(())
}

/// The elements of an array whose images of a hull meet a window.
pub fn place_visits(
    alloc: Global,
    place: &Place,
    hull: &Rect,
    window: &Rect,
) -> Result<Vec<Visit>, AllocError>
    requires near { IsNearArray place.now }
    requires some { 0 < place.now.columns }
    requires hull { IsFrame hull.now }
    requires window { IsRectWithin (2 ^ 39) window.now }
    ensures each { IfOk result (λ v. All (IsElementVisit place.now hull.now window.now) v.items) }
    ensures found { IfOk result (λ v. (row column : ℕ) (q : Square) → row < place.now.rows
        → column < place.now.columns → IsMet place.now hull.now window.now row column q
        → IsFound place.now row column q v.items) }
{
    let mut out = Vec::new(alloc);
    push_elements(alloc, &mut out, place, hull, window)?;
    Ok(out)
}
