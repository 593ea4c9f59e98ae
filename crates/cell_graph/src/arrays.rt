//! The bounds of all elements of an array, by the ranges of their origins: nothing is done for each
//! element.
ghost use Rattle.std.specs.Prelude.{◌≡◌, ◌↔◌, ◌<◌, ◌≤◌, ◌≤ℤ◌, ◌^◌, ◌+ℤ◌, ◌*ℤ◌, pos, true, None};
ghost use Rattle.std.specs.Prelude.{Some, MatchOption};
ghost use Rattle.geo_base.specs.Near.{IsWithin};
ghost use Rattle.cell_graph.specs.Arrays.{IsReachOr, AreOriginsOr, TurnedPoint, ArrayPoint};
ghost use Rattle.cell_graph.specs.Arrays.{HasFarOrigin, AreOriginsOf, IsNearInterval, IsSpread};
ghost use Rattle.cell_graph.specs.Sides.{IsCornerPoint, Widens, AreNear, AreNearIfAny};

use crate::bounds::{Bounds, with_corners, with_point};
use crate::cells::Place;
use geo_base::{Motion, Point, REACH, Turn};

/// A range of numbers, both ends among them.
#[derive(Clone, Copy, Debug)]
pub struct Interval {
    pub low: i64,
    pub high: i64,
}

/// The ranges of x and of y in which the origins of an array's elements lie.
#[derive(Clone, Copy, Debug)]
pub struct ElementOrigins {
    pub x: Interval,
    pub y: Interval,
}

/// Whether a number lies in the range of hulls.
pub fn is_near(z: i64) -> bool
    ensures { (result ≡ true) ↔ IsWithin (2 ^ 36) z }
{
    -REACH <= z && z <= REACH
}

fn times(count: u16, step: i64) -> i64
    requires { IsWithin (2 ^ 37) step }
    ensures exact { result ≡ pos count *ℤ step }
    ensures near { IsWithin (2 ^ 53) result }
{
    count as i64 * step
}

// The range of the first multiples of a step, of which there are so many; none where two of them
// are too far apart.
fn reach(step: i64, count: u16) -> Option<Interval>
    requires { 0 < count }
    ensures { IsReachOr step count result }
{
    if count == 1 {
        return Some(Interval { low: 0, high: 0 });
    }
    if step < -2 * REACH || 2 * REACH < step {
        return None;
    }
    let last = times(count - 1, step);
    Some(Interval {
        low: last.min(0),
        high: last.max(0),
    })
}

fn sum(a: i64, b: i64, c: i64) -> i64
    requires a { IsWithin (2 ^ 53) a }
    requires b { IsWithin (2 ^ 53) b }
    requires c { IsWithin (2 ^ 53) c }
    ensures { result ≡ (a +ℤ b) +ℤ c }
{
    a + b + c
}

// The range of the elements' origins along one axis; none where one is out of range.
fn origins(start: i64, column_step: i64, row_step: i64, rows: u16, columns: u16) -> Option<Interval>
    requires rows { 0 < rows }
    requires columns { 0 < columns }
    ensures { AreOriginsOr start column_step row_step rows columns result }
{
    if !is_near(start) {
        return None;
    }
    let Some(across) = reach(column_step, columns) else {
        return None;
    };
    let Some(along) = reach(row_step, rows) else {
        return None;
    };
    let low = sum(start, across.low, along.low);
    let high = sum(start, across.high, along.high);
    if is_near(low) && is_near(high) {
        Some(Interval { low, high })
    } else {
        None
    }
}

/// The ranges of the origins of all elements of an array; none where one is out of range.
pub fn origins_of(place: &Place) -> Option<ElementOrigins>
    requires rows { 0 < place.now.rows }
    requires columns { 0 < place.now.columns }
    ensures { MatchOption result (HasFarOrigin place.now) (AreOriginsOf place.now) }
{
    let m = place.motion;
    let (across, along) = (place.column_step, place.row_step);
    let Some(x) = origins(m.dx, across.x, along.x, place.rows, place.columns) else {
        return None;
    };
    let Some(y) = origins(m.dy, across.y, along.y, place.rows, place.columns) else {
        return None;
    };
    Some(ElementOrigins { x, y })
}

// The bounds of the origin and of the corners that a turn makes of bounds.
fn turned_bounds(turn: Turn, inner: Option<Bounds>) -> Bounds
    requires { AreNearIfAny inner }
    ensures least { Widens None (TurnedPoint turn (IsCornerPoint inner)) (Some result) }
    ensures near { AreNear result }
{
    let origin = Point { x: 0, y: 0 };
    let Some(b) = inner else {
        return with_point(None, origin);
    };
    let m = Motion { turn, dx: 0, dy: 0 };
    let low = m.point(Point { x: b.x1, y: b.y1 });
    let high = m.point(Point { x: b.x2, y: b.y2 });
    let first = with_point(None, origin);
    with_corners(Some(first), low, high)
}

/// The sum of two numbers in the range of hulls.
pub fn plus(a: i64, b: i64) -> i64
    requires a { IsWithin (2 ^ 36) a }
    requires b { IsWithin (2 ^ 36) b }
    ensures { result ≡ a +ℤ b }
{
    a + b
}

// The bounds of sums of a point and an origin.
fn spread(b: Bounds, x: Interval, y: Interval) -> Bounds
    requires near { AreNear b }
    requires x { IsNearInterval x }
    requires y { IsNearInterval y }
    ensures { IsSpread b x y result }
{
    Bounds {
        x1: plus(b.x1, x.low),
        y1: plus(b.y1, y.low),
        x2: plus(b.x2, x.high),
        y2: plus(b.y2, y.high),
    }
}

/// The bounds with the origins of all elements of an array and their images of the placed cell's
/// bounds; none where an origin is out of range. It takes the same time for every number of
/// elements.
pub fn with_array(bounds: Option<Bounds>, inner: Option<Bounds>, place: &Place) -> Option<Bounds>
    requires rows { 0 < place.now.rows }
    requires columns { 0 < place.now.columns }
    requires near { AreNearIfAny inner }
    ensures { MatchOption result (HasFarOrigin place.now)
        (λ b. Widens bounds (ArrayPoint place.now (IsCornerPoint inner)) (Some b)) }
{
    let Some(origins) = origins_of(place) else {
        return None;
    };
    let all = spread(
        turned_bounds(place.motion.turn, inner),
        origins.x,
        origins.y,
    );
    let low = Point {
        x: all.x1,
        y: all.y1,
    };
    let high = Point {
        x: all.x2,
        y: all.y2,
    };
    Some(with_corners(bounds, low, high))
}
