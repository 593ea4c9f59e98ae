//! Points in the data of records.

ghost use Rattle.std.specs.Prelude.{◌≡◌, ◌≤◌, ◌<◌, ◌+◌, ◌++◌, ◌-ℤ◌, true, length, IfOk};
ghost use Rattle.geo_base.specs.Rects.{bounding_box, rect_at};
ghost use Rattle.gds_elements.specs.Data.{coordinate, first_of, first_point, goes_into};
ghost use Rattle.gds_elements.specs.Data.{has_length, hull, is_closed, is_level, is_same};
ghost use Rattle.gds_elements.specs.Data.{is_straight, last_of, points_of, side, step};

use crate::data::coordinate;
use geo_base::{Point, Rect};
use std::alloc::{AllocError, Global};

const ORIGIN: Point = Point { x: 0, y: 0 };

fn first_point(bytes: &[u8]) -> Point
    requires { 8 ≤ length bytes.now }
    ensures { result ≡ first_point bytes.now }
{
    Point {
        x: i64::from(coordinate(bytes, 0)),
        y: i64::from(coordinate(bytes, 4)),
    }
}

/// The points of the data; bytes that are too few for one more are none.
pub(crate) fn points(alloc: Global, body: &[u8]) -> Result<Vec<Point>, AllocError>
    ensures { IfOk result (λ v. v.items ≡ points_of body.now) }
{
    let mut points = Vec::with_capacity(alloc, body.len() / 8)?;
    let mut rest = body;
    while rest.len() >= 8 {
        points.push(first_point(rest))?;
        rest = &rest[8..];
    }
    Ok(points)
}

/// Whether two points are the same.
pub(crate) fn is_same(p: Point, q: Point) -> bool
    ensures { result ≡ is_same p q }
{
    p.x == q.x && p.y == q.y
}

fn is_level(p: Point, q: Point) -> bool
    ensures { result ≡ is_level p q }
{
    p.x == q.x || p.y == q.y
}

/// Whether each point and the next stand one above or beside the other.
pub(crate) fn is_straight(points: &[Point]) -> bool
    ensures { result ≡ is_straight points.now }
{
    points
        .iter()
        .zip(points.iter().skip(1))
        .all(|(p, q)| is_level(*p, *q))
}

// Whether the edge from the last of some points to the first of others isn't slanted.
fn is_led(before: &[Point], points: &[Point]) -> bool
    requires before { 0 < length before.now }
    requires points { 0 < length points.now }
    ensures { result ≡ is_level (last_of before.now) (first_of points.now) }
{
    is_level(before[before.len() - 1], points[0])
}

/// Whether no edge of the points is slanted, nor the one that leads to them from those before, none
/// of whose edges is.
pub(crate) fn is_straight_on(before: &[Point], points: &[Point]) -> bool
    ensures { is_straight before.now ≡ true → result ≡ is_straight (before.now ++ points.now) }
{
    if before.is_empty() {
        return is_straight(points);
    }
    if points.is_empty() {
        return true;
    }
    is_led(before, points) && is_straight(points)
}

/// Whether some point and the next differ.
pub(crate) fn has_length(points: &[Point]) -> bool
    ensures { result ≡ has_length points.now }
{
    points
        .iter()
        .zip(points.iter().skip(1))
        .any(|(p, q)| !is_same(*p, *q))
}

/// The first point, the origin where there is none.
pub(crate) fn first_of(points: &[Point]) -> Point
    ensures { result ≡ first_of points.now }
{
    if points.is_empty() { ORIGIN } else { points[0] }
}

/// Whether the last point is the first.
pub(crate) fn is_closed(points: &[Point]) -> bool
    requires { 0 < length points.now }
    ensures { result ≡ is_closed points.now }
{
    is_same(points[0], points[points.len() - 1])
}

fn with_point(r: Rect, p: Point) -> Rect
    ensures { result ≡ bounding_box r (rect_at p) }
{
    r.bounding_box(&Rect::at(p))
}

/// The rectangle from the least to the greatest coordinates of the points.
pub(crate) fn hull(points: &[Point]) -> Rect
    ensures { result ≡ hull points.now }
{
    points.iter().fold(
        Rect::at(first_of(points)),
        |hull, point| with_point(hull, *point),
    )
}

/// How far the number at the one place is above that at the other.
fn distance(body: &[u8], from: usize, to: usize) -> i64
    requires from { from + 4 ≤ length body.now }
    requires to { to + 4 ≤ length body.now }
    ensures { result ≡ coordinate body.now to -ℤ coordinate body.now from }
{
    i64::from(coordinate(body, to)) - i64::from(coordinate(body, from))
}

/// From the first of an array's three points to the one that begins at the place.
pub(crate) fn side(body: &[u8], at: usize) -> Point
    requires { at ≤ 16 }
    ensures { result ≡ side body.now at }
{
    if body.len() != 24 {
        return ORIGIN;
    }
    let (x, y) = (distance(body, 0, at), distance(body, 4, at + 4));
    Point { x, y }
}

/// Whether a side is a whole number of steps, in x and in y.
pub(crate) fn goes_into(count: u16, side: Point) -> bool
    ensures { result ≡ goes_into count side }
{
    count != 0
        && side.x.unsigned_abs() % u64::from(count) == 0
        && side.y.unsigned_abs() % u64::from(count) == 0
}

/// One of so many equal steps along a side.
pub(crate) fn step(side: Point, count: u16) -> Point
    ensures { result ≡ step side count }
{
    if count == 0 {
        return ORIGIN;
    }
    Point {
        x: side.x / i64::from(count),
        y: side.y / i64::from(count),
    }
}
