//! The fills of paths and boxes.

ghost use Rattle.std.specs.Prelude.{◌≡◌, ◌||◌, IfOk, OnOk};
ghost use Rattle.std.specs.List.{All};
ghost use Rattle.rect_sets.specs.Rects.{covers};
ghost use Rattle.poly_fill.specs.Fills.{low_of, high_of, segment, distinct, segments, in_path};
ghost use Rattle.geo_base.specs.Rects.{has, IsRect};
ghost use Rattle.geo_base.specs.Near.{IsLong, IsLongPoint};
ghost use Rattle.geo_base.specs.declared.shapes.Square.{Square};

use geo_base::{Point, Rect};
use rect_sets::RectSet;
use std::alloc::{AllocError, Global};

// The least coordinate of a segment from a to b that is lengthened at both ends.
fn low_of(a: i64, b: i64, begin: i64, end: i64) -> i64
    requires a { IsLong a }
    requires b { IsLong b }
    requires begin { IsLong begin }
    requires end { IsLong end }
    ensures { result ≡ low_of a b begin end }
{
    if a <= b { a - begin } else { b - end }
}

// Its greatest.
fn high_of(a: i64, b: i64, begin: i64, end: i64) -> i64
    requires a { IsLong a }
    requires b { IsLong b }
    requires begin { IsLong begin }
    requires end { IsLong end }
    ensures { result ≡ high_of a b begin end }
{
    if a <= b { b + end } else { a + begin }
}

// The rectangle of the segment from a to b, lengthened at both ends and widened to both sides.
fn segment(half: i64, begin: i64, end: i64, a: Point, b: Point) -> Rect
    requires half { IsLong half }
    requires begin { IsLong begin }
    requires end { IsLong end }
    requires a { IsLongPoint a }
    requires b { IsLongPoint b }
    ensures { result ≡ segment half begin end a b }
{
    if a.y == b.y {
        Rect {
            x1: low_of(a.x, b.x, begin, end),
            y1: a.y - half,
            x2: high_of(a.x, b.x, begin, end),
            y2: a.y + half,
        }
    } else {
        Rect {
            x1: a.x - half,
            y1: low_of(a.y, b.y, begin, end),
            x2: a.x + half,
            y2: high_of(a.y, b.y, begin, end),
        }
    }
}

// Adds a rectangle, where it has squares.
fn push_rect(rects: &mut Vec<Rect>, r: Rect) -> Result<(), AllocError>
    requires { All IsRect rects.old.items }
    ensures sound { OnOk result (All IsRect rects.new.items) }
    ensures covers { OnOk result ((s : Square) → covers rects.new.items s
        ≡ (covers rects.old.items s || has r s)) }
{
    if r.is_rect() {
        rects.push(r)?;
    }
    Ok(())
}

// The points without those that equal the one before them.
fn distinct_points(alloc: Global, points: &[Point]) -> Result<Vec<Point>, AllocError>
    ensures { IfOk result (λ v. v.items ≡ distinct points.now) }
{
    let mut kept = Vec::new(alloc);
    if let [first, rest @ ..] = points {
        kept.push(*first)?;
        let mut last = *first;
        for point in rest {
            if last != *point {
                kept.push(*point)?;
                last = *point;
            }
        }
    }
    Ok(kept)
}

// The rectangles of the segments, those without squares left out.
fn segment_rects(
    alloc: Global,
    points: &[Point],
    half: i64,
    begin: i64,
    end: i64,
) -> Result<Vec<Rect>, AllocError>
    requires points { All IsLongPoint points.now }
    requires half { IsLong half }
    requires begin { IsLong begin }
    requires end { IsLong end }
    ensures sound { IfOk result (λ v. All IsRect v.items) }
    ensures covers { IfOk result (λ v. (s : Square) → covers v.items s
        ≡ covers (segments half begin end points.now) s) }
{
    let mut rects = Vec::new(alloc);
    if let [first, rest @ ..] = points {
        let mut from = *first;
        let mut before = begin;
        for (i, to) in rest.iter().enumerate() {
            let after = if i + 1 == rest.len() { end } else { half };
            push_rect(&mut rects, segment(half, before, after, from, *to))?;
            from = *to;
            before = half;
        }
    }
    Ok(rects)
}

/// The squares of a path: of the rectangles of its segments, each widened by `half` to both sides
/// and lengthened by `half` at inner joints, by `begin` at the first point and by `end` at the
/// last. Equal neighbours count once; a rectangle without width or height has no square; negative
/// lengths shorten. All numbers are database units of 32 bits with a sign, as a stream's are, so
/// that each coordinate of the path lies within plus or minus 2^32. O(p log p + k) for p points and
/// k crossings of edges and strips. An `Err` is want of memory.
pub fn fill_path(
    alloc: Global,
    points: &[Point],
    half: i64,
    begin: i64,
    end: i64,
) -> Result<RectSet, AllocError>
    requires points { All IsLongPoint points.now }
    requires half { IsLong half }
    requires begin { IsLong begin }
    requires end { IsLong end }
    ensures { IfOk result (λ r. (s : Square) → covers r s ≡ in_path half begin end points.now s) }
{
    let corners = distinct_points(alloc, points)?;
    let rects = segment_rects(alloc, &corners, half, begin, end)?;
    let set = RectSet::canon(alloc, rects)?;
    Ok(set)
}

/// The squares of a rectangle, none where it has no width or height. O(1). An `Err` is want of
/// memory.
pub fn fill_box(alloc: Global, r: Rect) -> Result<RectSet, AllocError>
    ensures { IfOk result (λ a. (s : Square) → covers a s ≡ has r s) }
{
    let mut rects = Vec::new(alloc);
    push_rect(&mut rects, r)?;
    let set = RectSet::canon(alloc, rects)?;
    Ok(set)
}
