//! The fill of a boundary.

ghost use Rattle.std.specs.Prelude.{◌≡◌, ◌++◌, IfOk, OnOk};
ghost use Rattle.rect_sets.specs.Rects.{covers};
ghost use Rattle.poly_fill.specs.Fills.{in_boundary};
ghost use Rattle.poly_fill.specs.Edges.{edges_between, edges_along};
ghost use Rattle.geo_base.specs.Outlines.{IsClosed};
ghost use Rattle.geo_base.specs.declared.shapes.Square.{Square};

use crate::outline::outlined;
use crate::path::fill_box;
use geo_base::{Op, Point};
use rect_sets::{Edge, RectSet, sweep};
use std::alloc::{AllocError, Global};

// Adds the edge from a to b, where it is vertical.
fn push_edge(edges: &mut Vec<Edge>, a: Point, b: Point) -> Result<(), AllocError>
    ensures { OnOk result (edges.new.items ≡ edges.old.items ++ edges_between a b) }
{
    let x = a.x;
    let second = 0;
    if a.y < b.y {
        edges.push(Edge {
            x,
            y1: a.y,
            y2: b.y,
            first: 1,
            second,
        })?;
    } else if b.y < a.y {
        edges.push(Edge {
            x,
            y1: b.y,
            y2: a.y,
            first: -1,
            second,
        })?;
    }
    Ok(())
}

// The vertical edges of a line of points.
fn edges_along(alloc: Global, points: &[Point]) -> Result<Vec<Edge>, AllocError>
    ensures { IfOk result (λ v. v.items ≡ edges_along points.now) }
{
    let mut edges = Vec::new(alloc);
    if let [first, rest @ ..] = points {
        let mut from = *first;
        for to in rest {
            push_edge(&mut edges, from, *to)?;
            from = *to;
        }
    }
    Ok(edges)
}

/// The squares round whose centres the closed line of points winds a number of times that isn't 0.
/// The points are in database units, the last is the first, and neighbours share x or y. O(p log p
/// + k) for p points and k crossings of edges and strips; O(1) for the outline of a rectangle. An
/// `Err` is want of memory.
pub fn fill_boundary(alloc: Global, points: &[Point]) -> Result<RectSet, AllocError>
    requires { IsClosed points.now }
    ensures { IfOk result (λ r. (s : Square) → covers r s ≡ in_boundary points.now s) }
{
    if let Some(rect) = outlined(points) {
        let set = fill_box(alloc, rect)?;
        return Ok(set);
    }
    let edges = edges_along(alloc, points)?;
    let set = sweep(alloc, edges, Op::Or)?;
    Ok(set)
}
