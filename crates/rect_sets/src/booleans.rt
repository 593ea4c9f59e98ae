//! Booleans of lists of rectangles.

ghost use Rattle.std.specs.Prelude.{◌≡◌, pos, ◌++◌, IfOk, OnOk};
ghost use Rattle.rect_sets.specs.Combined.{IsWeight, left_of, right_of, edges_of};

use crate::row::Edge;
use geo_base::Rect;
use std::alloc::{AllocError, Global};

fn left_of(rect: &Rect, first: i32, second: i32) -> Edge
    ensures { result ≡ left_of first second rect.now }
{
    Edge {
        x: rect.x1,
        y1: rect.y1,
        y2: rect.y2,
        first,
        second,
    }
}

fn right_of(rect: &Rect, first: i32, second: i32) -> Edge
    requires first { IsWeight first }
    requires second { IsWeight second }
    ensures { result ≡ right_of first second rect.now }
{
    Edge {
        x: rect.x2,
        y1: rect.y1,
        y2: rect.y2,
        first: 0 - first,
        second: 0 - second,
    }
}

// The two upright edges of each rectangle.
fn push_edges(
    out: &mut Vec<Edge>,
    rects: &[Rect],
    first: i32,
    second: i32,
) -> Result<(), AllocError>
    requires first { IsWeight first }
    requires second { IsWeight second }
    ensures { OnOk result (out.new.items ≡ out.old.items ++ edges_of first second rects.now) }
{
    for rect in rects {
        out.push(left_of(rect, first, second))?;
        out.push(right_of(rect, first, second))?;
    }
    Ok(())
}

/// The upright edges of two lists: the first weights are of the one, the second of the other.
pub fn edges_of(alloc: Global, a: &[Rect], b: &[Rect]) -> Result<Vec<Edge>, AllocError>
    ensures { IfOk result (λ v. v.items ≡ edges_of (pos 1) (pos 0) a.now
        ++ edges_of (pos 0) (pos 1) b.now) }
{
    let count = a.len().saturating_add(b.len()).saturating_mul(2);
    let mut edges = Vec::with_capacity(alloc, count)?;
    push_edges(&mut edges, a, 1, 0)?;
    push_edges(&mut edges, b, 0, 1)?;
    Ok(edges)
}
