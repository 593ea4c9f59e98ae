//! Sets from lists of rectangles.

ghost use Rattle.std.specs.Prelude.{◌≡◌, true, IfOk};
ghost use Rattle.std.specs.List.{All};
ghost use Rattle.geo_base.specs.Rects.{IsRect};
ghost use Rattle.rect_sets.specs.Near.{IsNearSet};

use geo_base::{Op, Rect};
use rect_sets::{Edge, RectSet, sweep};
use std::alloc::{AllocError, Global};

/// Whether the rectangle has a square.
pub fn is_rect(rect: &Rect) -> bool
    ensures { result ≡ true → IsRect rect.now }
{
    rect.x1 < rect.x2 && rect.y1 < rect.y2
}

// Those with a square.
fn with_area(alloc: Global, rects: &[Rect]) -> Result<Vec<Rect>, AllocError>
    ensures { IfOk result (λ r. All IsRect r.items) }
{
    let mut out = Vec::new(alloc);
    for rect in rects {
        if is_rect(rect) {
            out.push(*rect)?;
        }
    }
    Ok(out)
}

/// The union of some rectangles; those without area add nothing.
pub fn set_of(alloc: Global, rects: &[Rect]) -> Result<RectSet, AllocError> {
    let kept = with_area(alloc, rects)?;
    let set = RectSet::canon(alloc, kept)?;
    Ok(set)
}

/// The part of a set within plus or minus 2^40.
pub fn near_part(alloc: Global, set: &RectSet) -> Result<RectSet, AllocError>
    ensures { IfOk result (λ r. IsNearSet r) }
{
    let near = Rect {
        x1: -1_099_511_627_776,
        y1: -1_099_511_627_776,
        x2: 1_099_511_627_776,
        y2: 1_099_511_627_776,
    };
    let part = set.window(alloc, near)?;
    Ok(part)
}

/// A rectangle as the sweep of its two upright edges.
pub fn swept(alloc: Global, r: Rect) -> Result<RectSet, AllocError>
    requires { IsRect r }
{
    let mut edges = Vec::new(alloc);
    edges.push(Edge {
        x: r.x2,
        y1: r.y1,
        y2: r.y2,
        first: -1,
        second: 0,
    })?;
    edges.push(Edge {
        x: r.x1,
        y1: r.y1,
        y2: r.y2,
        first: 1,
        second: 0,
    })?;
    let set = sweep(alloc, edges, Op::Or)?;
    Ok(set)
}
