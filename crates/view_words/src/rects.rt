//! Rectangles, each by the step from the one before.

ghost use Rattle.std.specs.Prelude.{◌≡◌, ◌++◌, IfOk, OnOk};
ghost use Rattle.std.specs.List.{All};
ghost use Rattle.view_words.specs.Numbers.{IsSmall, IsSmallRect};
ghost use Rattle.view_words.specs.Steps.{last_corner, step_row, step_rows, step_text, step_to};
ghost use Rattle.view_words.specs.Steps.{steps, upper_right};

use crate::numbers::push_pair;
use crate::words::push_word;
use geo_base::{Point, Rect};
use std::alloc::{AllocError, Global};

// A rectangle as the reader takes it: the step from a corner to its lower left corner, its width
// and its height.
#[derive(Clone, Copy, Debug, PartialEq, Eq)]
struct Step {
    dx: i64,
    dy: i64,
    width: i64,
    height: i64,
}

fn step_to(from: Point, r: &Rect) -> Step
    requires x { IsSmall from.x }
    requires y { IsSmall from.y }
    requires rect { IsSmallRect r.now }
    ensures { result ≡ step_to from r.now }
{
    Step {
        dx: r.x1 - from.x,
        dy: r.y1 - from.y,
        width: r.x2 - r.x1,
        height: r.y2 - r.y1,
    }
}

fn push_step(alloc: Global, out: &mut Vec<u8>, step: Step) -> Result<(), AllocError>
    ensures { OnOk result (out.new.items ≡ out.old.items ++ step_text step) }
{
    push_pair(alloc, out, step.dx, step.dy)?;
    out.push(b' ')?;
    push_pair(alloc, out, step.width, step.height)?;
    Ok(())
}

/// Appends the step from a corner to a rectangle, its width and its height.
pub fn push_box(alloc: Global, out: &mut Vec<u8>, from: Point, r: &Rect) -> Result<(), AllocError>
    requires x { IsSmall from.x }
    requires y { IsSmall from.y }
    requires rect { IsSmallRect r.now }
    ensures { OnOk result (out.new.items ≡ out.old.items ++ step_text (step_to from r.now)) }
{
    let step = step_to(from, r);
    push_step(alloc, out, step)
}

/// Appends the row of a rectangle of a layer, by the step from a corner.
pub fn push_rect(
    alloc: Global,
    out: &mut Vec<u8>,
    layer: &[u8],
    from: Point,
    r: &Rect,
) -> Result<(), AllocError>
    requires x { IsSmall from.x }
    requires y { IsSmall from.y }
    requires rect { IsSmallRect r.now }
    ensures { OnOk result (out.new.items ≡ out.old.items
        ++ step_row layer.now (step_to from r.now)) }
{
    out.extend_from_slice(b"\n   R(")?;
    push_word(out, layer)?;
    out.push(b' ')?;
    push_box(alloc, out, from, r)?;
    out.push(b')')?;
    Ok(())
}

/// The corner from which the step to the rectangle behind this one goes.
pub fn upper_right(r: &Rect) -> Point
    ensures { result ≡ upper_right r.now }
{
    Point { x: r.x2, y: r.y2 }
}

/// Appends a row for each rectangle of a layer, the first by the step from a corner; where the next
/// step begins. Linear in the rows.
pub fn push_rects(
    alloc: Global,
    out: &mut Vec<u8>,
    layer: &[u8],
    from: Point,
    rects: &[Rect],
) -> Result<Point, AllocError>
    requires x { IsSmall from.x }
    requires y { IsSmall from.y }
    requires rects { All IsSmallRect rects.now }
    ensures rows { OnOk result (out.new.items
        ≡ out.old.items ++ step_rows layer.now (steps from rects.now)) }
    ensures corner { IfOk result (λ p. p ≡ last_corner from rects.now) }
{
    let mut corner = from;
    let mut rest = rects;
    'rects: while let [r, more @ ..] = rest {
        push_rect(alloc, out, layer, corner, r)?;
        corner = upper_right(r);
        rest = more;
    }
    Ok(corner)
}
