//! What is less than 2^30 from the origin.

ghost use Rattle.std.specs.Prelude.{◌≡◌, ◌↔◌, IfOk, IsErrOf, IsTrue};
ghost use Rattle.view_netlist.specs.Drawing.{IsSmallPoint};
ghost use Rattle.view_words.specs.Numbers.{IsSmallRect};
ghost use Rattle.view_drawing.specs.Devices.{IsSmallHull, seen_from};
ghost use Rattle.view_drawing.specs.Far.{IsFarFrom, IsFarHull};

use geo_base::{Point, Rect};
use view_shapes::ShowFault;
use view_words::is_small_rect;

/// Whether both coordinates are small.
pub fn is_small_point(p: Point) -> bool
    ensures { IsTrue result ↔ IsSmallPoint p }
{
    is_small_rect(&Rect {
        x1: p.x,
        y1: p.y,
        x2: p.x,
        y2: p.y,
    })
}

/// A cell's hull; none that reaches too far.
pub fn small_hull(hull: Option<Rect>) -> Result<Option<Rect>, ShowFault>
    ensures hull { IfOk result (λ h. h ≡ hull) }
    ensures small { IfOk result IsSmallHull }
    ensures far { IsErrOf result ShowFault.TooFar → IsFarHull hull }
{
    match hull {
        Some(r) => {
            if is_small_rect(&r) {
                return Ok(Some(r));
            }
            Err(ShowFault::TooFar)
        }
        None => Ok(None),
    }
}

// The rectangle as it is seen from a point.
fn seen_from(p: Point, r: &Rect) -> Rect
    requires point { IsSmallPoint p }
    requires rect { IsSmallRect r.now }
    ensures { result ≡ seen_from p r.now }
{
    Rect {
        x1: r.x1 - p.x,
        y1: r.y1 - p.y,
        x2: r.x2 - p.x,
        y2: r.y2 - p.y,
    }
}

/// The rectangle as it is seen from a point; none where it, or the answer, reaches too far.
pub fn small_from(p: Point, r: &Rect) -> Result<Rect, ShowFault>
    requires { IsSmallPoint p }
    ensures rect { IfOk result (λ seen. seen ≡ seen_from p r.now) }
    ensures small { IfOk result IsSmallRect }
    ensures far { IsErrOf result ShowFault.TooFar → IsFarFrom p r.now }
{
    if !is_small_rect(r) {
        return Err(ShowFault::TooFar);
    }
    let seen = seen_from(p, r);
    if !is_small_rect(&seen) {
        return Err(ShowFault::TooFar);
    }
    Ok(seen)
}
