//! Parts and images of lists of rectangles.

ghost use Rattle.std.specs.Prelude.{◌≡◌, ◌++◌, IfOk, OnOk, [], ◌∷◌};
ghost use Rattle.std.specs.List.{All};
ghost use Rattle.geo_base.specs.Rects.{IsRect};
ghost use Rattle.geo_base.specs.Near.{IsNearRect, IsNearMotion};
ghost use Rattle.geo_base.specs.Motions.{moved_square};
ghost use Rattle.geo_base.specs.declared.shapes.Square.{Square};
ghost use Rattle.rect_sets.specs.Rects.{covers};
ghost use Rattle.rect_sets.specs.Moves.{shift, shifted, meeting};

use geo_base::{Motion, Rect};
use std::alloc::{AllocError, Global};

fn push_meeting(out: &mut Vec<Rect>, rect: &Rect, w: &Rect) -> Result<(), AllocError>
    ensures { OnOk result (out.new.items ≡ out.old.items ++ meeting w.now (rect.now ∷ [])) }
{
    if rect.meets(w) {
        out.push(*rect)?;
    }
    Ok(())
}

/// Those that share a square with the window.
pub fn meeting(alloc: Global, rects: &[Rect], w: &Rect) -> Result<Vec<Rect>, AllocError>
    ensures { IfOk result (λ r. r.items ≡ meeting w.now rects.now) }
{
    let mut out = Vec::new(alloc);
    for rect in rects {
        push_meeting(&mut out, rect, w)?;
    }
    Ok(out)
}

fn shift(rect: &Rect, m: &Motion) -> Rect
    requires rect { IsNearRect rect.now }
    requires motion { IsNearMotion m.now }
    ensures { result ≡ shift m.now.dx m.now.dy rect.now }
{
    Rect {
        x1: rect.x1 + m.dx,
        y1: rect.y1 + m.dy,
        x2: rect.x2 + m.dx,
        y2: rect.y2 + m.dy,
    }
}

/// The rectangles after the shift of a motion, in the same order.
pub fn shifted(alloc: Global, rects: &[Rect], m: &Motion) -> Result<Vec<Rect>, AllocError>
    requires rects { All IsNearRect rects.now }
    requires motion { IsNearMotion m.now }
    ensures { IfOk result (λ r. r.items ≡ shifted m.now.dx m.now.dy rects.now) }
{
    let mut out = Vec::new(alloc);
    for rect in rects {
        out.push(shift(rect, m))?;
    }
    Ok(out)
}

/// The images of the rectangles.
pub fn images(alloc: Global, rects: &[Rect], m: &Motion) -> Result<Vec<Rect>, AllocError>
    requires rects { All IsRect rects.now }
    requires near { All IsNearRect rects.now }
    requires motion { IsNearMotion m.now }
    ensures rects { IfOk result (λ r. All IsRect r.items) }
    ensures same { IfOk result (λ r. (s : Square) → covers r.items (moved_square m.now s)
        ≡ covers rects.now s) }
{
    let mut out = Vec::new(alloc);
    for rect in rects {
        out.push(m.rect(*rect))?;
    }
    Ok(out)
}
