//! Pieces of nets in a window, added to a list.

ghost use Rattle.std.specs.Prelude.{◌≡◌, ◌+◌, ◌<◌, ◌≤◌, OnOk, length, ◌∷◌, []};
ghost use Rattle.flat_layout.specs.Plane.{IsIn};
ghost use Rattle.geo_base.specs.Motions.{moved_square};
ghost use Rattle.geo_base.specs.Near.{IsNearRect, IsNearMotion};
ghost use Rattle.geo_base.specs.declared.shapes.Square.{Square};
ghost use Rattle.net_walk.specs.Walk.{AddsPieces, AreInside, AreListed, IsClipped, IsInside};
ghost use Rattle.net_walk.specs.Walk.{IsOfMoved, IsOfOwn, IsOfOwnAt};
ghost use Rattle.net_walk.specs.Windows.{AreOwnNear};

use geo_base::{Motion, Rect};
use net_link_laws::NetPiece;
use std::alloc::{AllocError, Global};

// The part of a rectangle in the window.
fn push_clipped(
    rect: &Rect,
    net: u32,
    window: &Rect,
    out: &mut Vec<NetPiece>,
) -> Result<(), AllocError>
    ensures { OnOk result (AddsPieces window.now (IsClipped window.now net rect.now) out.old.items
        out.new.items) }
{
    let part = rect.common(window);
    if part.is_rect() {
        out.push(NetPiece { net, rect: part })?;
        return Ok(());
    }
    Ok(())
}

// The part of the rectangle at a position in the window.
fn push_at(
    own: &[Rect],
    r: u32,
    net_of: &[u32],
    at: usize,
    window: &Rect,
    out: &mut Vec<NetPiece>,
) -> Result<(), AllocError>
    requires inside { r < length own.now }
    requires fits { at + length own.now ≤ length net_of.now }
    ensures { OnOk result (AddsPieces window.now (IsOfOwnAt window.now own.now net_of.now at r)
        out.old.items out.new.items) }
{
    let r = r as usize;
    push_clipped(&own[r], net_of[at + r], window, out)?;
    Ok(())
}

/// The parts of a cell's own rectangles in the window, by positions that hold all that reach into
/// it; their nets stand in a list from a place on.
pub fn push_own(
    own: &[Rect],
    near: &[u32],
    net_of: &[u32],
    at: usize,
    window: &Rect,
    out: &mut Vec<NetPiece>,
) -> Result<(), AllocError>
    requires near { AreOwnNear own.now window.now near.now }
    requires fits { at + length own.now ≤ length net_of.now }
    ensures { OnOk result (AddsPieces window.now
        (IsOfOwn window.now own.now net_of.now at (length own.now)) out.old.items out.new.items) }
{
    for r in near {
        push_at(own, *r, net_of, at, window, out)?;
    }
    Ok(())
}

// The image of a piece, in the net that stands that far behind a place.
fn push_image(
    piece: &NetPiece,
    motion: &Motion,
    net_of: &[u32],
    at: usize,
    window: &Rect,
    inner: &Rect,
    out: &mut Vec<NetPiece>,
) -> Result<(), AllocError>
    requires listed { AreListed (length net_of.now) at (piece.now ∷ []) }
    requires inside { IsInside piece.now.rect inner.now }
    requires near { IsNearRect inner.now }
    requires near_motion { IsNearMotion motion.now }
    requires into { (m : Square) → IsIn m inner.now → IsIn (moved_square motion.now m) window.now }
    ensures { OnOk result (AddsPieces window.now
        (IsOfMoved motion.now (piece.now ∷ []) net_of.now at) out.old.items out.new.items) }
{
    let _ = window;
    let _ = inner;
    out.push(NetPiece {
        net: net_of[at + piece.net as usize],
        rect: motion.rect(piece.rect),
    })?;
    Ok(())
}

/// The images of pieces that lie in a window which a motion brings into another.
pub fn push_moved(
    pieces: &[NetPiece],
    motion: &Motion,
    net_of: &[u32],
    at: usize,
    window: &Rect,
    inner: &Rect,
    out: &mut Vec<NetPiece>,
) -> Result<(), AllocError>
    requires listed { AreListed (length net_of.now) at pieces.now }
    requires inside { AreInside inner.now pieces.now }
    requires near { IsNearRect inner.now }
    requires near_motion { IsNearMotion motion.now }
    requires into { (m : Square) → IsIn m inner.now → IsIn (moved_square motion.now m) window.now }
    ensures { OnOk result (AddsPieces window.now (IsOfMoved motion.now pieces.now net_of.now at)
        out.old.items out.new.items) }
{
    for piece in pieces {
        push_image(piece, motion, net_of, at, window, inner, out)?;
    }
    Ok(())
}
