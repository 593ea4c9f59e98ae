//! The pieces of a placed cell, as its placement brings them.

ghost use Rattle.std.specs.Prelude.{◌≡◌, ◌+◌, ◌<◌, ◌∷◌, [], OnOk, length};
ghost use Rattle.geo_base.specs.Near.{IsNearMotion, IsNearRect};
ghost use Rattle.geo_base.specs.Rects.{IsRect};
ghost use Rattle.view_shapes.specs.Pieces.{AddsPieces, AreListed, AreNear, IsOfMoved};

use crate::pieces::{Piece, push_piece};
use geo_base::Motion;
use std::alloc::AllocError;

fn push_image(
    piece: &Piece,
    motion: &Motion,
    net_of: &[u32],
    at: usize,
    out: &mut Vec<Piece>,
) -> Result<(), AllocError>
    requires listed { at + piece.now.net < length net_of.now }
    requires near_rect { IsNearRect piece.now.rect }
    requires rect { IsRect piece.now.rect }
    requires near { IsNearMotion motion.now }
    ensures { OnOk result (AddsPieces (IsOfMoved motion.now (piece.now ∷ []) net_of.now at)
        out.old.items out.new.items) }
{
    let net = net_of[at + piece.net as usize];
    let image = motion.rect(piece.rect);
    push_piece(out, piece.conductor, net, image)?;
    Ok(())
}

/// Adds the images of pieces, each in the net that stands that far behind a place. Linear in them.
pub fn push_moved(
    pieces: &[Piece],
    motion: &Motion,
    net_of: &[u32],
    at: usize,
    out: &mut Vec<Piece>,
) -> Result<(), AllocError>
    requires listed { AreListed (length net_of.now) at pieces.now }
    requires pieces { AreNear pieces.now }
    requires near { IsNearMotion motion.now }
    ensures { OnOk result (AddsPieces (IsOfMoved motion.now pieces.now net_of.now at)
        out.old.items out.new.items) }
{
    for piece in pieces {
        push_image(piece, motion, net_of, at, out)?;
    }
    Ok(())
}
