//! The pieces of a cell's own rectangles.

ghost use Rattle.std.specs.Prelude.{◌≡◌, ◌+◌, ◌<◌, ◌≤◌, OnOk, length};
ghost use Rattle.net_walk.specs.Walk.{HaveArea};
ghost use Rattle.view_shapes.specs.Pieces.{AddsPieces, IsOfOwn, IsOfOwnAt};

use crate::pieces::{Piece, push_piece};
use crate::wanted::is_marked;
use geo_base::Rect;
use std::alloc::AllocError;

fn push_at(
    own: &[Rect],
    conductor: u32,
    net_of: &[u32],
    at: usize,
    wanted: &[bool],
    r: usize,
    out: &mut Vec<Piece>,
) -> Result<(), AllocError>
    requires area { HaveArea own.now }
    requires inside { r < length own.now }
    requires fits { at + length own.now ≤ length net_of.now }
    ensures { OnOk result (AddsPieces (IsOfOwnAt own.now conductor net_of.now at wanted.now r)
        out.old.items out.new.items) }
{
    let net = net_of[at + r];
    if is_marked(wanted, net) {
        push_piece(out, conductor, net, own[r])?;
        return Ok(());
    }
    Ok(())
}

/// Adds the pieces of a conductor's rectangles in wanted nets; the nets of all stand in a list from
/// a place on. Linear in the rectangles.
pub fn push_own(
    own: &[Rect],
    conductor: u32,
    net_of: &[u32],
    at: usize,
    wanted: &[bool],
    out: &mut Vec<Piece>,
) -> Result<(), AllocError>
    requires area { HaveArea own.now }
    requires fits { at + length own.now ≤ length net_of.now }
    ensures { OnOk result (AddsPieces
        (IsOfOwn own.now conductor net_of.now at wanted.now (length own.now))
        out.old.items out.new.items) }
{
    'rects: for r in 0..own.len() {
        push_at(own, conductor, net_of, at, wanted, r, out)?;
    }
    Ok(())
}
