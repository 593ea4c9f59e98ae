//! Links between a cell's own rectangles.

ghost use Rattle.std.specs.Prelude.{◌≡◌, ◌+◌, ◌++◌, ◌≤◌, ◌↔◌, ℕ, length, OnOk, IfOk, []};
ghost use Rattle.flat_layout.specs.Regions.{IsJoined};
ghost use Rattle.net_link_laws.specs.Places.{owned_before};
ghost use Rattle.net_walk.specs.Owned.{AreOwnLinks, IsOfRects, IsOwned, owned_pieces, rect_pieces};
ghost use Rattle.net_walk.specs.Seen.{AddsSeen};
ghost use Rattle.net_walk.specs.Walk.{HaveArea};
ghost use Rattle.touching_pieces.specs.Pairs.{AreJoined};

use crate::cells::Cells;
use crate::walk::owned_before;
use geo_base::Rect;
use link_classes::Link;
use std::alloc::{AllocError, Global};
use touching_pieces::{Joined, Piece, touching_links};

// Rectangles of a conductor as pieces, whose items stand from a place on.
pub(crate) fn push_rects(
    own: &[Rect],
    conductor: u32,
    at: u32,
    out: &mut Vec<Piece>,
) -> Result<(), AllocError>
    requires filled { HaveArea own.now }
    requires room { at + length own.now ≤ 4294967295 }
    ensures seen { OnOk result (AddsSeen (IsOfRects own.now conductor at (length own.now))
        out.old.items out.new.items) }
    ensures list { OnOk result (out.new.items ≡ out.old.items ++ rect_pieces conductor at own.now) }
{
    for r in 0..own.len() {
        out.push(Piece {
            conductor,
            rect: own[r],
            item: at + r as u32,
        })?;
    }
    Ok(())
}

// A cell's own rectangles as pieces, each at the place of its item. Room is asked for all at once.
pub(crate) fn own_pieces<C: Cells>(
    alloc: Global,
    cells: &C,
    cell: u32,
) -> Result<Vec<Piece>, AllocError>
    requires { owned_before (C.tables cells.now) cell (length (C.wiring cells.now).conductors)
        ≤ 4294967295 }
    ensures seen { IfOk result (λ v. AddsSeen
        (IsOwned (C.tables cells.now) cell (length (C.wiring cells.now).conductors)) [] v.items) }
    ensures list { IfOk result (λ v. v.items
        ≡ owned_pieces (C.tables cells.now) cell (length (C.wiring cells.now).conductors)) }
{
    let count = owned_before(cells, cell, cells.conductors());
    let mut out = Vec::with_capacity(alloc, count)?;
    let mut at: u32 = 0;
    for conductor in 0..cells.conductors() {
        let own = cells.own(cell, conductor);
        push_rects(own, conductor, at, &mut out)?;
        at += own.len() as u32;
    }
    Ok(out)
}

/// Links whose chains join the items of a cell's own rectangles that touch; each is of two such.
/// Near n log n for n rectangles, also where many lie on one another, and a pass over them for each
/// conductor and each line. An `Err` is want of memory.
pub fn own_links<C: Cells>(
    alloc: Global,
    cells: &C,
    cell: u32,
    joins: &[Joined],
) -> Result<Vec<Link>, AllocError>
    requires room { owned_before (C.tables cells.now) cell (length (C.wiring cells.now).conductors)
        ≤ 4294967295 }
    requires joins { (c e : ℕ) → AreJoined joins.now c e ↔ IsJoined (C.wiring cells.now) c e }
    ensures { IfOk result (λ v. AreOwnLinks (C.design cells.now) (C.wiring cells.now)
        (C.tables cells.now) cell v.items) }
{
    let pieces = own_pieces(alloc, cells, cell)?;
    let links = touching_links(alloc, &pieces, cells.conductors(), joins)?;
    Ok(links)
}
