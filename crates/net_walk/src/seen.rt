//! Pieces of a placed cell's nets as the cell sees them.

ghost use Rattle.std.specs.Prelude.{◌≡◌, ◌<◌, OnOk, IfOk, length, ◌∷◌, []};
ghost use Rattle.geo_base.specs.Near.{IsNearRect, IsNearMotion};
ghost use Rattle.net_walk.specs.Pairs.{PairLaw};
ghost use Rattle.net_walk.specs.Placed.{HasNets, IsSight};
ghost use Rattle.net_walk.specs.Seen.{AddsSeen, AreLinksOver, HaveItems, IsJoinedSeen, IsSeen};
ghost use Rattle.net_walk.specs.Seen.{IsLineSeen, IsSeenAt, IsSeenOf, IsSeenOfTwo, IsSeenWhere};
ghost use Rattle.net_walk.specs.Walk.{AreInside, IsInside, place_of};

use crate::cells::Cells;
use crate::placed::{Placed, Sight};
use crate::walk::{collect_nets, part_of};
use geo_base::{Motion, Rect};
use link_classes::Link;
use net_link_laws::NetPiece;
use std::alloc::{AllocError, Global};
use touching_pieces::{Joined, Piece, touching_links};

fn push_one(
    piece: &NetPiece,
    motion: &Motion,
    conductor: u32,
    at: u32,
    inner: &Rect,
    out: &mut Vec<Piece>,
) -> Result<(), AllocError>
    requires items { HaveItems at (piece.now ∷ []) }
    requires inside { IsInside piece.now.rect inner.now }
    requires near { IsNearRect inner.now }
    requires near_motion { IsNearMotion motion.now }
    ensures { OnOk result (AddsSeen (IsSeenOf motion.now (piece.now ∷ []) conductor at)
        out.old.items out.new.items) }
{
    let _ = inner;
    out.push(Piece {
        conductor,
        rect: motion.rect(piece.rect),
        item: at + piece.net,
    })?;
    Ok(())
}

fn push_seen(
    pieces: &[NetPiece],
    motion: &Motion,
    conductor: u32,
    at: u32,
    inner: &Rect,
    out: &mut Vec<Piece>,
) -> Result<(), AllocError>
    requires items { HaveItems at pieces.now }
    requires inside { AreInside inner.now pieces.now }
    requires near { IsNearRect inner.now }
    requires near_motion { IsNearMotion motion.now }
    ensures { OnOk result (AddsSeen (IsSeenOf motion.now pieces.now conductor at) out.old.items
        out.new.items) }
{
    for piece in pieces {
        push_one(piece, motion, conductor, at, inner, out)?;
    }
    Ok(())
}

// What the nets of a placed cell hold of a conductor.
fn see_conductor<C: Cells>(
    alloc: Global,
    cells: &C,
    sight: &Sight<'_>,
    conductor: u32,
    out: &mut Vec<Piece>,
) -> Result<(), AllocError>
    requires known { conductor < length (C.wiring cells.now).conductors }
    requires sight { IsSight (C.design cells.now) (C.wiring cells.now) (C.tables cells.now)
        sight.now }
    ensures { OnOk result (AddsSeen (IsSeenAt (C.design cells.now) (C.tables cells.now)
        (place_of sight.now.placed.element.now) sight.now.window.now sight.now.placed.at conductor)
        out.old.items out.new.items) }
{
    let element = sight.placed.element;
    let below = collect_nets(alloc, cells, element.cell, conductor, &sight.inner)?;
    push_seen(
        &below,
        &element.motion,
        conductor,
        sight.placed.at,
        &sight.inner,
        out,
    )?;
    Ok(())
}

fn see_part<C: Cells>(
    alloc: Global,
    cells: &C,
    sight: &Sight<'_>,
    out: &mut Vec<Piece>,
) -> Result<(), AllocError>
    requires sight { IsSight (C.design cells.now) (C.wiring cells.now) (C.tables cells.now)
        sight.now }
    ensures { OnOk result (AddsSeen (IsSeen (C.design cells.now) (C.tables cells.now)
        (place_of sight.now.placed.element.now) sight.now.window.now sight.now.placed.at
        (length (C.wiring cells.now).conductors)) out.old.items out.new.items) }
{
    for conductor in 0..cells.conductors() {
        see_conductor(alloc, cells, sight, conductor, out)?;
    }
    Ok(())
}

/// What the nets of a placed cell hold in the window, as pieces of the items that stand from its
/// place on.
pub fn see<C: Cells>(
    alloc: Global,
    cells: &C,
    placed: &Placed<'_>,
    window: &Rect,
    out: &mut Vec<Piece>,
) -> Result<(), AllocError>
    requires placed { HasNets (C.design cells.now) (C.wiring cells.now) (C.tables cells.now)
        placed.now }
    requires near { IsNearRect window.now }
    ensures { OnOk result (AddsSeen (IsSeen (C.design cells.now) (C.tables cells.now)
        (place_of placed.now.element.now) window.now placed.now.at
        (length (C.wiring cells.now).conductors)) out.old.items out.new.items) }
{
    match part_of(cells, placed.element, window) {
        None => Ok(()),
        Some(inner) => {
            let sight = Sight {
                placed: *placed,
                window,
                inner,
            };
            see_part(alloc, cells, &sight, out)
        }
    }
}

// The same of a line's second conductor, where its first is this one: nothing where it isn't, or
// where there is no such second one.
fn see_second<C: Cells>(
    alloc: Global,
    cells: &C,
    sight: &Sight<'_>,
    line: &Joined,
    conductor: u32,
    out: &mut Vec<Piece>,
) -> Result<(), AllocError>
    requires sight { IsSight (C.design cells.now) (C.wiring cells.now) (C.tables cells.now)
        sight.now }
    ensures { OnOk result (AddsSeen (IsSeenWhere (C.design cells.now) (C.tables cells.now)
        line.now.first conductor line.now.second (place_of sight.now.placed.element.now)
        sight.now.window.now sight.now.placed.at (length (C.wiring cells.now).conductors))
        out.old.items out.new.items) }
{
    if line.first != conductor {
        return Ok(());
    }
    if line.second >= cells.conductors() {
        return Ok(());
    }
    see_conductor(alloc, cells, sight, line.second, out)?;
    Ok(())
}

// The same of the conductor that the line joins to this one, in either order.
fn see_line<C: Cells>(
    alloc: Global,
    cells: &C,
    sight: &Sight<'_>,
    line: &Joined,
    conductor: u32,
    out: &mut Vec<Piece>,
) -> Result<(), AllocError>
    requires sight { IsSight (C.design cells.now) (C.wiring cells.now) (C.tables cells.now)
        sight.now }
    ensures { OnOk result (AddsSeen (IsLineSeen (C.design cells.now) (C.tables cells.now) line.now
        conductor (place_of sight.now.placed.element.now) sight.now.window.now sight.now.placed.at
        (length (C.wiring cells.now).conductors)) out.old.items out.new.items) }
{
    see_second(alloc, cells, sight, line, conductor, out)?;
    let turned = Joined {
        first: line.second,
        second: line.first,
    };
    see_second(alloc, cells, sight, &turned, conductor, out)?;
    Ok(())
}

// The same of each that is joined to this one: of itself, and then line by line. A line that stands
// twice brings its pieces twice.
fn see_joined_part<C: Cells>(
    alloc: Global,
    cells: &C,
    sight: &Sight<'_>,
    conductor: u32,
    joins: &[Joined],
    out: &mut Vec<Piece>,
) -> Result<(), AllocError>
    requires sight { IsSight (C.design cells.now) (C.wiring cells.now) (C.tables cells.now)
        sight.now }
    ensures { OnOk result (AddsSeen (IsJoinedSeen (C.design cells.now) (C.tables cells.now)
        joins.now conductor (place_of sight.now.placed.element.now) sight.now.window.now
        sight.now.placed.at (length (C.wiring cells.now).conductors)) out.old.items out.new.items) }
{
    let itself = Joined {
        first: conductor,
        second: conductor,
    };
    see_second(alloc, cells, sight, &itself, conductor, out)?;
    for line in joins {
        see_line(alloc, cells, sight, line, conductor, out)?;
    }
    Ok(())
}

/// What the nets of a placed cell hold in the window of the conductors that are joined to this one.
pub fn see_joined<C: Cells>(
    alloc: Global,
    cells: &C,
    placed: &Placed<'_>,
    window: &Rect,
    conductor: u32,
    joins: &[Joined],
    out: &mut Vec<Piece>,
) -> Result<(), AllocError>
    requires placed { HasNets (C.design cells.now) (C.wiring cells.now) (C.tables cells.now)
        placed.now }
    requires near { IsNearRect window.now }
    ensures { OnOk result (AddsSeen (IsJoinedSeen (C.design cells.now) (C.tables cells.now)
        joins.now conductor (place_of placed.now.element.now) window.now placed.now.at
        (length (C.wiring cells.now).conductors)) out.old.items out.new.items) }
{
    match part_of(cells, placed.element, window) {
        None => Ok(()),
        Some(inner) => {
            let sight = Sight {
                placed: *placed,
                window,
                inner,
            };
            see_joined_part(alloc, cells, &sight, conductor, joins, out)
        }
    }
}

/// Links whose chains join the items of two placed cells' nets that touch in the window. Two walks
/// a conductor, and near n log n for n pieces that they find. An `Err` is want of memory.
pub fn pair_links<C: Cells>(
    alloc: Global,
    cells: &C,
    one: &Placed<'_>,
    other: &Placed<'_>,
    window: &Rect,
    joins: &[Joined],
) -> Result<Vec<Link>, AllocError>
    requires one { HasNets (C.design cells.now) (C.wiring cells.now) (C.tables cells.now) one.now }
    requires other { HasNets (C.design cells.now) (C.wiring cells.now) (C.tables cells.now)
        other.now }
    requires near { IsNearRect window.now }
    ensures { IfOk result (λ v. AreLinksOver joins.now
        (IsSeenOfTwo (C.design cells.now) (C.tables cells.now) window.now
        (length (C.wiring cells.now).conductors) (place_of one.now.element.now) one.now.at
        (place_of other.now.element.now) other.now.at) v.items) }
{
    let mut pieces = Vec::new(alloc);
    see(alloc, cells, one, window, &mut pieces)?;
    see(alloc, cells, other, window, &mut pieces)?;
    let links = touching_links(alloc, &pieces, cells.conductors(), joins)?;
    Ok(links)
}

/// What the links of a pair of placements say of a cell's items.
pub fn pair_law()
    ensures { PairLaw }
{}
