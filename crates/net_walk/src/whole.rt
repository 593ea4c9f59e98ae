//! Links of a rectangle that covers all squares of a placement's nets.

ghost use Rattle.std.specs.Prelude.{◌≡◌, ◌+◌, ◌<◌, ℕ, true, length, OnOk};
ghost use Rattle.net_link_laws.specs.Windows.{IsHullOf};
ghost use Rattle.net_walk.specs.Held.{AreHeldLists, IsOneOf};
ghost use Rattle.net_walk.specs.Placed.{HasNets};
ghost use Rattle.net_walk.specs.Whole.{IsHeldLink, IsLineLink, IsListLink, IsWhereLink};
ghost use Rattle.net_walk.specs.Whole.{IsWholeLink, WholeLaw};
ghost use Rattle.net_walk.specs.Walk.{IsClose, place_of};
ghost use Rattle.touching_pieces.specs.Pairs.{AddsLinks};

use crate::cells::{Cells, Element};
use crate::held::{HeldLists, hold, nets_at};
use crate::placed::Placed;
use geo_base::Rect;
use link_classes::Link;
use std::alloc::{AllocError, Global};
use touching_pieces::{Joined, Piece};

// Whether the rectangle covers what bounds a placement.
pub(crate) fn is_covered<C: Cells>(cells: &C, element: &Element, rect: &Rect) -> bool
    requires { IsClose element.now.motion }
    ensures { result ≡ true → IsHullOf (C.design cells.now) (C.tables cells.now)
        (place_of element.now) rect.now }
{
    match cells.span(element) {
        None => true,
        Some(span) => span.is_inside(rect),
    }
}

// Adds a link from an item to each that stands so far behind a place as a list tells.
fn push_links(item: u32, nets: &[u32], at: u32, out: &mut Vec<Link>) -> Result<(), AllocError>
    requires { (x : ℕ) → IsOneOf nets.now x → at + x < 4294967296 }
    ensures { OnOk result (AddsLinks (IsListLink item nets.now at) out.old.items out.new.items) }
{
    for net in nets {
        out.push(Link {
            one: item,
            other: at + *net,
        })?;
    }
    Ok(())
}

// Adds a link from an item to each net of a placed cell that holds a square of the conductor.
fn link_held<C: Cells>(
    alloc: Global,
    cells: &C,
    placed: &Placed<'_>,
    item: u32,
    conductor: u32,
    memo: &mut HeldLists,
    out: &mut Vec<Link>,
) -> Result<(), AllocError>
    requires known { conductor < length (C.wiring cells.now).conductors }
    requires placed { HasNets (C.design cells.now) (C.wiring cells.now) (C.tables cells.now)
        placed.now }
    requires lists { AreHeldLists (C.design cells.now) (C.tables cells.now) memo.old.lists.items }
    ensures lists { OnOk result (AreHeldLists (C.design cells.now) (C.tables cells.now)
        memo.new.lists.items) }
    ensures links { OnOk result (AddsLinks (IsHeldLink (C.design cells.now) (C.tables cells.now)
        item placed.now.element.now.cell conductor placed.now.at) out.old.items out.new.items) }
{
    let position = hold(alloc, cells, placed.element.cell, conductor, memo)?;
    let nets = nets_at(&memo.lists, position);
    push_links(item, nets, placed.at, out)?;
    Ok(())
}

// The same of a line's second conductor, where its first is the piece's: nothing where it isn't, or
// where there is no such second one.
fn link_second<C: Cells>(
    alloc: Global,
    cells: &C,
    placed: &Placed<'_>,
    piece: &Piece,
    line: &Joined,
    memo: &mut HeldLists,
    out: &mut Vec<Link>,
) -> Result<(), AllocError>
    requires placed { HasNets (C.design cells.now) (C.wiring cells.now) (C.tables cells.now)
        placed.now }
    requires lists { AreHeldLists (C.design cells.now) (C.tables cells.now) memo.old.lists.items }
    ensures lists { OnOk result (AreHeldLists (C.design cells.now) (C.tables cells.now)
        memo.new.lists.items) }
    ensures links { OnOk result (AddsLinks (IsWhereLink (C.design cells.now) (C.tables cells.now)
        piece.now.item line.now.first piece.now.conductor line.now.second
        placed.now.element.now.cell placed.now.at (length (C.wiring cells.now).conductors))
        out.old.items out.new.items) }
{
    if line.first != piece.conductor {
        return Ok(());
    }
    if line.second >= cells.conductors() {
        return Ok(());
    }
    link_held(alloc, cells, placed, piece.item, line.second, memo, out)?;
    Ok(())
}

// The same of the conductor that the line joins to the piece's, in either order.
fn link_line<C: Cells>(
    alloc: Global,
    cells: &C,
    placed: &Placed<'_>,
    piece: &Piece,
    line: &Joined,
    memo: &mut HeldLists,
    out: &mut Vec<Link>,
) -> Result<(), AllocError>
    requires placed { HasNets (C.design cells.now) (C.wiring cells.now) (C.tables cells.now)
        placed.now }
    requires lists { AreHeldLists (C.design cells.now) (C.tables cells.now) memo.old.lists.items }
    ensures lists { OnOk result (AreHeldLists (C.design cells.now) (C.tables cells.now)
        memo.new.lists.items) }
    ensures links { OnOk result (AddsLinks (IsLineLink (C.design cells.now) (C.tables cells.now)
        line.now piece.now.item piece.now.conductor placed.now.element.now.cell placed.now.at
        (length (C.wiring cells.now).conductors)) out.old.items out.new.items) }
{
    let turned = Joined {
        first: line.second,
        second: line.first,
    };
    link_second(alloc, cells, placed, piece, line, memo, out)?;
    link_second(alloc, cells, placed, piece, &turned, memo, out)?;
    Ok(())
}

/// Adds a link from a piece's item to each net of a placed cell that holds a square of a conductor
/// joined to the piece's. Cost: the links, beside the lists.
pub(crate) fn whole_links<C: Cells>(
    alloc: Global,
    cells: &C,
    placed: &Placed<'_>,
    piece: &Piece,
    joins: &[Joined],
    memo: &mut HeldLists,
    out: &mut Vec<Link>,
) -> Result<(), AllocError>
    requires placed { HasNets (C.design cells.now) (C.wiring cells.now) (C.tables cells.now)
        placed.now }
    requires lists { AreHeldLists (C.design cells.now) (C.tables cells.now) memo.old.lists.items }
    ensures lists { OnOk result (AreHeldLists (C.design cells.now) (C.tables cells.now)
        memo.new.lists.items) }
    ensures links { OnOk result (AddsLinks (IsWholeLink (C.design cells.now) (C.tables cells.now)
        joins.now piece.now.item piece.now.conductor placed.now.element.now.cell placed.now.at
        (length (C.wiring cells.now).conductors)) out.old.items out.new.items) }
{
    let itself = Joined {
        first: piece.conductor,
        second: piece.conductor,
    };
    link_second(alloc, cells, placed, piece, &itself, memo, out)?;
    for line in joins {
        link_line(alloc, cells, placed, piece, line, memo, out)?;
    }
    Ok(())
}

/// What such links say of a cell's items.
pub fn whole_law()
    ensures { WholeLaw }
{}
