//! Pairs of a cell's own rectangles and placements that may touch: where a placed cell is known to
//! hold nothing that is joined to the rectangle's conductor, there is no pair.

ghost use Rattle.std.specs.Prelude.{◌≡◌, ◌+◌, ◌<◌, ◌≤◌, ◌↔◌, ℕ, false, length};
ghost use Rattle.std.specs.Prelude.{IfOk, OnOk};
ghost use Rattle.flat_layout.specs.Regions.{IsJoined};
ghost use Rattle.net_link_laws.specs.Places.{owned_before, places_of};
ghost use Rattle.net_walk.specs.Held.{IsOneOf};
ghost use Rattle.net_walk.specs.Partners.{AddsPartner, AddsPartners, ArePartnerPieces};
ghost use Rattle.net_walk.specs.Partners.{ArePartners, AreSpans, Keeps, TouchNone};
ghost use Rattle.net_walk.specs.Seen.{JoinsTwo};
ghost use Rattle.net_walk.specs.Walk.{HasNone};
ghost use Rattle.touching_pieces.specs.Pairs.{AreJoined};

use crate::cells::{Cells, Element};
use crate::children::span_pieces;
use crate::own::push_rects;
use link_classes::Link;
use std::alloc::{AllocError, Global};
use touching_pieces::{Joined, Piece, touches, touching_pairs};

// What bounds each placement of a cell, as pieces of the placements' numbers; as items these are
// counted from the number of the cell's own rectangles on.
#[derive(Clone, Copy)]
struct Spans<'a> {
    cell: u32,
    pieces: &'a [Piece],
    from: u32,
}

// Rectangles so few are held against what bounds each placement.
const FEW: usize = 8;

// Adds the other of two conductors, where the one is this.
fn push_where(one: u32, conductor: u32, other: u32, out: &mut Vec<u32>) -> Result<(), AllocError>
    ensures kept { OnOk result (Keeps out.old.items out.new.items) }
    ensures found { OnOk result (one ≡ conductor → IsOneOf out.new.items other) }
{
    if one != conductor {
        return Ok(());
    }
    out.push(other)?;
    Ok(())
}

// Adds the conductor that the line joins to this one, in either order.
fn push_line(line: &Joined, conductor: u32, out: &mut Vec<u32>) -> Result<(), AllocError>
    ensures kept { OnOk result (Keeps out.old.items out.new.items) }
    ensures found { OnOk result ((e : ℕ) → JoinsTwo line.now conductor e
        → IsOneOf out.new.items e) }
{
    let first = line.first;
    let second = line.second;
    push_where(first, conductor, second, out)?;
    push_where(second, conductor, first, out)?;
    Ok(())
}

// This conductor and those that are joined to it.
fn joined_to(alloc: Global, conductor: u32, joins: &[Joined]) -> Result<Vec<u32>, AllocError>
    ensures { IfOk result (λ v. (e : ℕ) → AreJoined joins.now conductor e → IsOneOf v.items e) }
{
    let mut out = Vec::new(alloc);
    out.push(conductor)?;
    for line in joins {
        push_line(line, conductor, &mut out)?;
    }
    Ok(out)
}

// Whether nets of a cell may hold something of one of these conductors.
fn may_hold<C: Cells>(cells: &C, cell: u32, conductors: &[u32]) -> bool
    ensures { result ≡ false → (e : ℕ) → IsOneOf conductors.now e
        → HasNone (C.design cells.now) (C.tables cells.now) cell e }
{
    for conductor in conductors {
        if !cells.is_bare(cell, *conductor) {
            return true;
        }
    }
    false
}

// Whether a rectangle may touch what bounds a placement. Where they are many, none is asked.
fn may_touch(ones: &[Piece], span: &Piece) -> bool
    ensures { result ≡ false → TouchNone ones.now span.now.rect }
{
    if ones.len() > FEW {
        return true;
    }
    for one in ones {
        if touches(&one.rect, &span.rect) {
            return true;
        }
    }
    false
}

// Adds what bounds a placement, counted from a number on, where a rectangle may touch it and its
// nets may hold something of one of these conductors.
fn push_partner<C: Cells>(
    cells: &C,
    element: &Element,
    span: &Piece,
    ones: &[Piece],
    conductors: &[u32],
    from: u32,
    out: &mut Vec<Piece>,
) -> Result<(), AllocError>
    requires { span.now.item + from < 4294967296 }
    ensures { OnOk result (AddsPartner (C.design cells.now) (C.tables cells.now) element.now.cell
        conductors.now ones.now from span.now out.old.items out.new.items) }
{
    if !may_touch(ones, span) {
        return Ok(());
    }
    if !may_hold(cells, element.cell, conductors) {
        return Ok(());
    }
    out.push(Piece {
        conductor: span.conductor,
        rect: span.rect,
        item: span.item + from,
    })?;
    Ok(())
}

// Of what bounds placements, counted on, that of those that a rectangle may touch and whose nets
// may hold something of one of these conductors.
fn partner_pieces<C: Cells>(
    alloc: Global,
    cells: &C,
    spans: &Spans<'_>,
    ones: &[Piece],
    conductors: &[u32],
) -> Result<Vec<Piece>, AllocError>
    requires spans { AreSpans (C.design cells.now) (C.wiring cells.now) (C.tables cells.now)
        spans.now }
    ensures { IfOk result (λ v. ArePartnerPieces (C.design cells.now) (C.tables cells.now)
        spans.now.cell conductors.now ones.now spans.now.from spans.now.pieces.now v.items) }
{
    let elements = cells.places(spans.cell);
    let from = spans.from;
    let mut out = Vec::new(alloc);
    for span in spans.pieces {
        let number = span.item as usize;
        push_partner(
            cells,
            &elements[number],
            span,
            ones,
            conductors,
            from,
            &mut out,
        )?;
    }
    Ok(out)
}

// Adds the pairs of one conductor's rectangles, which stand from a place on, and of placements,
// counted on.
fn push_partners<C: Cells>(
    alloc: Global,
    cells: &C,
    spans: &Spans<'_>,
    conductor: u32,
    at: u32,
    joins: &[Joined],
    out: &mut Vec<Link>,
) -> Result<(), AllocError>
    requires known { conductor < length (C.wiring cells.now).conductors }
    requires at { at ≡ owned_before (C.tables cells.now) spans.now.cell conductor }
    requires spans { AreSpans (C.design cells.now) (C.wiring cells.now) (C.tables cells.now)
        spans.now }
    requires joins { (c e : ℕ) → AreJoined joins.now c e ↔ IsJoined (C.wiring cells.now) c e }
    ensures { OnOk result (AddsPartners (C.design cells.now) (C.wiring cells.now)
        (C.tables cells.now) spans.now.cell spans.now.from conductor out.old.items
        out.new.items) }
{
    let own = cells.own(spans.cell, conductor);
    if own.is_empty() {
        return Ok(());
    }
    let mut ones = Vec::new(alloc);
    push_rects(own, conductor, at, &mut ones)?;
    let tied = joined_to(alloc, conductor, joins)?;
    let partners = partner_pieces(alloc, cells, spans, &ones, &tied)?;
    touching_pairs(alloc, &ones, &partners, out)?;
    Ok(())
}

/// Pairs of items of a cell's own rectangles and of placements, counted from a number on: each two
/// that squares of nets join are among them. None is of a placement of a cell that is known to hold
/// nothing that is joined to the rectangle's conductor. For each conductor of which the cell itself
/// has rectangles, a look at each placement, and what `touching_pairs` takes for these lists.
pub(crate) fn partners<C: Cells>(
    alloc: Global,
    cells: &C,
    cell: u32,
    from: u32,
    joins: &[Joined],
) -> Result<Vec<Link>, AllocError>
    requires from { from ≡ owned_before (C.tables cells.now) cell
        (length (C.wiring cells.now).conductors) }
    requires room { from + length (places_of (C.design cells.now) cell) ≤ 4294967295 }
    requires joins { (c e : ℕ) → AreJoined joins.now c e ↔ IsJoined (C.wiring cells.now) c e }
    ensures { IfOk result (λ v. ArePartners (C.design cells.now) (C.wiring cells.now)
        (C.tables cells.now) cell from (length (C.wiring cells.now).conductors) v.items) }
{
    let pieces = span_pieces(alloc, cells, cell)?;
    let spans = Spans {
        cell,
        pieces: &pieces,
        from,
    };
    let mut pairs = Vec::new(alloc);
    let mut at: u32 = 0;
    for conductor in 0..cells.conductors() {
        push_partners(alloc, cells, &spans, conductor, at, joins, &mut pairs)?;
        at += cells.own(cell, conductor).len() as u32;
    }
    Ok(pairs)
}
