//! Pieces of two lists that touch, found by cutting the plane in two again and again.
//! Two that touch lie whole on one side or the other.

ghost use Rattle.std.specs.Prelude.{◌≡◌, OnOk, IfOk, [], ◌∷◌};
ghost use Rattle.touching_pieces.specs.Pairs.{AddsChains, AddsTouching, AreInTouch};
ghost use Rattle.touching_pieces.specs.Pairs.{begins_by, ends_behind, lows, highs};

use crate::crowds::link_crowd;
use crate::cuts::{Axis, Cut, NOWHERE, Step, cut_of, grown, share, step_of};
use crate::pieces::{Piece, touches};
use geo_base::Rect;
use link_classes::Link;
use std::alloc::{AllocError, Global};

// Cuts on the way to one pair; coordinates of 64 bits have no more.
const DEPTH: u32 = 128;

fn begins_by(cut: &Cut, rect: &Rect) -> bool
    ensures { result ≡ begins_by cut.now rect.now }
{
    match cut.axis {
        Axis::X => rect.x1 <= cut.at,
        Axis::Y => rect.y1 <= cut.at,
    }
}

fn ends_behind(cut: &Cut, rect: &Rect) -> bool
    ensures { result ≡ ends_behind cut.now rect.now }
{
    match cut.axis {
        Axis::X => cut.at < rect.x2,
        Axis::Y => cut.at < rect.y2,
    }
}

fn lows(alloc: Global, pieces: &[Piece], cut: &Cut) -> Result<Vec<Piece>, AllocError>
    ensures { IfOk result (λ v. v.items ≡ lows cut.now pieces.now) }
{
    pieces
        .iter()
        .filter(|p| begins_by(cut, &p.rect))
        .copied()
        .collect(alloc)
}

fn highs(alloc: Global, pieces: &[Piece], cut: &Cut) -> Result<Vec<Piece>, AllocError>
    ensures { IfOk result (λ v. v.items ≡ highs cut.now pieces.now) }
{
    pieces
        .iter()
        .filter(|p| ends_behind(cut, &p.rect))
        .copied()
        .collect(alloc)
}

// Links the two pieces where they touch.
pub(crate) fn link_two(one: &Piece, other: &Piece, out: &mut Vec<Link>) -> Result<(), AllocError>
    ensures { OnOk result (AddsTouching (one.now ∷ []) (other.now ∷ []) out.old.items
        out.new.items) }
{
    if one.item == other.item {
        return Ok(());
    }
    if touches(&one.rect, &other.rect) {
        out.push(Link {
            one: one.item,
            other: other.item,
        })?;
        return Ok(());
    }
    Ok(())
}

// Links the piece with what it touches of a list.
pub(crate) fn link_one(one: &Piece, others: &[Piece], out: &mut Vec<Link>) -> Result<(), AllocError>
    ensures { OnOk result (AddsTouching (one.now ∷ []) others.now out.old.items out.new.items) }
{
    for other in others {
        link_two(one, other, out)?;
    }
    Ok(())
}

fn link_all(ones: &[Piece], others: &[Piece], out: &mut Vec<Link>) -> Result<(), AllocError>
    ensures { OnOk result (AddsTouching ones.now others.now out.old.items out.new.items) }
{
    for one in ones {
        link_one(one, others, out)?;
    }
    Ok(())
}

// What falls to each side of what can be spared, of which the pieces cut of so many take some.
fn shares(low: usize, high: usize, count: usize, spare: usize) -> (usize, usize) {
    let parts = high.saturating_add(low);
    let left = spare.saturating_sub(parts.saturating_sub(count));
    let low_share = share(left, low, parts);
    (low_share, left.saturating_sub(low_share))
}

// The pieces of both lists on either side of a cut.
#[derive(Drop)]
struct Parts {
    low_ones: Vec<Piece>,
    low_others: Vec<Piece>,
    high_ones: Vec<Piece>,
    high_others: Vec<Piece>,
}

impl Parts {
    fn new(alloc: Global, ones: &[Piece], others: &[Piece], cut: &Cut) -> Result<Self, AllocError>
        ensures low_ones { IfOk result (λ p. p.low_ones.items ≡ lows cut.now ones.now) }
        ensures low_others { IfOk result (λ p. p.low_others.items ≡ lows cut.now others.now) }
        ensures high_ones { IfOk result (λ p. p.high_ones.items ≡ highs cut.now ones.now) }
        ensures high_others { IfOk result (λ p. p.high_others.items ≡ highs cut.now others.now) }
    {
        Ok(Parts {
            low_ones: lows(alloc, ones, cut)?,
            low_others: lows(alloc, others, cut)?,
            high_ones: highs(alloc, ones, cut)?,
            high_others: highs(alloc, others, cut)?,
        })
    }

    fn shares(&self, count: usize, spare: usize) -> (usize, usize) {
        let low = self.low_ones.len().saturating_add(self.low_others.len());
        let high = self.high_ones.len().saturating_add(self.high_others.len());
        shares(low, high, count, spare)
    }
}

fn link_halves(
    alloc: Global,
    ones: &[Piece],
    others: &[Piece],
    within: &Rect,
    depth: u32,
    spare: usize,
    out: &mut Vec<Link>,
) -> Result<(), AllocError>
    ensures { OnOk result (AddsTouching ones.now others.now out.old.items out.new.items) }
{
    if depth == 0 {
        link_all(ones, others, out)?;
        return Ok(());
    }
    let Some(cut) = cut_of(ones, others, within, spare) else {
        link_all(ones, others, out)?;
        return Ok(());
    };
    let parts = Parts::new(alloc, ones, others, &cut)?;
    let (low, high) = parts.shares(ones.len().saturating_add(others.len()), spare);
    let (below, above) = cut.halves(within);
    link_halves(
        alloc,
        &parts.low_ones,
        &parts.low_others,
        &below,
        depth - 1,
        low,
        out,
    )?;
    link_halves(
        alloc,
        &parts.high_ones,
        &parts.high_others,
        &above,
        depth - 1,
        high,
        out,
    )?;
    Ok(())
}

/// Adds a link for each two items that differ and have pieces, one in each list, that touch.
///
/// Near (n + m) log (n + m) + the number of such pairs, for lists of n and m pieces of which few
/// lie over one another.
pub fn touching_pairs(
    alloc: Global,
    ones: &[Piece],
    others: &[Piece],
    out: &mut Vec<Link>,
) -> Result<(), AllocError>
    ensures { OnOk result (AddsTouching ones.now others.now out.old.items out.new.items) }
{
    let within = grown(grown(NOWHERE, ones), others);
    let spare = ones.len().saturating_add(others.len()).saturating_mul(2);
    link_halves(alloc, ones, others, &within, DEPTH, spare, out)?;
    Ok(())
}

// Links pieces by chains. Where a cut would go through many, a piece that touches many is looked
// for: what it touches needs no more search.
fn chain_halves(
    alloc: Global,
    ones: &[Piece],
    others: &[Piece],
    within: &Rect,
    depth: u32,
    spare: usize,
    out: &mut Vec<Link>,
) -> Result<(), AllocError>
    ensures { OnOk result (AddsChains (AreInTouch ones.now others.now) out.old.items
        out.new.items) }
{
    if depth == 0 {
        link_all(ones, others, out)?;
        return Ok(());
    }
    match step_of(ones, others, within, spare) {
        Step::All => {
            link_all(ones, others, out)?;
            Ok(())
        }
        Step::Hub(hub) => {
            let left = link_crowd(alloc, hub, ones, others, within, out)?;
            chain_halves(alloc, &left, ones, within, depth - 1, spare, out)?;
            Ok(())
        }
        Step::Halves(cut) => {
            let parts = Parts::new(alloc, ones, others, &cut)?;
            let (low, high) = parts.shares(ones.len().saturating_add(others.len()), spare);
            let (below, above) = cut.halves(within);
            chain_halves(
                alloc,
                &parts.low_ones,
                &parts.low_others,
                &below,
                depth - 1,
                low,
                out,
            )?;
            chain_halves(
                alloc,
                &parts.high_ones,
                &parts.high_others,
                &above,
                depth - 1,
                high,
                out,
            )?;
            Ok(())
        }
    }
}

/// Adds links so that chains of them join each two items that have pieces, one in each list, that
/// touch. Each link is of two such items.
///
/// Near (n + m) log (n + m), for lists of n and m pieces: also where many lie over one another, for
/// these get few links and not one for each two.
pub fn touching_chains(
    alloc: Global,
    ones: &[Piece],
    others: &[Piece],
    out: &mut Vec<Link>,
) -> Result<(), AllocError>
    ensures { OnOk result (AddsChains (AreInTouch ones.now others.now) out.old.items
        out.new.items) }
{
    let within = grown(grown(NOWHERE, ones), others);
    let spare = ones.len().saturating_add(others.len()).saturating_mul(2);
    chain_halves(alloc, ones, others, &within, DEPTH, spare, out)?;
    Ok(())
}

// The same for one list taken twice.
fn own_shares(pieces: &[Piece], cut: &Cut, spare: usize) -> (usize, usize) {
    let mut low = 0usize;
    let mut high = 0usize;
    for piece in pieces {
        if begins_by(cut, &piece.rect) {
            low = low.saturating_add(2);
        }
        if ends_behind(cut, &piece.rect) {
            high = high.saturating_add(2);
        }
    }
    shares(low, high, pieces.len().saturating_mul(2), spare)
}

// Links pieces of one list by chains. The pieces on one side of a cut are gone before those on the
// other are listed.
fn chain_own(
    alloc: Global,
    pieces: &[Piece],
    within: &Rect,
    depth: u32,
    spare: usize,
    out: &mut Vec<Link>,
) -> Result<(), AllocError>
    ensures { OnOk result (AddsChains (AreInTouch pieces.now pieces.now) out.old.items
        out.new.items) }
{
    if depth == 0 {
        link_all(pieces, pieces, out)?;
        return Ok(());
    }
    match step_of(pieces, pieces, within, spare) {
        Step::All => {
            link_all(pieces, pieces, out)?;
            Ok(())
        }
        Step::Hub(hub) => {
            let left = link_crowd(alloc, hub, pieces, pieces, within, out)?;
            chain_halves(alloc, &left, pieces, within, depth - 1, spare, out)?;
            Ok(())
        }
        Step::Halves(cut) => {
            let (low_share, high_share) = own_shares(pieces, &cut, spare);
            let (below, above) = cut.halves(within);
            {
                let low = lows(alloc, pieces, &cut)?;
                chain_own(alloc, &low, &below, depth - 1, low_share, out)?;
            }
            let high = highs(alloc, pieces, &cut)?;
            chain_own(alloc, &high, &above, depth - 1, high_share, out)?;
            Ok(())
        }
    }
}

/// The same of each two pieces of one list: it takes half the time and a quarter of the memory.
pub(crate) fn own_chains(
    alloc: Global,
    pieces: &[Piece],
    out: &mut Vec<Link>,
) -> Result<(), AllocError>
    ensures { OnOk result (AddsChains (AreInTouch pieces.now pieces.now) out.old.items
        out.new.items) }
{
    let within = grown(NOWHERE, pieces);
    let spare = pieces.len().saturating_mul(4);
    chain_own(alloc, pieces, &within, DEPTH, spare, out)?;
    Ok(())
}
