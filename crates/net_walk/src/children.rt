//! Links between the nets of two placements.

ghost use Rattle.std.specs.Prelude.{◌<◌, length, OnOk, IfOk, IfSome, IfNone};
ghost use Rattle.net_link_laws.specs.Places.{places_of};
ghost use Rattle.net_walk.specs.Contacts.{IsBeside};
ghost use Rattle.net_walk.specs.Pairs.{AddsChildren, AddsPair, AddsPairs, AddsSpan, AreSpanPieces};
ghost use Rattle.net_walk.specs.Pairs.{AreEnoughPairs, AreNeverNear, IsWindowFor};
ghost use Rattle.net_walk.specs.Placed.{IsLinkable};
ghost use Rattle.net_walk.specs.Walk.{IsClose, place_of};
ghost use Rattle.link_classes.specs.Classes.{AreInRange};

use crate::cells::{Cells, Element};
use crate::contacts::{Beside, beside_of, replay};
use crate::leaders::{leaders_of, leading, push_followers};
use crate::lyings::alike_together;
use crate::placed::LinkSite;
use geo_base::Rect;
use link_classes::Link;
use std::alloc::{AllocError, Global};
use touching_pieces::{Piece, touching_pairs};

// Where squares of the two may be near each other.
pub(crate) fn window_of<C: Cells>(cells: &C, one: &Element, other: &Element) -> Option<Rect>
    requires close { IsClose one.now.motion }
    requires close_too { IsClose other.now.motion }
    ensures some { IfSome result (IsWindowFor (C.design cells.now) (C.tables cells.now)
        (place_of one.now) (place_of other.now)) }
    ensures none { IfNone result (AreNeverNear (C.design cells.now) (C.tables cells.now)
        (place_of one.now) (place_of other.now)) }
{
    match cells.span(one) {
        None => None,
        Some(first) => match cells.span(other) {
            None => None,
            Some(second) => {
                let window = first.grown(1).common(&second.grown(1));
                if window.is_rect() {
                    return Some(window);
                }
                None
            }
        },
    }
}

// What bounds a placement, grown by one square, as a piece of its number.
fn push_span<C: Cells>(
    cells: &C,
    element: &Element,
    number: u32,
    out: &mut Vec<Piece>,
) -> Result<(), AllocError>
    requires { IsClose element.now.motion }
    ensures { OnOk result (AddsSpan (C.design cells.now) (C.tables cells.now) (place_of element.now)
        number out.old.items out.new.items) }
{
    match cells.span(element) {
        None => Ok(()),
        Some(span) => {
            out.push(Piece {
                conductor: 0,
                rect: span.grown(1),
                item: number,
            })?;
            Ok(())
        }
    }
}

// What bounds each placement, grown by one square, as a piece of its number.
pub(crate) fn span_pieces<C: Cells>(
    alloc: Global,
    cells: &C,
    cell: u32,
) -> Result<Vec<Piece>, AllocError>
    ensures { IfOk result (λ v. AreSpanPieces (C.design cells.now) (C.tables cells.now) cell
        (length (places_of (C.design cells.now) cell)) v.items) }
{
    let elements = cells.places(cell);
    let mut out = Vec::new(alloc);
    for k in 0..elements.len() {
        push_span(cells, &elements[k], k as u32, &mut out)?;
    }
    Ok(out)
}

// Adds the links of a pair of placements, by contacts that are known, if the two lie so, else by
// those that a search finds. Hands these on.
fn link_numbers<C: Cells>(
    alloc: Global,
    cells: &C,
    site: &LinkSite<'_>,
    pair: &Link,
    known: Option<Beside>,
    out: &mut Vec<Link>,
) -> Result<Beside, AllocError>
    requires one { pair.now.one < length (places_of (C.design cells.now) site.now.cell) }
    requires other { pair.now.other < length (places_of (C.design cells.now) site.now.cell) }
    requires site { IsLinkable (C.design cells.now) (C.wiring cells.now) (C.tables cells.now)
        site.now }
    requires known { IfSome known (IsBeside (C.design cells.now) (C.wiring cells.now)
        (C.tables cells.now)) }
    ensures is { IfOk result (IsBeside (C.design cells.now) (C.wiring cells.now)
        (C.tables cells.now)) }
    ensures links { OnOk result (AddsPair (C.design cells.now) (C.wiring cells.now)
        (C.tables cells.now) site.now.cell pair.now.one pair.now.other out.old.items
        out.new.items) }
{
    let elements = cells.places(site.cell);
    let k = pair.one as usize;
    let l = pair.other as usize;
    let beside = beside_of(alloc, cells, known, &elements[k], &elements[l], site.joins)?;
    replay(&beside.contacts, site.firsts[k], site.firsts[l], out)?;
    Ok(beside)
}

/// Adds the links of pairs of placements. A pair that lies as the one before has its contacts. Cost:
/// for each way in which two cells lie beside each other that of `children_links`; and the links. An
/// `Err` is want of memory.
pub fn link_pairs<C: Cells>(
    alloc: Global,
    cells: &C,
    site: &LinkSite<'_>,
    pairs: &[Link],
    out: &mut Vec<Link>,
) -> Result<(), AllocError>
    requires pairs { AreInRange (length (places_of (C.design cells.now) site.now.cell)) pairs.now }
    requires site { IsLinkable (C.design cells.now) (C.wiring cells.now) (C.tables cells.now)
        site.now }
    ensures { OnOk result (AddsPairs (C.design cells.now) (C.wiring cells.now) (C.tables cells.now)
        site.now.cell pairs.now out.old.items out.new.items) }
{
    let mut known = None;
    for pair in pairs {
        let beside = link_numbers(alloc, cells, site, pair, known, out)?;
        known = Some(beside);
    }
    Ok(())
}

/// The pairs of placements to be linked: of those that stand alike one leads the others, and each
/// two leaders whose hulls meet or touch; pairs that lie alike stand together. Cost: O(n log n) for
/// n placements and pairs. An `Err` is want of memory.
pub fn enough_pairs<C: Cells>(alloc: Global, cells: &C, cell: u32) -> Result<Vec<Link>, AllocError>
    ensures { IfOk result (λ v. AreEnoughPairs (C.design cells.now) (C.wiring cells.now)
        (C.tables cells.now) cell v.items) }
{
    let elements = cells.places(cell);
    let leaders = leaders_of(alloc, elements)?;
    let all = span_pieces(alloc, cells, cell)?;
    let spans = leading(alloc, &all, &leaders)?;
    let mut touching = Vec::new(alloc);
    touching_pairs(alloc, &spans, &spans, &mut touching)?;
    push_followers(&leaders, &mut touching)?;
    let pairs = alike_together(alloc, elements, &touching)?;
    Ok(pairs)
}

/// Adds links whose chains join what squares link of the nets of any two placements of a cell. Cost:
/// O(n log n) for n placements and pairs of placements whose hulls meet or touch, where all that
/// stand alike count as one; for each way in which two placed cells lie beside each other two walks
/// a conductor through what both hold, and near m log m for m pieces that are found; and the links.
/// An `Err` is want of memory.
pub fn children_links<C: Cells>(
    alloc: Global,
    cells: &C,
    site: &LinkSite<'_>,
    out: &mut Vec<Link>,
) -> Result<(), AllocError>
    requires site { IsLinkable (C.design cells.now) (C.wiring cells.now) (C.tables cells.now)
        site.now }
    ensures { OnOk result (AddsChildren (C.design cells.now) (C.wiring cells.now)
        (C.tables cells.now) site.now.cell out.old.items out.new.items) }
{
    let pairs = enough_pairs(alloc, cells, site.cell)?;
    link_pairs(alloc, cells, site, &pairs, out)?;
    Ok(())
}
