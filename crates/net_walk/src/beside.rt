//! Links between a cell's own rectangles and the nets of placements.

ghost use Rattle.std.specs.Prelude.{◌≡◌, ◌<◌, [], ◌∷◌, length, IfOk, OnOk};
ghost use Rattle.net_link_laws.specs.Places.{places_of};
ghost use Rattle.net_walk.specs.Owned.{IsOwnPiece, owned_pieces};
ghost use Rattle.net_walk.specs.Placed.{HasNets, IsLinkable};
ghost use Rattle.geo_base.specs.Near.{IsNearRect};
ghost use Rattle.geo_base.specs.Rects.{IsRect, grown};
ghost use Rattle.net_walk.specs.Beside.{AddsBeside, AddsPairsBeside, AddsPieceBeside};
ghost use Rattle.net_walk.specs.Beside.{ArePairsBeside, BesidePairLaw, IsBesideSeen, IsPairBeside};
ghost use Rattle.net_walk.specs.Held.{AreHeldLists};
ghost use Rattle.net_walk.specs.Seen.{AreLinksOver};
ghost use Rattle.net_walk.specs.Walk.{place_of};

use crate::cells::Cells;
use crate::held::HeldLists;
use crate::own::own_pieces;
use crate::partners::partners;
use crate::placed::{LinkSite, Placed};
use crate::seen::see_joined;
use crate::sums::more;
use crate::whole::{is_covered, whole_links};
use link_classes::Link;
use std::alloc::{AllocError, Global};
use touching_pieces::{Joined, Piece, touching_links};

/// Links whose chains join a piece's item and those of a placement's nets that touch it. Only
/// conductors that are joined to the piece's are walked, each once in its window; the links take
/// near n log n for n pieces that are found there. An `Err` is want of memory.
pub fn beside_links<C: Cells>(
    alloc: Global,
    cells: &C,
    piece: &Piece,
    placed: &Placed<'_>,
    joins: &[Joined],
) -> Result<Vec<Link>, AllocError>
    requires rect { IsRect piece.now.rect }
    requires near { IsNearRect (grown 1 piece.now.rect) }
    requires known { piece.now.conductor < length (C.wiring cells.now).conductors }
    requires placed { HasNets (C.design cells.now) (C.wiring cells.now) (C.tables cells.now)
        placed.now }
    ensures { IfOk result (λ v. AreLinksOver joins.now
        (IsBesideSeen (C.design cells.now) (C.tables cells.now) joins.now piece.now.rect
        piece.now.conductor piece.now.item (length (C.wiring cells.now).conductors)
        (place_of placed.now.element.now) placed.now.at) v.items) }
{
    let window = piece.rect.grown(1);
    let mut pieces = Vec::new(alloc);
    pieces.push(*piece)?;
    see_joined(
        alloc,
        cells,
        placed,
        &window,
        piece.conductor,
        joins,
        &mut pieces,
    )?;
    let links = touching_links(alloc, &pieces, cells.conductors(), joins)?;
    Ok(links)
}

/// What such links say of a cell's items.
pub fn beside_law()
    ensures { BesidePairLaw }
{}

// Adds the links between an own rectangle and the nets of a placement by what is near it.
fn link_near<C: Cells>(
    alloc: Global,
    cells: &C,
    site: &LinkSite<'_>,
    piece: &Piece,
    number: u32,
    out: &mut Vec<Link>,
) -> Result<(), AllocError>
    requires piece { IsOwnPiece (C.tables cells.now) site.now.cell
        (length (C.wiring cells.now).conductors) piece.now }
    requires number { number < length (places_of (C.design cells.now) site.now.cell) }
    requires site { IsLinkable (C.design cells.now) (C.wiring cells.now) (C.tables cells.now)
        site.now }
    ensures { OnOk result (AddsPieceBeside (C.design cells.now) (C.wiring cells.now)
        (C.tables cells.now) site.now.cell piece.now number out.old.items out.new.items) }
{
    cells.sound();
    let elements = cells.places(site.cell);
    let k = number as usize;
    let placed = Placed {
        element: &elements[k],
        at: site.firsts[k],
    };
    let links = beside_links(alloc, cells, piece, &placed, site.joins)?;
    out.extend_from_slice(&links)?;
    Ok(())
}

// Adds the links between an own rectangle and the nets of a placement. Where it covers them whole
// they stand in lists, and are not walked.
fn link_piece<C: Cells>(
    alloc: Global,
    cells: &C,
    site: &LinkSite<'_>,
    piece: &Piece,
    number: u32,
    memo: &mut HeldLists,
    out: &mut Vec<Link>,
) -> Result<(), AllocError>
    requires piece { IsOwnPiece (C.tables cells.now) site.now.cell
        (length (C.wiring cells.now).conductors) piece.now }
    requires number { number < length (places_of (C.design cells.now) site.now.cell) }
    requires site { IsLinkable (C.design cells.now) (C.wiring cells.now) (C.tables cells.now)
        site.now }
    requires lists { AreHeldLists (C.design cells.now) (C.tables cells.now) memo.old.lists.items }
    ensures lists { OnOk result (AreHeldLists (C.design cells.now) (C.tables cells.now)
        memo.new.lists.items) }
    ensures links { OnOk result (AddsPieceBeside (C.design cells.now) (C.wiring cells.now)
        (C.tables cells.now) site.now.cell piece.now number out.old.items out.new.items) }
{
    let elements = cells.places(site.cell);
    let k = number as usize;
    let element = &elements[k];
    if is_covered(cells, element, &piece.rect) {
        let placed = Placed {
            element,
            at: site.firsts[k],
        };
        whole_links(alloc, cells, &placed, piece, site.joins, memo, out)?;
        return Ok(());
    }
    link_near(alloc, cells, site, piece, number, out)
}

// Adds the links of a pair of a rectangle and a placement.
fn link_beside<C: Cells>(
    alloc: Global,
    cells: &C,
    site: &LinkSite<'_>,
    pieces: &[Piece],
    pair: &Link,
    memo: &mut HeldLists,
    out: &mut Vec<Link>,
) -> Result<(), AllocError>
    requires pieces { pieces.now ≡ owned_pieces (C.tables cells.now) site.now.cell
        (length (C.wiring cells.now).conductors) }
    requires pair { IsPairBeside (length pieces.now)
        (length (places_of (C.design cells.now) site.now.cell)) pair.now }
    requires site { IsLinkable (C.design cells.now) (C.wiring cells.now) (C.tables cells.now)
        site.now }
    requires lists { AreHeldLists (C.design cells.now) (C.tables cells.now) memo.old.lists.items }
    ensures lists { OnOk result (AreHeldLists (C.design cells.now) (C.tables cells.now)
        memo.new.lists.items) }
    ensures links { OnOk result (AddsPairsBeside (C.design cells.now) (C.wiring cells.now)
        (C.tables cells.now) site.now.cell (length pieces.now) (pair.now ∷ []) out.old.items
        out.new.items) }
{
    let item = pair.one.min(pair.other) as usize;
    let number = pair.one.max(pair.other) - pieces.len() as u32;
    link_piece(alloc, cells, site, &pieces[item], number, memo, out)?;
    Ok(())
}

fn link_all_beside<C: Cells>(
    alloc: Global,
    cells: &C,
    site: &LinkSite<'_>,
    pieces: &[Piece],
    pairs: &[Link],
    memo: &mut HeldLists,
    out: &mut Vec<Link>,
) -> Result<(), AllocError>
    requires pieces { pieces.now ≡ owned_pieces (C.tables cells.now) site.now.cell
        (length (C.wiring cells.now).conductors) }
    requires pairs { ArePairsBeside (length pieces.now)
        (length (places_of (C.design cells.now) site.now.cell)) pairs.now }
    requires site { IsLinkable (C.design cells.now) (C.wiring cells.now) (C.tables cells.now)
        site.now }
    requires lists { AreHeldLists (C.design cells.now) (C.tables cells.now) memo.old.lists.items }
    ensures lists { OnOk result (AreHeldLists (C.design cells.now) (C.tables cells.now)
        memo.new.lists.items) }
    ensures links { OnOk result (AddsPairsBeside (C.design cells.now) (C.wiring cells.now)
        (C.tables cells.now) site.now.cell (length pieces.now) pairs.now out.old.items
        out.new.items) }
{
    for pair in pairs {
        link_beside(alloc, cells, site, pieces, pair, memo, out)?;
    }
    Ok(())
}

/// Adds the links between a cell's own rectangles and the nets of its placements. It asks only
/// where a rectangle meets what bounds a placement, grown by one square, and the placed cell may
/// hold something that is joined to the rectangle's conductor; a placed cell is walked in
/// the rectangle's window alone, and not where the rectangle covers it whole: then its nets are
/// taken from lists that are made once for each cell and conductor. 2^32 rectangles and placements
/// or more are refused.
pub fn all_beside<C: Cells>(
    alloc: Global,
    cells: &C,
    site: &LinkSite<'_>,
    out: &mut Vec<Link>,
) -> Result<(), AllocError>
    requires site { IsLinkable (C.design cells.now) (C.wiring cells.now) (C.tables cells.now)
        site.now }
    ensures { OnOk result (AddsBeside (C.design cells.now) (C.wiring cells.now) (C.tables cells.now)
        site.now.cell out.old.items out.new.items) }
{
    let pieces = own_pieces(alloc, cells, site.cell)?;
    let owned = more(0, pieces.len())?;
    more(owned, site.firsts.len())?;
    let pairs = partners(alloc, cells, site.cell, owned, site.joins)?;
    let mut memo = HeldLists::new(alloc);
    link_all_beside(alloc, cells, site, &pieces, &pairs, &mut memo, out)?;
    Ok(())
}
