//! All links between the items of a cell, and where these stand.

ghost use Rattle.std.specs.Prelude.{◌≡◌, ◌+◌, ◌<◌, ◌≤◌, ◌↔◌, ◌^◌, ℕ, length, IfOk, OnErr};
ghost use Rattle.flat_layout.specs.Nets.{AreRightBelow, items_of};
ghost use Rattle.flat_layout.specs.Regions.{IsGrounded, IsJoined};
ghost use Rattle.net_link_laws.specs.Found.{AreAllFound};
ghost use Rattle.net_link_laws.specs.Places.{nets_before, owned_before, places_of};
ghost use Rattle.net_walk.specs.Globals.{IsGroundedBy};
ghost use Rattle.net_walk.specs.Together.{AreFirsts};
ghost use Rattle.touching_pieces.specs.Pairs.{AreJoined};

use crate::beside::all_beside;
use crate::cells::Cells;
use crate::children::children_links;
use crate::globals::{GlobalItems, Grounded, global_links};
use crate::own::own_links;
use crate::placed::LinkSite;
use crate::sums::more;
use crate::walk::owned_before;
use link_classes::Link;
use std::alloc::{AllocError, Global};
use touching_pieces::Joined;

fn count_own<C: Cells>(cells: &C, cell: u32) -> Result<u32, AllocError>
    ensures count { IfOk result (λ n. n ≡ owned_before (C.tables cells.now) cell
        (length (C.wiring cells.now).conductors)) }
    ensures err { OnErr result (2 ^ 32 ≤ owned_before (C.tables cells.now) cell
        (length (C.wiring cells.now).conductors)) }
{
    let mut count = 0;
    for conductor in 0..cells.conductors() {
        count = more(count, cells.own(cell, conductor).len())?;
    }
    Ok(count)
}

fn count_placed<C: Cells>(cells: &C, cell: u32, from: u32) -> Result<u32, AllocError>
    ensures count { IfOk result (λ n. n ≡ from
        + nets_before (C.tables cells.now) (places_of (C.design cells.now) cell)
        (length (places_of (C.design cells.now) cell))) }
    ensures err { OnErr result (2 ^ 32 ≤ from
        + nets_before (C.tables cells.now) (places_of (C.design cells.now) cell)
        (length (places_of (C.design cells.now) cell))) }
{
    let mut count = from;
    for element in cells.places(cell) {
        count = more(count, cells.count(element.cell) as usize)?;
    }
    Ok(count)
}

/// The number of items of a cell. 2^32 or more are refused, before anything is built. Linear in the
/// conductors and placements.
pub fn count_items<C: Cells>(cells: &C, cell: u32, globals: u32) -> Result<u32, AllocError>
    requires { globals ≡ length (C.wiring cells.now).globals }
    ensures count { IfOk result (λ n. n ≡ length
        (items_of (C.design cells.now) (C.wiring cells.now) (C.tables cells.now) cell)) }
    ensures err { OnErr result (2 ^ 32 ≤ length
        (items_of (C.design cells.now) (C.wiring cells.now) (C.tables cells.now) cell)) }
{
    let owned = count_own(cells, cell)?;
    let placed = count_placed(cells, cell, owned)?;
    let items = more(placed, globals as usize)?;
    Ok(items)
}

/// The place of the first net of each placement among the items of a cell.
pub fn first_places<C: Cells>(alloc: Global, cells: &C, cell: u32) -> Result<Vec<u32>, AllocError>
    requires { length (items_of (C.design cells.now) (C.wiring cells.now) (C.tables cells.now) cell)
        ≤ 4294967295 }
    ensures { IfOk result (λ v. AreFirsts (C.design cells.now) (C.wiring cells.now)
        (C.tables cells.now) cell v.items) }
{
    let mut firsts = Vec::new(alloc);
    let mut at = owned_before(cells, cell, cells.conductors()) as u32;
    for element in cells.places(cell) {
        firsts.push(at)?;
        at += cells.count(element.cell);
    }
    Ok(firsts)
}

/// All links between the items of a cell: of own rectangles, of rectangles and placements, of any
/// two placements, and to globals.
pub fn all_links<C: Cells>(
    alloc: Global,
    cells: &C,
    cell: u32,
    items: u32,
    joins: &[Joined],
    lines: &[Grounded],
    globals: u32,
) -> Result<Vec<Link>, AllocError>
    requires right { AreRightBelow (C.design cells.now) (C.wiring cells.now) (C.tables cells.now)
        cell }
    requires items { items ≡ length (items_of (C.design cells.now) (C.wiring cells.now)
        (C.tables cells.now) cell) }
    requires joins { (c e : ℕ) → AreJoined joins.now c e ↔ IsJoined (C.wiring cells.now) c e }
    requires lines { (c g : ℕ) → IsGroundedBy lines.now c g ↔ IsGrounded (C.wiring cells.now) c g }
    requires globals { globals ≡ length (C.wiring cells.now).globals }
    ensures { IfOk result (λ v. AreAllFound (C.design cells.now) (C.wiring cells.now)
        (C.tables cells.now) cell v.items) }
{
    let firsts = first_places(alloc, cells, cell)?;
    let mut links = own_links(alloc, cells, cell, joins)?;
    let site = LinkSite {
        cell,
        firsts: &firsts,
        joins,
    };
    children_links(alloc, cells, &site, &mut links)?;
    all_beside(alloc, cells, &site, &mut links)?;
    let globals = GlobalItems {
        cell,
        count: globals,
        at: items - globals,
    };
    global_links(cells, &globals, &firsts, lines, &mut links)?;
    Ok(links)
}
