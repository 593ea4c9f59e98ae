//! Links between a cell's items and its globals.

ghost use Rattle.std.specs.Prelude.{◌≡◌, ◌<◌, ◌↔◌, ℕ, length, slice_get, Some, OnOk};
ghost use Rattle.flat_layout.specs.Nets.{AreNets, AreRightBelow};
ghost use Rattle.net_link_laws.specs.Places.{places_of};
ghost use Rattle.net_walk.specs.Globals.{AddsToGlobals, IsAny, IsByFirst, IsByLine, IsByLines};
ghost use Rattle.net_walk.specs.Globals.{AreGlobals, IsGroundedBy, IsOfPlacement, IsOfPlacements};
ghost use Rattle.net_walk.specs.Pairs.{first_of};
ghost use Rattle.net_walk.specs.Together.{AreFirsts};
ghost use Rattle.net_walk.specs.Walk.{place_of};
ghost use Rattle.flat_layout.specs.Regions.{IsGrounded};

use crate::cells::Cells;
use crate::placed::Placed;
use crate::walk::owned_before;
use link_classes::Link;
use std::alloc::AllocError;

/// A conductor whose squares a line joins to a global.
#[derive(Clone, Copy, Debug, PartialEq, Eq)]
pub struct Grounded {
    pub conductor: u32,
    pub global: u32,
}

/// A cell's globals: how many they are, and the place of the first among the cell's items.
#[derive(Clone, Copy, Debug, PartialEq, Eq)]
pub struct GlobalItems {
    pub cell: u32,
    pub count: u32,
    pub at: u32,
}

// Adds a link from each rectangle of a line's conductor to the line's global.
fn ground_rects<C: Cells>(
    cells: &C,
    globals: &GlobalItems,
    line: &Grounded,
    out: &mut Vec<Link>,
) -> Result<(), AllocError>
    requires conductor { line.now.conductor < length (C.wiring cells.now).conductors }
    requires global { line.now.global < length (C.wiring cells.now).globals }
    requires line { IsGrounded (C.wiring cells.now) line.now.conductor line.now.global }
    requires globals { AreGlobals (C.design cells.now) (C.wiring cells.now) (C.tables cells.now)
        globals.now }
    ensures { OnOk result (AddsToGlobals (C.design cells.now) (C.wiring cells.now)
        (C.tables cells.now) globals.now.cell (IsByLine line.now) out.old.items out.new.items) }
{
    let first = owned_before(cells, globals.cell, line.conductor) as u32;
    for r in 0..cells.own(globals.cell, line.conductor).len() {
        out.push(Link {
            one: first + r as u32,
            other: globals.at + line.global,
        })?;
    }
    Ok(())
}

// The same where the line's conductor and its global are known.
fn ground_line<C: Cells>(
    cells: &C,
    globals: &GlobalItems,
    line: &Grounded,
    out: &mut Vec<Link>,
) -> Result<(), AllocError>
    requires line { IsGrounded (C.wiring cells.now) line.now.conductor line.now.global }
    requires globals { AreGlobals (C.design cells.now) (C.wiring cells.now) (C.tables cells.now)
        globals.now }
    ensures { OnOk result (AddsToGlobals (C.design cells.now) (C.wiring cells.now)
        (C.tables cells.now) globals.now.cell (IsByLine line.now) out.old.items out.new.items) }
{
    if line.conductor >= cells.conductors() {
        return Ok(());
    }
    if line.global >= globals.count {
        return Ok(());
    }
    ground_rects(cells, globals, line, out)?;
    Ok(())
}

fn ground_lines<C: Cells>(
    cells: &C,
    globals: &GlobalItems,
    lines: &[Grounded],
    out: &mut Vec<Link>,
) -> Result<(), AllocError>
    requires lines { (c g : ℕ) → IsGroundedBy lines.now c g → IsGrounded (C.wiring cells.now) c g }
    requires globals { AreGlobals (C.design cells.now) (C.wiring cells.now) (C.tables cells.now)
        globals.now }
    ensures { OnOk result (AddsToGlobals (C.design cells.now) (C.wiring cells.now)
        (C.tables cells.now) globals.now.cell (IsByLines lines.now) out.old.items out.new.items) }
{
    for line in lines {
        ground_line(cells, globals, line, out)?;
    }
    Ok(())
}

// Adds a link from the placed cell's net of each global to the global.
fn join_globals<C: Cells>(
    cells: &C,
    globals: &GlobalItems,
    placed: &Placed<'_>,
    number: u32,
    out: &mut Vec<Link>,
) -> Result<(), AllocError>
    requires placed { slice_get (places_of (C.design cells.now) globals.now.cell) number
        ≡ Some (place_of placed.now.element.now) }
    requires nets { AreNets (C.design cells.now) (C.wiring cells.now) (C.tables cells.now)
        placed.now.element.now.cell ((C.tables cells.now).nets placed.now.element.now.cell) }
    requires first { placed.now.at ≡ first_of (C.design cells.now) (C.wiring cells.now)
        (C.tables cells.now) globals.now.cell number }
    requires globals { AreGlobals (C.design cells.now) (C.wiring cells.now) (C.tables cells.now)
        globals.now }
    ensures { OnOk result (AddsToGlobals (C.design cells.now) (C.wiring cells.now)
        (C.tables cells.now) globals.now.cell (IsOfPlacement number) out.old.items out.new.items) }
{
    let _ = number;
    let net_of = cells.net_of(placed.element.cell);
    let base = net_of.len() - globals.count as usize;
    for g in 0..globals.count {
        out.push(Link {
            one: placed.at + net_of[base + g as usize],
            other: globals.at + g,
        })?;
    }
    Ok(())
}

fn join_placements<C: Cells>(
    cells: &C,
    globals: &GlobalItems,
    firsts: &[u32],
    out: &mut Vec<Link>,
) -> Result<(), AllocError>
    requires right { AreRightBelow (C.design cells.now) (C.wiring cells.now) (C.tables cells.now)
        globals.now.cell }
    requires firsts { AreFirsts (C.design cells.now) (C.wiring cells.now) (C.tables cells.now)
        globals.now.cell firsts.now }
    requires globals { AreGlobals (C.design cells.now) (C.wiring cells.now) (C.tables cells.now)
        globals.now }
    ensures { OnOk result (AddsToGlobals (C.design cells.now) (C.wiring cells.now)
        (C.tables cells.now) globals.now.cell
        (IsOfPlacements (length (places_of (C.design cells.now) globals.now.cell)))
        out.old.items out.new.items) }
{
    let elements = cells.places(globals.cell);
    for k in 0..elements.len() {
        let placed = Placed {
            element: &elements[k],
            at: firsts[k],
        };
        join_globals(cells, globals, &placed, k as u32, out)?;
    }
    Ok(())
}

/// Adds the links to a cell's globals: from each rectangle of a conductor that a line grounds, and
/// from the net of each placed cell that is its global's. Linear in these.
pub fn global_links<C: Cells>(
    cells: &C,
    globals: &GlobalItems,
    firsts: &[u32],
    lines: &[Grounded],
    out: &mut Vec<Link>,
) -> Result<(), AllocError>
    requires right { AreRightBelow (C.design cells.now) (C.wiring cells.now) (C.tables cells.now)
        globals.now.cell }
    requires firsts { AreFirsts (C.design cells.now) (C.wiring cells.now) (C.tables cells.now)
        globals.now.cell firsts.now }
    requires lines { (c g : ℕ) → IsGroundedBy lines.now c g ↔ IsGrounded (C.wiring cells.now) c g }
    requires globals { AreGlobals (C.design cells.now) (C.wiring cells.now) (C.tables cells.now)
        globals.now }
    ensures { OnOk result (AddsToGlobals (C.design cells.now) (C.wiring cells.now)
        (C.tables cells.now) globals.now.cell IsAny out.old.items out.new.items) }
{
    ground_lines(cells, globals, lines, out)?;
    join_placements(cells, globals, firsts, out)?;
    Ok(())
}
