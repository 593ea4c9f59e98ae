//! The pieces that are shown of a cell's wanted nets: its own rectangles, and what comes from the
//! cells below.

ghost use Rattle.std.specs.Prelude.{◌≡◌, ◌↔◌, ℕ, IfOk, IsErrOf};
ghost use Rattle.std.specs.List.{list_any};
ghost use Rattle.geo_base.specs.declared.shapes.Square.{Square};
ghost use Rattle.net_link_laws.specs.Laws.{AreNetsUnder};
ghost use Rattle.view_shapes.specs.Pieces.{AreNear, AreSmall, IsOver};
ghost use Rattle.view_shapes.specs.Shown.{IsShownWanted, ShowsFar, called_by};

use crate::moved::push_moved;
use crate::own::push_own;
use crate::pieces::{Piece, ShowFault, are_small};
use crate::wanted::{marks_of, wanted_below};
use net_walk::Cells;
use std::alloc::{AllocError, Global};

fn is_any(marks: &[bool]) -> bool
    ensures { result ≡ list_any (λ is. is) marks.now }
{
    marks.iter().any(|is| *is)
}

// The pieces that are shown of those nets of a cell that are wanted. A cell below is entered only
// for a net that is wanted.
fn find_pieces<C: Cells>(
    alloc: Global,
    cells: &C,
    cell: u32,
    wanted: &[bool],
    called: &[Vec<bool>],
) -> Result<Vec<Piece>, AllocError>
    requires { AreNetsUnder (C.design cells.now) (C.wiring cells.now) (C.tables cells.now) cell }
    ensures shown { IfOk result (λ v. (c x : ℕ) (q : Square) → IsOver v.items c x q
        ↔ IsShownWanted (C.design cells.now) (C.tables cells.now) (called_by called.now) cell
        wanted.now c x q) }
    ensures near { IfOk result (λ v. AreNear v.items) }
{
    cells.sound();
    let mut out = Vec::new(alloc);
    let net_of = cells.net_of(cell);
    let mut at = 0usize;
    'layers: for conductor in 0..cells.conductors() {
        let own = cells.own(cell, conductor);
        push_own(own, conductor, net_of, at, wanted, &mut out)?;
        at += own.len();
    }
    let elements = cells.places(cell);
    'children: for k in 0..elements.len() {
        let element = &elements[k];
        let count = cells.count(element.cell);
        let marks = marks_of(called, element.cell);
        let below = wanted_below(alloc, net_of, at, count, wanted, marks)?;
        let marked = below.as_slice();
        if is_any(marked) {
            let found = find_pieces(alloc, cells, element.cell, marked, &[])?;
            let pieces = found.as_slice();
            push_moved(pieces, &element.motion, net_of, at, &mut out)?;
        }
        at += count as usize;
    }
    let _hull = cells.hull(cell);
    Ok(out)
}

/// The pieces that are shown of those nets of a cell that are wanted: all that they hold, cells
/// below seen, but nothing of the nets of placed cells that `called` marks, by cell and net: calls
/// have pins on them. `TooFar` where one reaches 2^30 or more from the origin. Cost: the items of
/// each cell that is entered for a wanted net, and the pieces.
pub fn shown_pieces<C: Cells>(
    alloc: Global,
    cells: &C,
    cell: u32,
    wanted: &[bool],
    called: &[Vec<bool>],
) -> Result<Vec<Piece>, ShowFault>
    requires { AreNetsUnder (C.design cells.now) (C.wiring cells.now) (C.tables cells.now) cell }
    ensures shown { IfOk result (λ v. (c x : ℕ) (q : Square) → IsOver v.items c x q
        ↔ IsShownWanted (C.design cells.now) (C.tables cells.now) (called_by called.now) cell
        wanted.now c x q) }
    ensures small { IfOk result (λ v. AreSmall v.items) }
    ensures far { IsErrOf result ShowFault.TooFar → ShowsFar (C.design cells.now)
        (C.tables cells.now) (called_by called.now) cell wanted.now }
{
    let pieces = find_pieces(alloc, cells, cell, wanted, called)?;
    if are_small(&pieces) {
        return Ok(pieces);
    }
    Err(ShowFault::TooFar)
}
