//! What a circuit's nets show.

ghost use Rattle.std.specs.Prelude.{◌≡◌, ℕ, List, IfOk, IsErrOf, length, map};
ghost use Rattle.std.specs.List.{All};
ghost use Rattle.net_link_laws.specs.Laws.{AreNetsUnder};
ghost use Rattle.view_netlist.specs.Drawing.{AreSmallShapes};
ghost use Rattle.view_shapes.specs.Shown.{ShowsFar, called_by};
ghost use Rattle.view_drawing.specs.Nets.{list_at};
ghost use Rattle.view_drawing.specs.Shown.{AreNetsDrawn, TellsNets};

use crate::nets::net_shapes;
use net_walk::Cells;
use std::alloc::Global;
use view_netlist::Shape;
use view_shapes::{ShowFault, shown_pieces};

/// The rectangles of the so many nets of a cell's circuit: all that they show in the cell itself.
/// `numbers` has the circuit's number of each net of the cell that it names, `wanted` marks these
/// nets, `called` the nets that calls have pins on, by cell and net. `TooFar` where one reaches 2^30
/// or more from the origin. Cost: the items of each entered cell, and the pieces.
pub fn circuit_shapes<C: Cells>(
    alloc: Global,
    cells: &C,
    cell: u32,
    wanted: &[bool],
    called: &[Vec<bool>],
    numbers: &[Option<u32>],
    count: usize,
) -> Result<Vec<Vec<Shape>>, ShowFault>
    requires { AreNetsUnder (C.design cells.now) (C.wiring cells.now) (C.tables cells.now) cell }
    ensures count { IfOk result (λ v. length v.items ≡ count) }
    ensures drawn { IfOk result (λ v. (nets : List ℕ) → TellsNets wanted.now numbers.now nets
        → length nets ≡ count → AreNetsDrawn (C.design cells.now) (C.tables cells.now)
        (called_by called.now) cell nets (list_at v.items)) }
    ensures small { IfOk result (λ v. All AreSmallShapes (map (λ s. s.items) v.items)) }
    ensures far { IsErrOf result ShowFault.TooFar → ShowsFar (C.design cells.now)
        (C.tables cells.now) (called_by called.now) cell wanted.now }
{
    let pieces = shown_pieces(alloc, cells, cell, wanted, called)?;
    let shapes = net_shapes(alloc, count, numbers, &pieces)?;
    Ok(shapes)
}
