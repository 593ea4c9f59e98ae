//! The cells that a cell places.
ghost use Rattle.std.specs.Prelude.{◌≡◌, ◌<◌, ◌++◌, length, map, IfOk, OnOk};
ghost use Rattle.flat_layout.specs.Arrays.{array_places};
ghost use Rattle.cell_graph.specs.Linked.{plain, reference};
ghost use Rattle.circuit_phase.specs.Placed.{placed_cells};

use cell_graph::{Design, Place};
use std::alloc::{AllocError, Global};

// Adds the cell of a reference, once for each of its placements.
fn push_array(place: &Place, out: &mut Vec<u32>) -> Result<(), AllocError>
    ensures { OnOk result (out.new.items ≡ out.old.items
        ++ map (λ p. p.cell) (array_places (reference place.now) 0 place.now.rows)) }
{
    for _ in 0..u32::from(place.rows) * u32::from(place.columns) {
        out.push(place.cell)?;
    }
    Ok(())
}

/// The cell of each placement of a cell, by reference, then row, then column. Linear in the
/// placements.
pub fn placed_cells(alloc: Global, design: &Design, cell: u32) -> Result<Vec<u32>, AllocError>
    requires { cell < length design.now.cells }
    ensures { IfOk result (λ v. v.items ≡ placed_cells (plain design.now) cell) }
{
    let mut out = Vec::new(alloc);
    for place in design.places(cell) {
        push_array(place, &mut out)?;
    }
    Ok(out)
}
