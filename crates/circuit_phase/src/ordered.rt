//! The cells with circuits.
ghost use Rattle.std.specs.Prelude.{◌≡◌, ◌<◌, ℕ, length, IfOk, IsSome};
ghost use Rattle.cell_graph.specs.Linked.{plain};
ghost use Rattle.deep_tables.specs.Entries.{entry};
ghost use Rattle.deep_tables.specs.Gates.{gates_of};
ghost use Rattle.flat_layout.specs.Circuits.{AreCircuitCells};
ghost use Rattle.flat_layout.specs.Layout.{IsReached};
ghost use Rattle.flat_layout.specs.Order.{IsOrder};
ghost use Rattle.circuit_phase.specs.Gated.{is_circuit_cell};

use crate::drawn::push_if;
use crate::gated::gated_cells;
use cell_graph::Design;
use deep_tables::Gates;
use std::alloc::{AllocError, Global};

fn is_circuit_cell(top: u32, marks: &[bool], cell: u32) -> bool
    requires { cell < length marks.now }
    ensures { result ≡ is_circuit_cell top marks.now cell }
{
    cell == top || marks[cell as usize]
}

/// The cells with circuits as they stand in the design's order: the top, and those with a good gate
/// in or below them. Linear in the references and the gates.
pub fn circuit_cells(alloc: Global, design: &Design, gates: &Gates) -> Result<Vec<u32>, AllocError>
    requires { (cell : ℕ) → IsReached (plain design.now) cell → IsSome (entry gates.now cell) }
    ensures { IfOk result (λ v. (level : ℕ → ℕ) → IsOrder (plain design.now) level design.now.order
        → AreCircuitCells (plain design.now) level (gates_of gates.now) v.items) }
{
    design.sound();
    let marks = gated_cells(alloc, design, gates)?;
    let mut cells = Vec::new(alloc);
    for cell in design.order() {
        let wanted = is_circuit_cell(design.top(), &marks, *cell);
        push_if(&mut cells, *cell, wanted)?;
    }
    Ok(cells)
}
