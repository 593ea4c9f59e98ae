//! The cells with circuits, their numbers and their circuits' names.
ghost use Rattle.std.specs.Prelude.{◌≡◌, ◌<◌, ◌^◌, ℕ, length, map, get_or, IfOk, IsSome};
ghost use Rattle.cell_graph.specs.Linked.{height_at, plain};
ghost use Rattle.deep_tables.specs.Entries.{entry};
ghost use Rattle.deep_tables.specs.Gates.{gates_of};
ghost use Rattle.deep_tables.specs.Positions.{ArePositions};
ghost use Rattle.flat_layout.specs.Circuits.{AreCircuitCells, cell_circuit_names, cell_name};
ghost use Rattle.flat_layout.specs.Layout.{IsReached};
ghost use Rattle.net_names.specs.Folding.{folded_bytes};
ghost use Rattle.circuit_phase.specs.Names.{folded_names};
ghost use Rattle.circuit_phase.specs.Placed.{IsNumberOf};

use crate::names::circuit_names;
use crate::ordered::circuit_cells;
use cell_graph::Design;
use deep_tables::{Gates, positions};
use list_base::number;
use net_names::Name;
use std::alloc::{AllocError, Global};

/// The cells with circuits, in the design's order; for each cell its position among them, 0 where
/// it isn't there; and the name of each one's circuit.
#[derive(Drop)]
pub struct CircuitCells {
    pub cells: Vec<u32>,
    pub numbers: Vec<u32>,
    pub names: Vec<Name>,
}

// The names of cells, as the layout has them.
fn cell_names<'a>(
    alloc: Global,
    design: &'a Design,
    cells: &[u32],
) -> Result<Vec<&'a Name>, AllocError>
    requires { (i : ℕ) → i < length cells.now → get_or cells.now i 0 < length design.now.cells }
    ensures { IfOk result (λ v. folded_names v.items
        ≡ map (λ cell. folded_bytes (cell_name (plain design.now) cell)) cells.now) }
{
    let mut names = Vec::new(alloc);
    for cell in cells {
        names.push(design.name(*cell))?;
    }
    Ok(names)
}

/// The cells with circuits: the top, and those with a good gate in or below them. 2^32 cells are
/// refused. Linear in the references, the gates and the bytes of the cells' names.
pub fn find_circuits(
    alloc: Global,
    design: &Design,
    gates: &Gates,
) -> Result<CircuitCells, AllocError>
    requires { (cell : ℕ) → IsReached (plain design.now) cell → IsSome (entry gates.now cell) }
    ensures cells { IfOk result (λ v. AreCircuitCells (plain design.now) (height_at design.now)
        (gates_of gates.now) v.cells.items) }
    ensures count { IfOk result (λ v. length v.numbers.items ≡ length design.now.cells) }
    ensures numbers { IfOk result (λ v.
        ArePositions v.cells.items (length v.cells.items) v.numbers.items) }
    ensures names { IfOk result (λ v.
        v.names.items ≡ cell_circuit_names (plain design.now) v.cells.items) }
{
    design.sound();
    let cells = circuit_cells(alloc, design, gates)?;
    number(cells.len())?;
    let numbers = positions(alloc, design.cells(), &cells)?;
    let bases = cell_names(alloc, design, &cells)?;
    let names = circuit_names(alloc, &bases)?;
    Ok(CircuitCells {
        cells,
        numbers,
        names,
    })
}

/// The number of a cell's circuit, where it has one: its position among the cells with circuits.
/// Constant time.
pub fn number_of(cells: &[u32], numbers: &[u32], cell: u32) -> Option<u32>
    requires within { cell < length numbers.now }
    requires numbers { ArePositions cells.now (length cells.now) numbers.now }
    ensures { IsNumberOf cells.now cell result }
{
    let number = numbers[cell as usize];
    let at = number as usize;
    if at >= cells.len() {
        return None;
    }
    if cells[at] != cell {
        return None;
    }
    Some(number)
}
