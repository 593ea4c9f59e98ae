//! Cells with a good gate in or below them.
ghost use Rattle.std.specs.Prelude.{◌≡◌, ◌<◌, ◌||◌, ◌↔◌, ℕ, false, true, Some, length, get_or};
ghost use Rattle.std.specs.Prelude.{slice_get, IfOk, IsSome};
ghost use Rattle.cell_graph.specs.Linked.{plain};
ghost use Rattle.cell_graph.specs.declared.cells.Place.{Place};
ghost use Rattle.deep_tables.specs.Entries.{entry};
ghost use Rattle.deep_tables.specs.Gates.{gates_of, plain_state};
ghost use Rattle.flat_layout.specs.Layout.{IsReached};
ghost use Rattle.circuit_phase.specs.Gated.{IsGated, has_good, has_marked, is_good};

use cell_graph::{Design, Place};
use deep_tables::{Gate, GateState, Gates};
use std::alloc::{AllocError, Global};

fn is_good(gate: &Gate) -> bool
    ensures { result ≡ is_good (plain_state gate.now.state) }
{
    match gate.state {
        GateState::Good { .. } => true,
        GateState::Bad(_) => false,
    }
}

fn has_good(gates: &[Gate]) -> bool
    ensures { result ≡ has_good gates.now }
{
    for gate in gates {
        if is_good(gate) {
            return true;
        }
    }
    false
}

fn has_marked(marks: &[bool], places: &[Place]) -> bool
    requires { (i : ℕ) (p : Place) → slice_get places.now i ≡ Some p → p.cell < length marks.now }
    ensures { result ≡ has_marked marks.now places.now }
{
    for place in places {
        if marks[place.cell as usize] {
            return true;
        }
    }
    false
}

fn is_gated(gates: &[Gate], marks: &[bool], places: &[Place]) -> bool
    requires { (i : ℕ) (p : Place) → slice_get places.now i ≡ Some p → p.cell < length marks.now }
    ensures { result ≡ (has_good gates.now || has_marked marks.now places.now) }
{
    has_good(gates) || has_marked(marks, places)
}

/// Which of the reached cells have a good gate in or below them. Linear in the references and the
/// gates.
pub fn gated_cells(alloc: Global, design: &Design, gates: &Gates) -> Result<Vec<bool>, AllocError>
    requires { (cell : ℕ) → IsReached (plain design.now) cell → IsSome (entry gates.now cell) }
    ensures count { IfOk result (λ v. length v.items ≡ length design.now.cells) }
    ensures marked { IfOk result (λ v. (cell : ℕ) → IsReached (plain design.now) cell
        → (get_or v.items cell false ≡ true)
        ↔ IsGated (plain design.now) (gates_of gates.now) cell) }
{
    design.sound();
    let mut marks = vec![in alloc; false; design.cells() as usize]?;
    for cell in design.order() {
        let marked = is_gated(gates.of(*cell), &marks, design.places(*cell));
        marks[*cell as usize] = marked;
    }
    Ok(marks)
}
