//! The nets that calls have pins on.

ghost use Rattle.std.specs.Prelude.{◌≡◌, ℕ, false, IfOk, IsSome, get_or};
ghost use Rattle.cell_graph.specs.Linked.{plain};
ghost use Rattle.deep_tables.specs.Entries.{entry};
ghost use Rattle.deep_tables.specs.Pins.{pins_of};
ghost use Rattle.flat_layout.specs.Circuits.{both};
ghost use Rattle.flat_layout.specs.Layout.{IsReached};
ghost use Rattle.view_shapes.specs.Shown.{called_by};
ghost use Rattle.view_drawing.specs.Calls.{called_in};

use crate::calls::has_circuit;
use cell_graph::Design;
use deep_tables::{Circuits, Pins};
use std::alloc::{AllocError, Global};

// The marks that are set in both lists.
fn both(alloc: Global, some: &[bool], others: &[bool]) -> Result<Vec<bool>, AllocError>
    ensures { IfOk result (λ v. v.items ≡ both some.now others.now) }
{
    let mut out = Vec::new(alloc);
    let mut rest = some;
    let mut behind = others;
    'marks: while let [a, more @ ..] = rest {
        let [b, later @ ..] = behind else {
            return Ok(out);
        };
        out.push(*a && *b)?;
        rest = more;
        behind = later;
    }
    Ok(out)
}

// The drawn pins of a cell with a circuit; no marks of others.
fn cell_marks(
    alloc: Global,
    pins: &Pins,
    circuits: &Circuits,
    cell: u32,
) -> Result<Vec<bool>, AllocError>
    requires pins { IsSome (entry pins.now cell) }
    requires circuits { IsSome (entry circuits.now cell) }
    ensures { IfOk result (λ v. (b : ℕ) → get_or v.items b false
        ≡ called_in circuits.now (pins_of pins.now) cell b) }
{
    if has_circuit(circuits, cell) {
        let marks = both(alloc, &pins.of(cell).pin, circuits.drawn(cell))?;
        return Ok(marks);
    }
    Ok(Vec::new(alloc))
}

/// For each reached cell, the nets that calls of its circuit have pins on. Linear in the nets.
pub fn called_marks(
    alloc: Global,
    design: &Design,
    pins: &Pins,
    circuits: &Circuits,
) -> Result<Vec<Vec<bool>>, AllocError>
    requires pins { (cell : ℕ) → IsReached (plain design.now) cell → IsSome (entry pins.now cell) }
    requires circuits { (cell : ℕ) → IsReached (plain design.now) cell
        → IsSome (entry circuits.now cell) }
    ensures { IfOk result (λ v. (cell b : ℕ) → IsReached (plain design.now) cell
        → called_by v.items cell b ≡ called_in circuits.now (pins_of pins.now) cell b) }
{
    design.sound();
    let mut all = Vec::new(alloc);
    for _ in 0..design.cells() {
        all.push(Vec::new(alloc))?;
    }
    for cell in design.order() {
        all[*cell as usize] = cell_marks(alloc, pins, circuits, *cell)?;
    }
    Ok(all)
}
