//! Which cells chains of references lead to.
ghost use Rattle.std.specs.Prelude.{◌≡◌, ℕ, ◌<◌, length, IfOk, OnOk, Some, slice_get};
ghost use Rattle.cell_graph.specs.Parts.{AreInside, AreResolved, IsAmong};
ghost use Rattle.cell_graph.specs.Marking.{AddsMarks, AreMarked};

use crate::cells::Place;
use std::alloc::{AllocError, Global};

// Marks a cell that wasn't marked, and notes that its references aren't followed yet.
fn mark(marks: &mut Vec<bool>, stack: &mut Vec<u32>, cell: u32) -> Result<(), AllocError>
    requires { cell < length marks.old.items }
    ensures { OnOk result (AddsMarks (λ i. i ≡ cell) marks.old.items marks.new.items stack.old.items
        stack.new.items) }
{
    if !marks[cell as usize] {
        marks[cell as usize] = true;
        stack.push(cell)?;
    }
    Ok(())
}

fn mark_placed(
    marks: &mut Vec<bool>,
    stack: &mut Vec<u32>,
    places: &[Place],
) -> Result<(), AllocError>
    requires { AreInside places.now (length marks.old.items) }
    ensures { OnOk result (AddsMarks (IsAmong places.now) marks.old.items marks.new.items
        stack.old.items stack.new.items) }
{
    for place in places {
        mark(marks, stack, place.cell)?;
    }
    Ok(())
}

/// Which cells one or more references lead to from a cell.
pub fn below(alloc: Global, parts: &[Vec<Place>], cell: usize) -> Result<Vec<bool>, AllocError>
    requires resolved { AreResolved parts.now }
    requires inside { cell < length parts.now }
    ensures { IfOk result (λ v. AreMarked parts.now cell v.items) }
{
    let mut marks = vec![in alloc; false; parts.len()]?;
    let mut stack = Vec::new(alloc);
    mark_placed(&mut marks, &mut stack, &parts[cell])?;
    while let Some(next) = stack.pop() {
        mark_placed(&mut marks, &mut stack, &parts[next as usize])?;
    }
    Ok(marks)
}
