//! The references to each cell, found once for all cells.
ghost use Rattle.std.specs.Prelude.{◌≡◌, ◌<◌, ◌+◌, ℕ, [], length, IfOk, OnOk};
ghost use Rattle.zone_phase.specs.Uses.{AreUses, AreUsesTo, IsPut, lists_of, uses_of};

use cell_graph::Design;
use std::alloc::{AllocError, Global};

/// A reference: the job of the cell that has it, and its number there.
#[derive(Clone, Copy, Debug)]
pub struct Use {
    pub job: u32,
    pub index: usize,
}

/// A cell with the references to it, and how far around it its disturbed squares are looked for.
#[derive(Clone, Copy)]
pub struct UsedCell<'a> {
    pub design: &'a Design,
    pub cell: u32,
    pub uses: &'a [Use],
    pub margin: u32,
}

// An empty list for each cell.
fn no_uses(alloc: Global, cells: u32) -> Result<Vec<Vec<Use>>, AllocError>
    ensures count { IfOk result (λ v. length (lists_of v.items) ≡ cells) }
    ensures empty { IfOk result (λ v. (cell : ℕ) → uses_of (lists_of v.items) cell ≡ []) }
{
    let mut lists = Vec::new(alloc);
    for _ in 0..cells {
        lists.push(Vec::new(alloc))?;
    }
    Ok(lists)
}

// Puts a reference behind the others to its cell.
fn put_use(lists: &mut Vec<Vec<Use>>, cell: u32, found: Use) -> Result<(), AllocError>
    requires { cell < length (lists_of lists.old.items) }
    ensures { OnOk result (IsPut (lists_of lists.old.items) (lists_of lists.new.items) cell found) }
{
    lists[cell as usize].push(found)?;
    Ok(())
}

// Puts the references of a job's cell behind those of the jobs before it.
fn push_uses(lists: &mut Vec<Vec<Use>>, design: &Design, job: u32) -> Result<(), AllocError>
    requires job { job < length design.now.order }
    requires before { AreUsesTo design.now (lists_of lists.old.items) job 0 }
    ensures { OnOk result (AreUsesTo design.now (lists_of lists.new.items) (job + 1) 0) }
{
    design.sound();
    let order = design.order();
    let parent = order[order.len() - 1 - job as usize];
    for (index, place) in design.places(parent).iter().enumerate() {
        put_use(lists, place.cell, Use { job, index })?;
    }
    Ok(())
}

/// For each cell of the design the references of reached cells to it, by jobs: linear in the
/// references.
pub fn find_uses(alloc: Global, design: &Design) -> Result<Vec<Vec<Use>>, AllocError>
    ensures { IfOk result (λ v. AreUses design.now (lists_of v.items)) }
{
    design.sound();
    let mut lists = no_uses(alloc, design.cells())?;
    for job in 0..design.order().len() {
        push_uses(&mut lists, design, job as u32)?;
    }
    Ok(lists)
}
