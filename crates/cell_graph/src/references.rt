//! References by name, resolved to numbers of cells.
ghost use Rattle.std.specs.Prelude.{◌≡◌, ◌<◌, ℕ, length, List, Option, Some, slice_get, IfOk};
ghost use Rattle.std.specs.Prelude.{IfErr, OnOk};
ghost use Rattle.cell_graph.specs.declared.drafts.CellDraft.{CellDraft};
ghost use Rattle.cell_graph.specs.Drafts.{HasFew, HasNoRepeat, IsLoose, IsFault, AreAllResolved};
ghost use Rattle.cell_graph.specs.Drafts.{AreParts, names_of, IsNamed};
ghost use Rattle.cell_graph.specs.Naming.{place_of};

use crate::cells::Place;
use crate::drafts::{CellDraft, DraftRef, LinkFault};
use net_names::Name;
use std::alloc::{AllocError, Global};
use text_table::TextTable;

/// The name of a cell, once more.
pub fn name_at(alloc: Global, cells: &[CellDraft], cell: usize) -> Result<Name, AllocError>
    requires { cell < length cells.now }
    ensures { IfOk result (λ name. IsNamed cells.now name cell) }
{
    cells[cell].name.try_clone(alloc)
}

fn place_of(r: &DraftRef, cell: u32) -> Place
    ensures { result ≡ place_of r.now cell }
{
    Place {
        cell,
        motion: r.motion,
        columns: r.columns,
        rows: r.rows,
        column_step: r.column_step,
        row_step: r.row_step,
    }
}

// The references of a cell, resolved, or the first that names no cell.
fn places_at(
    alloc: Global,
    names: &TextTable,
    cells: &[CellDraft],
    i: usize,
) -> Result<Vec<Place>, LinkFault>
    requires names { names.now ≡ names_of cells.now }
    requires few { HasFew cells.now }
    requires once { HasNoRepeat cells.now }
    requires inside { i < length cells.now }
    requires before { (j k : ℕ) → j < i → IsLoose cells.now j k → ⊥ }
    ensures places { IfOk result (λ v. (c : CellDraft) → slice_get cells.now i ≡ Some c
        → AreAllResolved cells.now c.refs.items v.items) }
    ensures fault { (top : Option (List ℕ)) → IfErr result (IsFault cells.now top) }
{
    let mut places = Vec::new(alloc);
    for r in &cells[i].refs {
        let cell = names.place(r.cell.bytes());
        if cell == cells.len() {
            return Err(LinkFault::NoSuchCell(r.cell.try_clone(alloc)?));
        }
        places
            .push(place_of(r, cell as u32))
            .map_err(|_| LinkFault::NoMemory)?;
    }
    Ok(places)
}

/// The references of all cells, resolved, or the first that names no cell. Linear in the
/// references.
pub fn parts_of(
    alloc: Global,
    names: &TextTable,
    cells: &[CellDraft],
) -> Result<Vec<Vec<Place>>, LinkFault>
    requires names { names.now ≡ names_of cells.now }
    requires few { HasFew cells.now }
    requires once { HasNoRepeat cells.now }
    ensures parts { IfOk result (λ v. AreParts cells.now v.items) }
    ensures fault { (top : Option (List ℕ)) → IfErr result (IsFault cells.now top) }
{
    let mut parts = Vec::new(alloc);
    for i in 0..cells.len() {
        let places = places_at(alloc, names, cells, i)?;
        parts.push(places).map_err(|_| LinkFault::NoMemory)?;
    }
    Ok(parts)
}
