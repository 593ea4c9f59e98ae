//! The names of cells, each with its number.
ghost use Rattle.std.specs.Prelude.{◌≡◌, ℕ, List, Option, OnOk, IfOk, IfErr};
ghost use Rattle.cell_graph.specs.Drafts.{HasFew, HasNoRepeat, IsFault, names_of};

use crate::drafts::{CellDraft, LinkFault};
use std::alloc::Global;
use text_table::TextTable;

/// The names in file order, or the first that stands before it.
pub fn names_of(alloc: Global, cells: &[CellDraft]) -> Result<TextTable, LinkFault>
    requires { HasFew cells.now }
    ensures names { IfOk result (λ t. t ≡ names_of cells.now) }
    ensures once { OnOk result (HasNoRepeat cells.now) }
    ensures fault { (top : Option (List ℕ)) → IfErr result (IsFault cells.now top) }
{
    let mut names = TextTable::new(alloc);
    for cell in cells {
        let bytes = cell.name.bytes();
        if names.contains(bytes) {
            return Err(LinkFault::DuplicateCell(cell.name.try_clone(alloc)?));
        }
        names.add(alloc, bytes)?;
    }
    Ok(names)
}
