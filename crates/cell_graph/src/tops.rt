//! The top cell: the one of the given name, or the only one that no cell refers to.
ghost use Rattle.std.specs.Prelude.{◌≡◌, ◌<◌, ◌≤◌, length, None, IfOk, IfErr};
ghost use Rattle.cell_graph.specs.Drafts.{AreSound, AreParts, IsFault, IsTop, names_of};
ghost use Rattle.cell_graph.specs.Parts.{AreInside, AreResolved, IsAmong};
ghost use Rattle.cell_graph.specs.Tops.{ArePlaced, MarksMore, IsNextFree, now_of};

use crate::cells::Place;
use crate::drafts::{CellDraft, LinkFault};
use crate::references::name_at;
use net_names::Name;
use std::alloc::{AllocError, Global};
use text_table::TextTable;

fn mark_cells(marks: &mut Vec<bool>, places: &[Place])
    requires { AreInside places.now (length marks.old.items) }
    ensures { MarksMore (IsAmong places.now) marks.old.items marks.new.items }
{
    for place in places {
        marks[place.cell as usize] = true;
    }
}

// Which cells some reference places.
fn placed_of(alloc: Global, parts: &[Vec<Place>]) -> Result<Vec<bool>, AllocError>
    requires { AreResolved parts.now }
    ensures { IfOk result (λ v. ArePlaced parts.now v.items) }
{
    let mut marks = vec![in alloc; false; parts.len()]?;
    for i in 0..parts.len() {
        mark_cells(&mut marks, &parts[i]);
    }
    Ok(marks)
}

// The first cell from a number on that isn't marked.
fn next_free(marks: &[bool], from: usize) -> Option<usize>
    ensures { IsNextFree marks.now from result }
{
    for i in from..marks.len() {
        if !marks[i] {
            return Some(i);
        }
    }
    None
}

// The one cell that none refers to.
fn only_root(alloc: Global, cells: &[CellDraft], parts: &[Vec<Place>]) -> Result<u32, LinkFault>
    requires sound { AreSound cells.now }
    requires parts { AreParts cells.now parts.now }
    ensures tops { IfOk result (λ i. IsTop cells.now None i) }
    ensures fault { IfErr result (IsFault cells.now None) }
{
    let placed = placed_of(alloc, parts)?;
    let Some(i) = next_free(&placed, 0) else {
        return Err(LinkFault::NoTop);
    };
    if let Some(j) = next_free(&placed, i + 1) {
        let one = name_at(alloc, cells, i)?;
        let other = name_at(alloc, cells, j)?;
        return Err(LinkFault::TopUnclear(one, other));
    }
    Ok(i as u32)
}

/// The top cell, or that there is none or more than one. Linear in the references.
pub fn top_of(
    alloc: Global,
    names: &TextTable,
    cells: &[CellDraft],
    parts: &[Vec<Place>],
    top: Option<&Name>,
) -> Result<u32, LinkFault>
    requires names { names.now ≡ names_of cells.now }
    requires sound { AreSound cells.now }
    requires parts { AreParts cells.now parts.now }
    ensures tops { IfOk result (λ i. IsTop cells.now (now_of top.entry) i) }
    ensures fault { IfErr result (IsFault cells.now (now_of top.entry)) }
{
    let Some(name) = top else {
        return only_root(alloc, cells, parts);
    };
    let i = names.place(name.bytes());
    if i == cells.len() {
        return Err(LinkFault::NoTop);
    }
    Ok(i as u32)
}
