//! Cells that hold nothing of a conductor, nor does any cell below them.
ghost use Rattle.std.specs.Prelude.{◌≡◌, ◌&&◌, ◌==◌, ℕ, false, [], get_or, length, IfOk};
ghost use Rattle.std.specs.List.{list_all};
ghost use Rattle.net_phase.specs.Bare.{AreAllBare, AreBare, mark_lists};
ghost use Rattle.net_phase.specs.Own.{own_at, rect_lists};

use cell_graph::{Design, Place};
use geo_base::Rect;
use std::alloc::{AllocError, Global};

// Whether a mark is set; past the last none is.
fn is_set(marks: &[bool], cell: u32) -> bool
    ensures { result ≡ get_or marks.now cell false }
{
    match marks.get(cell as usize) {
        None => false,
        Some(mark) => *mark,
    }
}

/// Whether a cell is marked for a conductor; past the last conductor or cell none is.
pub fn is_marked(bare: &[Vec<bool>], cell: u32, conductor: u32) -> bool
    ensures { result ≡ get_or (get_or (mark_lists bare.now) conductor []) cell false }
{
    match bare.get(conductor as usize) {
        None => false,
        Some(marks) => is_set(marks, cell),
    }
}

// Whether a cell itself holds nothing of a conductor.
fn holds_none(own: &[Vec<&[Rect]>], cell: u32, conductor: u32) -> bool
    ensures { result ≡ (length (own_at (rect_lists own.now) cell conductor) == 0) }
{
    match own.get(cell as usize) {
        None => true,
        Some(lists) => match lists.get(conductor as usize) {
            None => true,
            Some(rects) => rects.is_empty(),
        },
    }
}

// Whether each placed cell is marked.
fn are_bare(marks: &[bool], places: &[Place]) -> bool
    ensures { result ≡ list_all (λ p. get_or marks.now p.cell false) places.now }
{
    places.iter().all(|place| is_set(marks, place.cell))
}

// Whether a cell holds nothing of a conductor and places only marked cells.
fn is_bare_over(
    own: &[Vec<&[Rect]>],
    cell: u32,
    conductor: u32,
    marks: &[bool],
    places: &[Place],
) -> bool
    ensures { result ≡ (length (own_at (rect_lists own.now) cell conductor) == 0
        && list_all (λ p. get_or marks.now p.cell false) places.now) }
{
    holds_none(own, cell, conductor) && are_bare(marks, places)
}

// Marks of the reached cells that hold nothing of a conductor, nor does any cell below them.
fn bare_cells(
    alloc: Global,
    design: &Design,
    own: &[Vec<&[Rect]>],
    conductor: u32,
) -> Result<Vec<bool>, AllocError>
    ensures { IfOk result (λ v. AreBare design.now (rect_lists own.now) conductor v.items) }
{
    design.sound();
    let mut marks = vec![in alloc; false; design.cells() as usize]?;
    for cell in design.order() {
        if is_bare_over(own, *cell, conductor, &marks, design.places(*cell)) {
            marks[*cell as usize] = true;
        }
    }
    Ok(marks)
}

/// Such marks for each of so many conductors: at most linear in the references for each of them.
pub fn all_bare(
    alloc: Global,
    design: &Design,
    own: &[Vec<&[Rect]>],
    conductors: u32,
) -> Result<Vec<Vec<bool>>, AllocError>
    ensures { IfOk result (λ v. AreAllBare design.now (rect_lists own.now) (mark_lists v.items)) }
{
    let mut all = Vec::new(alloc);
    for conductor in 0..conductors {
        let marks = bare_cells(alloc, design, own, conductor)?;
        all.push(marks)?;
    }
    Ok(all)
}
