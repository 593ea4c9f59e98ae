//! Write-once cells, and the notes that know their values.
ghost use Rattle.std.specs.Prelude.{◌≡◌, ℕ, Some};
ghost use Rattle.once_cell.specs.Once.{cell_name, noted};
ghost use denote.Sharing.{said};

use once_cell::race::{Note, OnceBox};
use std::marker::{Model, PhantomData};
use std::sync::Wait;

/// What shows the value of a write-once cell, to any thread. It takes no bytes.
/// A clause reads the cell's name as `cell`, and its value as `value`.
#[derive(Drop)]
pub struct CellNote<T> {
    marker: PhantomData<T>,
    pub ghost cell: { ℕ },
    pub ghost value: { T },
}

impl<T> Model for CellNote<T> {
    ghost also_owns = { λ n. noted T.row n.cell (Some n.value) };

    ghost also_shares = { λ n _ κ. said (noted T.row n.cell (Some n.value)) κ };
}

// It holds a name and what is known by it alone.
unsafe impl<T> Send for CellNote<T> {}

unsafe impl<T> Sync for CellNote<T> {}

impl<T> CellNote<T> {
    /// The same of a note that knows a value.
    pub fn of(note: &Note<T>) -> CellNote<T>
        requires { (x : T) × (note.now.known ≡ Some x) }
        ensures { (result.cell ≡ note.now.cell) × (note.now.known ≡ Some result.value) }
    {
        let _ = note;
        CellNote {
            marker: PhantomData,
        }
    }

    /// A second note, as for another thread.
    pub fn again(&self) -> CellNote<T>
        ensures { (result.cell ≡ self.now.cell) × (result.value ≡ self.now.value) }
    {
        CellNote {
            marker: PhantomData,
        }
    }

    // A note of the same cell learns the value.
    fn teach(&self, blank: Note<T>) -> Note<T>
        requires { blank.cell ≡ self.now.cell }
        ensures { (result.cell ≡ self.now.cell) × (result.known ≡ Some self.now.value) }
    {
        blank
    }

    /// The value of the cell.
    pub fn read<'a>(&self, cell: &'a OnceBox<T>) -> &'a T
        requires { self.now.cell ≡ cell_name cell.now }
        ensures { result.now ≡ self.now.value }
    {
        let mut own = self.teach(cell.note());
        let Some(value) = cell.get_as(&mut own) else {
            unreachable!();
        };
        value
    }
}

/// Sets an empty cell, and gives the note that knows its value. A cell may hand the value back, and
/// is then set again with it: no clause says that this ends.
pub fn set_cell<R: Wait, T: Drop>(rt: &R, cell: &OnceBox<T>, value: Box<T>) -> CellNote<T>
    ensures cell { result.cell ≡ cell_name cell.now }
    ensures value { result.value ≡ value.value }
{
    let mut left = value;
    for _ in rt.forever() {
        // After a refusal the old note knows some value, and no set by it can succeed.
        let mut note = cell.note();
        match cell.set_as(left, &mut note) {
            Ok(()) => return CellNote::of(&note),
            Err(back) => left = back,
        }
    }
    unreachable!();
}
