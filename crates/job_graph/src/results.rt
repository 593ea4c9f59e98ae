//! The values of all jobs of a phase.
ghost use Rattle.std.specs.Prelude.{◌≡◌, ℕ, map, length};
ghost use Rattle.once_cell.specs.Once.{cell_name};
ghost use Rattle.job_graph.specs.Notes.{known_values, names_of};

use crate::notes::CellNote;
use crate::phase::Reads;
use once_cell::race::OnceBox;
use std::marker::Model;

/// One value for each job, in write-once cells. Contracts see it as the list of the values.
#[derive(Drop)]
pub struct Results<T> {
    cells: Vec<OnceBox<T>>,
    notes: Vec<CellNote<T>>,
}

impl<T> Model for Results<T> {
    ghost use Rattle.std.specs.Prelude.{◌≡◌, List, map};
    ghost use Rattle.once_cell.specs.Once.{cell_name};
    ghost use Rattle.job_graph.specs.Notes.{known_values, names_of};

    ghost Value = { List T };

    ghost view = { λ r. known_values r.notes.items };

    ghost invariant = { λ r. names_of r.notes.items ≡ map cell_name r.cells.items };
}

impl<T> Results<T> {
    /// The values that the notes know, one note for each cell. It takes no memory.
    pub fn from_cells(cells: Vec<OnceBox<T>>, notes: Vec<CellNote<T>>) -> Results<T>
        requires { names_of notes.items ≡ map cell_name cells.items }
        ensures { result ≡ known_values notes.items }
    {
        Results { cells, notes }
    }

    /// The number of jobs.
    pub fn len(&self) -> usize
        ensures { result ≡ length self.now }
    {
        self.cells.len()
    }
}

impl<T> Reads<T> for Results<T> {
    ghost use Rattle.std.specs.Prelude.{◌<◌, length, slice_get};

    ghost may_read = { λ r job. job < length r };

    ghost value = { λ r job. slice_get r job };

    fn get(&self, job: u32) -> &T {
        let place = job as usize;
        self.notes[place].read(&self.cells[place])
    }
}
