//! The values of a claimed job's inputs, as the phase reads them.
use job_graph::{CellNote, Reads};
use once_cell::race::OnceBox;

/// The cells of all jobs, the inputs of one job in ascending order, and a note of each input.
#[derive(Drop)]
pub(crate) struct Inputs<'a, T> {
    pub cells: &'a [OnceBox<T>],
    pub jobs: &'a [u32],
    pub notes: &'a Vec<CellNote<T>>,
}

impl<T> Reads<T> for Inputs<'_, T> {
    ghost use Rattle.job_board.specs.Inputs.{MayRead, value_of};

    ghost may_read = { λ r. MayRead r.cells.now r.jobs.now r.notes.now.items };

    ghost value = { λ r. value_of r.jobs.now r.notes.now.items };

    fn get(&self, job: u32) -> &T {
        let Ok(place) = self.jobs.binary_search(&job) else {
            unreachable!();
        };
        self.notes[place].read(&self.cells[job as usize])
    }
}
