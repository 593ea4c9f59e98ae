//! The end of a board: its notes move out of the table.
ghost use Rattle.std.specs.Prelude.{◌≡◌, ◌<◌, ◌≤◌, ℕ, true, [], length, slice_index, IsSome};
ghost use Rattle.std.specs.Prelude.{IsOk, IfOk, IfErr, Some, None, vec_capacity};
ghost use Rattle.job_graph.specs.Table.{AreDefined};
ghost use Rattle.job_board.specs.Board.{AreOnce, IsAlone, IsCalm, IsSeatOf, KeepsSeat, ReadCount};
ghost use Rattle.job_board.specs.Board.{SawAll, SawStop, Stopped, claims_of, jobs_on, key_on};
ghost use Rattle.job_board.specs.Rule.{graph_of, IsOnce};
ghost use Rattle.job_board.specs.Notes.{IsRight, EachRight, KeptOwn};
ghost use Rattle.job_board.specs.Pieces.{AreOwn};

use crate::board::Board;
use crate::seat::BoardSeat;
use crate::view::{BoardTable, TableSeat};
use job_graph::{CellNote, Defined, Results};

// Keeps what was found where the slot is the next job's own.
fn keep_own<T>(
    found: Option<CellNote<T>>,
    slot: usize,
    own: &[usize],
    next: &mut usize,
    notes: &mut Vec<CellNote<T>>,
)
    requires own { next.old < length own.now → slice_index own.now next.old ≡ slot
        → IsSome found }
    requires count { (length notes.old.items ≡ next.old) × (next.old ≤ length own.now) }
    requires room { length own.now ≤ vec_capacity notes.old }
    ensures kept { KeptOwn found slot own.now next.old next.new notes.old.items notes.new.items }
    ensures room { length own.now ≤ vec_capacity notes.new }
{
    if *next >= own.len() || own[*next] != slot {
        return;
    }
    let Some(note) = found else {
        unreachable!();
    };
    let Ok(()) = notes.push(note) else {
        unreachable!();
    };
    *next += 1;
}

/// The notes of all values in the order of the jobs, where the seat knows that each is finished.
pub(crate) fn all_notes<T: Defined>(
    table: BoardTable<T>,
    seat: TableSeat<T>,
    own: &[usize],
    notes: &mut Vec<CellNote<T>>,
)
    requires seat { seat.table_id ≡ table.shared.table_id }
    requires full { seat.me.0.full ≡ true }
    requires own { AreOwn (graph_of table.shared.key) own.now }
    requires empty { notes.old.items ≡ [] }
    requires room { length own.now ≤ vec_capacity notes.old }
    ensures notes { EachRight T.is_defined table.shared.key (length (graph_of table.shared.key))
        notes.new.items }
    ensures once { IsOnce seat.me.0.claims }
{
    let mut closed = table.close_with(seat);
    let mut next = 0;
    for slot in 0..closed.slot_count() {
        let found = closed.take(slot);
        keep_own(found, slot, own, &mut next, notes);
    }
    closed.free();
}

/// A board that isn't full, handed back with the number of published jobs that was read.
#[derive(Drop)]
pub struct NotFull<T: Defined> {
    pub board: Board<T>,
    pub seat: BoardSeat<T>,
    pub finished: u64,
}

impl<T: Defined + Drop> Board<T> {
    /// The value of each job, where the number of published jobs reads as that of all jobs; else
    /// the board is handed back. It asks nothing of other seats, and takes no memory. O(jobs +
    /// inputs).
    pub fn close(self, seat: BoardSeat<T>) -> Result<Results<T>, NotFull<T>>
        requires seat { IsSeatOf self seat }
        ensures right { IfOk result (AreDefined T.is_defined (key_on self) (jobs_on self)) }
        ensures once { IfOk result (λ _. AreOnce (claims_of seat)) }
        ensures part { IfErr result (λ n. n.finished < length (jobs_on self)) }
        ensures read { IfErr result (λ n. ReadCount n.seat n.finished) }
        ensures back { IfErr result (λ n. (n.board ≡ self) × KeepsSeat self seat n.seat) }
        ensures calm { IfErr result (λ n. IsCalm seat n.seat) }
        ensures full { SawAll seat → IsOk result }
        ensures alone { IsAlone seat → SawStop seat → Stopped seat }
    {
        let mut seat = seat;
        let finished = self.progress(&mut seat).finished;
        if finished != u64::from(self.layout.graph.jobs()) {
            return Err(NotFull {
                board: self,
                seat,
                finished,
            });
        }
        let Board {
            table,
            layout,
            cells,
            mut notes,
            ..
        } = self;
        all_notes(table, seat.seat, layout.owns.as_slice(), &mut notes);
        Ok(Results::from_cells(cells, notes))
    }
}
