//! The notes of a job: those of its inputs, which its claim took, and those of its own value.
ghost use Rattle.std.specs.Prelude.{◌≡◌, ◌+◌, ◌*◌, ◌<◌, ◌≤◌, ◌^◌, ℕ, suc, List, [], ◌∷◌, ◌++◌, map};
ghost use Rattle.std.specs.Prelude.{replicate, length, slice_index, Some, None, vec_capacity};
ghost use Rattle.job_graph.specs.Graph.{inputs_of};
ghost use Rattle.job_board.specs.Rule.{AreDependents, graph_of, dependents_of};
ghost use Rattle.job_board.specs.Notes.{IsRight, AreNotes};
ghost use Rattle.job_board.specs.Slots.{edge_slot, own_slot, held_by, numbered, AreRight};
ghost use Rattle.job_board.specs.Slots.{first as first_slot};
ghost use Rattle.job_board.specs.Layout.{edges_of};
ghost use Rattle.job_board.specs.Plays.{telling, resting, IsFor};
ghost use Rattle.job_board.specs.Pieces.{waiting_slots, HasTaken, IsOut};
ghost use Rattle.job_board.specs.declared.view.Work.TheVariants.{Working};

use crate::layout::Edge;
use crate::view::{BoardTable, TableSeat};
use crate::words::{end, tell};
use job_graph::{CellNote, Defined};

/// Leaves a note of the job's value for each dependent and in the job's own slot.
pub(crate) fn hand_out<T: Defined>(
    table: &BoardTable<T>,
    seat: &mut TableSeat<T>,
    job: u32,
    own: usize,
    edges: &[Edge],
    note: &CellNote<T>,
)
    requires board { IsFor table.now.shared.table_id table.now.shared.key
        seat.old.table_id seat.old.me.0 }
    requires fits { AreDependents (graph_of table.now.shared.key)
        (dependents_of table.now.shared.key) }
    requires edges { edges.now ≡ edges_of (graph_of table.now.shared.key) job }
    requires own { own ≡ own_slot (graph_of table.now.shared.key) job }
    requires work { seat.old.me.0.work ≡ Working job 0 }
    requires hand { IsOut None table.now.shared.key job seat.old.me.1 }
    requires note { IsRight T.is_defined table.now.shared.key job (Some note.now) }
    ensures seat { (seat.new.table_id ≡ seat.old.table_id) × (seat.new.id ≡ seat.old.id) }
    ensures rests { seat.new.me ≡ (resting seat.old.me.0, []) }
{
    for i in 0..edges.len() {
        let edge = edges[i];
        table.shared.exchange(seat, edge.slot, Some(note.again()));
        tell(table, seat, job, i, edge.to);
    }
    table.shared.exchange(seat, own, Some(note.again()));
    end(table, seat, job);
}

/// Takes the notes of a claimed job's inputs out of their slots, into a list that has room for
/// them.
pub(crate) fn take_notes<T: Defined>(
    table: &BoardTable<T>,
    seat: &mut TableSeat<T>,
    job: u32,
    first: usize,
    count: usize,
    notes: &mut Vec<CellNote<T>>,
)
    requires board { IsFor table.now.shared.table_id table.now.shared.key
        seat.old.table_id seat.old.me.0 }
    requires first { first ≡ first_slot (graph_of table.now.shared.key) job }
    requires count { count ≡ length (inputs_of (graph_of table.now.shared.key) job) }
    requires fits { first + count < 2 ^ 64 }
    requires empty { notes.old.items ≡ [] }
    requires room { count ≤ vec_capacity notes.old }
    requires hand { HasTaken None (IsRight T.is_defined) table.now.shared.key job seat.old.me.1 }
    ensures seat { (seat.new.table_id ≡ seat.old.table_id) × (seat.new.id ≡ seat.old.id) }
    ensures view { seat.new.me.0 ≡ seat.old.me.0 }
    ensures hand { IsOut None table.now.shared.key job seat.new.me.1 }
    ensures room { vec_capacity notes.old ≤ vec_capacity notes.new }
    ensures notes { AreNotes T.is_defined table.now.shared.key
        (inputs_of (graph_of table.now.shared.key) job) notes.new.items }
{
    for i in 0..count {
        let found = table.shared.exchange(seat, first + i, None);
        seat.turn();
        let Some(note) = found else {
            unreachable!();
        };
        let Ok(()) = notes.push(note) else {
            unreachable!();
        };
    }
}
