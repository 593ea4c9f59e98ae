//! The calls on the board's words.
ghost use Rattle.std.specs.Prelude.{◌≡◌, ◌≢◌, ◌+◌, ◌*◌, ◌/◌, ◌%◌, ◌<◌, ◌≤◌, ◌^◌, ◌==◌, true, false};
ghost use Rattle.std.specs.Prelude.{length, ℕ, suc, List, [], ◌∷◌, ◌++◌, drop, slice_index, None};
ghost use Rattle.std.specs.Prelude.{Option};
ghost use Rattle.job_graph.specs.Graph.{has};
ghost use Rattle.job_graph.specs.Graph.{inputs_of};
ghost use Rattle.job_board.specs.Rule.{graph_of, graph_in, one_if};
ghost use Rattle.job_board.specs.Views.{all_parts, cut_view, split_off, joined_view};
ghost use Rattle.job_board.specs.Notes.{IsRight};
ghost use Rattle.job_board.specs.Slots.{edge_slot, held_by};
ghost use Rattle.job_board.specs.Pieces.{MayTell, MayEnd};
ghost use Rattle.job_board.specs.declared.view.Work.TheVariants.{Resting, Working};
ghost use Rattle.job_board.specs.Plays.{noting, readied, counting, stopping, telling, resting};
ghost use Rattle.job_board.specs.Plays.{IsFor, Claimed};

use crate::plays::{Claim, Count, Cut, End, Glue, Look, Stop, Tell};
use crate::view::{BoardTable, TableSeat};
use job_graph::Defined;

/// The count of the job: 0 where all of its inputs have arrived.
pub(crate) fn look<T: Defined>(table: &BoardTable<T>, seat: &mut TableSeat<T>, job: u32) -> u64
    requires board { IsFor table.now.shared.table_id table.now.shared.key seat.old.table_id
        seat.old.me.0 }
    requires job { job < length (graph_of table.now.shared.key) }
    ensures seat { (seat.new.table_id ≡ seat.old.table_id) × (seat.new.id ≡ seat.old.id) }
    ensures ready { result ≡ 0 → seat.new.me ≡ (
      noting (readied seat.old.me.0 job) (2 * job + 2) result,
      seat.old.me.1,
    ) }
    ensures waits { result ≢ 0 → seat.new.me ≡ (
      noting seat.old.me.0 (2 * job + 2) result,
      seat.old.me.1,
    ) }
{
    table.shared.load::<Look>(seat, 2 * job as usize + 2)
}

/// 0 where the job is this seat's from now on.
pub(crate) fn claim<T: Defined>(table: &BoardTable<T>, seat: &mut TableSeat<T>, job: u32) -> u64
    requires board { IsFor table.now.shared.table_id table.now.shared.key seat.old.table_id
        seat.old.me.0 }
    requires job { job < length (graph_of table.now.shared.key) }
    requires ready { has job seat.old.me.0.ready ≡ true }
    requires rest { seat.old.me.0.work ≡ Resting }
    ensures seat { (seat.new.table_id ≡ seat.old.table_id) × (seat.new.id ≡ seat.old.id) }
    ensures claim { Claimed None (IsRight T.is_defined) (2 * job + 1) job result
        seat.old.me seat.new.me }
{
    table
        .shared
        .fetch_or::<Claim<T>>(seat, 2 * job as usize + 1, 1)
}

/// The number of finished jobs, and whether the board was stopped.
pub(crate) fn progress<T: Defined>(table: &BoardTable<T>, seat: &mut TableSeat<T>) -> (u64, bool)
    requires board { IsFor table.now.shared.table_id table.now.shared.key
        seat.old.table_id seat.old.me.0 }
    ensures seat { (seat.new.table_id ≡ seat.old.table_id) × (seat.new.id ≡ seat.old.id) }
    ensures count { seat.new.me ≡ (
      noting
          (counting seat.old.me.0 (result.0 == length (graph_in seat.old.me.0.plan)) result.1)
          0 (2 * result.0 + one_if result.1),
      seat.old.me.1,
    ) }
    ensures few { result.0 ≤ length (graph_in seat.old.me.0.plan) }
    ensures full { seat.old.me.0.full ≡ true → result.0 ≡ length (graph_in seat.old.me.0.plan) }
    ensures stop { seat.old.me.0.stopped ≡ true → result.1 ≡ true }
    ensures told { seat.old.me.0.seen_stop ≡ true → result.1 ≡ true }
    ensures alone { seat.old.me.0.part ≡ all_parts → result.1 ≡ true
        → seat.old.me.0.stopped ≡ true }
{
    let word = table.shared.load::<Count>(seat, 0);
    (word / 2, word % 2 == 1)
}

/// Stops the board.
pub(crate) fn stop<T: Defined>(table: &BoardTable<T>, seat: &mut TableSeat<T>)
    requires board { IsFor table.now.shared.table_id table.now.shared.key seat.old.table_id
        seat.old.me.0 }
    ensures seat { (seat.new.table_id ≡ seat.old.table_id) × (seat.new.id ≡ seat.old.id) }
    ensures stop { seat.new.me ≡ (stopping seat.old.me.0, seat.old.me.1) }
{
    table.shared.fetch_or::<Stop>(seat, 0, 1);
}

/// Gives the note of the job's value to one dependent, the next one, and lowers its count.
pub(crate) fn tell<T: Defined>(
    table: &BoardTable<T>,
    seat: &mut TableSeat<T>,
    job: u32,
    told: usize,
    to: u32,
)
    requires board { IsFor table.now.shared.table_id table.now.shared.key seat.old.table_id
        seat.old.me.0 }
    requires work { MayTell (IsRight T.is_defined) table.now.shared.key seat.old.me job told to }
    ensures seat { (seat.new.table_id ≡ seat.old.table_id) × (seat.new.id ≡ seat.old.id) }
    ensures told { seat.new.me ≡ (telling seat.old.me.0 job (suc told), drop 1 seat.old.me.1) }
{
    table.shared.fetch_sub::<Tell>(seat, 2 * to as usize + 2, 1);
}

/// Gives the job's own slot and those of its inputs back: all dependents were told.
pub(crate) fn end<T: Defined>(table: &BoardTable<T>, seat: &mut TableSeat<T>, job: u32)
    requires board { IsFor table.now.shared.table_id table.now.shared.key seat.old.table_id
        seat.old.me.0 }
    requires work { MayEnd None (IsRight T.is_defined) table.now.shared.key seat.old.me job }
    ensures seat { (seat.new.table_id ≡ seat.old.table_id) × (seat.new.id ≡ seat.old.id) }
    ensures ended { seat.new.me ≡ (
      resting seat.old.me.0,
      drop
          (suc (length (inputs_of (graph_in seat.old.me.0.plan) job))) seat.old.me.1,
    ) }
{
    table.shared.fetch_add::<End>(seat, 0, 2);
}

/// A further seat.
pub(crate) fn split<T: Defined>(table: &BoardTable<T>, seat: &mut TableSeat<T>) -> TableSeat<T>
    requires board { IsFor table.now.shared.table_id table.now.shared.key seat.old.table_id
        seat.old.me.0 }
    ensures seat { (seat.new.table_id ≡ seat.old.table_id) × (seat.new.id ≡ seat.old.id)
        × (seat.new.me ≡ (cut_view seat.old.me.0, seat.old.me.1)) }
    ensures further { (result.table_id ≡ seat.old.table_id)
        × (result.me ≡ (split_off seat.old.me.0, [])) }
{
    table.shared.split_seat::<Cut>(seat)
}

/// Takes a seat that holds no slot into this one.
pub(crate) fn join<T: Defined>(table: &BoardTable<T>, seat: &mut TableSeat<T>, other: TableSeat<T>)
    requires board { IsFor table.now.shared.table_id table.now.shared.key seat.old.table_id
        seat.old.me.0 }
    requires other { (other.table_id ≡ table.now.shared.table_id) × (other.me.1 ≡ []) }
    requires rest { other.me.0.work ≡ Resting }
    ensures { (seat.new.table_id ≡ seat.old.table_id) × (seat.new.id ≡ seat.old.id)
        × (seat.new.me ≡ (joined_view seat.old.me.0 other.me.0, seat.old.me.1)) }
{
    table.shared.join_seat::<Glue>(seat, other);
}
