//! A board at its start.
ghost use Rattle.std.specs.Prelude.{◌≡◌, ◌<◌, ◌≤◌, ◌^◌, ℕ, [], length, replicate, IfOk};
ghost use Rattle.job_board.specs.Rule.{AreDependents, graph_of, dependents_of};
ghost use Rattle.job_board.specs.Views.{newcomer};
ghost use Rattle.job_board.specs.Slots.{first};
ghost use Rattle.job_board.specs.Pieces.{AreFirstWords, MayWork};
ghost use Rattle.job_board.specs.Board.{IsFree, IsSeatOf, IsAlone, Stopped, claims_of, jobs_on};
ghost use Rattle.job_board.specs.Board.{key_on};

use crate::board::Board;
use crate::layout::Layout;
use crate::seat::BoardSeat;
use crate::view::{BoardTable, Plan, TableSeat};
use atomic_table::Table;
use job_graph::{Defined, Graph};
use once_cell::race::OnceBox;
use std::alloc::{AllocError, Global};
use std::snapshot::Snapshot;

/// A table whose words say that nothing was done yet, with its first seat.
pub(crate) fn open_table<T: Defined>(
    alloc: Global,
    words: &[u64],
    slots: usize,
    plan: &Plan<T, T::Key>,
) -> Result<(BoardTable<T>, TableSeat<T>), AllocError>
    requires fits { AreDependents (graph_of plan.now) (dependents_of plan.now) }
    requires words { AreFirstWords (graph_of plan.now) words.now }
    requires slots { slots ≡ first (graph_of plan.now) (length (graph_of plan.now)) }
    ensures key { IfOk result (λ t. t.0.shared.key ≡ plan.now) }
    ensures seat { IfOk result (λ t. MayWork t.0.shared.table_id t.0.shared.key t.1) }
    ensures me { IfOk result (λ t. t.1.me ≡ (newcomer plan.now, [])) }
{
    Table::vacant(alloc, words, slots, plan)
}

/// The words of a board where nothing was done yet.
fn first_words(alloc: Global, graph: &Graph) -> Result<Vec<u64>, AllocError>
    ensures { IfOk result (λ v. AreFirstWords graph.now v.items) }
{
    let mut words = Vec::new(alloc);
    words.push(0)?;
    for job in 0..graph.jobs() {
        words.push(0)?;
        words.push(graph.inputs(job).len() as u64)?;
    }
    Ok(words)
}

/// An empty cell for each job.
fn no_values<T: Drop>(alloc: Global, jobs: u32) -> Result<Vec<OnceBox<T>>, AllocError>
    ensures { IfOk result (λ v. length v.items ≡ jobs) }
{
    let mut cells = Vec::with_capacity(alloc, jobs as usize)?;
    for _ in 0..jobs {
        cells.push(OnceBox::new(alloc))?;
    }
    Ok(cells)
}

impl<T: Defined + Drop> Board<T> {
    /// A board of these jobs where nothing was done yet, with its first seat. A value is right for
    /// a job where it is the defined one by the key. O(jobs + inputs).
    pub fn new(
        alloc: Global,
        graph: &Graph,
        key: T::Key,
    ) -> Result<(Board<T>, BoardSeat<T>), AllocError>
        ensures jobs { IfOk result (λ r. jobs_on r.0 ≡ graph.now) }
        ensures key { IfOk result (λ r. key_on r.0 ≡ key) }
        ensures seat { IfOk result (λ r. IsSeatOf r.0 r.1) }
        ensures free { IfOk result (λ r. IsFree r.0 r.1) }
        ensures claims { IfOk result (λ r. claims_of r.1 ≡ []) }
        ensures calm { IfOk result (λ r. Stopped r.1 → ⊥) }
        ensures alone { IfOk result (λ r. IsAlone r.1) }
    {
        let layout = Layout::of(alloc, graph)?;
        let cells = no_values(alloc, graph.jobs())?;
        let words = first_words(alloc, graph)?;
        let plan = Plan {
            graph: Snapshot::of(graph),
            key,
            cells: Snapshot::of(&cells),
        };
        let (table, seat) = open_table(alloc, &words, layout.slots, &plan)?;
        let notes = Vec::with_capacity(alloc, cells.len())?;
        let room = Vec::with_capacity(alloc, layout.most)?;
        let board = Board {
            alloc,
            table,
            layout,
            cells,
            notes,
        };
        Ok((board, BoardSeat { seat, room }))
    }
}
