//! What the table of the board is told, and what its seats know. No value of a view is made: it is
//! for contracts alone, and a clause reads an array in it as a list, of any length.
use atomic_table::{Seat, Table, TableRule};
use job_graph::{CellNote, Defined, Graph};
use once_cell::race::OnceBox;
use std::alloc::Global;
use std::marker::PhantomData;
use std::snapshot::Snapshot;

/// What the table is told when it is made.
#[derive(Drop)]
pub struct Plan<T, K> {
    pub graph: Snapshot<Graph>,
    pub key: K,
    pub cells: Snapshot<Vec<OnceBox<T>>>,
}

/// What a seat is at.
pub enum Work {
    /// No job.
    Resting,
    /// The job that it claimed, and how many of its dependents it told, from the first on.
    Working(u64, u64),
}

/// What a seat knows.
pub struct View<T, K> {
    /// None once the seat is spent.
    pub plan: Option<Plan<T, K>>,
    /// The jobs that it claimed, each with the seat that did.
    pub claims: [(u64, u64); 0],
    pub work: Work,
    /// Jobs that were seen to await nothing.
    pub ready: [u64; 0],
    /// Whether all jobs were seen to be finished.
    pub full: bool,
    /// Whether the seat stopped the board.
    pub stopped: bool,
    /// Whether the board was seen to be stopped.
    pub seen_stop: bool,
    /// The word that was read last, and the number that was read there.
    pub last: (u64, u64),
    /// The seat's own number, once it claimed a job.
    pub number: Option<u64>,
    /// How many parts it has of the right to be the only seat.
    pub part: u64,
}

/// The rule of the board's table.
pub struct BoardRule<T> {
    marker: PhantomData<T>,
}

impl<T: Defined> TableRule<Option<CellNote<T>>, View<T, T::Key>, Plan<T, T::Key>> for BoardRule<T> {
    ghost use Rattle.std.specs.Prelude.{None};
    ghost use Rattle.job_board.specs.Rule.{Holds};
    ghost use Rattle.job_board.specs.Views.{newcomer};
    ghost use Rattle.job_board.specs.Notes.{IsRight};

    ghost holds = { λ p. Holds None (IsRight T.is_defined p) p };

    ghost first = { newcomer };
}

pub(crate) type BoardTable<T> = Table<
    Option<CellNote<T>>,
    View<T, <T as Defined>::Key>,
    Plan<T, <T as Defined>::Key>,
    BoardRule<T>,
    Global,
>;

pub(crate) type TableSeat<T> = Seat<Option<CellNote<T>>, View<T, <T as Defined>::Key>>;
