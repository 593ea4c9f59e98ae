//! Workers on the board of a phase.
ghost use Rattle.std.specs.Prelude.{◌≡◌, ◌⊎◌, ◌≤◌, All, length, IfOk, OnOk};
ghost use Rattle.job_graph.specs.Table.{AreDefined};
ghost use Rattle.job_board.specs.Board.{SawAll, SawStop};
ghost use Rattle.job_board.specs.Work.{IsBoardOf, MayGoOn, HasEnded, IsLessBy};

use crate::board::Board;
use crate::crew::Crew;
use crate::gate::Gate;
use crate::seat::BoardSeat;
use crate::work::work_all;
use job_graph::{Defined, Phase, Results};
use std::alloc::{AllocError, Global};
use std::sync::{Condvar, Wait};
use std::thread;
use std::thread::Threads;

/// A seat for each worker, with the worker's number.
fn split_seats<T: Defined + Drop>(
    alloc: Global,
    board: &Board<T>,
    seat: &mut BoardSeat<T>,
    workers: u32,
) -> Result<Vec<(u32, BoardSeat<T>)>, AllocError>
    requires seat { IsLessBy 0 board.now seat.old }
    requires few { workers ≤ 64 }
    ensures seat { OnOk result (IsLessBy workers board.now seat.new) }
    ensures count { IfOk result (λ v. length v.items ≡ workers) }
    ensures seats { IfOk result (λ v. All (λ w. MayGoOn board.now w.1) v.items) }
{
    let mut seats = Vec::with_capacity(alloc, workers as usize)?;
    for worker in 0..workers {
        let further = board.split(alloc, seat)?;
        seats.push((worker, further))?;
    }
    Ok(seats)
}

/// Takes the workers' seats into the only one that is left then. A worker that found no memory ends
/// it.
fn join_seats<T: Defined + Drop>(
    board: &Board<T>,
    seat: &mut BoardSeat<T>,
    ended: Vec<Result<BoardSeat<T>, AllocError>>,
) -> Result<(), AllocError>
    requires seat { IsLessBy (length ended.items) board.now seat.old }
    requires ended { All (λ r. IfOk r (HasEnded board.now)) ended.items }
    requires some { 1 ≤ length ended.items }
    ensures alone { OnOk result (IsLessBy 0 board.now seat.new) }
    ensures cause { OnOk result (SawAll seat.new ⊎ SawStop seat.new) }
{
    let mut ended = ended;
    while let Some(end) = ended.pop() {
        let Ok(other) = end else {
            return Err(AllocError);
        };
        board.join(seat, other);
    }
    Ok(())
}

/// The crew works a board: each worker gets a seat of its own, and all seats come back.
fn work_board<R: Threads + Wait + Sync, P: Phase + Sync, G: Gate + Sync>(
    alloc: Global,
    phase: &P,
    crew: &Crew<R, G>,
    board: &Board<P::Out>,
    seat: &mut BoardSeat<P::Out>,
) -> Result<(), AllocError>
    requires board { IsBoardOf (P.graph phase.now) (P.key phase.now) board.now }
    requires seat { IsLessBy 0 board.now seat.old }
    ensures alone { OnOk result (IsLessBy 0 board.now seat.new) }
    ensures cause { OnOk result (SawAll seat.new ⊎ SawStop seat.new) }
{
    let seats = split_seats(alloc, board, seat, crew.workers as u32)?;
    let idle = &Condvar::new();
    let ended = thread::map_vec(
        crew.rt,
        seats,
        &|worker: (u32, BoardSeat<P::Out>)| -> Result<BoardSeat<P::Out>, AllocError>
            requires board { IsBoardOf (P.graph phase.now) (P.key phase.now) board.now }
            requires seat { MayGoOn board.now worker.1 }
            ensures { IfOk result (HasEnded board.entry.now) }
        {
            let (place, mut seat) = worker;
            work_all(alloc, phase, crew, board, idle, place, &mut seat)?;
            Ok(seat)
        },
    )?;
    join_seats(board, seat, ended)
}

/// The value of each job of a phase, worked by the crew's workers at once without a lock: a worker
/// takes any job whose inputs are all published, enters the gate and works it; it sleeps while
/// there is none. The calling thread is one of them, so a thread that can't be started changes no
/// answer. A worker that finds no memory stops the others. The values stand in the order of the
/// jobs, and are the same for every number of workers and every order in which jobs come free. Want
/// of memory is answered only where this call or a worker found none. O(jobs + inputs) beside the
/// work itself and the waiting.
pub fn run_phase<R: Threads + Wait + Sync, P: Phase + Sync, G: Gate + Sync>(
    alloc: Global,
    phase: &P,
    crew: &Crew<R, G>,
) -> Result<Results<P::Out>, AllocError>
    ensures { IfOk result (AreDefined P.Out.is_defined (P.key phase.now) (P.graph phase.now)) }
{
    let (board, mut seat) = Board::new(alloc, phase.graph(), phase.key())?;
    work_board(alloc, phase, crew, &board, &mut seat)?;
    let Ok(results) = board.close(seat) else {
        unreachable!();
    };
    Ok(results)
}
