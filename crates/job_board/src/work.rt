//! What one worker does: it claims jobs that are ready, works them and publishes their values.
ghost use Rattle.std.specs.Prelude.{◌≡◌, ◌<◌, ℕ, length, OnOk, OnErr};
ghost use Rattle.job_board.specs.Board.{IsSeatOf, IsTicket, HasTicket, Stopped, jobs_on, key_on};
ghost use Rattle.job_board.specs.Work.{IsBoardOf, IsWorkers, MayGoOn, HasEnded};

use crate::board::Board;
use crate::crew::Crew;
use crate::gate::Gate;
use crate::seat::{BoardSeat, Claim, Look, Ticket};
use crate::tries::Tries;
use job_graph::Phase;
use std::alloc::{AllocError, Global};
use std::sync::{Condvar, Wait};
use std::time::Duration;

/// Works a claimed job and publishes its value.
fn work_ticket<R: Wait, P: Phase>(
    rt: &R,
    alloc: Global,
    phase: &P,
    board: &Board<P::Out>,
    seat: &mut BoardSeat<P::Out>,
    ticket: Ticket<P::Out>,
) -> Result<(), AllocError>
    requires board { IsBoardOf (P.graph phase.now) (P.key phase.now) board.now }
    requires seat { IsWorkers board.now seat.old }
    requires ticket { IsTicket P.Out.is_defined board.now ticket }
    requires mine { HasTicket board.now seat.old ticket }
    ensures seat { IsSeatOf board.now seat.new }
    ensures worked { OnOk result (MayGoOn board.now seat.new) }
{
    let value = phase.work(alloc, ticket.job(), &board.reads(&ticket))?;
    let value = Box::new(alloc, value)?;
    board.publish(rt, seat, ticket, value);
    Ok(())
}

/// Works a job where it is ready and no seat has it, and says whether it did.
fn try_job<R: Wait, P: Phase, G: Gate>(
    alloc: Global,
    phase: &P,
    crew: &Crew<R, G>,
    board: &Board<P::Out>,
    seat: &mut BoardSeat<P::Out>,
    job: u32,
) -> Result<bool, AllocError>
    requires board { IsBoardOf (P.graph phase.now) (P.key phase.now) board.now }
    requires seat { MayGoOn board.now seat.old }
    requires job { job < length (jobs_on board.now) }
    ensures seat { IsSeatOf board.now seat.new }
    ensures worked { OnOk result (MayGoOn board.now seat.new) }
{
    let Look::Ready(ready) = board.look(seat, job) else {
        return Ok(false);
    };
    let Claim::Mine(ticket) = board.claim(seat, ready) else {
        return Ok(false);
    };
    crew.gate.enter(job);
    work_ticket(crew.rt, alloc, phase, board, seat, ticket)?;
    Ok(true)
}

/// Tries jobs until all are finished or the board is stopped. After a job those that wait for it
/// come first. A worker that finds none to be ready sleeps until a job is published.
fn work_on<R: Wait, P: Phase, G: Gate>(
    alloc: Global,
    phase: &P,
    crew: &Crew<R, G>,
    board: &Board<P::Out>,
    idle: &Condvar,
    seat: &mut BoardSeat<P::Out>,
    tries: &mut Tries,
) -> Result<(), AllocError>
    requires board { IsBoardOf (P.graph phase.now) (P.key phase.now) board.now }
    requires seat { MayGoOn board.now seat.old }
    requires tries { tries.old ≡ length (jobs_on board.now) }
    ensures seat { IsSeatOf board.now seat.new }
    ensures ended { OnOk result (HasEnded board.now seat.new) }
{
    let jobs = u64::from(board.jobs());
    let mut seen = idle.notifications();
    let mut missed = 0u64;
    for _ in crew.rt.forever() {
        let progress = board.progress(seat);
        if progress.stopped || progress.finished == jobs {
            return Ok(());
        }
        let job = tries.next();
        if try_job(alloc, phase, crew, board, seat, job)? {
            idle.notify_all();
            board.add_dependents(job, tries);
            (seen, missed) = (idle.notifications(), 0);
        } else if missed < 2 * jobs {
            missed += 1;
        } else {
            idle.sleep(crew.rt, seen, Duration::from_millis(100));
            (seen, missed) = (idle.notifications(), 0);
        }
    }
    unreachable!();
}

/// What one worker does with its seat, from a place of its own on. A worker that finds no memory
/// stops the board. Workers that find no ready job sleep on `idle`, which is told of each published
/// job and of a stop.
pub(crate) fn work_all<R: Wait, P: Phase, G: Gate>(
    alloc: Global,
    phase: &P,
    crew: &Crew<R, G>,
    board: &Board<P::Out>,
    idle: &Condvar,
    place: u32,
    seat: &mut BoardSeat<P::Out>,
) -> Result<(), AllocError>
    requires board { IsBoardOf (P.graph phase.now) (P.key phase.now) board.now }
    requires seat { MayGoOn board.now seat.old }
    ensures ended { OnOk result (HasEnded board.now seat.new) }
    ensures stopped { OnErr result (Stopped seat.new) }
{
    let jobs = board.jobs();
    if jobs == 0 {
        board.progress(seat);
        return Ok(());
    }
    let Ok(mut tries) = Tries::new(alloc, jobs, place % jobs) else {
        board.stop(seat);
        idle.notify_all();
        return Err(AllocError);
    };
    let ended = work_on(alloc, phase, crew, board, idle, seat, &mut tries);
    if ended.is_err() {
        board.stop(seat);
        idle.notify_all();
    }
    ended
}
