//! The machine of jobs and the board, step by step, on three jobs.

ghost use Rattle.std.specs.Prelude.{◌≡◌, ◌<◌, length, IfOk, OnOk};
ghost use Rattle.job_board.specs.Board.{IsFree, IsSeatOf, IsTicket, HasTicket, jobs_on, key_on};

use crate::graphs::graph_of;
use crate::phase::Worth;
use job_board::{Board, BoardSeat, Claim, Look, NotFull, Progress, Ticket};
use job_graph::{Defined, Event, JobState, Reads, Results, Step};
use std::alloc::{AllocError, Global};
use std::sync::Wait;
use std::test::Fail;

// Jobs 0 and 1 wait for none, job 2 for both.
const THREE: [(u32, u32); 3] = [(0, 0), (0, 0), (0, 2)];

// What each event answers, in turn.
const ROWS: [(Event, Step); 15] = [
    (Event::Claim(0, 2), Step::NotReady(2)),
    (Event::Claim(0, 0), Step::Done),
    (Event::Arrive(0, 2), Step::Idle),
    (Event::Publish(1, 0), Step::Idle),
    (Event::Publish(0, 0), Step::Done),
    (Event::Arrive(0, 2), Step::Done),
    (Event::Arrive(0, 2), Step::Idle),
    (Event::Claim(1, 0), Step::Taken(0)),
    (Event::Claim(0, 2), Step::NotReady(1)),
    (Event::Claim(1, 1), Step::Done),
    (Event::Publish(1, 1), Step::Done),
    (Event::Arrive(1, 2), Step::Done),
    (Event::Claim(1, 2), Step::Done),
    (Event::Publish(1, 2), Step::Done),
    (Event::Publish(1, 2), Step::Idle),
];

#[test]
fn machine_by_hand(rt: HostRuntime) -> Result<(), Fail> {
    let alloc: Global = rt.alloc();
    let graph = graph_of(alloc, &THREE)?;
    let mut state = JobState::start(alloc, &graph)?;
    for (event, answer) in ROWS {
        assert!(rt; state.step(&graph, event) == answer);
    }
    Ok(())
}

#[test]
fn two_seats_claim_one_job(rt: HostRuntime) -> Result<(), Fail> {
    let alloc: Global = rt.alloc();
    let graph = graph_of(alloc, &THREE)?;
    let (board, seat) = Board::<Worth>::new(alloc, &graph, ())?;
    let mut seat = seat;
    let mut other = board.split(alloc, &mut seat)?;
    let Look::Ready(ready) = board.look(&mut seat, 0) else {
        return Err(Fail::from(AllocError));
    };
    let Look::Ready(same) = board.look(&mut other, 0) else {
        return Err(Fail::from(AllocError));
    };
    let Claim::Mine(_ticket) = board.claim(&mut seat, ready) else {
        return Err(Fail::from(AllocError));
    };
    let Claim::Taken(word) = board.claim(&mut other, same) else {
        return Err(Fail::from(AllocError));
    };
    assert!(rt; word == 1);
    Ok(())
}

// Claims a job that is ready and that no seat has.
fn claimed<T: Defined>(
    board: &Board<T>,
    seat: &mut BoardSeat<T>,
    job: u32,
) -> Result<Ticket<T>, AllocError>
    requires seat { IsSeatOf board.now seat.old }
    requires free { IsFree board.now seat.old }
    requires job { job < length (jobs_on board.now) }
    ensures seat { IsSeatOf board.now seat.new }
    ensures job { IfOk result (λ t. t.job ≡ job) }
    ensures ticket { IfOk result (IsTicket T.is_defined board.now) }
    ensures mine { IfOk result (HasTicket board.now seat.new) }
{
    let Look::Ready(ready) = board.look(seat, job) else {
        return Err(AllocError);
    };
    let Claim::Mine(ticket) = board.claim(seat, ready) else {
        return Err(AllocError);
    };
    Ok(ticket)
}

// Claims a job that is ready and publishes this value of it.
fn worked<R: Wait, T: Defined + Drop>(
    rt: &R,
    board: &Board<T>,
    seat: &mut BoardSeat<T>,
    job: u32,
    value: Box<T>,
) -> Result<(), AllocError>
    requires seat { IsSeatOf board.now seat.old }
    requires free { IsFree board.now seat.old }
    requires job { job < length (jobs_on board.now) }
    requires right { T.is_defined (key_on board.now) job value.value }
    ensures seat { IsSeatOf board.now seat.new }
    ensures free { OnOk result (IsFree board.now seat.new) }
{
    let ticket = claimed(board, seat, job)?;
    board.publish(rt, seat, ticket, value);
    Ok(())
}

// The claim word of a job that some seat has.
fn taken<T: Defined>(board: &Board<T>, seat: &mut BoardSeat<T>, job: u32) -> Result<u64, AllocError>
    requires seat { IsSeatOf board.now seat.old }
    requires free { IsFree board.now seat.old }
    requires job { job < length (jobs_on board.now) }
    ensures seat { IsSeatOf board.now seat.new }
    ensures free { OnOk result (IsFree board.now seat.new) }
{
    let Look::Ready(ready) = board.look(seat, job) else {
        return Err(AllocError);
    };
    let Claim::Taken(word) = board.claim(seat, ready) else {
        return Err(AllocError);
    };
    Ok(word)
}

// Closes the board before the last publication and after it: the number that was handed back, and
// the values.
fn closed<R: Wait, T: Defined + Drop>(
    rt: &R,
    board: Board<T>,
    seat: BoardSeat<T>,
    last: Ticket<T>,
    value: Box<T>,
) -> Result<(u64, Results<T>), AllocError>
    requires seat { IsSeatOf board seat }
    requires ticket { IsTicket T.is_defined board last }
    requires mine { HasTicket board seat last }
    requires right { T.is_defined (key_on board) last.job value.value }
    ensures { IfOk result (λ r. length r.1 ≡ length (jobs_on board)) }
{
    let Err(part) = board.close(seat) else {
        return Err(AllocError);
    };
    let NotFull {
        board,
        mut seat,
        finished,
    } = part;
    board.publish(rt, &mut seat, last, value);
    let Ok(values) = board.close(seat) else {
        return Err(AllocError);
    };
    Ok((finished, values))
}

// Works jobs 0 and 1: what a look at job 2 told before and between them, and job 0's claim word.
fn two_worked<R: Wait>(
    rt: &R,
    alloc: Global,
    board: &Board<Worth>,
    seat: &mut BoardSeat<Worth>,
) -> Result<([Look; 2], u64), AllocError>
    requires seat { IsSeatOf board.now seat.old }
    requires free { IsFree board.now seat.old }
    requires jobs { length (jobs_on board.now) ≡ 3 }
    ensures seat { IsSeatOf board.now seat.new }
    ensures free { OnOk result (IsFree board.now seat.new) }
{
    let (ten, twenty) = (Box::new(alloc, Worth(10))?, Box::new(alloc, Worth(20))?);
    let before = board.look(seat, 2);
    worked(rt, board, seat, 0, ten)?;
    let between = board.look(seat, 2);
    let word = taken(board, seat, 0)?;
    worked(rt, board, seat, 1, twenty)?;
    Ok(([before, between], word))
}

// What waits, what is taken, what a job reads, and when the board may be closed.
#[test]
fn board_by_hand(rt: HostRuntime) -> Result<(), Fail> {
    let alloc: Global = rt.alloc();
    let graph = graph_of(alloc, &THREE)?;
    let (board, mut seat) = Board::<Worth>::new(alloc, &graph, ())?;
    let (looks, word) = two_worked(&rt, alloc, &board, &mut seat)?;
    assert!(rt; looks == [Look::NotReady(2), Look::NotReady(1)] && word == 1);
    let last = claimed(&board, &mut seat, 2)?;
    assert!(rt; graph.inputs(2).len() == 2);
    assert!(rt; board.input(&last, 0).0 == 10 && board.input(&last, 1).0 == 20);
    let two = Progress {
        finished: 2,
        stopped: false,
    };
    assert!(rt; board.progress(&mut seat) == two);
    let (finished, values) = closed(&rt, board, seat, last, Box::new(alloc, Worth(30))?)?;
    assert!(rt; finished == 2);
    assert!(rt; values.get(0).0 == 10 && values.get(1).0 == 20 && values.get(2).0 == 30);
    Ok(())
}

// One seat's stop is told to the other, and counts no job.
#[test]
fn stop_is_told(rt: HostRuntime) -> Result<(), Fail> {
    let alloc: Global = rt.alloc();
    let graph = graph_of(alloc, &THREE)?;
    let (board, seat) = Board::<Worth>::new(alloc, &graph, ())?;
    let mut seat = seat;
    let mut other = board.split(alloc, &mut seat)?;
    board.stop(&mut other);
    let told = Progress {
        finished: 0,
        stopped: true,
    };
    assert!(rt; board.progress(&mut seat) == told);
    Ok(())
}
