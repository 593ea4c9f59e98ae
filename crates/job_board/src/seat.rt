//! Seats of a board, and what a board hands out to them.
ghost use Rattle.std.specs.Prelude.{◌≡◌};

use crate::view::TableSeat;
use job_graph::{CellNote, Defined};
use std::marker::Model;

/// The right of one worker to step on a board, with room for the notes of any one job's inputs.
#[derive(Drop)]
pub struct BoardSeat<T: Defined> {
    pub(crate) seat: TableSeat<T>,
    pub(crate) room: Vec<CellNote<T>>,
}

impl<T: Defined> Model for BoardSeat<T> {
    ghost use Rattle.std.specs.Prelude.{vec_capacity};
    ghost use Rattle.job_board.specs.Board.{SeatState};

    ghost Value = { SeatState T T.Key };

    ghost view = { λ s. record {
      board = s.seat.table_id;
      me = s.seat.me;
      room = vec_capacity s.room;
    } };
}

/// A job that was seen to await nothing.
#[derive(Clone, Copy, Debug, PartialEq, Eq)]
pub struct Ready {
    pub job: u32,
}

/// What a look at a job's count found.
#[derive(Clone, Copy, Debug, PartialEq, Eq)]
pub enum Look {
    Ready(Ready),
    /// So many inputs were awaited.
    NotReady(u64),
}

/// A claimed job, with a note of each input's value.
#[derive(Drop)]
pub struct Ticket<T> {
    pub(crate) job: u32,
    pub(crate) notes: Vec<CellNote<T>>,
}

impl<T> Model for Ticket<T> {
    ghost use Rattle.std.specs.Prelude.{vec_capacity};
    ghost use Rattle.job_board.specs.Board.{TicketState};

    ghost Value = { TicketState T };

    ghost view = { λ t. record {
      job = t.job;
      notes = t.notes.items;
      room = vec_capacity t.notes;
    } };
}

impl<T> Ticket<T> {
    /// The claimed job.
    pub fn job(&self) -> u32
        ensures { result ≡ self.now.job }
    {
        self.job
    }
}

/// What a claim found.
#[derive(Drop)]
pub enum Claim<T> {
    Mine(Ticket<T>),
    /// Another seat has the job, by the number in its claim word.
    Taken(u64),
}

/// How far a board is.
#[derive(Clone, Copy, Debug, PartialEq, Eq)]
pub struct Progress {
    /// The number of published jobs.
    pub finished: u64,
    pub stopped: bool,
}
