//! The board: its calls for workers.
ghost use Rattle.std.specs.Prelude.{◌≡◌, ◌≢◌, ◌⊎◌, ◌↔◌, ◌+◌, ◌*◌, ◌<◌, ◌≤◌, ℕ, [], ◌∷◌, ◌++◌};
ghost use Rattle.std.specs.Prelude.{length, slice_index, true, slice_get, IfOk, OnErr, IsSomeAnd};
ghost use Rattle.std.specs.Prelude.{Some};
ghost use Rattle.job_graph.specs.Graph.{Waits, inputs_of};
ghost use Rattle.job_board.specs.Inputs.{MayRead, value_of};
ghost use Rattle.job_graph.specs.Notes.{known_values};
ghost use Rattle.job_board.specs.Board.{IsFree, IsSeatOf, IsTicket, HasTicket, KeepsSeat};
ghost use Rattle.job_board.specs.Board.{KeepsSeen, IsCalm, Read, IsNamed, IsPublished, IsAlone};
ghost use Rattle.job_board.specs.Board.{SawReady, SawAll, SawStop, Stopped, claims_of, parts_of};
ghost use Rattle.job_board.specs.Board.{with_parts, GivesOne, TicketState, jobs_on, key_on};
ghost use Rattle.job_board.specs.Answers.{IfReady, IfNotReady, IfMine, IfTaken, count_in};
ghost use Rattle.job_board.specs.Answers.{claim_in, word_in};

use crate::inputs::Inputs;
use crate::layout::Layout;
use crate::publish::{hand_out, take_notes};
use crate::seat::{BoardSeat, Claim, Look, Progress, Ready, Ticket};
use crate::tries::Tries;
use crate::view::BoardTable;
use crate::words;
use job_graph::{CellNote, Defined, set_cell};
use once_cell::race::OnceBox;
use std::alloc::{AllocError, Global};
use std::marker::Model;
use std::mem;
use std::sync::Wait;

/// The jobs of a phase, claimed, worked and published by seats without a lock. At every moment its
/// words, slots and seats show a state of the machine of jobs.
#[derive(Drop)]
pub struct Board<T: Defined> {
    pub(crate) alloc: Global,
    pub(crate) table: BoardTable<T>,
    pub(crate) layout: Layout,
    pub(crate) cells: Vec<OnceBox<T>>,
    /// Room for a note of each job's value.
    pub(crate) notes: Vec<CellNote<T>>,
}

impl<T: Defined> Model for Board<T> {
    ghost use Rattle.job_board.specs.Board.{BoardState, IsBoard};

    ghost Value = { BoardState T T.Key };

    ghost view = { λ b. record {
      id = b.table.shared.table_id;
      plan = b.table.shared.key;
    } };

    ghost invariant = { λ b. IsBoard b.table.shared.key b.layout b.cells.items b.notes };
}

impl<T: Defined> Board<T> {
    /// The number of jobs.
    pub(crate) fn jobs(&self) -> u32
        ensures { result ≡ length (jobs_on self.now) }
    {
        self.layout.graph.jobs()
    }

    /// The values of the inputs of the ticket's job.
    pub(crate) fn reads<'a>(&'a self, ticket: &'a Ticket<T>) -> Inputs<'a, T>
        requires { IsTicket T.is_defined self.now ticket.now }
        ensures read { (input : ℕ) → Waits (jobs_on self.now) ticket.now.job input
            → MayRead result.cells.now result.jobs.now result.notes.now.items input }
        ensures right { (input : ℕ) → Waits (jobs_on self.now) ticket.now.job input
            → IsSomeAnd (value_of result.jobs.now result.notes.now.items input)
            (T.is_defined (key_on self.now) input) }
    {
        Inputs {
            cells: &self.cells,
            jobs: self.layout.graph.inputs(ticket.job),
            notes: &ticket.notes,
        }
    }

    /// Puts the jobs that wait for a job on a worker's list.
    pub(crate) fn add_dependents(&self, job: u32, tries: &mut Tries)
        requires job { job < length (jobs_on self.now) }
        requires tries { tries.old ≡ length (jobs_on self.now) }
        ensures { tries.new ≡ tries.old }
    {
        for edge in self.layout.edges(job) {
            tries.add(edge.to);
        }
    }

    /// Looks whether a job is ready: it is where its count read 0, and else the count is told.
    pub fn look(&self, seat: &mut BoardSeat<T>, job: u32) -> Look
        requires seat { IsSeatOf self.now seat.old }
        requires job { job < length (jobs_on self.now) }
        ensures seat { KeepsSeat self.now seat.old seat.new }
        ensures calm { IsCalm seat.old seat.new }
        ensures read { Read seat.new (2 * job + 2) (count_in result) }
        ensures ready { IfReady result
            (λ r. (r.job ≡ job) × SawReady self.now seat.new job) }
        ensures waits { IfNotReady result (λ count. count ≢ 0) }
    {
        let count = words::look(&self.table, &mut seat.seat, job);
        if count == 0 {
            Look::Ready(Ready { job })
        } else {
            Look::NotReady(count)
        }
    }

    /// Claims a job that was seen to be ready: it is this seat's where its claim word read 0, and
    /// the ticket has a note of each input's value. Else the word is told. O(inputs).
    pub fn claim(&self, seat: &mut BoardSeat<T>, ready: Ready) -> Claim<T>
        requires seat { IsSeatOf self.now seat.old }
        requires free { IsFree self.now seat.old }
        requires ready { SawReady self.now seat.old ready.job }
        ensures seen { KeepsSeen self.now seat.old seat.new }
        ensures calm { IsCalm seat.old seat.new }
        ensures read { Read seat.new (2 * ready.job + 1) (claim_in result) }
        ensures job { IfMine result (λ t. t.job ≡ ready.job) }
        ensures ticket { IfMine result (IsTicket T.is_defined self.now) }
        ensures mine { IfMine result (HasTicket self.now seat.new) }
        ensures claims { IfMine result
            (λ t. claims_of seat.new ≡ ready.job ∷ claims_of seat.old) }
        ensures named { IfMine result (λ t. IsNamed seat.old seat.new ready.job) }
        ensures taken { IfTaken result
            (λ word. (word ≢ 0) × KeepsSeat self.now seat.old seat.new) }
    {
        let job = ready.job;
        let word = words::claim(&self.table, &mut seat.seat, job);
        if word != 0 {
            return Claim::Taken(word);
        }
        let count = self.layout.graph.inputs(job).len();
        let first = self.layout.owns[job as usize] - count;
        let mut notes = mem::replace(&mut seat.room, Vec::new(self.alloc));
        notes.clear();
        take_notes(&self.table, &mut seat.seat, job, first, count, &mut notes);
        Claim::Mine(Ticket { job, notes })
    }

    /// The published value of the input at this place among those of the ticket's job.
    pub fn input<'b>(&'b self, ticket: &Ticket<T>, place: u32) -> &'b T
        requires ticket { IsTicket T.is_defined self.now ticket.now }
        requires place { place < length (inputs_of (jobs_on self.now) ticket.now.job) }
        ensures right { T.is_defined (key_on self.now)
            (slice_index (inputs_of (jobs_on self.now) ticket.now.job) place) result.now }
        ensures noted { slice_get (known_values ticket.now.notes) place ≡ Some result.now }
    {
        let input = self.layout.graph.inputs(ticket.job)[place as usize];
        ticket.notes[place as usize].read(&self.cells[input as usize])
    }

    /// The number of published jobs and the stop bit.
    pub fn progress(&self, seat: &mut BoardSeat<T>) -> Progress
        requires seat { IsSeatOf self.now seat.old }
        ensures seat { KeepsSeat self.now seat.old seat.new }
        ensures calm { IsCalm seat.old seat.new }
        ensures read { Read seat.new 0 (word_in result) }
        ensures few { result.finished ≤ length (jobs_on self.now) }
        ensures all { result.finished ≡ length (jobs_on self.now) → SawAll seat.new }
        ensures full { SawAll seat.old → result.finished ≡ length (jobs_on self.now) }
        ensures saw { result.stopped ≡ true → SawStop seat.new }
        ensures told { SawStop seat.old → result.stopped ≡ true }
        ensures stop { Stopped seat.old → result.stopped ≡ true }
        ensures alone { IsAlone seat.old → result.stopped ≡ true → Stopped seat.old }
    {
        let (finished, stopped) = words::progress(&self.table, &mut seat.seat);
        Progress { finished, stopped }
    }

    /// Stops the board: no other call does.
    pub fn stop(&self, seat: &mut BoardSeat<T>)
        requires seat { IsSeatOf self.now seat.old }
        ensures seat { KeepsSeat self.now seat.old seat.new }
        ensures stop { Stopped seat.new }
        ensures parts { parts_of seat.new ≡ parts_of seat.old }
    {
        words::stop(&self.table, &mut seat.seat);
    }

    /// A further seat, with its room.
    pub fn split(&self, alloc: Global, seat: &mut BoardSeat<T>) -> Result<BoardSeat<T>, AllocError>
        requires seat { IsSeatOf self.now seat.old }
        ensures seat { KeepsSeat self.now seat.old seat.new }
        ensures same { seat.new ≡ with_parts seat.old (parts_of seat.new) }
        ensures refused { OnErr result (seat.new ≡ seat.old) }
        ensures further { IfOk result (IsSeatOf self.now) }
        ensures parts { IfOk result (GivesOne seat.old seat.new) }
        ensures free { IfOk result (IsFree self.now) }
        ensures calm { IfOk result (λ s. Stopped s → ⊥) }
        ensures claims { IfOk result (λ s. claims_of s ≡ []) }
    {
        let room = Vec::with_capacity(alloc, self.layout.most)?;
        Ok(BoardSeat {
            seat: words::split(&self.table, &mut seat.seat),
            room,
        })
    }

    /// Takes a seat without a ticket in, with its claims, what it saw and its stop.
    pub fn join(&self, seat: &mut BoardSeat<T>, other: BoardSeat<T>)
        requires seat { IsSeatOf self.now seat.old }
        requires other { IsSeatOf self.now other }
        requires free { IsFree self.now other }
        ensures seat { KeepsSeen self.now seat.old seat.new }
        ensures all { SawAll other → SawAll seat.new }
        ensures told { SawStop other → SawStop seat.new }
        ensures stop { Stopped seat.new ↔ (Stopped seat.old ⊎ Stopped other) }
        ensures parts { parts_of seat.new ≡ parts_of seat.old + parts_of other }
        ensures free { IsFree self.now seat.old → IsFree self.now seat.new }
        ensures ticket { (t : TicketState T) → HasTicket self.now seat.old t
            → HasTicket self.now seat.new t }
        ensures claims { claims_of seat.new ≡ claims_of other ++ claims_of seat.old }
    {
        words::join(&self.table, &mut seat.seat, other.seat);
    }
}

impl<T: Defined + Drop> Board<T> {
    /// Publishes the value of the ticket's job: it sets the cell, leaves a note for each dependent,
    /// lowers each dependent's count and raises the number of published jobs. O(inputs +
    /// dependents), with as many atomic steps as there are dependents and one.
    pub fn publish<R: Wait>(
        &self,
        rt: &R,
        seat: &mut BoardSeat<T>,
        ticket: Ticket<T>,
        value: Box<T>,
    )
        requires seat { IsSeatOf self.now seat.old }
        requires ticket { IsTicket T.is_defined self.now ticket }
        requires mine { HasTicket self.now seat.old ticket }
        requires right { T.is_defined (key_on self.now) ticket.job value.value }
        ensures seen { KeepsSeen self.now seat.old seat.new }
        ensures calm { IsCalm seat.old seat.new }
        ensures free { IsFree self.now seat.new }
        ensures claims { claims_of seat.new ≡ claims_of seat.old }
        ensures published { IsPublished seat.new ticket.job }
    {
        let place = ticket.job as usize;
        let note = set_cell(rt, &self.cells[place], value);
        let own = self.layout.owns[place];
        let edges = self.layout.edges(ticket.job);
        hand_out(&self.table, &mut seat.seat, ticket.job, own, edges, &note);
        seat.room = ticket.notes;
    }
}
