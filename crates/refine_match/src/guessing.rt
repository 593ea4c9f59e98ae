//! One guess of a search: it is refuted, leaves ties, or leaves none.

ghost use Rattle.std.specs.Prelude.{◌≡◌, ◌≤◌, ◌^◌, suc, length, IfOk, OnErr, OnOk, false};
ghost use Rattle.round_laws.specs.Guesses.{Row};
ghost use Rattle.match_laws.specs.Circuits.{Pair};
ghost use Rattle.match_types.specs.Plain.{plain_end, row_of};
ghost use Rattle.match_graph.specs.Graph.{IsGraph, left_of, nodes_of};
ghost use Rattle.match_rounds.specs.Classes.{IsPartition};
ghost use Rattle.match_rounds.specs.Refined.{AreSettled, HasNoEvenEnd};
ghost use Rattle.match_rounds.specs.Start.{guessed_web};
ghost use Rattle.refine_match.specs.Choosing.{IsLeastTied};
ghost use Rattle.refine_match.specs.Searching.{IsGuessing, IsLonger, IsTried, IsTrying, IsUnderWay};
ghost use Rattle.refine_match.specs.Searching.{EndsBy, guess_row};
ghost use Rattle.refine_match.specs.Rights.{AreListsOf};

use crate::candidates::Candidate;
use crate::lists::Lists;
use crate::searching::{Level, Search, first_try, settle};
use list_base::number;
use match_graph::Graph;
use match_rounds::{Verdict, refine, single_out};
use match_types::{Guess, GuessEnd};
use std::alloc::{AllocError, Global};

impl Search {
    /// Guesses that the level's node goes to this candidate, and says whether that leaves no ties.
    /// A guess that isn't refuted takes the time to part the classes further and to find the node
    /// that is guessed next, one that is the time of all rounds.
    pub fn guess(
        &mut self,
        alloc: Global,
        graph: &Graph,
        candidate: Candidate,
    ) -> Result<bool, AllocError>
        requires { (p : Pair) × IsTrying p graph.now self.old candidate }
        ensures tried { (p : Pair) → IsTrying p graph.now self.old candidate
            → IfOk result (λ solved. IsTried p graph.now self.new candidate solved) }
        ensures longer { IfOk result (λ solved. solved ≡ false → IsLonger self.old self.new) }
        ensures limit { OnOk result (self.new.limit ≡ self.old.limit) }
    {
        self.guesses.push((self.level.node, candidate.node))?;
        if !single_out(alloc, graph, &self.guesses, &mut self.classes)? {
            self.refute(alloc, graph, candidate)?;
            return Ok(false);
        }
        self.lists.follow(alloc, graph, &self.classes)?;
        match self.lists.choose(graph, &self.classes)? {
            Some(node) => {
                self.descend(graph, candidate, node)?;
                Ok(false)
            }
            None => Ok(true),
        }
    }

    // The guess ends refuted.
    fn refute(
        &mut self,
        alloc: Global,
        graph: &Graph,
        candidate: Candidate,
    ) -> Result<(), AllocError>
        requires guessing { (p : Pair) × IsGuessing p graph.now self.old candidate }
        requires uneven { HasNoEvenEnd (guessed_web graph.now self.old.guesses.items) }
        ensures way { (p : Pair) → IsGuessing p graph.now self.old candidate
            → OnOk result (IsUnderWay p graph.now self.new) }
        ensures longer { OnOk result (IsLonger self.old self.new) }
    {
        let (_, verdict) = refine(alloc, graph, &self.guesses)?;
        let row = self.row(graph, candidate, end_of(verdict))?;
        self.rows.push(row)?;
        self.level.last = Some(candidate);
        self.refuted += 1;
        self.guesses.pop();
        self.classes = settle(alloc, graph, &self.guesses)?;
        self.lists = Lists::of(alloc, graph, &self.classes)?;
        Ok(())
    }

    // The guess leaves ties, of which this node is guessed below it.
    fn descend(&mut self, graph: &Graph, candidate: Candidate, node: u32) -> Result<(), AllocError>
        requires guessing { (p : Pair) × IsGuessing p graph.now self.old candidate }
        requires partition { IsPartition self.old.classes (left_of graph.now)
            (nodes_of graph.now) }
        requires settled { AreSettled (guessed_web graph.now self.old.guesses.items)
            self.old.classes }
        requires least { IsLeastTied graph.now self.old.classes (left_of graph.now) node }
        requires lists { AreListsOf self.old.lists graph.now self.old.classes }
        ensures way { (p : Pair) → IsGuessing p graph.now self.old candidate
            → OnOk result (IsUnderWay p graph.now self.new) }
        ensures longer { OnOk result (IsLonger self.old self.new) }
    {
        let row = self.row(graph, candidate, GuessEnd::Open)?;
        self.outer.push(Level {
            node: self.level.node,
            last: Some(candidate),
            row: self.rows.len(),
        })?;
        self.rows.push(row)?;
        self.level = first_try(node);
        Ok(())
    }

    // The row of the last guess. It takes no memory; the error is 2^32 guesses or more.
    fn row(&self, graph: &Graph, candidate: Candidate, end: GuessEnd) -> Result<Guess, AllocError>
        requires { (p : Pair) × IsGuessing p graph.now self.now candidate }
        ensures row { (p : Pair) → (h : IsGuessing p graph.now self.now candidate)
            → IfOk result (λ row. row_of row ≡ guess_row h.search.above h.search.stage h.head.right
            (plain_end end)) }
        ensures err { OnErr result (2 ^ 32 ≤ length self.now.guesses.items) }
    {
        let left = graph.node(self.level.node);
        let right = graph.node(candidate.node);
        Ok(Guess {
            depth: number(self.guesses.len())?,
            kind: left.kind,
            left: left.number,
            right: right.number,
            end,
        })
    }
}

// How a guess ended that the rounds refute.
fn end_of(verdict: Verdict) -> GuessEnd
    ensures { EndsBy verdict result }
{
    match verdict {
        Verdict::Refuted(round) => GuessEnd::Refuted(round),
        Verdict::Stable => GuessEnd::Open,
    }
}
