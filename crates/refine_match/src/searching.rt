//! The search over guesses: its levels, its stable classes and its guesses so far.

ghost use Rattle.std.specs.Prelude.{◌≡◌, ◌≤◌, IfOk, IfSome, None, true};
ghost use Rattle.round_laws.specs.Web.{IsWeb};
ghost use Rattle.match_laws.specs.Circuits.{Pair, web_of};
ghost use Rattle.match_graph.specs.Graph.{IsGraph, IsGraphOf, left_of, nodes_of};
ghost use Rattle.match_rounds.specs.Classes.{IsPartition};
ghost use Rattle.match_rounds.specs.Refined.{AreSettled};
ghost use Rattle.match_rounds.specs.Start.{AreGuesses, guessed_web};
ghost use Rattle.refine_match.specs.ByRounds.{AreTies};
ghost use Rattle.refine_match.specs.Candidates.{IsNextOf, IsPairOf};
ghost use Rattle.refine_match.specs.Searching.{HasEvenEnd, HasLeft, IsLeft, IsShorter, IsUnderWay};
ghost use Rattle.refine_match.specs.Sides.{AreSides};

use crate::candidates::{Candidate, Sides};
use crate::lists::Lists;
use match_graph::Graph;
use match_rounds::{Classes, refine};
use match_types::{Guess, GuessEnd};
use std::alloc::{AllocError, Global};
use std::mem;

/// A left node under guess.
#[derive(Clone, Copy, Debug, PartialEq, Eq)]
pub struct Level {
    pub node: u32,
    /// The candidate that was tried last.
    pub last: Option<Candidate>,
    /// The row of that candidate.
    pub row: usize,
}

/// A search over guesses that is under way.
#[derive(Drop)]
pub struct Search {
    /// How many guesses may end refuted, and how many did.
    pub limit: u32,
    pub refuted: u32,
    /// The stable classes under the guesses that are open.
    pub classes: Classes,
    /// Their lists.
    pub lists: Lists,
    /// Those guesses: the node and the last candidate of each level above.
    pub guesses: Vec<(u32, u32)>,
    /// The level whose candidates are tried.
    pub level: Level,
    /// The levels above it, the first one first.
    pub outer: Vec<Level>,
    /// The guesses so far, in the order of first trying.
    pub rows: Vec<Guess>,
}

impl Search {
    /// The search that begins with this tied node of stable classes.
    pub fn begin(alloc: Global, classes: Classes, lists: Lists, node: u32, limit: u32) -> Search
        ensures way { (p : Pair) (g : Graph) → IsGraphOf p g → IsWeb (web_of p)
            → AreTies g classes lists node → IsUnderWay p g result }
        ensures limit { result.limit ≡ limit }
    {
        Search {
            limit,
            refuted: 0,
            classes,
            lists,
            guesses: Vec::new(alloc),
            level: first_try(node),
            outer: Vec::new(alloc),
            rows: Vec::new(alloc),
        }
    }

    /// The next candidate of the level. The time is in proportion to the size of a class at most.
    pub fn next(&self, sides: &Sides<'_>) -> Option<Candidate>
        requires sides { AreSides sides.now }
        requires way { (p : Pair) × IsUnderWay p sides.now.graph.now self.now }
        ensures next { (p : Pair)
            → IsPairOf p sides.now.graph.now sides.now.left.now sides.now.right.now
            → (way : IsUnderWay p sides.now.graph.now self.now)
            → IsNextOf p way.search.stage.node self.now.level.last way.search.stage.tries result }
        ensures right { IfSome result (λ c. left_of sides.now.graph.now ≤ c.node) }
    {
        let (node, last) = (self.level.node, self.level.last);
        sides.next_candidate(&self.classes, &self.lists.rights, node, last)
    }

    /// Goes back to the level above, where no candidate is left, and says whether there is one.
    pub fn leave(&mut self, alloc: Global, graph: &Graph) -> Result<bool, AllocError>
        requires way { (p : Pair) × IsUnderWay p graph.now self.old }
        ensures left { (p : Pair) → (way : IsUnderWay p graph.now self.old)
            → HasLeft way → IfOk result (λ more. IsLeft p graph.now self.old self.new more) }
        ensures shorter { IfOk result (λ more. more ≡ true → IsShorter self.old self.new) }
    {
        match self.outer.pop() {
            Some(level) => {
                self.rows[level.row].end = GuessEnd::Below;
                self.level = level;
                self.guesses.truncate(self.outer.len());
                self.classes = settle(alloc, graph, &self.guesses)?;
                self.lists = Lists::of(alloc, graph, &self.classes)?;
                Ok(true)
            }
            None => Ok(false),
        }
    }

    /// The guesses so far, of which none is left here.
    pub fn take_rows(&mut self, alloc: Global) -> Vec<Guess>
        ensures { result ≡ self.old.rows }
    {
        mem::replace(&mut self.rows, Vec::new(alloc))
    }
}

/// A node none of whose candidates is tried yet.
pub fn first_try(node: u32) -> Level
    ensures node { result.node ≡ node }
    ensures last { result.last ≡ None }
{
    Level {
        node,
        last: None,
        row: 0,
    }
}

/// The stable classes under guesses that no round refutes. It takes the time of all rounds.
pub fn settle(alloc: Global, graph: &Graph, guesses: &[(u32, u32)]) -> Result<Classes, AllocError>
    requires graph { IsGraph graph.now }
    requires guesses { AreGuesses graph.now guesses.now }
    requires even { HasEvenEnd (guessed_web graph.now guesses.now) }
    ensures partition { IfOk result (λ classes.
        IsPartition classes (left_of graph.now) (nodes_of graph.now)) }
    ensures settled { IfOk result (λ classes.
        AreSettled (guessed_web graph.now guesses.now) classes) }
{
    let (classes, _) = refine(alloc, graph, guesses)?;
    Ok(classes)
}
