//! The comparison of two circuits: by rounds, and by guesses where rounds leave ties.

ghost use Rattle.std.specs.Prelude.{IfOk};
ghost use Rattle.round_laws.specs.Web.{IsWeb};
ghost use Rattle.round_laws.specs.Nodes.{Layout, Schematic};
ghost use Rattle.match_laws.specs.Circuits.{AreMatched, IsFitting, Pair, web_of};
ghost use Rattle.match_laws.specs.Answer.{IsAnswer, equal_names};
ghost use Rattle.match_types.specs.Plain.{pair_of, plain_answer};
ghost use Rattle.refine_match.specs.ByRounds.{IsRoundsAnswer};
ghost use Rattle.refine_match.specs.Candidates.{IsPairOf};
ghost use Rattle.refine_match.specs.Matching.{AreSingleClasses, CarriesPairing, ExcludesPairings};
ghost use Rattle.refine_match.specs.Matching.{HaveUnevenClass, HaveUnevenDevices, IsDecided};
ghost use Rattle.refine_match.specs.Matching.{IsDifference, IsEnough, IsUndecided};
ghost use Rattle.refine_match.specs.Searching.{IsKept};
ghost use Rattle.refine_match.specs.Sides.{AreSides};

use crate::by_rounds::{Rounds, by_rounds};
use crate::candidates::Sides;
use crate::namesakes::list_namesakes;
use crate::pairings::read_pairing;
use crate::searching::Search;
use match_graph::Graph;
use match_types::{Answer, ChildPins, Evidence};
use net_model::Circuit;
use std::alloc::{AllocError, Global};

/// Compares two circuits, given the right pin of each left pin of the called pairs that are
/// matched; at most `limit` guesses may end refuted.
///
/// Nets, transistors and calls are told apart by rounds, first by what they are and then by what
/// they are joined to. A round with unequal counts is a difference, and classes of one pair each
/// are a match. Where rounds leave ties, the first left node of the class with the fewest left
/// nodes is guessed to go to each right node of its class in turn, those of its name first. A
/// guess is refuted where rounds under it have unequal counts; where it leaves ties, a further node
/// is guessed below it. A difference is found where each guess ended so, and nothing is decided
/// where `limit` were refuted before that: none, where `limit` is 0 and there are ties.
///
/// The rounds take the time to sort the ends of all nodes as often as the logarithm of their
/// number. A guess that isn't refuted takes the rounds that part the classes further and the time
/// to sort the nodes whose classes those are. It takes a walk over the class of its node too, where
/// this is a net whose name some right net has, but neither the first right net that has it is of
/// the class, nor has the first right one of the class the name; so does each further try. A guess
/// that is refuted, and a level that is left, take the rounds from the first on.
///
/// The error is want of memory, or more than 2^32 guesses below each other.
pub fn match_circuits(
    alloc: Global,
    left: &Circuit,
    right: &Circuit,
    children: &ChildPins,
    limit: u32,
) -> Result<Answer, AllocError>
    requires left { IsFitting (pair_of left.now right.now children.now) Layout }
    requires right { IsFitting (pair_of left.now right.now children.now) Schematic }
    ensures answer { IfOk result (λ answer. IsAnswer (pair_of left.now right.now children.now)
        (equal_names (pair_of left.now right.now children.now)) limit (plain_answer answer)) }
    ensures matched { IfOk result (CarriesPairing (pair_of left.now right.now children.now)) }
    ensures differs { IfOk result (ExcludesPairings (pair_of left.now right.now children.now)) }
    ensures uneven { HaveUnevenDevices (pair_of left.now right.now children.now)
        → IfOk result IsDifference }
    ensures uneven_class { HaveUnevenClass (pair_of left.now right.now children.now)
        → IfOk result IsDifference }
    ensures single { AreMatched (pair_of left.now right.now children.now)
        → AreSingleClasses (web_of (pair_of left.now right.now children.now))
        → IfOk result IsDecided }
    ensures enough { IsEnough (pair_of left.now right.now children.now) limit
        → IfOk result (λ answer. IsUndecided answer → ⊥) }
{
    let graph = Graph::of_pair(alloc, left, right, children)?;
    let rounds = by_rounds(alloc, &graph, left, children)?;
    complete(alloc, &graph, left, right, rounds, limit)
}

// The answer, by guesses where rounds leave ties.
fn complete(
    alloc: Global,
    graph: &Graph,
    left: &Circuit,
    right: &Circuit,
    rounds: Rounds,
    limit: u32,
) -> Result<Answer, AllocError>
    requires { (p : Pair) × IsPairOf p graph.now left.now right.now × IsWeb (web_of p)
        × IsRoundsAnswer p graph.now rounds }
    ensures { IfOk result (λ answer. (p : Pair) → IsPairOf p graph.now left.now right.now
        → IsWeb (web_of p) → IsRoundsAnswer p graph.now rounds
        → IsAnswer p (equal_names p) limit (plain_answer answer)) }
{
    match rounds {
        Rounds::Decided(answer) => Ok(answer),
        Rounds::Tied(classes, lists, node) => {
            let search = Search::begin(alloc, classes, lists, node, limit);
            by_guesses(alloc, graph, left, right, search)
        }
    }
}

// The answer that a search comes to.
fn by_guesses(
    alloc: Global,
    graph: &Graph,
    left: &Circuit,
    right: &Circuit,
    begun: Search,
) -> Result<Answer, AllocError>
    requires pair { (p : Pair) × IsPairOf p graph.now left.now right.now × IsWeb (web_of p) }
    requires way { IsKept graph.now left.now right.now begun.limit begun }
    ensures { IfOk result (λ answer. (p : Pair) → IsPairOf p graph.now left.now right.now
        → IsWeb (web_of p) → AreMatched p
        → IsAnswer p (equal_names p) begun.limit (plain_answer answer)) }
{
    let namesakes = list_namesakes(alloc, left, right)?;
    let sides = Sides {
        graph,
        left,
        right,
        namesakes: &namesakes,
    };
    let mut search = begun;
    decide(alloc, &sides, &mut search)
}

// Guesses until a search comes to its answer.
fn decide(alloc: Global, sides: &Sides<'_>, search: &mut Search) -> Result<Answer, AllocError>
    requires sides { AreSides sides.now }
    requires pair { (p : Pair)
        × IsPairOf p sides.now.graph.now sides.now.left.now sides.now.right.now
        × IsWeb (web_of p) }
    requires way { IsKept sides.now.graph.now sides.now.left.now sides.now.right.now
        search.old.limit search.old }
    ensures { IfOk result (λ answer. (p : Pair)
        → IsPairOf p sides.now.graph.now sides.now.left.now sides.now.right.now
        → IsWeb (web_of p) → AreMatched p
        → IsAnswer p (equal_names p) search.old.limit (plain_answer answer)) }
{
    let graph = sides.graph;
    loop {
        match search.next(sides) {
            Some(candidate) => {
                if search.refuted == search.limit {
                    return Ok(Answer::Undecided(search.take_rows(alloc)));
                }
                if search.guess(alloc, graph, candidate)? {
                    let pairing = read_pairing(alloc, graph, &search.classes)?;
                    return Ok(Answer::Match(pairing));
                }
            }
            None => {
                if !search.leave(alloc, graph)? {
                    return Ok(Answer::Differs(Evidence::Tree(search.take_rows(alloc))));
                }
            }
        }
    }
}
