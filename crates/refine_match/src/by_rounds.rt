//! The answer of a pair as far as rounds decide it.

ghost use Rattle.std.specs.Prelude.{◌≡◌, ◌⊎◌, ◌↔◌, [], true, IfOk};
ghost use Rattle.round_laws.specs.Web.{IsWeb};
ghost use Rattle.net_model.specs.declared.netlist.Circuit.{Circuit};
ghost use Rattle.match_laws.specs.Circuits.{AreMatched, Pair, web_of};
ghost use Rattle.match_types.specs.Plain.{pair_of};
ghost use Rattle.match_graph.specs.Graph.{IsGraph, IsGraphOf, left_of, nodes_of};
ghost use Rattle.match_rounds.specs.Classes.{IsPartition};
ghost use Rattle.match_rounds.specs.Refined.{AreRefuted, AreSettled, IsVerdict};
ghost use Rattle.match_rounds.specs.Start.{guessed_web};
ghost use Rattle.refine_match.specs.ByRounds.{AreFirstTies, IsFirstRound, IsRoundsAnswer};
ghost use Rattle.refine_match.specs.Choosing.{AreUntied};

use crate::evidence::evidence_of;
use crate::first_unmatched;
use crate::lists::Lists;
use crate::pairings::read_pairing;
use match_graph::Graph;
use match_rounds::{Classes, Verdict, refine};
use match_types::{Answer, ChildPins};
use net_model::Circuit;
use std::alloc::{AllocError, Global};

/// What the rounds come to.
#[derive(Drop)]
pub enum Rounds {
    /// The answer of the pair.
    Decided(Answer),
    /// Stable classes with ties, their lists, and the left node to be guessed first.
    Tied(Classes, Lists, u32),
}

/// The answer of a pair as far as rounds decide it: unequal counts in the first round, a called
/// pair that isn't matched, unequal counts in a later round, or classes of one pair each.
pub fn by_rounds(
    alloc: Global,
    graph: &Graph,
    left: &Circuit,
    children: &ChildPins,
) -> Result<Rounds, AllocError>
    requires { IsGraph graph.now }
    ensures { IfOk result (λ rounds. (right : Circuit)
        → IsGraphOf (pair_of left.now right children.now) graph.now
        → IsWeb (web_of (pair_of left.now right children.now))
        → IsRoundsAnswer (pair_of left.now right children.now) graph.now rounds) }
{
    let (classes, verdict) = refine(alloc, graph, &[])?;
    if is_first_round(verdict) {
        return Ok(differ_by(graph, &classes, 0));
    }
    if let Some(pair) = first_unmatched(left, children) {
        return Ok(Rounds::Decided(Answer::Skipped(pair)));
    }
    by_verdict(alloc, graph, classes, verdict)
}

// The answer, or ties, where the first round has equal counts and each called pair is matched.
fn by_verdict(
    alloc: Global,
    graph: &Graph,
    classes: Classes,
    verdict: Verdict,
) -> Result<Rounds, AllocError>
    requires graph { IsGraph graph.now }
    requires partition { IsPartition classes (left_of graph.now) (nodes_of graph.now) }
    requires verdict { IsVerdict (guessed_web graph.now []) classes verdict }
    ensures { IfOk result (λ rounds. (p : Pair) → IsGraphOf p graph.now → IsWeb (web_of p)
        → AreMatched p → IsRoundsAnswer p graph.now rounds) }
{
    match verdict {
        Verdict::Refuted(round) => Ok(differ_by(graph, &classes, round)),
        Verdict::Stable => by_classes(alloc, graph, classes),
    }
}

// The difference that the classes of a round show.
fn differ_by(graph: &Graph, classes: &Classes, round: u32) -> Rounds
    requires graph { IsGraph graph.now }
    requires partition { IsPartition classes.now (left_of graph.now) (nodes_of graph.now) }
    requires refuted { AreRefuted (guessed_web graph.now []) round classes.now }
    ensures { (p : Pair) → IsGraphOf p graph.now → IsWeb (web_of p) → (round ≡ 0) ⊎ AreMatched p
        → IsRoundsAnswer p graph.now result }
{
    Rounds::Decided(Answer::Differs(evidence_of(graph, classes, round)))
}

// A match, or ties, by stable classes.
fn by_classes(alloc: Global, graph: &Graph, classes: Classes) -> Result<Rounds, AllocError>
    requires graph { IsGraph graph.now }
    requires partition { IsPartition classes (left_of graph.now) (nodes_of graph.now) }
    requires settled { AreSettled (guessed_web graph.now []) classes }
    ensures { IfOk result (λ rounds. (p : Pair) → IsGraphOf p graph.now → IsWeb (web_of p)
        → AreMatched p → IsRoundsAnswer p graph.now rounds) }
{
    match first_ties(alloc, graph, &classes)? {
        Some((lists, node)) => Ok(Rounds::Tied(classes, lists, node)),
        None => matched(alloc, graph, &classes),
    }
}

// The lists of classes, and the left node to be guessed first, where there are ties.
fn first_ties(
    alloc: Global,
    graph: &Graph,
    classes: &Classes,
) -> Result<Option<(Lists, u32)>, AllocError>
    requires { IsPartition classes.now (left_of graph.now) (nodes_of graph.now) }
    ensures { IfOk result (AreFirstTies graph.now classes.now) }
{
    let mut lists = Lists::of(alloc, graph, classes)?;
    match lists.choose(graph, classes)? {
        Some(node) => Ok(Some((lists, node))),
        None => Ok(None),
    }
}

// The match that stable classes of one pair each show.
fn matched(alloc: Global, graph: &Graph, classes: &Classes) -> Result<Rounds, AllocError>
    requires graph { IsGraph graph.now }
    requires partition { IsPartition classes.now (left_of graph.now) (nodes_of graph.now) }
    requires settled { AreSettled (guessed_web graph.now []) classes.now }
    requires untied { AreUntied graph.now classes.now (left_of graph.now) }
    ensures { IfOk result (λ rounds. (p : Pair) → IsGraphOf p graph.now → IsWeb (web_of p)
        → AreMatched p → IsRoundsAnswer p graph.now rounds) }
{
    let pairing = read_pairing(alloc, graph, classes)?;
    Ok(Rounds::Decided(Answer::Match(pairing)))
}

// Whether the first round has unequal counts.
fn is_first_round(verdict: Verdict) -> bool
    ensures { (result ≡ true) ↔ IsFirstRound verdict }
{
    match verdict {
        Verdict::Refuted(round) => round == 0,
        Verdict::Stable => false,
    }
}
