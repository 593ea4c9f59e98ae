//! Rounds that go on from stable classes when one more pair is guessed.

ghost use Rattle.std.specs.Prelude.{◌<◌, length, IfOk, OnOk};
ghost use Rattle.match_graph.specs.Graph.{IsGraph, left_of, nodes_of};
ghost use Rattle.match_rounds.specs.Classes.{IsGrown, IsPartition};
ghost use Rattle.match_rounds.specs.Refined.{AreSettledBefore, IsResumed};
ghost use Rattle.match_rounds.specs.Start.{AreGuesses, guessed_web};

use crate::classes::Classes;
use crate::pairs::part_pair;
use crate::rounds::{RoundRoom, next_round};
use match_graph::Graph;
use std::alloc::{AllocError, Global};

/// Goes on from stable classes when the last of these guesses is added to the others: its pair is a
/// class of its own, and rounds part the classes further. The answer says whether the guesses
/// are not refuted: the classes are then the stable ones under them. It takes the time to sort the
/// ends of the nodes whose classes are parted, and no longer than all rounds would.
pub fn single_out(
    alloc: Global,
    graph: &Graph,
    guesses: &[(u32, u32)],
    classes: &mut Classes,
) -> Result<bool, AllocError>
    requires graph { IsGraph graph.now }
    requires guesses { AreGuesses graph.now guesses.now }
    requires some { 0 < length guesses.now }
    requires partition { IsPartition classes.old (left_of graph.now) (nodes_of graph.now) }
    requires settled { AreSettledBefore graph.now guesses.now classes.old }
    ensures partition { OnOk result (IsPartition classes.new (left_of graph.now)
        (nodes_of graph.now)) }
    ensures resumed { IfOk result (λ even.
        IsResumed (guessed_web graph.now guesses.now) classes.new even) }
    ensures grown { OnOk result (IsGrown classes.old classes.new) }
{
    let (a, b) = guesses[guesses.len() - 1];
    part_pair(alloc, classes, graph.left_count(), a, b)?;
    let mut room = RoundRoom::new(alloc);
    while !classes.counts.is_uneven {
        let before = classes.count();
        next_round(graph, classes, &mut room)?;
        if classes.count() == before {
            return Ok(true);
        }
    }
    Ok(false)
}
