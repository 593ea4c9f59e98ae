//! All rounds, up to the first with unequal counts or to one that parts no class.

ghost use Rattle.std.specs.Prelude.{IfOk};
ghost use Rattle.match_graph.specs.Graph.{IsGraph, left_of, nodes_of};
ghost use Rattle.match_rounds.specs.Classes.{IsPartition};
ghost use Rattle.match_rounds.specs.Refined.{IsVerdict};
ghost use Rattle.match_rounds.specs.Start.{AreGuesses, guessed_web};

use crate::classes::Classes;
use crate::rounds::{RoundRoom, next_round};
use match_graph::Graph;
use std::alloc::{AllocError, Global};

/// What the rounds come to.
#[derive(Clone, Copy, PartialEq, Eq, Debug)]
pub enum Verdict {
    /// The first round in which a class has more nodes of one circuit than of the other.
    Refuted(u32),
    /// No round has such a class, and the last one parted no class.
    Stable,
}

/// The rounds under these guesses, up to the first with unequal counts or to one that parts no
/// class, and the classes of that round. It takes the time to sort the ends of all nodes as often
/// as the logarithm of the number of nodes.
pub fn refine(
    alloc: Global,
    graph: &Graph,
    guesses: &[(u32, u32)],
) -> Result<(Classes, Verdict), AllocError>
    requires graph { IsGraph graph.now }
    requires guesses { AreGuesses graph.now guesses.now }
    ensures partition { IfOk result (λ r.
        IsPartition r.0 (left_of graph.now) (nodes_of graph.now)) }
    ensures verdict { IfOk result (λ r. IsVerdict (guessed_web graph.now guesses.now) r.0 r.1) }
{
    let mut classes = Classes::start(alloc, graph, guesses)?;
    let mut room = RoundRoom::new(alloc);
    let mut round = 0;
    while !classes.counts.is_uneven {
        let before = classes.count();
        next_round(graph, &mut classes, &mut room)?;
        if classes.count() == before {
            return Ok((classes, Verdict::Stable));
        }
        round += 1;
    }
    Ok((classes, Verdict::Refuted(round)))
}
