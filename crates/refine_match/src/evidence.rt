//! The evidence of a round with unequal counts: a node that shows them, and both counts.

ghost use Rattle.std.specs.Prelude.{◌≡◌, ◌<◌, ◌≤◌, ℕ, [], IfSome, IsNone};
ghost use Rattle.round_laws.specs.Web.{IsWeb};
ghost use Rattle.match_laws.specs.Circuits.{Pair, web_of};
ghost use Rattle.match_types.specs.Plain.{plain_kind};
ghost use Rattle.match_graph.specs.Graph.{IsGraph, IsGraphOf, left_of, nodes_of};
ghost use Rattle.match_rounds.specs.Classes.{IsPartition};
ghost use Rattle.match_rounds.specs.Refined.{AreRefuted};
ghost use Rattle.match_rounds.specs.Start.{guessed_web};
ghost use Rattle.refine_match.specs.Classes.{IsOfUneven};
ghost use Rattle.refine_match.specs.Evidence.{AreEvenFrom, IsEvenKind, IsFirstOfKind};
ghost use Rattle.refine_match.specs.Evidence.{IsFirstUneven, IsLeastUneven, IsRoundEvidence};
ghost use Rattle.refine_match.specs.Evidence.{begin_of, stop_of};

use match_graph::{Graph, Sizes};
use match_rounds::Classes;
use match_types::{Evidence, NodeKind};

/// The evidence of the first round with unequal counts: the least node whose class has them,
/// transistors before calls before nets, left before right, by number; and both counts. The time is
/// in proportion to the number of nodes.
pub fn evidence_of(graph: &Graph, classes: &Classes, round: u32) -> Evidence
    requires graph { IsGraph graph.now }
    requires partition { IsPartition classes.now (left_of graph.now) (nodes_of graph.now) }
    requires refuted { AreRefuted (guessed_web graph.now []) round classes.now }
    ensures { (p : Pair) → IsGraphOf p graph.now → IsWeb (web_of p)
        → IsRoundEvidence p round result }
{
    let node = least_uneven(graph, classes);
    let class = classes.of(node);
    Evidence::Round {
        round,
        node: graph.node(node),
        left: classes.left_size(graph, class) as u64,
        right: classes.right_size(graph, class) as u64,
    }
}

// The least node whose class has unequal counts.
fn least_uneven(graph: &Graph, classes: &Classes) -> u32
    requires graph { IsGraph graph.now }
    requires partition { IsPartition classes.now (left_of graph.now) (nodes_of graph.now) }
    requires some { (a : ℕ) × (a < nodes_of graph.now) × IsOfUneven graph.now classes.now a }
    ensures { IsLeastUneven graph.now classes.now result }
{
    if let Some(node) = first_of_kind(graph, classes, NodeKind::Device) {
        return node;
    }
    if let Some(node) = first_of_kind(graph, classes, NodeKind::Call) {
        return node;
    }
    match first_of_kind(graph, classes, NodeKind::Net) {
        Some(node) => node,
        None => 0,
    }
}

// The first node of a kind whose class has unequal counts, left ones before right ones.
fn first_of_kind(graph: &Graph, classes: &Classes, kind: NodeKind) -> Option<u32>
    requires graph { IsGraph graph.now }
    requires partition { IsPartition classes.now (left_of graph.now) (nodes_of graph.now) }
    ensures some { IfSome result (λ node.
        IsFirstOfKind graph.now classes.now (plain_kind kind) node) }
    ensures none { IsNone result → IsEvenKind graph.now classes.now (plain_kind kind) }
{
    let (from, to) = span_of(&graph.left, kind);
    if let Some(node) = first_uneven(graph, classes, from, to) {
        return Some(node);
    }
    let (from, to) = span_of(&graph.right, kind);
    first_uneven(graph, classes, from, to)
}

/// Where the nodes of a kind begin and end.
pub fn span_of(sizes: &Sizes, kind: NodeKind) -> (u32, u32)
    ensures begin { result.0 ≡ begin_of sizes.now (plain_kind kind) }
    ensures end { result.1 ≡ stop_of sizes.now (plain_kind kind) }
{
    match kind {
        NodeKind::Net => (sizes.first, sizes.first_device()),
        NodeKind::Device => (sizes.first_device(), sizes.first_call()),
        NodeKind::Call => (sizes.first_call(), sizes.end()),
    }
}

// The first of these nodes whose class has unequal counts.
fn first_uneven(graph: &Graph, classes: &Classes, from: u32, to: u32) -> Option<u32>
    requires partition { IsPartition classes.now (left_of graph.now) (nodes_of graph.now) }
    requires to { to ≤ nodes_of graph.now }
    ensures some { IfSome result (λ node. IsFirstUneven graph.now classes.now from to node) }
    ensures none { IsNone result → AreEvenFrom graph.now classes.now from to }
{
    for node in from..to {
        let class = classes.of(node);
        if classes.left_size(graph, class) != classes.right_size(graph, class) {
            return Some(node);
        }
    }
    None
}
