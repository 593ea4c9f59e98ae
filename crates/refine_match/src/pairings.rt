//! The pairing of a match, read from classes of one pair each.

ghost use Rattle.std.specs.Prelude.{◌≡◌, ◌<◌, List, IfOk};
ghost use Rattle.round_laws.specs.Web.{Guess};
ghost use Rattle.round_laws.specs.Nodes.{Node as PlainNode};
ghost use Rattle.match_laws.specs.Circuits.{Pair};
ghost use Rattle.match_types.specs.Plain.{plain_kind, plain_pairing};
ghost use Rattle.match_graph.specs.Graph.{IsGraph, IsGraphOf, left_of, nodes_of};
ghost use Rattle.match_rounds.specs.Classes.{IsPartition};
ghost use Rattle.refine_match.specs.Choosing.{AreSingle, IsMate};
ghost use Rattle.refine_match.specs.Pairings.{AreMatesOf, IsPairingOf};

use crate::evidence::span_of;
use match_graph::Graph;
use match_rounds::Classes;
use match_types::{NodeKind, Pairing};
use std::alloc::{AllocError, Global};

/// The right node of each left node's class, by kind and number, where each class is one pair. The
/// time is in proportion to the number of nodes.
pub fn read_pairing(alloc: Global, graph: &Graph, classes: &Classes) -> Result<Pairing, AllocError>
    requires graph { IsGraph graph.now }
    requires partition { IsPartition classes.now (left_of graph.now) (nodes_of graph.now) }
    requires single { AreSingle graph.now classes.now }
    ensures { IfOk result (λ pairing. (p : Pair) (guesses : List (Guess PlainNode))
        → IsGraphOf p graph.now → IsPairingOf p guesses classes.now (plain_pairing pairing)) }
{
    Ok(Pairing {
        nets: mates_of(alloc, graph, classes, NodeKind::Net)?,
        devices: mates_of(alloc, graph, classes, NodeKind::Device)?,
        calls: mates_of(alloc, graph, classes, NodeKind::Call)?,
    })
}

// The numbers of the right nodes that stand with the left nodes of a kind.
fn mates_of(
    alloc: Global,
    graph: &Graph,
    classes: &Classes,
    kind: NodeKind,
) -> Result<Vec<u32>, AllocError>
    requires graph { IsGraph graph.now }
    requires partition { IsPartition classes.now (left_of graph.now) (nodes_of graph.now) }
    requires single { AreSingle graph.now classes.now }
    ensures { IfOk result (λ mates. AreMatesOf graph.now classes.now (plain_kind kind)
        mates.items) }
{
    let (from, to) = span_of(&graph.left, kind);
    let mut mates = Vec::new(alloc);
    for node in from..to {
        let mate = mate_of(graph, classes, node);
        mates.push(graph.node(mate).number)?;
    }
    Ok(mates)
}

// The right node of a left node's class.
fn mate_of(graph: &Graph, classes: &Classes, node: u32) -> u32
    requires partition { IsPartition classes.now (left_of graph.now) (nodes_of graph.now) }
    requires single { AreSingle graph.now classes.now }
    requires node { node < left_of graph.now }
    ensures { IsMate graph.now classes.now node result }
{
    let left_count = graph.left_count();
    for other in classes.members(graph, classes.of(node)) {
        if left_count <= *other {
            return *other;
        }
    }
    node
}
