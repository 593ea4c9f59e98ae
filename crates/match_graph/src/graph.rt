//! The graph of two circuits: nets, devices and calls as nodes, each with its ends.

ghost use Rattle.std.specs.Prelude.{◌≡◌, ◌<◌, IfOk};
ghost use Rattle.round_laws.specs.Nodes.{Layout, Schematic};
ghost use Rattle.match_laws.specs.Circuits.{Pair, IsFitting};
ghost use Rattle.match_types.specs.Plain.{pair_of, plain_node};
ghost use Rattle.match_graph.specs.Graph.{IsGraph, IsGraphOf, IsNumbered, ends_at, kind_at};
ghost use Rattle.match_graph.specs.Graph.{left_of, nodes_of};

use crate::edges::list_edges;
use crate::filling::{begins_of, ends_of};
use crate::kinds::list_kinds;
use crate::sizes::Sizes;
use list_base::number;
use match_types::{ChildPins, Node, Side};
use net_model::Circuit;
use std::alloc::{AllocError, Global};

/// How a device or a call meets a net: either of the two ends that may change places, the other
/// terminal of this place, or a right pin of the called pair.
#[derive(Clone, Copy, PartialEq, Eq, PartialOrd, Ord, Debug)]
pub enum Port {
    EitherEnd,
    Other(u8),
    Pin(u32),
}

/// A terminal as one of its two nodes sees it: its kind, and the other node.
#[derive(Clone, Copy, PartialEq, Eq, PartialOrd, Ord, Debug)]
pub struct End {
    pub port: Port,
    pub node: u32,
}

/// The nets, devices and calls of two circuits as nodes: those of the left circuit first, of each
/// the nets, then the devices, then the calls, by number. Each node has its ends, and the number of
/// its kind.
#[derive(Drop)]
pub struct Graph {
    pub left: Sizes,
    pub right: Sizes,
    // where each node's ends begin, and the number of all ends
    begins: Vec<u32>,
    ends: Vec<End>,
    // one number for nodes that look alike before the first round
    kinds: Vec<u32>,
}

impl Graph {
    /// The graph of two circuits. The time is in proportion to their sizes, expected over the
    /// hashes of what their nodes look like.
    pub fn of_pair(
        alloc: Global,
        left: &Circuit,
        right: &Circuit,
        children: &ChildPins,
    ) -> Result<Graph, AllocError>
        requires left { IsFitting (pair_of left.now right.now children.now) Layout }
        requires right { IsFitting (pair_of left.now right.now children.now) Schematic }
        ensures { IfOk result (λ graph. IsGraphOf (pair_of left.now right.now children.now) graph) }
    {
        let left_sizes = Sizes::count(0, left)?;
        let right_sizes = Sizes::count(left_sizes.end(), right)?;
        let edges = list_edges(alloc, left, &left_sizes, right, &right_sizes, children)?;
        number(edges.len().saturating_mul(2))?;
        let count = right_sizes.end();
        let begins = begins_of(alloc, &edges, count)?;
        let ends = ends_of(alloc, &edges, &begins, count)?;
        Ok(Graph {
            left: left_sizes,
            right: right_sizes,
            begins,
            ends,
            kinds: list_kinds(alloc, left, right, children.told())?,
        })
    }

    pub fn node_count(&self) -> u32
        ensures { result ≡ nodes_of self.now }
    {
        self.right.end()
    }

    pub fn left_count(&self) -> u32
        ensures { result ≡ left_of self.now }
    {
        self.right.first
    }

    /// The node by side, kind and number.
    pub fn node(&self, node: u32) -> Node
        requires graph { IsGraph self.now }
        requires node { node < nodes_of self.now }
        ensures { (p : Pair) → IsGraphOf p self.now → IsNumbered p node (plain_node result) }
    {
        if node < self.right.first {
            let (kind, number) = self.left.kind_of(node);
            Node {
                side: Side::Layout,
                kind,
                number,
            }
        } else {
            let (kind, number) = self.right.kind_of(node);
            Node {
                side: Side::Schematic,
                kind,
                number,
            }
        }
    }

    /// The number of the node's kind: nodes have one number exactly where they look alike before
    /// the first round.
    pub fn kind(&self, node: u32) -> u32
        requires graph { IsGraph self.now }
        requires node { node < nodes_of self.now }
        ensures { result ≡ kind_at self.now node }
    {
        self.kinds[node as usize]
    }

    /// The ends of a node.
    pub fn ends_of(&self, node: u32) -> &[End]
        requires graph { IsGraph self.now }
        requires node { node < nodes_of self.now }
        ensures { result.now ≡ ends_at self.now node }
    {
        let begin = self.begins[node as usize] as usize;
        let end = self.begins[node as usize + 1] as usize;
        &self.ends[begin..end]
    }
}
