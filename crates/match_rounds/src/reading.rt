//! What is read of classes: a node's class, and the sizes and the members of a class.

ghost use Rattle.std.specs.Prelude.{◌≡◌, ◌<◌};
ghost use Rattle.match_graph.specs.Graph.{left_of, nodes_of};
ghost use Rattle.match_rounds.specs.Classes.{IsPartition, class_count, class_in, node_count};
ghost use Rattle.match_rounds.specs.Sides.{left_members, right_members};
ghost use Rattle.match_rounds.specs.Turned.{AreAllOf};

use crate::classes::Classes;
use match_graph::Graph;

impl Classes {
    /// The class of a node.
    pub fn of(&self, node: u32) -> u32
        requires { node < node_count self.now }
        ensures { result ≡ class_in self.now node }
    {
        self.class_of[node as usize]
    }

    /// How many left nodes a class has.
    pub fn left_size(&self, graph: &Graph, class: u32) -> u32
        requires partition { IsPartition self.now (left_of graph.now) (nodes_of graph.now) }
        requires class { class < class_count self.now }
        ensures { result ≡ left_members graph.now self.now class }
    {
        self.counts.left[class as usize]
    }

    /// How many right nodes a class has.
    pub fn right_size(&self, graph: &Graph, class: u32) -> u32
        requires partition { IsPartition self.now (left_of graph.now) (nodes_of graph.now) }
        requires class { class < class_count self.now }
        ensures { result ≡ right_members graph.now self.now class }
    {
        self.counts.size[class as usize] - self.left_size(graph, class)
    }

    /// The nodes of a class.
    pub fn members(&self, graph: &Graph, class: u32) -> &[u32]
        requires partition { IsPartition self.now (left_of graph.now) (nodes_of graph.now) }
        requires class { class < class_count self.now }
        ensures { AreAllOf (class_in self.now) class result.now (nodes_of graph.now) }
    {
        let begin = self.begin[class as usize] as usize;
        let size = self.counts.size[class as usize] as usize;
        &self.order.node_at[begin..begin + size]
    }
}
