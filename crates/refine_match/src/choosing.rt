//! Which left node is guessed next: the first of the tied class with the fewest left nodes.

ghost use Rattle.std.specs.Prelude.{◌≡◌, ◌<◌, ◌↔◌, true, IfOk};
ghost use Rattle.match_graph.specs.Graph.{left_of, nodes_of};
ghost use Rattle.match_rounds.specs.Classes.{IsPartition};
ghost use Rattle.refine_match.specs.Choosing.{IsLeastOrNone, tied_with};
ghost use Rattle.refine_match.specs.Ties.{AreTiesOf, IsRight};

use crate::ties::{Tie, Ties};
use match_graph::Graph;
use match_rounds::Classes;
use std::alloc::AllocError;
use std::cmp::Reverse;

impl Ties {
    /// The first left node of the class that has the fewest left nodes of all that have more than
    /// one, if there is one; where classes have as few, the least of their first nodes. The time is
    /// logarithmic in the number of classes, beside the same for each entry that is not right any
    /// more, which goes.
    pub fn choose(&mut self, graph: &Graph, classes: &Classes) -> Result<Option<u32>, AllocError>
        requires partition { IsPartition classes.now (left_of graph.now) (nodes_of graph.now) }
        requires ties { AreTiesOf self.old graph.now classes.now }
        ensures ties { IfOk result (λ node. AreTiesOf self.new graph.now classes.now) }
        ensures least { IfOk result (IsLeastOrNone graph.now classes.now) }
    {
        while let Some(Reverse(tie)) = self.queue.pop() {
            if is_right(graph, classes, tie) {
                self.queue.push(Reverse(tie))?;
                return Ok(Some(tie.node));
            }
        }
        Ok(None)
    }
}

// Whether the entry is that of a tied class.
fn is_right(graph: &Graph, classes: &Classes, tie: Tie) -> bool
    requires { IsPartition classes.now (left_of graph.now) (nodes_of graph.now) }
    ensures { (result ≡ true) ↔ IsRight graph.now classes.now tie }
{
    1 < tie.count && tie.node < graph.left_count() && ties(graph, classes, tie.node) == tie.count
}

// How many left nodes the class of a node has.
fn ties(graph: &Graph, classes: &Classes, node: u32) -> u32
    requires partition { IsPartition classes.now (left_of graph.now) (nodes_of graph.now) }
    requires node { node < nodes_of graph.now }
    ensures { result ≡ tied_with graph.now classes.now node }
{
    classes.left_size(graph, classes.of(node))
}
