//! What a search asks of its classes: the tied ones, and the right nodes of each.

ghost use Rattle.std.specs.Prelude.{IfOk, OnOk};
ghost use Rattle.match_graph.specs.Graph.{left_of, nodes_of};
ghost use Rattle.match_rounds.specs.Classes.{IsPartition};
ghost use Rattle.refine_match.specs.Choosing.{IsLeastOrNone};
ghost use Rattle.refine_match.specs.Rights.{AreFormerLists, AreListsOf};

use crate::rights::Rights;
use crate::ties::Ties;
use match_graph::Graph;
use match_rounds::Classes;
use std::alloc::{AllocError, Global};

/// The tied classes, and the right nodes of all. They follow classes as these are parted.
#[derive(Drop)]
pub struct Lists {
    pub ties: Ties,
    pub rights: Rights,
}

impl Lists {
    /// Those of these classes. It takes the time to sort the nodes.
    pub fn of(alloc: Global, graph: &Graph, classes: &Classes) -> Result<Lists, AllocError>
        requires { IsPartition classes.now (left_of graph.now) (nodes_of graph.now) }
        ensures { IfOk result (λ lists. AreListsOf lists graph.now classes.now) }
    {
        let ties = Ties::of(alloc, graph, classes)?;
        let rights = Rights::of(alloc, graph, classes)?;
        Ok(Lists { ties, rights })
    }

    /// Takes up that classes were parted. It takes the time to sort the nodes of the classes that
    /// came, and the logarithm of the number of classes for each.
    pub fn follow(
        &mut self,
        alloc: Global,
        graph: &Graph,
        classes: &Classes,
    ) -> Result<(), AllocError>
        requires partition { IsPartition classes.now (left_of graph.now) (nodes_of graph.now) }
        requires former { AreFormerLists self.old graph.now classes.now }
        ensures { OnOk result (AreListsOf self.new graph.now classes.now) }
    {
        self.ties.follow(alloc, graph, classes)?;
        self.rights.follow(alloc, graph, classes)?;
        Ok(())
    }

    /// The left node that is guessed next, if classes are tied: the first one of the class that has
    /// the fewest left nodes. The time is logarithmic in the number of classes, beside that of what
    /// isn't right any more, which goes.
    pub fn choose(&mut self, graph: &Graph, classes: &Classes) -> Result<Option<u32>, AllocError>
        requires partition { IsPartition classes.now (left_of graph.now) (nodes_of graph.now) }
        requires lists { AreListsOf self.old graph.now classes.now }
        ensures lists { IfOk result (λ node. AreListsOf self.new graph.now classes.now) }
        ensures least { IfOk result (IsLeastOrNone graph.now classes.now) }
    {
        match self.ties.choose(graph, classes)? {
            Some(node) => {
                self.rights.pass(graph, classes, classes.of(node));
                Ok(Some(node))
            }
            None => Ok(None),
        }
    }
}
