//! The tied classes, by how many left nodes they have, kept up as classes are parted.

ghost use Rattle.std.specs.Prelude.{◌≡◌, ◌<◌, ◌≤◌, length, IfOk, OnOk};
ghost use Rattle.std.specs.BinaryHeap.{IsHeap, heap_items};
ghost use Rattle.match_graph.specs.Graph.{left_of, nodes_of};
ghost use Rattle.match_rounds.specs.Classes.{IsPartition, class_count};
ghost use Rattle.refine_match.specs.Ties.{AreFormer, AreListed, AreLow, AreMovedFrom, AreRenewed};
ghost use Rattle.refine_match.specs.Ties.{AreSpansOf, AreTaken, AreTiesOf, IsRenewed, IsSpanAdded};
ghost use Rattle.refine_match.specs.Ties.{tie_order};

use crate::lefts::{first_in, left_classes, list_within, tie_at};
use match_graph::Graph;
use match_rounds::Classes;
use std::alloc::{AllocError, Global};
use std::cmp::Reverse;
use std::collections::BinaryHeap;

/// How many left nodes a class has, and the first of them.
#[derive(Clone, Copy, PartialEq, Eq, PartialOrd, Ord, Debug)]
pub struct Tie {
    pub count: u32,
    pub node: u32,
}

/// Where the left nodes of a class stand in a list.
#[derive(Clone, Copy, Debug)]
pub struct Span {
    pub next: usize,
    pub end: usize,
}

/// The tied classes, by how many left nodes they have and by the first of them. It follows classes
/// as they are parted.
#[derive(Drop)]
pub struct Ties {
    /// Left nodes by number, class after class. Nodes that left a class stand there still.
    pub nodes: Vec<u32>,
    /// Where the nodes of each class stand.
    pub spans: Vec<Span>,
    /// The class of each left node.
    pub class_of: Vec<u32>,
    /// Each tied class has its entry, beside entries that classes had before.
    pub queue: BinaryHeap<Reverse<Tie>>,
}

impl Ties {
    /// The ties of these classes. It takes the time to sort the left nodes.
    pub fn of(alloc: Global, graph: &Graph, classes: &Classes) -> Result<Ties, AllocError>
        requires { IsPartition classes.now (left_of graph.now) (nodes_of graph.now) }
        ensures { IfOk result (λ ties. AreTiesOf ties graph.now classes.now) }
    {
        let mut ties = Ties {
            nodes: Vec::new(alloc),
            spans: Vec::new(alloc),
            class_of: left_classes(alloc, graph, classes)?,
            queue: BinaryHeap::new(alloc),
        };
        ties.follow(alloc, graph, classes)?;
        Ok(ties)
    }

    /// Takes up that classes were parted. It takes the time to sort the left nodes of the classes
    /// that came, and the logarithm of the number of classes for each.
    pub fn follow(
        &mut self,
        alloc: Global,
        graph: &Graph,
        classes: &Classes,
    ) -> Result<(), AllocError>
        requires partition { IsPartition classes.now (left_of graph.now) (nodes_of graph.now) }
        requires former { AreFormer self.old graph.now classes.now }
        ensures { OnOk result (AreTiesOf self.new graph.now classes.now) }
    {
        let from = self.nodes.len();
        self.list_new(alloc, graph, classes)?;
        self.renew_moved(graph, classes, from)?;
        self.take_classes(graph, classes, from);
        Ok(())
    }

    // Lists the left nodes of the classes that came.
    fn list_new(
        &mut self,
        alloc: Global,
        graph: &Graph,
        classes: &Classes,
    ) -> Result<(), AllocError>
        requires partition { IsPartition classes.now (left_of graph.now) (nodes_of graph.now) }
        requires fewer { length self.old.spans.items ≤ class_count classes.now }
        ensures { OnOk result (AreListed self.old self.new graph.now classes.now
            (class_count classes.now)) }
    {
        let mut room = Vec::new(alloc);
        for class in self.spans.len()..classes.count() {
            list_within(
                graph,
                classes,
                class as u32,
                0,
                graph.left_count(),
                &mut room,
            )?;
            self.add_span(&room)?;
        }
        Ok(())
    }

    // Adds the nodes of a class, and where they stand.
    fn add_span(&mut self, nodes: &[u32]) -> Result<(), AllocError>
        ensures { OnOk result (IsSpanAdded self.old self.new nodes.now) }
    {
        let next = self.nodes.len();
        self.nodes.extend_from_slice(nodes)?;
        let end = self.nodes.len();
        self.spans.push(Span { next, end })?;
        Ok(())
    }

    // Enters the classes that the nodes from this place on are of, and those that they were of.
    fn renew_moved(
        &mut self,
        graph: &Graph,
        classes: &Classes,
        from: usize,
    ) -> Result<(), AllocError>
        requires partition { IsPartition classes.now (left_of graph.now) (nodes_of graph.now) }
        requires moved { AreMovedFrom self.old graph.now classes.now from }
        requires spans { AreSpansOf self.old graph.now classes.now }
        requires ordered { IsHeap tie_order (heap_items self.old.queue) }
        ensures { OnOk result (AreRenewed self.old self.new graph.now classes.now from
            (length self.old.nodes.items)) }
    {
        for k in from..self.nodes.len() {
            let node = self.nodes[k];
            let former = self.class_of[node as usize];
            self.renew(graph, classes, former)?;
            self.renew(graph, classes, classes.of(node))?;
        }
        Ok(())
    }

    // Enters a class, if it is tied.
    fn renew(&mut self, graph: &Graph, classes: &Classes, class: u32) -> Result<(), AllocError>
        requires partition { IsPartition classes.now (left_of graph.now) (nodes_of graph.now) }
        requires class { class < class_count classes.now }
        requires count { length self.old.spans.items ≡ class_count classes.now }
        requires spans { AreSpansOf self.old graph.now classes.now }
        requires ordered { IsHeap tie_order (heap_items self.old.queue) }
        ensures { OnOk result (IsRenewed self.old self.new graph.now classes.now class) }
    {
        let span = self.spans[class as usize];
        let next = first_in(classes, class, &self.nodes, span);
        self.spans[class as usize] = Span {
            next,
            end: span.end,
        };
        match tie_at(graph, classes, class, &self.nodes, next) {
            Some(tie) => {
                self.queue.push(Reverse(tie))?;
                Ok(())
            }
            None => Ok(()),
        }
    }

    // The nodes from this place on are of the classes that they are of.
    fn take_classes(&mut self, graph: &Graph, classes: &Classes, from: usize)
        requires partition { IsPartition classes.now (left_of graph.now) (nodes_of graph.now) }
        requires low { AreLow self.old graph.now from }
        requires long { length self.old.class_of.items ≡ left_of graph.now }
        ensures { AreTaken self.old self.new graph.now classes.now from
            (length self.old.nodes.items) }
    {
        for k in from..self.nodes.len() {
            let node = self.nodes[k];
            self.class_of[node as usize] = classes.of(node);
        }
    }
}
