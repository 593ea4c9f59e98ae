//! The right nodes of each class, by number.

ghost use Rattle.std.specs.Prelude.{◌<◌, ◌≤◌, length, IfOk, IfSome, OnOk};
ghost use Rattle.match_graph.specs.Graph.{left_of, nodes_of};
ghost use Rattle.match_rounds.specs.Classes.{IsPartition, class_count};
ghost use Rattle.refine_match.specs.Rights.{AreRightSpans, AreRightsOf, IsFirstRight};
ghost use Rattle.refine_match.specs.Rights.{IsRightAdded};

use crate::lefts::{first_in, list_within};
use crate::ties::Span;
use match_graph::Graph;
use match_rounds::Classes;
use std::alloc::{AllocError, Global};

/// The right nodes of each class. It follows classes as they are parted.
#[derive(Drop)]
pub struct Rights {
    /// Right nodes by number, class after class. Nodes that left a class stand there still.
    pub nodes: Vec<u32>,
    /// Where the nodes of each class stand.
    pub spans: Vec<Span>,
}

impl Rights {
    /// The right nodes of these classes. It takes the time to sort them.
    pub fn of(alloc: Global, graph: &Graph, classes: &Classes) -> Result<Rights, AllocError>
        requires { IsPartition classes.now (left_of graph.now) (nodes_of graph.now) }
        ensures { IfOk result (λ rights. AreRightsOf rights graph.now classes.now) }
    {
        let mut rights = Rights {
            nodes: Vec::new(alloc),
            spans: Vec::new(alloc),
        };
        rights.follow(alloc, graph, classes)?;
        Ok(rights)
    }

    /// Takes up that classes were parted. It takes the time to sort the right nodes of the classes
    /// that came.
    pub fn follow(
        &mut self,
        alloc: Global,
        graph: &Graph,
        classes: &Classes,
    ) -> Result<(), AllocError>
        requires partition { IsPartition classes.now (left_of graph.now) (nodes_of graph.now) }
        requires fewer { length self.old.spans.items ≤ class_count classes.now }
        requires spans { AreRightSpans self.old graph.now classes.now }
        ensures { OnOk result (AreRightsOf self.new graph.now classes.now) }
    {
        let left = graph.left_count();
        let mut room = Vec::new(alloc);
        for class in self.spans.len()..classes.count() {
            list_within(
                graph,
                classes,
                class as u32,
                left,
                graph.node_count(),
                &mut room,
            )?;
            self.add_span(&room)?;
        }
        Ok(())
    }

    // Adds the nodes of a class, and where they stand.
    fn add_span(&mut self, nodes: &[u32]) -> Result<(), AllocError>
        ensures { OnOk result (IsRightAdded self.old self.new nodes.now) }
    {
        let next = self.nodes.len();
        self.nodes.extend_from_slice(nodes)?;
        let end = self.nodes.len();
        self.spans.push(Span { next, end })?;
        Ok(())
    }

    /// The first right node of a class, if it has one. The time is in proportion to the number of
    /// nodes that left the class and stand before it.
    pub fn first(&self, graph: &Graph, classes: &Classes, class: u32) -> Option<u32>
        requires partition { IsPartition classes.now (left_of graph.now) (nodes_of graph.now) }
        requires rights { AreRightsOf self.now graph.now classes.now }
        requires class { class < class_count classes.now }
        ensures { IfSome result (IsFirstRight graph.now classes.now class) }
    {
        let span = self.spans[class as usize];
        let place = first_in(classes, class, &self.nodes, span);
        if place < span.end {
            return Some(self.nodes[place]);
        }
        None
    }

    /// Drops the nodes that left a class and stand before its first one.
    pub fn pass(&mut self, graph: &Graph, classes: &Classes, class: u32)
        requires partition { IsPartition classes.now (left_of graph.now) (nodes_of graph.now) }
        requires rights { AreRightsOf self.old graph.now classes.now }
        requires class { class < class_count classes.now }
        ensures { AreRightsOf self.new graph.now classes.now }
    {
        let span = self.spans[class as usize];
        let next = first_in(classes, class, &self.nodes, span);
        self.spans[class as usize] = Span {
            next,
            end: span.end,
        };
    }
}
