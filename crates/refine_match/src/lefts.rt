//! The left nodes of classes, and the first of them that is still in its class.

ghost use Rattle.std.specs.Prelude.{◌≡◌, ◌<◌, ◌≤◌, ◌++◌, ◌∷◌, [], ℕ, length, slice_index};
ghost use Rattle.std.specs.Prelude.{IfOk, OnOk};
ghost use Rattle.match_graph.specs.Graph.{left_of, nodes_of};
ghost use Rattle.match_rounds.specs.Classes.{IsPartition, class_count, class_in, node_count};
ghost use Rattle.match_rounds.specs.Sides.{left_members};
ghost use Rattle.refine_match.specs.Ties.{AreInOrder, AreWithin, IsFirstIn, IsTieOrNone};

use crate::ties::{Span, Tie};
use match_graph::Graph;
use match_rounds::Classes;
use std::alloc::{AllocError, Global};

/// The class of each left node.
pub fn left_classes(alloc: Global, graph: &Graph, classes: &Classes) -> Result<Vec<u32>, AllocError>
    requires { IsPartition classes.now (left_of graph.now) (nodes_of graph.now) }
    ensures long { IfOk result (λ v. length v.items ≡ left_of graph.now) }
    ensures each { IfOk result (λ v. (a : ℕ) → a < left_of graph.now
        → slice_index v.items a ≡ class_in classes.now a) }
{
    let mut class_of = Vec::new(alloc);
    for node in 0..graph.left_count() {
        class_of.push(classes.of(node))?;
    }
    Ok(class_of)
}

/// The nodes of a class from one number on and below another one, by number.
pub fn list_within(
    graph: &Graph,
    classes: &Classes,
    class: u32,
    from: u32,
    to: u32,
    found: &mut Vec<u32>,
) -> Result<(), AllocError>
    requires partition { IsPartition classes.now (left_of graph.now) (nodes_of graph.now) }
    requires class { class < class_count classes.now }
    requires inside { to ≤ nodes_of graph.now }
    ensures { OnOk result (AreInOrder found.new.items (class_in classes.now) from to class) }
{
    take_within(classes.members(graph, class), from, to, found)?;
    found.sort_unstable();
    Ok(())
}

// Those of these nodes.
fn take_within(nodes: &[u32], from: u32, to: u32, found: &mut Vec<u32>) -> Result<(), AllocError>
    ensures { OnOk result (AreWithin found.new.items nodes.now (length nodes.now) from to) }
{
    found.clear();
    for i in 0..nodes.len() {
        take_node(nodes[i], from, to, found)?;
    }
    Ok(())
}

// The node, if it is one of those.
fn take_node(node: u32, from: u32, to: u32, found: &mut Vec<u32>) -> Result<(), AllocError>
    ensures inside { from ≤ node → node < to
        → OnOk result (found.new.items ≡ found.old.items ++ node ∷ []) }
    ensures low { node < from → OnOk result (found.new.items ≡ found.old.items) }
    ensures high { to ≤ node → OnOk result (found.new.items ≡ found.old.items) }
{
    if from <= node && node < to {
        found.push(node)?;
    }
    Ok(())
}

/// The first of these places at which a node of the class stands, or their end.
pub fn first_in(classes: &Classes, class: u32, nodes: &[u32], span: Span) -> usize
    requires end { span.end ≤ length nodes.now }
    requires nodes { (k : ℕ) → span.next ≤ k → k < span.end
        → slice_index nodes.now k < node_count classes.now }
    ensures { IsFirstIn nodes.now (class_in classes.now) class span.next span.end result }
{
    for k in span.next..span.end {
        if classes.of(nodes[k]) == class {
            return k;
        }
    }
    span.end
}

/// The entry of a class whose first left node stands at this place, if it is tied.
pub fn tie_at(
    graph: &Graph,
    classes: &Classes,
    class: u32,
    nodes: &[u32],
    place: usize,
) -> Option<Tie>
    requires partition { IsPartition classes.now (left_of graph.now) (nodes_of graph.now) }
    requires class { class < class_count classes.now }
    requires place { 1 < left_members graph.now classes.now class → place < length nodes.now }
    ensures { IsTieOrNone graph.now classes.now class nodes.now place result }
{
    let count = classes.left_size(graph, class);
    if count < 2 {
        return None;
    }
    Some(Tie {
        count,
        node: nodes[place],
    })
}
