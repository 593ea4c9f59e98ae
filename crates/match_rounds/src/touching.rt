//! The ends at the members of a class, sorted, and counted for each node.

ghost use Rattle.std.specs.Prelude.{◌≡◌, ◌<◌, ℕ, length, slice_index, OnOk};
ghost use Rattle.std.specs.List.{flat_map};
ghost use Rattle.std.specs.List.Sorted.{IsPermutation};
ghost use Rattle.match_graph.specs.Graph.{IsGraph, ends_at, nodes_of};
ghost use Rattle.match_rounds.specs.Classes.{node_count};
ghost use Rattle.match_rounds.specs.Touching.{AreInOrder, AreParts, IsPortRun, IsRun, PartLaw};
ghost use Rattle.match_rounds.specs.Touching.{end_at};
ghost use Rattle.match_rounds.specs.Turned.{TouchLaw};

use crate::classes::Classes;
use crate::groups::Part;
use match_graph::{End, Graph};
use std::alloc::AllocError;

/// The ends of the members of a class: how each node that has an end there meets it, once for each
/// such end.
pub fn list_touched(
    graph: &Graph,
    members: &[u32],
    touched: &mut Vec<End>,
) -> Result<(), AllocError>
    requires graph { IsGraph graph.now }
    requires nodes { (i : ℕ) → i < length members.now
        → slice_index members.now i < nodes_of graph.now }
    ensures { OnOk result (touched.new.items ≡ flat_map (ends_at graph.now) members.now) }
{
    touched.clear();
    for i in 0..members.len() {
        touched.extend_from_slice(graph.ends_of(members[i]))?;
    }
    Ok(())
}

/// A node stands as often among the ends of a class's members as it has ends at them, and its part
/// counts how often that is.
pub fn turning()
    ensures touched { TouchLaw }
    ensures part { PartLaw }
{}

/// Orders ends by port and node.
pub fn sort_ends(touched: &mut Vec<End>)
    ensures sorted { AreInOrder touched.new.items }
    ensures permutation { IsPermutation touched.old.items touched.new.items }
{
    touched.sort_unstable();
}

/// Where the ends stop that are equal to this one.
pub fn key_end(touched: &[End], from: usize) -> usize
    requires { from < length touched.now }
    ensures { IsRun touched.now from result }
{
    for i in from + 1..touched.len() {
        if touched[i].port != touched[from].port || touched[i].node != touched[from].node {
            return i;
        }
    }
    touched.len()
}

/// Where the ends stop that have this one's port.
pub fn port_end(touched: &[End], from: usize) -> usize
    requires { from < length touched.now }
    ensures { IsPortRun touched.now from result }
{
    for i in from + 1..touched.len() {
        if touched[i].port != touched[from].port {
            return i;
        }
    }
    touched.len()
}

/// The nodes of the ends from here up to there, which have one port, each with the number of its
/// ends.
pub fn list_parts(
    classes: &Classes,
    touched: &[End],
    from: usize,
    to: usize,
    parts: &mut Vec<Part>,
) -> Result<(), AllocError>
    requires order { AreInOrder touched.now }
    requires run { IsPortRun touched.now from to }
    requires nodes { (k : ℕ) → k < length touched.now
        → (end_at touched.now k).node < node_count classes.now }
    ensures { OnOk result (AreParts classes.now touched.now from to parts.new.items) }
{
    parts.clear();
    let mut i = from;
    while i < to {
        let end = key_end(touched, i);
        let node = touched[i].node;
        parts.push(Part {
            class: classes.class_of[node as usize],
            count: end - i,
            node,
        })?;
        i = end;
    }
    Ok(())
}
