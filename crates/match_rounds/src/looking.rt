//! A look at one class: it parts classes by the ends that their nodes have there.

ghost use Rattle.std.specs.Prelude.{◌≡◌, ◌<◌, ℕ, length, slice_index, OnOk};
ghost use Rattle.std.specs.List.{flat_map};
ghost use Rattle.match_graph.specs.Graph.{IsGraph, ends_at, left_of, nodes_of};
ghost use Rattle.match_rounds.specs.Classes.{IsGrown, IsPartition, KeepsFresh, node_count};
ghost use Rattle.match_rounds.specs.Looking.{ArePartedByEnds};
ghost use Rattle.match_rounds.specs.Touching.{AreInOrder, end_at};

use crate::classes::Classes;
use crate::groups::Part;
use crate::sorting::part_by;
use crate::touching::{list_parts, list_touched, port_end, sort_ends};
use match_graph::{End, Graph};
use std::alloc::{AllocError, Global};

/// Room for looks at classes, kept from one to the next.
#[derive(Drop)]
pub struct Room {
    pub touched: Vec<End>,
    pub parts: Vec<Part>,
    pub group: Vec<u32>,
}

impl Room {
    pub fn new(alloc: Global) -> Room {
        Room {
            touched: Vec::new(alloc),
            parts: Vec::new(alloc),
            group: Vec::new(alloc),
        }
    }
}

/// Parts classes by the ends that their nodes have at these members of a class. It takes the time
/// to sort those ends.
pub fn look_at(
    graph: &Graph,
    classes: &mut Classes,
    members: &[u32],
    room: &mut Room,
) -> Result<(), AllocError>
    requires graph { IsGraph graph.now }
    requires partition { IsPartition classes.old (left_of graph.now) (nodes_of graph.now) }
    requires members { (i : ℕ) → i < length members.now
        → slice_index members.now i < nodes_of graph.now }
    ensures partition { OnOk result (IsPartition classes.new (left_of graph.now)
        (nodes_of graph.now)) }
    ensures parted { OnOk result (ArePartedByEnds classes.old classes.new
        (flat_map (ends_at graph.now) members.now) (nodes_of graph.now)) }
    ensures fresh { OnOk result (KeepsFresh classes.old classes.new (nodes_of graph.now)) }
    ensures grown { OnOk result (IsGrown classes.old classes.new) }
{
    list_touched(graph, members, &mut room.touched)?;
    sort_ends(&mut room.touched);
    part_by_ends(
        classes,
        graph.left_count(),
        &room.touched,
        &mut room.parts,
        &mut room.group,
    )?;
    Ok(())
}

// Parts classes by how many of these ends their nodes have, port by port.
fn part_by_ends(
    classes: &mut Classes,
    left_count: u32,
    touched: &[End],
    parts: &mut Vec<Part>,
    group: &mut Vec<u32>,
) -> Result<(), AllocError>
    requires partition { IsPartition classes.old left_count (node_count classes.old) }
    requires order { AreInOrder touched.now }
    requires nodes { (k : ℕ) → k < length touched.now
        → (end_at touched.now k).node < node_count classes.old }
    ensures partition { OnOk result (IsPartition classes.new left_count (node_count classes.old)) }
    ensures parted { OnOk result (ArePartedByEnds classes.old classes.new touched.now
        (node_count classes.old)) }
    ensures fresh { OnOk result (KeepsFresh classes.old classes.new (node_count classes.old)) }
    ensures grown { OnOk result (IsGrown classes.old classes.new) }
{
    let mut i = 0;
    while i < touched.len() {
        let end = port_end(touched, i);
        list_parts(classes, touched, i, end, parts)?;
        part_by(classes, left_count, parts, group)?;
        i = end;
    }
    Ok(())
}
