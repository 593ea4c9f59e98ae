//! One round: each class is parted by the ends that its nodes have at each class.

ghost use Rattle.std.specs.Prelude.{◌≡◌, ◌<◌, ℕ, length, slice_index, OnOk};
ghost use Rattle.match_graph.specs.Graph.{IsGraph, left_of, nodes_of};
ghost use Rattle.match_rounds.specs.Classes.{IsGrown, IsPartition, KeepsFresh};
ghost use Rattle.match_rounds.specs.Rounds.{AreAhead, ArePartedBySpans, AreSpans, IsNextRound};

use crate::classes::Classes;
use crate::looking::{Room, look_at};
use crate::members::list_members;
use match_graph::Graph;
use std::alloc::{AllocError, Global};

/// Room for the work of rounds, kept from round to round.
#[derive(Drop)]
pub struct RoundRoom {
    /// The members of the classes that a round looks at.
    pub members: Vec<u32>,
    /// Where each class ends among them.
    pub ends: Vec<usize>,
    pub room: Room,
}

impl RoundRoom {
    pub fn new(alloc: Global) -> RoundRoom {
        RoundRoom {
            members: Vec::new(alloc),
            ends: Vec::new(alloc),
            room: Room::new(alloc),
        }
    }
}

/// One round: parts each class by the ends that its nodes have at each class. It looks at the
/// marked classes alone, so it takes the time to sort the ends of their nodes; and it marks all
/// parts but the largest of each class that it parts, so that over all rounds each end is sorted
/// no more than the logarithm of the number of nodes often.
pub fn next_round(
    graph: &Graph,
    classes: &mut Classes,
    room: &mut RoundRoom,
) -> Result<(), AllocError>
    requires graph { IsGraph graph.now }
    requires partition { IsPartition classes.old (left_of graph.now) (nodes_of graph.now) }
    requires ahead { AreAhead graph.now classes.old }
    ensures partition { OnOk result (IsPartition classes.new (left_of graph.now)
        (nodes_of graph.now)) }
    ensures ahead { OnOk result (AreAhead graph.now classes.new) }
    ensures round { OnOk result (IsNextRound graph.now classes.old classes.new) }
    ensures grown { OnOk result (IsGrown classes.old classes.new) }
{
    list_members(classes, &mut room.members, &mut room.ends)?;
    classes.marks.clear();
    look_at_each(graph, classes, &room.members, &room.ends, &mut room.room)?;
    Ok(())
}

// Parts classes by the ends at each of these classes.
fn look_at_each(
    graph: &Graph,
    classes: &mut Classes,
    members: &[u32],
    ends: &[usize],
    room: &mut Room,
) -> Result<(), AllocError>
    requires graph { IsGraph graph.now }
    requires partition { IsPartition classes.old (left_of graph.now) (nodes_of graph.now) }
    requires members { (i : ℕ) → i < length members.now
        → slice_index members.now i < nodes_of graph.now }
    requires spans { AreSpans members.now ends.now }
    ensures partition { OnOk result (IsPartition classes.new (left_of graph.now)
        (nodes_of graph.now)) }
    ensures parted { OnOk result (ArePartedBySpans graph.now classes.old classes.new members.now
        ends.now (length ends.now) (nodes_of graph.now)) }
    ensures fresh { OnOk result (KeepsFresh classes.old classes.new (nodes_of graph.now)) }
    ensures grown { OnOk result (IsGrown classes.old classes.new) }
{
    let mut from = 0;
    for j in 0..ends.len() {
        let to = ends[j];
        look_at(graph, classes, &members[from..to], room)?;
        from = to;
    }
    Ok(())
}
