//! Classes parted by counts that stand in order, group by group.

ghost use Rattle.std.specs.Prelude.{◌<◌, ◌≤◌, length, OnOk};
ghost use Rattle.match_rounds.specs.Classes.{IsGrown, IsPartition, KeepsFresh, node_count};
ghost use Rattle.match_rounds.specs.Pieces.{ArePartedBy, ArePieces, AreNodesOf, IsGroup};

use crate::classes::Classes;
use std::alloc::AllocError;

/// A node that has so many ends at the class that is looked at, and its own class.
#[derive(Clone, Copy, PartialEq, Eq, PartialOrd, Ord, Debug)]
pub struct Part {
    pub class: u32,
    pub count: usize,
    pub node: u32,
}

/// Parts each class by these counts, which are ordered by class and count.
pub fn part_all(
    classes: &mut Classes,
    left_count: u32,
    parts: &[Part],
    group: &mut Vec<u32>,
) -> Result<(), AllocError>
    requires partition { IsPartition classes.old left_count (node_count classes.old) }
    requires parts { ArePieces classes.old.class_of.items parts.now (node_count classes.old) }
    ensures partition { OnOk result (IsPartition classes.new left_count (node_count classes.old)) }
    ensures parted { OnOk result (ArePartedBy classes.old.class_of.items classes.new.class_of.items
        parts.now (length parts.now) (node_count classes.old)) }
    ensures fresh { OnOk result (KeepsFresh classes.old classes.new (node_count classes.old)) }
    ensures grown { OnOk result (IsGrown classes.old classes.new) }
{
    let mut i = 0;
    while i < parts.len() {
        let end = group_end(parts, i);
        list_nodes(parts, i, end, group)?;
        classes.part(group, left_count)?;
        i = end;
    }
    Ok(())
}

// Where the entries end that are of the same class and count as this one.
fn group_end(parts: &[Part], from: usize) -> usize
    requires { from < length parts.now }
    ensures { IsGroup parts.now from result }
{
    for i in from + 1..parts.len() {
        if parts[i].class != parts[from].class || parts[i].count != parts[from].count {
            return i;
        }
    }
    parts.len()
}

// The nodes of these entries.
fn list_nodes(
    parts: &[Part],
    from: usize,
    to: usize,
    group: &mut Vec<u32>,
) -> Result<(), AllocError>
    requires from { from ≤ to }
    requires to { to ≤ length parts.now }
    ensures { OnOk result (AreNodesOf parts.now from to group.new.items) }
{
    group.clear();
    for i in from..to {
        group.push(parts[i].node)?;
    }
    Ok(())
}
