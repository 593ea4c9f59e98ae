//! Classes parted by counts in any order, which are sorted first.

ghost use Rattle.std.specs.Prelude.{length, OnOk};
ghost use Rattle.std.specs.List.Sorted.{IsPermutation};
ghost use Rattle.match_rounds.specs.Classes.{IsGrown, IsPartition, KeepsFresh, node_count};
ghost use Rattle.match_rounds.specs.Pieces.{ArePartedBy, AreLoose, AreOrdered};

use crate::classes::Classes;
use crate::groups::{Part, part_all};
use std::alloc::AllocError;

/// Parts each class by these counts, in any order.
pub fn part_by(
    classes: &mut Classes,
    left_count: u32,
    parts: &mut Vec<Part>,
    group: &mut Vec<u32>,
) -> Result<(), AllocError>
    requires partition { IsPartition classes.old left_count (node_count classes.old) }
    requires parts { AreLoose classes.old.class_of.items parts.old.items (node_count classes.old) }
    ensures partition { OnOk result (IsPartition classes.new left_count (node_count classes.old)) }
    ensures parted { OnOk result (ArePartedBy classes.old.class_of.items classes.new.class_of.items
        parts.old.items (length parts.old.items) (node_count classes.old)) }
    ensures fresh { OnOk result (KeepsFresh classes.old classes.new (node_count classes.old)) }
    ensures grown { OnOk result (IsGrown classes.old classes.new) }
{
    sort_parts(parts);
    part_all(classes, left_count, parts, group)?;
    Ok(())
}

// Orders the parts by class and count.
fn sort_parts(parts: &mut Vec<Part>)
    ensures sorted { AreOrdered parts.new.items }
    ensures permutation { IsPermutation parts.old.items parts.new.items }
{
    parts.sort_unstable();
}
