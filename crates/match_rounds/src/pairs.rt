//! A guessed pair of nodes, parted from the rest of their classes.

ghost use Rattle.std.specs.Prelude.{◌≡◌, ◌≢◌, ◌<◌, IfOk, OnOk};
ghost use Rattle.match_rounds.specs.Classes.{IsGrown, IsPartition, KeepsFresh, node_count};
ghost use Rattle.match_rounds.specs.Pairs.{IsPairParted, pair_of, part_at};

use crate::classes::Classes;
use crate::groups::Part;
use crate::sorting::part_by;
use std::alloc::{AllocError, Global};

/// Parts two nodes from the rest of their classes.
pub fn part_pair(
    alloc: Global,
    classes: &mut Classes,
    left_count: u32,
    a: u32,
    b: u32,
) -> Result<(), AllocError>
    requires partition { IsPartition classes.old left_count (node_count classes.old) }
    requires first { a < node_count classes.old }
    requires second { b < node_count classes.old }
    requires two { a ≢ b }
    ensures partition { OnOk result (IsPartition classes.new left_count (node_count classes.old)) }
    ensures parted { OnOk result (IsPairParted classes.old classes.new a b
        (node_count classes.old)) }
    ensures fresh { OnOk result (KeepsFresh classes.old classes.new (node_count classes.old)) }
    ensures grown { OnOk result (IsGrown classes.old classes.new) }
{
    let mut parts = pair_parts(alloc, classes, a, b)?;
    let mut group = Vec::new(alloc);
    part_by(classes, left_count, &mut parts, &mut group)?;
    Ok(())
}

// The two nodes as parts of one count.
fn pair_parts(alloc: Global, classes: &Classes, a: u32, b: u32) -> Result<Vec<Part>, AllocError>
    requires first { a < node_count classes.now }
    requires second { b < node_count classes.now }
    ensures { IfOk result (λ parts. parts.items ≡ pair_of classes.now a b) }
{
    let mut parts = Vec::new(alloc);
    parts.push(part_of(classes, a))?;
    parts.push(part_of(classes, b))?;
    Ok(parts)
}

fn part_of(classes: &Classes, node: u32) -> Part
    requires { node < node_count classes.now }
    ensures { result ≡ part_at classes.now node 1 }
{
    Part {
        class: classes.class_of[node as usize],
        count: 1,
        node,
    }
}
