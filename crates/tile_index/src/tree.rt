//! A tree over entries: a node stands for neighbouring ones, and its rectangle holds theirs.
//! The nodes that it is made of stand right before it, those of later entries first, so that a walk
//! from the last node to the first passes over them in one step where it need not look.

ghost use Rattle.std.specs.Prelude.{◌≡◌, ◌+◌, ◌-◌, ◌<◌, ◌≤◌, ◌++◌, IfOk, OnOk, length, map, []};
ghost use Rattle.std.specs.Prelude.{take, drop};
ghost use Rattle.std.specs.List.{filter};
ghost use Rattle.tile_index.specs.Entries.{hits};
ghost use Rattle.tile_index.specs.Trees.{AreNodes, IsAbove, Grows, HoldsAll, begin_of, IsTree};
ghost use Rattle.tile_index.specs.Trees.{IsPart, part, HoldsRange};

use crate::entries::{Entry, Stop};
use geo_base::Rect;
use std::alloc::{AllocError, Global};

/// How many entries are looked at one by one.
const BUNCH: usize = 16;

/// Stands for the entries from one number up to another. `skip` counts the nodes that stand before
/// those that it is made of.
#[derive(Clone, Copy, Debug)]
pub struct Node {
    pub hull: Rect,
    pub from: usize,
    pub to: usize,
    pub skip: usize,
}

// The least rectangle that holds those of the entries.
fn hull_of(entries: &[Entry]) -> Rect
    requires { 0 < length entries.now }
    ensures { HoldsAll entries.now result }
{
    let mut hull = entries[0].rect;
    for entry in entries {
        hull = hull.bounding_box(&entry.rect);
    }
    hull
}

// Adds the node of the entries from one number up to another, made of the nodes from `skip` on.
fn push_node(
    nodes: &mut Vec<Node>,
    entries: &[Entry],
    hull: Rect,
    from: usize,
    to: usize,
    skip: usize,
) -> Result<(), AllocError>
    requires some { from < to }
    requires inside { to ≤ length entries.now }
    requires nodes { AreNodes entries.now nodes.old.items }
    requires above { IsAbove entries.now nodes.old.items from to skip }
    requires hull { HoldsRange entries.now from to hull }
    ensures { OnOk result (Grows entries.now from nodes.old.items nodes.new.items) }
{
    let _ = entries;
    nodes.push(Node {
        hull,
        from,
        to,
        skip,
    })?;
    Ok(())
}

// Where stops in the order of the curve are parted: before the first whose place shares no more of
// its highest bits with the first place than the last place does, so that each part lies in a
// rectangle of its own; in the middle, where all have one place.
fn seam(stops: &[Stop]) -> usize
    requires { 1 < length stops.now }
    ensures some { 0 < result }
    ensures less { result < length stops.now }
{
    let count = stops.len();
    let first = stops[0].place;
    let shared = (first ^ stops[count - 1].place).leading_zeros();
    let early = stops.partition_point(|stop| shared < (first ^ stop.place).leading_zeros());
    if 0 < early && early < count {
        early
    } else {
        count / 2
    }
}

// Adds the nodes of the entries from one number up to another, and gives what holds them.
fn grow(
    nodes: &mut Vec<Node>,
    entries: &[Entry],
    stops: &[Stop],
    from: usize,
    to: usize,
) -> Result<Rect, AllocError>
    requires some { from < to }
    requires inside { to ≤ length entries.now }
    requires stops { to ≤ length stops.now }
    requires nodes { AreNodes entries.now nodes.old.items }
    requires next { begin_of entries.now nodes.old.items (length nodes.old.items) ≡ to }
    ensures grows { OnOk result (Grows entries.now from nodes.old.items nodes.new.items) }
    ensures holds { IfOk result (HoldsRange entries.now from to) }
{
    let skip = nodes.len();
    if to - from <= BUNCH {
        let hull = hull_of(&entries[from..to]);
        push_node(nodes, entries, hull, from, to, skip)?;
        return Ok(hull);
    }
    let middle = from + seam(&stops[from..to]);
    let late = grow(nodes, entries, stops, middle, to)?;
    let early = grow(nodes, entries, stops, from, middle)?;
    let hull = early.bounding_box(&late);
    push_node(nodes, entries, hull, from, to, skip)?;
    Ok(hull)
}

/// The nodes of all entries, which stand in the order of the stops.
pub fn tree_of(alloc: Global, entries: &[Entry], stops: &[Stop]) -> Result<Vec<Node>, AllocError>
    requires { length entries.now ≡ length stops.now }
    ensures { IfOk result (λ v. IsTree entries.now v.items) }
{
    let mut nodes = Vec::new(alloc);
    if entries.is_empty() {
        return Ok(nodes);
    }
    grow(&mut nodes, entries, stops, 0, entries.len())?;
    Ok(nodes)
}

// Adds the positions of the entries that share a square with the window.
fn push_hits(found: &mut Vec<u32>, entries: &[Entry], w: &Rect) -> Result<(), AllocError>
    ensures { OnOk result (found.new.items ≡ found.old.items ++ hits w.now entries.now) }
{
    for entry in entries {
        if entry.rect.meets(w) {
            found.push(entry.position)?;
        }
    }
    Ok(())
}

// Adds those under a node.
fn push_under(
    found: &mut Vec<u32>,
    entries: &[Entry],
    node: &Node,
    w: &Rect,
) -> Result<(), AllocError>
    requires { IsPart entries.now node.now }
    ensures { OnOk result (found.new.items ≡ found.old.items
        ++ hits w.now (part entries.now node.now)) }
{
    push_hits(found, &entries[node.from..node.to], w)
}

/// The positions of the entries that share a square with the window.
pub fn hits(
    alloc: Global,
    nodes: &[Node],
    entries: &[Entry],
    w: &Rect,
) -> Result<Vec<u32>, AllocError>
    requires { IsTree entries.now nodes.now }
    ensures { IfOk result (λ v. v.items ≡ hits w.now entries.now) }
{
    let mut found = Vec::new(alloc);
    let mut i = nodes.len();
    while 0 < i {
        i -= 1;
        let node = &nodes[i];
        if !node.hull.meets(w) {
            i = node.skip;
        } else if node.skip == i {
            push_under(&mut found, entries, node, w)?;
        }
    }
    Ok(found)
}
