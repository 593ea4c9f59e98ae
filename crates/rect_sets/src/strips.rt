//! From edges to rectangles.

ghost use Rattle.std.specs.Prelude.{◌≡◌, IfOk, OnOk};
ghost use Rattle.rect_sets.specs.Edges.{set_of, IsBalanced, IsEdge};
ghost use Rattle.rect_sets.specs.Sweeps.{AreBlocks};
ghost use Rattle.rect_sets.specs.Blocks.{HaveRoom, AreSortedEdges};
ghost use Rattle.std.specs.List.{All};
ghost use Rattle.std.specs.List.Sorted.{IsPermutation};

use crate::active::{renew, strip_end};
use crate::opens::step;
use crate::row::{Edge, row_runs};
use geo_base::{Op, Rect};
use std::alloc::{AllocError, Global};
use std::mem;

// Reads each x, so that what its type says of it is known of all: it isn't left of -2^63.
fn read_all(edges: &[Edge])
    ensures { HaveRoom edges.now }
{
    for edge in edges {
        let _x = edge.x;
    }
}

// The rectangles of the set that sorted edges give, in the order of their upper ends.
fn sorted_blocks(alloc: Global, edges: &[Edge], op: Op) -> Result<Vec<Rect>, AllocError>
    requires edges { All IsEdge edges.now }
    requires sorted { AreSortedEdges edges.now }
    requires balanced { IsBalanced edges.now }
    ensures { IfOk result (λ r. AreBlocks (set_of op edges.now) r.items) }
{
    read_all(edges);
    let mut active = Vec::new(alloc);
    let mut spare = Vec::new(alloc);
    let mut runs = Vec::new(alloc);
    let mut opens = Vec::new(alloc);
    let mut next = Vec::new(alloc);
    let mut closed = Vec::new(alloc);
    let mut at = 0;
    let mut y = if edges.len() == 0 { 0 } else { edges[0].y1 };
    'strips: loop {
        renew(&mut active, edges, &mut at, y, &mut spare)?;
        if at == edges.len() && active.len() == 0 {
            break;
        }
        let end = strip_end(&active, edges, at, y);
        row_runs(&active, i64::MIN, op, &mut runs)?;
        step(&opens, &runs, y, &mut next, &mut closed)?;
        mem::swap(&mut opens, &mut next);
        y = end;
    }
    runs.clear();
    step(&opens, &runs, y, &mut next, &mut closed)?;
    Ok(closed)
}

// By y1, then x. The edges of a list of rectangles in order are one run, and two runs are merged.
fn sort_edges(edges: &mut Vec<Edge>) -> Result<(), AllocError>
    ensures permutation { OnOk result (IsPermutation edges.old.items edges.new.items) }
    ensures sorted { OnOk result (AreSortedEdges edges.new.items) }
{
    edges.sort_by_key(|edge| (edge.y1, edge.x))?;
    Ok(())
}

/// The rectangles of the set that the edges give.
pub fn blocks(alloc: Global, mut edges: Vec<Edge>, op: Op) -> Result<Vec<Rect>, AllocError>
    requires edges { All IsEdge edges.items }
    requires balanced { IsBalanced edges.items }
    ensures { IfOk result (λ r. AreBlocks (set_of op edges.items) r.items) }
{
    sort_edges(&mut edges)?;
    let rects = sorted_blocks(alloc, &edges, op)?;
    Ok(rects)
}
