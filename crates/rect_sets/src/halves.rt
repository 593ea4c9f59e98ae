//! Edges swept in two halves again and again: what touches an upright line between is swept once
//! more, and what touches a level one is put together.

ghost use Rattle.std.specs.Prelude.{◌≡◌, ◌++◌, IfOk, []};
ghost use Rattle.std.specs.List.{All};
ghost use Rattle.geo_base.specs.Rects.{IsRect};
ghost use Rattle.geo_base.specs.declared.shapes.Square.{Square};
ghost use Rattle.rect_sets.specs.Combined.{combined_set};
ghost use Rattle.rect_sets.specs.Divided.{kept, cut_off};
ghost use Rattle.rect_sets.specs.Edges.{set_of, IsEdge, IsBalanced};
ghost use Rattle.rect_sets.specs.Rects.{covers};
ghost use Rattle.rect_sets.specs.Sweeps.{AreBlocks};
ghost use Rattle.geo_base.specs.declared.layer.Op.TheVariants.{Or};

use crate::booleans::edges_of;
use crate::cuts::{Axis, Cut};
use crate::edge_cuts::{Sides, Ways, line_of, sides_of};
use crate::levels::join_level;
use crate::parts::sort_out;
use crate::row::Edge;
use crate::strips::blocks;
use geo_base::{Op, Rect};
use std::alloc::{AllocError, Global};

// No part is cut more often than this.
const DEEPEST: u32 = 64;

// The blocks of two halves that don't touch the line between, and those of each that do.
#[derive(Drop)]
struct Halves {
    done: Vec<Rect>,
    low: Vec<Rect>,
    high: Vec<Rect>,
}

fn sort_halves(alloc: Global, low: &[Rect], high: &[Rect], cut: &Cut) -> Result<Halves, AllocError>
    ensures done { IfOk result (λ h. h.done.items ≡ kept cut.now high.now ++ kept cut.now low.now) }
    ensures low { IfOk result (λ h. h.low.items ≡ cut_off cut.now low.now) }
    ensures high { IfOk result (λ h. h.high.items ≡ cut_off cut.now high.now) }
{
    let mut done = Vec::new(alloc);
    let mut touching_low = Vec::new(alloc);
    let mut touching_high = Vec::new(alloc);
    sort_out(high, cut, &mut done, &mut touching_high)?;
    sort_out(low, cut, &mut done, &mut touching_low)?;
    Ok(Halves {
        done,
        low: touching_low,
        high: touching_high,
    })
}

// The edges of what touches a line from either side.
fn touching(alloc: Global, mut high: Vec<Rect>, low: &[Rect]) -> Result<Vec<Edge>, AllocError>
    requires high { All IsRect high.items }
    requires low { All IsRect low.now }
    ensures edges { IfOk result (λ r. All IsEdge r.items) }
    ensures balanced { IfOk result (λ r. IsBalanced r.items) }
    ensures set { IfOk result (λ r. (s : Square) → set_of Or r.items s
        ≡ covers (high.items ++ low.now) s) }
{
    high.extend_from_slice(low)?;
    let edges = edges_of(alloc, &high, &[])?;
    Ok(edges)
}

// The same as `blocks`, in parts as long as that makes it faster.
fn blocks_by(
    alloc: Global,
    edges: Vec<Edge>,
    op: Op,
    ways: Ways,
    depth: u32,
) -> Result<Vec<Rect>, AllocError>
    requires edges { All IsEdge edges.items }
    requires balanced { IsBalanced edges.items }
    ensures { IfOk result (λ r. AreBlocks (set_of op edges.items) r.items) }
{
    if depth == 0 {
        return blocks(alloc, edges, op);
    }
    let Some(cut) = line_of(alloc, &edges, ways)? else {
        return blocks(alloc, edges, op);
    };
    let Some(Sides { low, high }) = sides_of(alloc, &edges, &cut)? else {
        return blocks(alloc, edges, op);
    };
    drop(edges);
    let low = blocks_by(alloc, low, op, ways, depth - 1)?;
    let high = blocks_by(alloc, high, op, ways, depth - 1)?;
    let Halves {
        mut done,
        low,
        high,
    } = sort_halves(alloc, &low, &high, &cut)?;
    let joined = match cut.axis {
        Axis::X => {
            let edges = touching(alloc, high, &low)?;
            blocks_by(alloc, edges, Op::Or, Ways::Level, depth - 1)?
        }
        Axis::Y => join_level(alloc, low, high)?,
    };
    done.extend_from_slice(&joined)?;
    Ok(done)
}

/// The rectangles of the set that the edges give, in parts as long as that makes the sweep faster.
pub fn blocks_in_parts(alloc: Global, edges: Vec<Edge>, op: Op) -> Result<Vec<Rect>, AllocError>
    requires edges { All IsEdge edges.items }
    requires balanced { IsBalanced edges.items }
    ensures { IfOk result (λ r. AreBlocks (set_of op edges.items) r.items) }
{
    blocks_by(alloc, edges, op, Ways::Both, DEEPEST)
}

/// The rectangles of the squares where the operator holds of the two lists.
pub fn combine(alloc: Global, a: &[Rect], b: &[Rect], op: Op) -> Result<Vec<Rect>, AllocError>
    requires a { All IsRect a.now }
    requires b { All IsRect b.now }
    ensures { IfOk result (λ r. AreBlocks (combined_set op a.now b.now) r.items) }
{
    let edges = edges_of(alloc, a, b)?;
    let rects = blocks_in_parts(alloc, edges, op)?;
    Ok(rects)
}
