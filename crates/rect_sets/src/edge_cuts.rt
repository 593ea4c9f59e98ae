//! Edges cut in two by a line, so that the rows of each part's sweep are shorter.

ghost use Rattle.std.specs.Prelude.{◌≡◌, ◌++◌, IfOk, IfSome, OnOk, [], ◌∷◌};
ghost use Rattle.std.specs.List.{All};
ghost use Rattle.rect_sets.specs.Edges.{IsEdge, IsBalanced};
ghost use Rattle.rect_sets.specs.EdgeCuts.{edges_below, edges_above, edges_left, edges_right};
ghost use Rattle.rect_sets.specs.EdgeCuts.{AreSides, upright_at};

use crate::cuts::{Axis, Cut};
use crate::row::Edge;
use crate::sums::sums;
use std::alloc::{AllocError, Global};

// Fewer edges than this aren't cut.
const FEW: usize = 256;

// A sweep whose strips cross more edges than this, for each edge that there is, is cut.
const LONG_ROW: u64 = 128;

// An upright line is chosen across the shorter side where it cuts less than one in so many of what
// the level line cuts.
const FAR_FEWER: usize = 8;

// Spreads numbers over 64 bits.
const MIX: u64 = 0x9E37_79B9_7F4A_7C15;

/// The edges of either side of a line.
#[derive(Drop)]
pub struct Sides {
    pub low: Vec<Edge>,
    pub high: Vec<Edge>,
}

/// Which lines edges may be cut by: what touches an upright line is cut by level lines alone.
#[derive(Clone, Copy, Debug)]
pub enum Ways {
    Both,
    Level,
}

// What is known of some edges, to choose a line by: what bounds them, and the sum of their heights.
#[derive(Clone, Copy, Debug)]
struct Plane {
    x1: i64,
    y1: i64,
    x2: i64,
    y2: i64,
    heights: u64,
}

impl Plane {
    fn of(edges: &[Edge]) -> Plane {
        let mut plane = Plane {
            x1: i64::MAX,
            y1: i64::MAX,
            x2: i64::MIN,
            y2: i64::MIN,
            heights: 0,
        };
        for edge in edges {
            plane.x1 = plane.x1.min(edge.x);
            plane.y1 = plane.y1.min(edge.y1);
            plane.x2 = plane.x2.max(edge.x);
            plane.y2 = plane.y2.max(edge.y2);
            plane.heights = plane.heights.saturating_add(edge.y2.abs_diff(edge.y1));
        }
        plane
    }

    // How many edges a row crosses on average.
    fn row(&self) -> u64 {
        let rows = self.y2.abs_diff(self.y1);
        self.heights.checked_div(rows).unwrap_or(0)
    }

    // How many lower and upper ends of the edges lie inside.
    fn ends(&self, edges: &[Edge]) -> u64 {
        let mut count = 0u64;
        for edge in edges {
            if self.y1 < edge.y1 {
                count = count.saturating_add(1);
            }
            if edge.y2 < self.y2 {
                count = count.saturating_add(1);
            }
        }
        count
    }

    // Along the longer side, where both ways are free, unless an upright line cuts far fewer.
    fn axis(&self, alloc: Global, edges: &[Edge], ways: Ways) -> Result<Axis, AllocError> {
        if let Ways::Level = ways {
            return Ok(Axis::Y);
        }
        if self.y2.abs_diff(self.y1) <= self.x2.abs_diff(self.x1) {
            return Ok(Axis::X);
        }
        let (Some(upright), Some(level)) = (self.middle(Axis::X), self.middle(Axis::Y)) else {
            return Ok(Axis::Y);
        };
        let cut = count_crossing(edges, level.at);
        let sides = level_sides_at(alloc, edges, upright.at, cut)?;
        if sides.saturating_mul(FAR_FEWER) < cut {
            return Ok(Axis::X);
        }
        Ok(Axis::Y)
    }

    // The line through the middle.
    fn middle(&self, axis: Axis) -> Option<Cut> {
        let (low, high) = match axis {
            Axis::X => (self.x1, self.x2),
            Axis::Y => (self.y1, self.y2),
        };
        let half = high.abs_diff(low) / 2;
        if half == 0 {
            return None;
        }
        let half = i64::try_from(half).unwrap_or(i64::MAX);
        Some(Cut {
            axis,
            at: low.saturating_add(half),
        })
    }
}

// How many edges a level line cuts.
fn count_crossing(edges: &[Edge], y: i64) -> usize {
    let mut count = 0usize;
    for edge in edges {
        if edge.y1 < y && y < edge.y2 {
            count = count.saturating_add(1);
        }
    }
    count
}

// Adds an end of an edge to one of some sums, so that the ends of a level side cancel.
fn add_end(sums: &mut Vec<i64>, y: i64, weight: i64) {
    let mixed = y.abs_diff(i64::MIN).wrapping_mul(MIX);
    let place = (mixed >> 32).checked_rem(sums.len() as u64).unwrap_or(0);
    let value = i64::try_from(mixed >> 1).unwrap_or(i64::MAX);
    if let Some(sum) = sums.get_mut(place as usize) {
        *sum = sum.wrapping_add(weight.wrapping_mul(value));
    }
}

// About how many level sides cross an upright line, from the sums of so many groups of ends.
fn level_sides_at(
    alloc: Global,
    edges: &[Edge],
    x: i64,
    groups: usize,
) -> Result<usize, AllocError> {
    let mut sums = vec![in alloc; 0i64; groups]?;
    for edge in edges {
        if edge.x < x {
            let weight = i64::from(edge.first).wrapping_add(i64::from(edge.second) << 32);
            add_end(&mut sums, edge.y1, weight);
            add_end(&mut sums, edge.y2, weight.wrapping_neg());
        }
    }
    let mut count = 0usize;
    for sum in &sums {
        if *sum != 0 {
            count = count.saturating_add(1);
        }
    }
    Ok(count)
}

/// A line to cut edges by, where that makes their sweep shorter: which one has no contract, since
/// each gives the same set. Linear. An `Err` is want of memory.
pub fn line_of(alloc: Global, edges: &[Edge], ways: Ways) -> Result<Option<Cut>, AllocError> {
    if edges.len() < FEW {
        return Ok(None);
    }
    let plane = Plane::of(edges);
    let row = plane.row();
    // Each edge has two ends: where rows are this short, they needn't be counted.
    if row <= LONG_ROW / 2 {
        return Ok(None);
    }
    let steps = plane.ends(edges).saturating_mul(row);
    if steps <= LONG_ROW.saturating_mul(edges.len() as u64) {
        return Ok(None);
    }
    let axis = plane.axis(alloc, edges, ways)?;
    Ok(plane.middle(axis))
}

// Adds the part of an edge below a level line.
fn push_below(out: &mut Vec<Edge>, edge: &Edge, cut: &Cut) -> Result<(), AllocError>
    ensures { OnOk result (out.new.items
        ≡ out.old.items ++ edges_below cut.now.at (edge.now ∷ [])) }
{
    if edge.y1 < cut.at {
        let y2 = if cut.at < edge.y2 { cut.at } else { edge.y2 };
        out.push(Edge { y2, ..*edge })?;
    }
    Ok(())
}

// Adds the part of an edge above a level line.
fn push_above(out: &mut Vec<Edge>, edge: &Edge, cut: &Cut) -> Result<(), AllocError>
    ensures { OnOk result (out.new.items
        ≡ out.old.items ++ edges_above cut.now.at (edge.now ∷ [])) }
{
    if cut.at < edge.y2 {
        let y1 = if edge.y1 < cut.at { cut.at } else { edge.y1 };
        out.push(Edge { y1, ..*edge })?;
    }
    Ok(())
}

// The parts of edges below a level line, and above it.
fn level_sides(alloc: Global, edges: &[Edge], cut: &Cut) -> Result<Sides, AllocError>
    ensures low { IfOk result (λ v. v.low.items ≡ edges_below cut.now.at edges.now) }
    ensures high { IfOk result (λ v. v.high.items ≡ edges_above cut.now.at edges.now) }
{
    let mut low = Vec::new(alloc);
    let mut high = Vec::new(alloc);
    for edge in edges {
        push_below(&mut low, edge, cut)?;
        push_above(&mut high, edge, cut)?;
    }
    Ok(Sides { low, high })
}

fn push_left(out: &mut Vec<Edge>, edge: &Edge, cut: &Cut) -> Result<(), AllocError>
    ensures { OnOk result (out.new.items ≡ out.old.items ++ edges_left cut.now.at (edge.now ∷ [])) }
{
    if edge.x < cut.at {
        out.push(*edge)?;
    }
    Ok(())
}

fn push_right(out: &mut Vec<Edge>, edge: &Edge, cut: &Cut) -> Result<(), AllocError>
    ensures { OnOk result (out.new.items
        ≡ out.old.items ++ edges_right cut.now.at (edge.now ∷ [])) }
{
    if edge.x < cut.at {
        return Ok(());
    }
    out.push(*edge)?;
    Ok(())
}

// The edges left of an upright line, and the others.
fn parted(alloc: Global, edges: &[Edge], cut: &Cut) -> Result<Sides, AllocError>
    ensures low { IfOk result (λ v. v.low.items ≡ edges_left cut.now.at edges.now) }
    ensures high { IfOk result (λ v. v.high.items ≡ edges_right cut.now.at edges.now) }
{
    let mut low = Vec::new(alloc);
    let mut high = Vec::new(alloc);
    for edge in edges {
        push_left(&mut low, edge, cut)?;
        push_right(&mut high, edge, cut)?;
    }
    Ok(Sides { low, high })
}

// The edges of either side of an upright line, with the sums of the others at the line.
fn upright_sides(alloc: Global, edges: &[Edge], cut: &Cut) -> Result<Option<Sides>, AllocError>
    requires edges { All IsEdge edges.now }
    requires balanced { IsBalanced edges.now }
    ensures { IfOk result (λ o. IfSome o (λ v. AreSides (upright_at cut.now.at) edges.now
        v.low.items v.high.items)) }
{
    let Sides { mut low, mut high } = parted(alloc, edges, cut)?;
    let Some(left) = sums(alloc, &low, cut)? else {
        return Ok(None);
    };
    let Some(right) = sums(alloc, &high, cut)? else {
        return Ok(None);
    };
    low.extend_from_slice(&right)?;
    high.extend_from_slice(&left)?;
    Ok(Some(Sides { low, high }))
}

/// The edges of either side of a line: O(n log n). None where a sum of weights at the line doesn't
/// fit an edge.
pub fn sides_of(alloc: Global, edges: &[Edge], cut: &Cut) -> Result<Option<Sides>, AllocError>
    requires edges { All IsEdge edges.now }
    requires balanced { IsBalanced edges.now }
    ensures { IfOk result (λ o. IfSome o (λ v. AreSides cut.now edges.now v.low.items
        v.high.items)) }
{
    match cut.axis {
        Axis::X => {
            let sides = upright_sides(alloc, edges, cut)?;
            Ok(sides)
        }
        Axis::Y => {
            let Sides { low, high } = level_sides(alloc, edges, cut)?;
            Ok(Some(Sides { low, high }))
        }
    }
}
