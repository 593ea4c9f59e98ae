//! The runs of one row.

ghost use Rattle.std.specs.Prelude.{◌≡◌, ℤ, ◌≤ℤ◌, ◌<ℤ◌, OnOk, OnErr};
ghost use Rattle.rect_sets.specs.Edges.{holds, is_some};
ghost use Rattle.rect_sets.specs.Rows.{IsRow, AreRunsUpTo, Grows, HasRunsOf};

use geo_base::Op;
use std::alloc::AllocError;

/// The numbers from x1 up to x2.
#[derive(Clone, Copy, Debug)]
pub struct Span {
    pub x1: i64,
    pub x2: i64,
}

/// Adds a pair of weights to each square at or to the right of x, in the rows from y1 up to y2.
#[derive(Clone, Copy, Debug, PartialEq, Eq)]
pub struct Edge {
    pub x: i64,
    pub y1: i64,
    pub y2: i64,
    pub first: i32,
    pub second: i32,
}

fn is_some(weight: i128) -> bool
    ensures { result ≡ is_some weight }
{
    weight < 0 || 0 < weight
}

// Whether the operator holds of two weights.
fn holds(op: Op, first: i128, second: i128) -> bool
    ensures { result ≡ holds op first second }
{
    op.holds(is_some(first), is_some(second))
}

// Adds a range that begins at or past the end of the last run, where it is inside.
fn grow(out: &mut Vec<Span>, from: i64, to: i64, inside: bool) -> Result<(), AllocError>
    requires runs { AreRunsUpTo from out.old.items }
    requires order { from ≤ℤ to }
    ensures { OnOk result (Grows out.old.items out.new.items from to inside) }
{
    if !inside || to <= from {
        return Ok(());
    }
    let count = out.len();
    if count == 0 {
        out.push(Span { x1: from, x2: to })?;
        return Ok(());
    }
    if out[count - 1].x2 < from {
        out.push(Span { x1: from, x2: to })?;
        return Ok(());
    }
    out[count - 1].x2 = to;
    Ok(())
}

/// The longest runs of the row that has these edges, none of which begins left of low.
pub fn row_runs(edges: &[Edge], low: i64, op: Op, out: &mut Vec<Span>) -> Result<(), AllocError>
    requires { IsRow low edges.now }
    ensures { OnOk result (HasRunsOf op edges.now out.new.items) }
{
    out.clear();
    let mut from = low;
    let mut first = 0i128;
    let mut second = 0i128;
    for edge in edges {
        let inside = holds(op, first, second);
        grow(out, from, edge.x, inside)?;
        first += i128::from(edge.first);
        second += i128::from(edge.second);
        from = edge.x;
    }
    Ok(())
}
