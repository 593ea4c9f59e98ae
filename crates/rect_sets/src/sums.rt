//! The sums of the weights of edges, row by row, as edges at one upright line.

ghost use Rattle.std.specs.Prelude.{◌≡◌, ◌++◌, ◌+ℤ◌, ◌≤ℤ◌, IfOk, IfSome, OnOk};
ghost use Rattle.std.specs.List.{All};
ghost use Rattle.std.specs.List.Sorted.{IsPermutation};
ghost use Rattle.rect_sets.specs.Edges.{IsEdge};
ghost use Rattle.rect_sets.specs.Sums.{ends_of, lower, upper, piece, AreSums, AreRisingEnds};
ghost use Rattle.rect_sets.specs.EdgeCuts.{in_rows};
ghost use Rattle.rect_sets.specs.Sums.{IsBegun, IsStep, start, next_edge, passed};

use crate::cuts::Cut;
use crate::row::Edge;
use std::alloc::{AllocError, Global};

/// Where the sums change, going up: the lower or the upper end of an edge.
#[derive(Clone, Copy, Debug)]
pub struct End {
    pub y: i64,
    pub first: i64,
    pub second: i64,
}

fn lower(edge: &Edge) -> End
    ensures { result ≡ lower edge.now }
{
    End {
        y: edge.y1,
        first: i64::from(edge.first),
        second: i64::from(edge.second),
    }
}

fn upper(edge: &Edge) -> End
    ensures { result ≡ upper edge.now }
{
    End {
        y: edge.y2,
        first: 0 - i64::from(edge.first),
        second: 0 - i64::from(edge.second),
    }
}

fn ends_of(alloc: Global, edges: &[Edge]) -> Result<Vec<End>, AllocError>
    ensures { IfOk result (λ v. v.items ≡ ends_of edges.now) }
{
    let mut ends = Vec::new(alloc);
    for edge in edges {
        ends.push(lower(edge))?;
        ends.push(upper(edge))?;
    }
    Ok(ends)
}

// From low to high. The ends of edges in order are a few runs.
fn sort_ends(ends: &mut Vec<End>) -> Result<(), AllocError>
    ensures permutation { OnOk result (IsPermutation ends.old.items ends.new.items) }
    ensures sorted { OnOk result (AreRisingEnds ends.new.items) }
{
    ends.sort_by_key(|end| end.y)?;
    Ok(())
}

// Adds an edge, where it has rows and weights.
fn push_piece(out: &mut Vec<Edge>, edge: Edge) -> Result<(), AllocError>
    ensures { OnOk result (out.new.items ≡ out.old.items ++ piece edge) }
{
    if edge.y1 < edge.y2 && (edge.first != 0 || edge.second != 0) {
        out.push(edge)?;
    }
    Ok(())
}

// A sum and one more, where it fits.
fn plus(sum: i32, more: i64) -> Option<i32>
    ensures { IfSome result (λ s. s ≡ sum +ℤ more) }
{
    match i64::from(sum).checked_add(more) {
        Some(next) => i32::try_from(next).ok(),
        None => None,
    }
}

// The last edge, which may reach further up, and the weights above it.
#[derive(Clone, Copy, Debug)]
pub struct Begun {
    pub edge: Edge,
    pub first: i32,
    pub second: i32,
}

// The same edge up to an end.
fn up_to(edge: &Edge, end: &End) -> Edge
    ensures { result ≡ in_rows edge.now edge.now.y1 end.now.y }
{
    let mut next = *edge;
    next.y2 = end.y;
    next
}

// The weights above the last edge, up to an end.
fn next_edge(begun: &Begun, end: &End) -> Edge
    ensures { result ≡ next_edge begun.now end.now }
{
    Edge {
        x: begun.edge.x,
        y1: begun.edge.y2,
        y2: end.y,
        first: begun.first,
        second: begun.second,
    }
}

// Goes up to an end: the last edge reaches further, or another one begins.
fn go_up(out: &mut Vec<Edge>, begun: &Begun, end: &End) -> Result<Edge, AllocError>
    requires begun { IsBegun begun.now }
    requires end { begun.now.edge.y2 ≤ℤ end.now.y }
    ensures { IfOk result (λ e. IsStep begun.now end.now.y out.old.items out.new.items e) }
{
    if begun.edge.first == begun.first && begun.edge.second == begun.second {
        return Ok(up_to(&begun.edge, end));
    }
    if begun.edge.y2 == end.y {
        return Ok(begun.edge);
    }
    push_piece(out, begun.edge)?;
    Ok(next_edge(begun, end))
}

// The last edge, and the weights above an end.
fn passed(begun: &Begun, edge: Edge, end: &End) -> Option<Begun>
    ensures { IfSome result (λ b. b ≡ passed begun.now edge end.now) }
{
    let first = plus(begun.first, end.first)?;
    let second = plus(begun.second, end.second)?;
    Some(Begun {
        edge,
        first,
        second,
    })
}

// The sums from the first end on.
fn start(ends: &[End], cut: &Cut) -> Begun
    ensures { result ≡ start cut.now.at ends.now }
{
    let y = match ends {
        [end, ..] => end.y,
        [] => 0,
    };
    Begun {
        edge: Edge {
            x: cut.at,
            y1: y,
            y2: y,
            first: 0,
            second: 0,
        },
        first: 0,
        second: 0,
    }
}

/// The sums of the weights of edges in each row, as edges at an upright line, as few as there can
/// be. None where a sum doesn't fit an edge. O(n log n).
pub fn sums(alloc: Global, edges: &[Edge], cut: &Cut) -> Result<Option<Vec<Edge>>, AllocError>
    requires { All IsEdge edges.now }
    ensures { IfOk result (λ o. IfSome o (λ v. AreSums cut.now.at edges.now v.items)) }
{
    let mut ends = ends_of(alloc, edges)?;
    sort_ends(&mut ends)?;
    let mut out = Vec::new(alloc);
    let mut begun = start(&ends, cut);
    for end in &ends {
        let edge = go_up(&mut out, &begun, end)?;
        let Some(next) = passed(&begun, edge, end) else {
            return Ok(None);
        };
        begun = next;
    }
    push_piece(&mut out, begun.edge)?;
    Ok(Some(out))
}
