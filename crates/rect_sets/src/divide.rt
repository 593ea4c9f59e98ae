//! A set cut into stripes again and again: what touches no line is done, and the rest is swept once
//! more.

ghost use Rattle.std.specs.Prelude.{◌≡◌, ℕ, ◌+◌, ◌<◌, ◌≤◌, ◌++◌, length, IfOk, IfSome, Bool, []};
ghost use Rattle.std.specs.List.{All};
ghost use Rattle.geo_base.specs.Rects.{IsRect};
ghost use Rattle.geo_base.specs.declared.shapes.Square.{Square};
ghost use Rattle.rect_sets.specs.Sweeps.{AreBlocks};
ghost use Rattle.rect_sets.specs.Combined.{combined_set};
ghost use Rattle.rect_sets.specs.Stripes.{lists_of, list_at, within, done_of, rest_of, IsSwept};
ghost use Rattle.rect_sets.specs.Stripes.{AreFirst, AreJoined, AreRising};

use crate::cuts::{Cut, Lines, lines_of, share};
use crate::halves::combine;
use crate::parts::{sort_out, split};
use geo_base::{Op, Rect};
use std::alloc::{AllocError, Global};

// A list of no rectangles for each stripe, with room for so many.
fn no_parts(alloc: Global, lines: &Lines, room: usize) -> Result<Vec<Vec<Rect>>, AllocError>
    ensures count { IfOk result (λ r. length (lists_of r.items) ≡ length lines.now.at.items + 1) }
    ensures none { IfOk result (λ r. (j : ℕ) → list_at r.items j ≡ []) }
{
    let mut parts = Vec::new(alloc);
    let last = Vec::with_capacity(alloc, room)?;
    parts.push(last)?;
    for _ in 0..lines.at.len() {
        let part = Vec::with_capacity(alloc, room)?;
        parts.push(part)?;
    }
    Ok(parts)
}

// The parts of rectangles in each stripe.
fn stripes(alloc: Global, rects: &[Rect], lines: &Lines) -> Result<Vec<Vec<Rect>>, AllocError>
    requires rects { All IsRect rects.now }
    requires lines { AreRising lines.now.at.items }
    ensures { IfOk result (λ r. AreFirst (length lines.now.at.items + 1) lines.now r.items
        rects.now) }
{
    let share = rects.len() / lines.at.len().saturating_add(1);
    let mut parts = no_parts(alloc, lines, share.saturating_add(share / 2))?;
    split(rects, lines, &mut parts)?;
    Ok(parts)
}

// How many rectangles there are in all.
fn count_of(parts: &[Vec<Rect>]) -> usize {
    let mut count = 0usize;
    for list in parts {
        count = count.saturating_add(list.len());
    }
    count
}

// Two lists in stripes, how many parts there are, and how many more cuts may add to them.
#[derive(Drop)]
struct Parts {
    lines: Lines,
    a: Vec<Vec<Rect>>,
    b: Vec<Vec<Rect>>,
    count: usize,
    spare: usize,
}

// Two lists in stripes, where that makes the sweep shorter.
fn parts_of(
    alloc: Global,
    a: &[Rect],
    b: &[Rect],
    spare: usize,
) -> Result<Option<Parts>, AllocError>
    requires a { All IsRect a.now }
    requires b { All IsRect b.now }
    ensures rising { IfOk result (λ o. IfSome o (λ p. AreRising p.lines.at.items)) }
    ensures a { IfOk result (λ o. IfSome o (λ p. AreFirst (length p.lines.at.items + 1) p.lines
        p.a.items a.now)) }
    ensures b { IfOk result (λ o. IfSome o (λ p. AreFirst (length p.lines.at.items + 1) p.lines
        p.b.items b.now)) }
{
    let Some(lines) = lines_of(alloc, a, b, spare)? else {
        return Ok(None);
    };
    let whole = a.len().saturating_add(b.len());
    let a = stripes(alloc, a, &lines)?;
    let b = stripes(alloc, b, &lines)?;
    let count = count_of(&a).saturating_add(count_of(&b));
    Ok(Some(Parts {
        lines,
        a,
        b,
        count,
        spare: spare.saturating_sub(count.saturating_sub(whole)),
    }))
}

// Sweeps those of a stripe's blocks and of those above it once more that touch the line between.
fn swept(
    alloc: Global,
    found: &[Rect],
    mut rest: Vec<Rect>,
    cut: &Cut,
) -> Result<Vec<Rect>, AllocError>
    requires found { All IsRect found.now }
    requires rest { All IsRect rest.items }
    ensures { IfOk result (λ r. IsSwept cut.now found.now rest.items r.items) }
{
    let mut all = Vec::new(alloc);
    sort_out(found, cut, &mut all, &mut rest)?;
    let joined = combine(alloc, &rest, &[], Op::Or)?;
    all.extend_from_slice(&joined)?;
    Ok(all)
}

// Sorts out blocks, some of the set in a stripe and those above it, by the line below it.
fn sort_stripe(
    alloc: Global,
    found: &[Rect],
    lines: &Lines,
    i: usize,
    done: &mut Vec<Rect>,
) -> Result<Vec<Rect>, AllocError>
    requires { i ≤ length lines.now.at.items }
    ensures done { IfOk result (λ r. done.new.items ≡ done.old.items
        ++ done_of i lines.now.axis lines.now.at.items found.now) }
    ensures rest { IfOk result (λ r. r.items ≡ rest_of i lines.now.axis lines.now.at.items
        found.now) }
{
    let mut rest = Vec::new(alloc);
    if i == 0 {
        done.extend_from_slice(found)?;
    } else {
        sort_out(found, &lines.line(i - 1), done, &mut rest)?;
    }
    Ok(rest)
}

// Adds the blocks in a stripe to those of the stripes above it; it gives those that touch the line
// below it, and the others are done.
fn join_stripe(
    alloc: Global,
    found: &[Rect],
    lines: &Lines,
    i: usize,
    rest: Vec<Rect>,
    done: &mut Vec<Rect>,
) -> Result<Vec<Rect>, AllocError>
    requires lines { AreRising lines.now.at.items }
    requires i { i ≤ length lines.now.at.items }
    requires found { All IsRect found.now }
    requires rest { All IsRect rest.items }
    ensures { (set : Square → Bool)
        → AreBlocks (within i lines.now.axis lines.now.at.items set) found.now
        → AreJoined (i + 1) lines.now.axis lines.now.at.items set done.old.items rest.items
        → IfOk result (λ r. AreJoined i lines.now.axis lines.now.at.items set done.new.items
        r.items) }
{
    if i == lines.at.len() {
        let next = sort_stripe(alloc, found, lines, i, done)?;
        return Ok(next);
    }
    let all = swept(alloc, found, rest, &lines.line(i))?;
    let next = sort_stripe(alloc, &all, lines, i, done)?;
    Ok(next)
}

// The same as `combine`, in stripes as long as that makes it faster. Cuts may add so many parts.
fn combine_stripes(
    alloc: Global,
    a: &[Rect],
    b: &[Rect],
    op: Op,
    spare: usize,
    depth: u32,
) -> Result<Vec<Rect>, AllocError>
    requires a { All IsRect a.now }
    requires b { All IsRect b.now }
    ensures { IfOk result (λ r. AreBlocks (combined_set op a.now b.now) r.items) }
{
    if depth == 0 {
        return combine(alloc, a, b, op);
    }
    let Some(mut parts) = parts_of(alloc, a, b, spare)? else {
        return combine(alloc, a, b, op);
    };
    let mut done = Vec::new(alloc);
    let mut rest = Vec::new(alloc);
    let mut i = parts.a.len();
    while 0 < i {
        i -= 1;
        let count = parts.a[i].len().saturating_add(parts.b[i].len());
        let spare = share(parts.spare, count, parts.count);
        let found = combine_stripes(alloc, &parts.a[i], &parts.b[i], op, spare, depth - 1)?;
        parts.a.truncate(i);
        parts.b.truncate(i);
        rest = join_stripe(alloc, &found, &parts.lines, i, rest, &mut done)?;
    }
    Ok(done)
}

/// The same as `combine`, in parts as long as that makes it faster: on one level at most twice as
/// many rectangles as came in are added by cuts.
pub fn combine_parts(
    alloc: Global,
    a: &[Rect],
    b: &[Rect],
    op: Op,
    depth: u32,
) -> Result<Vec<Rect>, AllocError>
    requires a { All IsRect a.now }
    requires b { All IsRect b.now }
    ensures { IfOk result (λ r. AreBlocks (combined_set op a.now b.now) r.items) }
{
    let spare = a.len().saturating_add(b.len()).saturating_mul(2);
    combine_stripes(alloc, a, b, op, spare, depth)
}
