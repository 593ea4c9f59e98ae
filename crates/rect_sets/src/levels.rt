//! Blocks on either side of a level line: those of one range are one, and the others stay.

ghost use Rattle.std.specs.Prelude.{IfOk, IfSome, IfNone, OnOk, [], ◌∷◌};
ghost use Rattle.std.specs.List.Sorted.{IsPermutation};
ghost use Rattle.rect_sets.specs.Levels.{AreSortedRanges, HasRangeOf, HasRange, GoesOn, AreGrown};
ghost use Rattle.rect_sets.specs.Levels.{AddsOthers, AreJoinedAcross};

use geo_base::Rect;
use std::alloc::{AllocError, Global};

// By x1, then x2.
fn sort_ranges(rects: &mut Vec<Rect>)
    ensures permutation { IsPermutation rects.old.items rects.new.items }
    ensures sorted { AreSortedRanges rects.new.items }
{
    rects.sort_unstable_by_key(|rect| (rect.x1, rect.x2));
}

// One of these that has the x range of a rectangle, in O(log n).
fn find_range(rects: &[Rect], rect: &Rect) -> Option<Rect>
    requires { AreSortedRanges rects.now }
    ensures some { IfSome result (HasRangeOf rects.now rect.now) }
    ensures none { IfNone result (HasRange rects.now rect.now → ⊥) }
{
    match rects.binary_search_by_key(&(rect.x1, rect.x2), |other| (other.x1, other.x2)) {
        Ok(at) => Some(rects[at]),
        Err(_) => None,
    }
}

// A rectangle up to the top of the one of its range, if there is one.
fn grown(rect: &Rect, above: &[Rect]) -> Rect
    requires { AreSortedRanges above.now }
    ensures { GoesOn above.now rect.now result }
{
    match find_range(above, rect) {
        Some(top) => Rect {
            y2: top.y2,
            ..*rect
        },
        None => *rect,
    }
}

// Each of those below the line, as far up as it goes.
fn grow_all(alloc: Global, below: &[Rect], above: &[Rect]) -> Result<Vec<Rect>, AllocError>
    requires { AreSortedRanges above.now }
    ensures { IfOk result (λ r. AreGrown above.now below.now r.items) }
{
    let mut out = Vec::with_capacity(alloc, below.len())?;
    for rect in below {
        let rect = grown(rect, above);
        out.push(rect)?;
    }
    Ok(out)
}

// Adds one above the line, where none below it has its range.
fn push_other(out: &mut Vec<Rect>, rect: &Rect, below: &[Rect]) -> Result<(), AllocError>
    requires { AreSortedRanges below.now }
    ensures { OnOk result (AddsOthers below.now (rect.now ∷ []) out.old.items out.new.items) }
{
    if find_range(below, rect).is_none() {
        out.push(*rect)?;
    }
    Ok(())
}

// Adds those above the line whose range none below it has.
fn push_others(out: &mut Vec<Rect>, above: &[Rect], below: &[Rect]) -> Result<(), AllocError>
    requires { AreSortedRanges below.now }
    ensures { OnOk result (AddsOthers below.now above.now out.old.items out.new.items) }
{
    for rect in above {
        push_other(out, rect, below)?;
    }
    Ok(())
}

/// The blocks that touch a level line from below and from above, those of one range as one:
/// O(n log n). An `Err` is want of memory.
pub fn join_level(
    alloc: Global,
    mut below: Vec<Rect>,
    mut above: Vec<Rect>,
) -> Result<Vec<Rect>, AllocError>
    ensures { IfOk result (λ r. AreJoinedAcross below.items above.items r.items) }
{
    sort_ranges(&mut below);
    sort_ranges(&mut above);
    let mut out = grow_all(alloc, &below, &above)?;
    push_others(&mut out, &above, &below)?;
    Ok(out)
}
