//! Rectangles in order.

ghost use Rattle.std.specs.Prelude.{◌≡◌, ℕ, ℤ, ◌<◌, IfOk, OnOk, length};
ghost use Rattle.std.specs.List.Sorted.{IsPermutation};
ghost use Rattle.rect_sets.specs.Rects.{IsOrdered, IsListed, IsCanonical, covers};
ghost use Rattle.rect_sets.specs.Sweeps.{AreBlocks};
ghost use Rattle.rect_sets.specs.Orders.{AreSortedRects, Joins, IsRoom, IsInOrder, begins_with};

use geo_base::Rect;
use std::alloc::{AllocError, Global};

// By y1, then x1.
fn sort_rects(rects: &mut Vec<Rect>)
    ensures permutation { IsPermutation rects.old.items rects.new.items }
    ensures sorted { AreSortedRects rects.new.items }
{
    rects.sort_unstable_by_key(|rect| (rect.y1, rect.x1));
}

fn begins_with(a: &Rect, b: &Rect) -> bool
    ensures { result ≡ begins_with a.now b.now }
{
    a.y1 == b.y1 && a.x1 == b.x1
}

// Adds a rectangle that comes before none of these, unless the last one begins where it does.
fn join(out: &mut Vec<Rect>, rect: Rect) -> Result<(), AllocError>
    requires { IsRoom out.old.items rect }
    ensures { OnOk result (Joins out.old.items out.new.items rect) }
{
    let count = out.len();
    if count == 0 {
        out.push(rect)?;
        return Ok(());
    }
    if begins_with(&out[count - 1], &rect) {
        return Ok(());
    }
    out.push(rect)?;
    Ok(())
}

fn join_all(alloc: Global, sorted: &[Rect]) -> Result<Vec<Rect>, AllocError>
    requires { AreSortedRects sorted.now }
    ensures { IfOk result (λ r. IsInOrder sorted.now r.items) }
{
    let mut out = Vec::with_capacity(alloc, sorted.len())?;
    for rect in sorted {
        join(&mut out, *rect)?;
    }
    Ok(out)
}

/// The same rectangles in order, without repeats.
pub fn in_order(alloc: Global, mut rects: Vec<Rect>) -> Result<Vec<Rect>, AllocError>
    ensures { IfOk result (λ r. IsInOrder rects.items r.items) }
{
    sort_rects(&mut rects);
    let out = join_all(alloc, &rects)?;
    Ok(out)
}
