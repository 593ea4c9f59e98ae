//! The regions of a set, joined at edges or at corners.

ghost use Rattle.std.specs.Prelude.{◌≡◌, ◌↔◌, ℕ, ◌^◌, ◌<◌, ◌≤◌, length, slice_get, slice_index};
ghost use Rattle.std.specs.Prelude.{Some};
ghost use Rattle.std.specs.Prelude.{IfOk, OnErr, MatchOption};
ghost use Rattle.std.specs.List.{All};
ghost use Rattle.geo_base.specs.Rects.{IsRect};
ghost use Rattle.geo_base.specs.declared.shapes.Rect.{Rect};
ghost use Rattle.geo_base.specs.declared.shapes.Square.{Square};
ghost use Rattle.rect_sets.specs.Rects.{covers};
ghost use Rattle.gate_shapes.specs.Sets.{in_set};
ghost use Rattle.gate_shapes.specs.Contacts.{joint_of};
ghost use Rattle.gate_shapes.specs.PartLists.{AreParts, AreRegions, members};
ghost use Rattle.flat_layout.specs.Parts.{Corners, IsLeast};
ghost use Rattle.gate_shapes.specs.Sorted.{AreSortedOut, AreSetsOf, HaveRects};

use crate::contacts::{Joint, contacts};
use geo_base::{Rect, Square};
use link_classes::joined_classes;
use list_base::small;
use rect_sets::RectSet;
use std::alloc::{AllocError, Global};

fn short(rects: &[Rect]) -> Result<u32, AllocError>
    ensures length { IfOk result (λ n. n ≡ length rects.now) }
    ensures err { OnErr result (2 ^ 32 ≤ length rects.now) }
{
    match small(rects.len()) {
        Some(n) => Ok(n),
        None => Err(AllocError),
    }
}

// The rectangles of each class.
fn sorted_out(
    alloc: Global,
    rects: &[Rect],
    class_of: &[u32],
    count: u32,
) -> Result<Vec<Vec<Rect>>, AllocError>
    requires long { length class_of.now ≡ length rects.now }
    requires below { (i : ℕ) → i < length rects.now → slice_index class_of.now i < count }
    ensures { IfOk result (λ v. AreSortedOut rects.now class_of.now count v.items) }
{
    let mut lists: Vec<Vec<Rect>> = Vec::new(alloc);
    for _n in 0..count {
        lists.push(Vec::new(alloc))?;
    }
    for (i, rect) in rects.iter().enumerate() {
        let list = &mut lists[class_of[i] as usize];
        list.push(*rect)?;
    }
    Ok(lists)
}

// The union of rectangles; of one of them without a sweep.
fn set_of(alloc: Global, list: &[Rect]) -> Result<RectSet, AllocError>
    requires { All IsRect list.now }
    ensures { IfOk result (λ r. (q : Square) → covers r q ≡ covers list.now q) }
{
    let rects = list.to_vec(alloc)?;
    RectSet::canon(alloc, rects)
}

fn sets_of(alloc: Global, lists: &[Vec<Rect>]) -> Result<Vec<RectSet>, AllocError>
    requires { HaveRects lists.now }
    ensures { IfOk result (λ v. AreSetsOf lists.now v.items) }
{
    let mut sets = Vec::new(alloc);
    for list in lists {
        let set = set_of(alloc, list)?;
        sets.push(set)?;
    }
    Ok(sets)
}

// The regions of a set, in O(n log n) for n rectangles and the cost of a union of each region.
fn regions(alloc: Global, joint: Joint, set: &RectSet) -> Result<Vec<RectSet>, AllocError>
    ensures { IfOk result (λ v. AreRegions (joint_of joint) set.now v.items) }
{
    let rects = set.rects();
    let n = short(rects)?;
    let links = contacts(alloc, joint, rects)?;
    let classes = joined_classes(alloc, n, &links)?;
    let lists = sorted_out(alloc, rects, &classes.class_of, classes.count)?;
    let sets = sets_of(alloc, &lists)?;
    Ok(sets)
}

/// The edge-connected parts of a set: two squares that share an edge are in one part, a common
/// corner doesn't join. In order of their least squares, in O(n log n) for n rectangles and the
/// cost of a union of each part.
pub fn parts(alloc: Global, set: &RectSet) -> Result<Vec<RectSet>, AllocError>
    ensures { IfOk result (λ v. AreParts set.now v.items) }
{
    regions(alloc, Joint::Edges, set)
}

/// The same where a common corner joins, too.
pub fn corner_parts(alloc: Global, set: &RectSet) -> Result<Vec<RectSet>, AllocError>
    ensures { IfOk result (λ v. AreRegions Corners set.now v.items) }
{
    regions(alloc, Joint::Corners, set)
}

/// The least square of a set, by y, then x.
pub fn least(set: &RectSet) -> Option<Square>
    ensures { MatchOption result ((q : Square) → in_set set.now q → ⊥) (IsLeast (in_set set.now)) }
{
    match set.rects().first() {
        Some(rect) => Some(Square {
            x: rect.x1,
            y: rect.y1,
        }),
        None => None,
    }
}
