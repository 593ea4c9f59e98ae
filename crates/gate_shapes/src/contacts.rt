//! Which rectangles of a canonical list share an edge, or a corner too.
//! Runs of one row are apart, so one always stands on the other.

ghost use Rattle.std.specs.Prelude.{◌≡◌, ℕ, ◌+◌, ◌^◌, ◌<◌, ◌++◌, length, IfOk, OnOk};
ghost use Rattle.std.specs.Prelude.{slice_index_or};
ghost use Rattle.std.specs.List.Sorted.{IsPermutation};
ghost use Rattle.rect_sets.specs.Rects.{IsCanonical};
ghost use Rattle.gate_shapes.specs.Contacts.{joint_of, crosses, is_over, ends_first, tops_from};
ghost use Rattle.gate_shapes.specs.Contacts.{found};
ghost use Rattle.gate_shapes.specs.Contacts.{AreContacts, AreSortedTops};

use geo_base::Rect;
use link_classes::Link;
use std::alloc::{AllocError, Global};

/// What joins two squares of a set: a common edge alone, or a common corner too.
#[derive(Clone, Copy, Debug)]
pub enum Joint {
    Edges,
    Corners,
}

/// A rectangle by its upper side, with its place in the list.
#[derive(Clone, Copy, Debug)]
pub struct Top {
    pub rect: Rect,
    pub index: u32,
}

fn crosses(joint: Joint, a: &Rect, b: &Rect) -> bool
    ensures { result ≡ crosses (joint_of joint) a.now b.now }
{
    match joint {
        Joint::Edges => a.x1 < b.x2 && b.x1 < a.x2,
        Joint::Corners => a.x1 <= b.x2 && b.x1 <= a.x2,
    }
}

fn is_over(joint: Joint, a: &Rect, b: &Rect) -> bool
    ensures { result ≡ is_over (joint_of joint) a.now b.now }
{
    a.y2 == b.y1 && crosses(joint, a, b)
}

fn ends_first(a: &Rect, b: &Rect) -> bool
    ensures { result ≡ ends_first a.now b.now }
{
    a.y2 < b.y1 || (a.y2 == b.y1 && a.x2 <= b.x2)
}

fn tops_of(alloc: Global, rects: &[Rect]) -> Result<Vec<Top>, AllocError>
    requires { length rects.now < 2 ^ 32 }
    ensures { IfOk result (λ v. v.items ≡ tops_from 0 rects.now) }
{
    let mut tops = Vec::new(alloc);
    for (i, rect) in rects.iter().enumerate() {
        tops.push(Top {
            rect: *rect,
            index: i as u32,
        })?;
    }
    Ok(tops)
}

// By the upper side, then x1.
fn sort_tops(tops: &mut Vec<Top>)
    ensures permutation { IsPermutation tops.old.items tops.new.items }
    ensures sorted { AreSortedTops tops.new.items }
{
    tops.sort_unstable_by_key(|top| (top.rect.y2, top.rect.x1));
}

fn push_contact(
    links: &mut Vec<Link>,
    joint: Joint,
    top: &Top,
    rect: &Rect,
    index: u32,
) -> Result<(), AllocError>
    ensures { OnOk result (links.new.items
        ≡ links.old.items ++ found (joint_of joint) top.now rect.now index) }
{
    if is_over(joint, &top.rect, rect) {
        links.push(Link {
            one: top.index,
            other: index,
        })?;
    }
    Ok(())
}

/// A link for each two rectangles of a canonical list that are joined, by their places: two walks,
/// along the upper and the lower sides of each row. In O(n log n), with fewer than 2n links.
pub fn contacts(alloc: Global, joint: Joint, rects: &[Rect]) -> Result<Vec<Link>, AllocError>
    requires canonical { IsCanonical rects.now }
    requires few { length rects.now < 2 ^ 32 }
    ensures { IfOk result (λ v. AreContacts (joint_of joint) rects.now v.items) }
{
    let mut tops = tops_of(alloc, rects)?;
    sort_tops(&mut tops);
    let mut links = Vec::new(alloc);
    let mut i = 0;
    let mut j = 0;
    'sides: while i < tops.len() && j < rects.len() {
        let top = tops[i];
        let rect = rects[j];
        push_contact(&mut links, joint, &top, &rect, j as u32)?;
        if ends_first(&top.rect, &rect) {
            i += 1;
        } else {
            j += 1;
        }
    }
    Ok(links)
}
