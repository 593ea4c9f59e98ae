//! Pieces that lie over one another: one that touches many of a list makes a class of them.

ghost use Rattle.std.specs.Prelude.{◌≡◌, ◌<◌, length, get_or, IfOk, IfSome, OnOk, [], ◌∷◌};
ghost use Rattle.touching_pieces.specs.Crowds.{AddsCrowd, AddsFirsts, apart_from, touched_by};

use crate::pairs::{link_one, link_two};
use crate::pieces::{Piece, touches, touches_by_sides};
use geo_base::Rect;
use link_classes::Link;
use std::alloc::{AllocError, Global};

// Lists this short have no hub.
const FEW: usize = 16;

// A hub touches one in so many.
const RARE: usize = 8;

// How far the rectangle goes within another, across and up.
fn extent(rect: &Rect, within: &Rect) -> i64 {
    let common = rect.common(within);
    let across = common.x2.saturating_sub(common.x1);
    let up = common.y2.saturating_sub(common.y1);
    across.saturating_add(up)
}

// The number of the piece that goes farthest within a rectangle.
fn widest(pieces: &[Piece], within: &Rect) -> usize {
    let mut best = 0;
    let mut most = i64::MIN;
    for k in 0..pieces.len() {
        let far = extent(&pieces[k].rect, within);
        if far > most {
            most = far;
            best = k;
        }
    }
    best
}

fn touched_count(one: &Piece, others: &[Piece]) -> usize {
    let mut count = 0usize;
    for other in others {
        if touches(&one.rect, &other.rect) {
            count = count.saturating_add(1);
        }
    }
    count
}

/// The number of a piece that touches many of the others, if both lists are long and it goes
/// farthest within a rectangle.
pub fn hub_of(ones: &[Piece], others: &[Piece], within: &Rect) -> Option<usize>
    ensures { IfSome result (λ k. k < length ones.now) }
{
    if ones.len() <= FEW || others.len() <= FEW {
        return None;
    }
    let hub = widest(ones, within);
    if hub < ones.len() && touched_count(&ones[hub], others) >= others.len() / RARE {
        return Some(hub);
    }
    None
}

fn touched_by(alloc: Global, one: &Piece, others: &[Piece]) -> Result<Vec<Piece>, AllocError>
    ensures { IfOk result (λ v. v.items ≡ touched_by one.now others.now) }
{
    others
        .iter()
        .filter(|p| touches_by_sides(&one.rect, &p.rect))
        .copied()
        .collect(alloc)
}

fn apart_from(alloc: Global, one: &Piece, others: &[Piece]) -> Result<Vec<Piece>, AllocError>
    ensures { IfOk result (λ v. v.items ≡ apart_from one.now others.now) }
{
    others
        .iter()
        .filter(|p| !touches_by_sides(&one.rect, &p.rect))
        .copied()
        .collect(alloc)
}

// Links the piece with the first that it touches of a list.
fn link_next(one: &Piece, others: &[Piece], out: &mut Vec<Link>) -> Result<(), AllocError>
    ensures { OnOk result (AddsFirsts (one.now ∷ []) others.now out.old.items out.new.items) }
{
    for other in others {
        if touches(&one.rect, &other.rect) {
            link_two(one, other, out)?;
            return Ok(());
        }
    }
    Ok(())
}

// The same; the one of that number is tried before all.
fn link_first(
    one: &Piece,
    best: usize,
    others: &[Piece],
    out: &mut Vec<Link>,
) -> Result<(), AllocError>
    ensures { OnOk result (AddsFirsts (one.now ∷ []) others.now out.old.items out.new.items) }
{
    if best < others.len() {
        if touches(&one.rect, &others[best].rect) {
            link_two(one, &others[best], out)?;
            return Ok(());
        }
    }
    link_next(one, others, out)?;
    Ok(())
}

fn link_firsts(
    ones: &[Piece],
    best: usize,
    others: &[Piece],
    out: &mut Vec<Link>,
) -> Result<(), AllocError>
    ensures { OnOk result (AddsFirsts ones.now others.now out.old.items out.new.items) }
{
    for one in ones {
        link_first(one, best, others, out)?;
    }
    Ok(())
}

/// Links a piece of a list with those of another that it touches, and each piece with the first of
/// these that it touches: that is one class. Hands on those of the other list that are left.
pub fn link_crowd(
    alloc: Global,
    hub: usize,
    ones: &[Piece],
    others: &[Piece],
    within: &Rect,
    out: &mut Vec<Link>,
) -> Result<Vec<Piece>, AllocError>
    requires { hub < length ones.now }
    ensures { IfOk result (λ v. AddsCrowd ones.now others.now v.items out.old.items
        out.new.items) }
{
    let touched = touched_by(alloc, &ones[hub], others)?;
    link_one(&ones[hub], &touched, out)?;
    let best = widest(&touched, within);
    link_firsts(ones, best, &touched, out)?;
    let left = apart_from(alloc, &ones[hub], others)?;
    Ok(left)
}
