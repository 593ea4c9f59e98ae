//! Squares that were found, or that are lent where they stand.
ghost use Rattle.std.specs.Prelude.{◌≡◌, ◌⊎◌, IfOk};
ghost use Rattle.geo_base.specs.Rects.{IsRect, has};
ghost use Rattle.geo_base.specs.declared.shapes.Square.{Square};
ghost use Rattle.rect_sets.specs.Rects.{covers};

use geo_base::Rect;
use rect_sets::RectSet;
use std::alloc::{AllocError, Global};
use std::marker::Model;

/// Whose the squares are.
#[derive(Drop)]
pub enum Holder<'a> {
    Lent(&'a RectSet),
    Own(RectSet),
}

/// Squares, which may be lent. In contracts it is their list.
#[derive(Drop)]
pub struct Squares<'a> {
    holder: Holder<'a>,
}

impl<'a> Model for Squares<'a> {
    ghost use Rattle.std.specs.Prelude.{List};
    ghost use Rattle.geo_base.specs.declared.shapes.Rect.{Rect};
    ghost use Rattle.layer_phase.specs.Squares.{squares_seen};

    ghost Value = { List Rect };

    ghost view = { squares_seen };
}

impl<'a> Squares<'a> {
    /// A set that stays where it is.
    pub fn lent(set: &'a RectSet) -> Squares<'a>
        ensures { result ≡ set.now }
    {
        Squares {
            holder: Holder::Lent(set),
        }
    }

    /// A set that was found.
    pub fn own(set: RectSet) -> Squares<'a>
        ensures { result ≡ set }
    {
        Squares {
            holder: Holder::Own(set),
        }
    }

    /// The squares.
    pub fn set(&self) -> &RectSet
        ensures { result.now ≡ self.now }
    {
        match &self.holder {
            Holder::Lent(set) => *set,
            Holder::Own(set) => set,
        }
    }

    /// The squares by themselves. A lent set is copied.
    pub fn into_set(self, alloc: Global) -> Result<RectSet, AllocError>
        ensures { IfOk result (λ r. (q : Square) → covers r q ≡ covers self.entry q) }
    {
        let Squares { holder } = self;
        match holder {
            Holder::Lent(set) => copied(alloc, set),
            Holder::Own(set) => Ok(set),
        }
    }
}

/// That of two sets which has fewer rectangles, the first where both have as many.
pub fn fewer<'a>(one: &'a RectSet, other: &'a RectSet) -> &'a RectSet
    ensures { (result.now ≡ one.now) ⊎ (result.now ≡ other.now) }
{
    if other.rects().len() < one.rects().len() {
        return other;
    }
    one
}

/// The squares of a rectangle.
pub fn whole(alloc: Global, rect: &Rect) -> Result<RectSet, AllocError>
    requires { IsRect rect.now }
    ensures { IfOk result (λ r. (q : Square) → covers r q ≡ has rect.now q) }
{
    let mut rects = Vec::new(alloc);
    rects.push(*rect)?;
    let set = RectSet::canon(alloc, rects)?;
    Ok(set)
}

fn copied(alloc: Global, set: &RectSet) -> Result<RectSet, AllocError>
    ensures { IfOk result (λ r. (q : Square) → covers r q ≡ covers set.now q) }
{
    let mut rects = Vec::new(alloc);
    rects.extend_from_slice(set.rects())?;
    let copy = RectSet::canon(alloc, rects)?;
    Ok(copy)
}
