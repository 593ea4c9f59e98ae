//! Rectangles of a list that share a square with a window.
ghost use Rattle.std.specs.Prelude.{◌≡◌, [], ◌∷◌, ◌++◌, true, IfOk, OnOk};
ghost use Rattle.std.specs.List.{All};
ghost use Rattle.geo_base.specs.Rects.{IsRect, has};
ghost use Rattle.geo_base.specs.declared.shapes.Rect.{Rect};
ghost use Rattle.geo_base.specs.declared.shapes.Square.{Square};
ghost use Rattle.rect_sets.specs.Rects.{IsListed, covers};
ghost use Rattle.tile_index.specs.Windows.{ArePositions};
ghost use Rattle.gate_phase.specs.Indexes.{AreMetOf};

use deep_tables::IndexedSet;
use geo_base::Rect;
use std::alloc::{AllocError, Global};
use tile_index::TileIndex;

// Adds the rectangle, where it shares a square with the window.
fn push_met(out: &mut Vec<Rect>, rect: &Rect, window: &Rect) -> Result<(), AllocError>
    ensures listed { OnOk result ((r : Rect) → IsListed r out.new.items
        → IsListed r (out.old.items ++ rect.now ∷ [])) }
    ensures stay { OnOk result ((q : Square) → covers out.old.items q ≡ true
        → covers out.new.items q ≡ true) }
    ensures here { OnOk result ((q : Square) → has rect.now q ≡ true → has window.now q ≡ true
        → covers out.new.items q ≡ true) }
{
    if rect.meets(window) {
        out.push(*rect)?;
    }
    Ok(())
}

/// The rectangles that share a square with the window, whole. Linear.
pub fn met_rects(alloc: Global, rects: &[Rect], window: &Rect) -> Result<Vec<Rect>, AllocError>
    ensures { IfOk result (λ v. AreMetOf rects.now window.now v.items) }
{
    let mut out = Vec::new(alloc);
    for rect in rects {
        push_met(&mut out, rect, window)?;
    }
    Ok(out)
}

// The rectangles at these positions, whole.
fn rects_at(
    alloc: Global,
    rects: &[Rect],
    near: &[u32],
    window: &Rect,
) -> Result<Vec<Rect>, AllocError>
    requires { ArePositions rects.now window.now near.now }
    ensures { IfOk result (λ v. AreMetOf rects.now window.now v.items) }
{
    let mut out = Vec::new(alloc);
    for i in near {
        out.push(rects[*i as usize])?;
    }
    Ok(out)
}

/// The same by their index. About O(log n + k log k) for k of n rectangles.
pub fn found_rects(
    alloc: Global,
    rects: &[Rect],
    index: &TileIndex,
    window: &Rect,
) -> Result<Vec<Rect>, AllocError>
    requires { index.now ≡ rects.now }
    ensures { IfOk result (λ v. AreMetOf rects.now window.now v.items) }
{
    let near = index.query(alloc, *window)?;
    rects_at(alloc, rects, &near, window)
}

/// The same of a set with its index.
pub fn set_rects(alloc: Global, set: &IndexedSet, window: &Rect) -> Result<Vec<Rect>, AllocError>
    ensures rects { IfOk result (λ v. All IsRect v.items) }
    ensures met { IfOk result (λ v. AreMetOf set.now window.now v.items) }
{
    let near = set.near(alloc, window)?;
    let found = rects_at(alloc, set.set().rects(), &near, window)?;
    Ok(found)
}
