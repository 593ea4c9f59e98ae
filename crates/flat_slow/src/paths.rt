//! Flat and disturbed squares on an input layer, by every path of placements.

ghost use Rattle.std.specs.Prelude.{◌↔◌, IsTrue, IfSome, [], ◌∷◌};
ghost use Rattle.flat_layout.specs.Layout.{InFlatInput, IsDisturbed, IsReached};
ghost use Rattle.flat_slow.specs.Paths.{IsOver, plain};

use crate::design::{SlowDesign, has_place, is_own};
use crate::moves::{image, origin};
use geo_base::{LayerKey, Square};

// Whether a shape lies over the square in the cell, other than through the placement to be skipped.
fn is_over(
    d: &SlowDesign,
    depth: u32,
    cell: usize,
    skip: Option<usize>,
    key: LayerKey,
    q: Square,
) -> Option<bool>
    ensures { IfSome result (λ b. IsTrue b ↔ IsOver (plain d.now) cell skip key q) }
{
    if cell >= d.cells.len() {
        return Some(false);
    }
    let here = &d.cells[cell];
    if is_own(&here.shapes, key, q) {
        return Some(true);
    }
    for (k, place) in here.places.iter().enumerate() {
        if skip != Some(k) {
            if depth == 0 {
                return None;
            }
            let r = origin(&place.motion, q)?;
            if is_over(d, depth - 1, place.cell, None, key, r)? {
                return Some(true);
            }
        }
    }
    Some(false)
}

/// Whether the square is a flat square of the cell on the input layer.
pub fn in_input(d: &SlowDesign, depth: u32, cell: usize, key: LayerKey, q: Square) -> Option<bool>
    ensures { IfSome result (λ b. IsTrue b ↔ InFlatInput (plain d.now) cell key q) }
{
    is_over(d, depth, cell, None, key, q)
}

fn is_reached(d: &SlowDesign, depth: u32, cell: usize) -> Option<bool>
    ensures { IfSome result (λ b. IsTrue b ↔ IsReached (plain d.now) cell) }
{
    if cell == d.top {
        return Some(true);
    }
    for (parent, above) in d.cells.iter().enumerate() {
        if has_place(&above.places, cell) {
            if depth == 0 {
                return None;
            }
            if is_reached(d, depth - 1, parent)? {
                return Some(true);
            }
        }
    }
    Some(false)
}

/// Whether the square is disturbed in the cell for the input layer.
pub fn is_disturbed(
    d: &SlowDesign,
    depth: u32,
    cell: usize,
    key: LayerKey,
    q: Square,
) -> Option<bool>
    ensures { IfSome result (λ b. IsTrue b ↔ IsDisturbed (plain d.now) (key ∷ []) cell q) }
{
    for (parent, above) in d.cells.iter().enumerate() {
        for (k, place) in above.places.iter().enumerate() {
            if place.cell == cell {
                if depth == 0 {
                    return None;
                }
                if is_reached(d, depth, parent)? {
                    let r = image(&place.motion, q)?;
                    if is_over(d, depth, parent, Some(k), key, r)? {
                        return Some(true);
                    }
                    if is_disturbed(d, depth - 1, parent, key, r)? {
                        return Some(true);
                    }
                }
            }
        }
    }
    Some(false)
}
