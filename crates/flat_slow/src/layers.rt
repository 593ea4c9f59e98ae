//! Flat, kept and local squares of a derived layer, asked square by square.

ghost use Rattle.std.specs.Prelude.{◌↔◌, IsTrue, IfSome};
ghost use Rattle.flat_layout.specs.Layers.{InFlat, IsKept, IsKeptBelow, IsLocal, inputs};
ghost use Rattle.flat_layout.specs.Layout.{IsDisturbed};
ghost use Rattle.flat_slow.specs.Slow.{plain_formula};
ghost use Rattle.flat_slow.specs.Paths.{plain};

use crate::{SlowDesign, in_input, is_disturbed, is_own, origin};
use geo_base::{LayerKey, Op, Square};

/// A layer as what it is made of.
#[derive(Debug, Drop)]
pub enum Formula {
    Input(LayerKey),
    Empty,
    Binary(Op, Box<Formula>, Box<Formula>),
}

/// Whether the square is a flat square of the cell on the layer.
pub fn in_flat(d: &SlowDesign, depth: u32, cell: usize, layer: &Formula, q: Square) -> Option<bool>
    ensures { IfSome result (λ b. IsTrue b
        ↔ InFlat (plain d.now) cell (plain_formula layer.now) q) }
{
    match layer {
        Formula::Input(key) => in_input(d, depth, cell, *key, q),
        Formula::Empty => Some(false),
        Formula::Binary(op, a, b) => {
            let one = in_flat(d, depth, cell, a, q)?;
            let other = in_flat(d, depth, cell, b, q)?;
            Some(match op {
                Op::And => one && other,
                Op::Or => one || other,
                Op::Not => one && !other,
                Op::Xor => one != other,
            })
        }
    }
}

// Whether the square is disturbed in the cell for one of the layer's inputs.
fn is_disturbed_for(
    d: &SlowDesign,
    depth: u32,
    cell: usize,
    layer: &Formula,
    q: Square,
) -> Option<bool>
    ensures { IfSome result (λ b. IsTrue b
        ↔ IsDisturbed (plain d.now) (inputs (plain_formula layer.now)) cell q) }
{
    match layer {
        Formula::Input(key) => is_disturbed(d, depth, cell, *key, q),
        Formula::Empty => Some(false),
        Formula::Binary(_, a, b) => {
            if is_disturbed_for(d, depth, cell, a, q)? {
                return Some(true);
            }
            is_disturbed_for(d, depth, cell, b, q)
        }
    }
}

// Whether the square is flat on the layer and isn't disturbed for its inputs.
fn is_calm(d: &SlowDesign, depth: u32, cell: usize, layer: &Formula, q: Square) -> Option<bool>
    ensures { IfSome result (λ b. IsTrue b
        ↔ (InFlat (plain d.now) cell (plain_formula layer.now) q
        × (IsDisturbed (plain d.now) (inputs (plain_formula layer.now)) cell q → ⊥))) }
{
    let flat = in_flat(d, depth, cell, layer, q)?;
    let disturbed = is_disturbed_for(d, depth, cell, layer, q)?;
    Some(flat && !disturbed)
}

/// Whether the cell keeps the square.
pub fn is_kept(d: &SlowDesign, depth: u32, cell: usize, layer: &Formula, q: Square) -> Option<bool>
    ensures { IfSome result (λ b. IsTrue b
        ↔ IsKept (plain d.now) cell (plain_formula layer.now) q) }
{
    match layer {
        Formula::Input(key) => in_input(d, depth, cell, *key, q),
        Formula::Empty => Some(false),
        Formula::Binary(_, _, _) => is_calm(d, depth, cell, layer, q),
    }
}

// Whether the square is the image of one that a placed cell keeps.
fn is_below(d: &SlowDesign, depth: u32, cell: usize, layer: &Formula, q: Square) -> Option<bool>
    ensures { IfSome result (λ b. IsTrue b
        ↔ IsKeptBelow (plain d.now) cell (plain_formula layer.now) q) }
{
    if cell >= d.cells.len() {
        return Some(false);
    }
    for place in &d.cells[cell].places {
        let r = origin(&place.motion, q)?;
        if is_kept(d, depth, place.cell, layer, r)? {
            return Some(true);
        }
    }
    Some(false)
}

// Whether the cell keeps the square and no placed cell does.
fn is_held(d: &SlowDesign, depth: u32, cell: usize, layer: &Formula, q: Square) -> Option<bool>
    ensures { IfSome result (λ b. IsTrue b
        ↔ (IsKept (plain d.now) cell (plain_formula layer.now) q
        × (IsKeptBelow (plain d.now) cell (plain_formula layer.now) q → ⊥))) }
{
    let kept = is_kept(d, depth, cell, layer, q)?;
    let below = is_below(d, depth, cell, layer, q)?;
    Some(kept && !below)
}

/// Whether the cell itself holds the square.
pub fn is_local(d: &SlowDesign, depth: u32, cell: usize, layer: &Formula, q: Square) -> Option<bool>
    ensures { IfSome result (λ b. IsTrue b
        ↔ IsLocal (plain d.now) cell (plain_formula layer.now) q) }
{
    match layer {
        Formula::Input(key) => Some(cell < d.cells.len() && is_own(&d.cells[cell].shapes, *key, q)),
        Formula::Empty => Some(false),
        Formula::Binary(_, _, _) => is_held(d, depth, cell, layer, q),
    }
}
