//! A small design as plain lists: cells with shapes and placements.

ghost use Rattle.std.specs.Prelude.{◌≡◌, ◌↔◌, IsTrue, map};
ghost use Rattle.flat_layout.specs.Layout.{Some_of};
ghost use Rattle.flat_slow.specs.Paths.{IsOnLayer, plain_layer, plain_place};

use geo_base::{LayerKey, Motion, Rect, Square};

/// A rectangle on a layer.
#[derive(Clone, Copy, Debug)]
pub struct SlowShape {
    pub key: LayerKey,
    pub rect: Rect,
}

/// A placement of a cell, by number.
#[derive(Clone, Copy, Debug)]
pub struct SlowPlace {
    pub cell: usize,
    pub motion: Motion,
}

/// A cell with its own shapes and its placements in order.
#[derive(Debug, Drop)]
pub struct SlowCell {
    pub shapes: Vec<SlowShape>,
    pub places: Vec<SlowPlace>,
}

/// Cells, and the number of the top.
#[derive(Debug, Drop)]
pub struct SlowDesign {
    pub cells: Vec<SlowCell>,
    pub top: usize,
}

/// Whether one of the shapes covers the square on the layer.
pub fn is_own(shapes: &[SlowShape], key: LayerKey, q: Square) -> bool
    ensures { IsTrue result ↔ Some_of (IsOnLayer key q) (map plain_layer shapes.now) }
{
    for shape in shapes {
        if shape.key == key && shape.rect.has(q) {
            return true;
        }
    }
    false
}

/// Whether one of the placements places the cell.
pub fn has_place(places: &[SlowPlace], cell: usize) -> bool
    ensures { IsTrue result ↔ Some_of (λ p. p.cell ≡ cell) (map plain_place places.now) }
{
    for place in places {
        if place.cell == cell {
            return true;
        }
    }
    false
}
