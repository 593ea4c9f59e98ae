//! Lists of layers for the cells of a design.

ghost use Rattle.std.specs.Prelude.{◌≡◌, [], get_or, length, IfOk};
ghost use Rattle.further_layers.specs.Further.{AreCellLayers, AreLayersBy, lists_of, set_at};

use cell_graph::OwnLayer;
use geo_base::LayerKey;
use rect_sets::RectSet;
use std::alloc::{AllocError, Global};

// The set of a cell; none past the last one.
fn set_of(alloc: Global, sets: &[RectSet], cell: usize) -> Result<RectSet, AllocError>
    ensures { IfOk result (λ s. s ≡ get_or sets.now cell []) }
{
    match sets.get(cell) {
        Some(set) => set.try_clone(alloc),
        None => Ok(RectSet::empty(alloc)),
    }
}

// The layers of a cell.
fn cell_layers(
    alloc: Global,
    keys: &[LayerKey],
    sets: &[Vec<RectSet>],
    cell: usize,
) -> Result<Vec<OwnLayer>, AllocError>
    requires { length sets.now ≡ length keys.now }
    ensures { IfOk result (λ v. AreLayersBy keys.now (lists_of sets.now) cell (length keys.now)
        v.items) }
{
    let mut layers = Vec::new(alloc);
    for k in 0..keys.len() {
        let set = set_of(alloc, &sets[k], cell)?;
        let _canonical = set.rects();
        layers.push(OwnLayer { key: keys[k], set })?;
    }
    Ok(layers)
}

/// The layers of each of so many cells: one for each list of sets, under its key. Linear in cells
/// times keys, and in the rectangles.
pub fn further_layers(
    alloc: Global,
    keys: &[LayerKey],
    sets: &[Vec<RectSet>],
    cells: u32,
) -> Result<Vec<Vec<OwnLayer>>, AllocError>
    requires { length sets.now ≡ length keys.now }
    ensures { IfOk result (λ v. AreCellLayers keys.now (lists_of sets.now) cells v.items) }
{
    let mut further = Vec::new(alloc);
    for cell in 0..cells as usize {
        let layers = cell_layers(alloc, keys, sets, cell)?;
        further.push(layers)?;
    }
    Ok(further)
}
