//! A cell's own squares on a layer.
ghost use Rattle.std.specs.Prelude.{◌≡◌, ◌<◌, length, IfOk};
ghost use Rattle.cell_graph.specs.Linked.{cell_at, own_of};
ghost use Rattle.geo_base.specs.declared.shapes.Square.{Square};
ghost use Rattle.rect_sets.specs.Rects.{covers};

use cell_graph::Design;
use geo_base::LayerKey;
use rect_sets::RectSet;
use std::alloc::{AllocError, Global};

/// A copy of a cell's own squares on a layer. Linear.
pub fn own_copy(
    alloc: Global,
    design: &Design,
    cell: u32,
    key: LayerKey,
) -> Result<RectSet, AllocError>
    requires { cell < length design.now.cells }
    ensures { IfOk result (λ r. (q : Square) → covers r q
        ≡ covers (own_of (cell_at design.now cell) key) q) }
{
    design.own(cell, key).try_clone(alloc)
}
