//! What a cell keeps of a name, window by window: what it holds itself, and the images of what the
//! cells hold that it places.
ghost use Rattle.std.specs.Prelude.{◌<◌, ◌^◌, [], ◌∷◌, length, IfOk};
ghost use Rattle.std.specs.List.{All};
ghost use Rattle.flat_layout.specs.Layers.{Formula, IsKept};
ghost use Rattle.flat_layout.specs.Layout.{IsReached};
ghost use Rattle.cell_graph.specs.Linked.{IsRectWithin, plain};
ghost use Rattle.gate_search.specs.Gather.{AreMet};
ghost use Rattle.gate_phase.specs.Kept.{HasLocals, IsNearPiece};

use crate::frame::plane;
use crate::indexes::IndexedLayers;
use cell_context::{push_images, visits};
use cell_graph::Design;
use geo_base::Rect;
use rect_sets::RectSet;
use std::alloc::{AllocError, Global};

/// Rectangles of what a cell keeps of a name, among them all that share a square with the window.
/// Rectangles aren't cut to the window: a long one costs as a short one. On a layer of a device
/// rule indexes find them: what lies far from the window costs nothing. Cells whose hulls, grown by
/// the name's reach, miss the window aren't walked, and of an array only the elements that reach
/// into it.
pub fn kept_rects(
    alloc: Global,
    design: &Design,
    layers: &IndexedLayers,
    cell: u32,
    name: u32,
    window: &Rect,
) -> Result<Vec<Rect>, AllocError>
    requires cell { cell < length design.now.cells }
    requires reached { IsReached (plain design.now) cell }
    requires locals { (x : Formula) × HasLocals (plain design.now) layers.now name x }
    requires window { IsRectWithin (2 ^ 39) window.now }
    ensures near { IfOk result (λ v. All IsNearPiece v.items) }
    ensures exact { IfOk result (λ v. (x : Formula) → HasLocals (plain design.now) layers.now name x
        → AreMet (IsKept (plain design.now) cell x) (window.now ∷ []) v.items) }
{
    design.sound();
    let mut out = layers.met(alloc, cell, name, window)?;
    let frame = plane();
    let list = visits(alloc, design, cell, window, None, layers.reach(name))?;
    for visit in &list {
        let below = kept_rects(alloc, design, layers, visit.cell, name, &visit.window)?;
        push_images(&mut out, &below, &visit.motion, &frame)?;
    }
    Ok(out)
}

/// What a cell keeps of a name in some windows, exactly at their squares: a walk for each window.
pub fn kept_in(
    alloc: Global,
    design: &Design,
    layers: &IndexedLayers,
    cell: u32,
    name: u32,
    windows: &[Rect],
) -> Result<RectSet, AllocError>
    requires cell { cell < length design.now.cells }
    requires reached { IsReached (plain design.now) cell }
    requires locals { (x : Formula) × HasLocals (plain design.now) layers.now name x }
    requires windows { All (IsRectWithin (2 ^ 39)) windows.now }
    ensures { IfOk result (λ s. (x : Formula) → HasLocals (plain design.now) layers.now name x
        → AreMet (IsKept (plain design.now) cell x) windows.now s) }
{
    let mut out = Vec::new(alloc);
    for window in windows {
        let more = kept_rects(alloc, design, layers, cell, name, window)?;
        out.extend_from_slice(&more)?;
    }
    let set = RectSet::canon(alloc, out)?;
    Ok(set)
}
