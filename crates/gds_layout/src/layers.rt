//! The layers of a structure.

ghost use Rattle.std.specs.Prelude.{map, IfOk};
ghost use Rattle.std.specs.List.{All};
ghost use Rattle.geo_base.specs.Rects.{IsRect};
ghost use Rattle.gds_elements.specs.Fillable.{IsFillable};
ghost use Rattle.gds_elements.specs.Reading.{shape_seen};
ghost use Rattle.gds_layout.specs.Drafts.{AreLayersOf};
ghost use Rattle.gds_layout.specs.Layering.{AreFilled, AreLaid, IsFilled};
ghost use Rattle.gds_layout.specs.Piles.{rects_of};

use crate::piles::{Laid, Pile, Piles};
use cell_graph::OwnLayer;
use gds_elements::RawShape;
use rect_sets::RectSet;
use std::alloc::{AllocError, Global};

// The rectangles of the shapes, by layer.
fn piles_of(alloc: Global, shapes: &[RawShape]) -> Result<Vec<Pile>, AllocError>
    requires { All (λ s. IsFillable s.form) (map shape_seen shapes.now) }
    ensures { IfOk result (λ v. AreLaid (map shape_seen shapes.now) v.items) }
{
    let mut piles = Piles::new(alloc);
    for shape in shapes {
        piles.add(alloc, shape)?;
    }
    let Piles { list, .. } = piles;
    Ok(list)
}

// The layer that a pile covers.
fn layer_of(alloc: Global, pile: Pile) -> Result<OwnLayer, AllocError>
    requires { All IsRect (rects_of pile) }
    ensures { IfOk result (IsFilled pile) }
{
    let Pile { key, laid } = pile;
    let set = match laid {
        Laid::Nothing => RectSet::empty(alloc),
        Laid::One(set) => set,
        Laid::Many(rects) => RectSet::canon(alloc, rects)?,
    };
    let _canonical = set.rects();
    Ok(OwnLayer { key, set })
}

// The layers that piles cover.
fn filled(alloc: Global, piles: Vec<Pile>) -> Result<Vec<OwnLayer>, AllocError>
    requires { All (λ p. All IsRect (rects_of p)) piles.items }
    ensures { IfOk result (λ v. AreFilled piles.items v.items) }
{
    let mut layers = Vec::new(alloc);
    for pile in piles {
        let layer = layer_of(alloc, pile)?;
        layers.push(layer)?;
    }
    Ok(layers)
}

/// The layers of shapes: each shape is filled once, and the rectangles of each layer that has
/// several shapes are united once.
/// The outlines are let go in between.
/// Cost: that of the fills and of `RectSet::canon` for each layer; no look-up among layers scans.
pub(crate) fn layers_of(alloc: Global, shapes: Vec<RawShape>) -> Result<Vec<OwnLayer>, AllocError>
    requires { All (λ s. IsFillable s.form) (map shape_seen shapes.items) }
    ensures { IfOk result (λ v. AreLayersOf (map shape_seen shapes.items) v.items) }
{
    let piles = piles_of(alloc, &shapes)?;
    drop(shapes);
    let layers = filled(alloc, piles)?;
    Ok(layers)
}
