//! From seeds to whole parts of a layer that is known only window by window.

ghost use Rattle.std.specs.Prelude.{IfOk};
ghost use Rattle.std.specs.List.{All};
ghost use Rattle.geo_base.specs.Rects.{IsRect};
ghost use Rattle.gate_search.specs.Gather.{AreMet, IsGathered, IsGatheredAround};
ghost use Rattle.rect_sets.specs.Near.{IsNearSet};

use gate_shapes::{grown, least};
use geo_base::{Op, Rect};
use rect_sets::{RectSet, combine_rects};
use std::alloc::{AllocError, Global};

/// A layer that is known only window by window.
pub trait GateLayer {
    ghost use Rattle.std.specs.Prelude.{IfOk};
    ghost use Rattle.geo_base.specs.Rects.{IsRect};
    ghost use Rattle.geo_base.specs.declared.shapes.Rect.{Rect};
    ghost use Rattle.geo_base.specs.declared.shapes.Square.{Square};
    ghost use Rattle.rect_sets.specs.Near.{HasNearCorners};
    ghost use Rattle.gate_search.specs.Gather.{AreMet};
    ghost use Rattle.std.specs.Prelude.{[], ◌∷◌};

    ghost keeps: { Self → Square → Type 0 };

    /// All squares of the layer in the window, and perhaps others of it.
    fn near(&self, alloc: Global, window: Rect) -> Result<RectSet, AllocError>
        requires { IsRect window }
        ensures { IfOk result (λ r. AreMet (keeps self.now) (window ∷ []) r) };

    /// The layer lies where motions are worked.
    ghost bounded: { (x : Self) (q : Square) → keeps x q → HasNearCorners q };
}

// The squares of the layer in some windows.
fn around<L: GateLayer>(alloc: Global, layer: &L, windows: &[Rect]) -> Result<RectSet, AllocError>
    requires { All IsRect windows.now }
    ensures { IfOk result (λ r. AreMet (L.keeps layer.now) windows.now r) }
{
    let mut rects = Vec::new(alloc);
    for window in windows {
        let part = layer.near(alloc, *window)?;
        rects.extend_from_slice(part.rects())?;
    }
    let set = RectSet::canon(alloc, rects)?;
    Ok(set)
}

/// Squares of the layer with all that steps lead to, among them those in the windows of the seeds.
/// A round for each step from rectangle to rectangle, however many they are; what no round's windows
/// reach isn't asked for.
pub fn gather<L: GateLayer>(alloc: Global, layer: &L, seeds: &[Rect]) -> Result<RectSet, AllocError>
    requires { All IsRect seeds.now }
    ensures { IfOk result (λ r. IsGathered (L.keeps layer.now) seeds.now r) }
{
    let mut found = RectSet::empty(alloc);
    let mut fresh = around(alloc, layer, seeds)?;
    'rounds: while least(&fresh).is_some() {
        let windows = grown(alloc, fresh.rects())?;
        let next = around(alloc, layer, &windows)?;
        found = combine_rects(alloc, found.rects(), fresh.rects(), Op::Or)?;
        fresh = combine_rects(alloc, next.rects(), found.rects(), Op::Not)?;
    }
    Ok(found)
}

/// The squares of the layer that are seeds or share a side or a corner with one, with all that
/// steps lead to: whole parts of the layer.
pub fn gather_around<L: GateLayer>(
    alloc: Global,
    layer: &L,
    seeds: &RectSet,
) -> Result<RectSet, AllocError>
    requires { IsNearSet seeds.now }
    ensures { IfOk result (λ r. IsGatheredAround (L.keeps layer.now) seeds.now r) }
{
    let windows = grown(alloc, seeds.rects())?;
    let found = gather(alloc, layer, &windows)?;
    Ok(found)
}
