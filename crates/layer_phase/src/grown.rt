//! Sets and windows grown by how far names reach.

ghost use Rattle.std.specs.Prelude.{◌≡◌, ◌≤◌, ◌+◌, ◌^◌, ℕ, IfOk};
ghost use Rattle.geo_base.specs.declared.shapes.Square.{Square};
ghost use Rattle.rect_sets.specs.Rects.{covers};
ghost use Rattle.geo_base.specs.Rects.{grown};
ghost use Rattle.cell_graph.specs.Linked.{IsRectWithin};
ghost use Rattle.sized_layers.specs.Sizes.{IsSetWithin};
ghost use Rattle.layer_phase.specs.Around.{around};

use crate::squares::Squares;
use cell_context::grown;
use geo_base::Rect;
use rect_sets::RectSet;
use sized_layers::size;
use std::alloc::{AllocError, Global};

/// The squares within so many squares of a set's. Costs as `size`.
pub fn sized(alloc: Global, set: &RectSet, by: u32) -> Result<RectSet, AllocError>
    requires within { IsSetWithin (2 ^ 39) set.now }
    requires by { by ≤ 10000 }
    ensures squares { IfOk result (λ r. (q : Square) → covers r q ≡ covers (around by set.now) q) }
    ensures range { (n : ℕ) → IsSetWithin n set.now
        → IfOk result (λ r. IsSetWithin (n + by) r) }
{
    let _rects = set.rects();
    let wide = size(alloc, set, i64::from(by))?;
    Ok(wide)
}

/// The same. By 0 the set itself is lent.
pub fn around<'a>(alloc: Global, set: &'a RectSet, by: u32) -> Result<Squares<'a>, AllocError>
    requires within { IsSetWithin (2 ^ 39) set.now }
    requires by { by ≤ 10000 }
    ensures squares { IfOk result (λ r. (q : Square) → covers r q ≡ covers (around by set.now) q) }
    ensures range { (n : ℕ) → IsSetWithin n set.now
        → IfOk result (λ r. IsSetWithin (n + by) r) }
{
    if by == 0 {
        return Ok(Squares::lent(set));
    }
    let wide = sized(alloc, set, by)?;
    Ok(Squares::own(wide))
}

/// The same by twice as many.
pub fn twice_around<'a>(alloc: Global, set: &'a RectSet, by: u32) -> Result<Squares<'a>, AllocError>
    requires within { IsSetWithin (2 ^ 38) set.now }
    requires by { by ≤ 10000 }
    ensures squares { IfOk result (λ r. (q : Square)
        → covers r q ≡ covers (around by (around by set.now)) q) }
    ensures range { (n : ℕ) → IsSetWithin n set.now
        → IfOk result (λ r. IsSetWithin ((n + by) + by) r) }
{
    if by == 0 {
        return Ok(Squares::lent(set));
    }
    let _rects = set.rects();
    let once = sized(alloc, set, by)?;
    let _once_rects = once.rects();
    let twice = sized(alloc, &once, by)?;
    Ok(Squares::own(twice))
}

/// A rectangle grown by twice so many squares on each side.
pub fn twice_grown(rect: &Rect, by: u32) -> Rect
    requires rect { IsRectWithin (2 ^ 38) rect.now }
    requires by { by ≤ 10000 }
    ensures { result ≡ grown by (grown by rect.now) }
{
    let once = grown(rect, by);
    grown(&once, by)
}
