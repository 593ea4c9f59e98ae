//! The squares near a set.
ghost use Rattle.std.specs.Prelude.{◌↔◌, ◌≤◌, ◌^◌, IfOk};
ghost use Rattle.std.specs.List.{All};
ghost use Rattle.geo_base.specs.Rects.{IsRect};
ghost use Rattle.geo_base.specs.declared.shapes.Square.{Square};
ghost use Rattle.rect_sets.specs.Near.{IsNearSet};
ghost use Rattle.flat_layout.specs.Plane.{IsReachedBy};
ghost use Rattle.sized_layers.specs.Sizes.{IsSetWithin};
ghost use Rattle.gate_shapes.specs.Sets.{in_set};

use geo_base::Rect;
use rect_sets::RectSet;
use sized_layers::size;
use std::alloc::{AllocError, Global};

/// The squares within so many of a set's. Within none it is the set itself, which costs nothing;
/// else as `size` does.
pub fn within_reach(alloc: Global, set: RectSet, reach: u32) -> Result<RectSet, AllocError>
    requires reach { reach ≤ 10000 }
    requires within { IsSetWithin (2 ^ 39) set }
    ensures squares { IfOk result (λ r. (q : Square) → in_set r q
        ↔ IsReachedBy reach (in_set set) q) }
    ensures near { IfOk result IsNearSet }
{
    if reach == 0 {
        return Ok(set);
    }
    size(alloc, &set, i64::from(reach))
}

/// The same of what some rectangles cover.
pub fn rects_within_reach(
    alloc: Global,
    rects: Vec<Rect>,
    reach: u32,
) -> Result<Vec<Rect>, AllocError>
    requires reach { reach ≤ 10000 }
    requires some { All IsRect rects.items }
    requires within { IsSetWithin (2 ^ 39) rects.items }
    ensures some { IfOk result (λ v. All IsRect v.items) }
    ensures squares { IfOk result (λ v. (q : Square) → in_set v.items q
        ↔ IsReachedBy reach (in_set rects.items) q) }
{
    if reach == 0 {
        return Ok(rects);
    }
    let set = RectSet::canon(alloc, rects)?;
    let near = size(alloc, &set, i64::from(reach))?;
    let mut out = Vec::new(alloc);
    out.extend_from_slice(near.rects())?;
    Ok(out)
}
