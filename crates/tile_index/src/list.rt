//! A list of rectangles that is looked into without an index.

ghost use Rattle.std.specs.Prelude.{IfOk};
ghost use Rattle.tile_index.specs.Windows.{ArePositions};

use crate::entries::position_of;
use geo_base::Rect;
use std::alloc::{AllocError, Global};

/// The positions of the rectangles of a list that share a square with the window, ascending. O(n)
/// for n rectangles: for lists that are too rarely looked into to be worth an index. An `Err` is
/// want of memory, for which a position of 2^32 or more is taken, too.
pub fn positions_in(alloc: Global, rects: &[Rect], w: &Rect) -> Result<Vec<u32>, AllocError>
    ensures { IfOk result (λ v. ArePositions rects.now w.now v.items) }
{
    let mut found = Vec::new(alloc);
    for i in 0..rects.len() {
        if rects[i].meets(w) {
            found.push(position_of(i)?)?;
        }
    }
    Ok(found)
}
