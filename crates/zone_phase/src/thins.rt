//! Rectangles made canonical as they are gathered.
ghost use Rattle.std.specs.Prelude.{◌≡◌, OnOk};
ghost use Rattle.std.specs.List.{All};
ghost use Rattle.geo_base.specs.Rects.{IsRect};
ghost use Rattle.geo_base.specs.declared.shapes.Square.{Square};
ghost use Rattle.rect_sets.specs.Rects.{covers};

use geo_base::Rect;
use rect_sets::{RectSet, canonical_rects};
use std::alloc::{AllocError, Global};
use std::mem;

/// So many rectangles are gathered before they are first made canonical.
pub const FIRST_ROOM: usize = 64;

/// Makes rectangles canonical where there are so many: what references bring alike is kept once.
/// Answers how many may be gathered before the next time.
pub fn thin(alloc: Global, out: &mut Vec<Rect>, room: usize) -> Result<usize, AllocError>
    requires { All IsRect out.old.items }
    ensures rects { OnOk result (All IsRect out.new.items) }
    ensures covers { OnOk result ((q : Square) → covers out.new.items q ≡ covers out.old.items q) }
{
    if out.len() < room {
        return Ok(room);
    }
    let rects = mem::replace(out, Vec::new(alloc));
    let set = RectSet::canon(alloc, rects)?;
    canonical_rects();
    out.extend_from_slice(set.rects())?;
    Ok(room.max(out.len().saturating_mul(2)))
}
