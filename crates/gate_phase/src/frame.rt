//! The plane in which designs are worked, and grown hulls.
ghost use Rattle.std.specs.Prelude.{◌≡◌, ◌≤◌, ◌^◌};
ghost use Rattle.cell_graph.specs.Linked.{IsFrame, IsHull, IsRectWithin};
ghost use Rattle.deep_tables.specs.Frames.{grown};
ghost use Rattle.gate_phase.specs.Kept.{HoldsNear};

use cell_context::grown;
use geo_base::Rect;

/// All that lies within plus or minus 2^39, among it all that a design holds.
pub fn plane() -> Rect
    ensures near { IsRectWithin (2 ^ 39) result }
    ensures all { HoldsNear result }
{
    let reach = 1 << 39;
    Rect {
        x1: -reach,
        y1: -reach,
        x2: reach,
        y2: reach,
    }
}

/// A hull and the squares within so many of it.
pub fn grown_hull(hull: &Rect, by: u32) -> Rect
    requires hull { IsHull hull.now }
    requires by { by ≤ 20001 }
    ensures grown { result ≡ grown by hull.now }
    ensures frame { IsFrame result }
{
    grown(hull, by)
}
