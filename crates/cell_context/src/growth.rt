//! Rectangles grown on all sides.

ghost use Rattle.std.specs.Prelude.{◌≡◌, ◌^◌};
ghost use Rattle.geo_base.specs.Rects.{grown};
ghost use Rattle.cell_graph.specs.Linked.{IsRectWithin};

use geo_base::Rect;

/// A rectangle grown by so many squares on each side.
pub fn grown(rect: &Rect, by: u32) -> Rect
    requires { IsRectWithin (2 ^ 39) rect.now }
    ensures { result ≡ grown by rect.now }
{
    rect.grown(by)
}
