//! Rectangles that belong to items, and whether two of them touch.

ghost use Rattle.std.specs.Prelude.{◌≡◌, ◌↔◌, ◌&&◌, int_le, int_lt, true};
ghost use Rattle.touching_pieces.specs.Touching.{is_near, touches};
ghost use Rattle.geo_base.specs.Rects.{is_rect};
ghost use Rattle.touching_pieces.specs.Touching.{AreTouching};

use geo_base::Rect;

/// A rectangle of a conductor, and the number of the item that it belongs to.
#[derive(Clone, Copy, Debug, PartialEq, Eq)]
pub struct Piece {
    pub conductor: u32,
    pub rect: Rect,
    pub item: u32,
}

// Whether what two rectangles have in common is a square or more high; it may have no width.
fn is_beside(common: &Rect) -> bool
    ensures { result ≡ (int_le common.now.x1 common.now.x2 && int_lt common.now.y1 common.now.y2) }
{
    common.x1 <= common.x2 && common.y1 < common.y2
}

// Whether it is a square or more wide; it may have no height.
fn is_over(common: &Rect) -> bool
    ensures { result ≡ (int_lt common.now.x1 common.now.x2 && int_le common.now.y1 common.now.y2) }
{
    common.x1 < common.x2 && common.y1 <= common.y2
}

fn is_near(a: &Rect, b: &Rect) -> bool
    ensures { result ≡ is_near a.now b.now }
{
    let common = a.common(b);
    is_beside(&common) || is_over(&common)
}

fn are_rects(a: &Rect, b: &Rect) -> bool
    ensures { result ≡ (is_rect a.now && is_rect b.now) }
{
    a.is_rect() && b.is_rect()
}

pub(crate) fn touches_by_sides(a: &Rect, b: &Rect) -> bool
    ensures { result ≡ touches a.now b.now }
{
    is_near(a, b) && are_rects(a, b)
}

/// Whether the rectangles have a square in common, or squares that share an edge; a common corner
/// isn't enough.
pub fn touches(a: &Rect, b: &Rect) -> bool
    ensures { (result ≡ true) ↔ AreTouching a.now b.now }
{
    touches_by_sides(a, b)
}
