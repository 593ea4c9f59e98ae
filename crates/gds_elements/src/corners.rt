//! Outlines that go round a rectangle, kept by two of its corners.

ghost use Rattle.std.specs.Prelude.{◌≡◌, ◌&&◌, [], ◌∷◌, true, IfSome};
ghost use Rattle.gds_elements.specs.Corners.{corner_points};
ghost use Rattle.gds_elements.specs.Data.{is_same};

use crate::points::is_same;
use geo_base::Point;

/// The outline that goes round a rectangle: from one corner by way of the opposite one, its first
/// side level or upright.
#[derive(Clone, Copy)]
pub struct Corners {
    pub from: Point,
    pub to: Point,
    pub is_level: bool,
}

impl Corners {
    /// The five points of the outline, the last of which is the first. O(1).
    pub fn points(&self) -> [Point; 5]
        ensures { result ≡ corner_points self.now }
    {
        let (from, to) = (self.from, self.to);
        let beside = Point { x: to.x, y: from.y };
        let above = Point { x: from.x, y: to.y };
        if self.is_level {
            [from, beside, to, above, from]
        } else {
            [from, above, to, beside, from]
        }
    }
}

// Whether b, d and e are the points p, q and a.
fn are_same(a: Point, b: Point, d: Point, e: Point, p: Point, q: Point) -> bool
    ensures { result ≡ (is_same b p && (is_same d q && is_same e a)) }
{
    is_same(b, p) && (is_same(d, q) && is_same(e, a))
}

// Whether five points go from a by way of p, c and q back to a.
fn goes_by(a: Point, b: Point, c: Point, d: Point, e: Point, p: Point, q: Point) -> bool
    ensures { result ≡ true → a ∷ b ∷ c ∷ d ∷ e ∷ [] ≡ a ∷ p ∷ c ∷ q ∷ a ∷ [] }
{
    are_same(a, b, d, e, p, q)
}

// The corners that five points go round, where they go round a rectangle.
fn round(a: Point, b: Point, c: Point, d: Point, e: Point) -> Option<Corners>
    ensures { IfSome result (λ r. a ∷ b ∷ c ∷ d ∷ e ∷ [] ≡ corner_points r) }
{
    let beside = Point { x: c.x, y: a.y };
    let above = Point { x: a.x, y: c.y };
    if goes_by(a, b, c, d, e, beside, above) {
        return Some(Corners {
            from: a,
            to: c,
            is_level: true,
        });
    }
    if goes_by(a, b, c, d, e, above, beside) {
        return Some(Corners {
            from: a,
            to: c,
            is_level: false,
        });
    }
    None
}

/// The corners that the points go round, where they go round a rectangle. O(1).
pub(crate) fn corners_of(points: &[Point]) -> Option<Corners>
    ensures { IfSome result (λ c. points.now ≡ corner_points c) }
{
    match points {
        [a, b, c, d, e] => round(*a, *b, *c, *d, *e),
        _ => None,
    }
}
