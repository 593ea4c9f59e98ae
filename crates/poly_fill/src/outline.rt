//! Boundaries that are outlines of rectangles.

ghost use Rattle.std.specs.Prelude.{◌≡◌, [], ◌∷◌, IfSome};
ghost use Rattle.geo_base.specs.Rects.{has};
ghost use Rattle.poly_fill.specs.Fills.{in_boundary};
ghost use Rattle.poly_fill.specs.Outlines.{LevelLaw, UprightLaw};
ghost use Rattle.geo_base.specs.declared.shapes.Square.{Square};

use geo_base::{Point, Rect};

// The rectangle that the points go round, where two of their sides lie level.
fn outline_of(a: Point, b: Point, c: Point, d: Point, e: Point) -> Option<Rect>
    ensures { IfSome result (λ r. (s : Square) → in_boundary (a ∷ b ∷ c ∷ d ∷ e ∷ []) s ≡ has r s) }
{
    if e.y != a.y {
        return None;
    }
    if b.y == c.y && d.y == a.y {
        return Some(Rect::between(a, c));
    }
    if a.y == b.y && c.y == d.y {
        return Some(Rect::between(b, d));
    }
    None
}

/// The rectangle that five points go round, from any corner and either way; it may have no area.
/// `None` says nothing of the points: the code answers it for all others. O(1).
pub fn outlined(points: &[Point]) -> Option<Rect>
    ensures { IfSome result (λ r. (s : Square) → in_boundary points.now s ≡ has r s) }
{
    match points {
        [a, b, c, d, e] => outline_of(*a, *b, *c, *d, *e),
        _ => None,
    }
}

/// Five points two of whose sides lie level go round exactly a rectangle's squares.
pub fn outline_laws()
    ensures upright { UprightLaw }
    ensures level { LevelLaw }
{}
