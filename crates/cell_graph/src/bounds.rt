//! The least ranges of x and of y that hold points.
ghost use Rattle.std.specs.Prelude.{◌≡◌, ◌⊎◌, Some};
ghost use Rattle.cell_graph.specs.Bounds.{IsLow, IsHigh, IsWith};
ghost use Rattle.cell_graph.specs.Sides.{Widens};

use geo_base::Point;

/// A range of x and one of y, each of one number at least.
#[derive(Clone, Copy, Debug, PartialEq, Eq)]
pub struct Bounds {
    pub x1: i64,
    pub y1: i64,
    pub x2: i64,
    pub y2: i64,
}

fn low(a: i64, b: i64) -> i64
    ensures { IsLow a b result }
{
    if a <= b { a } else { b }
}

fn high(a: i64, b: i64) -> i64
    ensures { IsHigh a b result }
{
    if b <= a { a } else { b }
}

/// The least bounds that hold these and a point.
pub fn with_point(bounds: Option<Bounds>, p: Point) -> Bounds
    ensures { IsWith bounds p result }
{
    match bounds {
        None => Bounds {
            x1: p.x,
            y1: p.y,
            x2: p.x,
            y2: p.y,
        },
        Some(b) => Bounds {
            x1: low(b.x1, p.x),
            y1: low(b.y1, p.y),
            x2: high(b.x2, p.x),
            y2: high(b.y2, p.y),
        },
    }
}

/// The least bounds that hold these and two points.
pub fn with_corners(bounds: Option<Bounds>, low: Point, high: Point) -> Bounds
    ensures { Widens bounds (λ p. (p ≡ low) ⊎ (p ≡ high)) (Some result) }
{
    let one = with_point(bounds, low);
    with_point(Some(one), high)
}
