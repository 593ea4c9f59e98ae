//! Paths from tables of numbers, which are tested first.

ghost use Rattle.std.specs.Prelude.{◌≡◌, true, IfOk};
ghost use Rattle.std.specs.List.{All};
ghost use Rattle.geo_base.specs.Near.{IsLong, IsLongPoint};

use geo_base::Point;
use poly_fill::fill_path;
use rect_sets::RectSet;
use std::alloc::{AllocError, Global};

fn is_near(number: i64) -> bool
    ensures { result ≡ true → IsLong number }
{
    -1_000_000 <= number && number <= 1_000_000
}

fn is_near_point(point: Point) -> bool
    ensures { result ≡ true → IsLongPoint point }
{
    is_near(point.x) && is_near(point.y)
}

// Those within plus or minus a million.
fn near_points(alloc: Global, corners: &[(i64, i64)]) -> Result<Vec<Point>, AllocError>
    ensures { IfOk result (λ v. All IsLongPoint v.items) }
{
    let mut out = Vec::new(alloc);
    for corner in corners {
        let point = Point {
            x: corner.0,
            y: corner.1,
        };
        if is_near_point(point) {
            out.push(point)?;
        }
    }
    Ok(out)
}

/// The path through some corners; None where a length is above a million.
pub fn path_set(
    alloc: Global,
    corners: &[(i64, i64)],
    half: i64,
    begin: i64,
    end: i64,
) -> Result<Option<RectSet>, AllocError> {
    let points = near_points(alloc, corners)?;
    if is_near(half) && is_near(begin) && is_near(end) {
        let set = fill_path(alloc, &points, half, begin, end)?;
        return Ok(Some(set));
    }
    Ok(None)
}
