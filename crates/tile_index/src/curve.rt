//! A curve through the plane (Morton's Z-order): near on it is mostly near in the plane.

use geo_base::Rect;

/// How fine the curve is along x and along y.
const TILES: u64 = 1 << 32;

// The number of the tile along one axis in which the middle of a range lies, where the hull goes
// from `start` to `end`.
fn tile(low: i64, high: i64, start: i64, end: i64) -> u64 {
    let size = end.abs_diff(start) / TILES + 1;
    let middle = low.abs_diff(start) / 2 + high.abs_diff(start) / 2;
    middle / size
}

// The lower 32 bits, each with a bit of 0 above it.
fn spread(number: u64) -> u64 {
    let halves = number & 0xFFFF_FFFF;
    let bytes = (halves | (halves << 16)) & 0x0000_FFFF_0000_FFFF;
    let nibbles = (bytes | (bytes << 8)) & 0x00FF_00FF_00FF_00FF;
    let pairs = (nibbles | (nibbles << 4)) & 0x0F0F_0F0F_0F0F_0F0F;
    let bits = (pairs | (pairs << 2)) & 0x3333_3333_3333_3333;
    (bits | (bits << 1)) & 0x5555_5555_5555_5555
}

/// Where the middle of a rectangle of the hull lies on the curve.
pub fn place_on_curve(rect: &Rect, hull: &Rect) -> u64 {
    let across = tile(rect.x1, rect.x2, hull.x1, hull.x2);
    let up = tile(rect.y1, rect.y2, hull.y1, hull.y2);
    spread(across) | (spread(up) << 1)
}
