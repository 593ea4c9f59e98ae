//! Paths.

use crate::near::path_set;
use geo_base::Rect;
use std::alloc::Global;
use std::test::Fail;

macro_rules! block {
    ($x1:expr, $y1:expr, $x2:expr, $y2:expr) => {
        Rect {
            x1: $x1,
            y1: $y1,
            x2: $x2,
            y2: $y2,
        }
    };
}

/// A path's points, its half width, its extensions at the first and at the last point, and what it
/// covers.
struct Path(&'static [(i64, i64)], [i64; 3], &'static [Rect]);

const CORNER: &[(i64, i64)] = &[(0, 0), (0, 20), (30, 20)];

const FIVE: &[(i64, i64)] = &[(0, 0), (20, 0), (20, 20), (0, 20), (0, 10), (10, 10)];

static PATHS: [Path; 21] = [
    // One segment to the right and to the left.
    Path(&[(0, 0), (10, 0)], [3, 0, 0], &[block!(0, -3, 10, 3)]),
    Path(&[(0, 0), (10, 0)], [3, 3, 3], &[block!(-3, -3, 13, 3)]),
    Path(&[(0, 0), (10, 0)], [3, 5, 1], &[block!(-5, -3, 11, 3)]),
    Path(&[(10, 0), (0, 0)], [3, 5, 1], &[block!(-1, -3, 15, 3)]),
    // Up, down, and with negative extensions, also one that is longer than the segment.
    Path(&[(0, 0), (0, 10)], [1, 2, 3], &[block!(-1, -2, 1, 13)]),
    Path(&[(0, 10), (0, 0)], [1, 2, 3], &[block!(-1, -3, 1, 12)]),
    Path(&[(0, 0), (10, 0)], [1, -2, -3], &[block!(2, -1, 7, 1)]),
    Path(&[(0, 0), (4, 0)], [1, -5, 3], &[block!(5, -1, 7, 1)]),
    // No width, or a segment that negative extensions leave nothing of.
    Path(&[(0, 0), (10, 0)], [0, 0, 0], &[]),
    Path(&[(0, 0), (0, 10)], [0, 4, 4], &[]),
    Path(&[(0, 0), (4, 0)], [1, -3, -3], &[]),
    Path(&[(0, 0), (4, 0)], [1, -5, 0], &[]),
    Path(&[(7, 7), (7, 7)], [2, 2, 2], &[]),
    // Two segments: flush, lengthened by the half width, and by lengths of their own.
    Path(
        CORNER,
        [2, 0, 0],
        &[block!(-2, 0, 2, 18), block!(-2, 18, 30, 22)],
    ),
    Path(
        CORNER,
        [2, 2, 2],
        &[block!(-2, -2, 2, 18), block!(-2, 18, 32, 22)],
    ),
    Path(
        CORNER,
        [2, 5, -4],
        &[block!(-2, -5, 2, 18), block!(-2, 18, 26, 22)],
    ),
    // Five segments likewise.
    Path(
        FIVE,
        [1, 0, 0],
        &[
            block!(0, -1, 21, 1),
            block!(19, 1, 21, 19),
            block!(-1, 9, 10, 11),
            block!(-1, 11, 1, 19),
            block!(-1, 19, 21, 21),
        ],
    ),
    Path(
        FIVE,
        [1, 1, 1],
        &[
            block!(-1, -1, 21, 1),
            block!(19, 1, 21, 19),
            block!(-1, 9, 11, 11),
            block!(-1, 11, 1, 19),
            block!(-1, 19, 21, 21),
        ],
    ),
    Path(
        FIVE,
        [1, 4, -2],
        &[
            block!(-4, -1, 21, 1),
            block!(19, 1, 21, 19),
            block!(-1, 9, 8, 11),
            block!(-1, 11, 1, 19),
            block!(-1, 19, 21, 21),
        ],
    ),
    // Points that equal the one before them make no joint.
    Path(
        &[(0, 0), (0, 0), (10, 0), (10, 0), (10, 0)],
        [1, 2, 4],
        &[block!(-2, -1, 14, 1)],
    ),
    Path(
        &[(0, 0), (0, 20), (0, 20), (30, 20)],
        [2, 0, 0],
        &[block!(-2, 0, 2, 18), block!(-2, 18, 30, 22)],
    ),
];

// Whether a path covers what it should.
fn is_covered(alloc: Global, path: &Path) -> Result<bool, Fail> {
    let [half, begin, end] = path.1;
    let set = path_set(alloc, path.0, half, begin, end)?.ok_or("far")?;
    Ok(set.rects() == path.2)
}

#[test]
fn each_path(rt: HostRuntime) -> Result<(), Fail> {
    let alloc = rt.alloc();
    for path in &PATHS {
        assert!(rt; is_covered(alloc, path)?, "{:?}, {:?}", path.0, path.1);
    }
    Ok(())
}
