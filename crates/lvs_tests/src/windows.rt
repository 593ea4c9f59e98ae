//! What windows find: in lists of rectangles, in a cell's layers and among its references.

use crate::layouts::stream;
use gds_layout::{Layout, read_layout};
use geo_base::{LayerKey, Rect};
use net_names::Name;
use std::alloc::{AllocError, Global};
use std::test::Fail;
use tile_index::TileIndex;

/// A rectangle as x1, y1, x2, y2.
type Corners = [i64; 4];

fn rect(corners: Corners) -> Rect {
    let [x1, y1, x2, y2] = corners;
    Rect { x1, y1, x2, y2 }
}

fn rects_of(alloc: Global, list: &[Corners]) -> Result<Vec<Rect>, AllocError> {
    let mut rects = Vec::new(alloc);
    for corners in list {
        rects.push(rect(*corners))?;
    }
    Ok(rects)
}

/// Two squares that overlap, and one beside them.
const THREE: [Corners; 3] = [[0, 0, 10, 10], [5, 5, 15, 15], [20, 0, 30, 10]];

/// Rectangles, a window, and the positions that it finds.
static LISTS: [(&[Corners], Corners, &[u32]); 10] = [
    (&THREE, [9, 9, 21, 10], &[0, 1, 2]),
    (&THREE, [10, 0, 20, 5], &[]),
    // The corner of one, and the edges of others.
    (&THREE, [15, 15, 16, 16], &[]),
    (&THREE, [-10, -10, 0, 0], &[]),
    (&THREE, [15, 0, 20, 15], &[]),
    // One square of the last.
    (&THREE, [29, 9, 100, 100], &[2]),
    (&THREE, [-100, -100, 100, 100], &[0, 1, 2]),
    // A window without squares.
    (&THREE, [5, 5, 5, 9], &[]),
    (&[], [-100, -100, 100, 100], &[]),
    // Equal rectangles are found each, in the order of the list.
    (
        &[[3, 3, 4, 4], [9, 9, 10, 10], [3, 3, 4, 4]],
        [3, 3, 4, 4],
        &[0, 2],
    ),
];

// The hull that the index is built with changes no answer.
#[test]
fn lists(rt: HostRuntime) -> Result<(), Fail> {
    let alloc = rt.alloc();
    for (list, window, wanted) in &LISTS {
        let rects = rects_of(alloc, list)?;
        for hull in [[0, 0, 30, 15], [-1000, -1000, 1000, 1000], [3, 3, 4, 4]] {
            let index = TileIndex::build(alloc, &rects, rect(hull))?;
            let found = index.query(alloc, rect(*window))?;
            assert_eq!(rt; found.as_slice(), *wanted, "{window:?}");
        }
    }
    Ok(())
}

// A rectangle over the whole chip, then 100 rows of 100 squares of 10 by 10, 20 apart from the
// origin on.
fn chip(alloc: Global) -> Result<Vec<Rect>, AllocError> {
    let mut rects = Vec::new(alloc);
    rects.push(rect([0, 0, 2000, 2000]))?;
    for row in 0..100i64 {
        for column in 0..100i64 {
            let (x, y) = (column.saturating_mul(20), row.saturating_mul(20));
            rects.push(rect([x, y, x.saturating_add(10), y.saturating_add(10)]))?;
        }
    }
    Ok(rects)
}

/// Windows, and what they find of the chip.
static CHIP: [(Corners, &[u32]); 6] = [
    // In the third row, the third and the fourth square.
    ([45, 45, 61, 51], &[0, 203, 204]),
    // Between four squares.
    ([50, 50, 60, 60], &[0]),
    ([50, 50, 61, 61], &[0, 304]),
    ([0, 0, 1, 1], &[0, 1]),
    ([1989, 1989, 5000, 5000], &[0, 10000]),
    ([2000, 0, 2010, 2000], &[]),
];

#[test]
fn one_over_many(rt: HostRuntime) -> Result<(), Fail> {
    let alloc = rt.alloc();
    let rects = chip(alloc)?;
    let index = TileIndex::build(alloc, &rects, rect([0, 0, 2000, 2000]))?;
    for (window, wanted) in &CHIP {
        let found = index.query(alloc, rect(*window))?;
        assert_eq!(rt; found.as_slice(), *wanted, "{window:?}");
    }
    let all = index.query(alloc, rect([0, 0, 2000, 2000]))?;
    assert_eq!(rt; all.len(), 10001);
    Ok(())
}

const FIRST: LayerKey = LayerKey {
    layer: 1,
    datatype: 0,
};

const SECOND: LayerKey = LayerKey {
    layer: 2,
    datatype: 0,
};

/// One square on one layer, and two on another with a gap between them.
const DRAWN: &str = "cell A
rect 1 0 0 10 10
rect 2 20 0 30 10
rect 2 5 0 15 10
";

/// A layer, a window, and the positions in the layer's list that it finds.
static OWN: [(LayerKey, Corners, &[u32]); 7] = [
    (FIRST, [9, 9, 21, 10], &[0]),
    (FIRST, [10, 0, 20, 5], &[]),
    (SECOND, [9, 9, 21, 10], &[0, 1]),
    (SECOND, [29, 9, 100, 100], &[1]),
    (SECOND, [15, 0, 20, 10], &[]),
    (SECOND, [0, 10, 30, 20], &[]),
    // A layer of which the cell has nothing.
    (
        LayerKey {
            layer: 1,
            datatype: 1,
        },
        [0, 0, 30, 30],
        &[],
    ),
];

fn own_found(
    alloc: Global,
    layout: &Layout,
    key: LayerKey,
    window: Corners,
) -> Result<Vec<u32>, AllocError> {
    let design = &layout.design;
    design.sound();
    design.own_in(alloc, design.top(), key, rect(window))
}

#[test]
fn own_squares(rt: HostRuntime) -> Result<(), Fail> {
    let alloc = rt.alloc();
    let layout = read_layout(alloc, &stream(alloc, DRAWN)?, None)?;
    for (key, window, wanted) in &OWN {
        let found = own_found(alloc, &layout, *key, *window)?;
        assert_eq!(rt; found.as_slice(), *wanted, "{key:?} {window:?}");
    }
    Ok(())
}

/// A square, a square off the origin, a cell without any, and one that places the latter.
const CHILDREN: &str = "cell K
rect 1 0 0 10 10
cell S
rect 1 2 1 3 2
cell E
cell F
place E 5 5
";

/// What the top places, a window, and the positions of the references that it finds.
static PLACES: [(&str, Corners, &[u32]); 12] = [
    (TWICE, [9, 0, 101, 1], &[0, 1]),
    (TWICE, [5, 0, 15, 10], &[0]),
    (TWICE, [10, 0, 100, 10], &[]),
    // By what is placed and not by the origin.
    ("place S 0 0\n", [0, 0, 1, 1], &[]),
    ("place S 0 0\n", [2, 1, 3, 2], &[0]),
    // An array's elements lie in (101, 202) to (122, 223): the first, the last, between them.
    (ARRAY, [101, 202, 102, 203], &[0]),
    (ARRAY, [121, 222, 122, 223], &[0]),
    (ARRAY, [105, 205, 106, 206], &[0]),
    // Its edges alone.
    (ARRAY, [122, 202, 130, 223], &[]),
    (ARRAY, [0, 0, 101, 300], &[]),
    (ARRAY, [0, 223, 300, 230], &[]),
    // Where nothing is placed, nothing is found.
    (EMPTY, [-1000, -1000, 1000, 1000], &[1]),
];

const TWICE: &str = "place K 0 0\nplace K 100 0\n";

const ARRAY: &str = "array S 100 200 3 2 10,0 0,20 M90\n";

const EMPTY: &str = "place E 0 0\nplace K 0 0\nplace F 0 0\n";

// The stream of these cells and of a top with these lines.
fn with_top(alloc: Global, lines: &str) -> Result<Vec<u8>, AllocError> {
    let text = format!(in alloc; "{CHILDREN}cell T\n{lines}")?;
    stream(alloc, text.as_str())
}

fn places_found(alloc: Global, layout: &Layout, window: Corners) -> Result<Vec<u32>, AllocError> {
    let design = &layout.design;
    design.sound();
    design.places_in(alloc, design.top(), rect(window))
}

#[test]
fn references(rt: HostRuntime) -> Result<(), Fail> {
    let alloc = rt.alloc();
    let top = Name::from_bytes(alloc, b"T")?;
    for (lines, window, wanted) in &PLACES {
        let layout = read_layout(alloc, &with_top(alloc, lines)?, top.as_ref())?;
        let found = places_found(alloc, &layout, *window)?;
        assert_eq!(rt; found.as_slice(), *wanted, "{window:?}");
    }
    Ok(())
}
