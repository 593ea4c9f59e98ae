//! Flat, kept and local squares of a child and of a top that places it.

use flat_slow::{Formula, SlowCell, SlowDesign, SlowPlace, SlowShape, in_flat, is_kept, is_local};
use geo_base::{LayerKey, Motion, Op, Rect, Square, Turn};
use std::alloc::{AllocError, Global};
use std::test::Fail;

const A: LayerKey = LayerKey {
    layer: 1,
    datatype: 0,
};

const B: LayerKey = LayerKey {
    layer: 2,
    datatype: 0,
};

const CHILD: usize = 0;

const TOP: usize = 1;

const DEPTH: u32 = 8;

#[derive(Clone, Copy, Debug)]
enum Ask {
    Flat,
    Kept,
    Local,
}

fn rect(x1: i64, y1: i64, x2: i64, y2: i64) -> Rect {
    Rect { x1, y1, x2, y2 }
}

fn placed(turn: Turn, dx: i64, dy: i64) -> SlowPlace {
    SlowPlace {
        cell: CHILD,
        motion: Motion { turn, dx, dy },
    }
}

// A child with one rectangle on A, and a top with some on B that places it.
fn design(
    alloc: Global,
    child: Rect,
    top: &[Rect],
    places: &[SlowPlace],
) -> Result<SlowDesign, AllocError> {
    let mut shapes = Vec::new(alloc);
    shapes.push(SlowShape {
        key: A,
        rect: child,
    })?;
    let mut own = Vec::new(alloc);
    for rect in top {
        own.push(SlowShape {
            key: B,
            rect: *rect,
        })?;
    }
    let mut cells = Vec::new(alloc);
    cells.push(SlowCell {
        shapes,
        places: Vec::new(alloc),
    })?;
    cells.push(SlowCell {
        shapes: own,
        places: places.to_vec(alloc)?,
    })?;
    Ok(SlowDesign { cells, top: TOP })
}

fn a_without_b(alloc: Global) -> Result<Formula, AllocError> {
    let a = Box::new(alloc, Formula::Input(A))?;
    let b = Box::new(alloc, Formula::Input(B))?;
    Ok(Formula::Binary(Op::Not, a, b))
}

// Whether the squares of a window that the cell has are exactly those of the rectangles.
fn has_exactly(
    d: &SlowDesign,
    ask: Ask,
    cell: usize,
    layer: &Formula,
    window: Rect,
    wanted: &[Rect],
) -> Option<bool> {
    for y in window.y1..window.y2 {
        for x in window.x1..window.x2 {
            let q = Square { x, y };
            let found = match ask {
                Ask::Flat => in_flat(d, DEPTH, cell, layer, q)?,
                Ask::Kept => is_kept(d, DEPTH, cell, layer, q)?,
                Ask::Local => is_local(d, DEPTH, cell, layer, q)?,
            };
            if found != wanted.iter().any(|r| r.has(q)) {
                return Some(false);
            }
        }
    }
    Some(true)
}

#[test]
fn mirrored_array(rt: HostRuntime) -> Result<(), Fail> {
    let alloc = rt.alloc();
    let places = [
        (100, 200),
        (110, 200),
        (120, 200),
        (100, 220),
        (110, 220),
        (120, 220),
    ]
    .map(|(x, y)| placed(Turn::M90, x, y));
    let d = design(alloc, rect(2, 1, 3, 2), &[], &places)?;
    let wanted = [
        rect(101, 202, 102, 203),
        rect(111, 202, 112, 203),
        rect(121, 202, 122, 203),
        rect(101, 222, 102, 223),
        rect(111, 222, 112, 223),
        rect(121, 222, 122, 223),
    ];
    let a = Formula::Input(A);
    let window = rect(95, 195, 130, 230);
    for ask in [Ask::Flat, Ask::Kept] {
        assert!(rt;
            has_exactly(&d, ask, TOP, &a, window, &wanted) == Some(true),
            "{ask:?}"
        );
    }
    assert!(rt; has_exactly(&d, Ask::Local, TOP, &a, window, &[]) == Some(true));
    Ok(())
}

#[test]
fn parent_cuts_child(rt: HostRuntime) -> Result<(), Fail> {
    let alloc = rt.alloc();
    let places = [placed(Turn::R0, 0, 0), placed(Turn::R0, 100, 0)];
    let d = design(alloc, rect(0, 0, 10, 10), &[rect(5, 0, 15, 10)], &places)?;
    let c = a_without_b(alloc)?;
    let near = rect(-2, -2, 17, 12);
    let far = rect(98, -2, 117, 12);
    for (ask, cell, window, wanted) in [
        (Ask::Flat, CHILD, near, rect(0, 0, 10, 10)),
        (Ask::Kept, CHILD, near, rect(0, 0, 5, 10)),
        (Ask::Local, CHILD, near, rect(0, 0, 5, 10)),
        (Ask::Flat, TOP, near, rect(0, 0, 5, 10)),
        (Ask::Kept, TOP, near, rect(0, 0, 5, 10)),
        (Ask::Local, TOP, near, rect(0, 0, 0, 0)),
        (Ask::Flat, TOP, far, rect(100, 0, 110, 10)),
        (Ask::Kept, TOP, far, rect(100, 0, 110, 10)),
        (Ask::Local, TOP, far, rect(105, 0, 110, 10)),
    ] {
        assert!(rt;
            has_exactly(&d, ask, cell, &c, window, &[wanted]) == Some(true),
            "{ask:?} {cell} {window:?}"
        );
    }
    Ok(())
}

#[test]
fn two_on_one_spot(rt: HostRuntime) -> Result<(), Fail> {
    let alloc = rt.alloc();
    let places = [placed(Turn::R0, 0, 0), placed(Turn::R0, 0, 0)];
    let d = design(alloc, rect(0, 0, 10, 10), &[rect(5, 0, 15, 10)], &places)?;
    let c = a_without_b(alloc)?;
    let window = rect(-2, -2, 17, 12);
    let none = rect(0, 0, 0, 0);
    for (ask, cell, wanted) in [
        (Ask::Kept, CHILD, none),
        (Ask::Local, CHILD, none),
        (Ask::Kept, TOP, rect(0, 0, 5, 10)),
        (Ask::Local, TOP, rect(0, 0, 5, 10)),
    ] {
        assert!(rt;
            has_exactly(&d, ask, cell, &c, window, &[wanted]) == Some(true),
            "{ask:?} {cell}"
        );
    }
    Ok(())
}
