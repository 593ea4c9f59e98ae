//! Windows of sets and their images.

use crate::common::{is_rect, near_part, set_of, swept};
use geo_base::{Motion, Rect, Square, Turn};
use rect_sets::RectSet;
use std::test::Fail;

fn rect(x1: i64, y1: i64, x2: i64, y2: i64) -> Rect {
    Rect { x1, y1, x2, y2 }
}

#[test]
fn touching_rectangles_are_one(rt: HostRuntime) -> Result<(), Fail> {
    let alloc = rt.alloc();
    let beside = set_of(
        alloc,
        &[rect(0, 0, 5, 10), rect(5, 0, 9, 10), rect(0, 10, 9, 12)],
    )?;
    assert!(rt; beside.rects() == [rect(0, 0, 9, 12)].as_slice());
    let corner = set_of(alloc, &[rect(5, 5, 9, 9), rect(0, 0, 5, 5)])?;
    assert!(rt; corner.rects() == [rect(0, 0, 5, 5), rect(5, 5, 9, 9)].as_slice());
    let tile = rect(3, -4, 8, 2);
    assert!(rt; is_rect(&tile));
    assert!(rt; swept(alloc, tile)?.rects() == [tile].as_slice());
    let none = RectSet::empty(alloc);
    assert!(rt; none.rects().is_empty());
    assert!(rt; corner.contains(Square { x: 4, y: 4 }));
    assert!(rt; !corner.contains(Square { x: 5, y: 4 }));
    Ok(())
}

#[test]
fn windows(rt: HostRuntime) -> Result<(), Fail> {
    let alloc = rt.alloc();
    let set = set_of(
        alloc,
        &[rect(0, 0, 10, 10), rect(20, 0, 30, 5), rect(8, 12, 22, 14)],
    )?;
    for (window, want) in [
        (
            rect(5, 5, 25, 13),
            [rect(5, 5, 10, 10), rect(8, 12, 22, 13)].as_slice(),
        ),
        (rect(10, 0, 20, 12), [].as_slice()),
        (rect(-5, -5, 40, 40), set.rects()),
    ] {
        assert!(rt; is_rect(&window));
        let part = set.window(alloc, window)?;
        assert!(rt; part.rects() == want, "window {window:?}");
    }
    Ok(())
}

#[test]
fn motions(rt: HostRuntime) -> Result<(), Fail> {
    let alloc = rt.alloc();
    let bent = near_part(
        alloc,
        &set_of(alloc, &[rect(0, 0, 10, 2), rect(0, 2, 2, 10)])?,
    )?;
    for (turn, want) in [
        (Turn::R0, [rect(100, 7, 110, 9), rect(100, 9, 102, 17)]),
        (Turn::R90, [rect(90, 7, 100, 9), rect(98, 9, 100, 17)]),
        (Turn::R180, [rect(98, -3, 100, 5), rect(90, 5, 100, 7)]),
        (Turn::M0, [rect(100, -3, 102, 5), rect(100, 5, 110, 7)]),
    ] {
        let image = bent.moved(
            alloc,
            &Motion {
                turn,
                dx: 100,
                dy: 7,
            },
        )?;
        assert!(rt; image.rects() == want.as_slice(), "turn {turn:?}");
    }
    Ok(())
}
