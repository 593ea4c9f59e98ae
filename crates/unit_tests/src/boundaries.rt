//! Boundaries and boxes.

use geo_base::{Point, Rect};
use poly_fill::{fill_boundary, fill_box};
use std::test::Fail;

fn rect(x1: i64, y1: i64, x2: i64, y2: i64) -> Rect {
    Rect { x1, y1, x2, y2 }
}

macro_rules! line {
    ($(($x:expr, $y:expr)),*) => {
        [$(Point { x: $x, y: $y }),*]
    };
}

// A line that goes round a hole and touches itself covers everything but the hole, whichever way it
// goes.
#[test]
fn spiral_boundary(rt: HostRuntime) -> Result<(), Fail> {
    let alloc = rt.alloc();
    let want = [
        rect(0, 0, 30, 10),
        rect(0, 10, 10, 20),
        rect(20, 10, 30, 20),
        rect(0, 20, 30, 30),
    ];
    let there = line![
        (0, 0),
        (0, 30),
        (30, 30),
        (30, 0),
        (10, 0),
        (10, 10),
        (20, 10),
        (20, 20),
        (10, 20),
        (10, 0),
        (0, 0)
    ];
    let set = fill_boundary(alloc, &there)?;
    assert!(rt; set.rects() == want.as_slice());
    let back = line![
        (0, 0),
        (10, 0),
        (10, 20),
        (20, 20),
        (20, 10),
        (10, 10),
        (10, 0),
        (30, 0),
        (30, 30),
        (0, 30),
        (0, 0)
    ];
    let set = fill_boundary(alloc, &back)?;
    assert!(rt; set.rects() == want.as_slice());
    Ok(())
}

#[test]
fn traced_twice(rt: HostRuntime) -> Result<(), Fail> {
    let alloc = rt.alloc();
    let want = [rect(-5, -5, 5, 5)];
    let up = line![
        (-5, -5),
        (-5, 5),
        (5, 5),
        (5, -5),
        (-5, -5),
        (-5, 5),
        (5, 5),
        (5, -5),
        (-5, -5)
    ];
    let set = fill_boundary(alloc, &up)?;
    assert!(rt; set.rects() == want.as_slice());
    let down = line![
        (-5, -5),
        (5, -5),
        (5, 5),
        (-5, 5),
        (-5, -5),
        (5, -5),
        (5, 5),
        (-5, 5),
        (-5, -5)
    ];
    let set = fill_boundary(alloc, &down)?;
    assert!(rt; set.rects() == want.as_slice());
    Ok(())
}

// One loop has winding number -1, the other 1.
#[test]
fn two_loops_that_cross(rt: HostRuntime) -> Result<(), Fail> {
    let alloc = rt.alloc();
    let eight = line![
        (0, 0),
        (10, 0),
        (10, 20),
        (20, 20),
        (20, 10),
        (0, 10),
        (0, 0)
    ];
    let set = fill_boundary(alloc, &eight)?;
    assert!(rt; set.rects() == [rect(0, 0, 10, 10), rect(10, 10, 20, 20)].as_slice());
    Ok(())
}

// An inner loop the same way is covered twice; the other way round its windings cancel the outer
// loop's.
#[test]
fn loop_in_a_loop(rt: HostRuntime) -> Result<(), Fail> {
    let alloc = rt.alloc();
    let same = line![
        (0, 0),
        (30, 0),
        (30, 30),
        (0, 30),
        (0, 0),
        (10, 0),
        (10, 10),
        (0, 10),
        (0, 0)
    ];
    let set = fill_boundary(alloc, &same)?;
    assert!(rt; set.rects() == [rect(0, 0, 30, 30)].as_slice());
    let other = line![
        (0, 0),
        (30, 0),
        (30, 30),
        (0, 30),
        (0, 0),
        (0, 10),
        (10, 10),
        (10, 0),
        (0, 0)
    ];
    let set = fill_boundary(alloc, &other)?;
    assert!(rt; set.rects() == [rect(10, 0, 30, 10), rect(0, 10, 30, 30)].as_slice());
    Ok(())
}

#[test]
fn line_without_area(rt: HostRuntime) -> Result<(), Fail> {
    let alloc = rt.alloc();
    let set = fill_boundary(alloc, &line![(3, 3), (3, 9), (3, 9), (3, 3)])?;
    assert!(rt; set.rects().len() == 0);
    Ok(())
}

#[test]
fn boxes(rt: HostRuntime) -> Result<(), Fail> {
    let alloc = rt.alloc();
    let set = fill_box(alloc, rect(5, 5, 7, 8))?;
    assert!(rt; set.rects() == [rect(5, 5, 7, 8)].as_slice());
    for r in [
        rect(5, 5, 5, 8),
        rect(5, 8, 7, 8),
        rect(7, 5, 5, 8),
        rect(2, 2, 2, 2),
    ] {
        let none = fill_box(alloc, r)?;
        assert!(rt; none.rects().len() == 0, "{r:?}");
    }
    Ok(())
}
