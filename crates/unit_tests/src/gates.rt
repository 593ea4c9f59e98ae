//! Small gates with their sizes or faults, parts of sets, and parts gathered from seeds.

use crate::common::{near_part, set_of};
use gate_search::{Whole, gather_around};
use gate_shapes::{Around, GateCause, GateForm, GateShape, corner_parts, least, parts, shape_of};
use geo_base::{Op, Rect, Square};
use rect_sets::RectSet;
use std::alloc::{AllocError, Global};
use std::test::Fail;

fn rect(x1: i64, y1: i64, x2: i64, y2: i64) -> Rect {
    Rect { x1, y1, x2, y2 }
}

// The gates of active and poly, with a global bulk.
fn judged(alloc: Global, active: &[Rect], poly: &[Rect]) -> Result<Vec<GateShape>, AllocError> {
    let active = set_of(alloc, active)?;
    let poly = set_of(alloc, poly)?;
    let gate = active.combined(alloc, &poly, Op::And)?;
    let sd = active.combined(alloc, &poly, Op::Not)?;
    let none = RectSet::empty(alloc);
    let around = Around {
        ends: &sd,
        on_ends: &sd,
        on_gate: &poly,
        on_bulk: &none,
        loose: false,
    };
    let mut out = Vec::new(alloc);
    let found = parts(alloc, &gate)?;
    for part in &found {
        let near = near_part(alloc, part)?;
        out.push(shape_of(alloc, &near, &around)?)?;
    }
    Ok(out)
}

fn good(twice_w: u128, twice_l: u128, source: Square, drain: Square) -> GateShape {
    GateShape::Good(GateForm {
        twice_w,
        twice_l,
        source,
        drain,
    })
}

#[test]
fn a_transistor(rt: HostRuntime) -> Result<(), Fail> {
    let alloc = rt.alloc();
    let found = judged(
        alloc,
        &[rect(0, 0, 1250, 1500)],
        &[rect(500, -100, 750, 1600)],
    )?;
    let want = good(3000, 500, Square { x: 499, y: 0 }, Square { x: 750, y: 0 });
    assert!(rt; found.as_slice() == [want].as_slice());
    Ok(())
}

#[test]
fn one_group(rt: HostRuntime) -> Result<(), Fail> {
    let alloc = rt.alloc();
    let found = judged(alloc, &[rect(0, 0, 30, 30)], &[rect(10, -5, 20, 15)])?;
    assert!(rt; found.as_slice() == [GateShape::Bad(GateCause::Groups(1))].as_slice());
    Ok(())
}

#[test]
fn a_closed_ring(rt: HostRuntime) -> Result<(), Fail> {
    let alloc = rt.alloc();
    let ring = [
        rect(10, 10, 40, 20),
        rect(10, 30, 40, 40),
        rect(10, 20, 20, 30),
        rect(30, 20, 40, 30),
    ];
    let found = judged(alloc, &[rect(0, 0, 50, 50)], &ring)?;
    assert!(rt; found.as_slice() == [GateShape::Bad(GateCause::NoLength)].as_slice());
    Ok(())
}

// A gate of 2^79 squares, more than 64 bits count.
#[test]
fn a_large_gate(rt: HostRuntime) -> Result<(), Fail> {
    let alloc = rt.alloc();
    let (side, top) = (1 << 39, 1 << 40);
    let found = judged(
        alloc,
        &[rect(-top, 0, top, top)],
        &[rect(0, -1, side, top + 1)],
    )?;
    let want = good(
        1 << 41,
        1 << 40,
        Square { x: -1, y: 0 },
        Square { x: side, y: 0 },
    );
    assert!(rt; found.as_slice() == [want].as_slice());
    Ok(())
}

// But for those of regions.
#[test]
fn corners_do_not_join(rt: HostRuntime) -> Result<(), Fail> {
    let alloc = rt.alloc();
    let set = set_of(
        alloc,
        &[
            rect(0, 0, 2, 2),
            rect(2, 2, 4, 4),
            rect(4, 3, 6, 9),
            rect(-3, 1, 0, 2),
        ],
    )?;
    let found = parts(alloc, &set)?;
    assert!(rt; found.len() == 2);
    for (part, want) in found
        .iter()
        .zip([Square { x: 0, y: 0 }, Square { x: 2, y: 2 }])
    {
        assert!(rt; least(part) == Some(want));
    }
    let regions = corner_parts(alloc, &set)?;
    assert!(rt; regions.len() == 1);
    Ok(())
}

// Only the parts that touch a seed are found, whole.
#[test]
fn seeds_gather_whole_parts(rt: HostRuntime) -> Result<(), Fail> {
    let alloc = rt.alloc();
    let chain = [
        rect(0, 0, 10, 10),
        rect(4, 10, 30, 14),
        rect(28, 14, 29, 40),
        rect(40, 0, 50, 10),
        rect(-20, 0, -10, 10),
    ];
    let all = set_of(alloc, &chain)?;
    let layer = Whole {
        set: near_part(alloc, &all)?,
    };
    for (seed, want) in [
        (rect(50, 10, 51, 11), [rect(40, 0, 50, 10)].as_slice()),
        (
            rect(29, 40, 30, 41),
            [
                rect(0, 0, 10, 10),
                rect(4, 10, 30, 14),
                rect(28, 14, 29, 40),
            ]
            .as_slice(),
        ),
        (rect(52, 0, 53, 10), [].as_slice()),
    ] {
        let seeds = set_of(alloc, &[seed])?;
        let near = near_part(alloc, &seeds)?;
        let found = gather_around(alloc, &layer, &near)?;
        assert!(rt; found.rects() == want);
    }
    Ok(())
}

// A part of 255 steps is found whole from its end.
#[test]
fn seeds_gather_long_parts(rt: HostRuntime) -> Result<(), Fail> {
    let alloc = rt.alloc();
    let mut steps = Vec::new(alloc);
    for step in 0..255u8 {
        let y = i64::from(step);
        steps.push(rect(2 * y, y, 2 * y + 3, y + 1))?;
    }
    let all = set_of(alloc, &steps)?;
    let layer = Whole {
        set: near_part(alloc, &all)?,
    };
    let seeds = set_of(alloc, &[rect(0, -1, 1, 0)])?;
    let near = near_part(alloc, &seeds)?;
    let found = gather_around(alloc, &layer, &near)?;
    assert!(rt; found.rects() == all.rects());
    Ok(())
}
