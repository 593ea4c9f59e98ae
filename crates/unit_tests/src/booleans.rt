//! Booleans of sets, and the sets themselves.

use crate::common::set_of;
use geo_base::{Op, Rect, Square};
use rect_sets::RectSet;
use std::alloc::{AllocError, Global};
use std::test::Fail;

macro_rules! rect {
    ($x1:expr, $y1:expr, $x2:expr, $y2:expr) => {
        Rect {
            x1: $x1,
            y1: $y1,
            x2: $x2,
            y2: $y2,
        }
    };
}

/// An operator, and what it makes of two squares that overlap.
static OVERLAPS: [(Op, &[Rect]); 4] = [
    (Op::And, &[rect!(5, 5, 10, 10)]),
    (
        Op::Or,
        &[
            rect!(0, 0, 10, 5),
            rect!(0, 5, 15, 10),
            rect!(5, 10, 15, 15),
        ],
    ),
    (Op::Not, &[rect!(0, 0, 10, 5), rect!(0, 5, 5, 10)]),
    (
        Op::Xor,
        &[
            rect!(0, 0, 10, 5),
            rect!(0, 5, 5, 10),
            rect!(10, 5, 15, 10),
            rect!(5, 10, 15, 15),
        ],
    ),
];

#[test]
fn two_squares_that_overlap(rt: HostRuntime) -> Result<(), Fail> {
    let alloc = rt.alloc();
    let a = set_of(alloc, &[rect!(0, 0, 10, 10)])?;
    let b = set_of(alloc, &[rect!(5, 5, 15, 15)])?;
    for (op, want) in &OVERLAPS {
        let set = a.combined(alloc, &b, *op)?;
        assert!(rt; set.rects() == *want, "{op:?}");
    }
    Ok(())
}

// Bars of width 1 with gaps of 1: upright or level.
fn bars(alloc: Global, count: u8, length: i64, upright: bool) -> Result<Vec<Rect>, AllocError> {
    let mut out = Vec::new(alloc);
    for i in 0..count {
        let at = i64::from(i) * 2;
        let bar = if upright {
            rect!(at, 0, at + 1, length)
        } else {
            rect!(0, at, length, at + 1)
        };
        out.push(bar)?;
    }
    Ok(out)
}

// A comb of 100 teeth, upright or level, and its back.
fn comb(alloc: Global, upright: bool, back: Rect) -> Result<RectSet, AllocError> {
    let mut teeth = bars(alloc, 100, 200, upright)?;
    teeth.push(back)?;
    set_of(alloc, &teeth)
}

// The squares in which the teeth of two combs cross.
fn crossings(alloc: Global) -> Result<Vec<Rect>, AllocError> {
    let mut squares = Vec::new(alloc);
    for j in 0..100u8 {
        for i in 0..100u8 {
            let x = i64::from(i) * 2;
            let y = i64::from(j) * 2;
            squares.push(rect!(x, y, x + 1, y + 1))?;
        }
    }
    Ok(squares)
}

#[test]
fn comb_over_comb(rt: HostRuntime) -> Result<(), Fail> {
    let alloc = rt.alloc();
    let a = comb(alloc, true, rect!(0, -1, 200, 0))?;
    let b = comb(alloc, false, rect!(-1, 0, 0, 200))?;
    let both = a.combined(alloc, &b, Op::And)?;
    assert!(rt; both.rects() == crossings(alloc)?.as_slice());
    Ok(())
}

// The squares of one colour.
fn board(alloc: Global) -> Result<Vec<Rect>, AllocError> {
    let mut squares = Vec::new(alloc);
    for y in 0..64u8 {
        for x in 0..64u8 {
            if x % 2 != y % 2 {
                let (left, low) = (i64::from(x), i64::from(y));
                squares.push(rect!(left, low, left + 1, low + 1))?;
            }
        }
    }
    Ok(squares)
}

// The set of 32 bars.
fn grid(alloc: Global, upright: bool) -> Result<RectSet, AllocError> {
    set_of(alloc, &bars(alloc, 32, 64, upright)?)
}

#[test]
fn checkerboard(rt: HostRuntime) -> Result<(), Fail> {
    let alloc = rt.alloc();
    let one = grid(alloc, true)?.combined(alloc, &grid(alloc, false)?, Op::Xor)?;
    assert!(rt; one.rects() == board(alloc)?.as_slice());
    let whole = one.combined(alloc, &set_of(alloc, &[rect!(0, 0, 64, 64)])?, Op::Or)?;
    assert!(rt; whole.rects() == [rect!(0, 0, 64, 64)].as_slice());
    Ok(())
}

// The next number of a plain random sequence, and a number below 64 from it.
fn next_random(state: u64) -> u64 {
    state
        .wrapping_mul(6364136223846793005)
        .wrapping_add(1442695040888963407)
}

fn random_rects(alloc: Global, count: u32, seed: u64) -> Result<Vec<Rect>, AllocError> {
    let mut out = Vec::new(alloc);
    let mut state = seed;
    for _ in 0..count {
        state = next_random(state);
        let x1 = i64::from(((state >> 40) % 64) as u8);
        let y1 = i64::from(((state >> 48) % 64) as u8);
        let width = i64::from(((state >> 32) % 8) as u8);
        let height = i64::from(((state >> 56) % 8) as u8);
        out.push(rect!(x1, y1, x1 + width, y1 + height))?;
    }
    Ok(out)
}

// Whether one of the rectangles has the square, found by looking at each.
fn is_in(rects: &[Rect], s: Square) -> bool {
    for rect in rects {
        if rect.x1 <= s.x && s.x < rect.x2 && rect.y1 <= s.y && s.y < rect.y2 {
            return true;
        }
    }
    false
}

// Whether an operator holds of a square, by whether it is in the first set and in the second.
fn holds(op: Op, first: bool, second: bool) -> bool {
    match op {
        Op::And => first && second,
        Op::Or => first || second,
        Op::Not => first && !second,
        Op::Xor => first != second,
    }
}

// Whether an operator on these rectangles gives the right squares, looked at one by one.
fn is_right(alloc: Global, op: Op, first: &[Rect], second: &[Rect]) -> Result<bool, AllocError> {
    let made = set_of(alloc, first)?.combined(alloc, &set_of(alloc, second)?, op)?;
    for i in 0..74u8 {
        for j in 0..74u8 {
            let s = Square {
                x: i64::from(i) - 1,
                y: i64::from(j) - 1,
            };
            if made.contains(s) != holds(op, is_in(first, s), is_in(second, s)) {
                return Ok(false);
            }
        }
    }
    Ok(true)
}

#[test]
fn random_sets_square_by_square(rt: HostRuntime) -> Result<(), Fail> {
    let alloc = rt.alloc();
    for (count, seed) in [(5u32, 1u64), (40, 2), (400, 3)] {
        let first = random_rects(alloc, count, seed)?;
        let second = random_rects(alloc, count, seed + 100)?;
        for op in [Op::And, Op::Or, Op::Not, Op::Xor] {
            assert!(rt;
                is_right(alloc, op, &first, &second)?,
                "{op:?}, {count} rectangles"
            );
        }
    }
    Ok(())
}

// 40,000 rectangles on top of one another with gaps between them: no row crosses two, so that all
// 80,000 edges are swept at once.
#[test]
fn one_sweep_of_many(rt: HostRuntime) -> Result<(), Fail> {
    let alloc = rt.alloc();
    let mut stack = Vec::new(alloc);
    for k in 0..40_000u16 {
        let y = i64::from(k) * 2;
        stack.push(rect!(0, y, 10, y + 1))?;
    }
    let set = set_of(alloc, &stack)?;
    assert!(rt; set.rects() == stack.as_slice());
    Ok(())
}
