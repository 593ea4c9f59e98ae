//! How many squares a set has.

ghost use Rattle.std.specs.Prelude.{◌≡◌, ◌+◌, ◌≤◌, ◌^◌, IfOk, OnErr};
ghost use Rattle.flat_layout.specs.Parts.{Counts};
ghost use Rattle.gate_shapes.specs.Sets.{in_set, area_of, area};

use geo_base::Rect;
use rect_sets::RectSet;
use std::alloc::AllocError;

/// How many squares the rectangle has.
pub fn area_of(rect: &Rect) -> u128
    ensures { result ≡ area_of rect.now }
{
    let width = rect.x2.abs_diff(rect.x1);
    let height = rect.y2.abs_diff(rect.y1);
    u128::from(width) * u128::from(height)
}

/// The sum; want of memory where it is 2^128 or more. Takes no memory.
pub fn plus(a: u128, b: u128) -> Result<u128, AllocError>
    ensures sum { IfOk result (λ n. n ≡ a + b) }
    ensures err { OnErr result (2 ^ 128 ≤ a + b) }
{
    match a.checked_add(b) {
        Some(sum) => Ok(sum),
        None => Err(AllocError),
    }
}

fn area(rects: &[Rect]) -> Result<u128, AllocError>
    ensures area { IfOk result (λ n. n ≡ area rects.now) }
    ensures err { OnErr result (2 ^ 128 ≤ area rects.now) }
{
    let mut sum: u128 = 0;
    for rect in rects {
        sum = plus(sum, area_of(rect))?;
    }
    Ok(sum)
}

/// How many squares the set has, in O(n) for n rectangles. It takes no memory; 2^128 squares, and
/// no fewer, are taken for want of it. No set has so many: its coordinates have 64 bits.
pub fn count(set: &RectSet) -> Result<u128, AllocError>
    ensures count { IfOk result (λ n. Counts (in_set set.now) n) }
    ensures err { OnErr result (2 ^ 128 ≤ area set.now) }
{
    let n = area(set.rects())?;
    Ok(n)
}
