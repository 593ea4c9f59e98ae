//! Numbers, and which coordinates are small enough.

ghost use Rattle.std.specs.Prelude.{◌≡◌, ◌↔◌, ◌++◌, IsTrue, OnOk};
ghost use Rattle.std.specs.Fmt.{signed_decimal};
ghost use Rattle.view_words.specs.Numbers.{IsSmall, IsSmallRect, pair_text};

use geo_base::Rect;
use std::alloc::{AllocError, Global};

const FARTHEST: i64 = (1 << 30) - 1;

/// Appends the digits of a number, behind a minus if it is negative.
pub fn push_number(alloc: Global, out: &mut Vec<u8>, n: i64) -> Result<(), AllocError>
    ensures { OnOk result (out.new.items ≡ out.old.items ++ signed_decimal n) }
{
    let digits = n.to_string(alloc)?.into_bytes();
    out.extend_from_slice(&digits)
}

/// Appends two numbers in brackets.
pub fn push_pair(alloc: Global, out: &mut Vec<u8>, x: i64, y: i64) -> Result<(), AllocError>
    ensures { OnOk result (out.new.items ≡ out.old.items ++ pair_text x y) }
{
    out.push(b'(')?;
    push_number(alloc, out, x)?;
    out.push(b' ')?;
    push_number(alloc, out, y)?;
    out.push(b')')?;
    Ok(())
}

fn is_small(n: i64) -> bool
    ensures { IsTrue result ↔ IsSmall n }
{
    -FARTHEST <= n && n <= FARTHEST
}

/// Whether all four sides are less than 2^30 from the origin, so that each step between such
/// rectangles is a number that the reader takes.
pub fn is_small_rect(r: &Rect) -> bool
    ensures { IsTrue result ↔ IsSmallRect r.now }
{
    if !is_small(r.x1) {
        return false;
    }
    if !is_small(r.y1) {
        return false;
    }
    if !is_small(r.x2) {
        return false;
    }
    is_small(r.y2)
}
