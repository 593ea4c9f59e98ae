//! Rectangles cut into parts by lines, and those that touch one.

ghost use Rattle.std.specs.Prelude.{◌≡◌, ℕ, ◌+◌, ◌<◌, ◌++◌, length, OnOk, [], ◌∷◌};
ghost use Rattle.std.specs.List.{All};
ghost use Rattle.geo_base.specs.Rects.{IsRect};
ghost use Rattle.rect_sets.specs.Divided.{low_end, low_part, high_part, begins_before, ends_after};
ghost use Rattle.rect_sets.specs.Divided.{lows, touches, kept, cut_off};
ghost use Rattle.rect_sets.specs.Stripes.{lists_of, list_at, only, AreRising, ArePassed, AreAdded};

use crate::cuts::{Axis, Cut, Lines};
use geo_base::Rect;
use std::alloc::AllocError;

fn low_end(rect: &Rect, axis: Axis) -> i64
    ensures { result ≡ low_end axis rect.now }
{
    match axis {
        Axis::X => rect.x1,
        Axis::Y => rect.y1,
    }
}

fn begins_before(rect: &Rect, cut: &Cut) -> bool
    ensures { result ≡ begins_before cut.now rect.now }
{
    match cut.axis {
        Axis::X => rect.x1 < cut.at,
        Axis::Y => rect.y1 < cut.at,
    }
}

fn ends_after(rect: &Rect, cut: &Cut) -> bool
    ensures { result ≡ ends_after cut.now rect.now }
{
    match cut.axis {
        Axis::X => cut.at < rect.x2,
        Axis::Y => cut.at < rect.y2,
    }
}

fn touches(rect: &Rect, cut: &Cut) -> bool
    ensures { result ≡ touches cut.now rect.now }
{
    match cut.axis {
        Axis::X => rect.x1 == cut.at || rect.x2 == cut.at,
        Axis::Y => rect.y1 == cut.at || rect.y2 == cut.at,
    }
}

fn low_part(rect: &Rect, cut: &Cut) -> Rect
    ensures { result ≡ low_part cut.now rect.now }
{
    let mut part = *rect;
    match cut.axis {
        Axis::X => part.x2 = if cut.at < rect.x2 { cut.at } else { rect.x2 },
        Axis::Y => part.y2 = if cut.at < rect.y2 { cut.at } else { rect.y2 },
    }
    part
}

fn high_part(rect: &Rect, cut: &Cut) -> Rect
    ensures { result ≡ high_part cut.now rect.now }
{
    let mut part = *rect;
    match cut.axis {
        Axis::X => part.x1 = if rect.x1 < cut.at { cut.at } else { rect.x1 },
        Axis::Y => part.y1 = if rect.y1 < cut.at { cut.at } else { rect.y1 },
    }
    part
}

// Adds a rectangle to one of some lists.
fn push_at(parts: &mut Vec<Vec<Rect>>, i: usize, rect: Rect) -> Result<(), AllocError>
    requires { i < length (lists_of parts.old.items) }
    ensures count { OnOk result (length (lists_of parts.new.items)
        ≡ length (lists_of parts.old.items)) }
    ensures lists { OnOk result ((j : ℕ) → list_at parts.new.items j
        ≡ list_at parts.old.items j ++ only i (rect ∷ []) j) }
{
    parts[i].push(rect)?;
    Ok(())
}

// How many of the first lines are no further up than x: those before the one that is guessed.
fn passed_lines(lines: &Lines, x: i64) -> usize
    requires { AreRising lines.now.at.items }
    ensures { ArePassed x result lines.now.at.items }
{
    let guess = lines.stripe_of(x);
    if 0 < guess && guess <= lines.at.len() && lines.at[guess - 1] <= x {
        guess
    } else {
        0
    }
}

// Adds the part of a rectangle below a line.
fn push_low(parts: &mut Vec<Vec<Rect>>, i: usize, rect: &Rect, cut: &Cut) -> Result<(), AllocError>
    requires { i < length (lists_of parts.old.items) }
    ensures count { OnOk result (length (lists_of parts.new.items)
        ≡ length (lists_of parts.old.items)) }
    ensures lists { OnOk result ((j : ℕ) → list_at parts.new.items j
        ≡ list_at parts.old.items j ++ only i (lows cut.now (rect.now ∷ [])) j) }
{
    if begins_before(rect, cut) {
        push_at(parts, i, low_part(rect, cut))?;
    }
    Ok(())
}

// Adds the parts of a rectangle to the stripes that it reaches into.
fn push_parts(rect: &Rect, lines: &Lines, parts: &mut Vec<Vec<Rect>>) -> Result<(), AllocError>
    requires rect { IsRect rect.now }
    requires lines { AreRising lines.now.at.items }
    requires count { length (lists_of parts.old.items) ≡ length lines.now.at.items + 1 }
    ensures count { OnOk result (length (lists_of parts.new.items)
        ≡ length (lists_of parts.old.items)) }
    ensures lists { OnOk result (AreAdded lines.now parts.old.items parts.new.items
        (rect.now ∷ [])) }
{
    let mut i = passed_lines(lines, low_end(rect, lines.axis));
    let mut rest = *rect;
    while i < lines.at.len() {
        let cut = lines.line(i);
        push_low(parts, i, &rest, &cut)?;
        if !ends_after(&rest, &cut) {
            return Ok(());
        }
        rest = high_part(&rest, &cut);
        i += 1;
    }
    push_at(parts, i, rest)?;
    Ok(())
}

/// Adds the parts of rectangles in each stripe to its list. Linear in the number of parts.
pub fn split(rects: &[Rect], lines: &Lines, parts: &mut Vec<Vec<Rect>>) -> Result<(), AllocError>
    requires rects { All IsRect rects.now }
    requires lines { AreRising lines.now.at.items }
    requires count { length (lists_of parts.old.items) ≡ length lines.now.at.items + 1 }
    ensures count { OnOk result (length (lists_of parts.new.items)
        ≡ length (lists_of parts.old.items)) }
    ensures lists { OnOk result (AreAdded lines.now parts.old.items parts.new.items rects.now) }
{
    for rect in rects {
        push_parts(rect, lines, parts)?;
    }
    Ok(())
}

fn push_kept(out: &mut Vec<Rect>, rect: &Rect, cut: &Cut) -> Result<(), AllocError>
    ensures { OnOk result (out.new.items ≡ out.old.items ++ kept cut.now (rect.now ∷ [])) }
{
    if !touches(rect, cut) {
        out.push(*rect)?;
    }
    Ok(())
}

fn push_cut_off(out: &mut Vec<Rect>, rect: &Rect, cut: &Cut) -> Result<(), AllocError>
    ensures { OnOk result (out.new.items ≡ out.old.items ++ cut_off cut.now (rect.now ∷ [])) }
{
    if touches(rect, cut) {
        out.push(*rect)?;
    }
    Ok(())
}

/// Sorts out those that touch the cut. Linear.
pub fn sort_out(
    rects: &[Rect],
    cut: &Cut,
    done: &mut Vec<Rect>,
    rest: &mut Vec<Rect>,
) -> Result<(), AllocError>
    ensures done { OnOk result (done.new.items ≡ done.old.items ++ kept cut.now rects.now) }
    ensures rest { OnOk result (rest.new.items ≡ rest.old.items ++ cut_off cut.now rects.now) }
{
    for rect in rects {
        push_kept(done, rect, cut)?;
        push_cut_off(rest, rect, cut)?;
    }
    Ok(())
}
