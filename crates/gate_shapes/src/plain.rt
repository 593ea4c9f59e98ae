//! What most gates are: one rectangle, with one rectangle of source or drain along the whole of each
//! of two opposite sides, over single rectangles of the conductors. Its form is told by coordinates.

ghost use Rattle.std.specs.Prelude.{◌≡◌, true, IfOk, IfSome};
ghost use Rattle.geo_base.specs.Near.{IsNearRect};
ghost use Rattle.rect_sets.specs.Near.{IsNearSet};
ghost use Rattle.gate_shapes.specs.Sets.{area_of, in_set};
ghost use Rattle.gate_shapes.specs.Plain.{beyond, corner, is_held, is_left, is_level, is_under};
ghost use Rattle.gate_shapes.specs.Plain.{is_upright, same_columns, same_rows};
ghost use Rattle.gate_shapes.specs.Plain.{IsPlainForm, LieOn};
ghost use Rattle.gate_shapes.specs.Shapes.{IsGood, sheets_of};

use crate::area::{area_of, plus};
use crate::border::Side;
use crate::shape::{Around, GateForm};
use geo_base::{Rect, Square};
use rect_sets::RectSet;
use std::alloc::AllocError;

fn same_rows(a: &Rect, b: &Rect) -> bool
    ensures { result ≡ same_rows a.now b.now }
{
    a.y1 == b.y1 && a.y2 == b.y2
}

fn same_columns(a: &Rect, b: &Rect) -> bool
    ensures { result ≡ same_columns a.now b.now }
{
    a.x1 == b.x1 && a.x2 == b.x2
}

fn is_left(a: &Rect, b: &Rect) -> bool
    ensures { result ≡ is_left a.now b.now }
{
    a.x2 == b.x1 && same_rows(a, b)
}

fn is_under(a: &Rect, b: &Rect) -> bool
    ensures { result ≡ is_under a.now b.now }
{
    a.y2 == b.y1 && same_columns(a, b)
}

fn is_level(one: &Rect, rect: &Rect, other: &Rect) -> bool
    ensures { result ≡ is_level one.now rect.now other.now }
{
    is_left(one, rect) && is_left(rect, other)
}

fn is_upright(one: &Rect, rect: &Rect, other: &Rect) -> bool
    ensures { result ≡ is_upright one.now rect.now other.now }
{
    is_under(one, rect) && is_under(rect, other)
}

// The squares beside a rectangle, along one of its sides.
fn beyond(rect: &Rect, side: Side) -> Rect
    requires { IsNearRect rect.now }
    ensures { result ≡ beyond side rect.now }
{
    match side {
        Side::Right => Rect {
            x1: rect.x2,
            y1: rect.y1,
            x2: rect.x2 + 1,
            y2: rect.y2,
        },
        Side::Up => Rect {
            x1: rect.x1,
            y1: rect.y2,
            x2: rect.x2,
            y2: rect.y2 + 1,
        },
        Side::Left => Rect {
            x1: rect.x1 - 1,
            y1: rect.y1,
            x2: rect.x1,
            y2: rect.y2,
        },
        Side::Down => Rect {
            x1: rect.x1,
            y1: rect.y1 - 1,
            x2: rect.x2,
            y2: rect.y1,
        },
    }
}

fn corner(rect: &Rect) -> Square
    ensures { result ≡ corner rect.now }
{
    Square {
        x: rect.x1,
        y: rect.y1,
    }
}

// Whether one rectangle of the set has all of this one.
fn is_held(rect: &Rect, set: &RectSet) -> bool
    ensures { result ≡ is_held rect.now set.now }
{
    set.rects().iter().any(|outer| rect.is_inside(outer))
}

// Whether a rectangle and its ends lie on their conductors, each in one rectangle there.
fn lie_on(rect: &Rect, source: &Rect, drain: &Rect, around: &Around) -> bool
    ensures { result ≡ true → LieOn rect.now source.now drain.now around.now.on_ends.now
        around.now.on_gate.now around.now.on_bulk.now around.now.loose }
{
    if !is_held(rect, around.on_gate) {
        return false;
    }
    if !is_held(source, around.on_ends) {
        return false;
    }
    if !is_held(drain, around.on_ends) {
        return false;
    }
    if around.loose {
        return is_held(rect, around.on_bulk);
    }
    true
}

// The form of a rectangle whose ends lie along two of its sides and along no other, where it is
// plain.
fn form_between(
    rect: &Rect,
    from: Side,
    to: Side,
    low: Side,
    high: Side,
    around: &Around,
) -> Result<Option<GateForm>, AllocError>
    requires { IsNearRect rect.now }
    ensures { IfOk result (λ o. IfSome o (IsPlainForm rect.now from to low high
        around.now.on_ends.now around.now.on_gate.now around.now.on_bulk.now around.now.loose)) }
{
    let source = beyond(rect, from);
    let drain = beyond(rect, to);
    if !lie_on(rect, &source, &drain, around) {
        return Ok(None);
    }
    let wide = plus(area_of(&source), area_of(&drain))?;
    let long = plus(area_of(&beyond(rect, low)), area_of(&beyond(rect, high)))?;
    Ok(Some(GateForm {
        twice_w: wide,
        twice_l: long,
        source: corner(&source),
        drain: corner(&drain),
    }))
}

/// The form of a part that is one rectangle between two, the only ones of source and drain that are
/// given, where all of these lie on their conductors by one rectangle each: then it is a good gate.
/// In O(n) for n rectangles of the conductors. It takes no memory; numbers past 2^128 are taken for
/// want of it.
pub fn plain_form(part: &RectSet, around: &Around) -> Result<Option<GateForm>, AllocError>
    requires { IsNearSet part.now }
    ensures { IfOk result (λ o. IfSome o (IsGood
        (sheets_of around.now.ends.now around.now.on_ends.now around.now.on_gate.now
        around.now.on_bulk.now around.now.loose) (in_set part.now))) }
{
    let [rect] = part.rects() else {
        return Ok(None);
    };
    let [one, other] = around.ends.rects() else {
        return Ok(None);
    };
    if is_level(one, rect, other) {
        return form_between(rect, Side::Left, Side::Right, Side::Down, Side::Up, around);
    }
    if is_upright(one, rect, other) {
        return form_between(rect, Side::Down, Side::Up, Side::Left, Side::Right, around);
    }
    Ok(None)
}
