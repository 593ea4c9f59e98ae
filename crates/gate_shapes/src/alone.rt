//! A part judged alone, as a device between two conductors.

ghost use Rattle.std.specs.Prelude.{◌≡◌, ◌↔◌, IfOk};
ghost use Rattle.geo_base.specs.declared.shapes.Square.{Square};
ghost use Rattle.rect_sets.specs.Near.{IsNearSet};
ghost use Rattle.flat_layout.specs.Parts.{Counts, IsBorderOf};
ghost use Rattle.gate_shapes.specs.Sets.{in_set};
ghost use Rattle.gate_shapes.specs.Shapes.{IsShapeAlone, TellsOff, sheets_alone};

use crate::area::{count, plus};
use crate::border::border_of;
use crate::shape::{GateForm, GateShape, first_square, is_on};
use flat_layout::GateCause;
use rect_sets::RectSet;
use std::alloc::{AllocError, Global};

/// The conductors by which a part alone is judged. Where an end has no global the part is free, and
/// its squares must lie on the ends' conductor; where the bulk has none it is loose, and they must
/// lie on the bulk's.
#[derive(Clone, Copy)]
pub struct Sheets<'a> {
    pub on_ends: &'a RectSet,
    pub on_bulk: &'a RectSet,
    pub free: bool,
    pub loose: bool,
}

// Whether a square lies outside where none may.
fn is_off(alloc: Global, asked: bool, part: &RectSet, other: &RectSet) -> Result<bool, AllocError>
    ensures { IfOk result (λ b. TellsOff asked part.now other.now b) }
{
    if !asked {
        return Ok(false);
    }
    let on = is_on(alloc, part, other)?;
    Ok(!on)
}

// How many boundary edges a part has: where it has no ends, each of them is a long one.
fn edges_of(alloc: Global, part: &RectSet) -> Result<u128, AllocError>
    requires { IsNearSet part.now }
    ensures { IfOk result (λ n. Counts (IsBorderOf (in_set part.now)) n) }
{
    let none = RectSet::empty(alloc);
    let border = border_of(alloc, part, &none)?;
    Ok(border.long)
}

/// The part as a device alone: its squares, twice its boundary edges, and its least square at both
/// ends; or its first fault: off the ends' conductor, and then off the bulk's. In O(n log n) for n
/// rectangles of the part and of both conductors there; no square is looked at alone. Numbers and
/// lists past their limits, 2^128 and 2^32, are taken for want of memory.
pub fn area_shape(alloc: Global, part: &RectSet, sheets: &Sheets) -> Result<GateShape, AllocError>
    requires near { IsNearSet part.now }
    requires some { (q : Square) × in_set part.now q }
    ensures { IfOk result (λ s. IsShapeAlone (sheets_alone sheets.now.on_ends.now
        sheets.now.on_bulk.now sheets.now.free sheets.now.loose) (in_set part.now) s) }
{
    if is_off(alloc, sheets.free, part, sheets.on_ends)? {
        return Ok(GateShape::Bad(GateCause::OffSd));
    }
    if is_off(alloc, sheets.loose, part, sheets.on_bulk)? {
        return Ok(GateShape::Bad(GateCause::NoBulk));
    }
    let squares = count(part)?;
    let edges = edges_of(alloc, part)?;
    let twice = plus(edges, edges)?;
    let least = first_square(part);
    Ok(GateShape::Good(GateForm {
        twice_w: squares,
        twice_l: twice,
        source: least,
        drain: least,
    }))
}
