//! A part as the gate of a transistor.

ghost use Rattle.std.specs.Prelude.{◌≡◌, ◌↔◌, ℕ, Bool, IfOk};
ghost use Rattle.geo_base.specs.declared.shapes.Square.{Square};
ghost use Rattle.rect_sets.specs.Near.{IsNearSet};
ghost use Rattle.gate_shapes.specs.Sets.{in_set};
ghost use Rattle.flat_layout.specs.Parts.{IsLeast};
ghost use Rattle.gate_shapes.specs.Shapes.{TellsOn, TellsMeet, AreKept, IsFirstFault, sheets_of};
ghost use Rattle.gate_shapes.specs.Shapes.{IsShape};

use crate::border::{border_of, sides_of};
use crate::pieces::{least, parts};
use crate::plain::plain_form;
use flat_layout::GateCause;
use geo_base::{Op, Rect, Square};
use rect_sets::{RectSet, combine_rects};
use std::alloc::{AllocError, Global};
use tile_index::TileIndex;

/// A good gate: its sizes in unit edges, and the least squares of its two groups. The source is the
/// group with the least square. Of a part alone it is the part's squares and twice its boundary
/// edges, and its least square twice.
#[derive(Clone, Copy, Debug, PartialEq, Eq)]
pub struct GateForm {
    pub twice_w: u128,
    pub twice_l: u128,
    pub source: Square,
    pub drain: Square,
}

#[derive(Clone, Copy, Debug, PartialEq, Eq)]
pub enum GateShape {
    Good(GateForm),
    Bad(GateCause),
}

pub fn is_on(alloc: Global, set: &RectSet, other: &RectSet) -> Result<bool, AllocError>
    ensures { IfOk result (λ b. TellsOn set.now other.now b) }
{
    let off = combine_rects(alloc, set.rects(), other.rects(), Op::Not)?;
    match least(&off) {
        Some(_) => Ok(false),
        None => Ok(true),
    }
}

pub fn first_square(set: &RectSet) -> Square
    requires { (q : Square) × in_set set.now q }
    ensures { IsLeast (in_set set.now) result }
{
    match least(set) {
        Some(square) => square,
        None => unreachable!(),
    }
}

// An index of the rectangles of a set.
fn index_of(alloc: Global, set: &RectSet) -> Result<TileIndex, AllocError>
    ensures { IfOk result (λ t. t ≡ set.now) }
{
    let reach = (1 << 31) - 1;
    let plane = Rect {
        x1: -reach,
        y1: -reach,
        x2: reach,
        y2: reach,
    };
    TileIndex::build(alloc, set.rects(), plane)
}

// In most cases the first rectangle tells.
fn meets(alloc: Global, set: &RectSet, other: &TileIndex) -> Result<bool, AllocError>
    ensures { IfOk result (λ b. TellsMeet set.now other.now b) }
{
    for rect in set.rects() {
        let near = other.query(alloc, *rect)?;
        if !near.is_empty() {
            return Ok(true);
        }
    }
    Ok(false)
}

// Those that have a square of the index, by their places.
fn kept_by(alloc: Global, groups: &[RectSet], touched: &TileIndex) -> Result<Vec<usize>, AllocError>
    ensures { IfOk result (λ v. AreKept groups.now touched.now v.items) }
{
    let mut kept = Vec::new(alloc);
    for (i, group) in groups.iter().enumerate() {
        if meets(alloc, group, touched)? {
            kept.push(i)?;
        }
    }
    Ok(kept)
}

// Those that have a touched square, by their places.
fn kept(alloc: Global, groups: &[RectSet], touched: &RectSet) -> Result<Vec<usize>, AllocError>
    ensures { IfOk result (λ v. AreKept groups.now touched.now v.items) }
{
    let index = index_of(alloc, touched)?;
    let places = kept_by(alloc, groups, &index)?;
    Ok(places)
}

/// The sets by which a part is judged: source and drain, and the conductors of the terminals. Where
/// the bulk has no global the gate is loose, and its squares must lie on the bulk's conductor.
#[derive(Clone, Copy)]
pub struct Around<'a> {
    pub ends: &'a RectSet,
    pub on_ends: &'a RectSet,
    pub on_gate: &'a RectSet,
    pub on_bulk: &'a RectSet,
    pub loose: bool,
}

// The first fault of a part with two groups.
fn first_fault(
    alloc: Global,
    part: &RectSet,
    source: &RectSet,
    drain: &RectSet,
    around: &Around,
    long: u128,
) -> Result<Option<GateCause>, AllocError>
    ensures { IfOk result (λ f. IsFirstFault
        (sheets_of around.now.ends.now around.now.on_ends.now around.now.on_gate.now
        around.now.on_bulk.now around.now.loose) part.now source.now drain.now long f) }
{
    if !is_on(alloc, part, around.on_gate)? {
        return Ok(Some(GateCause::OffGate));
    }
    if !is_on(alloc, source, around.on_ends)? {
        return Ok(Some(GateCause::OffSd));
    }
    if !is_on(alloc, drain, around.on_ends)? {
        return Ok(Some(GateCause::OffSd));
    }
    if around.loose {
        if !is_on(alloc, part, around.on_bulk)? {
            return Ok(Some(GateCause::NoBulk));
        }
    }
    if long == 0 {
        return Ok(Some(GateCause::NoLength));
    }
    Ok(None)
}

// The same of any part, by its border and its ring.
fn ring_shape(alloc: Global, part: &RectSet, around: &Around) -> Result<GateShape, AllocError>
    requires { IsNearSet part.now }
    ensures { IfOk result (λ s. IsShape
        (sheets_of around.now.ends.now around.now.on_ends.now around.now.on_gate.now
        around.now.on_bulk.now around.now.loose) (in_set part.now) s) }
{
    let border = border_of(alloc, part, around.ends)?;
    let sides = sides_of(alloc, part, around.ends)?;
    let groups = parts(alloc, &sides)?;
    let places = kept(alloc, &groups, &border.touched)?;
    if places.len() != 2 {
        return Ok(GateShape::Bad(GateCause::Groups(places.len() as u128)));
    }
    let one = &groups[places[0]];
    let other = &groups[places[1]];
    match first_fault(alloc, part, one, other, around, border.long)? {
        Some(cause) => Ok(GateShape::Bad(cause)),
        None => Ok(GateShape::Good(GateForm {
            twice_w: border.wide,
            twice_l: border.long,
            source: first_square(one),
            drain: first_square(other),
        })),
    }
}

/// The part as a gate: its sizes and the least squares of its two groups, or its first fault. Only
/// the squares of the part and of its ring count, so the sets around may be cut to the part's box
/// grown by one. In O(n log n) for n rectangles of the part and of the sets there, however many
/// groups they are; no square is looked at alone. One rectangle between two, as most gates are, is
/// told in O(n). 2^32 rectangles or more are taken for want of memory.
pub fn shape_of(alloc: Global, part: &RectSet, around: &Around) -> Result<GateShape, AllocError>
    requires { IsNearSet part.now }
    ensures { IfOk result (λ s. IsShape
        (sheets_of around.now.ends.now around.now.on_ends.now around.now.on_gate.now
        around.now.on_bulk.now around.now.loose) (in_set part.now) s) }
{
    match plain_form(part, around)? {
        Some(form) => Ok(GateShape::Good(form)),
        None => ring_shape(alloc, part, around),
    }
}
