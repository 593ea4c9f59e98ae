//! The regions of a cell's own for a device rule.
ghost use Rattle.std.specs.Prelude.{◌≡◌, ◌↔◌, ◌^◌, ◌++◌, true, IfOk, OnOk};
ghost use Rattle.std.specs.List.{All};
ghost use Rattle.geo_base.specs.Rects.{has};
ghost use Rattle.rect_sets.specs.Near.{IsNearSet};
ghost use Rattle.flat_layout.specs.Gates.{Rule};
ghost use Rattle.flat_layout.specs.Parts.{IsLeast};
ghost use Rattle.cell_graph.specs.Linked.{IsRectWithin};
ghost use Rattle.gate_shapes.specs.Sets.{in_set};
ghost use Rattle.gate_phase.specs.Own.{AddsPart, AreOwnGates, IsHeldPart, IsKeptPart, IsOwnOr};
ghost use Rattle.gate_phase.specs.Own.{IsUnitNear, TellsOwn, gates_in, unit_window};
ghost use Rattle.gate_phase.specs.Site.{HasRule, IsReadyDevice, IsToldAt, layout_at, wiring_at};

use crate::below::is_below;
use crate::close::{close_to, is_mine, is_undisturbed};
use crate::search::parts_of;
use crate::shape::shape_in;
use crate::site::DeviceSite;
use gate_shapes::{GateShape, least};
use geo_base::{Rect, Square};
use rect_sets::RectSet;
use std::alloc::{AllocError, Global};

/// A region of a cell's own: its squares, the first of these by y, then x, and its shape.
#[derive(Drop)]
pub struct OwnGate {
    pub area: RectSet,
    pub least: Square,
    pub shape: GateShape,
}

/// A square as a window.
pub fn unit(square: Square) -> Rect
    requires { IsUnitNear square }
    ensures exact { result ≡ unit_window square }
    ensures has { has result square ≡ true }
    ensures near { IsRectWithin (2 ^ 39) result }
{
    Rect {
        x1: square.x,
        y1: square.y,
        x2: square.x + 1,
        y2: square.y + 1,
    }
}

// Whether the cell leaves nothing within reach of what is close to a part, and others can't make all
// of it.
fn is_kept(
    alloc: Global,
    at: &DeviceSite,
    part: &RectSet,
    close: &RectSet,
) -> Result<bool, AllocError>
    requires ready { IsReadyDevice at.now }
    requires windows { All (IsRectWithin (2 ^ 39)) close.now }
    ensures { IfOk result (λ b. (b ≡ true) ↔ IsKeptPart at.now.reach at.now.site.zones.now
        at.now.site.cell at.now.number part.now close.now) }
{
    at.site.design.sound();
    if !is_undisturbed(alloc, at, close)? {
        return Ok(false);
    }
    let lone = at.site.zones.lone(at.site.cell, at.number);
    is_mine(alloc, part, lone)
}

// Whether a part is a settled gate that doesn't come from below.
fn is_own(
    alloc: Global,
    at: &DeviceSite,
    part: &RectSet,
    close: &RectSet,
    least: Square,
) -> Result<bool, AllocError>
    requires ready { IsReadyDevice at.now }
    requires part { IsNearSet part.now }
    requires near { IsNearSet close.now }
    requires windows { All (IsRectWithin (2 ^ 39)) close.now }
    requires least { IsUnitNear least }
    ensures { IfOk result (TellsOwn at.now.reach at.now.site.design.now at.now.site.zones.now
        at.now.site.cell at.now.number part.now close.now least) }
{
    if !is_kept(alloc, at, part, close)? {
        return Ok(false);
    }
    let start = unit(least);
    let below = is_below(alloc, at, part, close, &start)?;
    Ok(!below)
}

// The gate that a part is, where it is one of the cell's own.
fn own_gate(
    alloc: Global,
    at: &DeviceSite,
    part: RectSet,
    least: Square,
) -> Result<Option<OwnGate>, AllocError>
    requires ready { IsReadyDevice at.now }
    requires held { IsHeldPart at.now.reach at.now.site.design.now at.now.site.cell part }
    requires least { IsLeast (in_set part) least }
    ensures { IfOk result (λ o. (u : Rule) → HasRule at.now u → IsToldAt at.now.site u part
        → IsOwnOr (layout_at at.now.site) (wiring_at at.now.site) u at.now.site.cell part least
        o) }
{
    at.site.design.sound();
    let close = close_to(alloc, &part)?;
    if !is_own(alloc, at, &part, &close, least)? {
        return Ok(None);
    }
    let shape = shape_in(alloc, &at.site, &at.device, &part, &close)?;
    Ok(Some(OwnGate {
        area: part,
        least,
        shape,
    }))
}

// Adds a gate, if there is one.
fn push_gate(gates: &mut Vec<OwnGate>, gate: Option<OwnGate>) -> Result<(), AllocError>
    ensures { OnOk result (gates.new.items ≡ gates.old.items ++ gates_in gate) }
{
    if let Some(gate) = gate {
        gates.push(gate)?;
    }
    Ok(())
}

// Adds the gate that a part is, where it is one of the cell's own.
fn push_part(
    alloc: Global,
    gates: &mut Vec<OwnGate>,
    at: &DeviceSite,
    part: RectSet,
) -> Result<(), AllocError>
    requires ready { IsReadyDevice at.now }
    requires held { IsHeldPart at.now.reach at.now.site.design.now at.now.site.cell part }
    ensures { OnOk result ((u : Rule) → HasRule at.now u → IsToldAt at.now.site u part
        → AddsPart (layout_at at.now.site) (wiring_at at.now.site) u at.now.site.cell part
        gates.old.items gates.new.items) }
{
    match least(&part) {
        Some(first) => {
            let gate = own_gate(alloc, at, part, first)?;
            push_gate(gates, gate)
        }
        None => Ok(()),
    }
}

/// The gates of a cell's own for a device rule, in order of their least squares, each with its
/// shape. What placed cells hold themselves isn't looked at but where something of this cell, or
/// something that a placed cell leaves, lies beside it.
pub fn own_gates(alloc: Global, at: &DeviceSite) -> Result<Vec<OwnGate>, AllocError>
    requires ready { IsReadyDevice at.now }
    ensures { IfOk result (λ v. (u : Rule) → HasRule at.now u
        → AreOwnGates (layout_at at.now.site) (wiring_at at.now.site) u at.now.site.cell v.items) }
{
    at.site.design.sound();
    let mut gates = Vec::new(alloc);
    let parts = parts_of(alloc, at)?;
    for part in parts {
        push_part(alloc, &mut gates, at, part)?;
    }
    Ok(gates)
}
