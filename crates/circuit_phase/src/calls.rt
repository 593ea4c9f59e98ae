//! The calls of the circuits of placed cells.
ghost use Rattle.std.specs.Prelude.{◌≡◌, ◌<◌, ◌≤◌, ◌+◌, ◌^◌, ℕ, length, map, get_or, IfOk, OnOk};
ghost use Rattle.deep_tables.specs.Nets.{plain_item, plain_nets};
ghost use Rattle.deep_tables.specs.Pins.{plain_pins};
ghost use Rattle.flat_layout.specs.Circuits.{pin_nets};
ghost use Rattle.flat_layout.specs.Layout.{Place, IsPlaced};
ghost use Rattle.net_model.specs.Rows.{plain_call};
ghost use Rattle.circuit_phase.specs.Calls.{AddsCall, AreCallsTo, is_own, own_count};
ghost use Rattle.circuit_phase.specs.Numbering.{AreNumbersOf};
ghost use Rattle.circuit_phase.specs.Placed.{AreNetsOver, placed_cells};

use crate::drawn::pin_nets;
use crate::numbering::{Numbering, number_nets};
use crate::placed::Placed;
use deep_tables::{CellNets, CellPins, Item};
use list_base::number;
use net_model::CallRow;
use std::alloc::{AllocError, Global};

fn is_own(item: &Item) -> bool
    ensures { result ≡ is_own (plain_item item.now) }
{
    match *item {
        Item::Own { .. } => true,
        _ => false,
    }
}

// How many of the first items are rectangles of the cell itself.
fn own_count(items: &[Item]) -> usize
    ensures { result ≡ own_count (map plain_item items.now) }
{
    for i in 0..items.len() {
        if !is_own(&items[i]) {
            return i;
        }
    }
    items.len()
}

// The nets that stand at these places, counted from start.
fn nets_at(
    alloc: Global,
    nets: &[u32],
    start: usize,
    places: &[u32],
) -> Result<Vec<u32>, AllocError>
    requires { (i : ℕ) → i < length places.now → start + get_or places.now i 0 < length nets.now }
    ensures { IfOk result (λ v. v.items ≡ map (λ b. get_or nets.now (start + b) 0) places.now) }
{
    let mut out = Vec::with_capacity(alloc, places.len())?;
    for place in places {
        out.push(nets[start + *place as usize])?;
    }
    Ok(out)
}

// The numbers of the nets at a placed cell's drawn pins: its nets stand from start on. A cell with
// 2^32 nets is refused.
fn call_nets(
    alloc: Global,
    pins: &CellPins,
    drawn: &[bool],
    nets: &[u32],
    start: usize,
    numbering: &mut Numbering,
) -> Result<Vec<u32>, AllocError>
    requires count { length pins.now.pin.items ≡ length drawn.now }
    requires long { start + length drawn.now ≤ length nets.now }
    requires within { (i : ℕ) → i < length nets.now → get_or nets.now i 0 < numbering.old.count }
    ensures count { OnOk result (numbering.new.count ≡ numbering.old.count) }
    ensures numbers { IfOk result (λ v. AreNumbersOf numbering.old.nets numbering.new.nets
        (map (λ b. get_or nets.now (start + b) 0) (pin_nets (plain_pins pins.now) drawn.now))
        v.items) }
{
    number(drawn.len())?;
    let inner = pin_nets(alloc, pins, drawn)?;
    let outer = nets_at(alloc, nets, start, &inner)?;
    number_nets(alloc, &outer, numbering)
}

// Adds the call of a placed cell where it has a circuit.
fn push_call<P: Placed>(
    alloc: Global,
    placed: &P,
    child: u32,
    nets: &[u32],
    start: usize,
    numbering: &mut Numbering,
    rows: &mut Vec<CallRow>,
) -> Result<(), AllocError>
    requires may { P.may_read placed.now child }
    requires long { start + (P.nets placed.now child).count ≤ length nets.now }
    requires within { (i : ℕ) → i < length nets.now → get_or nets.now i 0 < numbering.old.count }
    ensures count { OnOk result (numbering.new.count ≡ numbering.old.count) }
    ensures calls { OnOk result (AddsCall (P.circuits placed.now) child
        (pin_nets (P.pins placed.now child) (P.drawn placed.now child)) nets.now start
        numbering.old.nets numbering.new.nets
        (map plain_call rows.old.items) (map plain_call rows.new.items)) }
{
    if let Some(circuit) = placed.circuit(child) {
        let pins = placed.pins(child);
        let drawn = placed.drawn(child);
        let on = call_nets(alloc, pins, drawn, nets, start, numbering)?;
        rows.push(CallRow { circuit, nets: on })?;
    }
    Ok(())
}

/// The calls of the placed cells that have circuits, in the order of the placements. Linear in the
/// placements and in the nets of their cells.
pub fn call_rows<P: Placed>(
    alloc: Global,
    placed: &P,
    cell: u32,
    cells: &[u32],
    nets: &CellNets,
    numbering: &mut Numbering,
) -> Result<Vec<CallRow>, AllocError>
    requires nets { P.nets placed.now cell ≡ plain_nets nets.now }
    requires right { AreNetsOver (P.design placed.now) (P.wiring placed.now) (P.nets placed.now)
        cell (plain_nets nets.now) }
    requires cells { cells.now ≡ placed_cells (P.design placed.now) cell }
    requires readable { (k : ℕ) (p : Place) → IsPlaced (P.design placed.now) cell k p
        → P.may_read placed.now p.cell }
    requires within { numbering.old.count ≡ nets.now.count }
    ensures count { OnOk result (numbering.new.count ≡ numbering.old.count) }
    ensures calls { IfOk result (λ rows. AreCallsTo (P.design placed.now) (P.nets placed.now)
        (P.pins placed.now) (P.drawn placed.now) (P.circuits placed.now) cell (length cells.now)
        numbering.old.nets numbering.new.nets (map plain_call rows.items)) }
{
    let _ = cell;
    let mut rows = Vec::with_capacity(alloc, cells.len())?;
    let mut start = own_count(&nets.items);
    for k in 0..cells.len() {
        let child = cells[k];
        push_call(
            alloc,
            placed,
            child,
            &nets.net_of,
            start,
            numbering,
            &mut rows,
        )?;
        start += placed.drawn(child).len();
    }
    Ok(rows)
}
