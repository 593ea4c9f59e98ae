//! The aligned numbers of the nets of flat circuits, read off the aligned netlist: a net that is
//! kept is on a device or on a kept call, and these stand there in the same order.

ghost use Rattle.std.specs.Prelude.{◌≡◌, ◌∷◌, ◌++◌, [], None, IfOk, OnOk, cond, filter};
ghost use Rattle.std.specs.Prelude.{flat_map, is_some, map, slice_index_or};
ghost use Rattle.net_model.specs.Rows.{plain_call, plain_circuit, plain_device, plain_netlist};
ghost use Rattle.plain_netlist.specs.Devices.{terminal_nets};
ghost use Rattle.part_origins.specs.Inside.{plain_spot};
ghost use Rattle.part_origins.specs.Nets.{call_nets_at, named_nets, net_at, seen_nets};
ghost use Rattle.part_origins.specs.Nets.{spot_calls, spot_terminals, terminals_at};

use crate::inside::Spot;
use crate::kept::{entry, number_at};
use crate::parts::{calls_of, devices_of};
use net_model::{CallRow, Circuit, DeviceRow, Netlist};
use std::alloc::{AllocError, Global};

fn add_terminals(nets: &[u32], row: &DeviceRow, seen: &mut Vec<u32>) -> Result<(), AllocError>
    ensures { OnOk result (seen.new.items
        ≡ seen.old.items ++ terminals_at nets.now (plain_device row.now)) }
{
    let mut rest = row.terminal_nets();
    'terminals: while let [n, more @ ..] = rest {
        seen.push(number_at(nets, *n))?;
        rest = more;
    }
    Ok(())
}

fn add_devices(nets: &[u32], rows: &[DeviceRow], seen: &mut Vec<u32>) -> Result<(), AllocError>
    ensures { OnOk result (seen.new.items
        ≡ seen.old.items ++ flat_map (terminals_at nets.now) (map plain_device rows.now)) }
{
    let mut rest = rows;
    'rows: while let [row, more @ ..] = rest {
        add_terminals(nets, row, seen)?;
        rest = more;
    }
    Ok(())
}

fn add_pins(nets: &[u32], call: &[u32], pins: &[u32], seen: &mut Vec<u32>) -> Result<(), AllocError>
    ensures { OnOk result (seen.new.items
        ≡ seen.old.items ++ map (λ p. net_at nets.now (net_at call.now p)) pins.now) }
{
    let mut rest = pins;
    'pins: while let [p, more @ ..] = rest {
        seen.push(number_at(nets, number_at(call, *p)))?;
        rest = more;
    }
    Ok(())
}

// The nets of a call at the held pins of the circuit that it calls, where that is kept.
fn add_call(
    nets: &[u32],
    call: &CallRow,
    numbers: &[Option<u32>],
    held: &[Vec<u32>],
    seen: &mut Vec<u32>,
) -> Result<(), AllocError>
    ensures { OnOk result (seen.new.items ≡ seen.old.items
        ++ call_nets_at numbers.now (map (λ p. p.items) held.now) nets.now (plain_call call.now)) }
{
    let Some(number) = entry(numbers, call.circuit) else {
        return Ok(());
    };
    match held.get(number as usize) {
        Some(pins) => add_pins(nets, &call.nets, pins, seen),
        None => Ok(()),
    }
}

fn add_calls(
    nets: &[u32],
    calls: &[CallRow],
    numbers: &[Option<u32>],
    held: &[Vec<u32>],
    seen: &mut Vec<u32>,
) -> Result<(), AllocError>
    ensures { OnOk result (seen.new.items ≡ seen.old.items
        ++ flat_map (call_nets_at numbers.now (map (λ p. p.items) held.now) nets.now)
        (map plain_call calls.now)) }
{
    let mut rest = calls;
    'calls: while let [call, more @ ..] = rest {
        add_call(nets, call, numbers, held, seen)?;
        rest = more;
    }
    Ok(())
}

fn spot_terminals(alloc: Global, written: &Netlist, spots: &[Spot]) -> Result<Vec<u32>, AllocError>
    ensures { IfOk result (λ seen. seen.items
        ≡ flat_map (spot_terminals (plain_netlist written.now)) (map plain_spot spots.now)) }
{
    let mut seen = Vec::new(alloc);
    let mut rest = spots;
    'spots: while let [spot, more @ ..] = rest {
        add_devices(&spot.nets, devices_of(written, spot.circuit), &mut seen)?;
        rest = more;
    }
    Ok(seen)
}

fn add_spot_calls(
    written: &Netlist,
    spots: &[Spot],
    numbers: &[Option<u32>],
    held: &[Vec<u32>],
    seen: &mut Vec<u32>,
) -> Result<(), AllocError>
    ensures { OnOk result (seen.new.items ≡ seen.old.items
        ++ flat_map (spot_calls (plain_netlist written.now) numbers.now
        (map (λ p. p.items) held.now)) (map plain_spot spots.now)) }
{
    let mut rest = spots;
    'spots: while let [spot, more @ ..] = rest {
        let calls = calls_of(written, spot.circuit);
        add_calls(&spot.nets, calls, numbers, held, seen)?;
        rest = more;
    }
    Ok(())
}

/// The nets of a flat circuit that its devices are on, and its calls of kept circuits at held pins,
/// in order. `held` has the held pins of the kept circuits, by their numbers. Linear.
pub fn seen_nets(
    alloc: Global,
    written: &Netlist,
    spots: &[Spot],
    numbers: &[Option<u32>],
    held: &[Vec<u32>],
) -> Result<Vec<u32>, AllocError>
    ensures { IfOk result (λ seen. seen.items
        ≡ seen_nets (plain_netlist written.now) numbers.now (map (λ p. p.items) held.now)
        (map plain_spot spots.now)) }
{
    let mut seen = spot_terminals(alloc, written, spots)?;
    add_spot_calls(written, spots, numbers, held, &mut seen)?;
    Ok(seen)
}

fn add_named(devices: &[DeviceRow], named: &mut Vec<u32>) -> Result<(), AllocError>
    ensures { OnOk result (named.new.items
        ≡ named.old.items ++ flat_map terminal_nets (map plain_device devices.now)) }
{
    let mut rest = devices;
    'rows: while let [row, more @ ..] = rest {
        named.extend_from_slice(row.terminal_nets())?;
        rest = more;
    }
    Ok(())
}

/// The nets that a circuit's devices and calls are on, in order. Linear.
pub fn named_nets(alloc: Global, circuit: &Circuit) -> Result<Vec<u32>, AllocError>
    ensures { IfOk result (λ named. named.items ≡ named_nets (plain_circuit circuit.now)) }
{
    let mut named = Vec::new(alloc);
    add_named(&circuit.devices, &mut named)?;
    let mut rest = circuit.calls.as_slice();
    'calls: while let [call, more @ ..] = rest {
        named.extend_from_slice(&call.nets)?;
        rest = more;
    }
    Ok(named)
}

/// Those of the pins that have a number. Linear.
pub fn held_pins(
    alloc: Global,
    numbers: &[Option<u32>],
    pins: &[u32],
) -> Result<Vec<u32>, AllocError>
    ensures { IfOk result (λ held. held.items
        ≡ filter (λ n. is_some (slice_index_or numbers.now n None)) pins.now) }
{
    let mut held = Vec::new(alloc);
    let mut rest = pins;
    'pins: while let [pin, more @ ..] = rest {
        add_held(&mut held, *pin, entry(numbers, *pin).is_some())?;
        rest = more;
    }
    Ok(held)
}

fn add_held(held: &mut Vec<u32>, pin: u32, is: bool) -> Result<(), AllocError>
    ensures { OnOk result (held.new.items ≡ held.old.items ++ cond is (pin ∷ []) []) }
{
    if is {
        held.push(pin)?;
    }
    Ok(())
}
