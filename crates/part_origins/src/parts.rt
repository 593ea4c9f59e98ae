//! Where the devices and the calls of flat circuits are from.

ghost use Rattle.std.specs.Prelude.{◌≡◌, ◌∷◌, ◌++◌, [], IfOk, OnOk, cond, map};
ghost use Rattle.align_laws.specs.Lists.{given_of};
ghost use Rattle.net_model.specs.Rows.{plain_call, plain_device, plain_netlist};
ghost use Rattle.part_origins.specs.Inside.{plain_spot};
ghost use Rattle.part_origins.specs.Parts.{call_parts, device_parts, kept_from, part, parts_from};

use crate::inside::{Part, Spot};
use crate::kept::is_kept;
use list_base::number;
use net_model::{CallRow, DeviceRow, Netlist};
use std::alloc::{AllocError, Global};

/// The devices of a circuit, none where there is no such circuit.
pub fn devices_of(written: &Netlist, c: u32) -> &[DeviceRow]
    ensures { map plain_device result.now ≡ (given_of (plain_netlist written.now) c).devices }
{
    match written.circuits.get(c as usize) {
        Some(circuit) => &circuit.devices,
        None => &[],
    }
}

/// The calls of a circuit, none where there is no such circuit.
pub fn calls_of(written: &Netlist, c: u32) -> &[CallRow]
    ensures { map plain_call result.now ≡ (given_of (plain_netlist written.now) c).calls }
{
    match written.circuits.get(c as usize) {
        Some(circuit) => &circuit.calls,
        None => &[],
    }
}

fn add_parts(parts: &mut Vec<Part>, spot: u32, devices: &[DeviceRow]) -> Result<(), AllocError>
    ensures { OnOk result (parts.new.items ≡ parts.old.items
        ++ parts_from spot 0 (map plain_device devices.now)) }
{
    number(devices.len())?;
    let mut j = 0;
    let mut rest = devices;
    'devices: while let [_, more @ ..] = rest {
        parts.push(Part { spot, number: j })?;
        j += 1;
        rest = more;
    }
    Ok(())
}

/// Where each device of a flat circuit is from, in its order. Linear in the devices.
pub fn device_parts(
    alloc: Global,
    written: &Netlist,
    spots: &[Spot],
) -> Result<Vec<Part>, AllocError>
    ensures { IfOk result (λ parts. parts.items
        ≡ device_parts (plain_netlist written.now) 0 (map plain_spot spots.now)) }
{
    number(spots.len())?;
    let mut parts = Vec::new(alloc);
    let mut i = 0;
    let mut rest = spots;
    'spots: while let [spot, more @ ..] = rest {
        add_parts(&mut parts, i, devices_of(written, spot.circuit))?;
        i += 1;
        rest = more;
    }
    Ok(parts)
}

fn add_if(parts: &mut Vec<Part>, spot: u32, number: u32, kept: bool) -> Result<(), AllocError>
    ensures { OnOk result (parts.new.items
        ≡ parts.old.items ++ cond kept (part spot number ∷ []) []) }
{
    if kept {
        parts.push(Part { spot, number })?;
    }
    Ok(())
}

fn add_calls(
    parts: &mut Vec<Part>,
    spot: u32,
    calls: &[CallRow],
    numbers: &[Option<u32>],
) -> Result<(), AllocError>
    ensures { OnOk result (parts.new.items ≡ parts.old.items
        ++ kept_from numbers.now spot 0 (map plain_call calls.now)) }
{
    number(calls.len())?;
    let mut j = 0;
    let mut rest = calls;
    'calls: while let [call, more @ ..] = rest {
        add_if(parts, spot, j, is_kept(numbers, call.circuit))?;
        j += 1;
        rest = more;
    }
    Ok(())
}

/// Where each call of a kept circuit in a flat circuit is from, in its order. Linear in the calls.
pub fn call_parts(
    alloc: Global,
    written: &Netlist,
    spots: &[Spot],
    numbers: &[Option<u32>],
) -> Result<Vec<Part>, AllocError>
    ensures { IfOk result (λ parts. parts.items
        ≡ call_parts (plain_netlist written.now) numbers.now 0 (map plain_spot spots.now)) }
{
    number(spots.len())?;
    let mut parts = Vec::new(alloc);
    let mut i = 0;
    let mut rest = spots;
    'spots: while let [spot, more @ ..] = rest {
        add_calls(&mut parts, i, calls_of(written, spot.circuit), numbers)?;
        i += 1;
        rest = more;
    }
    Ok(parts)
}
