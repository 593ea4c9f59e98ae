//! What nodes look like at the start: a net by being a pin, a device by its class, a call by
//! its pair.

use crate::alike::Sides;
use net_model::{CallRow, Circuit, DeviceRow};
use std::alloc::{AllocError, Global};
use text_table::TextTable;

const PLAIN_NET: u64 = 0;

const PIN: u64 = 1;

const CLASS: u64 = 1 << 33;

const PAIR: u64 = 1 << 34;

fn push_nets(out: &mut Vec<u64>, pins: &[bool]) -> Result<(), AllocError> {
    for is_pin in pins {
        out.push(if *is_pin { PIN } else { PLAIN_NET })?;
    }
    Ok(())
}

fn push_devices(
    alloc: Global,
    out: &mut Vec<u64>,
    classes: &mut TextTable,
    devices: &[DeviceRow],
) -> Result<(), AllocError> {
    for d in devices {
        let place = classes.number(alloc, d.class.bytes())?;
        out.push(CLASS | place as u64)?;
    }
    Ok(())
}

fn push_calls(out: &mut Vec<u64>, calls: &[CallRow]) -> Result<(), AllocError> {
    for c in calls {
        out.push(PAIR | u64::from(c.circuit))?;
    }
    Ok(())
}

// The kinds of a circuit's nodes, the nets that are pins being marked.
fn push_circuit(
    alloc: Global,
    out: &mut Vec<u64>,
    classes: &mut TextTable,
    pins: &[bool],
    circuit: &Circuit,
) -> Result<(), AllocError> {
    push_nets(out, pins)?;
    push_devices(alloc, out, classes, &circuit.devices)?;
    push_calls(out, &circuit.calls)
}

// Those of both circuits, whose classes have one number each.
fn push_sides(alloc: Global, out: &mut Vec<u64>, sides: &Sides<'_>) -> Result<(), AllocError> {
    let mut classes = TextTable::new(alloc);
    push_circuit(alloc, out, &mut classes, &sides.left_pins, sides.left)?;
    push_circuit(alloc, out, &mut classes, &sides.right_pins, sides.right)
}

/// The kind of each node of both circuits, the left ones first. Linear, expected over the hashes of
/// the classes' names.
pub fn kinds_of(alloc: Global, sides: &Sides<'_>) -> Result<Vec<u64>, AllocError> {
    let mut out = Vec::new(alloc);
    push_sides(alloc, &mut out, sides)?;
    Ok(out)
}
