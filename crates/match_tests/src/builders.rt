//! Small circuits, built net by net and transistor by transistor.

use fixed_num::Femto;
use net_model::{Circuit, DeviceRow};
use net_names::Name;
use plain_netlist::DeviceKind;
use std::alloc::{AllocError, Global};

fn name(alloc: Global, text: &[u8]) -> Result<Name, AllocError> {
    match Name::from_bytes(alloc, text)? {
        Some(name) => Ok(name),
        None => Ok(Name::from_vec(vec![in alloc; b'-']?)),
    }
}

// A circuit with these nets, of which the first ones are pins.
pub fn circuit(alloc: Global, nets: &[&[u8]], pins: u32) -> Result<Circuit, AllocError> {
    let mut names = Vec::new(alloc);
    for text in nets {
        names.push(name(alloc, text)?)?;
    }
    let mut numbers = Vec::new(alloc);
    for i in 0..pins {
        numbers.push(i)?;
    }
    Ok(Circuit {
        name: name(alloc, b"T")?,
        nets: names,
        pins: numbers,
        devices: Vec::new(alloc),
        calls: Vec::new(alloc),
    })
}

// Adds a transistor with source, gate, drain and bulk on these nets.
pub fn transistor(
    alloc: Global,
    circuit: &mut Circuit,
    class: &[u8],
    width: u128,
    on: [u32; 4],
) -> Result<(), AllocError> {
    circuit.devices.push(DeviceRow {
        kind: DeviceKind::Mos4,
        class: name(alloc, class)?,
        sizes: [Femto(100_000_000), Femto(width)],
        nets: [on[2], on[1], on[0], on[3]],
    })?;
    Ok(())
}
