//! The names of nets, devices and calls.

ghost use Rattle.std.specs.Prelude.{◌≡◌, ◌+◌, ◌++◌, [], IfOk, OnOk, decimal, get_or};
ghost use Rattle.std.specs.Option.{option_map};
ghost use Rattle.net_model.specs.Rows.{plain_call, plain_circuit, plain_device};
ghost use Rattle.view_page.specs.Subjects.{IsCallAt, IsDeviceAt, IsName, call_name, net_name};

use crate::devices::device_name;
use net_model::{CallRow, Circuit, DeviceRow};
use net_names::Name;
use std::alloc::{AllocError, Global};
use view_cross::Kind;
use view_pairs::{call_at, device_at};
use view_words::push_word;

/// The name of a number, empty past the last.
pub fn name_at(names: &[Name], k: u32) -> &[u8]
    ensures { result.now ≡ get_or names.now k [] }
{
    match names.get(k as usize) {
        Some(name) => name.bytes(),
        None => b"",
    }
}

/// The name of a net.
pub fn net_name(alloc: Global, names: &[Name], k: u32) -> Result<Vec<u8>, AllocError>
    ensures { IfOk result (λ text. text.items ≡ net_name names.now k) }
{
    let mut text = Vec::new(alloc);
    text.extend_from_slice(b"net ")?;
    push_word(&mut text, name_at(names, k))?;
    Ok(text)
}

/// Appends the number of a device or call: they count from 1.
pub fn push_number(alloc: Global, out: &mut Vec<u8>, k: u32) -> Result<(), AllocError>
    ensures { OnOk result (out.new.items ≡ out.old.items ++ decimal (k + 1)) }
{
    let digits = (u64::from(k) + 1).to_string(alloc)?.into_bytes();
    out.extend_from_slice(&digits)
}

fn some_device(alloc: Global, k: u32, device: Option<&DeviceRow>) -> Result<Vec<u8>, AllocError>
    ensures { IfOk result (λ text.
        IsDeviceAt k (option_map (λ d. plain_device d.now) device.entry) text.items) }
{
    match device {
        Some(d) => device_name(alloc, k, d),
        None => Ok(Vec::new(alloc)),
    }
}

fn call_name(
    alloc: Global,
    circuits: &[Name],
    k: u32,
    call: &CallRow,
) -> Result<Vec<u8>, AllocError>
    ensures { IfOk result (λ text. text.items ≡ call_name circuits.now k (plain_call call.now)) }
{
    let mut text = Vec::new(alloc);
    text.extend_from_slice(b"call $")?;
    push_number(alloc, &mut text, k)?;
    text.extend_from_slice(b" of ")?;
    push_word(&mut text, name_at(circuits, call.circuit))?;
    Ok(text)
}

fn some_call(
    alloc: Global,
    circuits: &[Name],
    k: u32,
    call: Option<&CallRow>,
) -> Result<Vec<u8>, AllocError>
    ensures { IfOk result (λ text. IsCallAt circuits.now k
        (option_map (λ c. plain_call c.now) call.entry) text.items) }
{
    match call {
        Some(c) => call_name(alloc, circuits, k, c),
        None => Ok(Vec::new(alloc)),
    }
}

/// The name of a node of a circuit; calls are told by the names of their circuits.
pub fn node_name(
    alloc: Global,
    circuits: &[Name],
    circuit: &Circuit,
    kind: Kind,
    k: u32,
) -> Result<Vec<u8>, AllocError>
    ensures { IfOk result (λ text.
        IsName circuits.now (plain_circuit circuit.now) kind k text.items) }
{
    match kind {
        Kind::Net => net_name(alloc, &circuit.nets, k),
        Kind::Pin => Ok(Vec::new(alloc)),
        Kind::Device => some_device(alloc, k, device_at(&circuit.devices, k)),
        Kind::Call => some_call(alloc, circuits, k, call_at(&circuit.calls, k)),
    }
}
