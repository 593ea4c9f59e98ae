//! A circuit with called circuits laid into it.
ghost use Rattle.std.specs.Prelude.{◌≡◌, ◌<◌, ◌≤◌, ◌+◌, ◌-◌, ◌^◌, ◌++◌, ℕ, IfOk, OnOk, length};
ghost use Rattle.std.specs.Prelude.{drop, map, slice_index, slice_get, Some, true};
ghost use Rattle.align_laws.specs.Lists.{net_at_pin};
ghost use Rattle.net_model.specs.Rows.{plain_device, plain_call, plain_circuit};
ghost use Rattle.net_align.specs.Laid.{AreBelow, IsRowBelow, AreRowsBelow, AreCallsBelow, name_below};
ghost use Rattle.net_align.specs.Laid.{ArePut, device_put, call_put, laid, stayed, own_part};
ghost use Rattle.net_align.specs.Laid.{laid_out, goes_of, AreCircuitsBelow, IsFlatThere, LaidLaw};
ghost use Rattle.plain_netlist.specs.Netlist.{Circuit as PlainCircuit};
ghost use Rattle.net_model.specs.declared.netlist.CallRow.{CallRow as Call};

use list_base::number;
use net_model::{CallRow, Circuit, DeviceRow, copy_devices, copy_names};
use net_names::Name;
use std::alloc::{AllocError, Global};

/// The circuit with those of its calls replaced that go: by the nets past the pins, the devices
/// and the calls of the flat circuit that they call. `flats` has the flat circuit of each that
/// goes.
///
/// Linear in the result.
pub fn inline(
    alloc: Global,
    given: &Circuit,
    goes: &[bool],
    flats: &[Option<Circuit>],
) -> Result<Circuit, AllocError>
    ghost f: { ℕ → PlainCircuit }
    requires circuits { AreCircuitsBelow given.now.calls.items (length goes.now) }
    requires flats { (i : ℕ) (r : Call) → slice_get given.now.calls.items i ≡ Some r
        → goes_of goes.now r.circuit ≡ true → IsFlatThere flats.now f r }
    ensures { IfOk result (λ c. plain_circuit c
        ≡ laid_out (goes_of goes.now) f (plain_circuit given.now)) }
{
    let mut flat = own(alloc, given, goes)?;
    for k in 0..given.calls.len() {
        let call = &given.calls[k];
        if goes[call.circuit as usize] {
            lay_call(alloc, &mut flat, k, call, flats)?;
        }
    }
    Ok(flat)
}

// The flat circuit that call k calls, laid in.
fn lay_call(
    alloc: Global,
    flat: &mut Circuit,
    k: usize,
    call: &CallRow,
    flats: &[Option<Circuit>],
) -> Result<(), AllocError>
    ghost f: { ℕ → PlainCircuit }
    requires number { k < 2 ^ 64 - 1 }
    requires flat { IsFlatThere flats.now f call.now }
    ensures { OnOk result (plain_circuit flat.new
        ≡ laid k (plain_call call.now) (f call.now.circuit) (plain_circuit flat.old)) }
{
    if let Some(inner) = &flats[call.circuit as usize] {
        lay_in(alloc, flat, k, call, inner)?;
    }
    Ok(())
}

// The circuit without the calls that go.
fn own(alloc: Global, given: &Circuit, goes: &[bool]) -> Result<Circuit, AllocError>
    requires { AreCircuitsBelow given.now.calls.items (length goes.now) }
    ensures { IfOk result (λ c. plain_circuit c
        ≡ own_part (goes_of goes.now) (plain_circuit given.now)) }
{
    Ok(Circuit {
        name: given.name.try_clone(alloc)?,
        nets: copy_names(alloc, &given.nets)?,
        pins: given.pins.as_slice().to_vec(alloc)?,
        devices: copy_devices(alloc, &given.devices)?,
        calls: own_calls(alloc, &given.calls, goes)?,
    })
}

fn own_calls(alloc: Global, calls: &[CallRow], goes: &[bool]) -> Result<Vec<CallRow>, AllocError>
    requires { AreCircuitsBelow calls.now (length goes.now) }
    ensures { IfOk result (λ own. map plain_call own.items
        ≡ stayed (goes_of goes.now) (map plain_call calls.now)) }
{
    let mut own = Vec::new(alloc);
    for call in calls {
        if !goes[call.circuit as usize] {
            own.push(CallRow {
                circuit: call.circuit,
                nets: call.nets.as_slice().to_vec(alloc)?,
            })?;
        }
    }
    Ok(own)
}

fn lay_in(
    alloc: Global,
    flat: &mut Circuit,
    k: usize,
    call: &CallRow,
    inner: &Circuit,
) -> Result<(), AllocError>
    requires number { k < 2 ^ 64 - 1 }
    requires pins { length call.now.nets.items ≤ length inner.now.nets.items }
    requires devices { AreRowsBelow inner.now.devices.items (length inner.now.nets.items) }
    requires calls { AreCallsBelow inner.now.calls.items (length inner.now.nets.items) }
    ensures { OnOk result (plain_circuit flat.new
        ≡ laid k (plain_call call.now) (plain_circuit inner.now) (plain_circuit flat.old)) }
{
    let to = stands_at(alloc, &call.nets, flat.nets.len(), inner.nets.len())?;
    add_nets(alloc, &mut flat.nets, k, &inner.nets, call.nets.len())?;
    add_devices(alloc, &mut flat.devices, &inner.devices, &to)?;
    add_calls(alloc, &mut flat.calls, &inner.calls, &to)?;
    Ok(())
}

fn add_nets(
    alloc: Global,
    nets: &mut Vec<Name>,
    k: usize,
    inner: &[Name],
    pins: usize,
) -> Result<(), AllocError>
    requires { k < 2 ^ 64 - 1 }
    ensures { OnOk result (nets.new.items
        ≡ nets.old.items ++ map (name_below k) (drop pins inner.now)) }
{
    for n in pins..inner.len() {
        nets.push(name_below(alloc, k, &inner[n])?)?;
    }
    Ok(())
}

fn add_devices(
    alloc: Global,
    devices: &mut Vec<DeviceRow>,
    inner: &[DeviceRow],
    to: &[u32],
) -> Result<(), AllocError>
    requires { AreRowsBelow inner.now (length to.now) }
    ensures { OnOk result (map plain_device devices.new.items
        ≡ map plain_device devices.old.items ++ map (device_put (slice_index to.now)) inner.now) }
{
    for row in inner {
        devices.push(device_through(alloc, row, to)?)?;
    }
    Ok(())
}

fn add_calls(
    alloc: Global,
    calls: &mut Vec<CallRow>,
    inner: &[CallRow],
    to: &[u32],
) -> Result<(), AllocError>
    requires { AreCallsBelow inner.now (length to.now) }
    ensures { OnOk result (map plain_call calls.new.items
        ≡ map plain_call calls.old.items ++ map (call_put (slice_index to.now)) inner.now) }
{
    for row in inner {
        calls.push(call_through(alloc, row, to)?)?;
    }
    Ok(())
}

// Where each net of the called circuit stands: the first ones at the call's nets, the others behind
// those that are there.
fn stands_at(
    alloc: Global,
    pins: &[u32],
    behind: usize,
    nets: usize,
) -> Result<Vec<u32>, AllocError>
    requires { length pins.now ≤ nets }
    ensures long { IfOk result (λ to. length to.items ≡ nets) }
    ensures each { IfOk result (λ to. (n : ℕ) → n < nets
        → slice_index to.items n ≡ net_at_pin pins.now (λ m. behind + m) n) }
{
    let mut to = pins.to_vec(alloc)?;
    for n in pins.len()..nets {
        let own = n - pins.len();
        to.push(number(behind.saturating_add(own))?)?;
    }
    Ok(to)
}

// `Xk/` and the name, k counted from 1.
fn name_below(alloc: Global, k: usize, name: &Name) -> Result<Name, AllocError>
    requires { k < 2 ^ 64 - 1 }
    ensures { IfOk result (λ n. n ≡ name_below k name.now) }
{
    let number = k + 1;
    let digits = format!(in alloc; "{number}")?;
    let mut bytes = Vec::new(alloc);
    bytes.push(b'X')?;
    bytes.extend_from_slice(digits.as_bytes())?;
    bytes.push(b'/')?;
    bytes.extend_from_slice(name.bytes())?;
    Ok(Name::from_vec(bytes))
}

// The nets that stand for a device's own.
fn nets_through(row: &DeviceRow, to: &[u32]) -> [u32; 4]
    requires { IsRowBelow row.now (length to.now) }
    ensures { ArePut (slice_index to.now) row.now result }
{
    let mut nets = [0; 4];
    'terminals: for i in 0..row.kind.terminals() {
        nets[i] = to[row.nets[i] as usize];
    }
    nets
}

/// The device with other nets, in the order of its own.
pub fn with_nets(alloc: Global, row: &DeviceRow, nets: [u32; 4]) -> Result<DeviceRow, AllocError>
    ensures { IfOk result (λ d. (to : ℕ → ℕ) → ArePut to row.now nets
        → plain_device d ≡ device_put to row.now) }
{
    Ok(DeviceRow {
        kind: row.kind,
        class: row.class.try_clone(alloc)?,
        sizes: row.sizes,
        nets,
    })
}

// The device with the nets that stand for its own.
fn device_through(alloc: Global, row: &DeviceRow, to: &[u32]) -> Result<DeviceRow, AllocError>
    requires { IsRowBelow row.now (length to.now) }
    ensures { IfOk result (λ d. plain_device d ≡ device_put (slice_index to.now) row.now) }
{
    with_nets(alloc, row, nets_through(row, to))
}

fn call_through(alloc: Global, row: &CallRow, to: &[u32]) -> Result<CallRow, AllocError>
    requires { AreBelow row.now.nets.items (length to.now) }
    ensures { IfOk result (λ r. plain_call r ≡ call_put (slice_index to.now) row.now) }
{
    let mut nets = Vec::new(alloc);
    for n in &row.nets {
        nets.push(to[*n as usize])?;
    }
    Ok(CallRow {
        circuit: row.circuit,
        nets,
    })
}

/// The flat circuit that is made so is the one of the lists.
pub fn laying_exact()
    ensures { LaidLaw }
{}
