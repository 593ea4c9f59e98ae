//! Copies of circuits, each linear in what is copied.
ghost use Rattle.std.specs.Prelude.{◌≡◌, IfOk, map};
ghost use Rattle.net_model.specs.Rows.{plain_call, plain_circuit, plain_device};

use crate::netlist::{CallRow, Circuit, DeviceRow};
use net_names::Name;
use std::alloc::{AllocError, Global};

/// The same names.
pub fn copy_names(alloc: Global, names: &[Name]) -> Result<Vec<Name>, AllocError>
    ensures { IfOk result (λ copy. copy.items ≡ names.now) }
{
    let mut copy = Vec::new(alloc);
    for name in names {
        copy.push(name.try_clone(alloc)?)?;
    }
    Ok(copy)
}

/// The same devices.
pub fn copy_devices(alloc: Global, devices: &[DeviceRow]) -> Result<Vec<DeviceRow>, AllocError>
    ensures { IfOk result (λ copy.
        map plain_device copy.items ≡ map plain_device devices.now) }
{
    let mut copy = Vec::new(alloc);
    for row in devices {
        copy.push(row.try_clone(alloc)?)?;
    }
    Ok(copy)
}

fn copy_calls(alloc: Global, calls: &[CallRow]) -> Result<Vec<CallRow>, AllocError>
    ensures { IfOk result (λ copy. map plain_call copy.items ≡ map plain_call calls.now) }
{
    let mut copy = Vec::new(alloc);
    for row in calls {
        copy.push(row.try_clone(alloc)?)?;
    }
    Ok(copy)
}

impl DeviceRow {
    /// The same device.
    pub fn try_clone(&self, alloc: Global) -> Result<DeviceRow, AllocError>
        ensures { IfOk result (λ d. plain_device d ≡ plain_device self.now) }
    {
        Ok(DeviceRow {
            kind: self.kind,
            class: self.class.try_clone(alloc)?,
            sizes: self.sizes,
            nets: self.nets,
        })
    }
}

impl CallRow {
    /// The same call.
    pub fn try_clone(&self, alloc: Global) -> Result<CallRow, AllocError>
        ensures { IfOk result (λ c. plain_call c ≡ plain_call self.now) }
    {
        Ok(CallRow {
            circuit: self.circuit,
            nets: self.nets.as_slice().to_vec(alloc)?,
        })
    }
}

impl Circuit {
    /// The same circuit.
    pub fn try_clone(&self, alloc: Global) -> Result<Circuit, AllocError>
        ensures { IfOk result (λ c. plain_circuit c ≡ plain_circuit self.now) }
    {
        Ok(Circuit {
            name: self.name.try_clone(alloc)?,
            nets: copy_names(alloc, &self.nets)?,
            pins: self.pins.as_slice().to_vec(alloc)?,
            devices: copy_devices(alloc, &self.devices)?,
            calls: copy_calls(alloc, &self.calls)?,
        })
    }
}
