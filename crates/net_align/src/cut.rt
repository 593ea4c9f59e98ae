//! Flat circuits cut down to what is held.
ghost use Rattle.std.specs.Prelude.{◌≡◌, ◌++◌, ℕ, [], IfOk, OnOk, length, map, flat_map};
ghost use Rattle.std.specs.Prelude.{slice_index_or};
ghost use Rattle.call_order.specs.Order.{lists};
ghost use Rattle.net_align.specs.Laid.{AreBelow, AreCircuitsBelow, ArePut, device_put};
ghost use Rattle.net_align.specs.Sights.{cut_down, new_of, net_of, short_call, sights};
ghost use Rattle.net_model.specs.Rows.{plain_device, plain_call, plain_circuit};

use crate::inline::with_nets;
use crate::numbers::{Numbers, entry};
use crate::sights::{inner_sights, net_at};
use net_model::{CallRow, Circuit, DeviceRow};
use net_names::Name;
use std::alloc::{AllocError, Global};

/// The circuit with its held nets alone, numbered as they are first seen, and with the calls of
/// kept circuits alone, under their numbers. `held` has the held pins of each kept circuit, `own`
/// those of this one. Linear.
pub fn cut(
    alloc: Global,
    flat: &Circuit,
    numbers: &[Option<u32>],
    held: &[Vec<u32>],
    own: &[u32],
) -> Result<Circuit, AllocError>
    requires circuits { AreCircuitsBelow flat.now.calls.items (length held.now) }
    requires nets { AreBelow
        (sights numbers.now (lists held.now) own.now (plain_circuit flat.now))
        (length flat.now.nets.items) }
    ensures { IfOk result (λ c. plain_circuit c
        ≡ cut_down numbers.now (lists held.now) own.now (plain_circuit flat.now)) }
{
    let seen = all_sights(alloc, flat, numbers, held, own)?;
    let nets = Numbers::of(alloc, &seen, flat.nets.len())?;
    Ok(Circuit {
        name: flat.name.try_clone(alloc)?,
        nets: names_at(alloc, &flat.nets, &nets.list)?,
        pins: nets.renumbered(alloc, own)?,
        devices: cut_devices(alloc, &flat.devices, &nets)?,
        calls: cut_calls(alloc, &flat.calls, numbers, held, &nets)?,
    })
}

// The held pins of the circuit and its other held nets, in the order in which they are seen.
fn all_sights(
    alloc: Global,
    flat: &Circuit,
    numbers: &[Option<u32>],
    held: &[Vec<u32>],
    own: &[u32],
) -> Result<Vec<u32>, AllocError>
    requires { AreCircuitsBelow flat.now.calls.items (length held.now) }
    ensures { IfOk result (λ nets. nets.items
        ≡ sights numbers.now (lists held.now) own.now (plain_circuit flat.now)) }
{
    let mut nets = own.to_vec(alloc)?;
    let inner = inner_sights(alloc, flat, numbers, held)?;
    nets.extend_from_slice(&inner)?;
    Ok(nets)
}

// The names at these places, each of which is there.
fn names_at(alloc: Global, names: &[Name], list: &[u32]) -> Result<Vec<Name>, AllocError>
    requires { AreBelow list.now (length names.now) }
    ensures { IfOk result (λ found. found.items
        ≡ map (λ n. slice_index_or names.now n []) list.now) }
{
    let mut found = Vec::with_capacity(alloc, list.len())?;
    for n in list {
        found.push(names[*n as usize].try_clone(alloc)?)?;
    }
    Ok(found)
}

// The new numbers of a device's nets.
fn terminals_cut(row: &DeviceRow, nets: &Numbers) -> [u32; 4]
    ensures { ArePut (new_of nets.now.places.items) row.now result }
{
    let mut new = [0; 4];
    'terminals: for i in 0..row.kind.terminals() {
        new[i] = nets.place(row.nets[i]);
    }
    new
}

fn cut_devices(
    alloc: Global,
    devices: &[DeviceRow],
    nets: &Numbers,
) -> Result<Vec<DeviceRow>, AllocError>
    ensures { IfOk result (λ rows. map plain_device rows.items
        ≡ map (device_put (new_of nets.now.places.items)) devices.now) }
{
    let mut rows = Vec::with_capacity(alloc, devices.len())?;
    for row in devices {
        rows.push(with_nets(alloc, row, terminals_cut(row, nets))?)?;
    }
    Ok(rows)
}

fn cut_calls(
    alloc: Global,
    calls: &[CallRow],
    numbers: &[Option<u32>],
    held: &[Vec<u32>],
    nets: &Numbers,
) -> Result<Vec<CallRow>, AllocError>
    requires { AreCircuitsBelow calls.now (length held.now) }
    ensures { IfOk result (λ rows. map plain_call rows.items
        ≡ flat_map (short_call numbers.now (lists held.now) (new_of nets.now.places.items))
        (map plain_call calls.now)) }
{
    let mut rows = Vec::new(alloc);
    for call in calls {
        if let Some(number) = entry(numbers, call.circuit) {
            let pins = &held[call.circuit as usize];
            rows.push(CallRow {
                circuit: number,
                nets: nets_at(alloc, &call.nets, pins, nets)?,
            })?;
        }
    }
    Ok(rows)
}

// The nets of a call at these pins, renumbered.
fn nets_at(alloc: Global, at: &[u32], pins: &[u32], nets: &Numbers) -> Result<Vec<u32>, AllocError>
    ensures { IfOk result (λ found. found.items
        ≡ map (new_of nets.now.places.items) (map (net_of at.now) pins.now)) }
{
    let mut found = Vec::with_capacity(alloc, pins.len())?;
    for pin in pins {
        found.push(nets.place(net_at(at, *pin)))?;
    }
    Ok(found)
}
