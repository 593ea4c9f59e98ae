//! The nets of a flat circuit that are held: those with a device terminal or a held pin of a kept
//! circuit's call.
ghost use Rattle.std.specs.Prelude.{◌≡◌, ◌++◌, ℕ, IfOk, OnOk, length, map, filter, flat_map};
ghost use Rattle.std.specs.Prelude.{slice_index_or};
ghost use Rattle.call_order.specs.Order.{lists};
ghost use Rattle.net_align.specs.Laid.{AreBelow, AreCircuitsBelow};
ghost use Rattle.net_align.specs.Sights.{has_number, net_of, call_nets, inner_sights};
ghost use Rattle.net_align.specs.Marks.{marked};
ghost use Rattle.net_model.specs.Rows.{plain_device, plain_call, plain_circuit};
ghost use Rattle.plain_netlist.specs.Devices.{terminal_nets};

use crate::numbers::entry;
use crate::walk::is_marked;
use net_model::{CallRow, Circuit, DeviceRow};
use std::alloc::{AllocError, Global};

/// The nets that a device terminal or a held pin of a kept circuit's call is on, in order.
/// `numbers` has the number of each kept circuit, `held` its held pins. Linear.
pub fn inner_sights(
    alloc: Global,
    flat: &Circuit,
    numbers: &[Option<u32>],
    held: &[Vec<u32>],
) -> Result<Vec<u32>, AllocError>
    requires { AreCircuitsBelow flat.now.calls.items (length held.now) }
    ensures { IfOk result (λ nets. nets.items
        ≡ inner_sights numbers.now (lists held.now) (plain_circuit flat.now)) }
{
    let mut nets = Vec::new(alloc);
    add_terminals(&flat.devices, &mut nets)?;
    add_call_nets(&flat.calls, numbers, held, &mut nets)?;
    Ok(nets)
}

fn add_terminals(devices: &[DeviceRow], nets: &mut Vec<u32>) -> Result<(), AllocError>
    ensures { OnOk result (nets.new.items
        ≡ nets.old.items ++ flat_map terminal_nets (map plain_device devices.now)) }
{
    for row in devices {
        nets.extend_from_slice(row.terminal_nets())?;
    }
    Ok(())
}

fn add_call_nets(
    calls: &[CallRow],
    numbers: &[Option<u32>],
    held: &[Vec<u32>],
    nets: &mut Vec<u32>,
) -> Result<(), AllocError>
    requires { AreCircuitsBelow calls.now (length held.now) }
    ensures { OnOk result (nets.new.items ≡ nets.old.items
        ++ flat_map (call_nets numbers.now (lists held.now)) (map plain_call calls.now)) }
{
    for call in calls {
        if entry(numbers, call.circuit).is_some() {
            add_pins(&call.nets, &held[call.circuit as usize], nets)?;
        }
    }
    Ok(())
}

// The nets of a call at these pins.
fn add_pins(at: &[u32], pins: &[u32], nets: &mut Vec<u32>) -> Result<(), AllocError>
    ensures { OnOk result (nets.new.items ≡ nets.old.items ++ map (net_of at.now) pins.now) }
{
    for pin in pins {
        nets.push(net_at(at, *pin))?;
    }
    Ok(())
}

/// The net of a call at a pin.
pub fn net_at(nets: &[u32], pin: u32) -> u32
    ensures { result ≡ net_of nets.now pin }
{
    match nets.get(pin as usize) {
        Some(net) => *net,
        None => 0,
    }
}

/// Those of the pins that are among the nets, each of which is below `count`. Linear.
pub fn pins_among(
    alloc: Global,
    pins: &[u32],
    nets: &[u32],
    count: usize,
) -> Result<Vec<u32>, AllocError>
    requires { AreBelow nets.now count }
    ensures { IfOk result (λ own. own.items ≡ filter (has_number nets.now) pins.now) }
{
    let mut marks = vec![in alloc; false; count]?;
    mark_nets(nets, &mut marks);
    let mut own = Vec::new(alloc);
    for pin in pins {
        if is_marked(&marks, *pin) {
            own.push(*pin)?;
        }
    }
    Ok(own)
}

fn mark_nets(nets: &[u32], marks: &mut Vec<bool>)
    requires { AreBelow nets.now (length marks.old.items) }
    ensures { marks.new.items ≡ marked nets.now marks.old.items }
{
    for net in nets {
        marks[*net as usize] = true;
    }
}
