//! Devices and calls with their nets by number.

ghost use Rattle.std.specs.Prelude.{◌≡◌, ◌++◌, ◌<◌, ◌^◌, map, take, length, IfOk, OnOk};
ghost use Rattle.plain_netlist.specs.Devices.{terminal_nets};
ghost use Rattle.plain_netlist.specs.Kinds.{terminal_count};
ghost use Rattle.text_table.specs.Texts.{place_of};
ghost use Rattle.call_order.specs.Order.{lists};
ghost use Rattle.net_model.specs.Rows.{plain_device, plain_call};
ghost use Rattle.spice_rows.specs.Seen.{call_seen};
ghost use Rattle.spice_text.specs.Table.{picked, needed_of};
ghost use Rattle.spice_text.specs.Means.{device_row, call_row};

use crate::nets::row_at;
use net_model::{CallRow, DeviceRow};
use net_names::Name;
use spice_rows::{CallCard, DeviceCard};
use std::alloc::{AllocError, Global};
use text_table::TextTable;

fn number(nets: &TextTable, name: &[u8]) -> u32
    requires { length nets.now < 2 ^ 32 }
    ensures { result ≡ place_of nets.now name.now }
{
    nets.place(name) as u32
}

fn push_numbers(out: &mut Vec<u32>, nets: &TextTable, names: &[Name]) -> Result<(), AllocError>
    requires { length nets.now < 2 ^ 32 }
    ensures { OnOk result (out.new.items ≡ out.old.items ++ map (place_of nets.now) names.now) }
{
    let mut rest = names;
    'names: while let [name, more @ ..] = rest {
        out.push(number(nets, name.bytes()))?;
        rest = more;
    }
    Ok(())
}

fn push_needed(
    out: &mut Vec<u32>,
    nets: &TextTable,
    row: &[u32],
    globals: &[Name],
) -> Result<(), AllocError>
    requires { length nets.now < 2 ^ 32 }
    ensures { OnOk result
        (out.new.items ≡ out.old.items ++ map (place_of nets.now) (picked row.now globals.now)) }
{
    let mut rest = row;
    'numbers: while let [j, more @ ..] = rest {
        if let Some(name) = globals.get(*j as usize) {
            out.push(number(nets, name.bytes()))?;
        }
        rest = more;
    }
    Ok(())
}

/// The numbers of some nets and of the global names that a row says are needed.
pub fn net_numbers(
    alloc: Global,
    nets: &TextTable,
    names: &[Name],
    row: &[u32],
    globals: &[Name],
) -> Result<Vec<u32>, AllocError>
    requires { length nets.now < 2 ^ 32 }
    ensures { IfOk result (λ out. out.items
        ≡ map (place_of nets.now) (names.now ++ picked row.now globals.now)) }
{
    let mut out = Vec::with_capacity(alloc, names.len())?;
    push_numbers(&mut out, nets, names)?;
    push_needed(&mut out, nets, row, globals)?;
    Ok(out)
}

// The numbers of a device's nets, and 0 behind them.
fn terminal_numbers(nets: &TextTable, d: &DeviceCard) -> [u32; 4]
    requires { length nets.now < 2 ^ 32 }
    ensures { take (terminal_count d.now.kind) result
        ≡ map (place_of nets.now) (terminal_nets d.now) }
{
    let mut numbers = [0; 4];
    'nets: for place in 0..d.kind().terminals() {
        numbers[place] = number(nets, d.net(place));
    }
    numbers
}

fn device_row(alloc: Global, nets: &TextTable, d: &DeviceCard) -> Result<DeviceRow, AllocError>
    requires { length nets.now < 2 ^ 32 }
    ensures { IfOk result (λ row. plain_device row ≡ device_row nets.now d.now) }
{
    Ok(DeviceRow {
        kind: d.kind(),
        class: Name::from_vec(d.class().to_vec(alloc)?),
        sizes: d.sizes(),
        nets: terminal_numbers(nets, d),
    })
}

/// Devices with their nets by number. Each is let go as soon as its row is made.
pub fn device_rows(
    alloc: Global,
    nets: &TextTable,
    devices: Vec<DeviceCard>,
) -> Result<Vec<DeviceRow>, AllocError>
    requires { length nets.now < 2 ^ 32 }
    ensures { IfOk result (λ rows. map plain_device rows.items
        ≡ map (device_row nets.now) devices.items) }
{
    let mut rows = Vec::with_capacity(alloc, devices.len())?;
    'devices: for device in devices {
        rows.push(device_row(alloc, nets, &device)?)?;
    }
    Ok(rows)
}

fn call_row(
    alloc: Global,
    names: &TextTable,
    rows: &[Vec<u32>],
    globals: &[Name],
    nets: &TextTable,
    call: &CallCard,
) -> Result<CallRow, AllocError>
    requires names { length names.now < 2 ^ 32 }
    requires nets { length nets.now < 2 ^ 32 }
    ensures { IfOk result (λ row. plain_call row
        ≡ call_row names.now (needed_of (lists rows.now) globals.now) nets.now
        (call_seen call.now)) }
{
    let circuit = number(names, call.circuit.bytes());
    let row = row_at(rows, circuit as usize);
    let nets = net_numbers(alloc, nets, &call.nets, row, globals)?;
    Ok(CallRow { circuit, nets })
}

/// Calls with their nets by number.
pub fn call_rows(
    alloc: Global,
    names: &TextTable,
    rows: &[Vec<u32>],
    globals: &[Name],
    nets: &TextTable,
    calls: &[CallCard],
) -> Result<Vec<CallRow>, AllocError>
    requires names { length names.now < 2 ^ 32 }
    requires nets { length nets.now < 2 ^ 32 }
    ensures { IfOk result (λ out. map plain_call out.items
        ≡ map (call_row names.now (needed_of (lists rows.now) globals.now) nets.now)
        (map call_seen calls.now)) }
{
    let mut out = Vec::with_capacity(alloc, calls.len())?;
    let mut rest = calls;
    'calls: while let [call, more @ ..] = rest {
        out.push(call_row(alloc, names, rows, globals, nets, call)?)?;
        rest = more;
    }
    Ok(out)
}
