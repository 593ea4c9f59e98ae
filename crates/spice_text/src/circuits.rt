//! Circuits with their nets by number, made from their cards.

ghost use Rattle.std.specs.Prelude.{◌≡◌, ◌++◌, ◌<◌, ◌^◌, [], flat_map, map, length, IfOk, OnOk};
ghost use Rattle.call_order.specs.Order.{lists};
ghost use Rattle.text_table.specs.Texts.{place_of};
ghost use Rattle.net_model.specs.Rows.{plain_call, plain_circuit};
ghost use Rattle.spice_text.specs.Needs.{first_seen, device_nets, HaveBytes};
ghost use Rattle.spice_text.specs.Table.{needed_of, seen_with_needs};
ghost use Rattle.spice_text.specs.Means.{call_row, circuit_row, device_row, net_names};
ghost use Rattle.spice_text.specs.Means.{row_over, rows_from};
ghost use Rattle.spice_text.specs.Seen.{circuit_seen};

use crate::gather::CircuitCards;
use crate::nets::{Nets, row_at};
use crate::numbers::{call_rows, device_rows, net_numbers};
use list_base::number;
use net_model::{CallRow, Circuit};
use net_names::Name;
use spice_rows::DeviceCard;
use std::alloc::{AllocError, Global};
use text_table::TextTable;

fn seen_nets(
    alloc: Global,
    names: &TextTable,
    rows: &[Vec<u32>],
    globals: &[Name],
    k: usize,
    c: &CircuitCards,
) -> Result<Nets, AllocError>
    ensures table { IfOk result (λ nets. nets.table
        ≡ seen_with_needs names.now (needed_of (lists rows.now) globals.now)
        (first_seen (first_seen (first_seen [] (circuit_seen c.now).pins)
        (needed_of (lists rows.now) globals.now k))
        (flat_map device_nets (circuit_seen c.now).devices)) (circuit_seen c.now).calls) }
    ensures names { IfOk result (λ nets. HaveBytes nets.table) }
{
    let mut nets = Nets::of(alloc, &c.pins)?;
    nets.see_needed(alloc, row_at(rows, k), globals)?;
    nets.see_devices(alloc, &c.devices)?;
    nets.see_calls_with(alloc, &c.calls, names, rows, globals)?;
    Ok(nets)
}

fn nets_of(
    alloc: Global,
    names: &TextTable,
    rows: &[Vec<u32>],
    globals: &[Name],
    k: usize,
    c: &CircuitCards,
) -> Result<Nets, AllocError>
    ensures table { IfOk result (λ nets. nets.table
        ≡ net_names names.now (needed_of (lists rows.now) globals.now) k (circuit_seen c.now)) }
    ensures names { IfOk result (λ nets. HaveBytes nets.table) }
{
    seen_nets(alloc, names, rows, globals, k, c)
}

/// The pins and the calls of a circuit with their nets by number.
#[derive(Drop)]
struct Joined {
    pins: Vec<u32>,
    calls: Vec<CallRow>,
}

// Those of a circuit's cards by these nets; 2^32 nets are refused.
fn joined_by(
    alloc: Global,
    names: &TextTable,
    rows: &[Vec<u32>],
    globals: &[Name],
    k: usize,
    c: &CircuitCards,
    nets: &TextTable,
) -> Result<Joined, AllocError>
    requires { length names.now < 2 ^ 32 }
    ensures few { OnOk result (length nets.now < 2 ^ 32) }
    ensures pins { IfOk result (λ joined. joined.pins.items ≡ map (place_of nets.now)
        ((circuit_seen c.now).pins ++ needed_of (lists rows.now) globals.now k)) }
    ensures calls { IfOk result (λ joined. map plain_call joined.calls.items
        ≡ map (call_row names.now (needed_of (lists rows.now) globals.now) nets.now)
        (circuit_seen c.now).calls) }
{
    number(nets.len())?;
    let pins = net_numbers(alloc, nets, &c.pins, row_at(rows, k), globals)?;
    let calls = call_rows(alloc, names, rows, globals, nets, &c.calls)?;
    Ok(Joined { pins, calls })
}

// A circuit on these nets, whose pins and calls have them by number.
fn circuit_on(
    alloc: Global,
    name: Name,
    devices: Vec<DeviceCard>,
    nets: Nets,
    joined: Joined,
) -> Result<Circuit, AllocError>
    requires few { length nets.table < 2 ^ 32 }
    requires names { HaveBytes nets.table }
    ensures { IfOk result (λ circuit. plain_circuit circuit ≡ record {
      name = name;
      nets = nets.table;
      pins = joined.pins.items;
      devices = map (device_row nets.table) devices.items;
      calls = map plain_call joined.calls.items;
    }) }
{
    let devices = device_rows(alloc, &nets.table, devices)?;
    let nets = nets.into_names(alloc)?;
    Ok(Circuit {
        name,
        nets,
        pins: joined.pins,
        devices,
        calls: joined.calls,
    })
}

fn circuit_over(
    alloc: Global,
    names: &TextTable,
    rows: &[Vec<u32>],
    globals: &[Name],
    k: usize,
    c: CircuitCards,
    nets: Nets,
) -> Result<Circuit, AllocError>
    requires names { length names.now < 2 ^ 32 }
    requires nets { HaveBytes nets.table }
    ensures { IfOk result (λ circuit. plain_circuit circuit
        ≡ row_over names.now (needed_of (lists rows.now) globals.now) k (circuit_seen c)
        nets.table) }
{
    let joined = joined_by(alloc, names, rows, globals, k, &c, &nets.table)?;
    circuit_on(alloc, c.name, c.devices, nets, joined)
}

fn circuit(
    alloc: Global,
    names: &TextTable,
    rows: &[Vec<u32>],
    globals: &[Name],
    k: usize,
    c: CircuitCards,
) -> Result<Circuit, AllocError>
    requires { length names.now < 2 ^ 32 }
    ensures { IfOk result (λ circuit. plain_circuit circuit
        ≡ circuit_row names.now (needed_of (lists rows.now) globals.now) k (circuit_seen c)) }
{
    let nets = nets_of(alloc, names, rows, globals, k, &c)?;
    circuit_over(alloc, names, rows, globals, k, c, nets)
}

/// The circuits with their nets by number, in normal form. `rows` says which of the global names
/// each circuit needs. Linear in what is made; the cards of each are let go as it is made.
pub fn circuit_rows(
    alloc: Global,
    names: &TextTable,
    rows: &[Vec<u32>],
    globals: &[Name],
    circuits: Vec<CircuitCards>,
) -> Result<Vec<Circuit>, AllocError>
    requires { length names.now < 2 ^ 32 }
    ensures { IfOk result (λ out. map plain_circuit out.items
        ≡ rows_from names.now (needed_of (lists rows.now) globals.now) 0
        (map circuit_seen circuits.items)) }
{
    let mut out = Vec::with_capacity(alloc, circuits.len())?;
    'circuits: for c in circuits {
        out.push(circuit(alloc, names, rows, globals, out.len(), c)?)?;
    }
    Ok(out)
}
