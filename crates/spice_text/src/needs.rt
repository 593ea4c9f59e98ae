//! Which global names each circuit needs, for itself and for what it calls.

ghost use Rattle.std.specs.Prelude.{◌≡◌, ◌<◌, ◌^◌, ◌++◌, ℕ, [], flat_map, map, length};
ghost use Rattle.std.specs.Prelude.{IfOk, OnOk};
ghost use Rattle.std.specs.List.{filter};
ghost use Rattle.std.specs.List.Sorted.{IsStrictlyIncreasing};
ghost use Rattle.call_order.specs.Order.{lists, IsCallOrder};
ghost use Rattle.spice_rows.specs.Seen.{call_seen};
ghost use Rattle.spice_text.specs.Circuits.{call_lists};
ghost use Rattle.spice_text.specs.Needs.{first_seen, device_nets, used_nets};
ghost use Rattle.spice_text.specs.Table.{AreGlobals, has_number, with_number, with_numbers};
ghost use Rattle.spice_text.specs.Table.{with_calls, rows_of, is_free, IsNeedRow, IsRowSet};
ghost use Rattle.spice_text.specs.Table.{IsNeedTable};
ghost use Rattle.spice_text.specs.Seen.{circuit_seen};

use crate::gather::CircuitCards;
use crate::nets::{Nets, row_at};
use list_base::number;
use net_names::Name;
use spice_rows::{CallCard, DeviceCard};
use std::alloc::{AllocError, Global};
use text_table::TextTable;

/// Global names, each once: a table in which they are looked up, and the names by their places.
#[derive(Drop)]
pub struct Globals {
    pub table: TextTable,
    pub names: Vec<Name>,
}

/// The names, each once, in order of first appearance. 2^32 of them are refused.
pub fn each_once(alloc: Global, names: &[Name]) -> Result<Globals, AllocError>
    ensures table { IfOk result (λ globals. globals.table ≡ first_seen [] names.now) }
    ensures globals { IfOk result AreGlobals }
{
    let once = names_once(alloc, names)?;
    number(once.len())?;
    let nets = Nets::of(alloc, names)?;
    Ok(Globals {
        table: nets.table,
        names: once,
    })
}

// The names, each once, as a list.
fn names_once(alloc: Global, names: &[Name]) -> Result<Vec<Name>, AllocError>
    ensures { IfOk result (λ once. once.items ≡ first_seen [] names.now) }
{
    let nets = Nets::of(alloc, names)?;
    nets.into_names(alloc)
}

fn push_number(out: &mut Vec<u32>, globals: &TextTable, name: &[u8]) -> Result<(), AllocError>
    requires { length globals.now < 2 ^ 32 }
    ensures { OnOk result (out.new.items ≡ with_number globals.now out.old.items name.now) }
{
    let place = globals.place(name);
    if place < globals.len() {
        out.push(place as u32)?;
    }
    Ok(())
}

fn push_all(out: &mut Vec<u32>, globals: &TextTable, names: &[Name]) -> Result<(), AllocError>
    requires { length globals.now < 2 ^ 32 }
    ensures { OnOk result (out.new.items ≡ with_numbers globals.now out.old.items names.now) }
{
    let mut rest = names;
    'names: while let [name, more @ ..] = rest {
        push_number(out, globals, name.bytes())?;
        rest = more;
    }
    Ok(())
}

fn push_device(out: &mut Vec<u32>, globals: &TextTable, d: &DeviceCard) -> Result<(), AllocError>
    requires { length globals.now < 2 ^ 32 }
    ensures { OnOk result (out.new.items
        ≡ with_numbers globals.now out.old.items (device_nets d.now)) }
{
    'nets: for place in 0..d.kind().terminals() {
        push_number(out, globals, d.net(place))?;
    }
    Ok(())
}

fn push_devices(
    out: &mut Vec<u32>,
    globals: &TextTable,
    devices: &[DeviceCard],
) -> Result<(), AllocError>
    requires { length globals.now < 2 ^ 32 }
    ensures { OnOk result (out.new.items
        ≡ with_numbers globals.now out.old.items
        (flat_map device_nets devices.now)) }
{
    let mut rest = devices;
    'devices: while let [device, more @ ..] = rest {
        push_device(out, globals, device)?;
        rest = more;
    }
    Ok(())
}

fn push_call(out: &mut Vec<u32>, globals: &TextTable, call: &CallCard) -> Result<(), AllocError>
    requires { length globals.now < 2 ^ 32 }
    ensures { OnOk result (out.new.items
        ≡ with_numbers globals.now out.old.items (call_seen call.now).nets) }
{
    push_all(out, globals, &call.nets)
}

fn push_calls(out: &mut Vec<u32>, globals: &TextTable, calls: &[CallCard]) -> Result<(), AllocError>
    requires { length globals.now < 2 ^ 32 }
    ensures { OnOk result (out.new.items
        ≡ with_calls globals.now out.old.items (map call_seen calls.now)) }
{
    let mut rest = calls;
    'calls: while let [call, more @ ..] = rest {
        push_call(out, globals, call)?;
        rest = more;
    }
    Ok(())
}

// The numbers of the global names that a circuit's cards name.
fn used(alloc: Global, globals: &TextTable, c: &CircuitCards) -> Result<Vec<u32>, AllocError>
    requires { length globals.now < 2 ^ 32 }
    ensures { IfOk result (λ out. out.items
        ≡ with_numbers globals.now [] (used_nets (circuit_seen c.now))) }
{
    let mut out = Vec::new(alloc);
    push_devices(&mut out, globals, &c.devices)?;
    push_calls(&mut out, globals, &c.calls)?;
    Ok(out)
}

fn push_rows(out: &mut Vec<u32>, rows: &[Vec<u32>], called: &[u32]) -> Result<(), AllocError>
    ensures { OnOk result (out.new.items ≡ out.old.items ++ rows_of (lists rows.now) called.now) }
{
    let mut rest = called;
    'called: while let [b, more @ ..] = rest {
        out.extend_from_slice(row_at(rows, *b as usize))?;
        rest = more;
    }
    Ok(())
}

// The numbers in rising order, each once.
fn rising(numbers: Vec<u32>) -> Vec<u32>
    ensures rising { IsStrictlyIncreasing result.items }
    ensures same { (j : ℕ) → has_number result.items j ≡ has_number numbers.items j }
{
    let mut numbers = numbers;
    numbers.sort_unstable();
    numbers.dedup();
    numbers
}

fn is_free(pins: &TextTable, globals: &[Name], j: u32) -> bool
    ensures { result ≡ is_free pins.now globals.now j }
{
    match globals.get(j as usize) {
        None => false,
        Some(g) => !pins.contains(g.bytes()),
    }
}

// Those numbers of global names that are no pins.
fn free_numbers(
    alloc: Global,
    pins: &TextTable,
    globals: &[Name],
    numbers: &[u32],
) -> Result<Vec<u32>, AllocError>
    ensures { IfOk result (λ row. row.items ≡ filter (is_free pins.now globals.now) numbers.now) }
{
    let mut row = Vec::new(alloc);
    let mut rest = numbers;
    'numbers: while let [j, more @ ..] = rest {
        if is_free(pins, globals, *j) {
            row.push(*j)?;
        }
        rest = more;
    }
    Ok(row)
}

fn less_pins(
    alloc: Global,
    c: &CircuitCards,
    globals: &[Name],
    numbers: &[u32],
) -> Result<Vec<u32>, AllocError>
    ensures { IfOk result (λ row. row.items
        ≡ filter (is_free (first_seen [] (circuit_seen c.now).pins) globals.now) numbers.now) }
{
    if numbers.is_empty() {
        return Ok(Vec::new(alloc));
    }
    let pins = Nets::of(alloc, &c.pins)?;
    free_numbers(alloc, &pins.table, globals, numbers)
}

// The global names that a circuit needs, where the rows of those that it calls are there.
fn need_row(
    alloc: Global,
    c: &CircuitCards,
    called: &[u32],
    globals: &Globals,
    rows: &[Vec<u32>],
) -> Result<Vec<u32>, AllocError>
    requires { AreGlobals globals.now }
    ensures { IfOk result (λ row. IsNeedRow (circuit_seen c.now) called.now (lists rows.now)
        globals.now.table row.items) }
{
    let mut found = used(alloc, &globals.table, c)?;
    push_rows(&mut found, rows, called)?;
    let numbers = rising(found);
    less_pins(alloc, c, &globals.names, &numbers)
}

// Settles the row of circuit k.
fn settle(
    alloc: Global,
    circuits: &[CircuitCards],
    calls: &[Vec<u32>],
    globals: &Globals,
    rows: &mut Vec<Vec<u32>>,
    k: usize,
) -> Result<(), AllocError>
    requires globals { AreGlobals globals.now }
    requires circuit { k < length circuits.now }
    requires called { k < length calls.now }
    requires row { k < length rows.old.items }
    ensures { OnOk result (IsRowSet (map circuit_seen circuits.now) (lists calls.now)
        globals.now.table (lists rows.old.items) (lists rows.new.items) k) }
{
    let row = need_row(alloc, &circuits[k], &calls[k], globals, rows)?;
    rows[k] = row;
    Ok(())
}

fn no_rows(alloc: Global, count: usize) -> Result<Vec<Vec<u32>>, AllocError>
    ensures { IfOk result (λ rows. length rows.items ≡ count) }
{
    let mut rows = Vec::with_capacity(alloc, count)?;
    for _ in 0..count {
        rows.push(Vec::new(alloc))?;
    }
    Ok(rows)
}

/// For each circuit, the rising numbers of the global names that it needs, in one pass over an
/// order of the calls. Linear in the cards and in the needed names of circuits and calls, but for
/// sorting.
pub fn need_table(
    alloc: Global,
    circuits: &[CircuitCards],
    calls: &[Vec<u32>],
    order: &[u32],
    globals: &Globals,
) -> Result<Vec<Vec<u32>>, AllocError>
    requires globals { AreGlobals globals.now }
    requires calls { lists calls.now ≡ call_lists (map circuit_seen circuits.now) }
    requires order { IsCallOrder (call_lists (map circuit_seen circuits.now)) order.now }
    ensures { IfOk result (λ rows.
        IsNeedTable (map circuit_seen circuits.now) globals.now.table (lists rows.items)) }
{
    let mut rows = no_rows(alloc, circuits.len())?;
    'order: for i in 0..order.len() {
        settle(
            alloc,
            circuits,
            calls,
            globals,
            &mut rows,
            order[i] as usize,
        )?;
    }
    Ok(rows)
}
