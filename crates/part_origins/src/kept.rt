//! Which circuits of a netlist an aligned one has, and which are flattened into their callers.

ghost use Rattle.std.specs.Prelude.{◌≡◌, ◌==◌, ◌&&◌, [], None, Some, IfOk, OnOk, false, length};
ghost use Rattle.std.specs.Prelude.{map, not, replicate, slice_index_or, slice_set};
ghost use Rattle.std.specs.List.{list_any, range_with_len};
ghost use Rattle.net_model.specs.Rows.{plain_call, plain_circuit, plain_device};
ghost use Rattle.part_origins.specs.Kept.{going, holding, holds, is_kept, numbered};
ghost use Rattle.part_origins.specs.Kept.{places_in, set_all, texts_from};

use crate::inside::{is_marked, own_nets};
use list_base::number;
use net_model::{CallRow, Circuit, DeviceRow};
use std::alloc::{AllocError, Global};
use text_table::TextTable;

// The names of circuits, each once.
fn name_table(alloc: Global, circuits: &[Circuit]) -> Result<TextTable, AllocError>
    ensures { IfOk result (λ t. t ≡ texts_from [] (map plain_circuit circuits.now)) }
{
    let mut table = TextTable::new(alloc);
    let mut rest = circuits;
    'circuits: while let [circuit, more @ ..] = rest {
        table.number(alloc, circuit.name.bytes())?;
        rest = more;
    }
    Ok(table)
}

fn places_in(alloc: Global, table: &TextTable, circuits: &[Circuit]) -> Result<Vec<u32>, AllocError>
    ensures { IfOk result (λ v. v.items ≡ places_in table.now (map plain_circuit circuits.now)) }
{
    let mut places = Vec::new(alloc);
    let mut rest = circuits;
    'circuits: while let [circuit, more @ ..] = rest {
        places.push(number(table.place(circuit.name.bytes()))?)?;
        rest = more;
    }
    Ok(places)
}

/// For each circuit of an aligned netlist the number of the given one of its name. Linear in the
/// names.
pub fn kept_circuits(
    alloc: Global,
    given: &[Circuit],
    aligned: &[Circuit],
) -> Result<Vec<u32>, AllocError>
    ensures { IfOk result (λ v. v.items
        ≡ places_in (texts_from [] (map plain_circuit given.now))
        (map plain_circuit aligned.now)) }
{
    let table = name_table(alloc, given)?;
    places_in(alloc, &table, aligned)
}

/// What a table has for a number, none past its end.
pub fn entry(table: &[Option<u32>], n: u32) -> Option<u32>
    ensures { result ≡ slice_index_or table.now n None }
{
    match table.get(n as usize) {
        Some(found) => *found,
        None => None,
    }
}

/// The number at a place, 0 past the end.
pub fn number_at(numbers: &[u32], i: u32) -> u32
    ensures { result ≡ slice_index_or numbers.now i 0 }
{
    match numbers.get(i as usize) {
        Some(found) => *found,
        None => 0,
    }
}

/// A table of nothing.
pub fn no_numbers(alloc: Global, count: usize) -> Result<Vec<Option<u32>>, AllocError>
    ensures { IfOk result (λ table. table.items ≡ replicate count None) }
{
    vec![in alloc; None; count]
}

fn set(table: &mut Vec<Option<u32>>, n: u32, m: u32)
    ensures { table.new.items ≡ slice_set table.old.items n (Some m) }
{
    if (n as usize) < table.len() {
        table[n as usize] = Some(m);
    }
}

/// Gives each of these places of a table the value that stands at the same place of the values.
/// Linear.
pub fn set_all(table: &mut Vec<Option<u32>>, at: &[u32], values: &[u32]) -> Result<(), AllocError>
    ensures { OnOk result (table.new.items ≡ set_all table.old.items 0 at.now values.now) }
{
    number(at.len())?;
    let mut i = 0;
    let mut rest = at;
    'places: while let [n, more @ ..] = rest {
        set(table, *n, number_at(values, i));
        i += 1;
        rest = more;
    }
    Ok(())
}

/// The place in a list of each number below `count`, if it is there. Linear.
pub fn numbered(alloc: Global, list: &[u32], count: usize) -> Result<Vec<Option<u32>>, AllocError>
    ensures { IfOk result (λ table. table.items ≡ numbered list.now count) }
{
    let mut table = no_numbers(alloc, count)?;
    let places = own_nets(alloc, number(list.len())?)?;
    set_all(&mut table, list, &places)?;
    Ok(table)
}

fn some_marked(marks: &[bool], calls: &[CallRow]) -> bool
    ensures { result ≡ list_any (λ r. slice_index_or marks.now r.circuit false) calls.now }
{
    calls.iter().any(|call| is_marked(marks, call.circuit))
}

fn calls_marked(marks: &[bool], calls: &[CallRow]) -> bool
    ensures { result ≡ list_any (λ r. slice_index_or marks.now r.circuit false)
        (map plain_call calls.now) }
{
    some_marked(marks, calls)
}

fn has_devices(devices: &[DeviceRow]) -> bool
    ensures { result ≡ not (length (map plain_device devices.now) == 0) }
{
    !devices.is_empty()
}

fn holds(marks: &[bool], circuit: &Circuit) -> bool
    ensures { result ≡ holds marks.now (plain_circuit circuit.now) }
{
    has_devices(&circuit.devices) || calls_marked(marks, &circuit.calls)
}

// For each circuit whether a device stands in it or below it; each stands behind those that it
// calls. Linear in the calls.
fn holding(alloc: Global, circuits: &[Circuit]) -> Result<Vec<bool>, AllocError>
    ensures { IfOk result (λ marks. marks.items ≡ holding [] (map plain_circuit circuits.now)) }
{
    let mut marks = Vec::new(alloc);
    let mut rest = circuits;
    'circuits: while let [circuit, more @ ..] = rest {
        let found = holds(&marks, circuit);
        marks.push(found)?;
        rest = more;
    }
    Ok(marks)
}

/// Whether a circuit has a number.
pub fn is_kept(numbers: &[Option<u32>], c: u32) -> bool
    ensures { result ≡ is_kept numbers.now c }
{
    entry(numbers, c).is_some()
}

fn going_of(alloc: Global, numbers: &[Option<u32>], marks: &[bool]) -> Result<Vec<bool>, AllocError>
    ensures { IfOk result (λ goes. goes.items ≡ going numbers.now 0 marks.now) }
{
    number(marks.len())?;
    let mut goes = Vec::new(alloc);
    let mut c = 0;
    let mut rest = marks;
    'marks: while let [mark, more @ ..] = rest {
        goes.push(!is_kept(numbers, c) && *mark)?;
        c += 1;
        rest = more;
    }
    Ok(goes)
}

/// Which circuits go into their callers: those with a device in or below them that have no number.
/// Linear in the calls.
pub fn going(
    alloc: Global,
    circuits: &[Circuit],
    numbers: &[Option<u32>],
) -> Result<Vec<bool>, AllocError>
    ensures { IfOk result (λ goes. goes.items
        ≡ going numbers.now 0 (holding [] (map plain_circuit circuits.now))) }
{
    let marks = holding(alloc, circuits)?;
    going_of(alloc, numbers, &marks)
}
