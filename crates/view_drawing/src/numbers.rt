//! The circuit's number of each net of its cell, which their names tell.

ghost use Rattle.std.specs.Prelude.{◌≡◌, [], ℕ, List, IfOk, length, map};
ghost use Rattle.deep_tables.specs.Pins.{plain_pins};
ghost use Rattle.flat_layout.specs.Circuits.{AreCircuitNets};
ghost use Rattle.plain_netlist.specs.Netlist.{Circuit};
ghost use Rattle.spice_text.specs.Needs.{first_seen};
ghost use Rattle.text_table.specs.Texts.{place_of};
ghost use Rattle.view_drawing.specs.Numbers.{left_if, next_if, spread};
ghost use Rattle.view_drawing.specs.Shown.{TellsNets};

use circuit_phase::drawn_names;
use deep_tables::CellPins;
use list_base::number;
use net_names::Name;
use std::alloc::{AllocError, Global};
use table_laws::sound_netlist;
use text_table::TextTable;

/// A table of names. Linear in their bytes.
pub fn name_table(alloc: Global, names: &[Name]) -> Result<TextTable, AllocError>
    ensures { IfOk result (λ t. t ≡ first_seen [] names.now) }
{
    let mut table = TextTable::new(alloc);
    let mut rest = names;
    'names: while let [name, more @ ..] = rest {
        table.number(alloc, name.bytes())?;
        rest = more;
    }
    Ok(table)
}

// Of each of these names its place in a table.
fn places_of(alloc: Global, table: &TextTable, names: &[Name]) -> Result<Vec<u32>, AllocError>
    ensures { IfOk result (λ v. v.items ≡ map (place_of table.now) names.now) }
{
    let mut places = Vec::with_capacity(alloc, names.len())?;
    let mut rest = names;
    'names: while let [name, more @ ..] = rest {
        places.push(number(table.place(name.bytes()))?)?;
        rest = more;
    }
    Ok(places)
}

// The number that stands next, where it is wanted: then the others are left.
fn next_if(left: &[u32], wanted: bool) -> (Option<u32>, &[u32])
    ensures number { result.0 ≡ next_if wanted left.now }
    ensures left { result.1.now ≡ left_if wanted left.now }
{
    match (wanted, left) {
        (true, [n, more @ ..]) => (Some(*n), more),
        _ => (None, left),
    }
}

// For each mark the number that stands next, where it is set.
fn spread(alloc: Global, marks: &[bool], numbers: &[u32]) -> Result<Vec<Option<u32>>, AllocError>
    ensures { IfOk result (λ v. v.items ≡ spread marks.now numbers.now) }
{
    let mut out = Vec::with_capacity(alloc, marks.len())?;
    let mut left = numbers;
    let mut rest = marks;
    'marks: while let [is, more @ ..] = rest {
        let next = next_if(left, *is);
        out.push(next.0)?;
        left = next.1;
        rest = more;
    }
    Ok(out)
}

/// For each net of a cell, the number of its circuit's net, where it is drawn: the circuit's net of
/// the same name, as no two of a cell's drawn nets have one name. Nothing is told where a cell has
/// not as many names as nets; 2^32 nets are refused. Linear in the cell's nets and the bytes of
/// their names.
pub fn net_numbers(
    alloc: Global,
    pins: &CellPins,
    drawn: &[bool],
    names: &[Name],
) -> Result<Vec<Option<u32>>, AllocError>
    ensures { IfOk result (λ v. length pins.now.names.items ≡ length drawn.now
        → (nets : List ℕ) (c : Circuit) → c.nets ≡ names.now
        → AreCircuitNets (plain_pins pins.now) drawn.now nets c
        → TellsNets drawn.now v.items nets) }
{
    sound_netlist();
    number(drawn.len())?;
    if pins.names.len() != drawn.len() {
        return Ok(Vec::new(alloc));
    }
    let table = name_table(alloc, names)?;
    let own = drawn_names(alloc, pins, drawn)?;
    let places = places_of(alloc, &table, &own)?;
    drop(own);
    drop(table);
    let numbers = spread(alloc, drawn, &places)?;
    Ok(numbers)
}
