//! The held pins of kept circuits, and the kept circuits, cut.
ghost use Rattle.std.specs.Prelude.{◌≡◌, ℕ, IfOk, IfSome, length, map, slice_get, Some, true};
ghost use Rattle.call_order.specs.Order.{IsCallOrder, lists};
ghost use Rattle.net_align.specs.Flattened.{IsFlattening, AreFlats};
ghost use Rattle.net_align.specs.Kept.{AreHeldPins, AreHeights, AreKeptMarked, Flattened, cut_of};
ghost use Rattle.net_align.specs.Laid.{AreBelow, AreCircuitsBelow};
ghost use Rattle.net_align.specs.Sights.{inner_sights, is_kept, own_pins};
ghost use Rattle.net_model.specs.Faults.{call_lists};
ghost use Rattle.net_model.specs.Rows.{plain_circuit};

use crate::cut::cut;
use crate::numbers::entry;
use crate::sights::{inner_sights, pins_among};
use net_model::Circuit;
use std::alloc::{AllocError, Global};

/// The held pins of each kept circuit, by its number, from the flat circuits. Linear.
pub fn held_pins(
    alloc: Global,
    order: &[u32],
    flats: &[Option<Circuit>],
    numbers: &[Option<u32>],
) -> Result<Vec<Vec<u32>>, AllocError>
    ghost given: { Flattened }
    requires flattening { IsFlattening given.netlist given.goes given.flattening }
    requires order { IsCallOrder (call_lists given.netlist) order.now }
    requires heights { AreHeights given.flattening order.now }
    requires kept { AreKeptMarked given.netlist given.marks numbers.now }
    requires flats { AreFlats given.netlist given.flattening.flats given.marks flats.now }
    ensures { IfOk result (λ held.
        AreHeldPins given.netlist given.flattening.flats numbers.now (lists held.items)) }
{
    let mut held = no_pins(alloc, flats.len())?;
    for circuit in order {
        if entry(numbers, *circuit).is_some() {
            held[*circuit as usize] = own_pins(alloc, &flats[*circuit as usize], numbers, &held)?;
        }
    }
    Ok(held)
}

// Those pins of a flat circuit that are held.
fn own_pins(
    alloc: Global,
    flat: &Option<Circuit>,
    numbers: &[Option<u32>],
    held: &[Vec<u32>],
) -> Result<Vec<u32>, AllocError>
    requires circuits { IfSome flat.now (λ x. AreCircuitsBelow x.calls.items (length held.now)) }
    requires nets { IfSome flat.now (λ x. AreBelow
        (inner_sights numbers.now (lists held.now) (plain_circuit x)) (length x.nets.items)) }
    ensures { IfOk result (λ pins. IfSome flat.now (λ x.
        pins.items ≡ own_pins numbers.now (lists held.now) (plain_circuit x))) }
{
    match flat {
        Some(flat) => {
            let nets = inner_sights(alloc, flat, numbers, held)?;
            pins_among(alloc, &flat.pins, &nets, flat.nets.len())
        }
        None => Ok(Vec::new(alloc)),
    }
}

// No pins of each circuit.
fn no_pins(alloc: Global, count: usize) -> Result<Vec<Vec<u32>>, AllocError>
    ensures { IfOk result (λ held. length held.items ≡ count) }
{
    let mut held = Vec::with_capacity(alloc, count)?;
    for _ in 0..count {
        held.push(Vec::new(alloc))?;
    }
    Ok(held)
}

/// The kept circuits, cut, in the order of their numbers. Linear.
pub fn cut_kept(
    alloc: Global,
    circuits: &[u32],
    flats: &[Option<Circuit>],
    numbers: &[Option<u32>],
    held: &[Vec<u32>],
) -> Result<Vec<Circuit>, AllocError>
    ghost given: { Flattened }
    requires flattening { IsFlattening given.netlist given.goes given.flattening }
    requires kept { AreKeptMarked given.netlist given.marks numbers.now }
    requires flats { AreFlats given.netlist given.flattening.flats given.marks flats.now }
    requires held { AreHeldPins
        given.netlist given.flattening.flats numbers.now (lists held.now) }
    requires circuits { (i c : ℕ) → slice_get circuits.now i ≡ Some c
        → is_kept numbers.now c ≡ true }
    ensures { IfOk result (λ cuts. map plain_circuit cuts.items
        ≡ map (cut_of given.flattening.flats numbers.now (lists held.now)) circuits.now) }
{
    let mut cuts = Vec::with_capacity(alloc, circuits.len())?;
    for circuit in circuits {
        if let Some(flat) = &flats[*circuit as usize] {
            let own = &held[*circuit as usize];
            cuts.push(cut(alloc, flat, numbers, held, own)?)?;
        }
    }
    Ok(cuts)
}
