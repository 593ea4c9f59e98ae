//! Where the parts of an aligned netlist are from.

ghost use Rattle.std.specs.Prelude.{◌≡◌, ◌++◌, ◌∷◌, [], IfOk, OnOk, map};
ghost use Rattle.align_laws.specs.Lists.{given_of};
ghost use Rattle.net_model.specs.Rows.{plain_circuit, plain_netlist};
ghost use Rattle.part_origins.specs.Inside.{all_inside, plain_inside, plain_spot};
ghost use Rattle.part_origins.specs.Made.{held_of, inside_at, made_origins, net_numbers};
ghost use Rattle.part_origins.specs.Made.{origins_by, origins_with};
ghost use Rattle.part_origins.specs.Made.{plain_all, plain_origins};
ghost use Rattle.part_origins.specs.Origins.{AreNamedApart, HaveOrigins};
ghost use Rattle.part_origins.specs.Source.{all_in, origins_in};
ghost use Rattle.plain_netlist.specs.Sound.{IsGood};

use crate::inside::{Inside, Part, Spot, all_inside};
use crate::kept::{going, kept_circuits, no_numbers, number_at, numbered, set_all};
use crate::nets::{held_pins, named_nets, seen_nets};
use crate::parts::{call_parts, device_parts};
use list_base::number;
use net_model::{Circuit, Netlist};
use std::alloc::{AllocError, Global};

/// Where the parts of a circuit of an aligned netlist are from: its number in the given netlist;
/// for each of its devices and calls the spot inside it and the number there; and its number of
/// each net of the flat circuit, none where that is dropped.
#[derive(Drop)]
pub struct CircuitOrigins {
    pub circuit: u32,
    pub devices: Vec<Part>,
    pub calls: Vec<Part>,
    pub nets: Vec<Option<u32>>,
}

/// What stands inside each circuit of the given netlist, and where the parts of each circuit of the
/// aligned one are from.
#[derive(Drop)]
pub struct Origins {
    pub insides: Vec<Inside>,
    pub circuits: Vec<CircuitOrigins>,
}

/// A netlist that was aligned, what stands inside each of its circuits, and the number that each
/// has in the aligned netlist, none where it isn't kept.
#[derive(Clone, Copy)]
struct Source<'a> {
    written: &'a Netlist,
    insides: &'a [Inside],
    numbers: &'a [Option<u32>],
}

fn spots_of(insides: &[Inside], c: u32) -> &[Spot]
    ensures { map plain_spot result.now ≡ (inside_at (map plain_inside insides.now) c).spots }
{
    match insides.get(c as usize) {
        Some(inside) => &inside.spots,
        None => &[],
    }
}

fn count_of(insides: &[Inside], c: u32) -> u32
    ensures { result ≡ (inside_at (map plain_inside insides.now) c).count }
{
    match insides.get(c as usize) {
        Some(inside) => inside.count,
        None => 0,
    }
}

fn pins_of(written: &Netlist, c: u32) -> &[u32]
    ensures { result.now ≡ (given_of (plain_netlist written.now) c).pins }
{
    match written.circuits.get(c as usize) {
        Some(circuit) => &circuit.pins,
        None => &[],
    }
}

// The numbers of a flat circuit's nets in the aligned circuit.
fn net_numbers(
    alloc: Global,
    written: &Netlist,
    spots: &[Spot],
    count: u32,
    numbers: &[Option<u32>],
    held: &[Vec<u32>],
    aligned: &Circuit,
) -> Result<Vec<Option<u32>>, AllocError>
    ensures { IfOk result (λ t. t.items ≡ net_numbers (plain_netlist written.now) numbers.now
        (map (λ p. p.items) held.now) count (map plain_spot spots.now)
        (plain_circuit aligned.now)) }
{
    let seen = seen_nets(alloc, written, spots, numbers, held)?;
    let named = named_nets(alloc, aligned)?;
    let mut nets = no_numbers(alloc, count as usize)?;
    set_all(&mut nets, &seen, &named)?;
    Ok(nets)
}

fn origins_of(
    alloc: Global,
    source: &Source<'_>,
    held: &[Vec<u32>],
    c: u32,
    aligned: &Circuit,
) -> Result<CircuitOrigins, AllocError>
    ensures made { IfOk result (λ x. plain_origins x ≡ origins_in source.now
        (map (λ p. p.items) held.now) c (plain_circuit aligned.now)) }
    ensures nets { IfOk result (λ x. x.nets.items ≡ (origins_in source.now
        (map (λ p. p.items) held.now) c (plain_circuit aligned.now)).nets) }
{
    let (written, numbers) = (source.written, source.numbers);
    let spots = spots_of(source.insides, c);
    let count = count_of(source.insides, c);
    Ok(CircuitOrigins {
        circuit: c,
        devices: device_parts(alloc, written, spots)?,
        calls: call_parts(alloc, written, spots, numbers)?,
        nets: net_numbers(alloc, written, spots, count, numbers, held, aligned)?,
    })
}

// Those of a circuit's pins that have numbers.
fn held_of(
    alloc: Global,
    written: &Netlist,
    c: u32,
    nets: &[Option<u32>],
) -> Result<Vec<u32>, AllocError>
    ensures { IfOk result (λ v. v.items ≡ held_of (plain_netlist written.now) c nets.now) }
{
    held_pins(alloc, nets, pins_of(written, c))
}

fn add_pins(held: &mut Vec<Vec<u32>>, pins: Vec<u32>) -> Result<(), AllocError>
    ensures { OnOk result (map (λ p. p.items) held.new.items
        ≡ map (λ p. p.items) held.old.items ++ pins.items ∷ []) }
{
    held.push(pins)?;
    Ok(())
}

// Adds the origins of circuit c, which is this one of the aligned netlist, and its held pins.
fn add_origins(
    alloc: Global,
    source: &Source<'_>,
    c: u32,
    aligned: &Circuit,
    held: &mut Vec<Vec<u32>>,
    found: &mut Vec<CircuitOrigins>,
) -> Result<(), AllocError>
    ensures found { OnOk result (map plain_origins found.new.items
        ≡ map plain_origins found.old.items ++ origins_in source.now
        (map (λ p. p.items) held.old.items) c (plain_circuit aligned.now) ∷ []) }
    ensures held { OnOk result (map (λ p. p.items) held.new.items
        ≡ map (λ p. p.items) held.old.items ++ held_of (plain_netlist source.now.written.now) c
        (origins_in source.now (map (λ p. p.items) held.old.items) c
        (plain_circuit aligned.now)).nets ∷ []) }
{
    let one = origins_of(alloc, source, held, c, aligned)?;
    add_pins(held, held_of(alloc, source.written, c, &one.nets)?)?;
    found.push(one)?;
    Ok(())
}

// The origins of one circuit of the aligned netlist after the other; `kept` has the number of each
// in the given netlist.
fn all_origins(
    alloc: Global,
    source: &Source<'_>,
    kept: &[u32],
    aligned: &[Circuit],
) -> Result<Vec<CircuitOrigins>, AllocError>
    ensures { IfOk result (λ v. map plain_origins v.items ≡ all_in source.now kept.now 0 []
        (map plain_circuit aligned.now)) }
{
    number(aligned.len())?;
    let mut held: Vec<Vec<u32>> = Vec::new(alloc);
    let mut found = Vec::new(alloc);
    let mut i = 0;
    let mut rest = aligned;
    'circuits: while let [circuit, more @ ..] = rest {
        let c = number_at(kept, i);
        add_origins(alloc, source, c, circuit, &mut held, &mut found)?;
        i += 1;
        rest = more;
    }
    Ok(found)
}

fn with_insides(
    alloc: Global,
    written: &Netlist,
    aligned: &Netlist,
    kept: &[u32],
    numbers: &[Option<u32>],
    insides: Vec<Inside>,
) -> Result<Origins, AllocError>
    ensures { IfOk result (λ x. plain_all x ≡ origins_by (plain_netlist written.now)
        (plain_netlist aligned.now) kept.now numbers.now (map plain_inside insides.items)) }
{
    let source = Source {
        written,
        insides: &insides,
        numbers,
    };
    let circuits = all_origins(alloc, &source, kept, &aligned.circuits)?;
    Ok(Origins { insides, circuits })
}

fn with_numbers(
    alloc: Global,
    written: &Netlist,
    aligned: &Netlist,
    kept: &[u32],
    numbers: &[Option<u32>],
) -> Result<Origins, AllocError>
    ensures { IfOk result (λ x. plain_all x ≡ origins_with (plain_netlist written.now)
        (plain_netlist aligned.now) kept.now numbers.now) }
{
    let goes = going(alloc, &written.circuits, numbers)?;
    let insides = all_inside(alloc, &written.circuits, &goes)?;
    with_insides(alloc, written, aligned, kept, numbers, insides)
}

fn make_origins(alloc: Global, written: &Netlist, aligned: &Netlist) -> Result<Origins, AllocError>
    ensures { IfOk result (λ x. plain_all x
        ≡ made_origins (plain_netlist written.now) (plain_netlist aligned.now)) }
{
    let kept = kept_circuits(alloc, &written.circuits, &aligned.circuits)?;
    let numbers = numbered(alloc, &kept, written.circuits.len())?;
    with_numbers(alloc, written, aligned, &kept, &numbers)
}

/// Where the parts of an aligned netlist are from, for each of its circuits: its devices and calls
/// in order, and the numbers that nets of the circuits inside it have in it. The circuits of both
/// netlists stand behind those that they call.
///
/// Linear in what flattening makes of the circuits: what stands inside one that goes counts once
/// for each call; paths are shared, since each spot names the part of an earlier one by which it is
/// called. Err only where memory is refused or a list is longer than numbers of 32 bits count.
pub fn part_origins(
    alloc: Global,
    written: &Netlist,
    aligned: &Netlist,
) -> Result<Origins, AllocError>
    requires written { IsGood (plain_netlist written.now) (λ k. k) }
    requires names { AreNamedApart (plain_netlist written.now) }
    requires aligned { IsGood (plain_netlist aligned.now) (λ k. k) }
    ensures { IfOk result (λ x.
        HaveOrigins (plain_netlist written.now) (plain_netlist aligned.now) (plain_all x)) }
{
    let origins = make_origins(alloc, written, aligned)?;
    Ok(origins)
}
