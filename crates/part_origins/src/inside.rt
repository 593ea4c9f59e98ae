//! What stands inside flat circuits: the circuits at the ends of paths of calls that are flattened.

ghost use Rattle.std.specs.Prelude.{◌≡◌, ◌+◌, ◌++◌, [], IfOk, OnOk, map, slice_index_or, false};
ghost use Rattle.std.specs.List.{range_with_len};
ghost use Rattle.align_laws.specs.Lists.{net_at_pin};
ghost use Rattle.net_model.specs.Rows.{plain_call, plain_circuit};
ghost use Rattle.part_origins.specs.Inside.{all_inside, inside_of, laid, laid_if, moved_by};
ghost use Rattle.part_origins.specs.Inside.{moved_spot, own_inside, plain_inside, plain_spot};

use list_base::number;
use net_model::{CallRow, Circuit};
use std::alloc::{AllocError, Global};

/// The net, device or call of this number in a circuit that stands inside another one, by the
/// number of the spot where it stands.
#[derive(Clone, Copy, Debug, PartialEq, Eq)]
pub struct Part {
    pub spot: u32,
    pub number: u32,
}

/// A circuit that stands inside a flat one: the call that brings it, none for the flat one itself;
/// its number; and the flat circuit's number of each of its nets.
#[derive(Drop)]
pub struct Spot {
    pub by: Option<Part>,
    pub circuit: u32,
    pub nets: Vec<u32>,
}

/// What stands inside a flat circuit, each behind the one that calls it, and how many nets there
/// are in all.
#[derive(Drop)]
pub struct Inside {
    pub spots: Vec<Spot>,
    pub count: u32,
}

// Where a net of a called circuit stands: on the call's net at its pin, or behind the nets that are
// there.
fn stand(pins: &[u32], behind: u32, n: u32) -> Result<u32, AllocError>
    ensures { IfOk result (λ m. m ≡ net_at_pin pins.now (λ i. behind + i) n) }
{
    let at = n as usize;
    if at < pins.len() {
        return Ok(pins[at]);
    }
    number(behind as usize + (at - pins.len()))
}

fn stand_all(alloc: Global, pins: &[u32], behind: u32, nets: &[u32]) -> Result<Vec<u32>, AllocError>
    ensures { IfOk result (λ to. to.items
        ≡ map (net_at_pin pins.now (λ i. behind + i)) nets.now) }
{
    let mut to = Vec::new(alloc);
    let mut rest = nets;
    'nets: while let [n, more @ ..] = rest {
        to.push(stand(pins, behind, *n)?)?;
        rest = more;
    }
    Ok(to)
}

// By what a spot is called in the caller, where call k brings it behind so many spots.
fn moved_by(k: u32, base: u32, by: Option<Part>) -> Result<Part, AllocError>
    ensures { IfOk result (λ p. p ≡ moved_by k base by) }
{
    match by {
        None => Ok(Part { spot: 0, number: k }),
        Some(part) => Ok(Part {
            spot: number(base as usize + part.spot as usize)?,
            number: part.number,
        }),
    }
}

fn moved_spot(
    alloc: Global,
    k: u32,
    base: u32,
    pins: &[u32],
    behind: u32,
    spot: &Spot,
) -> Result<Spot, AllocError>
    ensures { IfOk result (λ s. plain_spot s
        ≡ moved_spot k base (net_at_pin pins.now (λ i. behind + i)) (plain_spot spot.now)) }
{
    Ok(Spot {
        by: Some(moved_by(k, base, spot.by)?),
        circuit: spot.circuit,
        nets: stand_all(alloc, pins, behind, &spot.nets)?,
    })
}

fn add_spots(
    alloc: Global,
    spots: &mut Vec<Spot>,
    k: u32,
    base: u32,
    pins: &[u32],
    behind: u32,
    inner: &[Spot],
) -> Result<(), AllocError>
    ensures { OnOk result (map plain_spot spots.new.items ≡ map plain_spot spots.old.items
        ++ map (moved_spot k base (net_at_pin pins.now (λ i. behind + i)))
        (map plain_spot inner.now)) }
{
    let mut rest = inner;
    'spots: while let [spot, more @ ..] = rest {
        spots.push(moved_spot(alloc, k, base, pins, behind, spot)?)?;
        rest = more;
    }
    Ok(())
}

// What call k with these nets brings, laid in.
fn lay_in(
    alloc: Global,
    inside: &mut Inside,
    k: u32,
    pins: &[u32],
    inner: &Inside,
) -> Result<(), AllocError>
    ensures { OnOk result (plain_inside inside.new
        ≡ laid k pins.now (plain_inside inner.now) (plain_inside inside.old)) }
{
    let base = number(inside.spots.len())?;
    let behind = inside.count;
    add_spots(
        alloc,
        &mut inside.spots,
        k,
        base,
        pins,
        behind,
        &inner.spots,
    )?;
    let more = (inner.count as usize).saturating_sub(pins.len());
    inside.count = number(behind as usize + more)?;
    Ok(())
}

/// Whether there is a mark and it is set.
pub fn is_marked(marks: &[bool], c: u32) -> bool
    ensures { result ≡ slice_index_or marks.now c false }
{
    match marks.get(c as usize) {
        Some(mark) => *mark,
        None => false,
    }
}

fn lay_call(
    alloc: Global,
    inside: &mut Inside,
    k: u32,
    call: &CallRow,
    goes: &[bool],
    known: &[Inside],
) -> Result<(), AllocError>
    ensures { OnOk result (plain_inside inside.new
        ≡ laid_if goes.now (map plain_inside known.now) k (plain_call call.now)
        (plain_inside inside.old)) }
{
    if !is_marked(goes, call.circuit) {
        return Ok(());
    }
    match known.get(call.circuit as usize) {
        Some(inner) => lay_in(alloc, inside, k, &call.nets, inner),
        None => Ok(()),
    }
}

/// The numbers below `count`.
pub fn own_nets(alloc: Global, count: u32) -> Result<Vec<u32>, AllocError>
    ensures { IfOk result (λ nets. nets.items ≡ range_with_len 0 count) }
{
    let mut nets = Vec::new(alloc);
    for n in 0..count {
        nets.push(n)?;
    }
    Ok(nets)
}

// The circuit alone.
fn own_inside(alloc: Global, circuit: u32, count: u32) -> Result<Inside, AllocError>
    ensures { IfOk result (λ x. plain_inside x ≡ own_inside circuit count) }
{
    let mut spots = Vec::new(alloc);
    spots.push(Spot {
        by: None,
        circuit,
        nets: own_nets(alloc, count)?,
    })?;
    Ok(Inside { spots, count })
}

// What stands inside the flat circuit of this number. `known` has that of those that it calls.
fn inside_of(
    alloc: Global,
    circuit: u32,
    given: &Circuit,
    goes: &[bool],
    known: &[Inside],
) -> Result<Inside, AllocError>
    ensures { IfOk result (λ x. plain_inside x
        ≡ inside_of goes.now (map plain_inside known.now) circuit (plain_circuit given.now)) }
{
    let mut inside = own_inside(alloc, circuit, number(given.nets.len())?)?;
    number(given.calls.len())?;
    let mut k = 0;
    let mut rest = given.calls.as_slice();
    'calls: while let [call, more @ ..] = rest {
        lay_call(alloc, &mut inside, k, call, goes, known)?;
        k += 1;
        rest = more;
    }
    Ok(inside)
}

/// What stands inside each flat circuit, by their numbers; `goes` marks the circuits that are
/// flattened into their callers. Linear in what is made: what stands inside a circuit that goes
/// counts once for each call.
pub fn all_inside(
    alloc: Global,
    circuits: &[Circuit],
    goes: &[bool],
) -> Result<Vec<Inside>, AllocError>
    ensures { IfOk result (λ v. map plain_inside v.items
        ≡ all_inside goes.now [] 0 (map plain_circuit circuits.now)) }
{
    number(circuits.len())?;
    let mut known = Vec::new(alloc);
    let mut c = 0;
    let mut rest = circuits;
    'circuits: while let [circuit, more @ ..] = rest {
        let inside = inside_of(alloc, c, circuit, goes, &known)?;
        known.push(inside)?;
        c += 1;
        rest = more;
    }
    Ok(known)
}
