//! Which circuits of a layout and of a schematic are partners.
ghost use Rattle.std.specs.Prelude.{◌≡◌, ◌<◌, IfOk, IfSome, length, slice_index_or, []};
ghost use Rattle.net_align.specs.Marks.{AreCallsOfCircuits};
ghost use Rattle.net_align.specs.Names.{AreOnce, found_in, names_of, left_names, right_names};
ghost use Rattle.net_align.specs.Found.{ArePartners, ArePartnersBy, AreSettled, FindsPlaced};
ghost use Rattle.net_align.specs.Found.{if_unsaid, other_than, settled};
ghost use Rattle.net_model.specs.Rows.{plain_netlist};
ghost use Rattle.net_names.specs.Folding.{folded_bytes};

use crate::marks::{called_circuits, sole_unmarked};
use crate::names::{Naming, find};
use net_model::Netlist;
use net_names::{Name, folded};
use std::alloc::{AllocError, Global};

/// For each circuit of the layout its partner: by the lines `same_circuits`, by equal folded names,
/// or by being the top beside the schematic's one circuit that no call names.
///
/// Linear in the names and the calls.
pub fn find_partners(
    alloc: Global,
    layout: &Netlist,
    top: usize,
    schematic: &Netlist,
    same: &[(Name, Name)],
) -> Result<Vec<Option<usize>>, AllocError>
    requires top { top < length layout.now.circuits.items }
    requires circuits { AreOnce (names_of (plain_netlist schematic.now)) }
    requires lefts { AreOnce (left_names same.now) }
    requires rights { AreOnce (right_names same.now) }
    requires calls { AreCallsOfCircuits (plain_netlist schematic.now) }
    ensures { IfOk result (λ of. ArePartners
        (plain_netlist layout.now) (plain_netlist schematic.now) top same.now of.items) }
{
    let naming = Naming::new(alloc, schematic, same)?;
    partners_by(alloc, &naming, layout, top, schematic)
}

// The partners by these names, with the top's by its place.
fn partners_by(
    alloc: Global,
    naming: &Naming,
    layout: &Netlist,
    top: usize,
    schematic: &Netlist,
) -> Result<Vec<Option<usize>>, AllocError>
    requires top { top < length layout.now.circuits.items }
    requires calls { AreCallsOfCircuits (plain_netlist schematic.now) }
    ensures { IfOk result (λ of. ArePartnersBy naming.now
        (plain_netlist layout.now) (plain_netlist schematic.now) top of.items) }
{
    let by_place = partner_of(alloc, naming, &layout.circuits[top].name, schematic)?;
    let of = naming.partners(alloc, layout)?;
    settle(alloc, &of, top, by_place)
}

// The partner that a top of this name has by its place.
fn partner_of(
    alloc: Global,
    naming: &Naming,
    name: &Name,
    schematic: &Netlist,
) -> Result<Option<usize>, AllocError>
    requires { AreCallsOfCircuits (plain_netlist schematic.now) }
    ensures { IfOk result
        (FindsPlaced naming.now (folded_bytes name.now) (plain_netlist schematic.now)) }
{
    let name = folded(alloc, name)?;
    partner_by_place(alloc, naming, &name, schematic)
}

// The partner that a top of this folded name has by its place.
fn partner_by_place(
    alloc: Global,
    naming: &Naming,
    name: &Name,
    schematic: &Netlist,
) -> Result<Option<usize>, AllocError>
    requires { AreCallsOfCircuits (plain_netlist schematic.now) }
    ensures { IfOk result (FindsPlaced naming.now name.now (plain_netlist schematic.now)) }
{
    if naming.partner(name).is_some() || find(&naming.lefts, name).is_some() {
        return Ok(None);
    }
    let called = called_circuits(alloc, schematic)?;
    match sole_unmarked(&called) {
        Some(b) => unless_said(alloc, naming, schematic, b),
        None => Ok(None),
    }
}

// This circuit of the schematic, where no line names it.
fn unless_said(
    alloc: Global,
    naming: &Naming,
    schematic: &Netlist,
    b: usize,
) -> Result<Option<usize>, AllocError>
    requires { b < length schematic.now.circuits.items }
    ensures { IfOk result (λ o. o ≡ if_unsaid (found_in naming.now.rights
        (slice_index_or (names_of (plain_netlist schematic.now)) b [])) b) }
{
    let name = folded(alloc, &schematic.circuits[b].name)?;
    match find(&naming.rights, &name) {
        Some(_) => Ok(None),
        None => Ok(Some(b)),
    }
}

// The partners by name, with the top's by its place, which no other circuit has.
fn settle(
    alloc: Global,
    of: &[Option<usize>],
    top: usize,
    by_place: Option<usize>,
) -> Result<Vec<Option<usize>>, AllocError>
    ensures { IfOk result (λ new. AreSettled of.now top by_place (length of.now) new.items) }
{
    let mut new = Vec::new(alloc);
    for a in 0..of.len() {
        new.push(settled(top, by_place, a, of[a]))?;
    }
    Ok(new)
}

fn settled(top: usize, by_place: Option<usize>, a: usize, named: Option<usize>) -> Option<usize>
    ensures { result ≡ settled top by_place a named }
{
    match by_place {
        None => named,
        Some(b) => {
            if a == top {
                Some(b)
            } else {
                other_than(b, named)
            }
        }
    }
}

fn other_than(b: usize, named: Option<usize>) -> Option<usize>
    ensures { result ≡ other_than b named }
{
    match named {
        None => None,
        Some(d) => { if d == b { None } else { Some(d) } }
    }
}
