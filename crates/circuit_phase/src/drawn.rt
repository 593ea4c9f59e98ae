//! The drawn nets of a cell in order, the pins among them, and their names.
ghost use Rattle.std.specs.Prelude.{◌≡◌, ◌<◌, ◌^◌, ◌++◌, ◌∷◌, ℕ, false, length, map, get_or, []};
ghost use Rattle.std.specs.Prelude.{if◌then◌else◌, IfOk, OnOk};
ghost use Rattle.deep_tables.specs.Pins.{plain_pins};
ghost use Rattle.flat_layout.specs.Circuits.{both, drawn_names, drawn_nets, pin_nets};
ghost use Rattle.circuit_phase.specs.Drawn.{base_in};
ghost use Rattle.circuit_phase.specs.Names.{folded_bases};

use crate::names::net_names;
use deep_tables::CellPins;
use net_names::Name;
use std::alloc::{AllocError, Global};

pub(crate) fn push_if(nets: &mut Vec<u32>, net: u32, wanted: bool) -> Result<(), AllocError>
    ensures { OnOk result (nets.new.items
        ≡ nets.old.items ++ (if wanted then net ∷ [] else [])) }
{
    if wanted {
        nets.push(net)?;
    }
    Ok(())
}

fn is_both(some: &[bool], others: &[bool], n: usize) -> bool
    requires some { n < length some.now }
    requires others { n < length others.now }
    ensures { result ≡ get_or (both some.now others.now) n false }
{
    some[n] && others[n]
}

/// The drawn nets of a cell in order: the places of true. Linear in the cell's nets.
pub fn drawn_nets(alloc: Global, drawn: &[bool]) -> Result<Vec<u32>, AllocError>
    requires { length drawn.now < 2 ^ 32 }
    ensures { IfOk result (λ nets. nets.items ≡ drawn_nets drawn.now) }
{
    let mut nets = Vec::new(alloc);
    for net in 0..drawn.len() {
        push_if(&mut nets, net as u32, drawn[net])?;
    }
    Ok(nets)
}

/// The pins among the drawn nets of a cell, in order. Linear in the cell's nets.
pub fn pin_nets(alloc: Global, pins: &CellPins, drawn: &[bool]) -> Result<Vec<u32>, AllocError>
    requires few { length drawn.now < 2 ^ 32 }
    requires count { length pins.now.pin.items ≡ length drawn.now }
    ensures { IfOk result (λ nets. nets.items ≡ pin_nets (plain_pins pins.now) drawn.now) }
{
    let mut nets = Vec::new(alloc);
    for net in 0..drawn.len() {
        push_if(&mut nets, net as u32, is_both(&pins.pin, drawn, net))?;
    }
    Ok(nets)
}

// The base names of some nets.
fn bases_of<'a>(
    alloc: Global,
    names: &'a [Option<Name>],
    nets: &[u32],
) -> Result<Vec<Option<&'a Name>>, AllocError>
    requires { (i : ℕ) → i < length nets.now → get_or nets.now i 0 < length names.now }
    ensures { IfOk result (λ v. folded_bases v.items ≡ map (base_in names.now) nets.now) }
{
    let mut bases = Vec::new(alloc);
    for net in nets {
        bases.push(names[*net as usize].as_ref())?;
    }
    Ok(bases)
}

/// The names of the drawn nets in order, from their base names. Linear in the cell's nets and the
/// bytes of their names.
pub fn drawn_names(alloc: Global, pins: &CellPins, drawn: &[bool]) -> Result<Vec<Name>, AllocError>
    requires few { length drawn.now < 2 ^ 32 }
    requires count { length pins.now.names.items ≡ length drawn.now }
    ensures { IfOk result (λ v. v.items ≡ drawn_names (plain_pins pins.now) drawn.now) }
{
    let nets = drawn_nets(alloc, drawn)?;
    let bases = bases_of(alloc, &pins.names, &nets)?;
    net_names(alloc, &bases)
}
