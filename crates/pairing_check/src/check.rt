//! Whether a pairing is a correspondence of two circuits.

ghost use Rattle.std.specs.Prelude.{Decides, IfOk, length};
ghost use Rattle.match_laws.specs.Circuits.{IsCorrespondence, IsFitting, IsOneToOne};
ghost use Rattle.round_laws.specs.Nodes.{Layout, Schematic};
ghost use Rattle.match_types.specs.Plain.{pair_of, plain_pairing};
ghost use Rattle.pairing_check.specs.Parts.{AreMaps, AreMarksFor};

use crate::calls::calls_kept;
use crate::devices::devices_kept;
use crate::names::names_kept;
use crate::pins::pins_kept;
use match_parts::is_one_to_one;
use match_types::{ChildPins, Pairing};
use net_model::Circuit;
use std::alloc::{AllocError, Global};

/// Room to check pairings onto one right circuit.
#[derive(Drop)]
pub struct Marks {
    nets: Vec<bool>,
    pins: Vec<bool>,
    devices: Vec<bool>,
    calls: Vec<bool>,
}

impl Marks {
    /// Room for this right circuit.
    pub fn new(alloc: Global, right: &Circuit) -> Result<Marks, AllocError>
        ensures { IfOk result (λ marks. AreMarksFor marks right.now) }
    {
        Ok(Marks {
            nets: vec![in alloc; false; right.nets.len()]?,
            pins: vec![in alloc; false; right.nets.len()]?,
            devices: vec![in alloc; false; right.devices.len()]?,
            calls: vec![in alloc; false; right.calls.len()]?,
        })
    }
}

/// Whether the pairing is a correspondence of the two circuits. It takes no memory, and time in
/// proportion to the size of the circuits.
pub fn check_pairing(
    left: &Circuit,
    right: &Circuit,
    children: &ChildPins,
    pairing: &Pairing,
    marks: &mut Marks,
) -> bool
    requires room { AreMarksFor marks.old right.now }
    requires left { IsFitting (pair_of left.now right.now children.now) Layout }
    requires right { IsFitting (pair_of left.now right.now children.now) Schematic }
    ensures exact { Decides result (IsCorrespondence (pair_of left.now right.now children.now)
        (plain_pairing pairing.now)) }
    ensures room { AreMarksFor marks.new right.now }
{
    if !maps_onto(left, right, pairing, marks) {
        return false;
    }
    if !pins_kept(left, right, &pairing.nets, &mut marks.pins, &mut marks.nets) {
        return false;
    }
    if !names_kept(left, right, children.told(), &pairing.nets, &mut marks.pins) {
        return false;
    }
    if !devices_kept(left, right, &pairing.nets, &pairing.devices) {
        return false;
    }
    calls_kept(left, right, children, &pairing.nets, &pairing.calls)
}

// Whether the three lists are one-to-one maps onto all nets, devices and calls.
fn maps_onto(left: &Circuit, right: &Circuit, pairing: &Pairing, marks: &mut Marks) -> bool
    requires { AreMarksFor marks.old right.now }
    ensures exact { Decides result (AreMaps left.now right.now pairing.now) }
    ensures room { AreMarksFor marks.new right.now }
{
    if !is_onto_map(&pairing.nets, left.nets.len(), &mut marks.nets) {
        return false;
    }
    if !is_onto_map(&pairing.devices, left.devices.len(), &mut marks.devices) {
        return false;
    }
    is_onto_map(&pairing.calls, left.calls.len(), &mut marks.calls)
}

// Whether the numbers are a one-to-one map of the numbers below `count` onto those below the number
// of marks.
fn is_onto_map(numbers: &[u32], count: usize, marks: &mut [bool]) -> bool
    ensures { Decides result (IsOneToOne numbers.now count (length marks.old)) }
{
    if numbers.len() != count {
        return false;
    }
    is_one_to_one(numbers, marks)
}
