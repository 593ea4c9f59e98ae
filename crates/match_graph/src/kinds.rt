//! The kinds of nodes: one number for all that look alike before the first round.

ghost use Rattle.std.specs.Prelude.{◌≡◌, ◌<◌, ◌++◌, ◌∷◌, [], true, length, map, unwrap_or, OnOk, IfOk};
ghost use Rattle.net_model.specs.Rows.{plain_circuit, plain_device};
ghost use Rattle.match_parts.specs.Marks.{AreMarked};
ghost use Rattle.match_graph.specs.Kinds.{Adds, AreKindsOf, call_own, circuit_owns, device_own};
ghost use Rattle.match_graph.specs.Kinds.{ArePinNames, name_in, named_owns, net_owns, plain_own};
ghost use Rattle.match_laws.specs.Circuits.{pin_name};

use fixed_num::Femto;
use list_base::number;
use match_parts::mark;
use net_model::{Circuit, DeviceRow};
use net_names::{Name, folded};
use plain_netlist::DeviceKind;
use std::alloc::{AllocError, Global};
use std::collections::HashMap;

/// What the first round goes by: a net by being a pin, and by the pin's name where names tell pins
/// apart, a device by what it is, class and sizes, a call by its pair.
#[derive(Clone, Copy, PartialEq, Eq, Hash)]
enum Own<'a> {
    Net {
        is_pin: bool,
        name: &'a [u8],
    },
    Device {
        kind: DeviceKind,
        class: &'a [u8],
        first: u128,
        second: u128,
    },
    Call {
        pair: u32,
    },
}

/// A number for each node, and one for all nodes that look alike.
#[derive(Drop)]
struct Kinds<'a> {
    numbers: HashMap<Own<'a>, u32>,
    of_nodes: Vec<u32>,
}

/// For each node of both circuits a number: equal numbers exactly where the nodes look alike before
/// the first round. Names are copied only where they tell pins apart.
pub fn list_kinds(
    alloc: Global,
    left: &Circuit,
    right: &Circuit,
    told: bool,
) -> Result<Vec<u32>, AllocError>
    ensures { IfOk result (λ kinds. AreKindsOf kinds.items
        (circuit_owns told (plain_circuit left.now) ++ circuit_owns told (plain_circuit right.now))) }
{
    let left_names = pin_names(alloc, left, told)?;
    let right_names = pin_names(alloc, right, told)?;
    kinds_by(alloc, left, &left_names, right, &right_names)
}

// Those numbers where these are the names of the pins.
fn kinds_by(
    alloc: Global,
    left: &Circuit,
    left_names: &[Option<Name>],
    right: &Circuit,
    right_names: &[Option<Name>],
) -> Result<Vec<u32>, AllocError>
    ensures { IfOk result (λ kinds. AreKindsOf kinds.items
        (named_owns (name_in left_names.now) (plain_circuit left.now)
        ++ named_owns (name_in right_names.now) (plain_circuit right.now))) }
{
    let mut kinds = Kinds {
        numbers: HashMap::new(alloc),
        of_nodes: Vec::new(alloc),
    };
    kinds.add_circuit(alloc, left, left_names)?;
    kinds.add_circuit(alloc, right, right_names)?;
    Ok(kinds.of_nodes)
}

impl<'a> Kinds<'a> {
    // Adds the nets, devices and calls of a circuit, whose nets have these names.
    fn add_circuit(
        &mut self,
        alloc: Global,
        circuit: &'a Circuit,
        names: &'a [Option<Name>],
    ) -> Result<(), AllocError>
        ensures { OnOk result (Adds ⟦<Own<'a> as PartialEq>⟧.eq self.old self.new
            (named_owns (name_in names.now) (plain_circuit circuit.now))) }
    {
        let marks = pin_marks(alloc, circuit)?;
        self.add_nets(circuit, &marks, names)?;
        self.add_devices(circuit)?;
        self.add_calls(circuit)?;
        Ok(())
    }

    // Adds the nets, whose marks say which are pins.
    fn add_nets(
        &mut self,
        circuit: &Circuit,
        marks: &[bool],
        names: &'a [Option<Name>],
    ) -> Result<(), AllocError>
        requires count { length marks.now ≡ length circuit.now.nets.items }
        requires pins { AreMarked circuit.now.pins.items marks.now }
        ensures { OnOk result (Adds ⟦<Own<'a> as PartialEq>⟧.eq self.old self.new
            (net_owns (name_in names.now) (plain_circuit circuit.now))) }
    {
        for n in 0..marks.len() {
            let name = name_at(names, n);
            let is_pin = marks[n];
            self.add(Own::Net { is_pin, name })?;
        }
        Ok(())
    }

    fn add_devices(&mut self, circuit: &'a Circuit) -> Result<(), AllocError>
        ensures { OnOk result (Adds ⟦<Own<'a> as PartialEq>⟧.eq self.old self.new
            (map device_own (plain_circuit circuit.now).devices)) }
    {
        for k in 0..circuit.devices.len() {
            self.add(device_own(&circuit.devices[k]))?;
        }
        Ok(())
    }

    fn add_calls(&mut self, circuit: &'a Circuit) -> Result<(), AllocError>
        ensures { OnOk result (Adds ⟦<Own<'a> as PartialEq>⟧.eq self.old self.new
            (map call_own (plain_circuit circuit.now).calls)) }
    {
        for k in 0..circuit.calls.len() {
            let pair = circuit.calls[k].circuit;
            self.add(Own::Call { pair })?;
        }
        Ok(())
    }

    // Adds a node.
    fn add(&mut self, own: Own<'a>) -> Result<(), AllocError>
        ensures { OnOk result (Adds ⟦<Own<'a> as PartialEq>⟧.eq self.old self.new
            (plain_own own.entry ∷ [])) }
    {
        let kind = match self.numbers.get(&own) {
            Some(known) => *known,
            None => {
                let fresh = number(self.numbers.len())?;
                self.numbers.insert(own, fresh)?;
                fresh
            }
        };
        self.of_nodes.push(kind)?;
        Ok(())
    }
}

// What the first round goes by at a device.
fn device_own<'a>(row: &'a DeviceRow) -> Own<'a>
    ensures { plain_own result ≡ device_own (plain_device row.now) }
{
    let (first, second) = values(row.sizes);
    Own::Device {
        kind: row.kind,
        class: row.class.bytes(),
        first,
        second,
    }
}

fn values(sizes: [Femto; 2]) -> (u128, u128)
    ensures { result.0 ∷ result.1 ∷ [] ≡ map (λ (f : Femto). f.0) sizes }
{
    (sizes[0].0, sizes[1].0)
}

// The name at a place, or an empty one where there is none.
fn name_at<'a>(names: &'a [Option<Name>], n: usize) -> &'a [u8]
    ensures { result.now ≡ name_in names.now n }
{
    match names.get(n) {
        Some(Some(name)) => name.bytes(),
        _ => b"",
    }
}

// The name of a net, small letters being large ones, where it is a pin.
fn told_name(
    alloc: Global,
    circuit: &Circuit,
    marks: &[bool],
    n: usize,
) -> Result<Option<Name>, AllocError>
    requires count { length marks.now ≡ length circuit.now.nets.items }
    requires pins { AreMarked circuit.now.pins.items marks.now }
    requires within { n < length marks.now }
    ensures { IfOk result
        (λ name. unwrap_or name [] ≡ pin_name true (plain_circuit circuit.now) n) }
{
    if marks[n] {
        Ok(Some(folded(alloc, &circuit.nets[n])?))
    } else {
        Ok(None)
    }
}

// Those of all nets.
fn told_names(alloc: Global, circuit: &Circuit) -> Result<Vec<Option<Name>>, AllocError>
    ensures { IfOk result (λ names. ArePinNames true (plain_circuit circuit.now) names.items) }
{
    let marks = pin_marks(alloc, circuit)?;
    let mut names = Vec::new(alloc);
    for n in 0..marks.len() {
        names.push(told_name(alloc, circuit, &marks, n)?)?;
    }
    Ok(names)
}

// The names of the pins where they tell pins apart, else none at all.
fn pin_names(alloc: Global, circuit: &Circuit, told: bool) -> Result<Vec<Option<Name>>, AllocError>
    ensures { IfOk result (λ names. ArePinNames told (plain_circuit circuit.now) names.items) }
{
    if told {
        told_names(alloc, circuit)
    } else {
        Ok(Vec::new(alloc))
    }
}

// A mark for each net, set where the net is a pin.
fn pin_marks(alloc: Global, circuit: &Circuit) -> Result<Vec<bool>, AllocError>
    ensures count { IfOk result (λ marks. length marks.items ≡ length circuit.now.nets.items) }
    ensures pins { IfOk result (λ marks. AreMarked circuit.now.pins.items marks.items) }
{
    let mut marks = vec![in alloc; false; circuit.nets.len()]?;
    mark(&circuit.pins, &mut marks);
    Ok(marks)
}
