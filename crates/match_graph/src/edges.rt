//! The terminals of both circuits' devices and calls, as edges between nodes.

ghost use Rattle.std.specs.Prelude.{◌≡◌, ◌<◌, ◌+◌, ◌++◌, ◌∷◌, [], ◌^◌, ℕ, length, slice_index};
ghost use Rattle.std.specs.Prelude.{OnErr, OnOk, IfOk, ◌≤◌};
ghost use Rattle.round_laws.specs.Nodes.{Layout, Schematic};
ghost use Rattle.plain_netlist.specs.Devices.{terminal_nets};
ghost use Rattle.match_laws.specs.Circuits.{IsFitting};
ghost use Rattle.net_model.specs.Rows.{plain_circuit, plain_device, plain_call};
ghost use Rattle.match_types.specs.Plain.{pair_of, plain_side};
ghost use Rattle.match_types.specs.Children.{children_of};
ghost use Rattle.match_parts.specs.Rows.{AreDevicesOn, AreCallsOn};
ghost use Rattle.match_parts.specs.Rows.{ArePinsOf};
ghost use Rattle.match_graph.specs.Numbering.{AreSizesOf, nodes_in};
ghost use Rattle.match_graph.specs.Edges.{call_edges, device_edges, edges_from, pair_edges};
ghost use Rattle.match_graph.specs.Edges.{pin_edges, side_edges, HasPin, HavePins, now_of, pin_in};
ghost use Rattle.match_graph.specs.Edges.{pins_on};

use crate::graph::Port;
use crate::sizes::Sizes;
use list_base::number;
use match_types::{ChildPins, Side};
use net_model::{Circuit, DeviceRow};
use plain_netlist::DeviceKind;
use std::alloc::{AllocError, Global};

/// A terminal: the node of the device or call, the kind of the terminal, and the node of the net.
#[derive(Clone, Copy, Debug)]
pub struct Edge {
    pub owner: u32,
    pub port: Port,
    pub net: u32,
}

/// The terminals of both circuits' devices and calls, the left ones first.
pub fn list_edges(
    alloc: Global,
    left: &Circuit,
    left_sizes: &Sizes,
    right: &Circuit,
    right_sizes: &Sizes,
    children: &ChildPins,
) -> Result<Vec<Edge>, AllocError>
    requires left { IsFitting (pair_of left.now right.now children.now) Layout }
    requires right { IsFitting (pair_of left.now right.now children.now) Schematic }
    requires left_sizes { AreSizesOf left_sizes.now 0 (plain_circuit left.now) }
    requires right_sizes { AreSizesOf right_sizes.now (nodes_in (plain_circuit left.now))
        (plain_circuit right.now) }
    ensures { IfOk result (λ edges. edges.items
        ≡ pair_edges (pair_of left.now right.now children.now)) }
{
    let mut edges = Vec::new(alloc);
    list_side(left, left_sizes, children, Side::Layout, &mut edges)?;
    list_side(right, right_sizes, children, Side::Schematic, &mut edges)?;
    Ok(edges)
}

// Adds the terminals of a circuit's devices and calls, in order. Those of a call are at right pins,
// which the list of its pair gives on the left side.
fn list_side(
    circuit: &Circuit,
    sizes: &Sizes,
    children: &ChildPins,
    side: Side,
    edges: &mut Vec<Edge>,
) -> Result<(), AllocError>
    requires sizes { AreSizesOf sizes.now sizes.now.first (plain_circuit circuit.now) }
    requires devices { AreDevicesOn (plain_circuit circuit.now) (length circuit.now.nets.items) }
    requires calls { AreCallsOn (plain_circuit circuit.now) (length circuit.now.nets.items) }
    requires pins { ArePinsOf (plain_circuit circuit.now) (children_of children.now) }
    ensures { OnOk result (edges.new.items ≡ edges.old.items
        ++ side_edges (children_of children.now) (plain_side side) sizes.now.first
        (plain_circuit circuit.now)) }
{
    list_device_edges(circuit, sizes, edges)?;
    list_call_edges(circuit, sizes, children, side, edges)
}

fn list_device_edges(
    circuit: &Circuit,
    sizes: &Sizes,
    edges: &mut Vec<Edge>,
) -> Result<(), AllocError>
    requires sizes { AreSizesOf sizes.now sizes.now.first (plain_circuit circuit.now) }
    requires nets { AreDevicesOn (plain_circuit circuit.now) sizes.now.nets }
    ensures { OnOk result (edges.new.items ≡ edges.old.items
        ++ edges_from (device_edges sizes.now.first) (sizes.now.first + sizes.now.nets)
        (plain_circuit circuit.now).devices) }
{
    for k in 0..circuit.devices.len() {
        let owner = sizes.first_device() + k as u32;
        push_device(&circuit.devices[k], sizes.first, owner, edges)?;
    }
    Ok(())
}

// Adds the terminals of a device, where the first net of its circuit is this node.
fn push_device(
    row: &DeviceRow,
    first: u32,
    owner: u32,
    edges: &mut Vec<Edge>,
) -> Result<(), AllocError>
    requires { (i : ℕ) → i < length (terminal_nets (plain_device row.now))
        → first + slice_index (terminal_nets (plain_device row.now)) i < 2 ^ 32 }
    ensures { OnOk result (edges.new.items ≡ edges.old.items
        ++ device_edges first owner (plain_device row.now)) }
{
    let nets = row.terminal_nets();
    match row.kind {
        DeviceKind::Mos4 => {
            push_edge(owner, Port::EitherEnd, first + nets[0], edges)?;
            push_edge(owner, Port::Other(0), first + nets[1], edges)?;
            push_edge(owner, Port::EitherEnd, first + nets[2], edges)?;
            push_edge(owner, Port::Other(1), first + nets[3], edges)
        }
        DeviceKind::ResistorWithBulk => {
            push_edge(owner, Port::EitherEnd, first + nets[0], edges)?;
            push_edge(owner, Port::Other(0), first + nets[1], edges)?;
            push_edge(owner, Port::EitherEnd, first + nets[2], edges)
        }
        DeviceKind::Diode => {
            push_edge(owner, Port::Other(0), first + nets[0], edges)?;
            push_edge(owner, Port::Other(1), first + nets[1], edges)
        }
    }
}

fn push_edge(owner: u32, port: Port, net: u32, edges: &mut Vec<Edge>) -> Result<(), AllocError>
    ensures { OnOk result (edges.new.items ≡ edges.old.items
        ++ record { owner = owner; port = port; net = net } ∷ []) }
{
    edges.push(Edge { owner, port, net })?;
    Ok(())
}

fn list_call_edges(
    circuit: &Circuit,
    sizes: &Sizes,
    children: &ChildPins,
    side: Side,
    edges: &mut Vec<Edge>,
) -> Result<(), AllocError>
    requires sizes { AreSizesOf sizes.now sizes.now.first (plain_circuit circuit.now) }
    requires nets { AreCallsOn (plain_circuit circuit.now) sizes.now.nets }
    requires pins { ArePinsOf (plain_circuit circuit.now) (children_of children.now) }
    ensures { OnOk result (edges.new.items ≡ edges.old.items
        ++ edges_from (call_edges (children_of children.now) (plain_side side) sizes.now.first)
        (sizes.now.first + sizes.now.nets + sizes.now.devices) (plain_circuit circuit.now).calls) }
{
    for k in 0..circuit.calls.len() {
        let owner = sizes.first_call() + k as u32;
        let call = &circuit.calls[k];
        let pins = pins_of(children, side, call.circuit);
        push_call(&call.nets, pins, sizes.first, owner, edges)?;
    }
    Ok(())
}

// The right pins of a called pair: on the right side they stand for themselves.
fn pins_of(children: &ChildPins, side: Side, pair: u32) -> Option<&[u32]>
    ensures { now_of result ≡ pins_on (children_of children.now) (plain_side side) pair }
{
    match side {
        Side::Layout => children.get(pair),
        Side::Schematic => None,
    }
}

// Adds the terminals of a call, where the first net of its circuit is this node.
fn push_call(
    nets: &[u32],
    pins: Option<&[u32]>,
    first: u32,
    owner: u32,
    edges: &mut Vec<Edge>,
) -> Result<(), AllocError>
    requires nets { (i : ℕ) → i < length nets.now → first + slice_index nets.now i < 2 ^ 32 }
    requires pins { HavePins (now_of pins) (length nets.now) }
    ensures { OnOk result (edges.new.items ≡ edges.old.items
        ++ pin_edges first owner (now_of pins.entry) nets.now (length nets.now)) }
{
    for i in 0..nets.len() {
        let pin = right_pin(pins, i)?;
        push_edge(owner, Port::Pin(pin), first + nets[i], edges)?;
    }
    Ok(())
}

fn right_pin(pins: Option<&[u32]>, i: usize) -> Result<u32, AllocError>
    requires { HasPin (now_of pins) i }
    ensures pin { IfOk result (λ pin. pin ≡ pin_in (now_of pins.entry) i) }
    ensures err { OnErr result (2 ^ 32 ≤ i) }
{
    match pins {
        Some(list) => Ok(list[i]),
        None => number(i),
    }
}
