//! Both circuits as one graph, as the proposal looks at it: pins of calls by their partners.

use crate::keys::mixed;
use crate::partners::{Partner, Partners};
use crate::proposal::Proposal;
use list_base::number;
use match_graph::Sizes;
use net_model::{CallRow, Circuit, DeviceRow};
use plain_netlist::DeviceKind;
use std::alloc::{AllocError, Global};

/// A terminal as one of its two nodes sees it.
#[derive(Clone, Copy, PartialEq, Eq, PartialOrd, Ord, Debug)]
pub struct End {
    node: u32,
    pub port: u64,
    pub other: u32,
}

/// The nodes of both circuits: of the left one the nets, the devices, the calls, by number,
/// then of the right one. Each has its ends, and the number of its kind.
#[derive(Drop)]
pub struct Graph {
    pub left: Sizes,
    pub right: Sizes,
    pub kinds: Vec<u64>,
    ends: Vec<End>,
    begins: Vec<usize>,
}

const EITHER_END: u64 = 0;

const FIRST_OTHER: u64 = 1;

const SECOND_OTHER: u64 = 2;

const FIRST_PIN: u64 = 3;

fn push_edge(ends: &mut Vec<End>, owner: u32, port: u64, net: u32) -> Result<(), AllocError> {
    ends.push(End {
        node: owner,
        port,
        other: net,
    })?;
    ends.push(End {
        node: net,
        port,
        other: owner,
    })?;
    Ok(())
}

fn push_device(
    ends: &mut Vec<End>,
    first: u32,
    owner: u32,
    d: &DeviceRow,
) -> Result<(), AllocError> {
    let ports: &[u64] = match d.kind {
        DeviceKind::Mos4 => &[EITHER_END, FIRST_OTHER, EITHER_END, SECOND_OTHER],
        DeviceKind::ResistorWithBulk => &[EITHER_END, FIRST_OTHER, EITHER_END],
        DeviceKind::Diode => &[FIRST_OTHER, SECOND_OTHER],
    };
    for (port, net) in ports.iter().zip(d.terminal_nets()) {
        push_edge(ends, owner, *port, first.wrapping_add(*net))?;
    }
    Ok(())
}

fn push_devices(
    ends: &mut Vec<End>,
    sizes: &Sizes,
    devices: &[DeviceRow],
) -> Result<(), AllocError> {
    let mut owner = sizes.first_device();
    for d in devices {
        push_device(ends, sizes.first, owner, d)?;
        owner = owner.wrapping_add(1);
    }
    Ok(())
}

/// The right pin by which a pin is known: that of a left one is its partner, and a right one stands
/// for itself where it is a partner.
#[derive(Clone, Copy, PartialEq, Eq, Debug)]
enum Side {
    Left,
    Right,
}

fn known_pin(pins: &Partners, side: Side, k: u32) -> Option<u32> {
    match side {
        Side::Left => pins.partner(k),
        Side::Right => {
            if pins.free.as_slice().binary_search(&k).is_ok() {
                None
            } else {
                Some(k)
            }
        }
    }
}

fn push_call(
    ends: &mut Vec<End>,
    pins: &Partners,
    side: Side,
    first: u32,
    owner: u32,
    nets: &[u32],
) -> Result<(), AllocError> {
    let mut k: u32 = 0;
    for n in nets {
        if let Some(pin) = known_pin(pins, side, k) {
            let port = u64::from(pin).wrapping_add(FIRST_PIN);
            push_edge(ends, owner, port, first.wrapping_add(*n))?;
        }
        k = k.wrapping_add(1);
    }
    Ok(())
}

fn push_calls(
    ends: &mut Vec<End>,
    before: &[Proposal],
    side: Side,
    sizes: &Sizes,
    calls: &[CallRow],
) -> Result<(), AllocError> {
    let mut owner = sizes.first_call();
    for c in calls {
        if let Some(called) = before.get(c.circuit as usize) {
            push_call(ends, &called.pins, side, sizes.first, owner, &c.nets)?;
        }
        owner = owner.wrapping_add(1);
    }
    Ok(())
}

// Where the ends of a node end, which begin here.
fn node_end(ends: &[End], from: usize, node: u32) -> usize {
    for i in from..ends.len() {
        if ends[i].node != node {
            return i;
        }
    }
    ends.len()
}

// Where each node's ends begin, and where the last ones end.
fn begins_of(alloc: Global, ends: &[End], count: u32) -> Result<Vec<usize>, AllocError> {
    let mut begins = Vec::new(alloc);
    let mut at = 0;
    for node in 0..count {
        begins.push(at)?;
        at = node_end(ends, at, node);
    }
    begins.push(at)?;
    Ok(begins)
}

fn push_side(
    ends: &mut Vec<End>,
    before: &[Proposal],
    side: Side,
    sizes: &Sizes,
    circuit: &Circuit,
) -> Result<(), AllocError> {
    push_devices(ends, sizes, &circuit.devices)?;
    push_calls(ends, before, side, sizes, &circuit.calls)
}

impl Graph {
    /// The graph of two circuits, by the partners of the pins of the pairs before.
    pub fn of_pair(
        alloc: Global,
        left: &Circuit,
        right: &Circuit,
        before: &[Proposal],
        kinds: Vec<u64>,
    ) -> Result<Graph, AllocError> {
        let left_sizes = Sizes::count(0, left)?;
        let right_sizes = Sizes::count(left_sizes.end(), right)?;
        let mut ends = Vec::new(alloc);
        push_side(&mut ends, before, Side::Left, &left_sizes, left)?;
        push_side(&mut ends, before, Side::Right, &right_sizes, right)?;
        ends.sort_unstable();
        let begins = begins_of(alloc, &ends, right_sizes.end())?;
        Ok(Graph {
            left: left_sizes,
            right: right_sizes,
            kinds,
            ends,
            begins,
        })
    }

    pub fn count(&self) -> u32 {
        self.right.end()
    }

    /// The ends of a node.
    pub fn ends(&self, node: u32) -> &[End] {
        let place = node as usize;
        let Some(begin) = self.begins.get(place) else {
            return &[];
        };
        let Some(end) = self.begins.get(place + 1) else {
            return &[];
        };
        match self.ends.get(*begin..*end) {
            Some(ends) => ends,
            None => &[],
        }
    }

    pub fn kind(&self, node: u32) -> u64 {
        match self.kinds.get(node as usize) {
            Some(kind) => *kind,
            None => 0,
        }
    }

    /// Whether a node is a net.
    pub fn is_net(&self, node: u32) -> bool {
        if node < self.left.end() {
            node < self.left.first_device()
        } else {
            node < self.right.first_device()
        }
    }

    /// The nodes that these have ends at.
    pub fn neighbours(&self, alloc: Global, nodes: &[u32]) -> Result<Vec<u32>, AllocError> {
        let mut out = Vec::new(alloc);
        for node in nodes {
            for end in self.ends(*node) {
                out.push(end.other)?;
            }
        }
        Ok(out)
    }
}
