//! How many nets, transistors and calls a circuit has, and how its nodes are numbered.

ghost use Rattle.std.specs.Prelude.{◌+◌, ◌<◌, ◌^◌};

use list_base::number;
use match_types::NodeKind;
use net_model::Circuit;
use std::alloc::AllocError;

/// How many nets, transistors and calls a circuit has, and the number of its first net among the
/// nodes.
#[derive(Clone, Copy, Debug)]
pub struct Sizes {
    pub first: u32,
    pub nets: u32,
    pub devices: u32,
    pub calls: u32,
    ghost fits: { first + nets + devices + calls < 2 ^ 32 },
}

impl Sizes {
    ghost use Rattle.std.specs.Prelude.{◌≡◌, ◌<◌, ◌≤◌, ◌+◌, ◌^◌, IfOk, OnErr};
    ghost use Rattle.net_model.specs.Rows.{plain_circuit};
    ghost use Rattle.round_laws.specs.Nodes.{Device, Call};
    ghost use Rattle.match_types.specs.Plain.{plain_kind};
    ghost use Rattle.match_graph.specs.Numbering.{AreSizesOf, count_in, end_of, nodes_in, place_in};

    /// The sizes of a circuit, whose nodes are numbered from `first` on. It takes no memory; the
    /// error is 2^32 nodes or more, with those before `first`.
    pub fn count(first: u32, circuit: &Circuit) -> Result<Sizes, AllocError>
        ensures sizes { IfOk result (λ sizes. AreSizesOf sizes first (plain_circuit circuit.now)) }
        ensures err { OnErr result (2 ^ 32 ≤ first + nodes_in (plain_circuit circuit.now)) }
    {
        let nets = number(circuit.nets.len())?;
        let devices = number(circuit.devices.len())?;
        let calls = number(circuit.calls.len())?;
        number(first as usize + nets as usize + devices as usize + calls as usize)?;
        Ok(Sizes {
            first,
            nets,
            devices,
            calls,
        })
    }

    /// The number behind the last node.
    pub fn end(&self) -> u32
        ensures { result ≡ end_of self.now }
    {
        self.first + self.nets + self.devices + self.calls
    }

    /// The number of the first transistor, or of what stands behind the nets.
    pub fn first_device(&self) -> u32
        ensures { result ≡ place_in self.now Device 0 }
    {
        self.first + self.nets
    }

    /// The number of the first call, or of what stands behind the transistors.
    pub fn first_call(&self) -> u32
        ensures { result ≡ place_in self.now Call 0 }
    {
        self.first + self.nets + self.devices
    }

    /// The kind and number of a node of this side.
    pub fn kind_of(&self, node: u32) -> (NodeKind, u32)
        requires from { self.now.first ≤ node }
        requires to { node < end_of self.now }
        ensures place { place_in self.now (plain_kind result.0) result.1 ≡ node }
        ensures number { result.1 < count_in self.now (plain_kind result.0) }
    {
        if node < self.first_device() {
            (NodeKind::Net, node - self.first)
        } else if node < self.first_call() {
            (NodeKind::Device, node - self.first_device())
        } else {
            (NodeKind::Call, node - self.first_call())
        }
    }
}
