//! Netlists: circuits with nets, pins, devices and calls of circuits by number.

ghost use Rattle.std.specs.Prelude.{◌≡◌};
ghost use Rattle.net_model.specs.Rows.{plain_device};
ghost use Rattle.plain_netlist.specs.Devices.{terminal_nets};

use fixed_num::Femto;
use net_names::Name;
use plain_netlist::DeviceKind;

/// A device: what it is, its class, its sizes in the kind's order, and the nets of its terminals in
/// the order in which a netlist's text first names them: of a transistor drain, gate, source, bulk,
/// of a resistor the second end, bulk, the first end, of a diode anode and cathode. Places behind
/// the kind's last terminal say nothing.
#[derive(Debug, Drop)]
pub struct DeviceRow {
    pub kind: DeviceKind,
    pub class: Name,
    pub sizes: [Femto; 2],
    pub nets: [u32; 4],
}

impl DeviceRow {
    /// The nets of its terminals, in the order of `DeviceRow`.
    pub fn terminal_nets(&self) -> &[u32]
        ensures { result.now ≡ terminal_nets (plain_device self.now) }
    {
        &self.nets[..self.kind.terminals()]
    }
}

/// A call of a circuit, with the caller's net at each of its pins.
#[derive(Debug, Drop)]
pub struct CallRow {
    pub circuit: u32,
    pub nets: Vec<u32>,
}

/// A circuit: its name, the names of its nets, the nets that are pins, its devices and calls.
#[derive(Debug, Drop)]
pub struct Circuit {
    pub name: Name,
    pub nets: Vec<Name>,
    pub pins: Vec<u32>,
    pub devices: Vec<DeviceRow>,
    pub calls: Vec<CallRow>,
}

/// Circuits that call each other by number.
#[derive(Debug, Drop)]
pub struct Netlist {
    pub circuits: Vec<Circuit>,
}
