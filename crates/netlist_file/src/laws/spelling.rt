//! That a netlist can be spelled, as its types say.

ghost use Rattle.std.specs.Prelude.{◌<◌, ◌^◌, map};
ghost use Rattle.std.specs.List.{AllByRecursion};
ghost use Rattle.net_model.specs.Rows.{plain_circuit, plain_device, plain_netlist};
ghost use Rattle.netlist_file.specs.Spelled.{IsByteName, IsSpelled};
ghost use Rattle.netlist_file.specs.Spelled.{IsSpelledCircuit, IsSpelledDevice};

use fixed_num::Femto;
use net_model::{Circuit, DeviceRow, Netlist};
use net_names::Name;

fn name_spelled(name: &Name)
    ensures { IsByteName name.now }
{
    let bytes = name.bytes();
    let _first = bytes[0];
}

fn names_spelled(names: &[Name])
    ensures { AllByRecursion IsByteName names.now }
{
    let mut rest = names;
    'names: while let [name, more @ ..] = rest {
        name_spelled(name);
        rest = more;
    }
}

fn size_spelled(size: Femto)
    ensures { size.0 < 2 ^ 128 }
{
    let _worth = size.0;
}

fn device_spelled(device: &DeviceRow)
    ensures { IsSpelledDevice (plain_device device.now) }
{
    name_spelled(&device.class);
    let [first, second] = device.sizes;
    size_spelled(first);
    size_spelled(second);
}

fn devices_spelled(devices: &[DeviceRow])
    ensures { AllByRecursion IsSpelledDevice (map plain_device devices.now) }
{
    let mut rest = devices;
    'devices: while let [device, more @ ..] = rest {
        device_spelled(device);
        rest = more;
    }
}

fn circuit_spelled(circuit: &Circuit)
    ensures { IsSpelledCircuit (plain_circuit circuit.now) }
{
    name_spelled(&circuit.name);
    names_spelled(&circuit.nets);
    devices_spelled(&circuit.devices);
}

/// A netlist's names are bytes, one or more each, and its sizes are of 128 bits. Linear in the
/// netlist's rows and names.
pub fn spelled(netlist: &Netlist)
    ensures { IsSpelled (plain_netlist netlist.now) }
{
    let mut rest = netlist.circuits.as_slice();
    'circuits: while let [circuit, more @ ..] = rest {
        circuit_spelled(circuit);
        rest = more;
    }
}
