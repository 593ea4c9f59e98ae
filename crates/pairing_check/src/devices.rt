//! The devices of a pairing: whether each left one goes to its image.

ghost use Rattle.std.specs.Prelude.{◌≡◌, ◌<◌, Decides, length, slice_index};
ghost use Rattle.net_model.specs.Rows.{plain_circuit, plain_device};
ghost use Rattle.match_laws.specs.Circuits.{IsDeviceImage};
ghost use Rattle.match_parts.specs.Rows.{AreBelow, AreDevicesOn, AreTerminalsBelow};
ghost use Rattle.pairing_check.specs.Parts.{AreDeviceImages, AreOneDevice, AreTerminalsKept};
ghost use Rattle.pairing_check.specs.Parts.{AreEndsKept};
ghost use Rattle.plain_netlist.specs.Devices.{Both};

use net_model::{Circuit, DeviceRow};
use plain_netlist::DeviceKind;

// Whether each left device goes to its image.
pub fn devices_kept(left: &Circuit, right: &Circuit, nets: &[u32], devices: &[u32]) -> bool
    requires nets { AreDevicesOn (plain_circuit left.now) (length nets.now) }
    requires count { length devices.now ≡ length left.now.devices.items }
    requires onto { AreBelow devices.now (length right.now.devices.items) }
    ensures { Decides result (AreDeviceImages (plain_circuit left.now) (plain_circuit right.now)
        nets.now devices.now) }
{
    for k in 0..devices.len() {
        let image = &right.devices[devices[k] as usize];
        if !is_device_image(nets, &left.devices[k], image) {
            return false;
        }
    }
    true
}

// Whether the right device is the image of the left one, by the right number of each left net.
fn is_device_image(nets: &[u32], left: &DeviceRow, right: &DeviceRow) -> bool
    requires { AreTerminalsBelow (plain_device left.now) (length nets.now) }
    ensures { Decides result (IsDeviceImage nets.now (plain_device left.now)
        (plain_device right.now)) }
{
    are_one_device(left, right) && are_terminals_kept(nets, left, right)
}

// Whether both are of one kind, class and sizes.
fn are_one_device(left: &DeviceRow, right: &DeviceRow) -> bool
    ensures { Decides result (AreOneDevice (plain_device left.now) (plain_device right.now)) }
{
    if !left.kind.is(right.kind) || left.class.bytes() != right.class.bytes() {
        return false;
    }
    left.sizes == right.sizes
}

// Whether the terminals of two devices of one kind stand on their images, the ends in either order.
fn are_terminals_kept(nets: &[u32], left: &DeviceRow, right: &DeviceRow) -> bool
    requires nets { AreTerminalsBelow (plain_device left.now) (length nets.now) }
    requires kind { left.now.kind ≡ right.now.kind }
    ensures { Decides result (AreTerminalsKept nets.now (plain_device left.now)
        (plain_device right.now)) }
{
    let (from, to) = (left.nets, right.nets);
    match left.kind {
        DeviceKind::Mos4 => {
            goes_to(nets, from[1], to[1])
                && goes_to(nets, from[3], to[3])
                && are_two_kept(nets, (from[2], from[0]), (to[2], to[0]))
        }
        DeviceKind::ResistorWithBulk => {
            goes_to(nets, from[1], to[1]) && are_two_kept(nets, (from[2], from[0]), (to[2], to[0]))
        }
        DeviceKind::Diode => goes_to(nets, from[0], to[0]) && goes_to(nets, from[1], to[1]),
    }
}

fn goes_to(nets: &[u32], left: u32, right: u32) -> bool
    requires { left < length nets.now }
    ensures { Decides result (slice_index nets.now left ≡ right) }
{
    nets[left as usize] == right
}

// Whether two nets go to these two, in either order.
fn are_two_kept(nets: &[u32], left: (u32, u32), right: (u32, u32)) -> bool
    requires first { left.0 < length nets.now }
    requires second { left.1 < length nets.now }
    ensures { Decides result (AreEndsKept nets.now (Both left.0 left.1) (Both right.0 right.1)) }
{
    let (a, b) = (nets[left.0 as usize], nets[left.1 as usize]);
    a == right.0 && b == right.1 || a == right.1 && b == right.0
}
