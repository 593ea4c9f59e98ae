//! How cards say the kinds of devices.

ghost use Rattle.std.specs.Prelude.{◌≡◌};
ghost use Rattle.spice_rows.specs.Kinds.{first_key, has_area, letter, may_say_more, second_key};

use plain_netlist::DeviceKind;

/// The letter that begins a device's card.
pub fn letter(kind: DeviceKind) -> u8
    ensures { result ≡ letter kind }
{
    match kind {
        DeviceKind::Mos4 => b'M',
        DeviceKind::ResistorWithBulk => b'R',
        DeviceKind::Diode => b'D',
    }
}

/// The key of a device's first size: of a diode its perimeter.
pub fn first_key(kind: DeviceKind) -> u8
    ensures { result ≡ first_key kind }
{
    match kind {
        DeviceKind::Diode => b'P',
        _ => b'L',
    }
}

/// The key of a device's second size: of a diode its area.
pub fn second_key(kind: DeviceKind) -> u8
    ensures { result ≡ second_key kind }
{
    match kind {
        DeviceKind::Diode => b'A',
        _ => b'W',
    }
}

/// Whether the second size is an area.
pub fn has_area(kind: DeviceKind) -> bool
    ensures { result ≡ has_area kind }
{
    matches!(kind, DeviceKind::Diode)
}

/// Whether a card may have further parameters, which say nothing of the netlist.
pub fn may_say_more(kind: DeviceKind) -> bool
    ensures { result ≡ may_say_more kind }
{
    matches!(kind, DeviceKind::Mos4)
}
