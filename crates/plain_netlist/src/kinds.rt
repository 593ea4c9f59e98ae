//! The kinds of devices, once for rules, layouts, netlists and their texts.

ghost use Rattle.std.specs.Prelude.{◌≡◌};
ghost use Rattle.plain_netlist.specs.Kinds.{same_device_kind, terminal_count};

/// What a device is. KLayout's `mos4`, `resistor_with_bulk` and `diode` make these.
///
/// | Kind | Ends, which may change places | Other terminals | Sizes |
/// |---|---|---|---|
/// | `Mos4` | source, drain | gate, bulk | length, width (femtometres) |
/// | `ResistorWithBulk` | its two | bulk | length, width (femtometres) |
/// | `Diode` | none | anode, cathode | perimeter (femtometres), area (square picometres) |
#[derive(Clone, Copy, Debug, PartialEq, Eq, Hash)]
pub enum DeviceKind {
    Mos4,
    ResistorWithBulk,
    Diode,
}

impl DeviceKind {
    /// How many terminals a device of the kind has: 2 to 4.
    pub fn terminals(self) -> usize
        ensures { result ≡ terminal_count self }
    {
        match self {
            DeviceKind::Mos4 => 4,
            DeviceKind::ResistorWithBulk => 3,
            DeviceKind::Diode => 2,
        }
    }

    /// Whether both are one kind.
    pub fn is(self, other: DeviceKind) -> bool
        ensures { result ≡ same_device_kind self other }
    {
        self as u8 == other as u8
    }
}
