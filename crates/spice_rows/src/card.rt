//! What a card says: a device, a call, global names, or a circuit's begin or end.

use crate::device::DeviceCard;
use net_names::Name;

/// A call as its card names it, with the card's line.
#[derive(Debug, Drop)]
pub struct CallCard {
    pub line: u64,
    pub nets: Vec<Name>,
    pub circuit: Name,
}

/// What a card says. Names are without escapes, and folded.
#[derive(Debug, Drop)]
pub enum CardRow {
    /// `.SUBCKT`: a circuit's name and pins.
    Opens(Name, Vec<Name>),
    /// `.ENDS`
    Ends,
    /// `.GLOBAL`
    Globals(Vec<Name>),
    /// `.END`
    Stops,
    /// A card that says nothing of the netlist.
    Passed,
    /// A device, and how many equal ones the card stands for, from 1 to 1,000.
    Device(DeviceCard, u32),
    Call(CallCard),
}
