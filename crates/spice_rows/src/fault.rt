//! The first fault of a netlist text.

ghost use Rattle.std.specs.Prelude.{◌≡◌};
ghost use Rattle.spice_rows.specs.declared.fault.SpiceFault.TheVariants.{NoMemory};

use fixed_num::ValueFault;
use net_names::Name;
use std::alloc::AllocError;
use thiserror::Error;

/// The first fault of a netlist text, with the line of its card, from 1. That of a circuit that
/// calls itself has the circuit's name.
#[derive(Debug, Drop, Error)]
pub enum SpiceFault {
    #[error("line {0}: this is no card")]
    UnknownCard(u64),
    #[error("line {0}: the card has another form")]
    BadLine(u64),
    #[error("line {0}: a parameter that can't be taken")]
    ParameterRefused(u64),
    #[error("line {0}: {1}")]
    Value(u64, ValueFault),
    #[error("line {0}: a circuit that doesn't end")]
    NotClosed(u64),
    #[error("line {0}: a second circuit of one name")]
    NameClash(u64),
    #[error("line {0}: a call of no circuit")]
    NoSuchCircuit(u64),
    #[error("line {0}: a call with another number of nets than pins")]
    PinCount(u64),
    #[error("a circuit calls itself, at once or through others")]
    CircuitCycle(Name),
    #[error("no memory")]
    NoMemory,
}

impl From<AllocError> for SpiceFault {
    ghost from_gives = { λ _ e. e ≡ NoMemory };

    fn from(_: AllocError) -> SpiceFault {
        SpiceFault::NoMemory
    }
}
