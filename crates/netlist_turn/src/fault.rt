//! The first card that can't be turned.

ghost use Rattle.std.specs.Prelude.{◌≡◌};
ghost use Rattle.netlist_turn.specs.declared.fault.TurnFault.TheVariants.{NoMemory};

use std::alloc::AllocError;
use thiserror::Error;

/// The first card that can't be turned, with its line, from 1.
#[derive(Debug, Drop, Error)]
pub enum TurnFault {
    #[error("line {0}: a card that can't be taken")]
    UnknownCard(u64),
    #[error("line {0}: the card has another form")]
    BadForm(u64),
    #[error("line {0}: a circuit's parameter has the name of a .PARAM")]
    Shadowed(u64),
    #[error("line {0}: a + with no card before it")]
    EarlyMore(u64),
    #[error("line {0}: a second .PARAM of one name")]
    Twice(u64),
    #[error("line {0}: an option that changes sizes")]
    Resized(u64),
    #[error("line {0}: a SCALE that is no number")]
    BadScale(u64),
    #[error("line {0}: a second SCALE")]
    SecondScale(u64),
    #[error("line {0}: a size that the scale doesn't turn into one")]
    Unscaled(u64),
    #[error("line {0}: a call of a device with another number of nets")]
    DeviceNets(u64),
    #[error("line {0}: a number of devices that is said twice, or not twice the same")]
    OddCount(u64),
    #[error("line {0}: a second .DEVICE of one name")]
    ListedTwice(u64),
    #[error("line {0}: $PINS that aren't the circuit's pins")]
    OtherPins(u64),
    #[error("no memory")]
    NoMemory,
}

impl From<AllocError> for TurnFault {
    ghost from_gives = { λ _ e. e ≡ NoMemory };

    fn from(_: AllocError) -> TurnFault {
        TurnFault::NoMemory
    }
}
