//! What can be wrong with a netlist.

ghost use Rattle.net_model.specs.declared.fault.NetFault.TheVariants.{NoMemory};

use std::alloc::AllocError;
use thiserror::Error;

/// What is wrong with a netlist, with the number of the first circuit that shows it.
#[derive(Clone, Copy, Debug, PartialEq, Eq, Error)]
pub enum NetFault {
    #[error("circuit {0}: its name, or that of a net, stands twice")]
    NameClash(u32),
    #[error("circuit {0}: a net that it doesn't have")]
    BadTerminal(u32),
    #[error("circuit {0}: a call of no circuit")]
    NoSuchCircuit(u32),
    #[error("circuit {0}: a call with another number of nets than pins")]
    PinCount(u32),
    #[error("circuit {0}: it calls itself, at once or through others")]
    CircuitCycle(u32),
    #[error("no memory")]
    NoMemory,
}

impl From<AllocError> for NetFault {
    ghost from_gives = { λ _ e. e ≡ NoMemory };

    ghost use Rattle.std.specs.Prelude.{◌≡◌};

    fn from(_: AllocError) -> NetFault {
        NetFault::NoMemory
    }
}
