//! Why a netlist can't be merged.

ghost use Rattle.device_merge.specs.declared.fault.MergeFault.TheVariants.{NoMemory};

use std::alloc::AllocError;
use thiserror::Error;

/// Why a netlist can't be merged, with the number of the first circuit that shows it.
#[derive(Clone, Copy, Debug, PartialEq, Eq, Error)]
pub enum MergeFault {
    #[error("circuit {0}: alike transistors of more than 10^27 femtometres in all")]
    TooWide(u32),
    #[error("no memory")]
    NoMemory,
}

impl From<AllocError> for MergeFault {
    ghost from_gives = { λ _ e. e ≡ NoMemory };

    ghost use Rattle.std.specs.Prelude.{◌≡◌};

    fn from(_: AllocError) -> MergeFault {
        MergeFault::NoMemory
    }
}
