//! How a run ends.

ghost use Rattle.std.specs.Prelude.{◌≡◌};
ghost use Rattle.netlist_run.specs.declared.status.Stop.TheVariants.{NoMemory};

use std::alloc::AllocError;

/// How a run ends.
#[derive(Clone, Copy)]
pub enum Status {
    /// The netlist is written.
    Good,
    /// Nothing is written; a line says why.
    Refused,
    /// A call on the outside failed.
    Outside,
    NoMemory,
}

impl Status {
    ghost use Rattle.std.specs.Prelude.{◌≡◌};
    ghost use Rattle.netlist_run.specs.Codes.{code_of};

    /// The number that the program ends with.
    pub fn code(self) -> u8
        ensures { result ≡ code_of self }
    {
        match self {
            Status::Good => 0,
            Status::Refused => 2,
            Status::Outside => 4,
            Status::NoMemory => 5,
        }
    }
}

/// Why a run ends before it has anything to write: a refusal has its line.
#[derive(Drop)]
pub enum Stop {
    Refused(Vec<u8>),
    Outside,
    NoMemory,
}

impl From<AllocError> for Stop {
    ghost from_gives = { λ _ e. e ≡ NoMemory };

    fn from(_: AllocError) -> Stop {
        Stop::NoMemory
    }
}
