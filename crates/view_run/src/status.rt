//! How a run of the program ends.

ghost use Rattle.std.specs.Prelude.{◌≡◌};
ghost use Rattle.view_run.specs.declared.status.Stop.TheVariants.{NoMemory, Outside};

use lvs_run::Refusal;
use std::alloc::AllocError;

/// How a run of the program ends.
#[derive(Debug, Drop)]
pub enum Status {
    /// Layout and schematic match.
    Good,
    /// A gate is bad, or the comparison shows a difference.
    Bad,
    /// The words, an input file or what is drawn is refused. No file was started.
    Refused(Why),
    /// The comparison reached its limit.
    Undecided,
    /// A call on the outside failed.
    Outside,
    /// No memory was left. No file was started.
    NoMemory,
}

/// What is refused.
#[derive(Debug, Drop)]
pub enum Why {
    /// The words, an input, or what is to be compared, as `lvs run` refuses it.
    Run(Refusal),
    /// The layout: something of it reaches 2^30 or more from the origin.
    View,
}

/// Why a run ends before it has anything to write.
#[derive(Debug, Drop)]
pub enum Stop {
    Refused(Why),
    Outside,
    NoMemory,
}

impl From<AllocError> for Stop {
    ghost from_gives = { λ _ e. e ≡ NoMemory };

    fn from(_: AllocError) -> Self {
        Stop::NoMemory
    }
}

impl Status {
    ghost use Rattle.std.specs.Prelude.{◌≡◌};
    ghost use Rattle.view_run.specs.Codes.{code_of};

    /// The exit status of the program.
    pub fn code(&self) -> u8
        ensures { result ≡ code_of self.now }
    {
        match self {
            Status::Good => 0,
            Status::Bad => 1,
            Status::Refused(_) => 2,
            Status::Undecided => 3,
            Status::Outside => 4,
            Status::NoMemory => 5,
        }
    }
}
