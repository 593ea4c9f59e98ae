//! The first fault of a rule file.

ghost use Rattle.std.specs.Prelude.{◌≡◌};
ghost use Rattle.rule_text.specs.declared.fault.RuleFault.TheVariants.{NoMemory};

use std::alloc::AllocError;
use thiserror::Error;

/// The first fault of a rule file, with its line from 1 (`NotText`: with the byte's offset).
#[derive(Clone, Copy, Debug, PartialEq, Eq, Error)]
pub enum RuleFault {
    #[error("line {0}: this is no statement")]
    UnknownStatement(u64),
    #[error("line {0}: the statement has another form")]
    BadForm(u64),
    #[error("line {0}: a name that no line before defines")]
    UnknownName(u64),
    #[error("line {0}: this was there before")]
    NameTwice(u64),
    #[error("line {0}: no layer that conducts")]
    NotConductor(u64),
    #[error("line {0}: more than 256 names")]
    TooManyLayers(u64),
    #[error("offset {0}: a byte that stands in no text")]
    NotText(u64),
    #[error("no memory")]
    NoMemory,
}

impl From<AllocError> for RuleFault {
    ghost from_gives = { λ _ e. e ≡ NoMemory };

    fn from(_: AllocError) -> RuleFault {
        RuleFault::NoMemory
    }
}
