//! Lengths in whole femtometres, and why a text is no length or area.

ghost use Rattle.std.specs.Prelude.{◌≡◌};

use thiserror::Error;

/// A length in whole femtometres, 10^-15 metres.
#[derive(Clone, Copy, Debug, PartialEq, Eq, PartialOrd, Ord)]
pub struct Femto(pub u128);

/// Why a text is no length, or no area.
#[derive(Clone, Copy, Debug, PartialEq, Eq, Error)]
pub enum ValueFault {
    #[error("not a number")]
    NotNumber,
    #[error("above the greatest value")]
    TooLarge,
    #[error("not a whole number")]
    TooFine,
}

impl ValueFault {
    /// The number that a summary prints.
    pub fn number(self) -> u8
        ensures not_number { self ≡ ValueFault.NotNumber → result ≡ 1 }
        ensures too_fine { self ≡ ValueFault.TooFine → result ≡ 2 }
        ensures too_large { self ≡ ValueFault.TooLarge → result ≡ 3 }
    {
        match self {
            ValueFault::NotNumber => 1,
            ValueFault::TooFine => 2,
            ValueFault::TooLarge => 3,
        }
    }
}
