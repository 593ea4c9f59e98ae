//! Two graphs whose nodes are told apart round by round, and the search over guesses where rounds
//! leave ties: definitions and laws.
//!
//! The definitions stand in `specs/`: `Web` (agreeing in round k, even and stable classes, guesses,
//! correspondences), `Nodes`, `Guesses` (the search), `Colours` (rounds by colours), `Stack` (a
//! search under way). No code runs here; each law is the contract of a function with an empty body.
#![tactic(auto)]

mod parts;

ghost use Rattle.round_laws.specs.Rounds.{EquivalenceLaw, AgreeLaw, EvenLaw, RefutedLaw, StableLaw};
ghost use Rattle.round_laws.specs.Rounds.{FiniteLaw, SolvedLaw};
ghost use Rattle.round_laws.specs.Guesses.{EndedLaw, FoundLaw, StoppedLaw, EnoughLaw, OneSearchLaw};
ghost use Rattle.round_laws.specs.Colours.{FastLaw, QuietLaw, RoundLaw, FastRoundLaw};
ghost use Rattle.round_laws.specs.Stack.{RefuteLaw, PassLaw, CloseLaw, RowsLaw};

pub use parts::{parting, renaming, resuming};

/// Agreeing in a round is an equivalence, a correspondence keeps it and evens all counts, and
/// refuted guesses have none.
pub fn agreeing()
    ensures equivalence { EquivalenceLaw }
    ensures agree { AgreeLaw }
    ensures even { EvenLaw }
    ensures refuted { RefutedLaw }
{}

/// A round that splits no class stays, and comes no later than there are nodes.
pub fn settling()
    ensures stable { StableLaw }
    ensures finite { FiniteLaw }
{}

/// Stable classes of one pair each are a correspondence.
pub fn solving()
    ensures { SolvedLaw }
{}

/// A search that ended excludes every correspondence, one that found gives one, one that stopped
/// used up its limit; a larger limit changes neither of the first two; and there is one search.
pub fn guessing()
    ensures ended { EndedLaw }
    ensures found { FoundLaw }
    ensures stopped { StoppedLaw }
    ensures enough { EnoughLaw }
    ensures one { OneSearchLaw }
{}

/// Colours stand for classes, and a round may look at changed neighbours alone.
pub fn colouring()
    ensures fast { FastLaw }
    ensures quiet { QuietLaw }
    ensures round { RoundLaw }
    ensures fast_round { FastRoundLaw }
{}

/// What each step of an iterative search with a stack of its own keeps.
pub fn searching()
    ensures refute { RefuteLaw }
    ensures pass { PassLaw }
    ensures close { CloseLaw }
    ensures rows { RowsLaw }
{}
