//! One small pair of circuits carried through all premises of a match: a latch whose two inner nets
//! are drawn the other way round.
//!
//! The circuits and their answer stand in `specs/Latch`. No code runs here; the laws are the
//! contract of a function with an empty body.

ghost use Rattle.law_samples.specs.Latch.{LatchLaw, WholeLatchLaw};

/// The rounds leave ties, the first guess is solved, and the answer is the match that swaps the
/// inverters; both netlists expand to the same.
pub fn latch_swapped()
    ensures answer { LatchLaw }
    ensures whole { WholeLatchLaw }
{}
