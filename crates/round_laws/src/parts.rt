//! Rounds that look at some classes only, and rounds that go on from stable classes when one more
//! pair is guessed: laws.
//!
//! No code runs here; each law is the contract of a function with an empty body.

ghost use Rattle.round_laws.specs.Parting.{FewLaw, PairLaw, UnionLaw, StartLaw, StepLaw, EndLaw};
ghost use Rattle.round_laws.specs.Parting.{BeforeLaw, LastLaw};
ghost use Rattle.round_laws.specs.Renamed.{RenamedLaw};

/// A round may look at all parts but one of each class that was parted in the round before.
pub fn parting()
    ensures few { FewLaw }
{}

/// Stable classes under one more guess come from the stable classes without it: the pair is singled
/// out, and the classes are parted until no part is left to look at. Where those classes are even
/// on the way, so are the stable ones.
pub fn resuming()
    ensures pair { PairLaw }
    ensures start { StartLaw }
    ensures step { StepLaw }
    ensures last { EndLaw }
    ensures union { UnionLaw }
    ensures before { BeforeLaw }
    ensures guess { LastLaw }
{}

/// Two webs that are one but for the names of their nodes have the same rounds.
pub fn renaming()
    ensures { RenamedLaw }
{}
