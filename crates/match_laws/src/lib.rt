//! What a match of two circuits is, and what each answer of a comparison says: definitions and
//! laws.
//!
//! The definitions stand in `specs/`: `Circuits` (a pair of circuits as a web, correspondences),
//! `Answer` (the answer of a pair with its evidence), `Verdict` (what rounds and guesses say of two
//! circuits). No code runs here; each law is the contract of a function with an empty body.
#![tactic(auto)]

ghost use Rattle.match_laws.specs.Circuits.{WebMapLaw, ReadLaw};
ghost use Rattle.match_laws.specs.Verdict.{RefutedPairLaw, EndedPairLaw, SolvedPairLaw};
ghost use Rattle.match_laws.specs.Verdict.{FoundPairLaw};
ghost use Rattle.match_laws.specs.Answer.{MatchedLaw, DiffersLaw, OneAnswerLaw, UnevenLaw};
ghost use Rattle.match_laws.specs.Answer.{SingleLaw, UndecidedLaw};

/// A correspondence of two circuits is one of their web, and one of the web is read off as one of
/// the circuits.
pub fn correspondences()
    ensures web_map { WebMapLaw }
    ensures read { ReadLaw }
{}

/// Refuted rounds and ended searches exclude every correspondence of the circuits; solved rounds
/// and found searches give one.
pub fn verdicts()
    ensures refuted { RefutedPairLaw }
    ensures ended { EndedPairLaw }
    ensures solved { SolvedPairLaw }
    ensures found { FoundPairLaw }
{}

/// A match carries a correspondence, a difference excludes all, and there is one answer.
pub fn answers()
    ensures matched { MatchedLaw }
    ensures differs { DiffersLaw }
    ensures one { OneAnswerLaw }
    ensures uneven { UnevenLaw }
    ensures single { SingleLaw }
    ensures undecided { UndecidedLaw }
{}
