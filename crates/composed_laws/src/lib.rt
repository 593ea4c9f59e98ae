//! Matched pairs of circuits compose to a correspondence of what both netlists expand to:
//! definitions and laws.
//!
//! The definitions stand in `specs/`: `Paired` (pairs of each circuit, and below it), `Composed`
//! (what a match of every pair is), `Answered` (the answers of all pairs), `Matched` (what a
//! reported match says of the layout and the schematic). No code runs here; each law is the
//! contract of a function with an empty body.
#![tactic(auto)]

ghost use Rattle.composed_laws.specs.Answered.{AnsweredLaw, OneAnswerOfLaw, ReadAnswersLaw};
ghost use Rattle.composed_laws.specs.Answered.{TogetherAnswersLaw};
ghost use Rattle.composed_laws.specs.Composed.{WholeMatchLaw, MatchCorrespondsLaw};
ghost use Rattle.composed_laws.specs.Matched.{AlignedMatchLaw, MatchedNetlistsLaw, MatchedTopsLaw};

/// Where every pair matches, two netlists expand to the same, also as they were before they were
/// aligned.
pub fn composing()
    ensures pairs { WholeMatchLaw }
    ensures expansions { MatchCorrespondsLaw }
    ensures aligned { AlignedMatchLaw }
{}

/// Answers that are all matches make a match; so a reported match is a correspondence of what the
/// layout's netlist and the schematic expand to.
pub fn matched()
    ensures answered { AnsweredLaw }
    ensures netlists { MatchedNetlistsLaw }
    ensures tops { MatchedTopsLaw }
{}

/// Each pair has one answer; what comes of right answers of the called pairs is right; and right
/// answers of all pairs are the answers.
pub fn answers()
    ensures one { OneAnswerOfLaw }
    ensures read { ReadAnswersLaw }
    ensures together { TogetherAnswersLaw }
{}
