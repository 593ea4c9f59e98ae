//! What the answers of all pairs say.
ghost use Rattle.pair_jobs.specs.Answers.{CarriedPairLaw, KeptPairLaw, MatchedPairsLaw};
ghost use Rattle.pair_jobs.specs.Answers.{MatchedTopsLaw, ResultsLaw, UnevenPairLaw};
ghost use Rattle.pair_jobs.specs.Verdict.{OneRunVerdictLaw, OneVerdictLaw, UndecidedPairLaw};

/// Right results of all jobs are the answers of all pairs. Where each is a match, the circuits of
/// each pair, the two tops among them, expand to the same. A match carries a correspondence, a pair
/// that has a correspondence never differs, and one with unequal counts always does.
pub fn pair_answers()
    ensures results { ResultsLaw }
    ensures pairs { MatchedPairsLaw }
    ensures tops { MatchedTopsLaw }
    ensures carried { CarriedPairLaw }
    ensures kept { KeptPairLaw }
    ensures uneven { UnevenPairLaw }
{}

/// There is one verdict of the answers, and one of a run. That of the answers is undecided exactly
/// where no pair differs and one is undecided.
pub fn verdicts()
    ensures one { OneVerdictLaw }
    ensures one_run { OneRunVerdictLaw }
    ensures undecided { UndecidedPairLaw }
{}
