//! What holds of the rows of a match, and of those where all nodes are alone.

ghost use Rattle.view_cross.specs.Laws.{MatchedLeftLaw, MatchedRightLaw};
ghost use Rattle.view_cross.specs.Whole.{ApartLaw};

/// Each left node stands in one row; each right one in as many as it is the partner of left ones.
pub fn matched_laws()
    ensures left { MatchedLeftLaw }
    ensures right { MatchedRightLaw }
{}

/// Each node of both circuits stands in one row.
pub fn apart_laws()
    ensures { ApartLaw }
{}
