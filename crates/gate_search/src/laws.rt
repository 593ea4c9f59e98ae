//! The law of the search: what it gathers holds all gates of a cell's own, part by part; and what a
//! cell keeps of two names together.

ghost use Rattle.gate_search.specs.BothLaws.{KeptBothLaw};
ghost use Rattle.gate_search.specs.SearchLaws.{PartLaw, FoundLaw, KnownLaw};

/// What was gathered around the seeds holds all gates of the cell's own, part by part.
pub fn searched()
    ensures part { PartLaw }
    ensures found { FoundLaw }
    ensures known { KnownLaw }
{}

/// What a cell keeps of the squares in both of two names it keeps of each, less those near which not
/// all is shut.
pub fn both_kept()
    ensures { KeptBothLaw }
{}
