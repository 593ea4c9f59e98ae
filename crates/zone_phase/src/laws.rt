//! Laws on disturbed squares, each the contract of a function that does nothing.
ghost use Rattle.zone_phase.specs.Siblings.{SiblingLaw};
ghost use Rattle.zone_phase.specs.Steps.{GrownLaw, ZoneStepLaw};

/// A cell's disturbed squares from those of the cells that place it.
pub fn zone_law()
    ensures grown { GrownLaw }
    ensures step { ZoneStepLaw }
{}

/// Siblings of elements lie where four arrays round the first element put them.
pub fn sibling_law()
    ensures { SiblingLaw }
{}
