//! Designs with the layers of selections: those of one depth are found over one design, and are
//! then its layers stage by stage.
#![tactic(auto)]

ghost use Rattle.staged_designs.specs.Depths.{DepthLaw};

/// A design with what its cells hold of selections that don't read one another is the design of
/// these stages.
pub fn stages()
    ensures { DepthLaw }
{}
