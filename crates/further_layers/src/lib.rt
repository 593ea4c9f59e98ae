//! Sets of the cells of a design, as further layers of the cells.
#![tactic(auto)]

ghost use Rattle.further_layers.specs.Further.{FurtherLaw};

mod further;

pub use further::further_layers;

/// Of what cells hold of selections, they are the selections' layers.
pub fn laws()
    ensures { FurtherLaw }
{}
