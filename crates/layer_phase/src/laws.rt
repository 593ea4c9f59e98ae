//! Laws on layers, each the contract of a function that does nothing.
ghost use Rattle.layer_phase.specs.Bridge.{KeptLaw};
ghost use Rattle.layer_phase.specs.Parts.{InputLayerLaw, LayerLaw};

/// The parts that the phase makes give a cell's layer; of an input layer it has its own squares.
pub fn layer_law()
    ensures derived { LayerLaw }
    ensures input { InputLayerLaw }
{}

/// A right table of what cells leave tells what placed cells keep.
pub fn kept_law()
    ensures { KeptLaw }
{}
