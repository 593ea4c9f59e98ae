//! The law of shapes: a gate's shape is found of lists that are exact at the gate and its ring.

ghost use Rattle.gate_shapes.specs.LookLaws.{LookAloneLaw, LookLaw};

/// What is found of lists that are exact at a gate and its ring holds of the gate.
pub fn looks()
    ensures { LookLaw }
{}

/// And what is found of lists that are exact at a region alone holds of the region.
pub fn looks_alone()
    ensures { LookAloneLaw }
{}
