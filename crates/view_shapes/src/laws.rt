//! What the circuits of a layout show of its nets, for whoever looks at them circuit by circuit.

ghost use Rattle.view_shapes.specs.ReadLaws.{ReadLaw};

/// What the circuits show of a net, each in its own cell, is over all calls what the net holds.
pub fn read_law()
    ensures { ReadLaw }
{}
