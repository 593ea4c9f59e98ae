//! Classes have names of their own.

ghost use Rattle.view_netlist.specs.Kinds.{OneNameLaw};

/// Two folded classes of one name are one class.
pub fn class_names()
    ensures { OneNameLaw }
{}
