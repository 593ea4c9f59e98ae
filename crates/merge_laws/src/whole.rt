//! No device is lost where each class of alike ones is one: laws.
//!
//! No code runs here; each law is the contract of a function with an empty body.

ghost use Rattle.merge_laws.specs.Whole.{MergedOnceLaw, MergedWholeLaw};

/// What a circuit of a good netlist expands to has, when merged, a row for each of its devices,
/// and one.
pub fn whole_netlists()
    ensures whole { MergedWholeLaw }
    ensures once { MergedOnceLaw }
{}
