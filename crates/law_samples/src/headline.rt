//! A layout with two transistors carried through all premises of a reported match, up to what it
//! says of the flat layout.

ghost use Rattle.law_samples.specs.Combined.{CombinedSampleLaw};
ghost use Rattle.law_samples.specs.Matched.{MatchedSampleLaw, TwoDevicesLaw};

/// The layout's tables are right, its netlist and the schematic are aligned, each pair's answer is
/// a match; so the two devices and the regions of the flat layout correspond to the flattened
/// schematic.
pub fn matched_layout()
    ensures matched { MatchedSampleLaw }
    ensures devices { TwoDevicesLaw }
{}

/// By rules that combine devices the same layout corresponds to a schematic in which each of its
/// transistors is two fingers.
pub fn combined_layout()
    ensures { CombinedSampleLaw }
{}
