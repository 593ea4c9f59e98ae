//! The whole of the check in one law: where all pairs are reported as matched, the flat layout's
//! netlist corresponds to the flattened schematic.
//!
//! The flat layout's netlist knows no cells and no circuits: its devices are the good gates of the
//! flat top, its nets the regions of the flat top. No code runs here; the laws are contracts of
//! functions with empty bodies.
#![tactic(auto)]

ghost use Rattle.headline_laws.specs.Again.{MergedAgainLaw};
ghost use Rattle.headline_laws.specs.FlatNetlist.{FlatCorrespondsLaw, TopCircuitLaw};
ghost use Rattle.headline_laws.specs.Headline.{MatchedLayoutLaw};
ghost use Rattle.headline_laws.specs.Merged.{MergedMatchLaw};

/// The netlist made of a hierarchical layout's cells is that of the flat layout.
pub fn flat_layouts()
    ensures top { TopCircuitLaw }
    ensures expands { FlatCorrespondsLaw }
{}

/// A match of all pairs is a correspondence of the flat layout with the flattened schematic.
pub fn matched_layouts()
    ensures { MatchedLayoutLaw }
{}

/// A match of all pairs of the merged netlists is a correspondence of the two when merged flat,
/// also where they are merged once more after they were aligned.
pub fn merged_layouts()
    ensures merged { MergedMatchLaw }
    ensures again { MergedAgainLaw }
{}
