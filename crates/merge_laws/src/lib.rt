//! Netlists in which each class of alike devices is one: definitions and laws.
//!
//! The definitions stand in `specs/`: `Merge` has alike devices and merged flat netlists,
//! `Grouped` a circuit's groups of alike devices and the circuit in which each is one. No code
//! runs here; each law is the contract of a function with an empty body.
#![tactic(auto)]

mod whole;

ghost use Rattle.merge_laws.specs.Grouped.{AlikeLaw, AlikeBackLaw, UnlikeLaw, MergedSameLaw};
ghost use Rattle.merge_laws.specs.Grouped.{GoodMergedLaw, MergedExpandsLaw, NormalMergedLaw};
ghost use Rattle.merge_laws.specs.Grouped.{SidesMergedLaw, SoundMergedLaw};
ghost use Rattle.merge_laws.specs.Leaves.{UnlikeLeafLaw};

pub use whole::whole_netlists;

/// Flat netlists that are the same stay so when merged.
pub fn merged_flats()
    ensures { MergedSameLaw }
{}

/// In a circuit where each group of alike devices is one, no two are alike.
pub fn merging()
    ensures alike { AlikeLaw }
    ensures alike_back { AlikeBackLaw }
    ensures unlike { UnlikeLaw }
    ensures sound { SoundMergedLaw }
    ensures normal { NormalMergedLaw }
    ensures good { GoodMergedLaw }
    ensures sides { SidesMergedLaw }
{}

/// What such circuits expand to is, when merged, what the given ones expand to, when merged.
pub fn merged_expansions()
    ensures { MergedExpandsLaw }
{}

/// Where a circuit calls nothing and no two of its devices are alike, nothing is left to merge of
/// what it expands to.
pub fn unlike_leaves()
    ensures { UnlikeLeafLaw }
{}
