//! Selections of regions: the laws by which they are found cell by cell.
//!
//! A region that nothing disturbs in a cell is whole there, and the same from every cell above. The
//! chosen ones of the cells' own regions, as a further layer of the design, are the flat selection.
#![tactic(auto)]

ghost use Rattle.select_laws.specs.RegionLaws.{KeptRegionLaw, OneRegionPlaceLaw, EachRegionLaw};
ghost use Rattle.select_laws.specs.RegionLaws.{TopRegionLaw};
ghost use Rattle.select_laws.specs.Rest.{RestLaw, CandidateLaw, ToldLaw, PartedRestLaw};
ghost use Rattle.select_laws.specs.Grouped.{GroupLaw, GroupPartedLaw};
ghost use Rattle.select_laws.specs.Staged.{UnreadLaw, StagedLaw};
ghost use Rattle.select_laws.specs.SelectLaws.{SameChoiceLaw, OthersLaw, SelectedLaw};

/// The regions of the cells' own are the flat regions, each once.
pub fn regions()
    ensures kept { KeptRegionLaw }
    ensures place { OneRegionPlaceLaw }
    ensures once { EachRegionLaw }
    ensures top { TopRegionLaw }
{}

/// The chosen ones, as a further layer, are the flat selection.
pub fn selections()
    ensures choice { SameChoiceLaw }
    ensures others { OthersLaw }
    ensures selected { SelectedLaw }
{}

/// Selections one after the other.
pub fn stages()
    ensures unread { UnreadLaw }
    ensures staged { StagedLaw }
    ensures group { GroupLaw }
    ensures group_parted { GroupPartedLaw }
{}

/// A cell's own regions lie among what it holds itself and what goes up to it.
pub fn rests()
    ensures rest { RestLaw }
    ensures part { CandidateLaw }
    ensures told { ToldLaw }
    ensures parted { PartedRestLaw }
{}
