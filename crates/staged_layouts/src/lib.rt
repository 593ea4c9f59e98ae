//! Layouts with a further layer for each selection of regions: what they are, and that they can be
//! written and are one, as what was read is.
#![tactic(auto)]

ghost use Rattle.staged_layouts.specs.Staged.{ShowsSelectionsLaw, StagedAlikeLaw};
ghost use Rattle.staged_layouts.specs.Staged.{StagedDepthLaw, StagedFitsLaw, StagedOnLaw};

use cell_graph::design_laws;
use rect_sets::one_list;
use select_laws::stages;

/// A layout with its selections is determined by the layout, fits a stream where that does, and
/// shows the flat selections.
pub fn staged()
    ensures alike { StagedAlikeLaw }
    ensures fits { StagedFitsLaw }
    ensures shows { ShowsSelectionsLaw }
{
    design_laws();
    one_list();
    stages();
}

/// What is found of selections that don't read one another makes a design the staged one, and
/// selections upon selections are those of one list.
pub fn stagings()
    ensures depth { StagedDepthLaw }
    ensures on { StagedOnLaw }
{
    design_laws();
    staged_designs::stages();
}
