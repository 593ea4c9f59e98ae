//! A design with the selections of one depth as further layers, over what the cells hold of them.
#![tactic(auto)]

ghost use Rattle.depth_designs.specs.Stages.{FaultLaw, NamesLaw, NextDepthLaw, NoneLaw};
ghost use Rattle.depth_designs.specs.Stages.{UnusedLaw, WayLaw};

mod depth;

pub use depth::with_found;

/// Depth after depth a design gets all selections, in either way of keeping squares.
pub fn depth_after_depth()
    ensures none { NoneLaw }
    ensures next { NextDepthLaw }
    ensures unused { UnusedLaw }
    ensures names { NamesLaw }
    ensures way { WayLaw }
    ensures fault { FaultLaw }
{
    staged_layouts::stagings();
}
