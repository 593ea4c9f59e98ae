//! Bytes and rules have one layout on which a run works, or one fault.

ghost use Rattle.run_layout.specs.RunLayout.{NoRunFaultLaw, OneRunFaultLaw, OneRunLayoutLaw};
ghost use Rattle.run_layout.specs.RunLayout.{RunFitsLaw};

use gds_layout::one_layout;
use rule_stages::stages;
use staged_layouts::staged;

/// The layout on which a run works is one, or there is one fault, want of memory apart; it fits a
/// stream as what was drawn does.
pub fn run_layouts()
    ensures layout { OneRunLayoutLaw }
    ensures apart { NoRunFaultLaw }
    ensures fault { OneRunFaultLaw }
    ensures fits { RunFitsLaw }
{
    one_layout();
    stages();
    staged();
}
