//! The netlists that are compared.

ghost use Rattle.std.specs.Prelude.{◌≡◌, IfErr, IfOk};
ghost use Rattle.net_align.specs.Compared.{IsAlignable};
ghost use Rattle.net_model.specs.Rows.{plain_netlist};
ghost use Rattle.report_file.specs.Combined.{AreNarrow};
ghost use Rattle.rule_text.specs.Seen.{rules_seen};
ghost use Rattle.view_run.specs.Ends.{stopped};
ghost use Rattle.view_run.specs.Found.{AreCompared, NotCompared};

use crate::status::Stop;
use crate::stops::run_stop;
use lvs_run::{Merged, merge_both};
use net_model::Netlist;
use rule_text::RuleSet;
use std::alloc::Global;

/// A layout's netlist and a schematic, as the rules have them compared.
pub struct Both {
    pub layout: Netlist,
    pub schematic: Netlist,
}

// Written out, so that its owners drop it by one call.
impl Drop for Both {
    fn drop(self) {
        let Both {
            layout: _,
            schematic: _,
        } = self;
    }
}

/// What the rules have compared of a layout and a schematic: where they combine devices, each group
/// of alike transistors of a circuit as one. The layout is refused before the schematic. Linear in
/// both.
pub fn as_compared(
    alloc: Global,
    rules: &RuleSet,
    layout: Netlist,
    schematic: Netlist,
) -> Result<Both, Stop>
    requires layout { IsAlignable (plain_netlist layout) }
    requires schematic { IsAlignable (plain_netlist schematic) }
    ensures both { IfOk result (AreCompared (rules_seen rules.now) (plain_netlist layout)
        (plain_netlist schematic)) }
    ensures narrow { IfOk result (λ b. AreNarrow (rules_seen rules.now)
        (plain_netlist b.layout) (plain_netlist b.schematic)) }
    ensures refused { IfErr result (λ why. NotCompared (rules_seen rules.now)
        (plain_netlist layout) (plain_netlist schematic) (stopped why)) }
{
    if !rules.combine {
        return Ok(Both { layout, schematic });
    }
    let merged = match merge_both(alloc, &layout, &schematic) {
        Ok(merged) => merged,
        Err(stop) => return Err(run_stop(stop)),
    };
    let Merged { layout, schematic } = merged;
    Ok(Both { layout, schematic })
}
