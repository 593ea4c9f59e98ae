//! All selections of a rule file, depth by depth.

ghost use Rattle.std.specs.Prelude.{◌≡◌, IfErr, IfOk};
ghost use Rattle.cell_graph.specs.Layering.{HaveNames};
ghost use Rattle.flat_layout.specs.declared.way.Way.TheVariants.{Disturbed};
ghost use Rattle.rule_stages.specs.Stages.{AreSelectsOf, at_depth, stages_of};
ghost use Rattle.rule_text.specs.Seen.{rules_seen};
ghost use Rattle.rule_text.specs.Sound.{IsSound};
ghost use Rattle.depth_designs.specs.Stages.{AreDrawn, AreUnused, IsDepthFault, IsStageFault};
ghost use Rattle.depth_designs.specs.Stages.{stages_by};
ghost use Rattle.staged_layouts.specs.Staged.{IsStagedDesign};

use crate::sets::depth_sets;
use cell_graph::{Design, LinkFault};
use depth_designs::{depth_after_depth, with_found};
use flat_layout::Way;
use job_board::{Crew, Gate};
use rule_stages::{at_depth, deepest, depths};
use rule_text::{RuleSet, SelectRule};
use std::alloc::Global;
use std::sync::Wait;
use std::thread::Threads;

// The design with the selections of a depth as further layers.
fn with_depth<R: Threads + Wait + Sync, G: Gate + Sync>(
    alloc: Global,
    design: Design,
    rules: &RuleSet,
    depth: usize,
    selected: &[SelectRule],
    crew: &Crew<R, G>,
) -> Result<Design, LinkFault>
    requires rules { IsSound (rules_seen rules.now) }
    requires selected { selected.now ≡ at_depth (rules_seen rules.now) depth }
    requires of { AreSelectsOf (rules_seen rules.now) selected.now }
    requires way { design.way ≡ Disturbed }
    requires names { HaveNames design.cells }
    requires unused { AreUnused design (stages_by (rules_seen rules.now) selected.now) }
    ensures staged { IfOk result (IsStagedDesign (stages_by (rules_seen rules.now) selected.now)
        design) }
    ensures fault { IfErr result (IsDepthFault (rules_seen rules.now) design selected.now) }
{
    let sets = depth_sets(alloc, &design, rules, depth, selected, crew)?;
    with_found(alloc, design, rules, depth, selected, &sets)
}

/// The design with a further layer for each selection of the rules: in each cell the chosen ones of
/// the regions that are whole there and in none that it places. Where the rules have no selection
/// it is the design itself, at the cost of a look at the names; else each depth costs the zones and
/// the layers of the names that its selections read, the search of their regions, and linking. A
/// hull that reaches out of range, of a region of a sized name, is refused by its cell's name.
pub fn staged<R: Threads + Wait + Sync, G: Gate + Sync>(
    alloc: Global,
    design: Design,
    rules: &RuleSet,
    crew: &Crew<R, G>,
) -> Result<Design, LinkFault>
    requires rules { IsSound (rules_seen rules.now) }
    requires names { HaveNames design.cells }
    requires drawn { AreDrawn design }
    ensures staged { IfOk result (IsStagedDesign (stages_of (rules_seen rules.now)) design) }
    ensures fault { IfErr result (IsStageFault (rules_seen rules.now) design) }
{
    depth_after_depth();
    rule_stages::stages();
    let depths = depths(alloc, rules)?;
    let last = deepest(&depths);
    let way = design.way();
    let mut staged = design.keeping(Way::Disturbed);
    staged.sound();
    for depth in 0..last {
        let selected = at_depth(alloc, rules, &depths, depth + 1)?;
        staged = with_depth(alloc, staged, rules, depth + 1, &selected, crew)?;
    }
    let done = staged.keeping(way);
    done.sound();
    Ok(done)
}
