//! What a rule set means for a layout: its names as trees of input layers, its conductors, globals,
//! labels and device rules.
//!
//! `specs/Formulas` has the trees, `Meaning` the wiring and the device rules, `Reads` which names
//! are read.
#![tactic(auto)]

ghost use Rattle.rule_layers.specs.Laws.{ConductorLaw, KnownGlobalLaw, TerminalConductorLaw};
ghost use Rattle.rule_layers.specs.Laws.{ReachLaw, ReachInLaw, NearLaw, GateReachLaw};

mod margin;
mod reads;
mod way;

pub use margin::zone_margin;
pub use reads::{mark_operands, no_marks, read_names};
pub use way::way_of;

/// Conductors are read as their names; grounds are known globals; a device's terminals are
/// conductors.
pub fn meaning()
    ensures conductor { ConductorLaw }
    ensures global { KnownGlobalLaw }
    ensures terminal { TerminalConductorLaw }
{}

/// How far names and device rules reach: no further than the furthest name, and that no further
/// than 10,000.
pub fn reaches()
    ensures name { ReachLaw }
    ensures inside { ReachInLaw }
    ensures near { NearLaw }
    ensures device { GateReachLaw }
{}
