//! The selections of a rule set in the order in which they are found: those that stand upon no
//! other, then those that stand upon these, and so on.
//!
//! `specs/Selections` has what a selection means, `Depths` and `Stages` the order, `StageRules` the
//! rules with which those of one depth are found.
#![tactic(auto)]

ghost use Rattle.rule_stages.specs.Stages.{InTurnLaw, EachStageLaw, FreeLaw};
ghost use Rattle.rule_stages.specs.StageRules.{StageSoundLaw, StageSelectLaw};

mod order;
mod staging;

pub use order::{at_depth, deepest, depths, select_at, sight_form};
pub use staging::stage_rules;

/// Selections by depth are each selection once, and read only layers of those before.
pub fn stages()
    ensures turn { InTurnLaw }
    ensures each { EachStageLaw }
    ensures free { FreeLaw }
{}

/// The rules of a depth are sound, and the selections mean over them what they mean over all rules.
pub fn stage_laws()
    ensures sound { StageSoundLaw }
    ensures select { StageSelectLaw }
{}
