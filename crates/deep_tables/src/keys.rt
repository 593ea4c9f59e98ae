//! What phases are made from.
use cell_graph::Design;
use rule_text::RuleSet;
use std::snapshot::Snapshot;

/// The layout and the rules that a phase is made from: tokens of no bytes.
#[derive(Drop)]
pub struct DeepKey {
    pub design: Snapshot<Design>,
    pub rules: Snapshot<RuleSet>,
}

/// The same, and whether the devices that are no transistors are in the lists.
#[derive(Drop)]
pub struct GateKey {
    pub design: Snapshot<Design>,
    pub rules: Snapshot<RuleSet>,
    pub further: Snapshot<bool>,
}
