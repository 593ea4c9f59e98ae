//! What the answers of all pairs are made from, kept for contracts alone.

use crate::answer::Answer;
use job_graph::Defined;
use net_model::Netlist;
use std::snapshot::Snapshot;

/// What the answers of all pairs are made from: two netlists whose circuits are compared by
/// position, the limit of refuted guesses, and whether names tell the tops' pins apart. Tokens of no
/// bytes.
#[derive(Drop)]
pub struct PairKey {
    pub left: Snapshot<Netlist>,
    pub right: Snapshot<Netlist>,
    pub limit: Snapshot<u32>,
    pub same_pins: Snapshot<bool>,
}

impl Defined for Answer {
    type Key = PairKey;

    ghost use Rattle.match_types.specs.Answered.{IsPairAnswer};

    ghost is_defined = { IsPairAnswer };
}
