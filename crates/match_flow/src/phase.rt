//! The pairs of two netlists, compared one after the other.
ghost use Rattle.std.specs.Prelude.{◌≡◌, ◌+◌, ◌==◌, ◌&&◌, length, IfOk};
ghost use Rattle.align_laws.specs.Partners.{AreSides};
ghost use Rattle.net_model.specs.Rows.{plain_netlist};
ghost use Rattle.pair_jobs.specs.Jobs.{AreCalledJobs};
ghost use Rattle.plain_netlist.specs.Sound.{IsGood};

use job_graph::{Graph, Phase, Reads};
use match_types::{Answer, PairKey};
use net_model::Netlist;
use pair_jobs::{child_pins, pair_graph};
use refine_match::match_circuits;
use std::alloc::{AllocError, Global};
use std::marker::Model;
use std::snapshot::Snapshot;

/// The answers of all pairs of two netlists whose circuits are compared by position. A pair is
/// compared after those that its left circuit calls, by the pins that these hand up.
#[derive(Drop)]
pub struct PairPhase<'a> {
    left: &'a Netlist,
    right: &'a Netlist,
    limit: u32,
    same_pins: bool,
    graph: Graph,
}

impl<'a> Model for PairPhase<'a> {
    ghost use Rattle.match_flow.specs.Phase.{IsPairPhase, PairJobs, jobs_seen};

    ghost Value = { PairJobs };

    ghost view = { jobs_seen };

    ghost invariant = { IsPairPhase };
}

impl<'a> PairPhase<'a> {
    /// The phase of the two sides of a comparison; in each pair at most `limit` guesses may end
    /// refuted, and with `same_pins` names tell the pins of the last pair apart, that of the tops.
    /// It takes the time to sort the calls. The error is want of memory, or 2^32 circuits or more.
    pub fn new(
        alloc: Global,
        left: &'a Netlist,
        right: &'a Netlist,
        limit: u32,
        same_pins: bool,
    ) -> Result<PairPhase<'a>, AllocError>
        requires sides { AreSides (plain_netlist left.now) (plain_netlist right.now) }
        requires order { IsGood (plain_netlist left.now) (λ k. k) }
        ensures left { IfOk result (λ p. p.left ≡ left.now) }
        ensures right { IfOk result (λ p. p.right ≡ right.now) }
        ensures limit { IfOk result (λ p. p.limit ≡ limit) }
        ensures pins { IfOk result (λ p. p.same_pins ≡ same_pins) }
        ensures jobs { IfOk result (λ p. AreCalledJobs (plain_netlist left.now) p.graph) }
    {
        let graph = pair_graph(alloc, left)?;
        Ok(PairPhase {
            left,
            right,
            limit,
            same_pins,
            graph,
        })
    }
}

// Whether names tell the pins of a pair apart: where that is asked, those of the last, the tops'.
fn is_told(left: &Netlist, pair: u32, same_pins: bool) -> bool
    ensures { result ≡ (same_pins && (pair + 1 == length left.now.circuits.items)) }
{
    same_pins && pair as usize + 1 == left.circuits.len()
}

impl Phase for PairPhase<'_> {
    type Out = Answer;

    ghost graph = { λ p. p.graph };

    ghost key = { λ p. record {
      left = record { marker = record {}; value = p.left };
      right = record { marker = record {}; value = p.right };
      limit = record { marker = record {}; value = p.limit };
      same_pins = record { marker = record {}; value = p.same_pins };
    } };

    fn graph(&self) -> &Graph {
        &self.graph
    }

    fn key(&self) -> PairKey {
        PairKey {
            left: Snapshot::of(self.left),
            right: Snapshot::of(self.right),
            limit: Snapshot::of(&self.limit),
            same_pins: Snapshot::of(&self.same_pins),
        }
    }

    fn work<R: Reads<Answer>>(
        &self,
        alloc: Global,
        job: u32,
        reads: &R,
    ) -> Result<Answer, AllocError> {
        let told = is_told(self.left, job, self.same_pins);
        let children = child_pins(alloc, self.left, self.graph.inputs(job), reads, told)?;
        let left = &self.left.circuits[job as usize];
        let right = &self.right.circuits[job as usize];
        match_circuits(alloc, left, right, &children, self.limit)
    }
}
