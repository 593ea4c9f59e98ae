//! The phase of further devices: resistors and diodes.
ghost use Rattle.std.specs.Prelude.{◌≡◌, true};
ghost use Rattle.cell_graph.specs.Linked.{plain};
ghost use Rattle.deep_tables.specs.Gates.{AreMosGates};
ghost use Rattle.rule_text.specs.Seen.{rules_seen};
ghost use Rattle.gate_phase.specs.Work.{key_of};

use crate::copies::copies_of;
use crate::list::push_all;
use crate::work::DeviceWork;
use deep_tables::{CellGates, GateKey, Gates};
use job_graph::{Graph, Phase, Reads};
use std::alloc::{AllocError, Global};
use std::marker::Model;

/// The devices of each cell that the top reaches: the gates of its transistors, as a table has
/// them, and behind them the regions of its further device rules, by rule, then least square. Its
/// jobs go through the design's order and wait for none, as all that they read are tables.
#[derive(Drop)]
pub struct MorePhase<'a> {
    work: DeviceWork<'a>,
    gates: &'a Gates,
}

impl<'a> Model for MorePhase<'a> {
    ghost use Rattle.gate_phase.specs.Work.{WorkOf};
    ghost use Rattle.gate_phase.specs.More.{IsMorePhase};

    ghost Value = { WorkOf };

    ghost view = { λ p. p.work };

    ghost invariant = { IsMorePhase };
}

impl<'a> MorePhase<'a> {
    /// The phase over what the phase of gates has read and over the gates of transistors, in
    /// constant time.
    pub fn over(work: DeviceWork<'a>, gates: &'a Gates) -> MorePhase<'a>
        requires { AreMosGates (plain work.design) (rules_seen work.rules) gates.now }
        ensures { result ≡ work.entry }
    {
        MorePhase { work, gates }
    }
}

impl Phase for MorePhase<'_> {
    type Out = CellGates;

    ghost graph = { λ p. p.graph };

    ghost key = { λ p. key_of p true };

    fn graph(&self) -> &Graph {
        self.work.graph()
    }

    fn key(&self) -> GateKey {
        self.work.key(true)
    }

    fn work<R: Reads<CellGates>>(
        &self,
        alloc: Global,
        job: u32,
        reads: &R,
    ) -> Result<CellGates, AllocError> {
        let _ = reads;
        let cell = self.work.cell_of(job);
        let mut gates = copies_of(alloc, self.gates.of(cell))?;
        let (from, to) = (self.work.transistors(), self.work.devices());
        let more = self.work.gates_of(alloc, cell, from, to)?;
        push_all(&mut gates, more)?;
        Ok(CellGates { gates })
    }
}
