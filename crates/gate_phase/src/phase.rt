//! The phase of gates: the regions of transistors' rules.
ghost use Rattle.std.specs.Prelude.{◌≡◌, IfOk, false};
ghost use Rattle.cell_graph.specs.Linked.{plain};
ghost use Rattle.deep_tables.specs.Jobs.{AreFreeJobs};
ghost use Rattle.deep_tables.specs.Layers.{AreLayers};
ghost use Rattle.deep_tables.specs.Nets.{AreNets};
ghost use Rattle.deep_tables.specs.Zones.{AreZones};
ghost use Rattle.rule_text.specs.Seen.{rules_seen};
ghost use Rattle.gate_phase.specs.Work.{key_of};

use crate::work::DeviceWork;
use deep_tables::{CellGates, GateKey, Layers, Nets, Zones};
use job_board::Crew;
use job_graph::{Graph, Phase, Reads};
use net_phase::Wired;
use std::alloc::{AllocError, Global};
use std::marker::Model;
use std::thread::Threads;

/// The gates of transistors of each cell that the top reaches. Its jobs go through the design's
/// order. They read the zones, the layers and the nets of all cells, so none waits for another.
#[derive(Drop)]
pub struct GatePhase<'a, R, G> {
    work: DeviceWork<'a>,
    crew: &'a Crew<'a, R, G>,
}

impl<'a, R, G> Model for GatePhase<'a, R, G> {
    ghost use Rattle.gate_phase.specs.Work.{WorkOf};

    ghost Value = { WorkOf };

    ghost view = { λ p. p.work };
}

impl<'a, R, G> GatePhase<'a, R, G> {
    /// The phase of what a layout's phases read, and of its zones, layers and nets, with those who
    /// share the work of a large cell.
    /// 2^32 names, device rules or globals, or more, are refused. It costs the indexes of the
    /// layers of device rules, and is linear in the names for each reached cell.
    pub fn new(
        alloc: Global,
        wired: &'a Wired<'a>,
        zones: &'a Zones,
        layers: &'a Layers,
        nets: &'a Nets,
        crew: &'a Crew<'a, R, G>,
    ) -> Result<GatePhase<'a, R, G>, AllocError>
        requires zones { AreZones (plain wired.now.design) (rules_seen wired.now.rules) zones.now }
        requires layers { AreLayers (plain wired.now.design) (rules_seen wired.now.rules)
            layers.now }
        requires nets { AreNets (plain wired.now.design) (rules_seen wired.now.rules) nets.now }
        ensures design { IfOk result (λ p. p.design ≡ wired.now.design) }
        ensures rules { IfOk result (λ p. p.rules ≡ wired.now.rules) }
        ensures jobs { IfOk result (λ p. AreFreeJobs wired.now.design p.graph) }
    {
        let work = DeviceWork::new(alloc, wired, zones, layers, nets)?;
        Ok(GatePhase { work, crew })
    }

    /// What the phase read, for the phase of further devices.
    pub fn into_work(self) -> DeviceWork<'a>
        ensures { result ≡ self.entry }
    {
        self.work
    }
}

impl<R: Threads, G> Phase for GatePhase<'_, R, G> {
    type Out = CellGates;

    ghost graph = { λ p. p.graph };

    ghost key = { λ p. key_of p false };

    fn graph(&self) -> &Graph {
        self.work.graph()
    }

    fn key(&self) -> GateKey {
        self.work.key(false)
    }

    fn work<V: Reads<CellGates>>(
        &self,
        alloc: Global,
        job: u32,
        reads: &V,
    ) -> Result<CellGates, AllocError> {
        let _ = reads;
        let cell = self.work.cell_of(job);
        let to = self.work.transistors();
        let gates = self.work.gates_by(alloc, cell, 0, to, self.crew)?;
        Ok(CellGates { gates })
    }
}
