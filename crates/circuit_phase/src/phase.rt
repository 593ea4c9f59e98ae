//! The phase of circuits.
ghost use Rattle.std.specs.Prelude.{◌≡◌, ◌≤◌, IfOk};
ghost use Rattle.cell_graph.specs.Linked.{plain};
ghost use Rattle.deep_tables.specs.Gates.{AreGates};
ghost use Rattle.deep_tables.specs.Nets.{AreNets};
ghost use Rattle.deep_tables.specs.Pins.{ArePins};
ghost use Rattle.net_phase.specs.Graph.{AreBelowJobs};
ghost use Rattle.rule_layers.specs.Meaning.{wiring_of};
ghost use Rattle.rule_text.specs.Seen.{rules_seen};
ghost use Rattle.circuit_phase.specs.Phase.{HasOwn};

use crate::below::Below;
use crate::cells::placed_cells;
use crate::circuits::{CircuitCells, find_circuits, number_of};
use crate::made::{CellParts, circuit_or_none};
use crate::placed::drawn_marks;
use cell_graph::Design;
use deep_tables::{CellCircuit, CircuitKey, Gates, Nets, Pins, positions};
use job_graph::{Graph, Phase, Reads};
use net_phase::below_graph;
use rule_text::RuleSet;
use std::alloc::{AllocError, Global};
use std::marker::Model;
use std::snapshot::Snapshot;

/// The drawn nets of each cell that the top reaches, and its circuit where it has one. Its jobs go
/// through the design's order, so that each cell comes after all cells below it.
#[derive(Drop)]
pub struct CircuitPhase<'a> {
    design: &'a Design,
    rules: &'a RuleSet,
    nets: &'a Nets,
    pins: &'a Pins,
    gates: &'a Gates,
    unit_pm: u32,
    jobs: Vec<u32>,
    circuits: CircuitCells,
    graph: Graph,
}

impl<'a> Model for CircuitPhase<'a> {
    ghost use Rattle.circuit_phase.specs.Phase.{CircuitJobs, IsCircuitPhase, jobs_seen};

    ghost Value = { CircuitJobs };

    ghost view = { jobs_seen };

    ghost invariant = { IsCircuitPhase };
}

impl<'a> CircuitPhase<'a> {
    /// The phase of a layout and of its nets, pins and gates for these rules, with the database
    /// unit in picometres, 1 to 1,000,000. Linear in the references, the gates and the bytes of
    /// the cells' names, beside the graph of jobs.
    pub fn new(
        alloc: Global,
        design: &'a Design,
        rules: &'a RuleSet,
        nets: &'a Nets,
        pins: &'a Pins,
        gates: &'a Gates,
        unit_pm: u32,
    ) -> Result<CircuitPhase<'a>, AllocError>
        requires own { HasOwn (plain design.now) (wiring_of (rules_seen rules.now)) }
        requires nets { AreNets (plain design.now) (rules_seen rules.now) nets.now }
        requires pins { ArePins (plain design.now) (rules_seen rules.now) pins.now }
        requires gates { AreGates (plain design.now) (rules_seen rules.now) gates.now }
        ensures design { IfOk result (λ p. p.design ≡ design.now) }
        ensures rules { IfOk result (λ p. p.rules ≡ rules.now) }
        ensures unit { IfOk result (λ p. p.unit ≡ unit_pm) }
        ensures jobs { IfOk result (λ p. AreBelowJobs design.now p.graph) }
    {
        design.sound();
        let circuits = find_circuits(alloc, design, gates)?;
        let jobs = positions(alloc, design.cells(), design.order())?;
        let graph = below_graph(alloc, design)?;
        Ok(CircuitPhase {
            design,
            rules,
            nets,
            pins,
            gates,
            unit_pm,
            jobs,
            circuits,
            graph,
        })
    }
}

impl Phase for CircuitPhase<'_> {
    type Out = CellCircuit;

    ghost graph = { λ p. p.graph };

    ghost key = { λ p. record {
      design = record { marker = record {}; value = p.design };
      rules = record { marker = record {}; value = p.rules };
      unit_pm = record { marker = record {}; value = p.unit };
    } };

    fn graph(&self) -> &Graph {
        &self.graph
    }

    fn key(&self) -> CircuitKey {
        CircuitKey {
            design: Snapshot::of(self.design),
            rules: Snapshot::of(self.rules),
            unit_pm: Snapshot::of(&self.unit_pm),
        }
    }

    fn work<R: Reads<CellCircuit>>(
        &self,
        alloc: Global,
        job: u32,
        reads: &R,
    ) -> Result<CellCircuit, AllocError> {
        let design = self.design;
        design.sound();
        let cell = design.order()[job as usize];
        let below = Below {
            design,
            rules: self.rules,
            nets: self.nets,
            pins: self.pins,
            jobs: &self.jobs,
            circuits: &self.circuits.cells,
            numbers: &self.circuits.numbers,
            reads,
        };
        let number = number_of(&self.circuits.cells, &self.circuits.numbers, cell);
        let names = &self.circuits.names;
        let cells = placed_cells(alloc, design, cell)?;
        let parts = CellParts {
            cell,
            cells: &cells,
            nets: self.nets.of(cell),
            gates: self.gates.of(cell),
            pins: self.pins.of(cell),
            rules: self.rules,
            unit_pm: self.unit_pm,
        };
        let drawn = drawn_marks(alloc, &below, cell, &cells, parts.nets, parts.gates)?;
        let circuit = circuit_or_none(alloc, &below, &parts, &drawn, number, names)?;
        Ok(CellCircuit { circuit, drawn })
    }
}
