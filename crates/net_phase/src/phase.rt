//! The phase of nets.
ghost use Rattle.std.specs.Prelude.{◌≡◌, IfOk};
ghost use Rattle.cell_graph.specs.Linked.{plain};
ghost use Rattle.deep_tables.specs.Nets.{plain_nets};
ghost use Rattle.flat_layout.specs.Nets.{AreNets, AreRightBelow};
ghost use Rattle.net_phase.specs.Below.{tables_seen, wiring_seen};
ghost use Rattle.net_phase.specs.Graph.{AreBelowJobs};
ghost use Rattle.net_phase.specs.Wires.{AreWires};

use crate::below::Below;
use crate::graph::below_graph;
use crate::items::list_items;
use crate::linked::cell_links;
use crate::reading::read_nets;
use crate::wired::Wired;
use crate::wires::Wires;
use deep_tables::{CellNets, DeepKey};
use job_board::Crew;
use job_graph::{Graph, Phase, Reads};
use link_classes::joined_classes;
use net_walk::count_items;
use std::alloc::{AllocError, Global};
use std::marker::Model;
use std::snapshot::Snapshot;
use std::thread::Threads;

/// The nets of each cell that the top reaches. Its jobs go through the design's order, so that each
/// cell comes after all cells below it.
#[derive(Drop)]
pub struct NetPhase<'a, R, G> {
    wired: &'a Wired<'a>,
    crew: &'a Crew<'a, R, G>,
    graph: Graph,
}

impl<'a, R, G> Model for NetPhase<'a, R, G> {
    ghost use Rattle.net_phase.specs.Graph.{AreBelowJobs};
    ghost use Rattle.net_phase.specs.Phase.{NetJobs};

    ghost Value = { NetJobs };

    ghost view = { λ p. record {
      design = p.wired.now.design;
      rules = p.wired.now.rules;
      graph = p.graph;
    } };

    ghost invariant = { λ p. AreBelowJobs p.wired.now.design p.graph };
}

impl<'a, R, G> NetPhase<'a, R, G> {
    /// The phase of what a layout's phases read, with those who share the work of a large cell. It
    /// costs the graph of jobs.
    pub fn new(
        alloc: Global,
        wired: &'a Wired<'a>,
        crew: &'a Crew<'a, R, G>,
    ) -> Result<NetPhase<'a, R, G>, AllocError>
        ensures design { IfOk result (λ p. p.design ≡ wired.now.design) }
        ensures rules { IfOk result (λ p. p.rules ≡ wired.now.rules) }
        ensures jobs { IfOk result (λ p. AreBelowJobs wired.now.design p.graph) }
    {
        let graph = below_graph(alloc, wired.design())?;
        Ok(NetPhase { wired, crew, graph })
    }
}

// The nets of a cell over those of the cells below it.
fn cell_nets<R: Threads, G>(
    alloc: Global,
    below: &Below,
    wires: &Wires,
    cell: u32,
    crew: &Crew<R, G>,
) -> Result<CellNets, AllocError>
    requires right { AreRightBelow (plain below.now.design) (wiring_seen below.now)
        (tables_seen below.now) cell }
    requires wires { AreWires (wiring_seen below.now) wires.now }
    ensures { IfOk result (λ v. AreNets (plain below.now.design) (wiring_seen below.now)
        (tables_seen below.now) cell (plain_nets v)) }
{
    let count = count_items(below, cell, wires.globals)?;
    let links = cell_links(alloc, below, cell, count, wires, crew)?;
    let classes = joined_classes(alloc, count, &links)?;
    let items = list_items(alloc, below, cell, wires.globals, count)?;
    Ok(CellNets {
        items,
        net_of: classes.class_of,
        count: classes.count,
    })
}

impl<R: Threads, G> Phase for NetPhase<'_, R, G> {
    type Out = CellNets;

    ghost graph = { λ p. p.graph };

    ghost key = { λ p. record {
      design = record { marker = record {}; value = p.design };
      rules = record { marker = record {}; value = p.rules };
    } };

    fn graph(&self) -> &Graph {
        &self.graph
    }

    fn key(&self) -> DeepKey {
        DeepKey {
            design: Snapshot::of(self.wired.design()),
            rules: Snapshot::of(self.wired.rules()),
        }
    }

    fn work<V: Reads<CellNets>>(
        &self,
        alloc: Global,
        job: u32,
        reads: &V,
    ) -> Result<CellNets, AllocError> {
        let wired = self.wired;
        wired.sound();
        let design = wired.design();
        design.sound();
        let order = design.order();
        let cell = order[job as usize];
        let nets = read_nets(alloc, reads, self.graph.inputs(job), order, design.cells())?;
        cell_nets(alloc, &wired.below(&nets), wired.wires(), cell, self.crew)
    }
}
