//! The phase of pins.
ghost use Rattle.std.specs.Prelude.{◌≡◌, IfOk};
ghost use Rattle.cell_graph.specs.Linked.{plain};
ghost use Rattle.deep_tables.specs.Gates.{AreGates};
ghost use Rattle.deep_tables.specs.Nets.{AreNets};
ghost use Rattle.rule_text.specs.Seen.{rules_seen};
ghost use Rattle.zone_phase.specs.Graph.{AreParentJobs};

use crate::lines::{TextLine, global_names, text_lines};
use crate::links::{Link, find_links};
use crate::texts::net_tags;
use crate::used::pin_marks;
use deep_tables::{CellNets, CellPins, DeepKey, Gates, Nets};
use job_graph::{Graph, Phase, Reads};
use net_phase::{Wired, known_nets};
use std::alloc::{AllocError, Global};
use std::marker::Model;
use std::snapshot::Snapshot;
use zone_phase::{find_uses, parent_graph};

/// The pins and base names of each cell that the top reaches. Its jobs go through the design's
/// order from its end, so that each cell comes after those that place it. They read the layers,
/// nets and gates of all cells.
#[derive(Drop)]
pub struct PinPhase<'a> {
    wired: &'a Wired<'a>,
    lines: Vec<TextLine>,
    globals: Vec<Vec<u8>>,
    nets: Vec<Option<&'a CellNets>>,
    links: Vec<Vec<Link>>,
    graph: Graph,
}

impl<'a> Model for PinPhase<'a> {
    ghost use Rattle.pin_phase.specs.Phase.{IsPinPhase, PinJobs, jobs_seen};

    ghost Value = { PinJobs };

    ghost view = { jobs_seen };

    ghost invariant = { IsPinPhase };
}

impl<'a> PinPhase<'a> {
    /// The phase of what a layout's phases read, and of its nets and gates. Linear in the items and
    /// gates of all cells.
    pub fn new(
        alloc: Global,
        wired: &'a Wired<'a>,
        nets: &'a Nets,
        gates: &Gates,
    ) -> Result<PinPhase<'a>, AllocError>
        requires nets { AreNets (plain wired.now.design) (rules_seen wired.now.rules) nets.now }
        requires gates { AreGates (plain wired.now.design) (rules_seen wired.now.rules) gates.now }
        ensures design { IfOk result (λ p. p.design ≡ wired.now.design) }
        ensures rules { IfOk result (λ p. p.rules ≡ wired.now.rules) }
        ensures jobs { IfOk result (λ p. AreParentJobs wired.now.design p.graph) }
    {
        wired.sound();
        let design = wired.design();
        design.sound();
        let rules = wired.rules();
        let lines = text_lines(alloc, rules)?;
        let globals = global_names(alloc, rules)?;
        let known = known_nets(alloc, design, nets)?;
        let cells = (&*wired).below(&known);
        let links = find_links(alloc, &cells, design, nets, gates)?;
        let uses = find_uses(alloc, design)?;
        let graph = parent_graph(alloc, design, &uses)?;
        Ok(PinPhase {
            wired,
            lines,
            globals,
            nets: known,
            links,
            graph,
        })
    }
}

impl Phase for PinPhase<'_> {
    type Out = CellPins;

    ghost graph = { λ p. p.graph };

    ghost key = { λ p. record {
      design = record { marker = record {}; value = p.design };
      rules = record { marker = record {}; value = p.rules };
    } };

    fn graph(&self) -> &Graph {
        &self.graph
    }

    fn key(&self) -> DeepKey {
        DeepKey {
            design: Snapshot::of(self.wired.design()),
            rules: Snapshot::of(self.wired.rules()),
        }
    }

    fn work<R: Reads<CellPins>>(
        &self,
        alloc: Global,
        job: u32,
        reads: &R,
    ) -> Result<CellPins, AllocError> {
        let wired = self.wired;
        wired.sound();
        let design = wired.design();
        design.sound();
        let order = design.order();
        let cell = order[order.len() - 1 - job as usize];
        let cells = wired.below(&self.nets);
        let texts = design.texts(cell);
        let tags = net_tags(alloc, &cells, cell, texts, &self.lines, &self.globals)?;
        let links = &self.links[cell as usize];
        let pin = pin_marks(alloc, reads, &tags, links)?;
        let names = tags.bases(alloc)?;
        Ok(CellPins { pin, names })
    }
}
