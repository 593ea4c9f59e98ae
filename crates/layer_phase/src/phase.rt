//! The phase of the squares that cells hold themselves.
ghost use Rattle.std.specs.Prelude.{◌≡◌, IfOk};
ghost use Rattle.cell_graph.specs.Linked.{plain};
ghost use Rattle.deep_tables.specs.Zones.{AreZones};
ghost use Rattle.rule_text.specs.Seen.{rules_seen};
ghost use Rattle.rule_text.specs.Sound.{IsSound};
ghost use Rattle.deep_tables.specs.Jobs.{AreFreeJobs};

use crate::groups::{Group, groups_of};
use crate::layers::name_layers;
use crate::work::CellWork;
use cell_graph::Design;
use deep_tables::{CellLayers, DeepKey, Zones, free_graph};
use job_graph::{Graph, Phase, Reads};
use list_base::small;
use rule_text::{RuleSet, reaches};
use std::alloc::{AllocError, Global};
use std::marker::Model;
use std::snapshot::Snapshot;

/// The squares that each cell that the top reaches holds itself, for each name of the rules. Its
/// jobs go through the design's order. They read what cells leave alone, so none waits for
/// another.
#[derive(Drop)]
pub struct LayerPhase<'a> {
    design: &'a Design,
    rules: &'a RuleSet,
    zones: &'a Zones,
    groups: Vec<Group>,
    graph: Graph,
}

impl<'a> Model for LayerPhase<'a> {
    ghost use Rattle.layer_phase.specs.Phase.{IsLayerPhase, LayerJobs, jobs_seen};

    ghost Value = { LayerJobs };

    ghost view = { jobs_seen };

    ghost invariant = { IsLayerPhase };
}

impl<'a> LayerPhase<'a> {
    /// The phase of a layout and of what its cells leave for these rules. 2^32 names or more are
    /// refused. Linear in the reached cells, and in the names for each reach.
    pub fn new(
        alloc: Global,
        design: &'a Design,
        rules: &'a RuleSet,
        zones: &'a Zones,
    ) -> Result<LayerPhase<'a>, AllocError>
        requires rules { IsSound (rules_seen rules.now) }
        requires zones { AreZones (plain design.now) (rules_seen rules.now) zones.now }
        ensures design { IfOk result (λ p. p.design ≡ design.now) }
        ensures rules { IfOk result (λ p. p.rules ≡ rules.now) }
        ensures jobs { IfOk result (λ p. AreFreeJobs design.now p.graph) }
    {
        small(rules.names.len()).ok_or(AllocError)?;
        design.sound();
        let found = reaches(alloc, &rules.names)?;
        let groups = groups_of(alloc, &rules.names, &found)?;
        let graph = free_graph(alloc, design)?;
        Ok(LayerPhase {
            design,
            rules,
            zones,
            groups,
            graph,
        })
    }
}

impl Phase for LayerPhase<'_> {
    type Out = CellLayers;

    ghost graph = { λ p. p.graph };

    ghost key = { λ p. record {
      design = record { marker = record {}; value = p.design };
      rules = record { marker = record {}; value = p.rules };
    } };

    fn graph(&self) -> &Graph {
        &self.graph
    }

    fn key(&self) -> DeepKey {
        DeepKey {
            design: Snapshot::of(self.design),
            rules: Snapshot::of(self.rules),
        }
    }

    fn work<R: Reads<CellLayers>>(
        &self,
        alloc: Global,
        job: u32,
        reads: &R,
    ) -> Result<CellLayers, AllocError> {
        let _ = reads;
        let design = self.design;
        design.sound();
        let work = CellWork {
            design,
            rules: self.rules,
            zones: self.zones,
            cell: design.order()[job as usize],
        };
        let layers = name_layers(alloc, &work, &self.groups)?;
        Ok(CellLayers { layers })
    }
}
