//! The phase of the squares that cells leave.
ghost use Rattle.std.specs.Prelude.{◌≡◌, IfOk};
ghost use Rattle.rule_text.specs.Seen.{rules_seen};
ghost use Rattle.rule_text.specs.Sound.{IsSound};
ghost use Rattle.zone_phase.specs.Graph.{AreParentJobs};

use crate::left::{covered_zones, left_zones};
use crate::names::input_zones;
use crate::parents::parent_graph;
use crate::uses::{Use, UsedCell, find_uses};
use cell_graph::Design;
use deep_tables::{CellZones, DeepKey};
use flat_layout::Way;
use job_graph::{Graph, Phase, Reads};
use rule_layers::{read_names, zone_margin};
use rule_text::{LayerRule, RuleSet};
use std::alloc::{AllocError, Global};
use std::marker::Model;
use std::snapshot::Snapshot;

/// The squares that each cell leaves that the top reaches, for each name of the rules that is
/// derived, or that a derived name or a device rule reads, and for each device rule. An input layer
/// that none of them reads costs nothing. The jobs go through the design's order from its end, so
/// that each cell comes after those that place it.
#[derive(Drop)]
pub struct ZonePhase<'a> {
    design: &'a Design,
    rules: &'a RuleSet,
    margin: u32,
    read: Vec<LayerRule>,
    uses: Vec<Vec<Use>>,
    graph: Graph,
}

impl<'a> Model for ZonePhase<'a> {
    ghost use Rattle.zone_phase.specs.Phase.{IsZonePhase, ZoneJobs, jobs_seen};

    ghost Value = { ZoneJobs };

    ghost view = { jobs_seen };

    ghost invariant = { IsZonePhase };
}

impl<'a> ZonePhase<'a> {
    /// The phase of a layout. Linear in the references and the names.
    pub fn new(
        alloc: Global,
        design: &'a Design,
        rules: &'a RuleSet,
    ) -> Result<ZonePhase<'a>, AllocError>
        requires rules { IsSound (rules_seen rules.now) }
        ensures design { IfOk result (λ p. p.design ≡ design.now) }
        ensures rules { IfOk result (λ p. p.rules ≡ rules.now) }
        ensures jobs { IfOk result (λ p. AreParentJobs design.now p.graph) }
    {
        let margin = zone_margin(alloc, rules)?;
        let read = read_names(alloc, &rules.names, &rules.devices, &rules.more)?;
        let uses = find_uses(alloc, design)?;
        let graph = parent_graph(alloc, design, &uses)?;
        Ok(ZonePhase {
            design,
            rules,
            margin,
            read,
            uses,
            graph,
        })
    }
}

impl Phase for ZonePhase<'_> {
    type Out = CellZones;

    ghost graph = { λ p. p.graph };

    ghost key = { λ p. record {
      design = record { marker = record {}; value = p.design };
      rules = record { marker = record {}; value = p.rules };
    } };

    fn graph(&self) -> &Graph {
        &self.graph
    }

    fn key(&self) -> DeepKey {
        DeepKey {
            design: Snapshot::of(self.design),
            rules: Snapshot::of(self.rules),
        }
    }

    fn work<R: Reads<CellZones>>(
        &self,
        alloc: Global,
        job: u32,
        reads: &R,
    ) -> Result<CellZones, AllocError> {
        let design = self.design;
        design.sound();
        let order = design.order();
        let cell = order[order.len() - 1 - job as usize];
        let uses = &self.uses[cell as usize];
        let used = UsedCell {
            design,
            cell,
            uses,
            margin: self.margin,
        };
        let zones = input_zones(alloc, &used, reads, &self.read)?;
        match design.way() {
            Way::Disturbed => left_zones(alloc, self.rules, &self.read, zones, None),
            Way::Covered => covered_zones(alloc, &used, self.rules, &self.read, zones),
        }
    }
}
