//! What the phases of transistors and of further devices read, made once for both.
ghost use Rattle.std.specs.Prelude.{◌≡◌, ◌<◌, ◌≤◌, length, IfOk};
ghost use Rattle.cell_graph.specs.Linked.{plain};
ghost use Rattle.deep_tables.specs.Entries.{upward_cell};
ghost use Rattle.deep_tables.specs.Jobs.{AreFreeJobs};
ghost use Rattle.deep_tables.specs.Layers.{AreLayers};
ghost use Rattle.deep_tables.specs.Nets.{AreNets};
ghost use Rattle.deep_tables.specs.Zones.{AreZones};
ghost use Rattle.flat_layout.specs.Layout.{IsReached};
ghost use Rattle.rule_layers.specs.Meaning.{device_rules, mos_rules};
ghost use Rattle.rule_text.specs.Seen.{rules_seen};
ghost use Rattle.gate_phase.specs.Judged.{GoOn};
ghost use Rattle.gate_phase.specs.Work.{key_of};

use crate::bulks::{Grounds, device_grounds};
use crate::device::device_count;
use crate::indexes::IndexedLayers;
use crate::list::{cell_gates, push_all};
use crate::site::Site;
use cell_graph::Design;
use deep_tables::{CellNets, Gate, GateKey, Layers, Nets, Zones, free_graph};
use job_board::Crew;
use job_graph::Graph;
use list_base::small;
use net_phase::{Wired, is_large, known_nets};
use rule_text::RuleSet;
use std::alloc::{AllocError, Global};
use std::marker::Model;
use std::snapshot::Snapshot;
use std::thread::Threads;

/// What the phases of a layout read, its zones, layers and nets, and the jobs of both phases: they
/// go through the design's order. As they read the tables of all cells, none waits for another.
#[derive(Drop)]
pub struct DeviceWork<'a> {
    wired: &'a Wired<'a>,
    zones: &'a Zones,
    layers: IndexedLayers<'a>,
    grounds: Vec<Grounds>,
    nets: Vec<Option<&'a CellNets>>,
    graph: Graph,
}

impl<'a> Model for DeviceWork<'a> {
    ghost use Rattle.gate_phase.specs.Work.{IsDeviceWork, WorkOf, work_of};

    ghost Value = { WorkOf };

    ghost view = { work_of };

    ghost invariant = { IsDeviceWork };
}

impl<'a> DeviceWork<'a> {
    /// What both phases read. 2^32 names, device rules or globals, or more, are refused. It costs
    /// the indexes of the layers of device rules, and is linear in the names for each reached cell.
    pub fn new(
        alloc: Global,
        wired: &'a Wired<'a>,
        zones: &'a Zones,
        layers: &'a Layers,
        nets: &'a Nets,
    ) -> Result<DeviceWork<'a>, AllocError>
        requires zones { AreZones (plain wired.now.design) (rules_seen wired.now.rules) zones.now }
        requires layers { AreLayers (plain wired.now.design) (rules_seen wired.now.rules)
            layers.now }
        requires nets { AreNets (plain wired.now.design) (rules_seen wired.now.rules) nets.now }
        ensures design { IfOk result (λ w. w.design ≡ wired.now.design) }
        ensures rules { IfOk result (λ w. w.rules ≡ wired.now.rules) }
        ensures jobs { IfOk result (λ w. AreFreeJobs wired.now.design w.graph) }
    {
        wired.sound();
        let design = wired.design();
        let rules = wired.rules();
        small(rules.names.len()).ok_or(AllocError)?;
        device_count(rules)?;
        let grounds = device_grounds(alloc, rules)?;
        let known = known_nets(alloc, design, nets)?;
        let indexed = IndexedLayers::new(alloc, design, rules, layers)?;
        let graph = free_graph(alloc, design)?;
        Ok(DeviceWork {
            wired,
            zones,
            layers: indexed,
            grounds,
            nets: known,
            graph,
        })
    }

    /// The jobs of either phase.
    pub fn graph(&self) -> &Graph
        ensures is { result.now ≡ self.now.graph }
        ensures jobs { AreFreeJobs self.now.design self.now.graph }
    {
        &self.graph
    }

    /// What the phase of transistors is made from, or that of further devices.
    pub fn key(&self, further: bool) -> GateKey
        ensures { result ≡ key_of self.now further }
    {
        GateKey {
            design: Snapshot::of(self.wired.design()),
            rules: Snapshot::of(self.wired.rules()),
            further: Snapshot::of(&further),
        }
    }

    /// The cell of a job.
    pub fn cell_of(&self, job: u32) -> u32
        requires { job < length self.now.graph }
        ensures cell { result ≡ upward_cell self.now.design job }
        ensures reached { IsReached (plain self.now.design) result }
    {
        let design = self.wired.design();
        design.sound();
        design.order()[job as usize]
    }

    /// How many device rules there are.
    pub fn devices(&self) -> u32
        ensures { result ≡ length (device_rules (rules_seen self.now.rules)) }
    {
        self.grounds.len() as u32
    }

    /// How many of them are transistors': these come first.
    pub fn transistors(&self) -> u32
        ensures { result ≡ length (mos_rules (rules_seen self.now.rules)) }
    {
        self.wired.rules().devices.len() as u32
    }

    /// The regions of a reached cell's list for the device rules from one number up to another, by
    /// rule, then least square.
    pub fn gates_of(
        &self,
        alloc: Global,
        cell: u32,
        from: u32,
        to: u32,
    ) -> Result<Vec<Gate>, AllocError>
        requires reached { IsReached (plain self.now.design) cell }
        requires from { from ≤ to }
        requires to { to ≤ length (device_rules (rules_seen self.now.rules)) }
        ensures { IfOk result (λ v. GoOn (plain self.now.design) (rules_seen self.now.rules) cell
            from to v.items) }
    {
        let wired = self.wired;
        wired.sound();
        let design = wired.design();
        let rules = wired.rules();
        let globals = wired.wires().globals;
        let cells = wired.below(&self.nets);
        design.sound();
        let site = Site {
            design,
            rules,
            zones: self.zones,
            layers: &self.layers,
            cell,
        };
        cell_gates(alloc, &site, &cells, from, to, &self.grounds, globals)
    }

    // Whether a cell has so many items that a further thread costs less than it gives.
    fn is_large(&self, cell: u32) -> bool {
        match self.nets.get(cell as usize) {
            Some(Some(nets)) => is_large(nets.items.len()),
            _ => false,
        }
    }

    /// What `gates_of` finds, at its cost. For a cell of 10,000 items or more the first half of the
    /// rules is worked beside the other, on a further thread.
    pub fn gates_by<R: Threads, G>(
        &self,
        alloc: Global,
        cell: u32,
        from: u32,
        to: u32,
        crew: &Crew<R, G>,
    ) -> Result<Vec<Gate>, AllocError>
        requires reached { IsReached (plain self.now.design) cell }
        requires from { from ≤ to }
        requires to { to ≤ length (device_rules (rules_seen self.now.rules)) }
        ensures { IfOk result (λ v. GoOn (plain self.now.design) (rules_seen self.now.rules) cell
            from to v.items) }
    {
        if !self.is_large(cell) {
            return self.gates_of(alloc, cell, from, to);
        }
        let middle = from + (to - from) / 2;
        let halves = gates_beside(self, alloc, cell, from, middle, to, crew)?;
        let mut gates = halves.0;
        push_all(&mut gates, halves.1)?;
        Ok(gates)
    }
}

// The regions for the rules up to a number, and for those from there on, side by side.
fn gates_beside<R: Threads, G>(
    work: &DeviceWork,
    alloc: Global,
    cell: u32,
    from: u32,
    middle: u32,
    to: u32,
    crew: &Crew<R, G>,
) -> Result<(Vec<Gate>, Vec<Gate>), AllocError>
    requires reached { IsReached (plain work.now.design) cell }
    requires from { from ≤ middle }
    requires middle { middle ≤ to }
    requires to { to ≤ length (device_rules (rules_seen work.now.rules)) }
    ensures one { IfOk result (λ v. GoOn (plain work.now.design) (rules_seen work.now.rules) cell
        from middle v.0.items) }
    ensures other { IfOk result (λ v. GoOn (plain work.now.design) (rules_seen work.now.rules) cell
        middle to v.1.items) }
{
    let first = move || -> Result<Vec<Gate>, AllocError>
        requires { IsReached (plain work.now.design) cell × (from ≤ middle)
            × (middle ≤ length (device_rules (rules_seen work.now.rules))) }
        ensures { IfOk result (λ v. GoOn (plain work.entry.now.design)
            (rules_seen work.entry.now.rules) cell from middle v.items) }
    { work.gates_of(alloc, cell, from, middle) };
    let second = move || -> Result<Vec<Gate>, AllocError>
        requires { IsReached (plain work.now.design) cell × (middle ≤ to)
            × (to ≤ length (device_rules (rules_seen work.now.rules))) }
        ensures { IfOk result (λ v. GoOn (plain work.entry.now.design)
            (rules_seen work.entry.now.rules) cell middle to v.items) }
    { work.gates_of(alloc, cell, middle, to) };
    let (one, other) = crew.both(first, second);
    Ok((one?, other?))
}
