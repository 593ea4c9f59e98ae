//! The squares that cells leave to the cells above, and what disturbs them.
ghost use Rattle.std.specs.Prelude.{◌≡◌, ◌<◌, IfOk, IsSome, Option, Some, length, option_map};
ghost use Rattle.deep_tables.specs.Entries.{entry, IsDownward};
ghost use Rattle.deep_tables.specs.declared.zones.ZoneKey.TheVariants.{Device};
ghost use Rattle.deep_tables.specs.Zones.{HasName, disturbed_in, lone_in, lone_of, zone_of};

use crate::indexed::{IndexedSet, indexed_sets};
use crate::keys::DeepKey;
use crate::table::Table;
use cell_graph::Design;
use job_graph::{Defined, Results};
use rect_sets::RectSet;
use std::alloc::{AllocError, Global};
use std::marker::Model;

/// What a cell has beside that keeps what it covers itself: for each name of the rules that is an
/// input layer, what lies over the cell from elsewhere, and for each device rule the squares of its
/// regions' layer that others may make without the cell.
#[derive(Drop)]
pub struct CoveredZones {
    pub inputs: Vec<IndexedSet>,
    pub lone: Vec<RectSet>,
}

/// The squares that a cell leaves to the cells above, in its hull and so far round it as the rules'
/// margin says: for each name of the rules that is derived, or that a derived name or a device rule
/// reads, and for each device rule. At other names stands any set. Each set has an index of its
/// rectangles. Where a cell leaves all that something from elsewhere lies over there is no more to
/// say.
#[derive(Drop)]
pub struct CellZones {
    pub layers: Vec<IndexedSet>,
    pub devices: Vec<IndexedSet>,
    pub covered: Option<CoveredZones>,
}

impl CellZones {
    /// These sets, each with its index, in O(n log n) for n rectangles.
    pub fn new(
        alloc: Global,
        layers: Vec<RectSet>,
        devices: Vec<RectSet>,
        covered: Option<CoveredZones>,
    ) -> Result<CellZones, AllocError>
        ensures layers { IfOk result (λ z. z.layers.items ≡ layers.items) }
        ensures devices { IfOk result (λ z. z.devices.items ≡ devices.items) }
        ensures covered { IfOk result (λ z. z.covered ≡ covered) }
    {
        let layers = indexed_sets(alloc, layers)?;
        let devices = indexed_sets(alloc, devices)?;
        Ok(CellZones {
            layers,
            devices,
            covered,
        })
    }

    /// What lies over the cell from elsewhere on an input layer, by the number of its name, in
    /// constant time.
    pub fn disturbed(&self, name: usize) -> &IndexedSet
        requires { HasName name self.now }
        ensures { result.now ≡ disturbed_in self.now name }
    {
        match &self.covered {
            Some(covered) => &covered.inputs[name],
            None => &self.layers[name],
        }
    }

    /// The squares of a device rule's regions' layer that others may make without the cell, where
    /// that is told; in constant time.
    pub fn lone(&self, rule: usize) -> Option<&RectSet>
        ensures { option_map (λ s. s.now) result ≡ lone_in self.now rule }
    {
        match &self.covered {
            Some(covered) => covered.lone.get(rule),
            None => None,
        }
    }
}

impl Defined for CellZones {
    type Key = DeepKey;

    ghost use Rattle.cell_graph.specs.Linked.{plain};
    ghost use Rattle.rule_text.specs.Seen.{rules_seen};
    ghost use Rattle.deep_tables.specs.Entries.{downward_cell};
    ghost use Rattle.deep_tables.specs.Zones.{AreCellZones};

    ghost is_defined = { λ key job v. AreCellZones (plain key.design.value)
        (rules_seen key.rules.value) (downward_cell key.design.value job) v };
}

/// What squares are left for: a name, or the layers of a device rule.
#[derive(Clone, Copy, Debug, PartialEq, Eq)]
pub enum ZoneKey {
    Layer(u32),
    Device(u32),
}

/// The squares that each cell leaves that the top reaches. Contracts see a list with an entry, or
/// none, for each cell.
#[derive(Drop)]
pub struct Zones {
    table: Table<CellZones>,
}

impl Model for Zones {
    ghost use Rattle.std.specs.Prelude.{List, Option};
    ghost use Rattle.deep_tables.specs.declared.zones.CellZones.{CellZones};

    ghost Value = { List (Option CellZones) };

    ghost view = { λ z. z.table };
}

impl Zones {
    /// The table of a phase's results: its jobs go through the design's order from its end.
    pub fn new(
        alloc: Global,
        design: &Design,
        results: Results<CellZones>,
    ) -> Result<Zones, AllocError>
        ensures { IfOk result (IsDownward design.now results) }
    {
        let table = Table::downward(alloc, design, results)?;
        Ok(Zones { table })
    }

    /// The squares that a cell leaves for a name or a device rule, with the index of their
    /// rectangles, in constant time.
    pub fn indexed(&self, cell: u32, key: ZoneKey) -> &IndexedSet
        requires { IsSome (zone_of self.now cell key) }
        ensures { zone_of self.now cell key ≡ Some result.now }
    {
        let zones = self.table.of(cell);
        match key {
            ZoneKey::Layer(layer) => &zones.layers[layer as usize],
            ZoneKey::Device(rule) => &zones.devices[rule as usize],
        }
    }

    /// The squares of a device rule's regions' layer that others may make without the cell, where
    /// that is told; in constant time.
    pub fn lone(&self, cell: u32, rule: u32) -> Option<&RectSet>
        requires { IsSome (zone_of self.now cell (Device rule)) }
        ensures { option_map (λ s. s.now) result ≡ lone_of self.now cell rule }
    {
        self.table.of(cell).lone(rule as usize)
    }

    /// The squares that a cell leaves for a name or a device rule, in constant time.
    pub fn left(&self, cell: u32, key: ZoneKey) -> &RectSet
        requires { IsSome (zone_of self.now cell key) }
        ensures { zone_of self.now cell key ≡ Some result.now }
    {
        self.indexed(cell, key).set()
    }
}
