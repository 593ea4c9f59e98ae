//! What cells hold themselves, looked into by windows.
ghost use Rattle.std.specs.Prelude.{◌≡◌, ◌<◌, ◌^◌, ℕ, List, [], Some, get_or, length, max};
ghost use Rattle.std.specs.Prelude.{IfOk, IfSome, IsSome};
ghost use Rattle.geo_base.specs.declared.shapes.Rect.{Rect};
ghost use Rattle.cell_graph.specs.Linked.{plain};
ghost use Rattle.flat_layout.specs.Layout.{IsReached};
ghost use Rattle.rule_text.specs.Rules.{Rules};
ghost use Rattle.rule_text.specs.Seen.{rules_seen};
ghost use Rattle.deep_tables.specs.Layers.{AreLayers, layer_of};
ghost use Rattle.rule_text.specs.Reaches.{reaches};
ghost use Rattle.rule_text.specs.Sound.{IsSound};
ghost use Rattle.gate_phase.specs.Devices.{device_reach, layer_reach, region_reach};
ghost use Rattle.gate_phase.specs.Indexes.{AreAllIndexes, AreIndexes, AreMetOf};
ghost use Rattle.gate_phase.specs.Indexes.{index_in, index_lists};

use crate::device::{Device, Region};
use crate::met::{found_rects, met_rects};
use crate::reads::{device_names, marked_names};
use cell_graph::Design;
use deep_tables::{Layers, index_of};
use geo_base::Rect;
use rect_sets::RectSet;
use rule_text::{RuleSet, reaches};
use std::alloc::{AllocError, Global};
use std::marker::Model;
use tile_index::TileIndex;

/// The squares that cells hold themselves, with indexes of the layers of device rules, and how far
/// each name reaches. Contracts see the table of layers and the reaches.
#[derive(Drop)]
pub struct IndexedLayers<'a> {
    layers: &'a Layers,
    indexes: Vec<Vec<Option<TileIndex>>>,
    reaches: Vec<u32>,
}

impl<'a> Model for IndexedLayers<'a> {
    ghost use Rattle.gate_phase.specs.Indexes.{IsIndexedTable, LayersOf, layers_of};

    ghost Value = { LayersOf };

    ghost view = { layers_of };

    ghost invariant = { IsIndexedTable };
}

// The index of what a cell holds itself of a name, where that is wanted.
fn index_if(
    alloc: Global,
    layers: &Layers,
    cell: u32,
    name: u32,
    wanted: bool,
) -> Result<Option<TileIndex>, AllocError>
    requires { IsSome (layer_of layers.now cell name) }
    ensures { IfOk result (λ o. (rects : List Rect) → o ≡ Some rects
        → layer_of layers.now cell name ≡ Some rects) }
{
    if !wanted {
        return Ok(None);
    }
    let index = index_of(alloc, layers.local(cell, name).rects())?;
    Ok(Some(index))
}

// The indexes of what a cell holds itself of the marked names.
fn cell_indexes(
    alloc: Global,
    layers: &Layers,
    marks: &[bool],
    cell: u32,
) -> Result<Vec<Option<TileIndex>>, AllocError>
    requires few { length marks.now < 2 ^ 32 }
    requires layers { (i : ℕ) → i < length marks.now → IsSome (layer_of layers.now cell i) }
    ensures { IfOk result (λ v. AreIndexes layers.now cell v.items) }
{
    let mut indexes = Vec::new(alloc);
    for name in 0..marks.len() {
        let index = index_if(alloc, layers, cell, name as u32, marks[name])?;
        indexes.push(index)?;
    }
    Ok(indexes)
}

// A list for each cell, without an index.
fn no_indexes(alloc: Global, cells: u32) -> Result<Vec<Vec<Option<TileIndex>>>, AllocError>
    ensures count { IfOk result (λ v. length v.items ≡ cells) }
    ensures none { IfOk result (λ v. (k : ℕ) → get_or (index_lists v.items) k [] ≡ []) }
{
    let mut indexes = Vec::new(alloc);
    for _ in 0..cells {
        indexes.push(Vec::new(alloc))?;
    }
    Ok(indexes)
}

// The indexes of what each reached cell holds itself of the marked names.
fn all_indexes(
    alloc: Global,
    design: &Design,
    layers: &Layers,
    marks: &[bool],
) -> Result<Vec<Vec<Option<TileIndex>>>, AllocError>
    requires few { length marks.now < 2 ^ 32 }
    requires layers { (r : Rules) × AreLayers (plain design.now) r layers.now
        × (length marks.now ≡ length r.names) }
    ensures { IfOk result (λ v. AreAllIndexes layers.now (index_lists v.items)) }
{
    design.sound();
    let mut indexes = no_indexes(alloc, design.cells())?;
    for cell in design.order() {
        let found = cell_indexes(alloc, layers, marks, *cell)?;
        indexes[*cell as usize] = found;
    }
    Ok(indexes)
}

// The index of what a cell holds itself of a name, where there is one.
fn index_at<'b>(
    indexes: &'b [Vec<Option<TileIndex>>],
    cell: u32,
    name: u32,
) -> Option<&'b TileIndex>
    ensures { IfSome result (λ i. index_in (index_lists indexes.now) cell name ≡ Some i.now) }
{
    match indexes.get(cell as usize) {
        None => None,
        Some(found) => match found.get(name as usize) {
            None => None,
            Some(index) => index.as_ref(),
        },
    }
}

impl<'a> IndexedLayers<'a> {
    /// The table with its indexes. In O(n log n) for n rectangles of the layers of device rules,
    /// and linear in the names for each reached cell. 2^32 rectangles of a cell on a layer, or
    /// more, are refused.
    pub fn new(
        alloc: Global,
        design: &Design,
        rules: &RuleSet,
        layers: &'a Layers,
    ) -> Result<IndexedLayers<'a>, AllocError>
        requires few { length rules.now.names.items < 2 ^ 32 }
        requires rules { IsSound (rules_seen rules.now) }
        requires layers { AreLayers (plain design.now) (rules_seen rules.now) layers.now }
        ensures table { IfOk result (λ x. x.table ≡ layers.now) }
        ensures reaches { IfOk result (λ x. x.reaches ≡ reaches rules.now.names.items) }
    {
        let marks = device_names(alloc, rules)?;
        let indexes = all_indexes(alloc, design, layers, &marks)?;
        let names = rules.names.as_slice();
        let reaches = reaches(alloc, names)?;
        Ok(IndexedLayers {
            layers,
            indexes,
            reaches,
        })
    }

    /// The same with indexes of these names in place of the layers of device rules.
    pub fn of_names(
        alloc: Global,
        design: &Design,
        rules: &RuleSet,
        layers: &'a Layers,
        indexed: &[u32],
    ) -> Result<IndexedLayers<'a>, AllocError>
        requires few { length rules.now.names.items < 2 ^ 32 }
        requires rules { IsSound (rules_seen rules.now) }
        requires layers { AreLayers (plain design.now) (rules_seen rules.now) layers.now }
        ensures table { IfOk result (λ x. x.table ≡ layers.now) }
        ensures reaches { IfOk result (λ x. x.reaches ≡ reaches rules.now.names.items) }
    {
        let names = rules.names.as_slice();
        let marks = marked_names(alloc, names.len(), indexed)?;
        let indexes = all_indexes(alloc, design, layers, &marks)?;
        let reaches = reaches(alloc, names)?;
        Ok(IndexedLayers {
            layers,
            indexes,
            reaches,
        })
    }

    /// How far a name reaches, in squares; 0 past the last name.
    pub fn reach(&self, name: u32) -> u32
        ensures { result ≡ get_or self.now.reaches name 0 }
    {
        match self.reaches.get(name as usize) {
            Some(reach) => *reach,
            None => 0,
        }
    }

    fn layer_reach(&self, name: Option<u32>) -> u32
        ensures { result ≡ layer_reach self.now.reaches name }
    {
        match name {
            Some(name) => self.reach(name),
            None => 0,
        }
    }

    /// How far a layer of regions reaches.
    pub fn region_reach(&self, region: Region) -> u32
        ensures { result ≡ region_reach self.now.reaches region }
    {
        match region {
            Region::One(name) => self.reach(name),
            Region::Both(a, b) => self.reach(a).max(self.reach(b)),
        }
    }

    fn terminal_reach(&self, device: &Device) -> u32
        ensures { result ≡ max (get_or self.now.reaches device.now.ts 0)
            (max (get_or self.now.reaches device.now.tg 0)
            (get_or self.now.reaches device.now.tb 0)) }
    {
        self.reach(device.ts)
            .max(self.reach(device.tg).max(self.reach(device.tb)))
    }

    /// How far a device rule reaches: as far as the layer that it reads which reaches furthest.
    pub fn device_reach(&self, device: &Device) -> u32
        ensures { result ≡ device_reach self.now.reaches device.now }
    {
        let well = self
            .layer_reach(device.well)
            .max(self.terminal_reach(device));
        let region = self.region_reach(device.region).max(well);
        self.layer_reach(device.ends).max(region)
    }

    /// What a cell holds itself of a name, in constant time.
    pub fn local(&self, cell: u32, name: u32) -> &RectSet
        requires { IsSome (layer_of self.now.table cell name) }
        ensures { layer_of self.now.table cell name ≡ Some result.now }
    {
        self.layers.local(cell, name)
    }

    /// Rectangles of what a cell holds itself of a name, whole, among them all that share a square
    /// with the window. On a layer of a device rule about O(log n + k log k) for k of n rectangles,
    /// else O(n).
    pub fn met(
        &self,
        alloc: Global,
        cell: u32,
        name: u32,
        window: &Rect,
    ) -> Result<Vec<Rect>, AllocError>
        requires { IsSome (layer_of self.now.table cell name) }
        ensures { IfOk result (λ v. (layer : List Rect)
            → layer_of self.now.table cell name ≡ Some layer → AreMetOf layer window.now v.items) }
    {
        let rects = self.local(cell, name).rects();
        match index_at(&self.indexes, cell, name) {
            Some(index) => found_rects(alloc, rects, index, window),
            None => met_rects(alloc, rects, window),
        }
    }
}
