//! Where the regions of a cell's own are among what it keeps of their layer.
ghost use Rattle.std.specs.Prelude.{◌≡◌, ◌≤◌, ◌^◌, [], List, Some, IfOk, IsSome};
ghost use Rattle.geo_base.specs.declared.shapes.Rect.{Rect};
ghost use Rattle.rect_sets.specs.Near.{IsNearSet};
ghost use Rattle.flat_layout.specs.Gates.{Rule, geometry};
ghost use Rattle.cell_graph.specs.Linked.{cell_at, places_at};
ghost use Rattle.deep_tables.specs.Layers.{layer_of};
ghost use Rattle.gate_search.specs.Gather.{IsGatheredAround};
ghost use Rattle.gate_shapes.specs.PartLists.{AreParts};
ghost use Rattle.gate_phase.specs.Both.{AreCalmInBoth, HasNearZone};
ghost use Rattle.gate_phase.specs.Devices.{region_reach};
ghost use Rattle.gate_phase.specs.declared.device.Region.TheVariants.{Both};
ghost use Rattle.sized_layers.specs.Sizes.{IsSetWithin};
ghost use Rattle.gate_phase.specs.Search.{ArePartsAt, AreSearched, IsRegionAt};
ghost use Rattle.gate_phase.specs.Site.{HasRule, IsReadyDevice, IsReadySite, layout_at, wiring_at};

use crate::both::{BothLayer, calm_in_both};
use crate::device::Region;
use crate::indexes::IndexedLayers;
use crate::layer::KeptLayer;
use crate::seeds::seeds_of;
use crate::site::{DeviceSite, Site};
use deep_tables::Zones;
use gate_search::{GateLayer, gather_around};
use gate_shapes::parts;
use rect_sets::RectSet;
use std::alloc::{AllocError, Global};

// What a cell holds itself of both names, less what is near squares that it leaves.
fn local_in_both(
    alloc: Global,
    zones: &Zones,
    layers: &IndexedLayers,
    cell: u32,
    names: (u32, u32),
) -> Result<RectSet, AllocError>
    requires reach { region_reach layers.now.reaches (Both names.0 names.1) ≤ 10000 }
    requires first_zone { HasNearZone zones.now cell names.0 }
    requires second_zone { HasNearZone zones.now cell names.1 }
    requires first { (a : List Rect) × (layer_of layers.now.table cell names.0 ≡ Some a)
        × IsSetWithin (2 ^ 38) a }
    requires second { IsSome (layer_of layers.now.table cell names.1) }
    ensures { IfOk result (λ s. (a b : List Rect) → layer_of layers.now.table cell names.0 ≡ Some a
        → layer_of layers.now.table cell names.1 ≡ Some b → AreCalmInBoth
        (region_reach layers.now.reaches (Both names.0 names.1)) zones.now cell names a b s) }
{
    let first = layers.local(cell, names.0);
    let second = layers.local(cell, names.1);
    let reach = layers.region_reach(Region::Both(names.0, names.1));
    let found = calm_in_both(alloc, zones, cell, names, first, second, reach)?;
    Ok(found)
}

// The parts of a cell that places nothing: it keeps what it holds itself.
fn leaf_parts(alloc: Global, site: &Site, region: Region) -> Result<Vec<RectSet>, AllocError>
    requires ready { IsReadySite site.now }
    requires leaf { places_at (cell_at site.now.design.now site.now.cell) ≡ [] }
    requires region { IsRegionAt site.now region }
    ensures { IfOk result (λ v. (seeds : List Rect) → ArePartsAt site.now region seeds v.items) }
{
    site.design.sound();
    match region {
        Region::One(name) => parts(alloc, site.layers.local(site.cell, name)),
        Region::Both(a, b) => {
            let set = local_in_both(alloc, site.zones, site.layers, site.cell, (a, b))?;
            parts(alloc, &set)
        }
    }
}

// The parts of a layer that are gathered around some squares.
fn parts_around<L: GateLayer>(
    alloc: Global,
    layer: &L,
    starts: &RectSet,
) -> Result<Vec<RectSet>, AllocError>
    requires { IsNearSet starts.now }
    ensures { IfOk result (λ v. (found : List Rect)
        × IsGatheredAround (L.keeps layer.now) starts.now found × AreParts found v.items) }
{
    let found = gather_around(alloc, layer, starts)?;
    parts(alloc, &found)
}

// Those of the layer of regions of what a cell keeps.
fn region_parts(
    alloc: Global,
    site: &Site,
    region: Region,
    starts: &RectSet,
) -> Result<Vec<RectSet>, AllocError>
    requires ready { IsReadySite site.now }
    requires near { IsNearSet starts.now }
    requires region { IsRegionAt site.now region }
    ensures { IfOk result (λ v. ArePartsAt site.now region starts.now v.items) }
{
    site.design.sound();
    match region {
        Region::One(name) => {
            let layer = KeptLayer::new(site.design, site.rules, site.layers, site.cell, name);
            parts_around(alloc, &layer, starts)
        }
        Region::Both(a, b) => {
            let layer = BothLayer::new(
                site.design,
                site.rules,
                site.zones,
                site.layers,
                site.cell,
                (a, b),
            );
            parts_around(alloc, &layer, starts)
        }
    }
}

/// Parts of what a cell keeps of the layer of a device rule's regions, in order of their least
/// squares: among them all regions of the cell's own. A cell that places nothing keeps what it
/// holds itself: in O(n log n) for n rectangles of that, and no window is asked.
pub fn parts_of(alloc: Global, at: &DeviceSite) -> Result<Vec<RectSet>, AllocError>
    requires ready { IsReadyDevice at.now }
    ensures { IfOk result (λ v. (u : Rule) → HasRule at.now u
        → AreSearched (layout_at at.now.site) (geometry (wiring_at at.now.site) u) at.now.site.cell
        v.items) }
{
    let site = &at.site;
    site.design.sound();
    let region = at.device.region;
    if site.design.places(site.cell).is_empty() {
        return leaf_parts(alloc, site, region);
    }
    let starts = seeds_of(alloc, at)?;
    region_parts(alloc, site, region, &starts)
}
