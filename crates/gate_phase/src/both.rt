//! What a cell keeps of the squares in both of two names, as a layer asked window by window.
ghost use Rattle.std.specs.Prelude.{◌≡◌, ◌<◌, ◌≤◌, ◌^◌, length, IfOk};
ghost use Rattle.flat_layout.specs.Layout.{IsReached};
ghost use Rattle.cell_graph.specs.Linked.{plain};
ghost use Rattle.rule_text.specs.Seen.{rules_seen};
ghost use Rattle.rule_text.specs.Sound.{IsSound};
ghost use Rattle.gate_phase.specs.Indexes.{AreLayersOf};
ghost use Rattle.sized_layers.specs.Sizes.{IsSetWithin};
ghost use Rattle.gate_phase.specs.Both.{AreCalm, AreCalmInBoth, HasNearZone, IsOpenFor};

use crate::device::Region;
use crate::indexes::IndexedLayers;
use crate::layer::KeptLayer;
use crate::met::set_rects;
use crate::nearby::rects_within_reach;
use cell_context::grown;
use cell_graph::Design;
use deep_tables::{IndexedSet, ZoneKey, Zones};
use gate_search::GateLayer;
use geo_base::{Op, Rect};
use rect_sets::{RectSet, combine_rects};
use rule_text::RuleSet;
use std::alloc::{AllocError, Global};
use std::marker::Model;

/// What a cell keeps of both of two names: the squares that it keeps of each, less those near which
/// it leaves something for one of them. Of a name that is an input layer it keeps such squares too,
/// and of the squares in both it doesn't.
#[derive(Drop)]
pub struct BothLayer<'a, 'l> {
    design: &'a Design,
    first: KeptLayer<'a, 'l>,
    second: KeptLayer<'a, 'l>,
    zones: &'a Zones,
    cell: u32,
    names: (u32, u32),
    reach: u32,
}

impl<'a, 'l> Model for BothLayer<'a, 'l> {
    ghost use Rattle.gate_phase.specs.Both.{BothOf, IsBothLayer, both_of};

    ghost Value = { BothOf };

    ghost view = { both_of };

    ghost invariant = { IsBothLayer };
}

// The squares of a set within so many of which nothing is left, by windows of what is.
fn calm(alloc: Global, set: &RectSet, zone: &IndexedSet, reach: u32) -> Result<RectSet, AllocError>
    requires reach { reach ≤ 10000 }
    requires set { IsSetWithin (2 ^ 38) set.now }
    requires zone { IsSetWithin (2 ^ 39) zone.now }
    ensures { IfOk result (AreCalm reach set.now zone.now) }
{
    let mut stirred = Vec::new(alloc);
    for rect in set.rects() {
        let more = set_rects(alloc, zone, &grown(rect, reach))?;
        stirred.extend_from_slice(&more)?;
    }
    let near = rects_within_reach(alloc, stirred, reach)?;
    let found = combine_rects(alloc, set.rects(), &near, Op::Not)?;
    Ok(found)
}

/// The squares in both sets within so many of which the cell leaves nothing for either name.
pub fn calm_in_both(
    alloc: Global,
    zones: &Zones,
    cell: u32,
    names: (u32, u32),
    first: &RectSet,
    second: &RectSet,
    reach: u32,
) -> Result<RectSet, AllocError>
    requires reach { reach ≤ 10000 }
    requires first { HasNearZone zones.now cell names.0 }
    requires second { HasNearZone zones.now cell names.1 }
    requires set { IsSetWithin (2 ^ 38) first.now }
    ensures { IfOk result (AreCalmInBoth reach zones.now cell names first.now second.now) }
{
    let both = first.combined(alloc, second, Op::And)?;
    let one = zones.indexed(cell, ZoneKey::Layer(names.0));
    let once = calm(alloc, &both, one, reach)?;
    let other = zones.indexed(cell, ZoneKey::Layer(names.1));
    let found = calm(alloc, &once, other, reach)?;
    Ok(found)
}

impl<'a, 'l> BothLayer<'a, 'l> {
    /// What the cell keeps of both names.
    pub fn new(
        design: &'a Design,
        rules: &'a RuleSet,
        zones: &'a Zones,
        layers: &'a IndexedLayers<'l>,
        cell: u32,
        names: (u32, u32),
    ) -> BothLayer<'a, 'l>
        requires rules { IsSound (rules_seen rules.now) }
        requires first { names.0 < length rules.now.names.items }
        requires second { names.1 < length rules.now.names.items }
        requires first_zone { IsOpenFor design.now rules.now zones.now cell names.0 }
        requires second_zone { IsOpenFor design.now rules.now zones.now cell names.1 }
        requires layers { AreLayersOf (plain design.now) (rules_seen rules.now) layers.now }
        requires reached { IsReached (plain design.now) cell }
        ensures design { result.design ≡ design.now }
        ensures rules { result.rules ≡ rules.now }
        ensures cell { result.cell ≡ cell }
        ensures names { result.names ≡ names }
    {
        BothLayer {
            design,
            first: KeptLayer::new(design, rules, layers, cell, names.0),
            second: KeptLayer::new(design, rules, layers, cell, names.1),
            zones,
            cell,
            names,
            reach: layers.region_reach(Region::Both(names.0, names.1)),
        }
    }
}

impl GateLayer for BothLayer<'_, '_> {
    ghost use Rattle.gate_phase.specs.Both.{IsBothNear};

    ghost keeps = { IsBothNear };

    fn near(&self, alloc: Global, window: Rect) -> Result<RectSet, AllocError> {
        self.design.sound();
        let first = self.first.near(alloc, window)?;
        let second = self.second.near(alloc, window)?;
        let found = calm_in_both(
            alloc, self.zones, self.cell, self.names, &first, &second, self.reach,
        )?;
        Ok(found)
    }

    ghost bounded = { λ x q e. e.near };
}
