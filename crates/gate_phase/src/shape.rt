//! The shape of a region, by what its cell keeps close to it.
ghost use Rattle.std.specs.Prelude.{◌≡◌, ◌↔◌, ◌<◌, ◌^◌, true, None, length, Some, IfOk};
ghost use Rattle.std.specs.List.{All};
ghost use Rattle.geo_base.specs.declared.shapes.Square.{Square};
ghost use Rattle.rect_sets.specs.Near.{IsNearSet};
ghost use Rattle.flat_layout.specs.Gates.{IsSettled, Rule, form_of, geometry};
ghost use Rattle.flat_layout.specs.Layout.{IsReached};
ghost use Rattle.flat_layout.specs.Regions.{ground_of};
ghost use Rattle.cell_graph.specs.Linked.{IsRectWithin};
ghost use Rattle.rule_text.specs.Seen.{rules_seen};
ghost use Rattle.rule_layers.specs.Meaning.{grounds_of};
ghost use Rattle.gate_shapes.specs.Sets.{in_set};
ghost use Rattle.gate_shapes.specs.Shapes.{IsShape, IsShapeAlone, IsShapeBy};
ghost use Rattle.flat_layout.specs.Layers.{Formula};
ghost use Rattle.rule_layers.specs.Formulas.{formulas};
ghost use Rattle.gate_phase.specs.Devices.{IsDevice, IsKnownDevice};
ghost use Rattle.gate_phase.specs.Kept.{HasLocals};
ghost use Rattle.gate_phase.specs.Shape.{IsGateAt, IsKeptAt, IsPartAt, IsSheetAt, sheets_at};
ghost use Rattle.gate_phase.specs.Site.{IsReadySite, layout_at, wiring_at};

use crate::device::Device;
use crate::kept::kept_in;
use crate::site::Site;
use gate_shapes::{Around, GateShape, Sheets, area_shape, shape_of};
use geo_base::Rect;
use plain_netlist::DeviceKind;
use rect_sets::RectSet;
use rule_text::RuleSet;
use std::alloc::{AllocError, Global};

// The groups of a region: their layer's name by its number, their squares, and what these must lie
// on.
#[derive(Drop)]
struct Groups<'a> {
    name: u32,
    area: &'a RectSet,
    on: &'a RectSet,
}

// Whether the conductor has no global.
fn is_loose(rules: &RuleSet, conductor: u32) -> bool
    ensures { (result ≡ true) ↔ (ground_of conductor (grounds_of (rules_seen rules.now)) ≡ None) }
{
    for (grounded, _) in &rules.globals {
        if *grounded == conductor {
            return false;
        }
    }
    true
}

// What the cell keeps of the bulk's conductor, where that has no global: else nothing is asked of it.
fn bulk_in(
    alloc: Global,
    site: &Site<'_>,
    conductor: u32,
    windows: &[Rect],
    loose: bool,
) -> Result<RectSet, AllocError>
    requires cell { site.now.cell < length site.now.design.now.cells }
    requires reached { IsReached (layout_at site.now) site.now.cell }
    requires locals { (x : Formula)
        × HasLocals (layout_at site.now) site.now.layers.now conductor x }
    requires windows { All (IsRectWithin (2 ^ 39)) windows.now }
    ensures { IfOk result (λ s. loose ≡ true → IsKeptAt site.now conductor windows.now s) }
{
    if loose {
        return kept_in(
            alloc,
            site.design,
            site.layers,
            site.cell,
            conductor,
            windows,
        );
    }
    Ok(RectSet::empty(alloc))
}

// The shape of a region by its two groups, and by what these and its gate must lie on.
fn judged_shape(
    alloc: Global,
    site: &Site<'_>,
    device: &Device,
    groups: &Groups<'_>,
    on_gate: &RectSet,
    part: &RectSet,
    close: &RectSet,
) -> Result<GateShape, AllocError>
    requires ready { IsReadySite site.now }
    requires device { IsKnownDevice (rules_seen site.now.rules.now) device.now }
    requires ends { groups.now.name < length site.now.rules.now.names.items }
    requires near { IsNearSet part.now }
    requires windows { All (IsRectWithin (2 ^ 39)) close.now }
    requires groups { IsKeptAt site.now groups.now.name close.now groups.now.area.now }
    requires on_ends { IsKeptAt site.now device.now.ts close.now groups.now.on.now }
    requires sheet { IsSheetAt site.now device.now.kind device.now.tg close.now part.now
        on_gate.now }
    ensures { IfOk result (λ x. (u : Rule) (s : Square)
        → IsDevice (formulas site.now.rules.now.names.items) device.now u
        → device.now.ends ≡ Some groups.now.name
        → IsPartAt site.now u s part.now close.now
        → IsShape (sheets_at site.now u) (IsGateAt site.now u s) x) }
{
    let loose = is_loose(site.rules, device.tb);
    let windows = close.rects();
    let on_bulk = bulk_in(alloc, site, device.tb, windows, loose)?;
    let around = Around {
        ends: groups.area,
        on_ends: groups.on,
        on_gate,
        on_bulk: &on_bulk,
        loose,
    };
    shape_of(alloc, part, &around)
}

// The shape of a region between two groups, with what its gate must lie on. Where the groups' layer
// is their conductor, it is looked at once.
fn beside_shape(
    alloc: Global,
    site: &Site<'_>,
    device: &Device,
    ends: u32,
    on_gate: &RectSet,
    part: &RectSet,
    close: &RectSet,
) -> Result<GateShape, AllocError>
    requires ready { IsReadySite site.now }
    requires device { IsKnownDevice (rules_seen site.now.rules.now) device.now }
    requires ends { ends < length site.now.rules.now.names.items }
    requires near { IsNearSet part.now }
    requires windows { All (IsRectWithin (2 ^ 39)) close.now }
    requires sheet { IsSheetAt site.now device.now.kind device.now.tg close.now part.now
        on_gate.now }
    ensures { IfOk result (λ x. (u : Rule) (s : Square)
        → IsDevice (formulas site.now.rules.now.names.items) device.now u
        → device.now.ends ≡ Some ends
        → IsPartAt site.now u s part.now close.now
        → IsShape (sheets_at site.now u) (IsGateAt site.now u s) x) }
{
    let windows = close.rects();
    let groups = kept_in(alloc, site.design, site.layers, site.cell, ends, windows)?;
    if device.ts == ends {
        let same = Groups {
            name: ends,
            area: &groups,
            on: &groups,
        };
        return judged_shape(alloc, site, device, &same, on_gate, part, close);
    }
    let on_ends = kept_in(
        alloc,
        site.design,
        site.layers,
        site.cell,
        device.ts,
        windows,
    )?;
    let both = Groups {
        name: ends,
        area: &groups,
        on: &on_ends,
    };
    judged_shape(alloc, site, device, &both, on_gate, part, close)
}

// The shape of a region between two groups: a transistor's gate must lie on its conductor; of a
// resistor nothing is asked, so that the part itself will do.
fn grouped_shape(
    alloc: Global,
    site: &Site<'_>,
    device: &Device,
    ends: u32,
    part: &RectSet,
    close: &RectSet,
) -> Result<GateShape, AllocError>
    requires ready { IsReadySite site.now }
    requires device { IsKnownDevice (rules_seen site.now.rules.now) device.now }
    requires ends { ends < length site.now.rules.now.names.items }
    requires near { IsNearSet part.now }
    requires windows { All (IsRectWithin (2 ^ 39)) close.now }
    ensures { IfOk result (λ x. (u : Rule) (s : Square)
        → IsDevice (formulas site.now.rules.now.names.items) device.now u
        → device.now.ends ≡ Some ends
        → IsPartAt site.now u s part.now close.now
        → IsShape (sheets_at site.now u) (IsGateAt site.now u s) x) }
{
    match device.kind {
        DeviceKind::Mos4 => {
            let on_gate = kept_in(
                alloc,
                site.design,
                site.layers,
                site.cell,
                device.tg,
                close.rects(),
            )?;
            beside_shape(alloc, site, device, ends, &on_gate, part, close)
        }
        DeviceKind::ResistorWithBulk | DeviceKind::Diode => {
            beside_shape(alloc, site, device, ends, part, part, close)
        }
    }
}

// The shape of a region alone.
fn alone_shape(
    alloc: Global,
    site: &Site<'_>,
    device: &Device,
    part: &RectSet,
) -> Result<GateShape, AllocError>
    requires ready { IsReadySite site.now }
    requires device { IsKnownDevice (rules_seen site.now.rules.now) device.now }
    requires near { IsNearSet part.now }
    requires some { (q : Square) × in_set part.now q }
    requires windows { All (IsRectWithin (2 ^ 39)) part.now }
    ensures { IfOk result (λ x. (u : Rule) (s : Square)
        → IsDevice (formulas site.now.rules.now.names.items) device.now u
        → IsSettled (layout_at site.now) (geometry (wiring_at site.now) u) site.now.cell s
        → ((q : Square) → in_set part.now q
        ↔ IsGateAt site.now u s q)
        → IsShapeAlone (sheets_at site.now u) (IsGateAt site.now u s) x) }
{
    let windows = part.rects();
    let on_ends = kept_in(
        alloc,
        site.design,
        site.layers,
        site.cell,
        device.ts,
        windows,
    )?;
    let on_bulk = kept_in(
        alloc,
        site.design,
        site.layers,
        site.cell,
        device.tb,
        windows,
    )?;
    let sheets = Sheets {
        on_ends: &on_ends,
        on_bulk: &on_bulk,
        free: is_loose(site.rules, device.ts),
        loose: is_loose(site.rules, device.tb),
    };
    area_shape(alloc, part, &sheets)
}

/// The shape of a settled region: its sizes and the least squares of its two ends, or its first
/// fault. What the cell keeps is looked at close to the region alone.
pub fn shape_in(
    alloc: Global,
    site: &Site<'_>,
    device: &Device,
    part: &RectSet,
    close: &RectSet,
) -> Result<GateShape, AllocError>
    requires ready { IsReadySite site.now }
    requires device { IsKnownDevice (rules_seen site.now.rules.now) device.now }
    requires near { IsNearSet part.now }
    requires some { (q : Square) × in_set part.now q }
    requires part { All (IsRectWithin (2 ^ 39)) part.now }
    requires windows { All (IsRectWithin (2 ^ 39)) close.now }
    ensures { IfOk result (λ x. (u : Rule) (s : Square)
        → IsDevice (formulas site.now.rules.now.names.items) device.now u
        → IsPartAt site.now u s part.now close.now
        → IsShapeBy (form_of u.kind) (sheets_at site.now u) (IsGateAt site.now u s) x) }
{
    match device.ends {
        Some(ends) => grouped_shape(alloc, site, device, ends, part, close),
        None => alone_shape(alloc, site, device, part),
    }
}
