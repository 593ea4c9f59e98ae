//! The squares of input layers that a cell leaves which keeps what it covers itself.
ghost use Rattle.std.specs.Prelude.{◌≡◌, ◌∷◌, [], IfOk};
ghost use Rattle.deep_tables.specs.Frames.{IsFramedOpen, IsFramedZone};
ghost use Rattle.flat_layout.specs.declared.way.Way.TheVariants.{Covered};
ghost use Rattle.rect_sets.specs.Rects.{IsCanonical};
ghost use Rattle.rule_layers.specs.Formulas.{formulas};
ghost use Rattle.zone_phase.specs.Names.{AreInputOpens, AreInputZones, IsFormOpen, IsFormZone};
ghost use Rattle.zone_phase.specs.Uses.{IsUsed};

use crate::names::push_set;
use crate::uses::UsedCell;
use cell_context::collect_in;
use geo_base::{LayerKey, Op};
use rect_sets::RectSet;
use rule_text::{LayerForm, LayerRule};
use std::alloc::{AllocError, Global};

// What lies over a cell from elsewhere on an input layer, without the cell's own flat squares.
fn key_bare(
    alloc: Global,
    used: &UsedCell<'_>,
    key: LayerKey,
    zone: &RectSet,
) -> Result<RectSet, AllocError>
    requires used { IsUsed used.now }
    requires covered { used.now.design.now.way ≡ Covered }
    requires zone { IsFramedZone used.now.margin used.now.design.now (key ∷ []) used.now.cell
        zone.now }
    ensures { IfOk result (λ r. IsCanonical r → IsFramedOpen used.now.margin
        used.now.design.now (key ∷ []) used.now.cell r) }
{
    used.design.sound();
    if zone.rects().is_empty() {
        return Ok(RectSet::empty(alloc));
    }
    let flat = collect_in(alloc, used.design, used.cell, key, zone)?;
    let bare = zone.combined(alloc, &flat, Op::Not)?;
    Ok(bare)
}

fn form_bare(
    alloc: Global,
    used: &UsedCell<'_>,
    form: LayerForm,
    zone: &RectSet,
) -> Result<RectSet, AllocError>
    requires used { IsUsed used.now }
    requires covered { used.now.design.now.way ≡ Covered }
    requires zone { IsFormZone used.now.margin used.now.design.now used.now.cell form zone.now }
    ensures { IfOk result (λ r. IsCanonical r → IsFormOpen used.now.margin
        used.now.design.now used.now.cell form r) }
{
    match form {
        LayerForm::Input(key) => key_bare(alloc, used, key, zone),
        _ => Ok(RectSet::empty(alloc)),
    }
}

/// The squares that a cell leaves for each name that is an input layer, where it keeps what it
/// covers itself: what lies over it without its own flat squares there. A layer costs a walk below
/// the cell in windows of what lies over it; where nothing does it costs nothing.
pub fn bare_inputs(
    alloc: Global,
    used: &UsedCell<'_>,
    names: &[LayerRule],
    zones: &[RectSet],
) -> Result<Vec<RectSet>, AllocError>
    requires used { IsUsed used.now }
    requires covered { used.now.design.now.way ≡ Covered }
    requires zones { AreInputZones used.now.margin used.now.design.now used.now.cell
        (formulas names.now) zones.now }
    ensures opens { IfOk result (λ v. AreInputOpens used.now.margin used.now.design.now
        used.now.cell (formulas names.now) v.items) }
{
    let mut sets = Vec::new(alloc);
    for (name, rule) in names.iter().enumerate() {
        let set = form_bare(alloc, used, rule.form, &zones[name])?;
        push_set(&mut sets, set)?;
    }
    Ok(sets)
}
