//! A cell's disturbed squares for one input layer.
ghost use Rattle.std.specs.Prelude.{◌≡◌, ◌↔◌, ◌⊎◌, true, length, Some, OnOk, IfOk};
ghost use Rattle.std.specs.Prelude.{IsSomeAnd, [], ◌∷◌};
ghost use Rattle.std.specs.List.{All};
ghost use Rattle.geo_base.specs.Rects.{IsRect};
ghost use Rattle.geo_base.specs.declared.shapes.Square.{Square};
ghost use Rattle.rect_sets.specs.Rects.{covers};
ghost use Rattle.cell_graph.specs.Linked.{cell_at, hull_of};
ghost use Rattle.deep_tables.specs.Frames.{IsFramedZone};
ghost use Rattle.deep_tables.specs.Entries.{downward_cell};
ghost use Rattle.zone_phase.specs.Jobs.{HasName, HaveEntries, HaveName, IsFromUse, IsFromUses};
ghost use Rattle.zone_phase.specs.Jobs.{MayRead};
ghost use Rattle.zone_phase.specs.Jobs.{zone_in};
ghost use Rattle.deep_tables.specs.Frames.{grown};
ghost use Rattle.zone_phase.specs.Neighbours.{AreAllNear, AreNear, AreNeighbours};
ghost use Rattle.zone_phase.specs.Framed.{IsFramed};
ghost use Rattle.zone_phase.specs.Uses.{AreUsesOf, IsUse, IsUsed};

use crate::frame::Frame;
use crate::neighbours::Neighbour;
use crate::overs::push_overs;
use crate::pulls::is_last;
use crate::references::push_reference;
use crate::thins::{FIRST_ROOM, thin};
use crate::uses::{Use, UsedCell};
use cell_context::grown;
use deep_tables::CellZones;
use geo_base::{LayerKey, Rect};
use job_graph::Reads;
use rect_sets::RectSet;
use std::alloc::{AllocError, Global};

// Adds the squares of a cell's grown hull that one reference brings.
fn push_use<R: Reads<CellZones>>(
    alloc: Global,
    out: &mut Vec<Rect>,
    frame: &Frame<'_>,
    reads: &R,
    found: &Use,
    name: usize,
) -> Result<(), AllocError>
    requires found { IsUse frame.now.design.now frame.now.cell found.now }
    requires may { R.may_read reads.now found.now.job }
    requires entry { IsSomeAnd (R.value reads.now found.now.job) (HasName name) }
    requires frame { IsFramed frame.now }
    requires rects { All IsRect out.old.items }
    ensures rects { OnOk result (All IsRect out.new.items) }
    ensures exact { OnOk result ((q : Square) → (covers out.new.items q ≡ true)
        ↔ ((covers out.old.items q ≡ true)
        ⊎ IsFromUse frame.now.design.now (zone_in (R.value reads.now found.now.job) name)
        frame.now.cell frame.now.key frame.now.grown q found.now)) }
{
    let design = frame.design;
    design.sound();
    let order = design.order();
    let parent = order[order.len() - 1 - found.job as usize];
    let place = &design.places(parent)[found.index];
    let zone = reads.get(found.job).disturbed(name);
    push_reference(alloc, out, frame, zone, parent, found.index, place)
}

// The same of all references. Once the whole grown hull is covered, none can add to it.
fn push_uses<R: Reads<CellZones>>(
    alloc: Global,
    out: &mut Vec<Rect>,
    frame: &Frame<'_>,
    reads: &R,
    uses: &[Use],
    name: usize,
) -> Result<(), AllocError>
    requires uses { AreUsesOf frame.now.design.now frame.now.cell uses.now }
    requires may { MayRead (R.may_read reads.now) uses.now }
    requires entries { HaveName (R.value reads.now) name uses.now }
    requires frame { IsFramed frame.now }
    requires rects { All IsRect out.old.items }
    ensures rects { OnOk result (All IsRect out.new.items) }
    ensures exact { OnOk result ((q : Square) → (covers out.new.items q ≡ true)
        ↔ ((covers out.old.items q ≡ true)
        ⊎ IsFromUses frame.now.design.now (R.value reads.now) name frame.now.cell frame.now.key
        frame.now.grown uses.now (length uses.now) q)) }
{
    let mut room = FIRST_ROOM;
    for found in uses {
        if is_last(out, &frame.grown) {
            return Ok(());
        }
        push_use(alloc, out, frame, reads, found, name)?;
        room = thin(alloc, out, room)?;
    }
    Ok(())
}

// The same for a cell that has a hull.
fn hull_zone<R: Reads<CellZones>>(
    alloc: Global,
    used: &UsedCell<'_>,
    reads: &R,
    name: usize,
    key: LayerKey,
    hull: &Rect,
    neighbours: &[Neighbour],
) -> Result<RectSet, AllocError>
    requires used { IsUsed used.now }
    requires hull { hull_of (cell_at used.now.design.now used.now.cell) ≡ Some hull.now }
    requires neighbours { AreNeighbours used.now.design.now used.now.uses.now neighbours.now }
    requires all { AreAllNear used.now.design.now (grown used.now.margin hull.now)
        used.now.uses.now (length used.now.uses.now) neighbours.now }
    requires may { MayRead (R.may_read reads.now) used.now.uses.now }
    requires entries { HaveEntries used.now.margin used.now.design.now (R.value reads.now) key name
        used.now.uses.now }
    ensures { IfOk result (IsFramedZone used.now.margin used.now.design.now (key ∷ [])
        used.now.cell) }
{
    let design = used.design;
    let uses = used.uses;
    design.sound();
    let mut out = Vec::new(alloc);
    let wide = grown(hull, used.margin);
    let frame = Frame {
        design,
        cell: used.cell,
        key,
        hull: *hull,
        grown: wide,
    };
    push_uses(alloc, &mut out, &frame, reads, uses, name)?;
    push_overs(alloc, &mut out, design, uses, neighbours, key, &wide)?;
    let set = RectSet::canon(alloc, out)?;
    Ok(set)
}

/// A cell's disturbed squares for an input layer, within its hull grown by the margin, from the
/// entries of the jobs of the cells that place it.
pub fn key_zone<R: Reads<CellZones>>(
    alloc: Global,
    used: &UsedCell<'_>,
    reads: &R,
    name: usize,
    key: LayerKey,
    neighbours: &[Neighbour],
) -> Result<RectSet, AllocError>
    requires used { IsUsed used.now }
    requires neighbours { AreNear used.now.margin used.now.design.now used.now.cell
        used.now.uses.now neighbours.now }
    requires may { MayRead (R.may_read reads.now) used.now.uses.now }
    requires entries { HaveEntries used.now.margin used.now.design.now (R.value reads.now) key name
        used.now.uses.now }
    ensures { IfOk result (IsFramedZone used.now.margin used.now.design.now (key ∷ [])
        used.now.cell) }
{
    match used.design.hull(used.cell) {
        Some(hull) => hull_zone(alloc, used, reads, name, key, &hull, neighbours),
        None => Ok(RectSet::empty(alloc)),
    }
}
