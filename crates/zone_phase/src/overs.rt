//! Squares of a cell over which its neighbours lie.
ghost use Rattle.std.specs.Prelude.{◌≡◌, ◌↔◌, ◌⊎◌, ◌<◌, [], true, length, OnOk};
ghost use Rattle.std.specs.List.{All};
ghost use Rattle.geo_base.specs.Rects.{IsRect, has};
ghost use Rattle.geo_base.specs.declared.shapes.Square.{Square};
ghost use Rattle.rect_sets.specs.Rects.{covers};
ghost use Rattle.flat_layout.specs.Layout.{Some_of};
ghost use Rattle.cell_graph.specs.Linked.{IsFrame, cell_at, own_of, places_at};
ghost use Rattle.zone_phase.specs.Neighbours.{AreNeighbours, IsNeighbour, IsOverBy};
ghost use Rattle.zone_phase.specs.declared.uses.Use.{Use as Uses};

use crate::beside::push_onto;
use crate::neighbours::Neighbour;
use crate::pulls::is_last;
use crate::siblings::push_brought;
use crate::thins::{FIRST_ROOM, thin};
use crate::uses::Use;
use crate::windows::element_rect;
use cell_graph::Design;
use geo_base::{LayerKey, Rect};
use std::alloc::{AllocError, Global};

// Whether a cell places none and has no shape on a layer.
fn is_bare(design: &Design, cell: u32, key: LayerKey) -> bool
    requires { cell < length design.now.cells }
    ensures own { result ≡ true → own_of (cell_at design.now cell) key ≡ [] }
    ensures places { result ≡ true → places_at (cell_at design.now cell) ≡ [] }
{
    design.own(cell, key).rects().is_empty() && design.places(cell).is_empty()
}

// Adds the squares of a cell's grown hull over which a neighbour lies.
fn push_over(
    alloc: Global,
    out: &mut Vec<Rect>,
    design: &Design,
    uses: &[Use],
    neighbour: &Neighbour,
    key: LayerKey,
    grown: &Rect,
) -> Result<(), AllocError>
    requires neighbour { IsNeighbour design.now uses.now neighbour.now }
    requires grown { IsFrame grown.now }
    requires rects { All IsRect out.old.items }
    ensures rects { OnOk result (All IsRect out.new.items) }
    ensures exact { OnOk result ((q : Square) → (covers out.new.items q ≡ true)
        ↔ ((covers out.old.items q ≡ true)
        ⊎ ((has grown.now q ≡ true) × IsOverBy design.now key q neighbour.now))) }
{
    let _ = uses;
    design.sound();
    let place = &neighbour.place;
    let other = &neighbour.other;
    if is_bare(design, other.cell, key) {
        return Ok(());
    }
    match design.hull(other.cell) {
        Some(hull) => {
            let window = element_rect(place, 0, 0, grown);
            let mut there = Vec::new(alloc);
            push_brought(alloc, &mut there, design, other, key, &hull, &window)?;
            push_onto(alloc, out, place, grown, &there)?;
            Ok(())
        }
        None => Ok(()),
    }
}

/// Adds the squares of a cell's grown hull over which one of its neighbours lies. Once the whole
/// grown hull is covered, none can add to it.
pub fn push_overs(
    alloc: Global,
    out: &mut Vec<Rect>,
    design: &Design,
    uses: &[Use],
    neighbours: &[Neighbour],
    key: LayerKey,
    grown: &Rect,
) -> Result<(), AllocError>
    requires neighbours { AreNeighbours design.now uses.now neighbours.now }
    requires grown { IsFrame grown.now }
    requires rects { All IsRect out.old.items }
    ensures rects { OnOk result (All IsRect out.new.items) }
    ensures exact { OnOk result ((q : Square) → (covers out.new.items q ≡ true)
        ↔ ((covers out.old.items q ≡ true)
        ⊎ ((has grown.now q ≡ true) × Some_of (IsOverBy design.now key q) neighbours.now))) }
{
    let mut room = FIRST_ROOM;
    for neighbour in neighbours {
        if is_last(out, grown) {
            return Ok(());
        }
        push_over(alloc, out, design, uses, neighbour, key, grown)?;
        room = thin(alloc, out, room)?;
    }
    Ok(())
}
