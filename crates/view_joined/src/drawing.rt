//! The drawings of aligned circuits.

ghost use Rattle.std.specs.Prelude.{◌≡◌, IfOk, IsErrOf, OnOk, false, true};
ghost use Rattle.std.specs.List.{All};
ghost use Rattle.flat_layout.specs.Layout.{Some_of};
ghost use Rattle.part_origins.specs.Inside.{plain_inside};
ghost use Rattle.part_origins.specs.Made.{plain_origins};
ghost use Rattle.view_drawing.specs.Devices.{AddsRegions, AreSmallRegions, areas_of};
ghost use Rattle.view_netlist.specs.Drawing.{AreAllSmall, AreSmallShapes, IsSmallDrawing, drawn_of};
ghost use Rattle.view_netlist.specs.Drawing.{plain_drawing};
ghost use Rattle.view_joined.specs.Devices.{HaveRegions};
ghost use Rattle.view_joined.specs.Far.{HasFarShape, JoinsFar};
ghost use Rattle.view_joined.specs.Joined.{IsJoinedDrawing};
ghost use Rattle.view_joined.specs.Nets.{shape_lists};

use crate::devices::joined_devices;
use crate::nets::joined_nets;
use crate::spots::{joined_calls, spot_motions};
use geo_base::Rect;
use part_origins::{CircuitOrigins, Inside};
use std::alloc::Global;
use view_drawing::DeviceRegions;
use view_netlist::{Drawing, Shape};
use view_shapes::ShowFault;
use view_words::is_small_rect;

// The box of a circuit, if one is drawn.
fn hull_of(drawings: &[Drawing], circuit: u32) -> Option<Rect>
    ensures { result ≡ (drawn_of drawings.now circuit).hull }
{
    match drawings.get(circuit as usize) {
        Some(drawing) => drawing.hull,
        None => None,
    }
}

fn are_small(shapes: &[Shape]) -> bool
    ensures small { result ≡ true → AreSmallShapes shapes.now }
    ensures far { result ≡ false → HasFarShape shapes.now }
{
    let mut rest = shapes;
    'shapes: while let [shape, more @ ..] = rest {
        if !is_small_rect(&shape.rect) {
            return false;
        }
        rest = more;
    }
    true
}

fn are_all_small(nets: &[Vec<Shape>]) -> bool
    ensures small { result ≡ true → All AreSmallShapes (shape_lists nets.now) }
    ensures far { result ≡ false → Some_of HasFarShape (shape_lists nets.now) }
{
    let mut rest = nets;
    'nets: while let [shapes, more @ ..] = rest {
        if !are_small(shapes) {
            return false;
        }
        rest = more;
    }
    true
}

/// What is drawn of an aligned circuit of so many nets: of each circuit that stands inside it what
/// is drawn of that one, moved along the path of its calls. `drawings` has what is drawn of each
/// circuit of the given netlist, by its number; regions of devices that are new are added. `TooFar`
/// where something reaches 2^30 or more from the origin. Linear in what is drawn.
pub fn joined_drawing(
    alloc: Global,
    inside: &Inside,
    origins: &CircuitOrigins,
    drawings: &[Drawing],
    count: usize,
    found: &mut DeviceRegions,
) -> Result<Drawing, ShowFault>
    requires drawings { AreAllSmall drawings.now }
    requires listed { HaveRegions (areas_of found.old.regions.items) drawings.now }
    requires regions { AreSmallRegions (areas_of found.old.regions.items) }
    ensures added { OnOk result (AddsRegions (areas_of found.old.regions.items)
        (areas_of found.new.regions.items)) }
    ensures joined { IfOk result (λ v. IsJoinedDrawing (plain_inside inside.now)
        (plain_origins origins.now) drawings.now count (areas_of found.new.regions.items)
        (plain_drawing v)) }
    ensures small { IfOk result (λ v. IsSmallDrawing (plain_drawing v)) }
    ensures small_regions { OnOk result (AreSmallRegions (areas_of found.new.regions.items)) }
    ensures far { IsErrOf result ShowFault.TooFar → JoinsFar (plain_inside inside.now)
        (plain_origins origins.now) drawings.now (areas_of found.old.regions.items) }
{
    let spots = inside.spots.as_slice();
    let motions = spot_motions(alloc, spots, drawings)?;
    let nets = joined_nets(alloc, spots, &motions, drawings, &origins.nets, count)?;
    if are_all_small(&nets) {
        let calls = joined_calls(alloc, spots, drawings, &motions, &origins.calls)?;
        let devices = joined_devices(alloc, spots, drawings, &motions, &origins.devices, found)?;
        return Ok(Drawing {
            hull: hull_of(drawings, origins.circuit),
            nets,
            devices,
            calls,
        });
    }
    Err(ShowFault::TooFar)
}
