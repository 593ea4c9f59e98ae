//! What is drawn of the circuits of an aligned netlist.

ghost use Rattle.std.specs.Prelude.{IfOk, IsErrOf, OnOk, map};
ghost use Rattle.net_model.specs.Rows.{plain_circuit};
ghost use Rattle.part_origins.specs.Inside.{plain_inside};
ghost use Rattle.part_origins.specs.Made.{plain_origins};
ghost use Rattle.view_drawing.specs.Devices.{AddsRegions, AreSmallRegions, areas_of};
ghost use Rattle.view_joined.specs.Devices.{HaveRegions};
ghost use Rattle.view_netlist.specs.Drawing.{AreAllSmall, IsSmallDrawing, plain_drawing};
ghost use Rattle.view_picture.specs.Far.{HasFarJoined, IsFarJoined};
ghost use Rattle.view_picture.specs.Picture.{AreAllJoined, IsJoinedIn};
ghost use Rattle.view_picture.specs.Picture.{plain_drawings};

use crate::drawings::keep;
use net_model::Circuit;
use part_origins::{CircuitOrigins, Inside, Origins};
use std::alloc::Global;
use view_drawing::DeviceRegions;
use view_joined::joined_drawing;
use view_netlist::Drawing;
use view_shapes::ShowFault;

// What is drawn of an aligned circuit: nothing of one that comes from none.
fn draw_joined(
    alloc: Global,
    insides: &[Inside],
    origins: &CircuitOrigins,
    drawings: &[Drawing],
    left: &Circuit,
    regions: &mut DeviceRegions,
) -> Result<Drawing, ShowFault>
    requires drawings { AreAllSmall drawings.now }
    requires listed { HaveRegions (areas_of regions.old.regions.items) drawings.now }
    requires regions { AreSmallRegions (areas_of regions.old.regions.items) }
    ensures added { OnOk result (AddsRegions (areas_of regions.old.regions.items)
        (areas_of regions.new.regions.items)) }
    ensures joined { IfOk result (λ v. IsJoinedIn (map plain_inside insides.now) drawings.now
        (plain_origins origins.now) (plain_circuit left.now) (areas_of regions.new.regions.items)
        (plain_drawing v)) }
    ensures small { IfOk result (λ v. IsSmallDrawing (plain_drawing v)) }
    ensures small_regions { OnOk result (AreSmallRegions (areas_of regions.new.regions.items)) }
    ensures far { IsErrOf result ShowFault.TooFar → IsFarJoined (map plain_inside insides.now)
        drawings.now (areas_of regions.old.regions.items) (plain_origins origins.now) }
{
    match insides.get(origins.circuit as usize) {
        Some(inside) => {
            let count = left.nets.len();
            joined_drawing(alloc, inside, origins, drawings, count, regions)
        }
        None => Ok(Drawing::blank(alloc)),
    }
}

/// What is drawn of each of these circuits of an aligned netlist, as far as there are origins;
/// regions of devices that are new are added. `drawings` has what is drawn of each circuit of the
/// netlist that was aligned. `TooFar` where something reaches 2^30 or more from the origin. Linear in
/// what is drawn.
pub fn join_all(
    alloc: Global,
    origins: &Origins,
    drawings: &[Drawing],
    lefts: &[Circuit],
    regions: &mut DeviceRegions,
) -> Result<Vec<Drawing>, ShowFault>
    requires drawings { AreAllSmall drawings.now }
    requires listed { HaveRegions (areas_of regions.old.regions.items) drawings.now }
    requires regions { AreSmallRegions (areas_of regions.old.regions.items) }
    ensures added { OnOk result (AddsRegions (areas_of regions.old.regions.items)
        (areas_of regions.new.regions.items)) }
    ensures joined { IfOk result (λ v. AreAllJoined (map plain_inside origins.now.insides.items)
        drawings.now (map plain_origins origins.now.circuits.items) (map plain_circuit lefts.now)
        (areas_of regions.new.regions.items) (plain_drawings v.items)) }
    ensures small { IfOk result (λ v. AreAllSmall v.items) }
    ensures small_regions { OnOk result (AreSmallRegions (areas_of regions.new.regions.items)) }
    ensures far { IsErrOf result ShowFault.TooFar → HasFarJoined
        (map plain_inside origins.now.insides.items)
        (map plain_origins origins.now.circuits.items) drawings.now
        (areas_of regions.old.regions.items) }
{
    let mut out = Vec::new(alloc);
    let mut from = origins.circuits.as_slice();
    let mut rest = lefts;
    'circuits: while let [left, more @ ..] = rest {
        let [one, later @ ..] = from else {
            return Ok(out);
        };
        let drawing = draw_joined(alloc, &origins.insides, one, drawings, left, regions)?;
        keep(&mut out, drawing)?;
        rest = more;
        from = later;
    }
    Ok(out)
}
