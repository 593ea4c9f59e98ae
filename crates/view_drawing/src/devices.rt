//! The places of devices.

ghost use Rattle.std.specs.Prelude.{◌≡◌, ◌++◌, ◌∷◌, [], ℕ, IfOk, IsErrOf, OnOk, length, map};
ghost use Rattle.net_model.specs.Rows.{plain_device};
ghost use Rattle.view_drawing.specs.Devices.{AddsRegions, ArePlaced, AreSmallRegions, IsPlaceOf};
ghost use Rattle.view_drawing.specs.Devices.{areas_of, corner_of, is_good};
ghost use Rattle.view_drawing.specs.Far.{HasFarGate, IsFarArea};
ghost use Rattle.view_netlist.specs.Drawing.{AreSmallPlaces, IsSmallPoint};
ghost use Rattle.view_netlist.specs.Kinds.{class_seen};

use crate::regions::{DeviceRegions, add_region, area_from};
use deep_tables::{Gate, GateState};
use geo_base::Point;
use net_model::DeviceRow;
use std::alloc::{AllocError, Global};
use view_netlist::{DeviceClass, DevicePlace, class_of};
use view_shapes::ShowFault;

fn is_good(gate: &Gate) -> bool
    ensures { result ≡ is_good gate.now.state }
{
    match gate.state {
        GateState::Good { .. } => true,
        GateState::Bad(_) => false,
    }
}

fn place_device(
    alloc: Global,
    gate: &Gate,
    class: DeviceClass<'_>,
    found: &mut DeviceRegions,
) -> Result<DevicePlace, ShowFault>
    ensures added { OnOk result (AddsRegions (areas_of found.old.regions.items) (areas_of found.new.regions.items)) }
    ensures place { IfOk result (IsPlaceOf (areas_of found.new.regions.items)
        (class_seen class.entry) gate.now) }
    ensures small { OnOk result (AreSmallRegions (areas_of found.old.regions.items)
        → AreSmallRegions (areas_of found.new.regions.items)) }
    ensures at { IfOk result (λ p. IsSmallPoint p.at) }
    ensures far { IsErrOf result ShowFault.TooFar
        → IsFarArea (corner_of gate.now.least) gate.now.area }
{
    let at = Point {
        x: gate.least.x,
        y: gate.least.y,
    };
    let rects = area_from(alloc, at, gate.area.rects())?;
    let region = add_region(alloc, found, class, rects)?;
    Ok(DevicePlace { region, at })
}

/// Adds a place.
pub fn keep_place(out: &mut Vec<DevicePlace>, place: DevicePlace) -> Result<(), AllocError>
    requires { IsSmallPoint place.at }
    ensures kept { OnOk result (out.new.items ≡ out.old.items ++ place ∷ []) }
    ensures small { OnOk result (AreSmallPlaces out.old.items → AreSmallPlaces out.new.items) }
{
    out.push(place)?;
    Ok(())
}

/// The places of the devices of a cell's good gates, whose rows these are, in order; regions that
/// are new are added. Past the last row there are no places. Linear in the gates' rectangles.
/// `TooFar` where a gate reaches 2^30 or more from the origin.
pub fn place_devices(
    alloc: Global,
    gates: &[Gate],
    rows: &[DeviceRow],
    found: &mut DeviceRegions,
) -> Result<Vec<DevicePlace>, ShowFault>
    ensures added { OnOk result (AddsRegions (areas_of found.old.regions.items) (areas_of found.new.regions.items)) }
    ensures places { IfOk result (λ v. ArePlaced (areas_of found.new.regions.items) gates.now
        (map plain_device rows.now) v.items) }
    ensures small { OnOk result (AreSmallRegions (areas_of found.old.regions.items)
        → AreSmallRegions (areas_of found.new.regions.items)) }
    ensures small_places { IfOk result (λ v. AreSmallPlaces v.items) }
    ensures far { IsErrOf result ShowFault.TooFar → HasFarGate gates.now }
{
    let mut out = Vec::new(alloc);
    let mut left = gates;
    let mut rest = rows;
    'gates: while let [gate, more @ ..] = left {
        left = more;
        if is_good(gate) {
            let [row, later @ ..] = rest else {
                return Ok(out);
            };
            let place = place_device(alloc, gate, class_of(row), found)?;
            keep_place(&mut out, place)?;
            rest = later;
        }
    }
    Ok(out)
}
