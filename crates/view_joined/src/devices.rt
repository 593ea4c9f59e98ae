//! The places of the devices of aligned circuits.

ghost use Rattle.std.specs.Prelude.{◌≡◌, ◌<◌, IfOk, IsErrOf, OnOk, length, map};
ghost use Rattle.std.specs.List.{All};
ghost use Rattle.flat_layout.specs.Layout.{Some_of};
ghost use Rattle.part_origins.specs.Inside.{plain_spot};
ghost use Rattle.view_netlist.specs.Drawing.{AreAllSmall, AreSmallPlaces, IsSmallPoint, IsSmallShift};
ghost use Rattle.view_words.specs.Numbers.{IsSmallRect};
ghost use Rattle.view_drawing.specs.Devices.{AddsRegions, AreSmallRegions, IsListedRegion};
ghost use Rattle.view_drawing.specs.Devices.{areas_of, seen_from};
ghost use Rattle.view_drawing.specs.Far.{IsFarArea};
ghost use Rattle.view_joined.specs.Devices.{AreJoinedDevices, HaveRegions, IsFarDevice, IsFarMoved};
ghost use Rattle.view_joined.specs.Devices.{IsMovedPlace, device_of, moved_corner, moved_rects};

use crate::moved::moved_area;
use crate::spots::{circuit_at, motion_at};
use geo_base::{Motion, Point, Rect, Square};
use part_origins::{Part, Spot};
use plain_netlist::DeviceKind;
use std::alloc::{AllocError, Global};
use view_drawing::{DeviceRegions, Region, add_region, area_from, keep_place};
use view_netlist::{DeviceClass, DevicePlace, Drawing};
use view_shapes::ShowFault;

// The lower left corner of the image of the square at a point.
fn moved_corner(motion: &Motion, p: Point) -> Point
    requires motion { IsSmallShift motion.now }
    requires point { IsSmallPoint p }
    ensures { result ≡ moved_corner motion.now p }
{
    let moved = motion.square(Square { x: p.x, y: p.y });
    Point {
        x: moved.x,
        y: moved.y,
    }
}

fn class_name_of(alloc: Global, region: &Region) -> Result<Vec<u8>, AllocError>
    ensures { IfOk result (λ v. v.items ≡ region.now.class.items) }
{
    region.class.as_slice().to_vec(alloc)
}

// The rectangles of a region of a device that stands at a place, moved, as they are seen from a
// point.
fn rects_from(
    alloc: Global,
    motion: &Motion,
    place: Point,
    at: Point,
    region: &Region,
) -> Result<Vec<Rect>, ShowFault>
    requires motion { IsSmallShift motion.now }
    requires place { IsSmallPoint place }
    requires region { All IsSmallRect region.now.rects.items }
    ensures at { OnOk result (IsSmallPoint at) }
    ensures rects { IfOk result (λ v. v.items
        ≡ map (seen_from at) (moved_rects motion.now place region.now.rects.items)) }
    ensures small { IfOk result (λ v. All IsSmallRect v.items) }
    ensures far { IsErrOf result ShowFault.TooFar
        → IsFarArea at (moved_rects motion.now place region.now.rects.items) }
{
    let area = moved_area(alloc, motion, place, &region.rects)?;
    let rects = area_from(alloc, at, &area)?;
    Ok(rects)
}

fn add_area(
    alloc: Global,
    found: &mut DeviceRegions,
    kind: DeviceKind,
    class: Vec<u8>,
    rects: Vec<Rect>,
) -> Result<u32, AllocError>
    ensures added { OnOk result (AddsRegions (areas_of found.old.regions.items)
        (areas_of found.new.regions.items)) }
    ensures listed { IfOk result (λ k. IsListedRegion (areas_of found.new.regions.items) k
        (record { kind = kind; name = class.items }) rects.items) }
    ensures small { OnOk result (AreSmallRegions (areas_of found.old.regions.items)
        → All IsSmallRect rects.items → AreSmallRegions (areas_of found.new.regions.items)) }
{
    let class = DeviceClass { kind, name: &class };
    add_region(alloc, found, class, rects)
}

// Where a device stands that is moved with its cell: its corner's square moved, in a region of its
// class with its area moved, as it is seen from there.
fn moved_place(
    alloc: Global,
    motion: &Motion,
    place: DevicePlace,
    found: &mut DeviceRegions,
) -> Result<DevicePlace, ShowFault>
    requires motion { IsSmallShift motion.now }
    requires place { IsSmallPoint place.at }
    requires region { place.region < length found.old.regions.items }
    requires regions { AreSmallRegions (areas_of found.old.regions.items) }
    ensures added { OnOk result (AddsRegions (areas_of found.old.regions.items)
        (areas_of found.new.regions.items)) }
    ensures place { IfOk result (IsMovedPlace motion.now place
        (areas_of found.new.regions.items)) }
    ensures small { OnOk result (AreSmallRegions (areas_of found.new.regions.items)) }
    ensures at { IfOk result (λ q. IsSmallPoint q.at) }
    ensures far { IsErrOf result ShowFault.TooFar
        → IsFarMoved motion.now place (areas_of found.old.regions.items) }
{
    let at = moved_corner(motion, place.at);
    let old = &found.regions[place.region as usize];
    let kind = old.kind;
    let class = class_name_of(alloc, old)?;
    let rects = rects_from(alloc, motion, place.at, at, old)?;
    let region = add_area(alloc, found, kind, class, rects)?;
    Ok(DevicePlace { region, at })
}

// The place of a device of a circuit, if it is drawn.
fn device_of(drawings: &[Drawing], circuit: u32, device: u32) -> Option<DevicePlace>
    ensures { result ≡ device_of drawings.now circuit device }
{
    match drawings.get(circuit as usize) {
        Some(drawing) => match drawing.devices.get(device as usize) {
            Some(place) => Some(*place),
            None => None,
        },
        None => None,
    }
}

/// The places of these devices at spots, in order, up to the first that isn't drawn in its circuit;
/// regions that are new are added. `TooFar` where one reaches 2^30 or more from the origin. Linear
/// in the rectangles.
pub fn joined_devices(
    alloc: Global,
    spots: &[Spot],
    drawings: &[Drawing],
    motions: &[Motion],
    devices: &[Part],
    found: &mut DeviceRegions,
) -> Result<Vec<DevicePlace>, ShowFault>
    requires drawings { AreAllSmall drawings.now }
    requires motions { All IsSmallShift motions.now }
    requires listed { HaveRegions (areas_of found.old.regions.items) drawings.now }
    requires regions { AreSmallRegions (areas_of found.old.regions.items) }
    ensures added { OnOk result (AddsRegions (areas_of found.old.regions.items)
        (areas_of found.new.regions.items)) }
    ensures places { IfOk result (λ v. AreJoinedDevices (map plain_spot spots.now) drawings.now
        motions.now (areas_of found.new.regions.items) devices.now v.items) }
    ensures small { OnOk result (AreSmallRegions (areas_of found.new.regions.items)) }
    ensures small_places { IfOk result (λ v. AreSmallPlaces v.items) }
    ensures far { IsErrOf result ShowFault.TooFar → Some_of (IsFarDevice (map plain_spot spots.now)
        drawings.now motions.now (areas_of found.old.regions.items)) devices.now }
{
    let mut out = Vec::new(alloc);
    let mut rest = devices;
    'devices: while let [part, more @ ..] = rest {
        let circuit = circuit_at(spots, part.spot);
        let Some(place) = device_of(drawings, circuit, part.number) else {
            return Ok(out);
        };
        let motion = motion_at(motions, part.spot);
        let moved = moved_place(alloc, &motion, place, found)?;
        keep_place(&mut out, moved)?;
        rest = more;
    }
    Ok(out)
}
