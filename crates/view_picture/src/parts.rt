//! Where the devices of a circuit stand as it is compared, by those of its cell's circuit.

ghost use Rattle.std.specs.Prelude.{◌≡◌, ◌↔◌, IfOk, IfSome, map, true};
ghost use Rattle.device_merge.specs.Parts.{place_lists};
ghost use Rattle.net_model.specs.Rows.{plain_device};
ghost use Rattle.view_netlist.specs.Drawing.{AreSmallPlaces, IsSmallPoint};
ghost use Rattle.view_picture.specs.Parts.{AreDevicePlaces, AreMerged, first_place, first_places};

use device_merge::{merge_devices, merged_parts};
use net_model::DeviceRow;
use std::alloc::{AllocError, Global};
use view_drawing::keep_place;
use view_labels::same_devices;
use view_netlist::DevicePlace;

// Whether the devices are the others with each group of alike transistors as one.
fn are_merged(alloc: Global, rows: &[DeviceRow], others: &[DeviceRow]) -> Result<bool, AllocError>
    ensures { IfOk result (λ is. (is ≡ true)
        ↔ AreMerged (map plain_device rows.now) (map plain_device others.now)) }
{
    let made = merge_devices(alloc, others)?;
    match made {
        Some(merged) => Ok(same_devices(rows, &merged)),
        None => Ok(false),
    }
}

// Where the first of these devices stands, if it is drawn.
fn first_place(places: &[DevicePlace], part: &[u32]) -> Option<DevicePlace>
    requires { AreSmallPlaces places.now }
    ensures place { result ≡ first_place places.now part.now }
    ensures small { IfSome result (λ p. IsSmallPoint p.at) }
{
    let [first, ..] = part else {
        return None;
    };
    match places.get(*first as usize) {
        Some(place) => Some(*place),
        None => None,
    }
}

// Where the first of each list stands, up to the first that isn't drawn.
fn first_places(
    alloc: Global,
    places: &[DevicePlace],
    parts: &[Vec<u32>],
) -> Result<Vec<DevicePlace>, AllocError>
    requires { AreSmallPlaces places.now }
    ensures places { IfOk result (λ v. v.items
        ≡ first_places places.now (place_lists parts.now)) }
    ensures small { IfOk result (λ v. AreSmallPlaces v.items) }
{
    let mut out = Vec::new(alloc);
    let mut rest = parts;
    'parts: while let [part, more @ ..] = rest {
        let Some(place) = first_place(places, part.as_slice()) else {
            return Ok(out);
        };
        keep_place(&mut out, place)?;
        rest = more;
    }
    Ok(out)
}

/// Where the devices of a circuit stand, by the places of those of its cell's: the same of the same
/// devices; where each group of alike transistors is one, that of the group's first; of others
/// none. Linear in both.
pub fn device_places(
    alloc: Global,
    rows: &[DeviceRow],
    others: &[DeviceRow],
    places: Vec<DevicePlace>,
) -> Result<Vec<DevicePlace>, AllocError>
    requires { AreSmallPlaces places.items }
    ensures places { IfOk result (λ v. AreDevicePlaces (map plain_device rows.now)
        (map plain_device others.now) places.items v.items) }
    ensures small { IfOk result (λ v. AreSmallPlaces v.items) }
{
    if same_devices(rows, others) {
        return Ok(places);
    }
    let is_merged = are_merged(alloc, rows, others)?;
    if is_merged {
        let parts = merged_parts(alloc, others)?;
        let firsts = first_places(alloc, &places, &parts)?;
        return Ok(firsts);
    }
    Ok(Vec::new(alloc))
}
