//! The rectangles of a list, each with its position, in the order of a curve through the plane.

ghost use Rattle.std.specs.Prelude.{◌≡◌, ◌≤◌, ◌^◌, IfOk, OnErr};
ghost use Rattle.std.specs.List.Sorted.{IsPermutation};
ghost use Rattle.tile_index.specs.Entries.{AreEntries, AreInOrder, ArePlaced};

use crate::curve::place_on_curve;
use geo_base::Rect;
use list_base::small;
use std::alloc::{AllocError, Global};

/// A rectangle and its position in the list.
#[derive(Clone, Copy, Debug)]
pub struct Entry {
    pub rect: Rect,
    pub position: u32,
}

/// A position in the list, with the place of its rectangle on the curve.
#[derive(Clone, Copy, Debug)]
pub struct Stop {
    pub place: u64,
    pub position: u32,
}

/// A position as a number of 32 bits. One of 2^32 or more is want of memory. Constant time.
pub fn position_of(i: usize) -> Result<u32, AllocError>
    ensures position { IfOk result (λ position. position ≡ i) }
    ensures err { OnErr result (2 ^ 32 ≤ i) }
{
    match small(i) {
        Some(position) => Ok(position),
        None => Err(AllocError),
    }
}

// A stop for each rectangle, in the order of the list.
fn stops_of(alloc: Global, rects: &[Rect], hull: &Rect) -> Result<Vec<Stop>, AllocError>
    ensures { IfOk result (λ v. AreInOrder rects.now v.items) }
{
    let mut stops = Vec::with_capacity(alloc, rects.len())?;
    for (i, rect) in rects.iter().enumerate() {
        let position = position_of(i)?;
        let place = place_on_curve(rect, hull);
        stops.push(Stop { place, position })?;
    }
    Ok(stops)
}

fn sort_stops(stops: &mut Vec<Stop>)
    ensures { IsPermutation stops.old.items stops.new.items }
{
    stops.sort_unstable_by_key(|stop| stop.place);
}

/// A stop for each rectangle of a list, in the order of the curve. O(n log n).
pub fn stops_along(alloc: Global, rects: &[Rect], hull: &Rect) -> Result<Vec<Stop>, AllocError>
    ensures { IfOk result (λ v. ArePlaced rects.now v.items) }
{
    let mut stops = stops_of(alloc, rects, hull)?;
    sort_stops(&mut stops);
    Ok(stops)
}

/// The rectangles at the stops, in their order. O(n).
pub fn entries_at(alloc: Global, rects: &[Rect], stops: &[Stop]) -> Result<Vec<Entry>, AllocError>
    requires { ArePlaced rects.now stops.now }
    ensures { IfOk result (λ v. AreEntries rects.now v.items) }
{
    let mut entries = Vec::with_capacity(alloc, stops.len())?;
    for stop in stops {
        let position = stop.position;
        let rect = rects[position as usize];
        entries.push(Entry { rect, position })?;
    }
    Ok(entries)
}
