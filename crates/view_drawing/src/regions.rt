//! The regions of devices, each once.

ghost use Rattle.std.specs.Prelude.{◌≡◌, ◌++◌, ◌∷◌, [], IfOk, IsErrOf, OnOk, Some, map, slice_get, true};
ghost use Rattle.std.specs.List.{All};
ghost use Rattle.flat_layout.specs.Layout.{Some_of};
ghost use Rattle.view_netlist.specs.Drawing.{IsSmallPoint};
ghost use Rattle.view_netlist.specs.Kinds.{class_seen};
ghost use Rattle.view_words.specs.Numbers.{IsSmallRect};
ghost use Rattle.view_drawing.specs.Devices.{AddsRegions, AreSmallRegions, IsListedRegion};
ghost use Rattle.view_drawing.specs.Devices.{areas_of, class_in, seen_from};
ghost use Rattle.view_drawing.specs.Far.{IsFarArea, IsFarFrom};

use crate::small::{is_small_point, small_from};
use geo_base::{Point, Rect};
use list_base::number;
use plain_netlist::DeviceKind;
use std::alloc::{AllocError, Global};
use text_table::TextTable;
use view_netlist::DeviceClass;
use view_shapes::ShowFault;

/// The region of devices of a class, as it is seen from a corner of each.
#[derive(Drop)]
pub struct Region {
    pub kind: DeviceKind,
    pub class: Vec<u8>,
    pub rects: Vec<Rect>,
}

impl Region {
    /// The class of the devices.
    pub fn class(&self) -> DeviceClass<'_>
        ensures { class_seen result ≡ class_in self.now }
    {
        DeviceClass {
            kind: self.kind,
            name: &self.class,
        }
    }
}

/// The regions that devices have, and a table of texts that tells where one may stand.
#[derive(Drop)]
pub struct DeviceRegions {
    pub regions: Vec<Region>,
    pub texts: TextTable,
}

impl DeviceRegions {
    /// No regions.
    pub fn none(alloc: Global) -> DeviceRegions
        ensures { areas_of result.regions.items ≡ [] }
    {
        DeviceRegions {
            regions: Vec::new(alloc),
            texts: TextTable::new(alloc),
        }
    }
}

fn keep(out: &mut Vec<Rect>, rect: Rect) -> Result<(), AllocError>
    requires { IsSmallRect rect }
    ensures kept { OnOk result (out.new.items ≡ out.old.items ++ rect ∷ []) }
    ensures small { OnOk result (All IsSmallRect out.old.items → All IsSmallRect out.new.items) }
{
    out.push(rect)?;
    Ok(())
}

fn rects_from(alloc: Global, p: Point, rects: &[Rect]) -> Result<Vec<Rect>, ShowFault>
    requires { IsSmallPoint p }
    ensures rects { IfOk result (λ v. v.items ≡ map (seen_from p) rects.now) }
    ensures small { IfOk result (λ v. All IsSmallRect v.items) }
    ensures far { IsErrOf result ShowFault.TooFar → Some_of (IsFarFrom p) rects.now }
{
    let mut out = Vec::new(alloc);
    'rects: for k in 0..rects.len() {
        let seen = small_from(p, &rects[k])?;
        keep(&mut out, seen)?;
    }
    Ok(out)
}

/// Rectangles as they are seen from a point. `TooFar` where the point or one of them, as it is or
/// as it is seen, reaches 2^30 or more from the origin.
pub fn area_from(alloc: Global, p: Point, rects: &[Rect]) -> Result<Vec<Rect>, ShowFault>
    ensures point { OnOk result (IsSmallPoint p) }
    ensures rects { IfOk result (λ v. v.items ≡ map (seen_from p) rects.now) }
    ensures small { IfOk result (λ v. All IsSmallRect v.items) }
    ensures far { IsErrOf result ShowFault.TooFar → IsFarArea p rects.now }
{
    if !is_small_point(p) {
        return Err(ShowFault::TooFar);
    }
    rects_from(alloc, p, rects)
}

fn same_rects(some: &[Rect], others: &[Rect]) -> bool
    ensures { result ≡ true → some.now ≡ others.now }
{
    let mut rest = some;
    let mut behind = others;
    'rects: while let [a, more @ ..] = rest {
        let [b, later @ ..] = behind else {
            return false;
        };
        if a.x1 != b.x1 || a.y1 != b.y1 || a.x2 != b.x2 || a.y2 != b.y2 {
            return false;
        }
        rest = more;
        behind = later;
    }
    behind.is_empty()
}

fn same_class(a: DeviceClass<'_>, b: DeviceClass<'_>) -> bool
    ensures { result ≡ true → class_seen a.entry ≡ class_seen b.entry }
{
    a.kind.is(b.kind) && a.name == b.name
}

// Whether a region is of this class and has these rectangles.
fn is_same(region: &Region, class: DeviceClass<'_>, rects: &[Rect]) -> bool
    ensures class { result ≡ true → class_in region.now ≡ class_seen class.entry }
    ensures rects { result ≡ true → region.now.rects.items ≡ rects.now }
{
    same_class(region.class(), class) && same_rects(&region.rects, rects)
}

// Whether this region stands at a place.
fn is_at(regions: &[Region], k: usize, class: DeviceClass<'_>, rects: &[Rect]) -> bool
    ensures { result ≡ true
        → IsListedRegion (areas_of regions.now) k (class_seen class.entry) rects.now }
{
    if k < regions.len() {
        return is_same(&regions[k], class, rects);
    }
    false
}

// A text for a class and rectangles.
fn region_text(
    alloc: Global,
    class: DeviceClass<'_>,
    rects: &[Rect],
) -> Result<Vec<u8>, AllocError> {
    let mut out = Vec::new(alloc);
    for r in rects {
        for side in [r.x1, r.y1, r.x2, r.y2] {
            out.extend_from_slice(&side.to_le_bytes())?;
        }
    }
    out.push(class.kind as u8)?;
    out.extend_from_slice(class.name)?;
    Ok(out)
}

// Adds a region behind the others; its number.
fn push_region(
    alloc: Global,
    regions: &mut Vec<Region>,
    class: DeviceClass<'_>,
    rects: Vec<Rect>,
) -> Result<u32, AllocError>
    ensures added { OnOk result (AddsRegions (areas_of regions.old.items) (areas_of regions.new.items)) }
    ensures listed { IfOk result (λ k. IsListedRegion (areas_of regions.new.items) k
        (class_seen class.entry) rects.items) }
    ensures small { OnOk result (AreSmallRegions (areas_of regions.old.items) → All IsSmallRect rects.items
        → AreSmallRegions (areas_of regions.new.items)) }
{
    let next = number(regions.len())?;
    let name = class.name.to_vec(alloc)?;
    regions.push(Region {
        kind: class.kind,
        class: name,
        rects,
    })?;
    Ok(next)
}

/// The number of the region of a class with these rectangles: it is added where it isn't there.
/// Linear in the rectangles.
pub fn add_region(
    alloc: Global,
    found: &mut DeviceRegions,
    class: DeviceClass<'_>,
    rects: Vec<Rect>,
) -> Result<u32, AllocError>
    ensures added { OnOk result (AddsRegions (areas_of found.old.regions.items) (areas_of found.new.regions.items)) }
    ensures listed { IfOk result (λ k. IsListedRegion (areas_of found.new.regions.items) k
        (class_seen class.entry) rects.items) }
    ensures small { OnOk result (AreSmallRegions (areas_of found.old.regions.items)
        → All IsSmallRect rects.items → AreSmallRegions (areas_of found.new.regions.items)) }
{
    let text = region_text(alloc, class, &rects)?;
    let guess = found.texts.number(alloc, &text)?;
    if is_at(&found.regions, guess, class, &rects) {
        return number(guess);
    }
    push_region(alloc, &mut found.regions, class, rects)
}
