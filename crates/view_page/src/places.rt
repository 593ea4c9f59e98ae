//! Where the nodes of a circuit are, and how places are written.

ghost use Rattle.std.specs.Prelude.{◌≡◌, ◌++◌, IfOk, None, OnOk, Some, get_or};
ghost use Rattle.view_page.specs.Remarks.{place_of};
ghost use Rattle.view_page.specs.Subjects.{IsCoordinate, IsPlace, point_text};

use fixed_num::{Femto, micron_text};
use geo_base::Point;
use std::alloc::{AllocError, Global};
use view_cross::Kind;

/// A point of each net, device and call of a circuit, by number, in database units; none where
/// there is no place.
#[derive(Drop)]
pub struct Places {
    pub nets: Vec<Option<Point>>,
    pub devices: Vec<Option<Point>>,
    pub calls: Vec<Option<Point>>,
}

fn point_at(points: &[Option<Point>], k: u32) -> Option<Point>
    ensures { result ≡ get_or points.now k None }
{
    match points.get(k as usize) {
        Some(point) => *point,
        None => None,
    }
}

impl Places {
    /// The place of a node.
    pub fn of(&self, kind: Kind, k: u32) -> Option<Point>
        ensures { result ≡ place_of self.now kind k }
    {
        match kind {
            Kind::Net => point_at(&self.nets, k),
            Kind::Pin => None,
            Kind::Device => point_at(&self.devices, k),
            Kind::Call => point_at(&self.calls, k),
        }
    }
}

// A coordinate in micrometres, where the unit is so many picometres.
fn coordinate(alloc: Global, unit: u32, z: i64) -> Result<Vec<u8>, AllocError>
    ensures { IfOk result (λ text. IsCoordinate unit z text.items) }
{
    let length = u128::from(z.unsigned_abs()) * (u128::from(unit) * 1000);
    let digits = micron_text(alloc, Femto(length))?;
    let mut text = Vec::new(alloc);
    if z < 0 {
        text.push(b'-')?;
    }
    text.extend_from_slice(&digits)?;
    Ok(text)
}

fn push_point(out: &mut Vec<u8>, x: &[u8], y: &[u8]) -> Result<(), AllocError>
    ensures { OnOk result (out.new.items ≡ out.old.items ++ point_text x.now y.now) }
{
    out.extend_from_slice(b" at (")?;
    out.extend_from_slice(x)?;
    out.extend_from_slice(b", ")?;
    out.extend_from_slice(y)?;
    out.extend_from_slice(b")")
}

fn written(alloc: Global, x: &[u8], y: &[u8]) -> Result<Vec<u8>, AllocError>
    ensures { IfOk result (λ text. text.items ≡ point_text x.now y.now) }
{
    let mut text = Vec::new(alloc);
    push_point(&mut text, x, y)?;
    Ok(text)
}

fn point_text(alloc: Global, unit: u32, point: Point) -> Result<Vec<u8>, AllocError>
    ensures { IfOk result (λ text. IsPlace unit (Some point) text.items) }
{
    let x = coordinate(alloc, unit, point.x)?;
    let y = coordinate(alloc, unit, point.y)?;
    written(alloc, &x, &y)
}

/// A place in micrometres, where the unit is so many picometres.
pub fn place_text(alloc: Global, unit: u32, place: Option<Point>) -> Result<Vec<u8>, AllocError>
    ensures { IfOk result (λ text. IsPlace unit place text.items) }
{
    match place {
        Some(point) => point_text(alloc, unit, point),
        None => Ok(Vec::new(alloc)),
    }
}
