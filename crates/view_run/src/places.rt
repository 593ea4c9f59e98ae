//! Where the nets, devices and calls of a picture's circuits are.

ghost use Rattle.std.specs.Prelude.{◌≡◌, IfOk, map};
ghost use Rattle.view_run.specs.Places.{call_point, device_point, drawing_places, net_point};
ghost use Rattle.view_run.specs.Places.{plain_places};

use geo_base::{Motion, Point};
use std::alloc::{AllocError, Global};
use view_netlist::{DevicePlace, Drawing, Shape};
use view_page::Places;

// The lower left corner of a net's first rectangle.
fn net_point(shapes: &[Shape]) -> Option<Point>
    ensures { result ≡ net_point shapes.now }
{
    match shapes {
        [] => None,
        [first, ..] => Some(Point {
            x: first.rect.x1,
            y: first.rect.y1,
        }),
    }
}

fn net_points(alloc: Global, nets: &[Vec<Shape>]) -> Result<Vec<Option<Point>>, AllocError>
    ensures { IfOk result (λ v. v.items ≡ map net_point
        (map (λ shapes. shapes.items) nets.now)) }
{
    let mut points = Vec::new(alloc);
    let mut rest = nets;
    'nets: while let [net, more @ ..] = rest {
        points.push(net_point(net))?;
        rest = more;
    }
    Ok(points)
}

fn device_points(alloc: Global, devices: &[DevicePlace]) -> Result<Vec<Option<Point>>, AllocError>
    ensures { IfOk result (λ v. v.items ≡ map device_point devices.now) }
{
    let mut points = Vec::new(alloc);
    let mut rest = devices;
    'devices: while let [device, more @ ..] = rest {
        points.push(Some(device.at))?;
        rest = more;
    }
    Ok(points)
}

fn call_points(alloc: Global, calls: &[Motion]) -> Result<Vec<Option<Point>>, AllocError>
    ensures { IfOk result (λ v. v.items ≡ map call_point calls.now) }
{
    let mut points = Vec::new(alloc);
    let mut rest = calls;
    'calls: while let [motion, more @ ..] = rest {
        points.push(Some(Point {
            x: motion.dx,
            y: motion.dy,
        }))?;
        rest = more;
    }
    Ok(points)
}

fn places_in(alloc: Global, drawing: &Drawing) -> Result<Places, AllocError>
    ensures { IfOk result (λ p. plain_places p ≡ drawing_places drawing.now) }
{
    Ok(Places {
        nets: net_points(alloc, &drawing.nets)?,
        devices: device_points(alloc, &drawing.devices)?,
        calls: call_points(alloc, &drawing.calls)?,
    })
}

/// A point of each net, device and call that is drawn: a net's is the lower left corner of its
/// first rectangle. Linear in their number.
pub fn places(alloc: Global, drawings: &[Drawing]) -> Result<Vec<Places>, AllocError>
    ensures { IfOk result (λ v. map plain_places v.items
        ≡ map drawing_places drawings.now) }
{
    let mut all = Vec::new(alloc);
    let mut rest = drawings;
    'drawings: while let [drawing, more @ ..] = rest {
        all.push(places_in(alloc, drawing)?)?;
        rest = more;
    }
    Ok(all)
}
