//! Rectangles and areas of devices, moved.

ghost use Rattle.std.specs.Prelude.{◌≡◌, ◌∷◌, ◌++◌, [], IfOk, OnOk, map};
ghost use Rattle.std.specs.List.{All};
ghost use Rattle.geo_base.specs.Near.{IsNearMotion, IsNearRect};
ghost use Rattle.geo_base.specs.Rects.{moved_rect};
ghost use Rattle.view_netlist.specs.Drawing.{AreSmallShapes, IsSmallPoint, IsSmallShift};
ghost use Rattle.view_words.specs.Numbers.{IsSmallRect};
ghost use Rattle.view_joined.specs.Moved.{moved_shape, placed_rect};

use geo_base::{Motion, Point, Rect};
use std::alloc::{AllocError, Global};
use view_netlist::Shape;

// The rectangle between the images of two opposite corners.
fn moved_rect(motion: &Motion, r: &Rect) -> Rect
    requires near { IsNearMotion motion.now }
    requires rect { IsNearRect r.now }
    ensures { result ≡ moved_rect motion.now r.now }
{
    let p = motion.point(Point { x: r.x1, y: r.y1 });
    let q = motion.point(Point { x: r.x2, y: r.y2 });
    Rect {
        x1: p.x.min(q.x),
        y1: p.y.min(q.y),
        x2: p.x.max(q.x),
        y2: p.y.max(q.y),
    }
}

fn keep_shape(out: &mut Vec<Shape>, shape: Shape) -> Result<(), AllocError>
    ensures { OnOk result (out.new.items ≡ out.old.items ++ shape ∷ []) }
{
    out.push(shape)?;
    Ok(())
}

fn keep_rect(out: &mut Vec<Rect>, rect: Rect) -> Result<(), AllocError>
    ensures { OnOk result (out.new.items ≡ out.old.items ++ rect ∷ []) }
{
    out.push(rect)?;
    Ok(())
}

/// Adds the rectangles of a net, moved. Linear.
pub fn push_moved(out: &mut Vec<Shape>, motion: &Motion, shapes: &[Shape]) -> Result<(), AllocError>
    requires motion { IsSmallShift motion.now }
    requires small { AreSmallShapes shapes.now }
    ensures moved { OnOk result (out.new.items
        ≡ out.old.items ++ map (moved_shape motion.now) shapes.now) }
{
    'shapes: for k in 0..shapes.len() {
        let shape = &shapes[k];
        let moved = Shape {
            layer: shape.layer,
            rect: moved_rect(motion, &shape.rect),
        };
        keep_shape(out, moved)?;
    }
    Ok(())
}

// The rectangle that is seen so from a point.
fn placed_rect(p: Point, r: &Rect) -> Rect
    requires point { IsSmallPoint p }
    requires rect { IsSmallRect r.now }
    ensures { result ≡ placed_rect p r.now }
{
    Rect {
        x1: p.x + r.x1,
        y1: p.y + r.y1,
        x2: p.x + r.x2,
        y2: p.y + r.y2,
    }
}

/// The rectangles of a device's area, which are seen from the corner where it stands, moved with
/// the cell. Linear.
pub fn moved_area(
    alloc: Global,
    motion: &Motion,
    at: Point,
    rects: &[Rect],
) -> Result<Vec<Rect>, AllocError>
    requires motion { IsSmallShift motion.now }
    requires at { IsSmallPoint at }
    requires rects { All IsSmallRect rects.now }
    ensures moved { IfOk result (λ v. v.items
        ≡ map (λ r. moved_rect motion.now (placed_rect at r)) rects.now) }
{
    let mut out = Vec::new(alloc);
    'rects: for k in 0..rects.len() {
        let placed = placed_rect(at, &rects[k]);
        let moved = moved_rect(motion, &placed);
        keep_rect(&mut out, moved)?;
    }
    Ok(out)
}
