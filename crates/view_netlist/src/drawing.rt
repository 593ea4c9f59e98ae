//! What is drawn of a circuit.

ghost use Rattle.std.specs.Prelude.{◌≡◌, ◌++◌, [], OnOk, IfSome, get_or};
ghost use Rattle.view_netlist.specs.Drawing.{AreSmallShapes, blank, drawn_of, hull_text, kind_text};
ghost use Rattle.view_netlist.specs.Drawing.{motion_text, origin, plain_drawing, region_name};
ghost use Rattle.view_netlist.specs.Drawing.{shape_rows, turn_text};
ghost use Rattle.view_netlist.specs.Kinds.{class_seen};
ghost use Rattle.view_words.specs.Numbers.{IsSmall, IsSmallRect};
ghost use Rattle.view_words.specs.Steps.{step_row, step_to};

use crate::kinds::{DeviceClass, class_name};
use crate::rows::{name_at, push_place};
use geo_base::{Motion, Point, Rect, Turn};
use net_names::Name;
use std::alloc::{AllocError, Global};
use view_words::{push_box, push_pair, push_rect, push_word, upper_right};

/// The names of layers and circuits, by number.
#[derive(Drop)]
pub struct Names {
    pub layers: Vec<Name>,
    pub circuits: Vec<Name>,
}

/// A rectangle of a layer, by the layer's number.
#[derive(Clone, Copy, Debug, PartialEq, Eq)]
pub struct Shape {
    pub layer: u32,
    pub rect: Rect,
}

/// Where a device stands: its region, by number, and the corner that the region is seen from.
#[derive(Clone, Copy, Debug, PartialEq, Eq)]
pub struct DevicePlace {
    pub region: u32,
    pub at: Point,
}

/// What is drawn of a circuit: its box, its nets' rectangles, the places of its devices, the
/// motions of its calls. Of a net, device or call past the last nothing is drawn.
#[derive(Drop)]
pub struct Drawing {
    pub hull: Option<Rect>,
    pub nets: Vec<Vec<Shape>>,
    pub devices: Vec<DevicePlace>,
    pub calls: Vec<Motion>,
}

impl Drawing {
    /// Nothing, which takes no memory.
    pub fn blank(alloc: Global) -> Drawing
        ensures { plain_drawing result ≡ blank }
    {
        Drawing {
            hull: None,
            nets: Vec::new(alloc),
            devices: Vec::new(alloc),
            calls: Vec::new(alloc),
        }
    }

    /// The rectangles of a net.
    pub fn shapes(&self, net: u32) -> &[Shape]
        ensures { result.now ≡ get_or (plain_drawing self.now).nets net [] }
    {
        match self.nets.get(net as usize) {
            Some(shapes) => shapes.as_slice(),
            None => &[],
        }
    }
}

/// What is drawn of the circuit of a number; past the last, what stands for nothing.
pub fn drawing_at<'a>(drawings: &'a [Drawing], nothing: &'a Drawing, k: u32) -> &'a Drawing
    requires { plain_drawing nothing.now ≡ blank }
    ensures { plain_drawing result.now ≡ drawn_of drawings.now k }
{
    match drawings.get(k as usize) {
        Some(drawing) => drawing,
        None => nothing,
    }
}

/// Appends a circuit's box, if it has one.
pub fn push_hull(alloc: Global, out: &mut Vec<u8>, hull: &Option<Rect>) -> Result<(), AllocError>
    requires { IfSome hull.now IsSmallRect }
    ensures { OnOk result (out.new.items ≡ out.old.items ++ hull_text hull.now) }
{
    let Some(r) = hull else {
        return Ok(());
    };
    out.extend_from_slice(b"\n  R(")?;
    push_box(alloc, out, Point { x: 0, y: 0 }, r)?;
    out.extend_from_slice(b")")
}

fn push_shape(
    alloc: Global,
    out: &mut Vec<u8>,
    layers: &[Name],
    from: Point,
    shape: &Shape,
) -> Result<(), AllocError>
    requires x { IsSmall from.x }
    requires y { IsSmall from.y }
    requires rect { IsSmallRect shape.now.rect }
    ensures { OnOk result (out.new.items ≡ out.old.items
        ++ step_row (get_or layers.now shape.now.layer []) (step_to from shape.now.rect)) }
{
    push_rect(alloc, out, name_at(layers, shape.layer), from, &shape.rect)
}

/// Appends the rows of a net's rectangles. Linear in them.
pub fn push_shapes(
    alloc: Global,
    out: &mut Vec<u8>,
    layers: &[Name],
    shapes: &[Shape],
) -> Result<(), AllocError>
    requires { AreSmallShapes shapes.now }
    ensures { OnOk result (out.new.items
        ≡ out.old.items ++ shape_rows layers.now origin shapes.now) }
{
    let mut corner = Point { x: 0, y: 0 };
    let mut rest = shapes;
    'shapes: while let [shape, more @ ..] = rest {
        push_shape(alloc, out, layers, corner, shape)?;
        corner = upper_right(&shape.rect);
        rest = more;
    }
    Ok(())
}

/// Appends the name of a region of devices, by its number.
pub fn push_region(alloc: Global, out: &mut Vec<u8>, k: u32) -> Result<(), AllocError>
    ensures { OnOk result (out.new.items ≡ out.old.items ++ region_name k) }
{
    out.extend_from_slice(b"D$")?;
    push_place(alloc, out, k)
}

/// Appends a device's region and place, or its class where it has none.
pub fn push_kind(
    alloc: Global,
    out: &mut Vec<u8>,
    class: DeviceClass<'_>,
    place: Option<DevicePlace>,
) -> Result<(), AllocError>
    ensures { OnOk result (out.new.items
        ≡ out.old.items ++ kind_text (class_seen class.entry) place) }
{
    let Some(p) = place else {
        let name = class_name(alloc, class)?;
        return push_word(out, &name);
    };
    push_region(alloc, out, p.region)?;
    out.extend_from_slice(b" Y")?;
    push_pair(alloc, out, p.at.x, p.at.y)
}

fn push_turn(out: &mut Vec<u8>, turn: Turn) -> Result<(), AllocError>
    ensures { OnOk result (out.new.items ≡ out.old.items ++ turn_text turn) }
{
    match turn {
        Turn::R0 => Ok(()),
        Turn::R90 => out.extend_from_slice(b" O(90)"),
        Turn::R180 => out.extend_from_slice(b" O(180)"),
        Turn::R270 => out.extend_from_slice(b" O(270)"),
        Turn::M0 => out.extend_from_slice(b" M"),
        Turn::M90 => out.extend_from_slice(b" M O(90)"),
        Turn::M180 => out.extend_from_slice(b" M O(180)"),
        Turn::M270 => out.extend_from_slice(b" M O(270)"),
    }
}

/// Appends the motion of a call, if it has one.
pub fn push_motion(
    alloc: Global,
    out: &mut Vec<u8>,
    motion: Option<Motion>,
) -> Result<(), AllocError>
    ensures { OnOk result (out.new.items ≡ out.old.items ++ motion_text motion) }
{
    let Some(m) = motion else {
        return Ok(());
    };
    push_turn(out, m.turn)?;
    out.extend_from_slice(b" Y")?;
    push_pair(alloc, out, m.dx, m.dy)
}
