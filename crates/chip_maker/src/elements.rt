//! The elements of a chip's cells: rectangles, labels and references.

ghost use Rattle.std.specs.Prelude.{◌≡◌, ◌<◌, ◌≤◌, ◌++◌, [], ◌∷◌, map, length, OnOk, IfOk};
ghost use Rattle.std.specs.List.{flat_map};
ghost use Rattle.geo_base.specs.Layers.{IsStreamKey};
ghost use Rattle.geo_base.specs.Near.{IsLongRect};
ghost use Rattle.gds_shapes.specs.Data.{IsShort, point_bytes};
ghost use Rattle.gds_records.specs.Kinds.{STRING};
ghost use Rattle.gds_records.specs.Records.{record_bytes};
ghost use Rattle.gds_shapes.specs.Data.{string};
ghost use Rattle.chip_maker.specs.Layout.{drawn, label, placed, rect_of};
ghost use Rattle.chip_maker.specs.Stream.{layer_bytes, rect_bytes, ref_bytes, text_bytes};

use byteorder::{BigEndian, ByteOrder};
use gds_records::{kinds, write_record};
use gds_shapes::{Reference, write_layer, write_reference};
use geo_base::{LayerKey, Motion, Point, Rect, Turn};
use net_names::Name;
use std::alloc::{AllocError, Global};

/// A layer of shapes.
pub fn drawn(number: u16) -> LayerKey
    ensures is { result ≡ drawn number }
    ensures stream { IsStreamKey result }
{
    LayerKey {
        layer: u32::from(number),
        datatype: 0,
    }
}

// A rectangle from its lower left corner to its upper right one.
fn rect_of(sides: [u16; 4]) -> Rect
    ensures is { result ≡ rect_of sides }
    ensures long { IsLongRect result }
{
    let [x1, y1, x2, y2] = sides;
    Rect {
        x1: i64::from(x1),
        y1: i64::from(y1),
        x2: i64::from(x2),
        y2: i64::from(y2),
    }
}

/// Appends a rectangle on a layer, of coordinates of 32 bits.
pub fn write_rectangle(out: &mut Vec<u8>, key: LayerKey, rect: Rect) -> Result<(), AllocError>
    requires key { IsStreamKey key }
    requires long { IsLongRect rect }
    ensures { OnOk result (out.new.items ≡ out.old.items ++ rect_bytes key rect) }
{
    write_layer(out, key, &[rect])
}

/// Appends rectangles of a layer: their lower left and upper right corners.
pub fn write_rectangles(
    out: &mut Vec<u8>,
    number: u16,
    corners: &[[u16; 4]],
) -> Result<(), AllocError>
    ensures { OnOk result (out.new.items ≡ out.old.items
        ++ layer_bytes (drawn number, map rect_of corners.now)) }
{
    let mut rest = corners;
    'rectangles: while let [sides, more @ ..] = rest {
        write_rectangle(out, drawn(number), rect_of(*sides))?;
        rest = more;
    }
    Ok(())
}

// The forms of data.
const NONE: u8 = 0;

const NUMBERS: u8 = 2;

const LONGS: u8 = 3;

const ASCII: u8 = 6;

fn point_bytes(x: i32, y: i32) -> [u8; 8]
    ensures { result ≡ flat_map point_bytes (record { x = x; y = y } ∷ []) }
{
    let mut bytes = [0; 8];
    BigEndian::write_i32_into(&[x, y], &mut bytes);
    bytes
}

fn write_string(alloc: Global, out: &mut Vec<u8>, text: &[u8]) -> Result<(), AllocError>
    requires { IsShort text.now }
    ensures { OnOk result (out.new.items ≡ out.old.items ++ record_bytes (string STRING text.now)) }
{
    let mut body = text.to_vec(alloc)?;
    if text.len() % 2 != 0 {
        body.push(0)?;
    }
    write_record(out, kinds::STRING, ASCII, &body)
}

/// Appends a label on metal. An `Err` is want of memory; then a part may be appended.
pub fn write_label(
    alloc: Global,
    out: &mut Vec<u8>,
    x: i32,
    y: i32,
    text: &[u8],
) -> Result<(), AllocError>
    requires { IsShort text.now }
    ensures { OnOk result (out.new.items ≡ out.old.items ++ text_bytes (label x y text.now)) }
{
    write_record(out, kinds::TEXT, NONE, &[])?;
    write_record(out, kinds::LAYER, NUMBERS, &[0, 5])?;
    write_record(out, kinds::TEXTTYPE, NUMBERS, &[0, 1])?;
    write_record(out, kinds::XY, LONGS, &point_bytes(x, y))?;
    write_string(alloc, out, text)?;
    write_record(out, kinds::ENDEL, NONE, &[])
}

/// Appends a reference to the cell of the name, with its origin at (x, y).
pub fn write_placed(
    alloc: Global,
    out: &mut Vec<u8>,
    name: &[u8],
    x: u32,
    y: u32,
) -> Result<(), AllocError>
    requires some { 0 < length name.now }
    requires short { IsShort name.now }
    requires x { x ≤ 4000000 }
    requires y { y ≤ 4000000 }
    ensures { OnOk result (out.new.items ≡ out.old.items ++ ref_bytes (placed name.now x y)) }
{
    let cell = Name::from_vec(name.to_vec(alloc)?);
    let origin = Point { x: 0, y: 0 };
    let reference = Reference {
        cell: &cell,
        motion: Motion {
            turn: Turn::R0,
            dx: i64::from(x),
            dy: i64::from(y),
        },
        columns: 1,
        rows: 1,
        column_step: origin,
        row_step: origin,
    };
    write_reference(alloc, out, &reference)
}
