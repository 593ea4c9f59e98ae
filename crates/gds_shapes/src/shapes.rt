//! A cell's rectangles as records.

ghost use Rattle.std.specs.Prelude.{◌≡◌, ◌++◌, OnOk};
ghost use Rattle.std.specs.List.{All, flat_map};
ghost use Rattle.gds_records.specs.Records.{record_bytes};
ghost use Rattle.geo_base.specs.Layers.{IsStreamKey};
ghost use Rattle.geo_base.specs.Near.{IsLongRect};
ghost use Rattle.gds_shapes.specs.Stream.{FitsLayer, boundary, layer, outline};

use crate::records::{LONGS, NONE, NUMBERS, long};
use byteorder::{BigEndian, ByteOrder};
use gds_records::{kinds, write_record};
use geo_base::{LayerKey, Rect};
use std::alloc::AllocError;

/// Appends the rectangles of a layer in order, each as a boundary, of coordinates of 32 bits. An
/// `Err` is want of memory; then a part may be appended. Cost: the bytes written.
pub fn write_layer(out: &mut Vec<u8>, key: LayerKey, rects: &[Rect]) -> Result<(), AllocError>
    requires key { IsStreamKey key }
    requires long { All IsLongRect rects.now }
    ensures written { OnOk result (out.new.items ≡ out.old.items ++ flat_map record_bytes (layer
        (key, rects.now))) }
    ensures fits { OnOk result (FitsLayer (key, rects.now)) }
{
    for rect in rects {
        write_boundary(out, key, *rect)?;
    }
    Ok(())
}

fn write_boundary(out: &mut Vec<u8>, key: LayerKey, rect: Rect) -> Result<(), AllocError>
    requires key { IsStreamKey key }
    requires long { IsLongRect rect }
    ensures { OnOk result (out.new.items ≡ out.old.items ++ flat_map record_bytes
        (boundary key rect)) }
{
    write_record(out, kinds::BOUNDARY, NONE, &[])?;
    write_record(
        out,
        kinds::LAYER,
        NUMBERS,
        &(key.layer as u16).to_be_bytes(),
    )?;
    write_record(out, kinds::DATATYPE, NUMBERS, &key.datatype.to_be_bytes())?;
    let points = outline(rect);
    write_record(out, kinds::XY, LONGS, &points)?;
    write_record(out, kinds::ENDEL, NONE, &[])
}

// The corners of a rectangle with these sides, the first of them again at the end.
fn corners(x1: i32, y1: i32, x2: i32, y2: i32) -> [u8; 40]
    ensures { result ≡ outline record { x1 = x1; y1 = y1; x2 = x2; y2 = y2 } }
{
    let mut bytes = [0; 40];
    BigEndian::write_i32_into(&[x1, y1, x1, y2, x2, y2, x2, y1, x1, y1], &mut bytes);
    bytes
}

// The data of a rectangle's XY.
fn outline(rect: Rect) -> [u8; 40]
    requires { IsLongRect rect }
    ensures { result ≡ outline rect }
{
    let x1 = long(rect.x1);
    let y1 = long(rect.y1);
    let x2 = long(rect.x2);
    let y2 = long(rect.y2);
    corners(x1, y1, x2, y2)
}
