//! Layouts as text, to compare them.

ghost use Rattle.std.specs.Prelude.{◌<◌, length};

use cell_graph::{Design, Place};
use gds_layout::Layout;
use geo_base::{LayerKey, Rect};
use std::alloc::{AllocError, Global};

fn add(out: &mut String, line: Result<String, AllocError>) -> Result<(), AllocError> {
    out.push_str(&line?)
}

fn rect_of(alloc: Global, r: &Rect) -> Result<String, AllocError> {
    format!(in alloc; " {} {} {} {}\n", r.x1, r.y1, r.x2, r.y2)
}

// The squares of a layer, a rectangle a line.
fn add_layer(
    alloc: Global,
    out: &mut String,
    key: LayerKey,
    rects: &[Rect],
) -> Result<(), AllocError> {
    for r in rects {
        add(out, format!(in alloc; "{}/{}", key.layer, key.datatype))?;
        add(out, rect_of(alloc, r))?;
    }
    Ok(())
}

fn add_place(alloc: Global, out: &mut String, place: &Place) -> Result<(), AllocError> {
    let (motion, columns, rows) = (place.motion, place.column_step, place.row_step);
    let cell = format!(in alloc;
        "cell {} {:?} {} {}",
        place.cell, motion.turn, motion.dx, motion.dy
    );
    add(out, cell)?;
    add(
        out,
        format!(in alloc;
            ", {} columns by {} {}",
            place.columns, columns.x, columns.y
        ),
    )?;
    add(
        out,
        format!(in alloc; ", {} rows by {} {}\n", place.rows, rows.x, rows.y),
    )
}

fn add_name(alloc: Global, out: &mut String, name: &[u8]) -> Result<(), AllocError> {
    out.push_str("name")?;
    for byte in name {
        add(out, format!(in alloc; " {byte}"))?;
    }
    out.push_str("\n")
}

fn add_cell(
    alloc: Global,
    out: &mut String,
    design: &Design,
    cell: u32,
    keys: &[LayerKey],
) -> Result<(), AllocError>
    requires { cell < length design.now.cells }
{
    add_name(alloc, out, design.name(cell).bytes())?;
    if let Some(hull) = design.hull(cell) {
        out.push_str("hull")?;
        add(out, rect_of(alloc, &hull))?;
    }
    for key in keys {
        add_layer(alloc, out, *key, design.own(cell, *key).rects())?;
    }
    for place in design.places(cell) {
        add_place(alloc, out, place)?;
    }
    Ok(())
}

/// The unit, the top, and each cell: its name, its hull, its squares on these layers, and its
/// references.
pub fn told(alloc: Global, layout: &Layout, keys: &[LayerKey]) -> Result<String, AllocError> {
    let design = &layout.design;
    let unit = layout.header.unit_pm;
    let mut out = format!(in alloc; "unit {unit} top {}\n", design.top())?;
    for cell in 0..design.cells() {
        add_cell(alloc, &mut out, design, cell, keys)?;
    }
    Ok(out)
}
