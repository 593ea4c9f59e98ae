//! Libraries as text, to compare them.

use gds_elements::{Library, RawCell, RawRef, RawShape, RawText, ShapeForm};
use geo_base::Point;
use std::alloc::{AllocError, Global};

fn add_points(alloc: Global, out: &mut String, points: &[Point]) -> Result<(), AllocError> {
    for p in points {
        out.push_str(&format!(in alloc; " {} {}", p.x, p.y)?)?;
    }
    Ok(())
}

fn add_bytes(alloc: Global, out: &mut String, bytes: &[u8]) -> Result<(), AllocError> {
    for byte in bytes {
        out.push_str(&format!(in alloc; " {byte}")?)?;
    }
    out.push_str("\n")
}

fn add_boundary(alloc: Global, out: &mut String, points: &[Point]) -> Result<(), AllocError> {
    out.push_str(" boundary")?;
    add_points(alloc, out, points)
}

fn add_shape(alloc: Global, out: &mut String, shape: &RawShape) -> Result<(), AllocError> {
    let (layer, datatype) = (shape.key.layer, shape.key.datatype);
    out.push_str(&format!(in alloc; "{layer}/{datatype}")?)?;
    match &shape.form {
        ShapeForm::Boundary(points) => add_boundary(alloc, out, points)?,
        ShapeForm::Corners(corners) => add_boundary(alloc, out, &corners.points())?,
        ShapeForm::Path {
            points,
            half,
            begin,
            end,
        } => {
            out.push_str(&format!(in alloc; " path {half} {begin} {end} by")?)?;
            add_points(alloc, out, points)?;
        }
        ShapeForm::Box(r) => {
            out.push_str(&format!(in alloc; " box {} {} {} {}", r.x1, r.y1, r.x2, r.y2)?)?;
        }
    }
    out.push_str("\n")
}

fn add_text(alloc: Global, out: &mut String, text: &RawText) -> Result<(), AllocError> {
    let (layer, datatype) = (text.key.layer, text.key.datatype);
    out.push_str(&format!(in alloc; "{layer}/{datatype} text {} {} by", text.at.x, text.at.y)?)?;
    add_bytes(alloc, out, &text.text)
}

fn add_ref(alloc: Global, out: &mut String, placed: &RawRef) -> Result<(), AllocError> {
    let motion = placed.motion;
    out.push_str(&format!(in alloc; "{:?} {} {}", motion.turn, motion.dx, motion.dy)?)?;
    out.push_str(&format!(in alloc;
        ", {} columns by {} {}",
        placed.columns, placed.column_step.x, placed.column_step.y
    )?)?;
    out.push_str(&format!(in alloc;
        ", {} rows by {} {} of",
        placed.rows, placed.row_step.x, placed.row_step.y
    )?)?;
    add_bytes(alloc, out, placed.cell.bytes())
}

fn add_cell(alloc: Global, out: &mut String, cell: &RawCell) -> Result<(), AllocError> {
    out.push_str("cell")?;
    add_bytes(alloc, out, cell.name.bytes())?;
    for shape in &cell.shapes {
        add_shape(alloc, out, shape)?;
    }
    for text in &cell.texts {
        add_text(alloc, out, text)?;
    }
    for placed in &cell.refs {
        add_ref(alloc, out, placed)?;
    }
    Ok(())
}

/// The name of the library, and its cells.
pub(crate) fn written(alloc: Global, library: &Library) -> Result<String, AllocError> {
    let mut out = String::new(alloc);
    out.push_str("library")?;
    add_bytes(alloc, &mut out, &library.name)?;
    for cell in &library.cells {
        add_cell(alloc, &mut out, cell)?;
    }
    Ok(out)
}
