//! What a stream holds.

ghost use Rattle.std.specs.Prelude.{◌≡◌};
ghost use Rattle.gds_elements.specs.declared.library.GdsFault.TheVariants.{NoMemory};

use crate::corners::Corners;
use geo_base::{LayerKey, Motion, Point, Rect};
use net_names::Name;
use std::alloc::AllocError;
use thiserror::Error;

/// A library: the data of HEADER, BGNLIB and UNITS, the name of LIBNAME without trailing NULs, and
/// the cells in order.
#[derive(Drop)]
pub struct Library {
    pub version: [u8; 2],
    pub dates: [u8; 24],
    pub name: Vec<u8>,
    pub units: [u8; 16],
    pub cells: Vec<RawCell>,
}

/// A structure: the data of BGNSTR, its name, and its elements of each sort in order.
#[derive(Drop)]
pub struct RawCell {
    pub dates: [u8; 24],
    pub name: Name,
    pub shapes: Vec<RawShape>,
    pub texts: Vec<RawText>,
    pub refs: Vec<RawRef>,
}

/// A BOUNDARY, PATH or BOX on a layer.
#[derive(Drop)]
pub struct RawShape {
    pub key: LayerKey,
    pub form: ShapeForm,
}

/// What a shape covers, in database units.
#[derive(Drop)]
pub enum ShapeForm {
    /// The closed outline of a BOUNDARY, or of a BOX without area: its first point stands at its
    /// end again.
    Boundary(Vec<Point>),
    /// The outline of a BOUNDARY that goes round a rectangle.
    Corners(Corners),
    /// A PATH, half its width, and how far it goes beyond its first and its last point.
    Path {
        points: Vec<Point>,
        half: i64,
        begin: i64,
        end: i64,
    },
    /// A BOX, from its least to its greatest coordinates.
    Box(Rect),
}

/// A TEXT: its string, which isn't empty, at a point.
#[derive(Drop)]
pub struct RawText {
    pub key: LayerKey,
    pub at: Point,
    pub text: Vec<u8>,
}

/// An SREF (one column, one row, steps of 0) or an AREF: the placement in a column and a row is
/// moved on by so many
/// column steps and row steps.
#[derive(Drop)]
pub struct RawRef {
    pub cell: Name,
    pub motion: Motion,
    pub columns: u16,
    pub rows: u16,
    pub column_step: Point,
    pub row_step: Point,
}

/// Why a stream isn't read.
#[derive(Clone, Copy, Debug, Error)]
pub enum GdsFault {
    /// The first record that doesn't pass, counted from 0, with the byte where it begins: 1 too few
    /// bytes, 2 a bad
    /// length, 3 an unknown kind, 4 a kind out of order, 5 bad data, 6 a slanted edge, 7 a round
    /// path, 8 an odd width,
    /// 9 magnified, 10 a bad angle, 11 an absolute bit, 12 a bad array, 13 bad units, 14 too many
    /// points.
    #[error("fault {number} in record {index} at offset {offset}")]
    Bad { number: u8, index: u64, offset: u64 },
    #[error("out of memory")]
    NoMemory,
}

impl From<AllocError> for GdsFault {
    ghost from_gives = { λ _ e. e ≡ NoMemory };

    fn from(_: AllocError) -> GdsFault {
        GdsFault::NoMemory
    }
}
