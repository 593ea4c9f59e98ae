//! The open element.

ghost use Rattle.std.specs.Prelude.{◌≡◌, ℕ, List, true, false, OnOk};
ghost use Rattle.gds_records.specs.Records.{Records, NoRecords, ◌▸◌};
ghost use Rattle.gds_elements.specs.Data.{points_of};
ghost use Rattle.gds_elements.specs.Bounds.{is_start, is_line, is_bound};
ghost use Rattle.gds_elements.specs.Meaning.{array, beyond, box_form, path_form, single, turn_of};
ghost use Rattle.gds_elements.specs.Meaning.{Boundary, gathered, motion_of};
ghost use Rattle.gds_elements.specs.Reading.{HoldsDrawing, HoldsPlacing, HoldsElement, form_seen};
ghost use Rattle.gds_elements.specs.Reading.{ref_seen, rec};

use crate::corners::corners_of;
use crate::data::{columns_in, long, number, quarter_of, rows_in, trimmed};
use crate::library::{RawRef, ShapeForm};
use crate::points::{hull, side, step};
use gds_records::kinds;
use geo_base::{LayerKey, Motion, Point, Turn};
use net_names::Name;
use std::alloc::{AllocError, Global};

const ORIGIN: Point = Point { x: 0, y: 0 };

/// Whether an element begins.
fn is_start(kind: u8) -> bool
    ensures { result ≡ is_start kind }
{
    matches!(
        kind,
        kinds::BOUNDARY
            | kinds::PATH
            | kinds::SREF
            | kinds::AREF
            | kinds::TEXT
            | kinds::NODE
            | kinds::BOX
    )
}

/// Whether the points of the element that began so may stand in several records.
pub(crate) fn is_line(start: u8) -> bool
    ensures { result ≡ is_line start }
{
    start == kinds::BOUNDARY || start == kinds::PATH
}

// Takes one record of points; each is copied once, but for those of the first record, which are
// moved.
fn gather(start: u8, so_far: &mut Vec<Point>, points: Vec<Point>) -> Result<(), AllocError>
    ensures { OnOk result (so_far.new.items ≡ gathered start so_far.old.items points.items) }
{
    if is_line(start) && !so_far.is_empty() {
        so_far.extend_from_slice(&points)?;
        return Ok(());
    }
    *so_far = points;
    Ok(())
}

/// What the parts of a shape or a text say.
#[derive(Clone, Copy)]
pub struct Drawing {
    pub layer: u16,
    pub datatype: u16,
    pub path_type: u16,
    pub width: i32,
    pub begin: i32,
    pub end: i32,
}

/// What the parts of a reference say.
#[derive(Clone, Copy)]
pub struct Placing {
    pub mirrored: bool,
    pub quarter: u8,
    pub columns: u16,
    pub rows: u16,
    pub column_side: Point,
    pub row_side: Point,
}

/// An element as far as it is read: the kind of the record that began it, and what its parts say.
#[derive(Drop)]
pub struct Element {
    pub start: u8,
    pub drawing: Drawing,
    pub placing: Placing,
    pub points: Vec<Point>,
    pub text: Vec<u8>,
}

impl Drawing {
    const NONE: Drawing = Drawing {
        layer: 0,
        datatype: 0,
        path_type: 0,
        width: 0,
        begin: 0,
        end: 0,
    };

    fn take_drawing(&mut self, kind: u8, body: &[u8])
        requires { is_bound kind ≡ false }
        ensures { (before : Records) (form : ℕ) → HoldsDrawing before self.old → HoldsDrawing
            (before ▸ rec kind form body.now) self.new }
    {
        match kind {
            kinds::LAYER => self.layer = number(body),
            kinds::DATATYPE | kinds::TEXTTYPE | kinds::BOXTYPE => self.datatype = number(body),
            kinds::PATHTYPE => self.path_type = number(body),
            kinds::WIDTH => self.width = long(body),
            kinds::BGNEXTN => self.begin = long(body),
            kinds::ENDEXTN => self.end = long(body),
            _ => {}
        }
    }

    pub(crate) fn key(&self) -> LayerKey
        ensures { result ≡ record { layer = self.now.layer; datatype = self.now.datatype } }
    {
        LayerKey {
            layer: u32::from(self.layer),
            datatype: self.datatype,
        }
    }
}

impl Placing {
    const NONE: Placing = Placing {
        mirrored: false,
        quarter: 0,
        columns: 0,
        rows: 0,
        column_side: ORIGIN,
        row_side: ORIGIN,
    };

    fn take_placing(&mut self, kind: u8, body: &[u8])
        requires { is_bound kind ≡ false }
        ensures { (before : Records) (form : ℕ) → HoldsPlacing before self.old → HoldsPlacing
            (before ▸ rec kind form body.now) self.new }
    {
        match kind {
            kinds::STRANS => self.mirrored = number(body) >= 0x8000,
            kinds::ANGLE => self.quarter = quarter_of(body).unwrap_or(0),
            kinds::COLROW => {
                self.columns = columns_in(body);
                self.rows = rows_in(body);
            }
            kinds::XY => {
                self.column_side = side(body, 8);
                self.row_side = side(body, 16);
            }
            _ => {}
        }
    }
}

impl Element {
    /// An element of which nothing but its start is read; none is open where the start is 0.
    pub(crate) fn open(alloc: Global, start: u8) -> Element
        ensures opened { is_start start ≡ true → (before : Records) (form : ℕ) (body : List ℕ)
            → HoldsElement (before ▸ rec start form body) result }
        ensures closed { start ≡ 0 → (before : Records) (form : ℕ) (body : List ℕ) → HoldsElement
            (before ▸ rec 0x11 form body) result }
        ensures none { start ≡ 0 → HoldsElement NoRecords result }
    {
        Element {
            start,
            drawing: Drawing::NONE,
            placing: Placing::NONE,
            points: Vec::new(alloc),
            text: Vec::new(alloc),
        }
    }

    /// Goes on by a record that doesn't end the element: one that begins the next, a part, or
    /// another.
    pub(crate) fn next(
        &mut self,
        alloc: Global,
        kind: u8,
        body: &[u8],
        points: Vec<Point>,
    ) -> Result<(), AllocError>
        requires going { kind ≡ 0x11 → ⊥ }
        requires points { kind ≡ 0x10 → points.items ≡ points_of body.now }
        ensures { OnOk result ((before : Records) (form : ℕ) → HoldsElement before self.old
            → HoldsElement (before ▸ rec kind form body.now) self.new) }
    {
        if is_start(kind) {
            *self = Element::open(alloc, kind);
            return Ok(());
        }
        self.take_part(alloc, kind, body, points)
    }

    /// Takes what a part says.
    fn take_part(
        &mut self,
        alloc: Global,
        kind: u8,
        body: &[u8],
        points: Vec<Point>,
    ) -> Result<(), AllocError>
        requires inside { is_bound kind ≡ false }
        requires points { kind ≡ 0x10 → points.items ≡ points_of body.now }
        ensures { OnOk result ((before : Records) (form : ℕ) → HoldsElement before self.old
            → HoldsElement (before ▸ rec kind form body.now) self.new) }
    {
        self.drawing.take_drawing(kind, body);
        self.placing.take_placing(kind, body);
        match kind {
            kinds::XY => gather(self.start, &mut self.points, points)?,
            kinds::STRING | kinds::SNAME => self.text = Vec::from_slice(alloc, trimmed(body))?,
            _ => {}
        }
        Ok(())
    }
}

fn beyond(path_type: u16, half: i64, extension: i64) -> i64
    ensures { result ≡ beyond path_type half extension }
{
    match path_type {
        2 => half,
        4 => extension,
        _ => 0,
    }
}

/// The outline of a boundary. One that goes round a rectangle is kept without a list.
pub(crate) fn outline_form(points: Vec<Point>) -> ShapeForm
    ensures { form_seen result ≡ Boundary points.items }
{
    match corners_of(&points) {
        Some(corners) => ShapeForm::Corners(corners),
        None => ShapeForm::Boundary(points),
    }
}

/// A path: half its width, whose sign doesn't count, and how far it goes beyond its ends.
pub(crate) fn path_form(drawing: Drawing, points: Vec<Point>) -> ShapeForm
    ensures { form_seen result ≡ path_form drawing.path_type drawing.width drawing.begin drawing.end
        points.items }
{
    let half = i64::from(drawing.width.unsigned_abs() / 2);
    ShapeForm::Path {
        points,
        half,
        begin: beyond(drawing.path_type, half, i64::from(drawing.begin)),
        end: beyond(drawing.path_type, half, i64::from(drawing.end)),
    }
}

/// A box; without area the boundary of its points.
pub(crate) fn box_form(points: Vec<Point>) -> ShapeForm
    ensures { form_seen result ≡ box_form points.items }
{
    let rect = hull(&points);
    if rect.is_rect() {
        ShapeForm::Box(rect)
    } else {
        ShapeForm::Boundary(points)
    }
}

/// The mirror about the X axis comes before the turn (GDSII Stream Format, STRANS and ANGLE).
fn turn_of(mirrored: bool, quarter: u8) -> Turn
    ensures { result ≡ turn_of mirrored quarter }
{
    match (mirrored, quarter) {
        (false, 0) => Turn::R0,
        (false, 1) => Turn::R90,
        (false, 2) => Turn::R180,
        (false, _) => Turn::R270,
        (true, 0) => Turn::M0,
        (true, 1) => Turn::M90,
        (true, 2) => Turn::M180,
        (true, _) => Turn::M270,
    }
}

impl Placing {
    fn motion(&self, at: Point) -> Motion
        ensures { result ≡ motion_of (turn_of self.now.mirrored self.now.quarter) at }
    {
        Motion {
            turn: turn_of(self.mirrored, self.quarter),
            dx: at.x,
            dy: at.y,
        }
    }

    /// The cell placed once.
    pub(crate) fn single(&self, cell: Name, at: Point) -> RawRef
        ensures { ref_seen result ≡ single cell (motion_of
            (turn_of self.now.mirrored self.now.quarter) at) }
    {
        RawRef {
            cell,
            motion: self.motion(at),
            columns: 1,
            rows: 1,
            column_step: ORIGIN,
            row_step: ORIGIN,
        }
    }

    /// The cell placed in columns and rows.
    pub(crate) fn array(&self, cell: Name, at: Point) -> RawRef
        ensures { ref_seen result ≡ array cell (motion_of
            (turn_of self.now.mirrored self.now.quarter) at) self.now.columns self.now.rows
            self.now.column_side self.now.row_side }
    {
        RawRef {
            cell,
            motion: self.motion(at),
            columns: self.columns,
            rows: self.rows,
            column_step: step(self.column_side, self.columns),
            row_step: step(self.row_side, self.rows),
        }
    }
}
