//! The tests of a record behind the records before it (GDSII Stream Format, Release 6).

ghost use Rattle.std.specs.Prelude.{◌≡◌, ◌==◌, ◌%◌, true, length, Some, None, if◌then◌else◌};
ghost use Rattle.gds_elements.specs.Bounds.{is_line};
ghost use Rattle.gds_elements.specs.Data.{is_straight, points_of};
ghost use Rattle.gds_elements.specs.Faults.{are_complete, array_fault, content_fault, is_plain};
ghost use Rattle.gds_elements.specs.Faults.{is_unfinished, line_fault, outline_fault, part_fault};
ghost use Rattle.gds_elements.specs.Faults.{path_fault, points_fault, turn_fault};

use crate::data::{
    columns_in, has_unit, is_count, is_one, long, number, quarter_of, rows_in, trimmed,
};
use crate::element::{Element, is_line};
use crate::points::{goes_into, has_length, is_closed, is_straight, is_straight_on, side};
use gds_records::kinds;
use geo_base::Point;

pub(crate) const WRONG_ORDER: u8 = 4;

pub(crate) const BAD_DATA: u8 = 5;

const NOT_RECTILINEAR: u8 = 6;

const ROUND_PATH: u8 = 7;

const ODD_WIDTH: u8 = 8;

const MAGNIFIED: u8 = 9;

const BAD_ANGLE: u8 = 10;

const ABSOLUTE_BIT: u8 = 11;

const BAD_ARRAY: u8 = 12;

const BAD_UNITS: u8 = 13;

const TOO_MANY_POINTS: u8 = 14;

/// The most points of a boundary or a path.
const MOST_POINTS: usize = 1_000_000;

fn are_complete(start: u8, points: &[Point]) -> bool
    ensures { result ≡ are_complete start points.now }
{
    match start {
        kinds::BOUNDARY => points.len() >= 4 && is_closed(points),
        kinds::PATH => has_length(points),
        _ => true,
    }
}

/// Whether a record stands behind the points of an element that has too few, or whose points aren't
/// closed. O(n) for n points, once an element.
pub(crate) fn is_unfinished(element: &Element, last: u8, kind: u8) -> bool
    ensures { result ≡ is_unfinished element.now.start last element.now.points.items kind }
{
    last == kinds::XY && kind != kinds::XY && !are_complete(element.start, &element.points)
}

/// Whether the record has its kind's form, length and plain content. Those of options aren't looked
/// at.
pub(crate) fn is_plain(kind: u8, form: u8, body: &[u8]) -> bool
    ensures { result ≡ is_plain kind form body.now }
{
    match kind {
        kinds::HEADER
        | kinds::LAYER
        | kinds::DATATYPE
        | kinds::TEXTTYPE
        | kinds::NODETYPE
        | kinds::BOXTYPE
        | kinds::PATHTYPE
        | kinds::PROPATTR => form == 2 && body.len() == 2,
        kinds::COLROW => form == 2 && body.len() == 4,
        kinds::BGNLIB | kinds::BGNSTR => form == 2 && body.len() == 24,
        kinds::PRESENTATION | kinds::STRANS | kinds::ELFLAGS => form == 1 && body.len() == 2,
        kinds::WIDTH | kinds::PLEX | kinds::BGNEXTN | kinds::ENDEXTN => form == 3
            && body.len() == 4,
        kinds::XY => form == 3,
        kinds::MAG | kinds::ANGLE => form == 5 && body.len() == 8,
        kinds::UNITS => form == 5 && body.len() == 16,
        kinds::LIBNAME | kinds::STRING | kinds::PROPVALUE => form == 6,
        kinds::STRNAME | kinds::SNAME => form == 6 && !trimmed(body).is_empty(),
        kinds::ENDLIB
        | kinds::ENDSTR
        | kinds::BOUNDARY
        | kinds::PATH
        | kinds::SREF
        | kinds::AREF
        | kinds::TEXT
        | kinds::NODE
        | kinds::BOX
        | kinds::ENDEL => form == 0 && body.len() == 0,
        _ => true,
    }
}

fn outline_fault(fits: bool, points: &[Point]) -> Option<u8>
    ensures { result ≡ outline_fault fits points.now }
{
    if !fits {
        Some(BAD_DATA)
    } else if is_straight(points) {
        None
    } else {
        Some(NOT_RECTILINEAR)
    }
}

fn count_fault(fits: bool) -> Option<u8>
    ensures { result ≡ (if fits then None else Some 5) }
{
    if fits { None } else { Some(BAD_DATA) }
}

/// The points of a boundary or a path behind those so far, none of whose edges is slanted; `whole`
/// where the data is whole points. Of those so far only the last is looked at.
fn line_fault(whole: bool, so_far: &[Point], points: &[Point]) -> Option<u8>
    ensures { is_straight so_far.now ≡ true → result ≡ line_fault whole so_far.now points.now }
{
    if !whole || points.is_empty() {
        return Some(BAD_DATA);
    }
    if MOST_POINTS < so_far.len() + points.len() {
        return Some(TOO_MANY_POINTS);
    }
    if is_straight_on(so_far, points) {
        None
    } else {
        Some(NOT_RECTILINEAR)
    }
}

/// The points of the element that began so, behind those so far.
fn points_fault(start: u8, whole: bool, so_far: &[Point], points: &[Point]) -> Option<u8>
    ensures { (is_line start ≡ true → is_straight so_far.now ≡ true)
        → result ≡ points_fault start whole so_far.now points.now }
{
    if is_line(start) {
        return line_fault(whole, so_far, points);
    }
    match start {
        kinds::BOX => outline_fault(whole && points.len() == 5 && is_closed(points), points),
        kinds::SREF | kinds::TEXT => count_fault(whole && points.len() == 1),
        kinds::AREF => count_fault(whole && points.len() == 3),
        _ => count_fault(whole && points.len() >= 1),
    }
}

/// An array whose columns or rows don't go into their side.
fn array_fault(start: u8, columns: u16, rows: u16, body: &[u8]) -> Option<u8>
    ensures { result ≡ array_fault start columns rows body.now }
{
    if start != kinds::AREF {
        return None;
    }
    if goes_into(columns, side(body, 8)) && goes_into(rows, side(body, 16)) {
        None
    } else {
        Some(BAD_ARRAY)
    }
}

fn path_fault(kind: u8, body: &[u8]) -> Option<u8>
    ensures { result ≡ path_fault kind body.now }
{
    match kind {
        kinds::PATHTYPE => match number(body) {
            1 => Some(ROUND_PATH),
            0 | 2 | 4 => None,
            _ => Some(BAD_DATA),
        },
        kinds::WIDTH if long(body).unsigned_abs() % 2 != 0 => Some(ODD_WIDTH),
        _ => None,
    }
}

fn turn_fault(kind: u8, body: &[u8]) -> Option<u8>
    ensures { result ≡ turn_fault kind body.now }
{
    match kind {
        kinds::STRANS if number(body) & 0x0006 != 0 => Some(ABSOLUTE_BIT),
        kinds::MAG if !is_one(body) => Some(MAGNIFIED),
        kinds::ANGLE if quarter_of(body).is_none() => Some(BAD_ANGLE),
        _ => None,
    }
}

fn part_fault(start: u8, kind: u8, body: &[u8]) -> Option<u8>
    ensures { result ≡ part_fault start kind body.now }
{
    match start {
        kinds::PATH => path_fault(kind, body),
        kinds::SREF | kinds::AREF => turn_fault(kind, body),
        _ => None,
    }
}

/// The content of a record that is plain, in the open element.
pub(crate) fn content_fault(
    element: &Element,
    kind: u8,
    body: &[u8],
    points: &[Point],
) -> Option<u8>
    requires { kind ≡ 0x10 → points.now ≡ points_of body.now }
    ensures { (is_line element.now.start ≡ true → is_straight element.now.points.items ≡ true)
        → result ≡ content_fault element.now.start element.now.points.items
        element.now.placing.columns element.now.placing.rows kind body.now }
{
    let start = element.start;
    match kind {
        kinds::UNITS => {
            if has_unit(body) {
                None
            } else {
                Some(BAD_UNITS)
            }
        }
        kinds::COLROW => {
            if is_count(columns_in(body)) && is_count(rows_in(body)) {
                None
            } else {
                Some(BAD_ARRAY)
            }
        }
        kinds::XY => match points_fault(start, body.len() % 8 == 0, &element.points, points) {
            Some(number) => Some(number),
            None => array_fault(start, element.placing.columns, element.placing.rows, body),
        },
        _ => part_fault(start, kind, body),
    }
}
