//! The line of a node that has no partner, or one that isn't its like.

ghost use Rattle.std.specs.Prelude.{◌≡◌, ◌++◌, IfOk, OnOk, Some, not};
ghost use Rattle.std.specs.Option.{option_map};
ghost use Rattle.net_model.specs.Rows.{plain_device};
ghost use Rattle.view_pairs.specs.Alike.{both};
ghost use Rattle.view_pairs.specs.Marks.{same_sizes};
ghost use Rattle.view_page.specs.Remarks.{IsBothRemark, IsLeftRemark, IsNodeRemark, IsRemark};
ghost use Rattle.view_page.specs.Remarks.{IsRightRemark, both_line, differ, left_line, right_line};
ghost use Rattle.view_page.specs.Remarks.{said_by};
ghost use Rattle.view_page.specs.Told.{told_by};

use crate::names::node_name;
use crate::places::{Places, place_text};
use net_model::{Circuit, DeviceRow};
use net_names::Name;
use std::alloc::{AllocError, Global};
use view_cross::{Kind, Mark, Row};
use view_pairs::{device_at, same_sizes};

/// What the lines of a pair are made from: the unit in picometres, the names of the circuits of
/// both sides, the pair's circuits, and the places of the left one's nodes.
#[derive(Clone, Copy)]
pub struct Pair<'a> {
    pub unit: u32,
    pub left_names: &'a [Name],
    pub right_names: &'a [Name],
    pub left: &'a Circuit,
    pub right: &'a Circuit,
    pub places: &'a Places,
}

fn push_left_line(out: &mut Vec<u8>, name: &[u8]) -> Result<(), AllocError>
    ensures { OnOk result (out.new.items ≡ out.old.items ++ left_line name.now) }
{
    out.extend_from_slice(b"  ")?;
    out.extend_from_slice(name)?;
    out.extend_from_slice(b": none in the schematic\n")?;
    Ok(())
}

fn left_line(alloc: Global, name: &[u8]) -> Result<Vec<u8>, AllocError>
    ensures { IfOk result (λ text. text.items ≡ left_line name.now) }
{
    let mut text = Vec::new(alloc);
    push_left_line(&mut text, name)?;
    Ok(text)
}

fn joined(alloc: Global, name: &[u8], place: &[u8]) -> Result<Vec<u8>, AllocError>
    ensures { IfOk result (λ text. text.items ≡ name.now ++ place.now) }
{
    let mut text = Vec::new(alloc);
    text.extend_from_slice(name)?;
    text.extend_from_slice(place)?;
    Ok(text)
}

fn push_right_line(out: &mut Vec<u8>, name: &[u8]) -> Result<(), AllocError>
    ensures { OnOk result (out.new.items ≡ out.old.items ++ right_line name.now) }
{
    out.extend_from_slice(b"  ")?;
    out.extend_from_slice(name)?;
    out.extend_from_slice(b" of the schematic: none in the layout\n")
}

fn right_line(alloc: Global, name: &[u8]) -> Result<Vec<u8>, AllocError>
    ensures { IfOk result (λ text. text.items ≡ right_line name.now) }
{
    let mut text = Vec::new(alloc);
    push_right_line(&mut text, name)?;
    Ok(text)
}

fn push_both_line(
    out: &mut Vec<u8>,
    said: &[u8],
    right: &[u8],
    left: &[u8],
    place: &[u8],
) -> Result<(), AllocError>
    ensures { OnOk result (out.new.items
        ≡ out.old.items ++ both_line said.now right.now left.now place.now) }
{
    out.extend_from_slice(b"  ")?;
    out.extend_from_slice(right)?;
    out.extend_from_slice(said)?;
    out.extend_from_slice(left)?;
    out.extend_from_slice(place)?;
    out.extend_from_slice(b"\n")
}

fn both_line(
    alloc: Global,
    said: &[u8],
    right: &[u8],
    left: &[u8],
    place: &[u8],
) -> Result<Vec<u8>, AllocError>
    ensures { IfOk result (λ text. text.items
        ≡ both_line said.now right.now left.now place.now) }
{
    let mut text = Vec::new(alloc);
    push_both_line(&mut text, said, right, left, place)?;
    Ok(text)
}

// Whether two devices have other sizes.
fn sizes_differ(d: Option<&DeviceRow>, e: Option<&DeviceRow>) -> bool
    ensures { result ≡ both (λ x y. not (same_sizes x y))
        (option_map (λ x. plain_device x.now) d.entry)
        (option_map (λ x. plain_device x.now) e.entry) }
{
    match d {
        Some(left) => match e {
            Some(right) => !same_sizes(left, right),
            None => false,
        },
        None => false,
    }
}

fn differ(q: Pair<'_>, kind: Kind, k: u32, m: u32) -> bool
    ensures { result ≡ differ (told_by q.entry) kind k m }
{
    match kind {
        Kind::Net => false,
        Kind::Pin => false,
        Kind::Device => {
            let left = device_at(&q.left.devices, k);
            sizes_differ(left, device_at(&q.right.devices, m))
        }
        Kind::Call => false,
    }
}

// What is said of two partners, if something is.
fn said_by<'a>(mark: Mark, sizes: bool) -> Option<&'a [u8]>
    ensures { option_map (λ said. said.now) result ≡ said_by mark sizes }
{
    let other: &[u8] = b" of the schematic: in the layout ";
    match mark {
        Mark::Mismatched => Some(b" of the schematic: among other neighbours in the layout, "),
        Mark::Matched | Mark::Warned | Mark::Skipped | Mark::Unmatched => {
            if sizes { Some(other) } else { None }
        }
    }
}

fn left_remark(alloc: Global, q: Pair<'_>, kind: Kind, k: u32) -> Result<Vec<u8>, AllocError>
    ensures { IfOk result (λ text. IsLeftRemark (told_by q.entry) kind k text.items) }
{
    let name = node_name(alloc, q.left_names, q.left, kind, k)?;
    let place = place_text(alloc, q.unit, q.places.of(kind, k))?;
    let placed = joined(alloc, &name, &place)?;
    left_line(alloc, &placed)
}

fn right_remark(alloc: Global, q: Pair<'_>, kind: Kind, m: u32) -> Result<Vec<u8>, AllocError>
    ensures { IfOk result (λ text. IsRightRemark (told_by q.entry) kind m text.items) }
{
    let name = node_name(alloc, q.right_names, q.right, kind, m)?;
    right_line(alloc, &name)
}

fn both_remark(
    alloc: Global,
    q: Pair<'_>,
    kind: Kind,
    k: u32,
    m: u32,
    said: &[u8],
) -> Result<Vec<u8>, AllocError>
    ensures { IfOk result (λ text.
        IsBothRemark (told_by q.entry) kind k m (Some said.now) text.items) }
{
    let right = node_name(alloc, q.right_names, q.right, kind, m)?;
    let left = node_name(alloc, q.left_names, q.left, kind, k)?;
    let place = place_text(alloc, q.unit, q.places.of(kind, k))?;
    both_line(alloc, said, &right, &left, &place)
}

fn said_remark(
    alloc: Global,
    q: Pair<'_>,
    kind: Kind,
    k: u32,
    m: u32,
    said: Option<&[u8]>,
) -> Result<Vec<u8>, AllocError>
    ensures { IfOk result (λ text. IsBothRemark (told_by q.entry) kind k m
        (option_map (λ s. s.now) said.entry) text.items) }
{
    match said {
        Some(words) => both_remark(alloc, q, kind, k, m, words),
        None => Ok(Vec::new(alloc)),
    }
}

fn node_remark(
    alloc: Global,
    q: Pair<'_>,
    kind: Kind,
    left: Option<u32>,
    right: Option<u32>,
    mark: Mark,
) -> Result<Vec<u8>, AllocError>
    ensures { IfOk result (λ text.
        IsNodeRemark (told_by q.entry) kind left right mark text.items) }
{
    match left {
        Some(k) => match right {
            Some(m) => {
                let said = said_by(mark, differ(q, kind, k, m));
                said_remark(alloc, q, kind, k, m, said)
            }
            None => left_remark(alloc, q, kind, k),
        },
        None => match right {
            Some(m) => right_remark(alloc, q, kind, m),
            None => Ok(Vec::new(alloc)),
        },
    }
}

/// The line of a row, or nothing. Linear in it.
pub fn remark(alloc: Global, q: Pair<'_>, row: Row) -> Result<Vec<u8>, AllocError>
    ensures { IfOk result (λ text. IsRemark (told_by q.entry) row text.items) }
{
    match row.kind {
        Kind::Net => node_remark(alloc, q, Kind::Net, row.left, row.right, row.mark),
        Kind::Pin => Ok(Vec::new(alloc)),
        Kind::Device => node_remark(alloc, q, Kind::Device, row.left, row.right, row.mark),
        Kind::Call => node_remark(alloc, q, Kind::Call, row.left, row.right, row.mark),
    }
}
