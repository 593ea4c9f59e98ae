//! Nets of the layout that join or part nets of the schematic, by their names.

ghost use Rattle.std.specs.Prelude.{◌≡◌, ◌++◌, ◌==◌, [], IfOk, OnOk, Some, codes, get_or, map};
ghost use Rattle.std.specs.Prelude.{not, true};
ghost use Rattle.std.specs.Option.{option_map};
ghost use Rattle.view_cross.specs.Rows.{mark_letter};
ghost use Rattle.view_cross.specs.declared.rows.Kind.TheVariants.{Net};
ghost use Rattle.view_cross.specs.declared.rows.Mark.TheVariants.{Matched};
ghost use Rattle.view_page.specs.Notes.{IsNetNote, IsNote, IsPartsNote, IsPartsOf, IsShortNote};
ghost use Rattle.view_page.specs.Notes.{before_last, first_net, is_name, joined_text, known};
ghost use Rattle.view_page.specs.Notes.{named_net, names_text, part_end, part_head, pieces};
ghost use Rattle.view_page.specs.Notes.{short_line};
ghost use Rattle.view_page.specs.Remarks.{place_of};
ghost use Rattle.view_page.specs.Subjects.{IsPlace, net_name};
ghost use Rattle.view_page.specs.Told.{told_by};

use crate::names::{name_at, net_name};
use crate::places::place_text;
use crate::remarks::Pair;
use list_base::number;
use net_names::Name;
use std::alloc::{AllocError, Global};
use std::mem;
use view_cross::{Kind, Mark, Row};
use view_words::push_word;

fn is_name(names: &[Name], text: &[u8]) -> bool
    ensures { result ≡ is_name names.now text.now }
{
    let mut rest = names;
    'names: while let [name, more @ ..] = rest {
        if name.bytes() == text {
            return true;
        }
        rest = more;
    }
    false
}

// The pieces of a name between commas.
fn pieces(alloc: Global, name: &[u8]) -> Result<Vec<Vec<u8>>, AllocError>
    ensures { IfOk result (λ out. map (λ text. text.items) out.items ≡ pieces [] name.now) }
{
    let mut out = Vec::new(alloc);
    let mut front = Vec::new(alloc);
    let mut rest = name;
    'bytes: while let [b, more @ ..] = rest {
        if *b == b',' {
            out.push(mem::replace(&mut front, Vec::new(alloc)))?;
        } else {
            front.push(*b)?;
        }
        rest = more;
    }
    out.push(front)?;
    Ok(out)
}

// Those of the texts that are names.
fn known(alloc: Global, names: &[Name], texts: &[Vec<u8>]) -> Result<Vec<Vec<u8>>, AllocError>
    ensures { IfOk result (λ out. map (λ text. text.items) out.items
        ≡ known names.now (map (λ text. text.items) texts.now)) }
{
    let mut out = Vec::new(alloc);
    let mut rest = texts;
    'texts: while let [text, more @ ..] = rest {
        if is_name(names, text) {
            out.push(text.as_slice().to_vec(alloc)?)?;
        }
        rest = more;
    }
    Ok(out)
}

fn push_names(out: &mut Vec<u8>, texts: &[Vec<u8>]) -> Result<(), AllocError>
    ensures { OnOk result (out.new.items
        ≡ out.old.items ++ names_text (map (λ text. text.items) texts.now)) }
{
    let mut rest = texts;
    'texts: while let [text, more @ ..] = rest {
        out.push(b' ')?;
        push_word(out, text)?;
        rest = more;
    }
    Ok(())
}

fn push_joined(out: &mut Vec<u8>, texts: &[Vec<u8>]) -> Result<(), AllocError>
    ensures { OnOk result (out.new.items
        ≡ out.old.items ++ joined_text (map (λ text. text.items) texts.now)) }
{
    out.extend_from_slice(b": joins nets")?;
    push_names(out, texts)?;
    out.extend_from_slice(b" of the schematic\n")?;
    Ok(())
}

fn push_short(
    out: &mut Vec<u8>,
    name: &[u8],
    place: &[u8],
    texts: &[Vec<u8>],
) -> Result<(), AllocError>
    ensures { OnOk result (out.new.items ≡ out.old.items ++ (codes "  " ++ (name.now
        ++ (place.now ++ joined_text (map (λ text. text.items) texts.now))))) }
{
    out.extend_from_slice(b"  ")?;
    out.extend_from_slice(name)?;
    out.extend_from_slice(place)?;
    push_joined(out, texts)
}

// One net of the layout for two or more of the schematic.
fn short_line(
    alloc: Global,
    name: &[u8],
    place: &[u8],
    texts: &[Vec<u8>],
) -> Result<Vec<u8>, AllocError>
    ensures { IfOk result (λ text. text.items
        ≡ short_line name.now place.now (map (λ t. t.items) texts.now)) }
{
    let mut text = Vec::new(alloc);
    if texts.len() < 2 {
        return Ok(text);
    }
    push_short(&mut text, name, place, texts)?;
    Ok(text)
}

fn left_net(alloc: Global, q: Pair<'_>, k: u32) -> Result<Vec<u8>, AllocError>
    ensures { IfOk result (λ text. text.items ≡ net_name (told_by q.entry).left.nets k) }
{
    net_name(alloc, &q.left.nets, k)
}

fn net_place(alloc: Global, q: Pair<'_>, k: u32) -> Result<Vec<u8>, AllocError>
    ensures { IfOk result (λ text. IsPlace (told_by q.entry).unit
        (place_of (told_by q.entry).places Net k) text.items) }
{
    place_text(alloc, q.unit, q.places.of(Kind::Net, k))
}

// The names of the schematic's nets that are pieces of a name.
fn joined_names(alloc: Global, q: Pair<'_>, k: u32) -> Result<Vec<Vec<u8>>, AllocError>
    ensures { IfOk result (λ out. map (λ text. text.items) out.items
        ≡ known (told_by q.entry).right.nets
        (pieces [] (get_or (told_by q.entry).left.nets k []))) }
{
    let texts = pieces(alloc, name_at(&q.left.nets, k))?;
    known(alloc, &q.right.nets, &texts)
}

fn short_note(alloc: Global, q: Pair<'_>, k: u32) -> Result<Vec<u8>, AllocError>
    ensures { IfOk result (λ text. IsShortNote (told_by q.entry) k text.items) }
{
    let found = joined_names(alloc, q, k)?;
    let name = left_net(alloc, q, k)?;
    let place = net_place(alloc, q, k)?;
    let text = short_line(alloc, &name, &place, &found)?;
    Ok(text)
}

// What stands before a name's last $.
fn before_last(name: &[u8]) -> Option<&[u8]>
    ensures { option_map (λ front. front.now) result ≡ before_last name.now }
{
    let mut rest = name;
    'bytes: while let [front @ .., last] = rest {
        if *last == b'$' {
            return Some(front);
        }
        rest = front;
    }
    None
}

// The first net of a name.
fn first_net(names: &[Name], text: &[u8]) -> Result<Option<u32>, AllocError>
    ensures { IfOk result (λ found. found ≡ first_net 0 names.now text.now) }
{
    number(names.len())?;
    let mut k = 0;
    let mut rest = names;
    'names: while let [name, more @ ..] = rest {
        if name.bytes() == text {
            return Ok(Some(k));
        }
        k += 1;
        rest = more;
    }
    Ok(None)
}

fn named_net(names: &[Name], text: Option<&[u8]>) -> Result<Option<u32>, AllocError>
    ensures { IfOk result (λ found. found
        ≡ named_net names.now (option_map (λ t. t.now) text.entry)) }
{
    match text {
        Some(bytes) => first_net(names, bytes),
        None => Ok(None),
    }
}

fn push_head(out: &mut Vec<u8>, name: &[u8], place: &[u8]) -> Result<(), AllocError>
    ensures { OnOk result (out.new.items ≡ out.old.items ++ part_head name.now place.now) }
{
    out.extend_from_slice(b"  ")?;
    out.extend_from_slice(name)?;
    out.extend_from_slice(b": in the layout two parts,")?;
    out.extend_from_slice(place)?;
    Ok(())
}

fn push_end(out: &mut Vec<u8>, name: &[u8], place: &[u8]) -> Result<(), AllocError>
    ensures { OnOk result (out.new.items ≡ out.old.items ++ part_end name.now place.now) }
{
    out.extend_from_slice(b" and ")?;
    out.extend_from_slice(name)?;
    out.extend_from_slice(place)?;
    out.extend_from_slice(b"\n")
}

fn parts_line(
    alloc: Global,
    first: &[u8],
    place: &[u8],
    second: &[u8],
    there: &[u8],
) -> Result<Vec<u8>, AllocError>
    ensures { IfOk result (λ text. text.items
        ≡ part_head first.now place.now ++ part_end second.now there.now) }
{
    let mut text = Vec::new(alloc);
    push_head(&mut text, first, place)?;
    push_end(&mut text, second, there)?;
    Ok(text)
}

fn two_parts(alloc: Global, q: Pair<'_>, k: u32, j: u32) -> Result<Vec<u8>, AllocError>
    ensures { IfOk result (λ text. IsPartsOf (told_by q.entry) k (Some j) text.items) }
{
    let first = left_net(alloc, q, j)?;
    let place = net_place(alloc, q, j)?;
    let second = left_net(alloc, q, k)?;
    let there = net_place(alloc, q, k)?;
    let text = parts_line(alloc, &first, &place, &second, &there)?;
    Ok(text)
}

fn parts_of(alloc: Global, q: Pair<'_>, k: u32, other: Option<u32>) -> Result<Vec<u8>, AllocError>
    ensures { IfOk result (λ text. IsPartsOf (told_by q.entry) k other text.items) }
{
    match other {
        Some(j) => two_parts(alloc, q, k, j),
        None => Ok(Vec::new(alloc)),
    }
}

fn parts_note(alloc: Global, q: Pair<'_>, k: u32) -> Result<Vec<u8>, AllocError>
    ensures { IfOk result (λ text. IsPartsNote (told_by q.entry) k text.items) }
{
    let front = before_last(name_at(&q.left.nets, k));
    let other = named_net(&q.left.nets, front)?;
    parts_of(alloc, q, k, other)
}

fn both_notes(alloc: Global, q: Pair<'_>, k: u32) -> Result<Vec<u8>, AllocError>
    ensures { IfOk result (λ text. IsNetNote (told_by q.entry) (Some k) true text.items) }
{
    let short = short_note(alloc, q, k)?;
    let parts = parts_note(alloc, q, k)?;
    let mut text = Vec::new(alloc);
    text.extend_from_slice(&short)?;
    text.extend_from_slice(&parts)?;
    Ok(text)
}

fn net_note(alloc: Global, q: Pair<'_>, left: Option<u32>, odd: bool) -> Result<Vec<u8>, AllocError>
    ensures { IfOk result (λ text. IsNetNote (told_by q.entry) left odd text.items) }
{
    match left {
        Some(k) => {
            if odd {
                both_notes(alloc, q, k)
            } else {
                Ok(Vec::new(alloc))
            }
        }
        None => Ok(Vec::new(alloc)),
    }
}

fn is_odd(mark: Mark) -> bool
    ensures { result ≡ not (mark_letter mark == mark_letter Matched) }
{
    match mark {
        Mark::Matched => false,
        Mark::Mismatched | Mark::Warned | Mark::Skipped | Mark::Unmatched => true,
    }
}

/// What the name of a net of the layout says, where the net doesn't match: whether it joins nets of
/// the schematic, and whether it is a part of another. Linear in the nets of both circuits.
pub fn note(alloc: Global, q: Pair<'_>, row: Row) -> Result<Vec<u8>, AllocError>
    ensures { IfOk result (λ text. IsNote (told_by q.entry) row text.items) }
{
    match row.kind {
        Kind::Net => net_note(alloc, q, row.left, is_odd(row.mark)),
        Kind::Pin => Ok(Vec::new(alloc)),
        Kind::Device => Ok(Vec::new(alloc)),
        Kind::Call => Ok(Vec::new(alloc)),
    }
}
