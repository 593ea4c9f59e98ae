//! The page of all pairs.

ghost use Rattle.std.specs.Prelude.{◌≡◌, ◌++◌, IfOk, OnOk, map, slice_get};
ghost use Rattle.std.specs.Option.{option_map};
ghost use Rattle.net_model.specs.Rows.{plain_circuit};
ghost use Rattle.spice_text.specs.Written.{Adds, AreOneByOne, AreTexts};
ghost use Rattle.view_page.specs.Made.{book_of};
ghost use Rattle.view_page.specs.Page.{IsNumbered, IsPage, IsPairText, IsRowText, headed, heading};
ghost use Rattle.view_page.specs.Page.{right_names};
ghost use Rattle.view_page.specs.Told.{told_by};

use crate::counts::push_compared;
use crate::names::name_at;
use crate::notes::note;
use crate::places::Places;
use crate::remarks::{Pair, remark};
use list_base::number;
use net_model::Circuit;
use net_names::Name;
use std::alloc::{AllocError, Global};
use view_cross::Row;
use view_words::push_word;

fn row_text(alloc: Global, q: Pair<'_>, row: Row) -> Result<Vec<u8>, AllocError>
    ensures { IfOk result (λ text. IsRowText (told_by q.entry) row text.items) }
{
    let line = remark(alloc, q, row)?;
    let more = note(alloc, q, row)?;
    let mut text = Vec::new(alloc);
    text.extend_from_slice(&line)?;
    text.extend_from_slice(&more)?;
    Ok(text)
}

fn row_texts(alloc: Global, q: Pair<'_>, rows: &[Row]) -> Result<Vec<u8>, AllocError>
    ensures { IfOk result (λ text.
        AreOneByOne (IsRowText (told_by q.entry)) rows.now text.items) }
{
    let mut out = Vec::new(alloc);
    let mut rest = rows;
    'rows: while let [row, more @ ..] = rest {
        let text = row_text(alloc, q, *row)?;
        out.extend_from_slice(&text)?;
        rest = more;
    }
    Ok(out)
}

fn push_heading(out: &mut Vec<u8>, left: &[u8], right: &[u8]) -> Result<(), AllocError>
    ensures { OnOk result (out.new.items ≡ out.old.items ++ heading left.now right.now) }
{
    out.extend_from_slice(b"cell ")?;
    push_word(out, left)?;
    out.extend_from_slice(b", circuit ")?;
    push_word(out, right)?;
    out.extend_from_slice(b" of the schematic\n")
}

// Lines under a heading, or nothing where there are none.
fn push_headed(out: &mut Vec<u8>, left: &[u8], right: &[u8], lines: &[u8]) -> Result<(), AllocError>
    ensures { OnOk result (out.new.items
        ≡ out.old.items ++ headed (heading left.now right.now) lines.now) }
{
    match lines {
        [] => Ok(()),
        [_, ..] => {
            push_heading(out, left, right)?;
            out.extend_from_slice(lines)
        }
    }
}

fn push_pair(
    alloc: Global,
    out: &mut Vec<u8>,
    q: Pair<'_>,
    name: &[u8],
    rows: &[Row],
) -> Result<(), AllocError>
    ensures { OnOk result (Adds (IsPairText (told_by q.entry) name.now rows.now) out.old.items
        out.new.items) }
{
    let lines = row_texts(alloc, q, rows)?;
    push_headed(out, name, q.right.name.bytes(), &lines)
}

/// What the page is made from: the unit in picometres, the names of the layout's cells, the circuits
/// of both sides by pair, the places of the left ones' nodes.
#[derive(Clone, Copy)]
pub struct Book<'a> {
    pub unit: u32,
    pub names: &'a [Name],
    pub lefts: &'a [Circuit],
    pub rights: &'a [Circuit],
    pub places: &'a [Places],
}

fn circuit_at(circuits: &[Circuit], k: u32) -> Option<&Circuit>
    ensures { option_map (λ c. plain_circuit c.now) result
        ≡ slice_get (map plain_circuit circuits.now) k }
{
    match circuits.get(k as usize) {
        Some(circuit) => Some(circuit),
        None => None,
    }
}

fn places_at(places: &[Places], k: u32) -> Option<&Places>
    ensures { option_map (λ p. p.now) result ≡ slice_get places.now k }
{
    match places.get(k as usize) {
        Some(found) => Some(found),
        None => None,
    }
}

// The pair of a number; nothing where it has no circuits or no places. `others` are the names of the
// circuits of the schematic.
fn push_numbered(
    alloc: Global,
    out: &mut Vec<u8>,
    b: Book<'_>,
    others: &[Name],
    k: u32,
    rows: &[Row],
) -> Result<(), AllocError>
    requires { others.now ≡ right_names (map plain_circuit b.rights.now) }
    ensures { OnOk result (Adds (IsNumbered (book_of b.entry) k rows.now) out.old.items
        out.new.items) }
{
    let Some(left) = circuit_at(b.lefts, k) else {
        return Ok(());
    };
    let Some(right) = circuit_at(b.rights, k) else {
        return Ok(());
    };
    let Some(places) = places_at(b.places, k) else {
        return Ok(());
    };
    let q = Pair {
        unit: b.unit,
        left_names: b.names,
        right_names: others,
        left,
        right,
        places,
    };
    push_pair(alloc, out, q, name_at(b.names, k), rows)
}

// The names of circuits.
fn right_names(alloc: Global, circuits: &[Circuit]) -> Result<Vec<Name>, AllocError>
    ensures { IfOk result (λ names. names.items ≡ right_names (map plain_circuit circuits.now)) }
{
    let mut names = Vec::new(alloc);
    let mut rest = circuits;
    'circuits: while let [circuit, more @ ..] = rest {
        names.push(circuit.name.try_clone(alloc)?)?;
        rest = more;
    }
    Ok(names)
}

fn push_pairs(
    alloc: Global,
    out: &mut Vec<u8>,
    b: Book<'_>,
    others: &[Name],
    rows: &[Vec<Row>],
) -> Result<(), AllocError>
    requires { others.now ≡ right_names (map plain_circuit b.rights.now) }
    ensures { OnOk result (Adds (AreTexts (IsNumbered (book_of b.entry)) 0
        (map (λ list. list.items) rows.now)) out.old.items out.new.items) }
{
    number(rows.len())?;
    let mut k = 0;
    let mut rest = rows;
    'pairs: while let [list, more @ ..] = rest {
        push_numbered(alloc, out, b, others, k, list)?;
        k += 1;
        rest = more;
    }
    Ok(())
}

/// Appends the page: how much was compared; then for each pair of circuits, by number, the lines of
/// its rows under its name, or nothing where there are none. `rows` is the proposal of partners.
/// Linear in the text, but for nets that don't match: for each the names of its circuits are gone
/// through. The error is want of memory.
pub fn push_page(
    alloc: Global,
    out: &mut Vec<u8>,
    b: Book<'_>,
    rows: &[Vec<Row>],
) -> Result<(), AllocError>
    ensures { OnOk result (Adds (IsPage (book_of b.entry) (map (λ list. list.items) rows.now))
        out.old.items out.new.items) }
{
    let circuits = right_names(alloc, b.rights)?;
    out.extend_from_slice(b"Partners are proposed; what is sure stands in the report.\n")?;
    push_compared(alloc, out, b.lefts, b.rights)?;
    push_pairs(alloc, out, b, &circuits, rows)
}
