//! Rows of nodes and their partners.

ghost use Rattle.std.specs.Prelude.{◌≡◌, ◌++◌, OnOk};
ghost use Rattle.view_cross.specs.Rows.{first_number, kind_letter, mark_letter, row_text};
ghost use Rattle.view_cross.specs.Rows.{row_texts, side_text};

use std::alloc::{AllocError, Global};

/// What a row is about.
#[derive(Clone, Copy, Debug, PartialEq, Eq)]
pub enum Kind {
    Net,
    Pin,
    Device,
    Call,
}

/// How the browser shows a node or a pair: a match, a mismatch, a match with a warning, skipped, or
/// a pair of circuits that isn't matched.
#[derive(Clone, Copy, Debug, PartialEq, Eq)]
pub enum Mark {
    Matched,
    Mismatched,
    Warned,
    Skipped,
    Unmatched,
}

/// A node of the left circuit and its partner in the right one, by their places; nothing on a side
/// where there is none.
#[derive(Clone, Copy, Debug, PartialEq, Eq)]
pub struct Row {
    pub kind: Kind,
    pub left: Option<u32>,
    pub right: Option<u32>,
    pub mark: Mark,
}

fn kind_letter(kind: Kind) -> u8
    ensures { result ≡ kind_letter kind }
{
    match kind {
        Kind::Net => b'N',
        Kind::Pin => b'P',
        Kind::Device => b'D',
        Kind::Call => b'X',
    }
}

/// The letter that the reader takes for a mark.
pub fn mark_letter(mark: Mark) -> u8
    ensures { result ≡ mark_letter mark }
{
    match mark {
        Mark::Matched => b'1',
        Mark::Mismatched => b'0',
        Mark::Warned => b'W',
        Mark::Skipped => b'S',
        Mark::Unmatched => b'X',
    }
}

fn first_number(kind: Kind) -> u64
    ensures { result ≡ first_number kind }
{
    match kind {
        Kind::Net => 1,
        Kind::Pin => 0,
        Kind::Device => 1,
        Kind::Call => 1,
    }
}

fn push_number(alloc: Global, out: &mut Vec<u8>, kind: Kind, k: u32) -> Result<(), AllocError>
    ensures { OnOk result (out.new.items ≡ out.old.items ++ side_text kind (Some k)) }
{
    let number = u64::from(k) + first_number(kind);
    let digits = number.to_string(alloc)?.into_bytes();
    out.extend_from_slice(&digits)
}

fn push_side(
    alloc: Global,
    out: &mut Vec<u8>,
    kind: Kind,
    side: Option<u32>,
) -> Result<(), AllocError>
    ensures { OnOk result (out.new.items ≡ out.old.items ++ side_text kind side) }
{
    match side {
        Some(k) => push_number(alloc, out, kind, k),
        None => out.extend_from_slice(b"()"),
    }
}

fn push_row(alloc: Global, out: &mut Vec<u8>, row: Row) -> Result<(), AllocError>
    ensures { OnOk result (out.new.items ≡ out.old.items ++ row_text row) }
{
    out.extend_from_slice(b"\n   ")?;
    out.push(kind_letter(row.kind))?;
    out.push(b'(')?;
    push_side(alloc, out, row.kind, row.left)?;
    out.push(b' ')?;
    push_side(alloc, out, row.kind, row.right)?;
    out.push(b' ')?;
    out.push(mark_letter(row.mark))?;
    out.push(b')')?;
    Ok(())
}

/// Appends the rows. Linear in them.
pub fn push_rows(alloc: Global, out: &mut Vec<u8>, rows: &[Row]) -> Result<(), AllocError>
    ensures { OnOk result (out.new.items ≡ out.old.items ++ row_texts rows.now) }
{
    let mut rest = rows;
    'rows: while let [row, more @ ..] = rest {
        push_row(alloc, out, *row)?;
        rest = more;
    }
    Ok(())
}
