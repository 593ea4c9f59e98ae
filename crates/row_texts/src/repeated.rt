//! Lines that stand for many.

use crate::fields::{Fields, RowFault, pair_of, unescape};
use crate::sections::outdented;
use std::alloc::Global;

// Adds the number that the words of a `{}` make of this one: itself where there are none, A times
// it and B where they are `A B`.
fn push_number(
    alloc: Global,
    out: &mut Vec<u8>,
    words: &[u8],
    number: i32,
) -> Result<(), RowFault> {
    let (times, more) = if words.is_empty() {
        (1, 0)
    } else {
        pair_of(words, b' ')?
    };
    let value = number.wrapping_mul(times).wrapping_add(more);
    let digits = format!(in alloc; "{value}")?;
    out.extend_from_slice(digits.as_bytes())?;
    Ok(())
}

// Adds what stands behind a `{`: a number, and behind the `}` a text.
fn push_term(alloc: Global, out: &mut Vec<u8>, text: &[u8], number: i32) -> Result<(), RowFault> {
    let mut parts = text.splitn(2, |b| *b == b'}');
    match (parts.next(), parts.next()) {
        (Some(words), Some(behind)) => {
            push_number(alloc, out, words, number)?;
            unescape(out, behind)
        }
        _ => Err(RowFault::Unclear),
    }
}

// Adds a text with its numbers.
fn push_numbered(
    alloc: Global,
    out: &mut Vec<u8>,
    text: &[u8],
    number: i32,
) -> Result<(), RowFault> {
    let mut is_first = true;
    for part in text.split(|b| *b == b'{') {
        if is_first {
            unescape(out, part)?;
        } else {
            push_term(alloc, out, part, number)?;
        }
        is_first = false;
    }
    Ok(())
}

// `FROM-UPTO TEXT`: the text once for each number from one up to another, without that one.
fn push_line(alloc: Global, out: &mut Vec<u8>, line: &[u8]) -> Result<(), RowFault> {
    let mut fields = Fields::of(line);
    let (from, upto) = fields.pair(b'-')?;
    for number in from..upto {
        push_numbered(alloc, out, fields.rest(), number)?;
    }
    Ok(())
}

/// Adds the lines of a body, each `FROM-UPTO TEXT`: the text, as `unescape` reads it, once for each
/// number from one up to another, without that one. In it `{}` stands for the number, and `{A B}`
/// for A times it and B.
pub fn push_repeated(alloc: Global, out: &mut Vec<u8>, body: &[&[u8]]) -> Result<(), RowFault> {
    for line in body {
        if !line.is_empty() {
            push_line(alloc, out, outdented(line))?;
        }
    }
    Ok(())
}
