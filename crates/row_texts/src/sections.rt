//! Texts of sections.

use crate::fields::{Fields, RowFault, unescape};
use std::alloc::{AllocError, Global};

/// A line that isn't indented: its first word and what stands behind it, and the lines below it
/// that are indented, or empty between such.
#[derive(Clone, Copy, Drop)]
pub struct Section<'a> {
    pub word: &'a [u8],
    pub rest: &'a [u8],
    pub body: &'a [&'a [u8]],
}

/// The lines of a text, without their LFs; behind the last LF stands one more, mostly empty.
pub fn lines_of(alloc: Global, text: &[u8]) -> Result<Vec<&[u8]>, AllocError> {
    let mut lines = Vec::new(alloc);
    for line in text.split(|b| *b == b'\n') {
        lines.push(line)?;
    }
    Ok(lines)
}

// Whether a line is empty or indented.
fn is_indented(line: &[u8]) -> bool {
    line.is_empty() || line.starts_with(b" ")
}

// The first lines that are empty or indented.
fn body_of<'a>(lines: &'a [&'a [u8]]) -> &'a [&'a [u8]] {
    match lines.iter().position(|line| !is_indented(line)) {
        Some(count) => lines.get(..count).unwrap_or(lines),
        None => lines,
    }
}

/// The sections of a text's lines. A line that begins with `#` is a comment.
pub fn read_sections<'a>(
    alloc: Global,
    lines: &'a [&'a [u8]],
) -> Result<Vec<Section<'a>>, AllocError> {
    let mut out = Vec::new(alloc);
    let mut rest = lines;
    while let [line, behind @ ..] = rest {
        rest = behind;
        if !is_indented(line) && !line.starts_with(b"#") {
            let mut fields = Fields::of(line);
            let word = fields.word();
            out.push(Section {
                word,
                rest: fields.rest(),
                body: body_of(behind),
            })?;
        }
    }
    Ok(out)
}

/// A line without its indent of two blanks.
pub fn outdented(line: &[u8]) -> &[u8] {
    match line {
        [b' ', b' ', behind @ ..] => behind,
        _ => line,
    }
}

/// Adds the lines of a body without their indent, each with its LF. Empty lines at its end aren't
/// its own.
pub fn body_text(out: &mut Vec<u8>, body: &[&[u8]]) -> Result<(), AllocError> {
    let mut whole = out.len();
    for line in body {
        out.extend_from_slice(outdented(line))?;
        out.push(b'\n')?;
        if !line.is_empty() {
            whole = out.len();
        }
    }
    out.truncate(whole);
    Ok(())
}

/// Adds the lines of a body as one text, in which `unescape` reads what stands behind the indents.
pub fn push_escaped_lines(out: &mut Vec<u8>, body: &[&[u8]]) -> Result<(), RowFault> {
    for line in body {
        unescape(out, outdented(line))?;
    }
    Ok(())
}

/// The words of a line: each is read by `unescape`, and `""` is an empty one.
pub fn word_list(alloc: Global, line: &[u8]) -> Result<Vec<String>, RowFault> {
    let mut words = Vec::new(alloc);
    for word in line.split(|b| *b == b' ') {
        if !word.is_empty() {
            words.push(word_of(alloc, word)?)?;
        }
    }
    Ok(words)
}

fn word_of(alloc: Global, word: &[u8]) -> Result<String, RowFault> {
    let mut bytes = Vec::new(alloc);
    if word != b"\"\"".as_slice() {
        unescape(&mut bytes, word)?;
    }
    String::from_utf8(bytes).map_err(|_| RowFault::Unclear)
}
