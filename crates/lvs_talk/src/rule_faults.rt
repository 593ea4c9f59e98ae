//! The lines of a rule file that are refused behind the first one.

use std::alloc::{AllocError, Global};

/// A refused line: the number of its refusal, and its own number from 1.
#[derive(Clone, Copy, PartialEq, Eq)]
pub struct RefusedLine {
    pub code: u8,
    pub line: usize,
}

// From so many lines on nothing more is looked for.
const MOST: usize = 20;

/// What reads rule files.
pub trait RuleReader {
    /// The first refused line of a rule file; none where there is none, or where the refusal is no
    /// line's.
    fn first_refused(&self, alloc: Global, bytes: &[u8]) -> Option<RefusedLine>;
}

fn is_name(word: &str) -> bool {
    match word.as_bytes() {
        [first, more @ ..] => first.is_ascii_lowercase()
            && more
                .iter()
                .all(|byte| byte.is_ascii_alphanumeric() || *byte == b'_'),
        [] => false,
    }
}

// The name that a line would define; nothing where it would define none.
fn defined(line: &str) -> &str {
    match line.split_once('=') {
        Some((name, _)) if is_name(name.trim()) => name.trim(),
        _ => "",
    }
}

// Adds a definition of a name, so that lines below which read it aren't refused for it.
fn push_stand_in(out: &mut String, name: &str) -> Result<(), AllocError> {
    if name.is_empty() {
        return Ok(());
    }
    out.push_str(name)?;
    out.push_str(" = polygon_layer")
}

// A text without its refused line; what this would define is defined in its place, unless it was
// before.
fn without(alloc: Global, text: &str, refused: RefusedLine) -> Result<String, AllocError> {
    let mut out = String::new(alloc);
    let mut place: usize = 0;
    for line in text.lines() {
        place = place.saturating_add(1);
        if place != refused.line {
            out.push_str(line)?;
        } else if refused.code != 33 {
            push_stand_in(&mut out, defined(line))?;
        }
        out.push_str("\n")?;
    }
    Ok(out)
}

/// The refused lines of a rule file, the first 20 at most, in order of their finding: each is the
/// first fault of the text without those before it.
pub fn refused_lines<R: RuleReader>(
    alloc: Global,
    reader: &R,
    bytes: &[u8],
) -> Result<Vec<RefusedLine>, AllocError> {
    let mut found = Vec::new(alloc);
    let mut text = String::new(alloc);
    text.push_str(str::from_utf8(bytes).unwrap_or(""))?;
    for _ in 0..MOST {
        let Some(refused) = reader.first_refused(alloc, text.as_bytes()) else {
            return Ok(found);
        };
        text = without(alloc, text.as_str(), refused)?;
        found.push(refused)?;
    }
    Ok(found)
}
