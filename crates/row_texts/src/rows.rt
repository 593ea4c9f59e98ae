//! One row of a file: its own sections, and those that the file's head gives all its rows.

use crate::fields::{Fields, RowFault};
use crate::layouts::stream_of;
use crate::repeated::push_repeated;
use crate::sections::{Section, body_text, push_escaped_lines};
use std::alloc::{AllocError, Global};
use std::fs;
use std::rt::Files;

/// A row, and the sections before the file's first row.
#[derive(Clone, Copy, Drop)]
pub struct Row<'a> {
    pub name: &'a [u8],
    pub own: &'a [Section<'a>],
    pub head: &'a [Section<'a>],
}

fn find_in<'a>(sections: &'a [Section<'a>], word: &[u8]) -> Option<&'a Section<'a>> {
    sections.iter().find(|section| section.word == word)
}

impl<'a> Row<'a> {
    /// The section of a word: the row's own, or else the head's.
    pub fn find(&self, word: &[u8]) -> Option<&'a Section<'a>> {
        match find_in(self.own, word) {
            Some(section) => Some(section),
            None => find_in(self.head, word),
        }
    }

    /// The sections that say what is run: the row's own, or else the head's.
    pub fn commands(&self) -> &'a [Section<'a>] {
        let is_own = self.own.iter().any(is_command);
        if is_own { self.own } else { self.head }
    }
}

/// Whether a section says what is run.
pub fn is_command(section: &Section<'_>) -> bool {
    matches!(section.word, b"command" | b"words")
}

// How a section's lines are read.
#[derive(Clone, Copy, PartialEq, Eq)]
enum Form {
    Lines,
    Escaped,
    Repeated,
}

fn push_body(alloc: Global, out: &mut Vec<u8>, form: Form, body: &[&[u8]]) -> Result<(), RowFault> {
    match form {
        Form::Lines => Ok(body_text(out, body)?),
        Form::Escaped => push_escaped_lines(out, body),
        Form::Repeated => push_repeated(alloc, out, body),
    }
}

/// The text of a section: the files that its line names, in the folder of the rows, then its body;
/// where the line ends in `escaped`, the body's lines are one text with escapes, and where it ends
/// in `repeated` each of them stands for many.
pub fn section_text<R: Files + AllocGlobal>(
    rt: &R,
    section: &Section<'_>,
) -> Result<Vec<u8>, RowFault> {
    let mut out = Vec::new(rt.alloc());
    let mut form = Form::Lines;
    for word in section.rest.split(|b| *b == b' ') {
        if matches!(word, b"escaped") {
            form = Form::Escaped;
        } else if matches!(word, b"repeated") {
            form = Form::Repeated;
        } else if !word.is_empty() {
            let part = file_of(rt, word)?;
            out.extend_from_slice(&part)?;
        }
    }
    push_body(rt.alloc(), &mut out, form, section.body)?;
    Ok(out)
}

/// A file of the rows' folder.
pub fn file_of<R: Files + AllocGlobal>(rt: &R, path: &[u8]) -> Result<Vec<u8>, RowFault> {
    let Ok(path) = str::from_utf8(path) else {
        return Err(RowFault::Unclear);
    };
    fs::read(rt, path).map_err(|_| RowFault::Unclear)
}

/// The text of a row's section, empty where it has none.
pub fn text_of<R: Files + AllocGlobal>(
    rt: &R,
    row: &Row<'_>,
    word: &[u8],
) -> Result<Vec<u8>, RowFault> {
    match row.find(word) {
        Some(section) => section_text(rt, section),
        None => Ok(Vec::new(rt.alloc())),
    }
}

/// The texts of the input files.
pub struct Inputs {
    pub layout: Vec<u8>,
    pub rules: Vec<u8>,
    pub schematic: Vec<u8>,
}

// Written out, so that its owners drop it by one call.
impl Drop for Inputs {
    fn drop(self) {
        let Inputs {
            layout: _,
            rules: _,
            schematic: _,
        } = self;
    }
}

// A layout's stream; no byte where nothing is said of it, or `none`.
fn layout_of<R: Files + AllocGlobal>(rt: &R, row: &Row<'_>) -> Result<Vec<u8>, RowFault> {
    match row.find(b"layout") {
        Some(section) if !matches!(section.rest, b"none") => {
            let text = section_text(rt, section)?;
            stream_of(rt.alloc(), &text)
        }
        _ => Ok(Vec::new(rt.alloc())),
    }
}

// The input files that a row's sections state.
fn inputs_of<R: Files + AllocGlobal>(rt: &R, row: &Row<'_>) -> Result<Inputs, RowFault> {
    Ok(Inputs {
        layout: layout_of(rt, row)?,
        rules: text_of(rt, row, b"rules")?,
        schematic: text_of(rt, row, b"schematic")?,
    })
}

impl Inputs {
    // The same with the first bytes of the layout alone.
    fn cut(&self, alloc: Global, count: i32) -> Result<Inputs, AllocError> {
        let front = usize::try_from(count).unwrap_or(0);
        Ok(Inputs {
            layout: self.layout.get(..front).unwrap_or(&[]).to_vec(alloc)?,
            rules: self.rules.to_vec(alloc)?,
            schematic: self.schematic.to_vec(alloc)?,
        })
    }

    // The same with an escaped line behind the rules, or behind the schematic.
    fn with(&self, alloc: Global, what: &[u8], line: &[u8]) -> Result<Inputs, RowFault> {
        let mut made = Inputs {
            layout: self.layout.to_vec(alloc)?,
            rules: self.rules.to_vec(alloc)?,
            schematic: self.schematic.to_vec(alloc)?,
        };
        match what {
            b"rules" => push_escaped_lines(&mut made.rules, &[line])?,
            b"schematic" => push_escaped_lines(&mut made.schematic, &[line])?,
            _ => return Err(RowFault::Unclear),
        }
        Ok(made)
    }
}

// The inputs with each front of the layout from one number of bytes up to another, without it.
fn cuts_of(alloc: Global, inputs: &Inputs, cuts: (i32, i32)) -> Result<Vec<Inputs>, RowFault> {
    let mut out = Vec::new(alloc);
    for count in cuts.0..cuts.1 {
        out.push(inputs.cut(alloc, count)?)?;
    }
    Ok(out)
}

// The inputs with each line of a section in turn.
fn each_of(alloc: Global, inputs: &Inputs, section: &Section<'_>) -> Result<Vec<Inputs>, RowFault> {
    let mut out = Vec::new(alloc);
    for line in section.body {
        if !line.is_empty() {
            out.push(inputs.with(alloc, section.rest, line)?)?;
        }
    }
    Ok(out)
}

/// The inputs of a row: one, or where it says `cuts` or `each` as many as that states.
pub fn all_inputs<R: Files + AllocGlobal>(rt: &R, row: &Row<'_>) -> Result<Vec<Inputs>, RowFault> {
    let alloc = rt.alloc();
    let inputs = inputs_of(rt, row)?;
    if let Some(section) = row.find(b"cuts") {
        return cuts_of(alloc, &inputs, Fields::of(section.rest).pair(b'-')?);
    }
    if let Some(section) = row.find(b"each") {
        return each_of(alloc, &inputs, section);
    }
    let mut out = Vec::new(alloc);
    out.push(inputs)?;
    Ok(out)
}
