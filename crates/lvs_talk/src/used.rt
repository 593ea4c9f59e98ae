//! The files that words name.

use crate::short::is_free;
use crate::table::{INPUTS, WRITTEN, takes};
use crate::words::{command_in, value_of};
use std::alloc::{AllocError, Global};

/// A path among the words of a command, and whether the command writes the file.
#[derive(Clone, Copy)]
pub struct Used<'a> {
    pub path: &'a str,
    pub is_written: bool,
}

fn push_used<'a>(
    used: &mut Vec<Used<'a>>,
    path: &'a str,
    is_written: bool,
) -> Result<(), AllocError> {
    if path.is_empty() {
        return Ok(());
    }
    used.push(Used { path, is_written })?;
    Ok(())
}

// Adds the files that options name.
fn push_options<'a>(
    used: &mut Vec<Used<'a>>,
    command: &str,
    words: &'a [String],
) -> Result<(), AllocError> {
    for name in INPUTS.iter() {
        if takes(command, name) {
            push_used(used, value_of(words, name), false)?;
        }
    }
    for (name, _) in WRITTEN.iter() {
        if takes(command, name) {
            push_used(used, value_of(words, name), true)?;
        }
    }
    Ok(())
}

// Adds the files that stand by themselves, those from a place on as written.
fn push_free<'a>(
    used: &mut Vec<Used<'a>>,
    command: &str,
    words: &'a [String],
    written_from: usize,
) -> Result<(), AllocError> {
    let mut before = "";
    for (place, word) in words.iter().enumerate() {
        let word = word.as_str();
        if is_free(command, before, word) {
            push_used(used, word, place >= written_from)?;
        }
        before = word;
    }
    Ok(())
}

/// The files that the words of a command name, but those of `make`.
pub fn used_files<'a>(alloc: Global, words: &'a [String]) -> Result<Vec<Used<'a>>, AllocError> {
    let mut used = Vec::new(alloc);
    let [first, more @ ..] = words else {
        return Ok(used);
    };
    let command = first.as_str();
    if command == "shapes" {
        push_free(&mut used, command, more, 2)?;
    }
    if command == "netlist" {
        push_free(&mut used, command, more, usize::MAX)?;
    }
    push_options(&mut used, command, more)?;
    Ok(used)
}

/// The schematic of a run that compares; nothing where there is none.
pub fn schematic_of(words: &[String]) -> &str {
    let command = command_in(words);
    if takes(command, "--schematic") {
        value_of(words, "--schematic")
    } else {
        ""
    }
}
