//! A second look at a mismatch, in memory: what it reads, and which page leads to the fault.

use crate::words::{Ended, command_in, value_of};
use std::alloc::{AllocError, Global};

/// The files of a second look.
pub const LAYOUT: &str = "layout";

pub const RULES: &str = "rules";

pub const SCHEMATIC: &str = "schematic";

pub const PAGE: &str = "page";

// Whether a line of rules has just this word.
fn is_word(line: &str, word: &str) -> bool {
    let (statement, _) = line.split_once('#').unwrap_or((line, ""));
    statement.trim() == word
}

fn has_word(rules: &str, word: &str) -> bool {
    rules.lines().any(|line| is_word(line, word))
}

// Whether cells are compared where they stand, where the line that takes them apart is left out.
fn takes_apart(rules: &str) -> bool {
    has_word(rules, "flatten_unmatched") && has_word(rules, "keep_covered")
}

/// Whether a mismatch of this run is looked into once more: of `run` it is, and of `view` where its
/// page isn't of the cells as they stand, or where it wrote none.
pub fn is_looked_into(ended: &Ended<'_>, rules: &str) -> bool {
    let has_page = !value_of(ended.words, "--page").is_empty();
    match command_in(ended.words) {
        "run" => ended.code == 1,
        "view" => ended.code == 1 && (takes_apart(rules) || !has_page),
        _ => false,
    }
}

/// The rules of a second look: where cells keep what they draw, without the line that takes cells
/// apart that differ; else as they are.
pub fn rules_in_place(alloc: Global, rules: &str) -> Result<String, AllocError> {
    let is_apart = takes_apart(rules);
    let mut text = String::new(alloc);
    for line in rules.lines() {
        if !is_apart || !is_word(line, "flatten_unmatched") {
            text.push_str(line)?;
            text.push_str("\n")?;
        }
    }
    Ok(text)
}

fn push_option(
    alloc: Global,
    words: &mut Vec<String>,
    name: &str,
    value: &str,
) -> Result<(), AllocError> {
    if value.is_empty() {
        return Ok(());
    }
    words.push(String::from_str(alloc, name)?)?;
    words.push(String::from_str(alloc, value)?)?;
    Ok(())
}

/// The words of `view` behind its name, for a second look at what these words compared.
pub fn look_words(alloc: Global, ended: &Ended<'_>) -> Result<Vec<String>, AllocError> {
    let mut words = Vec::new(alloc);
    push_option(alloc, &mut words, "--layout", LAYOUT)?;
    push_option(alloc, &mut words, "--rules", RULES)?;
    push_option(alloc, &mut words, "--schematic", SCHEMATIC)?;
    push_option(alloc, &mut words, "--database", "database")?;
    push_option(alloc, &mut words, "--page", PAGE)?;
    push_option(alloc, &mut words, "--top", value_of(ended.words, "--top"))?;
    push_option(
        alloc,
        &mut words,
        "--workers",
        value_of(ended.words, "--workers"),
    )?;
    Ok(words)
}

/// The path of the layout that was read.
pub fn layout_path<'a>(ended: &Ended<'a>) -> &'a str {
    value_of(ended.words, "--layout")
}
