//! The short form of a command: files by themselves, told apart by their paths' endings.

use crate::sentence::{say, says};
use crate::slips::spells;
use crate::table::{ENDINGS, INPUTS, WRITTEN, choice_of, takes};
use crate::words::value_of;
use std::alloc::{AllocError, Global};

// Which input a file is by its path's ending; nothing where the ending doesn't say it.
fn kind_of(path: &str) -> &'static str {
    let Some((_, ending)) = path.rsplit_once('.') else {
        return "";
    };
    for (known, name) in ENDINGS.iter() {
        if known.eq_ignore_ascii_case(ending) {
            return name;
        }
    }
    ""
}

// Whether an option of a command has its value in the word behind it.
fn has_value(command: &str, word: &str) -> bool {
    match choice_of(command, word) {
        Some(choice) => !choice.value.is_empty(),
        None => false,
    }
}

/// Whether a word, behind another one, is neither an option nor an option's value.
pub fn is_free(command: &str, before: &str, word: &str) -> bool {
    !has_value(command, before) && !word.starts_with('-') && !word.is_empty()
}

// What the words of a command by themselves are: how many of them an ending tells, and how many
// none does.
fn counts(command: &str, words: &[String]) -> (usize, usize) {
    let (mut told, mut untold) = (0usize, 0usize);
    let mut before = "";
    for word in words.iter() {
        let word = word.as_str();
        if is_free(command, before, word) && kind_of(word).is_empty() {
            untold = untold.saturating_add(1);
        } else if is_free(command, before, word) {
            told = told.saturating_add(1);
        }
        before = word;
    }
    (told, untold)
}

// Whether an option, or a word by itself, names an input.
fn is_named(command: &str, words: &[String], name: &str) -> bool {
    let mut before = "";
    for word in words.iter() {
        let word = word.as_str();
        if spells(word, name) || (is_free(command, before, word) && kind_of(word) == name) {
            return true;
        }
        before = word;
    }
    false
}

// Whether a command takes an input, and nothing names it.
fn is_missing(command: &str, words: &[String], name: &str) -> bool {
    takes(command, name) && !is_named(command, words, name)
}

// The only input of a command that isn't named; nothing where there is none, or more than one.
fn left_over(command: &str, words: &[String]) -> &'static str {
    let [rules, layout, schematic] = INPUTS;
    match (
        is_missing(command, words, rules),
        is_missing(command, words, layout),
        is_missing(command, words, schematic),
    ) {
        (true, false, false) => rules,
        (false, true, false) => layout,
        (false, false, true) => schematic,
        _ => "",
    }
}

/// Whether words are the short form of a command: a file stands by itself whose ending tells what
/// it is, and at most one whose ending doesn't, which then is the only input that isn't named.
pub fn is_short(words: &[String]) -> bool {
    let [first, more @ ..] = words else {
        return false;
    };
    let command = first.as_str();
    if !takes(command, "--layout") {
        return false;
    }
    let (told, untold) = counts(command, more);
    told > 0 && (untold == 0 || (untold == 1 && !left_over(command, more).is_empty()))
}

// The word that asks for progress to be told, which no run itself takes.
const PROGRESS: &str = "--progress";

/// Whether the words of a run ask for progress to be told.
pub fn has_progress(words: &[String]) -> bool {
    words.iter().any(|word| word.as_str() == PROGRESS)
}

// Adds a word, but for the one that asks for progress.
fn push_copy(alloc: Global, out: &mut Vec<String>, word: &str) -> Result<(), AllocError> {
    if word == PROGRESS {
        return Ok(());
    }
    let mut copy = String::new(alloc);
    copy.push_str(word)?;
    out.push(copy)?;
    Ok(())
}

// Adds an option with its value, which is joined of two parts.
fn push_option(
    alloc: Global,
    out: &mut Vec<String>,
    name: &str,
    value: (&str, &str),
) -> Result<(), AllocError> {
    let mut option = String::new(alloc);
    option.push_str(name)?;
    option.push_str("=")?;
    option.push_str(value.0)?;
    option.push_str(value.1)?;
    out.push(option)?;
    Ok(())
}

// Adds the words behind a command, each file as the option that it is.
fn push_named(
    alloc: Global,
    out: &mut Vec<String>,
    command: &str,
    words: &[String],
) -> Result<(), AllocError> {
    let left = left_over(command, words);
    let mut before = "";
    for word in words.iter() {
        let word = word.as_str();
        let kind = kind_of(word);
        if !is_free(command, before, word) {
            push_copy(alloc, out, word)?;
        } else if kind.is_empty() {
            push_option(alloc, out, left, (word, ""))?;
        } else {
            push_option(alloc, out, kind, (word, ""))?;
        }
        before = word;
    }
    Ok(())
}

// A path without its ending, where that tells what the file is.
fn stem_of(path: &str) -> &str {
    match path.rsplit_once('.') {
        Some((stem, _)) if !kind_of(path).is_empty() => stem,
        _ => path,
    }
}

// Adds the outputs of a command that its words don't name, beside the layout.
fn push_outputs(
    alloc: Global,
    out: &mut Vec<String>,
    command: &str,
    words: &[String],
    stem: &str,
) -> Result<(), AllocError> {
    for (name, ending) in WRITTEN.iter() {
        if takes(command, name) && !is_named(command, words, name) {
            push_option(alloc, out, name, (stem, ending))?;
        }
    }
    Ok(())
}

fn copies(alloc: Global, words: &[String]) -> Result<Vec<String>, AllocError> {
    let mut out = Vec::new(alloc);
    for word in words.iter() {
        push_copy(alloc, &mut out, word.as_str())?;
    }
    Ok(out)
}

/// The exact words that the short form of a command stands for, with its outputs beside the
/// layout; other words as they are, but for the one that asks for progress. Three passes over the
/// words for each option.
pub fn spelt_out(alloc: Global, words: &[String]) -> Result<Vec<String>, AllocError> {
    let [first, more @ ..] = words else {
        return Ok(Vec::new(alloc));
    };
    if !is_short(words) {
        return copies(alloc, words);
    }
    let command = first.as_str();
    let mut named = Vec::new(alloc);
    push_copy(alloc, &mut named, command)?;
    push_named(alloc, &mut named, command, more)?;
    let mut out = copies(alloc, named.as_slice())?;
    let stem = stem_of(value_of(named.as_slice(), "--layout"));
    if !stem.is_empty() {
        push_outputs(alloc, &mut out, command, more, stem)?;
    }
    Ok(out)
}

/// Says which files were written that no word names.
pub fn tell_written(
    out: &mut String,
    given: &[String],
    words: &[String],
) -> Result<(), AllocError> {
    if !is_short(given) {
        return Ok(());
    }
    for (name, _) in WRITTEN.iter() {
        let path = value_of(words, name);
        if value_of(given, name).is_empty() && !path.is_empty() {
            say(out, &says("lvs: wrote @", path, "", ""))?;
        }
    }
    Ok(())
}
