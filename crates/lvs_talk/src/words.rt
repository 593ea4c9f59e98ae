//! Words of a run, and words of lines.

use crate::near::beside;

/// A run that ended: its words, its exit status, and the line that it sent.
#[derive(Clone, Copy)]
pub struct Ended<'a> {
    pub words: &'a [String],
    pub code: u8,
    pub line: &'a str,
}

/// The word of a line at a place, from 0; nothing where there is none.
pub fn word_at(line: &str, place: usize) -> &str {
    line.split_whitespace().nth(place).unwrap_or("")
}

/// The first word of a run.
pub fn command_in(words: &[String]) -> &str {
    match words.first() {
        Some(word) => word.as_str(),
        None => "",
    }
}

fn own_value<'a>(word: &'a str, name: &str) -> Option<&'a str> {
    word.strip_prefix(name)?.strip_prefix('=')
}

/// The value of an option; nothing where it doesn't stand there.
pub fn value_of<'a>(words: &'a [String], name: &str) -> &'a str {
    let mut before = "";
    for word in words.iter() {
        let word = word.as_str();
        if before == name {
            return word;
        }
        if let Some(value) = own_value(word, name) {
            return value;
        }
        before = word;
    }
    ""
}

/// The path of an input, which `shapes` takes by its place; nothing where none stands there.
pub fn input_of<'a>(words: &'a [String], name: &str) -> &'a str {
    if command_in(words) != "shapes" {
        return value_of(words, name);
    }
    let place = if name == "--layout" { 1 } else { 2 };
    match words.get(place) {
        Some(word) => word.as_str(),
        None => "",
    }
}

/// What stands behind `refused` in a run's line.
pub fn reason_of(line: &str) -> &str {
    line.strip_prefix("refused ").unwrap_or("").trim_end()
}

// The options of inputs, by the first word of a refusal that speaks of them.
static INPUTS: [(&str, &str); 3] = [
    ("rules", "--rules"),
    ("layout", "--layout"),
    ("schematic", "--schematic"),
];

// The path of the input that a refusal speaks of.
fn refused_path<'a>(ended: &Ended<'a>) -> &'a str {
    let reason = reason_of(ended.line);
    if let Some(name) = beside(&INPUTS, word_at(reason, 0)) {
        return input_of(ended.words, name);
    }
    match reason.split_once(" line ") {
        Some((path, _)) => path,
        None => "",
    }
}

/// Which input is looked into to say how a run ended: after a refusal the one that it speaks of,
/// after a mismatch the rules.
pub fn input_path<'a>(ended: &Ended<'a>) -> &'a str {
    match ended.code {
        1 => value_of(ended.words, "--rules"),
        2 => refused_path(ended),
        _ => "",
    }
}

/// Whether the schematic is looked into: after a mismatch.
pub fn schematic_path<'a>(ended: &Ended<'a>) -> &'a str {
    match ended.code {
        1 => value_of(ended.words, "--schematic"),
        _ => "",
    }
}

/// Which evidence is looked into: after a comparison the report, or after a mismatch the page.
pub fn report_path<'a>(ended: &Ended<'a>) -> &'a str {
    if ended.code > 1 {
        return "";
    }
    match command_in(ended.words) {
        "run" => value_of(ended.words, "--report"),
        "view" if ended.code == 1 => value_of(ended.words, "--page"),
        "view" => value_of(ended.words, "--database"),
        _ => "",
    }
}

/// Which netlist is looked into: after a comparison the one that was written.
pub fn netlist_path<'a>(ended: &Ended<'a>) -> &'a str {
    if ended.code > 1 || command_in(ended.words) != "run" {
        return "";
    }
    value_of(ended.words, "--netlist")
}
