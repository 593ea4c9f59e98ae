//! Why a run was refused.

use crate::advice::{Advice, advice_on, call_cure, near_statement};
use crate::compared::Texts;
use crate::rule_faults::RefusedLine;
use crate::sentence::{NONE, Sentence, say, says};
use crate::slips::slip_of;
use crate::stream::{cell_at, near_cell};
use crate::table::command_of;
use crate::words::{Ended, command_in, input_path, reason_of, value_of, word_at};
use std::alloc::{AllocError, Global};

// What a file is that begins with these bytes.
static KINDS: [(&[u8], &str); 5] = [
    (b"\0\x06\0\x02", "a GDSII layout"),
    (b"%SEMI-OASIS", "an OASIS layout: save it as GDSII"),
    (b"\x1f\x8b", "compressed: unpack it"),
    (b"BZh", "compressed: unpack it"),
    (b"PK", "compressed: unpack it"),
];

fn kind_of(bytes: &[u8]) -> &'static str {
    for (front, kind) in KINDS.iter() {
        if bytes.starts_with(front) {
            return kind;
        }
    }
    ""
}

// The number behind a word; 0 where there is none.
fn number_behind(reason: &str, word: &str) -> usize {
    let mut is_behind = false;
    for part in reason.split_whitespace() {
        if is_behind {
            return part.parse::<usize>().unwrap_or(0);
        }
        is_behind = part == word;
    }
    0
}

// The line of a text that a refusal speaks of; nothing where there is none.
fn told_line<'a>(reason: &str, bytes: &'a [u8]) -> &'a str {
    let text = str::from_utf8(bytes).unwrap_or("");
    match number_behind(reason, "line") {
        0 => "",
        number => text.lines().nth(number - 1).unwrap_or("").trim(),
    }
}

fn line_sentence(line: &str) -> Sentence<'_> {
    if line.is_empty() {
        return NONE;
    }
    says("    @", line, "", "")
}

// What is meant by a line of the rules that is no statement.
fn rule_hint(line: &str) -> Sentence<'_> {
    let word = match line.split_once('(') {
        Some((front, _)) => front.trim(),
        None => word_at(line, 0),
    };
    if let Some(cure) = call_cure(word) {
        return says("  `@`: @", word, cure, "");
    }
    match near_statement(word) {
        Some(meant) if meant != word => says("  is `@` meant?", meant, "", ""),
        _ => NONE,
    }
}

// Of a text, what stands in its place.
fn text_hint<'a>(reason: &str, line: &'a str, bytes: &[u8]) -> Sentence<'a> {
    let kind = kind_of(bytes);
    if !kind.is_empty() {
        return says("  the file is @; are two paths exchanged?", kind, "", "");
    }
    if word_at(reason, 0) == "rules" {
        return rule_hint(line);
    }
    NONE
}

// Of a layout whose top isn't there, which cell may be meant.
fn top_hint<'a>(top: &'a str, bytes: &'a [u8]) -> Sentence<'a> {
    if top.is_empty() {
        return NONE;
    }
    match near_cell(bytes, top) {
        "" => says("  there is no cell `@`", top, "", ""),
        cell => says("  there is no cell `@`; is `@` meant?", top, cell, ""),
    }
}

// Of a layout, what stands in its place, or in which cell the record is.
fn layout_hint<'a>(ended: &Ended<'a>, bytes: &'a [u8]) -> Sentence<'a> {
    let kind = kind_of(bytes);
    let offset = number_behind(ended.line, "offset");
    if bytes.is_empty() {
        return NONE;
    }
    if kind.is_empty() {
        return says(
            "  the file is no GDSII; are two paths exchanged?",
            "",
            "",
            "",
        );
    }
    if !bytes.starts_with(b"\0\x06\0\x02") {
        return says("  the file is @", kind, "", "");
    }
    if offset > 0 {
        return says("  in cell @", cell_at(bytes, offset), "", "");
    }
    top_hint(value_of(ended.words, "--top"), bytes)
}

// What a refusal means, of which file, and where.
fn meaning<'a>(ended: &Ended<'a>, advice: &'static Advice) -> Sentence<'a> {
    let reason = reason_of(ended.line);
    let path = input_path(ended);
    let place = reason.strip_prefix(advice.key).unwrap_or("").trim();
    if place.is_empty() && path.is_empty() {
        return says("lvs: @", advice.what, "", "");
    }
    if path.is_empty() {
        return says("lvs: @: @", place, advice.what, "");
    }
    if place.is_empty() {
        return says("lvs: @: @", path, advice.what, "");
    }
    says("lvs: @: @ (@)", path, advice.what, place)
}

// Why a netlist is refused: what stands behind its path and the line's number.
fn netlist_why(reason: &str) -> &str {
    match reason.split_once(" line ") {
        Some((_, behind)) => match behind.split_once(' ') {
            Some((_, why)) => why,
            None => "",
        },
        None => "",
    }
}

// The line of a text that a refusal speaks of, and what is meant.
fn tell_line(out: &mut String, reason: &str, bytes: &[u8]) -> Result<(), AllocError> {
    let line = told_line(reason, bytes);
    say(out, &line_sentence(line))?;
    say(out, &text_hint(reason, line, bytes))
}

// The refusals of a rule file behind the first one, each with its line, and with what to do where
// that is another thing than before.
fn tell_rules(
    alloc: Global,
    out: &mut String,
    path: &str,
    texts: &Texts<'_>,
) -> Result<(), AllocError> {
    let mut cure = "";
    for (place, refused) in texts.refused.iter().enumerate() {
        let (code, line) = (refused.code, refused.line);
        let reason = format!(in alloc; "rules {code} line {line}")?;
        let Some(advice) = advice_on(reason.as_str()) else {
            continue;
        };
        if place > 0 {
            let number = line.to_string(alloc)?;
            let pattern = "lvs: @: @ (line @)";
            say(out, &says(pattern, path, advice.what, number.as_str()))?;
            tell_line(out, reason.as_str(), texts.input)?;
            if cure != advice.cure {
                say(out, &says("  @", advice.cure, "", ""))?;
            }
        }
        cure = advice.cure;
    }
    Ok(())
}

// A refusal of an input: what it means, where, and what to do.
fn tell_input<'a>(
    alloc: Global,
    out: &mut String,
    ended: &Ended<'a>,
    texts: &Texts<'a>,
) -> Result<(), AllocError> {
    let bytes = texts.input;
    let reason = reason_of(ended.line);
    let Some(advice) = advice_on(reason).or(advice_on(netlist_why(reason))) else {
        return say(
            out,
            &says(
                "lvs: docs/FORMATS.md has what this means: @",
                reason,
                "",
                "",
            ),
        );
    };
    say(out, &meaning(ended, advice))?;
    if word_at(reason, 0) == "layout" {
        say(out, &layout_hint(ended, bytes))?;
    } else {
        tell_line(out, reason, bytes)?;
    }
    say(out, &says("  @", advice.cure, "", ""))?;
    if word_at(reason, 0) == "rules" {
        tell_rules(alloc, out, input_path(ended), texts)?;
    }
    Ok(())
}

// Words that state no command.
fn tell_words(out: &mut String, words: &[String]) -> Result<(), AllocError> {
    say(out, &slip_of(words))?;
    match command_of(command_in(words)) {
        Some(command) => say(out, &says("  lvs @", command.form, "", "")),
        None => Ok(()),
    }
}

/// Says why a run was refused, with the input that its line speaks of.
pub fn tell_refusal<'a>(
    alloc: Global,
    out: &mut String,
    ended: &Ended<'a>,
    texts: &Texts<'a>,
) -> Result<(), AllocError> {
    if reason_of(ended.line) == "words" {
        return tell_words(out, ended.words);
    }
    tell_input(alloc, out, ended, texts)
}
