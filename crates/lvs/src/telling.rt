//! What is printed for people: help, version, and what a run came to.

use crate::built::BUILT;
use crate::looking::second_page;
use crate::rules::refused_rules;
use lvs_talk::{
    Call, Ended, Hindrance, Texts, add_help, add_line, input_path, netlist_path, report_path,
    schematic_path, tell_end, tell_failure, tell_hindrance, tell_written,
};
use std::alloc::Global;
use std::fs;
use std::rt::Files;
use std::sync::Wait;
use std::thread::Threads;

const VERSION: &str = "lvs, text of 2 December 2026; ";

// The exit statuses of what was printed, and where it couldn't be.
const DONE: u8 = 0;

const REFUSED: u8 = 2;

const FAILED: u8 = 4;

/// The bytes of a file; none where it can't be read.
pub fn bytes_of<R: Files + AllocGlobal>(rt: &R, alloc: Global, path: &str) -> Vec<u8> {
    match fs::metadata(rt, path) {
        Ok(found) if found.is_file() => match fs::read(rt, path) {
            Ok(bytes) => bytes,
            Err(_) => Vec::new(alloc),
        },
        _ => Vec::new(alloc),
    }
}

/// The text of bytes; nothing where they are none.
pub fn text_of(bytes: &[u8]) -> &str {
    str::from_utf8(bytes).unwrap_or("")
}

// Prints a text on standard output; the exit status.
fn print_text<R: Print>(rt: &R, text: &str) -> u8 {
    match rt.print(text) {
        Ok(()) => DONE,
        Err(_) => FAILED,
    }
}

/// Prints help on a command, or on all; the exit status.
pub fn print_help<R: Print>(rt: &R, alloc: Global, topic: &str) -> u8 {
    let mut text = String::new(alloc);
    let _told = add_help(&mut text, topic);
    print_text(rt, text.as_str())
}

/// Prints which program this is; the exit status.
pub fn print_version<R: Print>(rt: &R) -> u8 {
    match print_text(rt, VERSION) {
        DONE => print_text(rt, BUILT),
        failed => failed,
    }
}

/// Refuses a run that something keeps from being begun: sends its line, and tells people why; the
/// exit status.
pub fn refuse<R: Print + Eprint>(rt: &R, alloc: Global, hindrance: &Hindrance<'_>) -> u8 {
    let mut line = String::new(alloc);
    let _told = add_line(alloc, &mut line, hindrance);
    let mut text = String::new(alloc);
    let _told = tell_hindrance(alloc, &mut text, hindrance);
    let _sent = rt.eprint(text.as_str());
    match print_text(rt, line.as_str()) {
        DONE => REFUSED,
        failed => failed,
    }
}

/// Tells people which files a run wrote that its words don't name.
pub fn tell_outputs<R: Eprint>(
    rt: &R,
    alloc: Global,
    given: &[String],
    words: &[String],
    code: u8,
) {
    if code == REFUSED || code > FAILED {
        return;
    }
    let mut text = String::new(alloc);
    let _told = tell_written(&mut text, given, words);
    let _sent = rt.eprint(text.as_str());
}

/// Tells people which call failed.
pub fn tell_failed<R: Eprint>(rt: &R, alloc: Global, path: &str, call: Call, is_sink: bool) {
    let mut text = String::new(alloc);
    let _told = tell_failure(&mut text, path, call, is_sink);
    let _sent = rt.eprint(text.as_str());
}

/// Tells people what a run came to that ended with this exit status, and sent this line.
pub fn tell_after<R: Threads + Wait + Sync + Files + Eprint + AllocGlobal>(
    rt: &R,
    alloc: Global,
    words: &[String],
    code: u8,
    line: &str,
) {
    let ended = Ended { words, code, line };
    let input = bytes_of(rt, alloc, input_path(&ended));
    let schematic = bytes_of(rt, alloc, schematic_path(&ended));
    let report = bytes_of(rt, alloc, report_path(&ended));
    let netlist = bytes_of(rt, alloc, netlist_path(&ended));
    let page = second_page(rt, alloc, &ended, input.as_slice());
    let refused = if line.starts_with("refused rules ") {
        refused_rules(alloc, input.as_slice())
    } else {
        Vec::new(alloc)
    };
    let texts = Texts {
        input: input.as_slice(),
        schematic: text_of(schematic.as_slice()),
        report: text_of(report.as_slice()),
        netlist: text_of(netlist.as_slice()),
        page: text_of(page.as_slice()),
        refused: refused.as_slice(),
    };
    let mut text = String::new(alloc);
    let _told = tell_end(alloc, &mut text, &ended, &texts);
    let _sent = rt.eprint(text.as_str());
}
