//! What a run came to, in sentences.

use crate::compared::{Texts, tell_match, tell_mismatch};
use crate::refusals::tell_refusal;
use crate::sentence::{say, says};
use crate::watched::Call;
use crate::words::{Ended, command_in};
use std::alloc::{AllocError, Global};

// What is said of a failed call on a file.
fn failure_text(call: Call) -> &'static str {
    match call {
        Call::Open =>
            "lvs: can't open @: you may not read it, or a folder on the way to it isn't one",
        Call::Read => "lvs: can't read @: it is a folder, or the disk fails",
        Call::Create =>
            "lvs: can't make @: its folder isn't there, you may not write there, or it is a folder",
        Call::Write | Call::Finish => "lvs: can't write all of @: the disk is full, or it fails",
    }
}

const NO_OUTPUT: &str = "lvs: standard output takes no more: a closed pipe, or a full disk";

/// Says which call failed: the last one on a file, or one on standard output.
pub fn tell_failure(
    out: &mut String,
    path: &str,
    call: Call,
    is_sink: bool,
) -> Result<(), AllocError> {
    let pattern = if is_sink {
        NO_OUTPUT
    } else {
        failure_text(call)
    };
    say(out, &says(pattern, path, "", ""))
}

const UNDECIDED: &str = "\
lvs: undecided: the guesses ran out
  raise max_guesses in the rules, or label nets that look alike";

const NO_MEMORY: &str = "lvs: no memory was left; no file was started";

const BAD_GATES: &str = "\
lvs: a gate is bad, so the netlist lacks its device
  the report of lvs run names each with its cell, place and cause";

// What is said after a run that compared nothing.
fn plain_text(code: u8) -> &'static str {
    match code {
        1 => BAD_GATES,
        3 => UNDECIDED,
        5 => NO_MEMORY,
        _ => "",
    }
}

fn compares(command: &str) -> bool {
    command == "run" || command == "view" || command == "make"
}

// What is said after a comparison.
fn tell_compared(
    alloc: Global,
    out: &mut String,
    ended: &Ended<'_>,
    texts: &Texts<'_>,
) -> Result<(), AllocError> {
    if ended.code == 0 {
        tell_match(alloc, out, ended, texts)
    } else {
        tell_mismatch(alloc, out, ended, texts)
    }
}

/// Says what a run came to that ended otherwise than by a failed call.
pub fn tell_end<'a>(
    alloc: Global,
    out: &mut String,
    ended: &Ended<'a>,
    texts: &Texts<'a>,
) -> Result<(), AllocError> {
    if ended.code == 2 {
        return tell_refusal(alloc, out, ended, texts);
    }
    if ended.code <= 1 && compares(command_in(ended.words)) {
        return tell_compared(alloc, out, ended, texts);
    }
    say(out, &says(plain_text(ended.code), "", "", ""))
}
