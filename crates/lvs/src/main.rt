//! The program: hands what its words ask for the system's files and standard output, ends with its
//! status, and tells people on standard error what it came to.
#![tactic(auto)]

ghost use Rattle.std.specs.Prelude.{◌≡◌};
ghost use Rattle.std.specs.Process.{exit_status};

mod built;
mod hindered;
mod looking;
mod rules;
mod running;
mod telling;

use crate::hindered::hindrance_of;
use crate::running::run_words;
use crate::telling::{print_help, print_version, refuse, tell_after, tell_failed, tell_outputs};
use lvs_outside::{FileDepot, StdoutSink};
use lvs_talk::{Heard, Shown, Watched, has_progress, is_command, spelt_out};
use std::alloc::Global;
use std::io::IsTerminal;
use std::process::ExitCode;
use std::rt::Files;
use std::sync::Wait;
use std::thread::Threads;
use std::{env, io};

// What the program ends with where no memory is left, and after a call on a file or on standard
// output failed.
const NO_MEMORY: u8 = 5;

const FAILED: u8 = 4;

// What the words ask for: help, on a command or on all, which program this is, or a run of words.
enum Asked<'a> {
    Help(&'a str),
    Version,
    Run(&'a [String]),
}

// The words after the program's name; none where there is no memory for them. Words that aren't
// UTF-8 ask for nothing: then none are handed in.
fn words_of(rt: &HostRuntime, alloc: Global) -> Option<Vec<String>> {
    let mut words = Vec::new(alloc);
    match env::args(rt) {
        Ok(args) => {
            for word in args.skip(1) {
                if words.push(word).is_err() {
                    return None;
                }
            }
            Some(words)
        }
        Err(e) if e.kind() == io::ErrorKind::OutOfMemory => None,
        Err(_) => Some(words),
    }
}

fn is_help(word: &str) -> bool {
    word == "--help" || word == "-h"
}

// What is asked for behind `help`: of a word that is no command, what a run of it says.
fn asked_help(more: &[String]) -> Asked<'_> {
    match more.first() {
        None => Asked::Help(""),
        Some(topic) if is_command(topic.as_str()) => Asked::Help(topic.as_str()),
        Some(_) => Asked::Run(more),
    }
}

// What the words ask for. `--help` or `-h` among the words of a command asks for help on it.
fn asked_for(words: &[String]) -> Asked<'_> {
    let [first, more @ ..] = words else {
        return Asked::Run(words);
    };
    let name = first.as_str();
    if name == "version" || name == "--version" {
        return Asked::Version;
    }
    if name == "help" || is_help(name) {
        return asked_help(more);
    }
    if is_command(name) && more.iter().any(|word| is_help(word.as_str())) {
        return Asked::Help(name);
    }
    Asked::Run(words)
}

// Runs the words, and tells people what it came to, and before where progress is to be shown; the
// exit status.
fn run_told<R>(rt: &R, alloc: Global, words: &[String], shows: bool) -> u8
where
    R: Threads + Wait + Sync + Files + Print + Eprint + AllocGlobal,
{
    let teller = if shows { Some(rt) } else { None };
    let mut depot = Watched::new(alloc, Shown::new(FileDepot::new(rt), teller));
    let mut out = Heard::new(alloc, StdoutSink::new(rt));
    let code = run_words(rt, alloc, words, &mut depot, &mut out);
    if code == FAILED {
        tell_failed(rt, alloc, depot.path(), depot.call(), out.has_failed());
    } else {
        tell_after(rt, alloc, words, code, out.text());
    }
    code
}

// Runs words, or the exact words that their short form stands for, unless something keeps them from
// being begun; the exit status.
fn run_given<R>(rt: &R, alloc: Global, given: &[String], is_seen: bool) -> u8
where
    R: Threads + Wait + Sync + Files + Print + Eprint + AllocGlobal,
{
    let Ok(words) = spelt_out(alloc, given) else {
        return NO_MEMORY;
    };
    let words = words.as_slice();
    if let Some(hindrance) = hindrance_of(rt, alloc, words) {
        return refuse(rt, alloc, &hindrance);
    }
    let code = run_told(rt, alloc, words, is_seen || has_progress(given));
    if code != FAILED {
        tell_outputs(rt, alloc, given, words, code);
    }
    code
}

// Does what the words ask for, before somebody at a terminal or not; the exit status.
fn answer<R>(rt: &R, alloc: Global, words: &[String], is_seen: bool) -> u8
where
    R: Threads + Wait + Sync + Files + Print + Eprint + AllocGlobal,
{
    match asked_for(words) {
        Asked::Version => print_version(rt),
        Asked::Help(topic) => print_help(rt, alloc, topic),
        Asked::Run(words) => run_given(rt, alloc, words, is_seen),
    }
}

// What the program ends with.
fn exit_code(code: u8) -> ExitCode
    ensures { exit_status result ≡ code }
{
    ExitCode::from(code)
}

fn main(rt: HostRuntime) -> ExitCode {
    let alloc = rt.alloc();
    let is_seen = rt.stderr().is_terminal();
    match words_of(&rt, alloc) {
        Some(words) => exit_code(answer(&rt, alloc, words.as_slice(), is_seen)),
        None => exit_code(NO_MEMORY),
    }
}
