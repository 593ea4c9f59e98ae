//! The words of the program.

ghost use Rattle.std.specs.Prelude.{◌≡◌, false, IfOk, IfSome, MatchBool, OnOk, None, Some};
ghost use Rattle.std.specs.Prelude.{is_none, map, string_bytes};
ghost use Rattle.std.specs.Option.{option_map};
ghost use Rattle.netlist_run.specs.Words.{AreParts, asked, asked_seen, flag_of, is_value, kept};
ghost use Rattle.netlist_run.specs.Words.{nothing, whole, with_flag, with_input, with_option};
ghost use Rattle.netlist_turn.specs.Scale.{scale_of};
ghost use Rattle.netlist_run.specs.Words.{with_scale};
ghost use Rattle.netlist_run.specs.Words.{with_out, with_top, with_word, with_words, words_seen};

use crate::plan::Choices;
use netlist_turn::scale_of;
use std::alloc::{AllocError, Global};

/// What the words ask for.
#[derive(Drop)]
pub struct Command {
    pub inputs: Vec<String>,
    pub out: Option<String>,
    pub top: Option<String>,
    pub has_title: bool,
    pub choices: Choices,
}

/// An option.
#[derive(Clone, Copy)]
pub enum Flag {
    Out,
    Top,
    Title,
    Capacitors,
    Resistors,
    Scale,
}

/// What the words so far ask for, and the option whose value comes next.
#[derive(Drop)]
pub struct Reading {
    pub command: Command,
    pub pending: Option<Flag>,
}

fn flag_of(word: &str) -> Option<Flag>
    ensures { result ≡ flag_of word.now }
{
    if word == "--out" {
        Some(Flag::Out)
    } else if word == "--top" {
        Some(Flag::Top)
    } else if word == "--title" {
        Some(Flag::Title)
    } else if word == "--drop-capacitors" {
        Some(Flag::Capacitors)
    } else if word == "--drop-resistors" {
        Some(Flag::Resistors)
    } else if word == "--scale" {
        Some(Flag::Scale)
    } else {
        None
    }
}

// A word that is a value: it isn't empty and doesn't begin with `-`.
fn is_value(word: &str) -> bool
    ensures { result ≡ is_value word.now }
{
    match word.as_bytes() {
        [first, ..] => *first != b'-',
        [] => false,
    }
}

// What stands before the first `=` and behind it.
#[tactic(auto, using(crate::proofs::WordLemmas::parts_are))]
fn parts(word: &str) -> Option<(&str, &str)>
    ensures { AreParts word.now result }
{
    word.split_once('=')
}

impl Reading {
    fn new(alloc: Global) -> Reading
        ensures { words_seen result ≡ nothing }
    {
        Reading {
            command: Command {
                inputs: Vec::new(alloc),
                out: None,
                top: None,
                has_title: false,
                choices: Choices {
                    capacitors: false,
                    resistors: false,
                    scale: None,
                },
            },
            pending: None,
        }
    }

    // Whether an option stands where it can: its value comes next, or it wasn't set before.
    fn set(&mut self, flag: Option<Flag>) -> bool
        ensures { MatchBool result
            (with_flag (words_seen self.old) flag ≡ Some (words_seen self.new))
            (with_flag (words_seen self.old) flag ≡ None) }
    {
        match flag {
            None => false,
            Some(Flag::Out) => {
                self.pending = Some(Flag::Out);
                true
            }
            Some(Flag::Top) => {
                self.pending = Some(Flag::Top);
                true
            }
            Some(Flag::Scale) => {
                self.pending = Some(Flag::Scale);
                true
            }
            Some(Flag::Title) => {
                let was = self.command.has_title;
                self.command.has_title = true;
                !was
            }
            Some(Flag::Capacitors) => {
                let was = self.command.choices.capacitors;
                self.command.choices.capacitors = true;
                !was
            }
            Some(Flag::Resistors) => {
                let was = self.command.choices.resistors;
                self.command.choices.resistors = true;
                !was
            }
        }
    }

    // Whether an option's value is kept, which had none before.
    fn keep(&mut self, alloc: Global, flag: Flag, value: &str) -> Result<bool, AllocError>
        ensures { IfOk result (λ ok. MatchBool ok
            (kept (words_seen self.old) flag value.now ≡ Some (words_seen self.new))
            (kept (words_seen self.old) flag value.now ≡ None)) }
    {
        if !is_value(value) {
            return Ok(false);
        }
        match flag {
            Flag::Out => self.keep_out(alloc, value),
            Flag::Top => self.keep_top(alloc, value),
            Flag::Scale => Ok(self.keep_scale(value)),
            Flag::Title => Ok(false),
            Flag::Capacitors => Ok(false),
            Flag::Resistors => Ok(false),
        }
    }

    fn keep_out(&mut self, alloc: Global, value: &str) -> Result<bool, AllocError>
        ensures { IfOk result (λ ok. MatchBool ok
            (with_out (words_seen self.old) value.now (words_seen self.old).asked.out
            ≡ Some (words_seen self.new))
            (with_out (words_seen self.old) value.now (words_seen self.old).asked.out ≡ None)) }
    {
        if self.command.out.is_some() {
            return Ok(false);
        }
        self.command.out = Some(String::from_str(alloc, value)?);
        self.pending = None;
        Ok(true)
    }

    fn keep_top(&mut self, alloc: Global, value: &str) -> Result<bool, AllocError>
        ensures { IfOk result (λ ok. MatchBool ok
            (with_top (words_seen self.old) value.now (words_seen self.old).asked.top
            ≡ Some (words_seen self.new))
            (with_top (words_seen self.old) value.now (words_seen self.old).asked.top ≡ None)) }
    {
        if self.command.top.is_some() {
            return Ok(false);
        }
        self.command.top = Some(String::from_str(alloc, value)?);
        self.pending = None;
        Ok(true)
    }

    fn keep_scale(&mut self, value: &str) -> bool
        ensures { MatchBool result
            (with_scale (words_seen self.old) (scale_of value.now)
            (words_seen self.old).asked.choices.scale ≡ Some (words_seen self.new))
            (with_scale (words_seen self.old) (scale_of value.now)
            (words_seen self.old).asked.choices.scale ≡ None) }
    {
        let Some(factor) = scale_of(value.as_bytes()) else {
            return false;
        };
        if self.command.choices.scale.is_some() {
            return false;
        }
        self.command.choices.scale = Some(factor);
        self.pending = None;
        true
    }

    fn push_input(&mut self, alloc: Global, word: &str) -> Result<(), AllocError>
        ensures { OnOk result (words_seen self.new ≡ with_input (words_seen self.old) word.now) }
    {
        self.command.inputs.push(String::from_str(alloc, word)?)?;
        Ok(())
    }

    // Takes an option, with a value behind `=` or without one.
    fn take_option(&mut self, alloc: Global, word: &str) -> Result<bool, AllocError>
        ensures { IfOk result (λ ok. MatchBool ok
            (with_option (words_seen self.old) word.now ≡ Some (words_seen self.new))
            (with_option (words_seen self.old) word.now ≡ None)) }
    {
        match parts(word) {
            None => Ok(self.set(flag_of(word))),
            Some((name, value)) => match flag_of(name) {
                None => Ok(false),
                Some(flag) => self.keep(alloc, flag, value),
            },
        }
    }

    // Takes a word, or answers false where it can't stand there.
    fn take(&mut self, alloc: Global, word: &str) -> Result<bool, AllocError>
        ensures { IfOk result (λ ok. MatchBool ok
            (with_word (words_seen self.old) word.now ≡ Some (words_seen self.new))
            (with_word (words_seen self.old) word.now ≡ None)) }
    {
        if let Some(flag) = self.pending {
            return self.keep(alloc, flag, word);
        }
        if !is_value(word) {
            return self.take_option(alloc, word);
        }
        self.push_input(alloc, word)?;
        Ok(true)
    }
}

// All words taken; none where one can't stand there.
fn read_words(alloc: Global, words: &[String]) -> Result<Option<Reading>, AllocError>
    ensures { IfOk result (λ r. option_map words_seen r
        ≡ with_words nothing (map string_bytes words.now)) }
{
    let mut reading = Reading::new(alloc);
    let mut rest = words;
    'words: while let [word, more @ ..] = rest {
        if !reading.take(alloc, word.as_str())? {
            return Ok(None);
        }
        rest = more;
    }
    Ok(Some(reading))
}

// What whole words ask for.
fn whole(reading: Option<Reading>) -> Option<Command>
    ensures asked { option_map asked_seen result ≡ whole (option_map words_seen reading) }
    ensures out { IfSome result (λ c. is_none (asked_seen c).out ≡ false) }
{
    let Some(Reading { command, pending }) = reading else {
        return None;
    };
    if pending.is_some() || command.inputs.is_empty() || command.out.is_none() {
        return None;
    }
    Some(command)
}

/// What the words ask for, or none where they ask for nothing: one input or more, `--out P`, and
/// each option at most once, in any order. Linear in the words.
pub fn read_command(alloc: Global, words: &[String]) -> Result<Option<Command>, AllocError>
    ensures asked { IfOk result (λ c. option_map asked_seen c
        ≡ asked (map string_bytes words.now)) }
    ensures out { IfOk result (λ c. IfSome c (λ x. is_none (asked_seen x).out ≡ false)) }
{
    let reading = read_words(alloc, words)?;
    Ok(whole(reading))
}
