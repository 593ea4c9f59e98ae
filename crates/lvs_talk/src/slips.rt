//! What is wrong with words that state no command.

use crate::sentence::{NONE, Sentence, says};
use crate::table::{CHOICES, Choice, choice_of, command_of, is_listed, near_choice, near_command};

// What was read of the words of a command so far: nothing is begun, the value of an option is to
// come, or what is wrong.
#[derive(Clone, Copy)]
enum State<'a> {
    Between,
    Behind(&'static str),
    Wrong(Sentence<'a>),
}

/// Whether a word spells an option, by itself or with its value.
pub fn spells(word: &str, name: &str) -> bool {
    match word.strip_prefix(name) {
        Some(rest) => rest.is_empty() || rest.starts_with('='),
        None => false,
    }
}

fn is_number(word: &str, low: u64, high: u64) -> bool {
    if word.starts_with('+') {
        return false;
    }
    match word.parse::<u64>() {
        Ok(number) => low <= number && number <= high,
        Err(_) => false,
    }
}

// Of a path that stands by itself.
fn path_slip(word: &str) -> Option<Sentence<'_>> {
    if word.is_empty() {
        return Some(says("lvs: a path is empty", "", "", ""));
    }
    if word.starts_with('-') {
        let pattern = "lvs: `@` begins with `-`, as options do; a file of this name is written ./@";
        return Some(says(pattern, word, word, ""));
    }
    None
}

// Of an option's value.
fn value_slip<'a>(name: &'static str, value: &'a str) -> State<'a> {
    if value.is_empty() {
        return State::Wrong(says("lvs: `@` has no value behind it", name, "", ""));
    }
    if value.starts_with('-') {
        let pattern = "lvs: `@` has no value behind it but `@`; a file of this name is written ./@";
        return State::Wrong(says(pattern, name, value, value));
    }
    if name == "--workers" && !is_number(value, 1, 64) {
        let pattern = "lvs: `--workers` is a number from 1 to 64, and not `@`";
        return State::Wrong(says(pattern, value, "", ""));
    }
    State::Between
}

const STRANGER: &str =
    "lvs: `@` stands behind no option of `@`, and not each file's ending says what it is";

// Of a word that is no option of the command and no option's value.
fn stranger<'a>(command: &'static str, word: &'a str) -> State<'a> {
    if command == "netlist" && !word.starts_with('-') {
        return State::Between;
    }
    let sentence = match near_choice(command, word) {
        Some(name) => says(
            "lvs: `@` has no option `@`; is `@` meant?",
            command,
            word,
            name,
        ),
        None if word.starts_with('-') => says("lvs: `@` has no option `@`", command, word, ""),
        None => says(STRANGER, word, command, ""),
    };
    State::Wrong(sentence)
}

// What a word begins.
fn begun<'a>(command: &'static str, word: &'a str) -> State<'a> {
    let (name, value) = match word.split_once('=') {
        Some((name, value)) => (name, Some(value)),
        None => (word, None),
    };
    let Some(choice) = choice_of(command, name) else {
        return stranger(command, name);
    };
    match value {
        _ if choice.value.is_empty() => State::Between,
        Some(value) => value_slip(choice.name, value),
        None => State::Behind(choice.name),
    }
}

fn read_on<'a>(command: &'static str, state: State<'a>, word: &'a str) -> State<'a> {
    match state {
        State::Between => begun(command, word),
        State::Behind(name) => value_slip(name, word),
        State::Wrong(_) => state,
    }
}

fn times(words: &[String], name: &str) -> usize {
    let mut count: usize = 0;
    for word in words.iter() {
        if spells(word.as_str(), name) {
            count = count.saturating_add(1);
        }
    }
    count
}

// What is wrong with how often an option stands among the words of a command.
fn count_slip<'a>(
    command: &'static str,
    words: &[String],
    choice: &'static Choice,
) -> Sentence<'a> {
    let count = times(words, choice.name);
    if count > 1 {
        return says("lvs: `@` stands twice", choice.name, "", "");
    }
    if count == 0 && is_listed(choice.needers, command) {
        return says("lvs: `@` lacks `@ P`: @", command, choice.name, choice.text);
    }
    NONE
}

// Of words that are options with their values, each by itself.
fn list_slip<'a>(command: &'static str, words: &'a [String]) -> Sentence<'a> {
    for choice in CHOICES.iter() {
        let slip = count_slip(command, words, choice);
        if !slip.pattern.is_empty() {
            return slip;
        }
    }
    NONE
}

// Of the words of a command that takes options.
fn option_slip<'a>(command: &'static str, words: &'a [String]) -> Sentence<'a> {
    let mut state = State::Between;
    for word in words.iter() {
        state = read_on(command, state, word.as_str());
    }
    match state {
        State::Wrong(sentence) => sentence,
        State::Behind(name) => says("lvs: `@` has no value behind it", name, "", ""),
        State::Between => list_slip(command, words),
    }
}

const OTHER_WORDS: &str = "lvs: `@` takes other words than these";

fn shapes_slip(words: &[String]) -> Sentence<'_> {
    let [layout, rules, shapes] = words else {
        return says(OTHER_WORDS, "shapes", "", "");
    };
    path_slip(layout.as_str())
        .or(path_slip(rules.as_str()))
        .or(path_slip(shapes.as_str()))
        .unwrap_or(says(OTHER_WORDS, "shapes", "", ""))
}

fn make_slip(words: &[String]) -> Sentence<'_> {
    let [n, seed, workers, prefix] = words else {
        return says(OTHER_WORDS, "make", "", "");
    };
    if !is_number(n.as_str(), 1, 100_000) {
        return says(
            "lvs: N is a number from 1 to 100000, and not `@`",
            n.as_str(),
            "",
            "",
        );
    }
    if !is_number(seed.as_str(), 0, u64::MAX) {
        return says(
            "lvs: SEED is a number below 2^64, and not `@`",
            seed.as_str(),
            "",
            "",
        );
    }
    if !is_number(workers.as_str(), 1, 64) {
        return says(
            "lvs: WORKERS is a number from 1 to 64, and not `@`",
            workers.as_str(),
            "",
            "",
        );
    }
    match path_slip(prefix.as_str()) {
        Some(sentence) => sentence,
        None => says(OTHER_WORDS, "make", "", ""),
    }
}

// Of a first word that is no command.
fn command_slip(word: &str) -> Sentence<'_> {
    if let Some(name) = near_command(word) {
        return says(
            "lvs: there is no command `@`; is `@` meant?",
            word,
            name,
            "",
        );
    }
    if word.starts_with('-') || word.contains('.') || word.contains('/') {
        return says(
            "lvs: the command stands first, and not `@`; `lvs help` lists the commands",
            word,
            "",
            "",
        );
    }
    says(
        "lvs: there is no command `@`; `lvs help` lists the commands",
        word,
        "",
        "",
    )
}

// Of the words of a command that takes options, or names files by themselves.
fn listed_slip<'a>(command: &'static str, words: &'a [String]) -> Sentence<'a> {
    let slip = option_slip(command, words);
    if slip.pattern.is_empty() {
        return says("lvs: `@` names no file to read", command, "", "");
    }
    slip
}

/// Whether something is wrong with the words of a run that names its files.
pub fn has_slip(words: &[String]) -> bool {
    let [first, more @ ..] = words else {
        return true;
    };
    match command_of(first.as_str()) {
        None => true,
        Some(command) if command.name == "shapes" => more.len() != 3,
        Some(command) => !option_slip(command.name, more).pattern.is_empty(),
    }
}

/// What is wrong with words that were refused. A pass over the words for each option.
pub fn slip_of(words: &[String]) -> Sentence<'_> {
    let [first, more @ ..] = words else {
        return says(
            "lvs: there is no command; `lvs help` lists the commands",
            "",
            "",
            "",
        );
    };
    match command_of(first.as_str()) {
        None => command_slip(first.as_str()),
        Some(command) if command.name == "shapes" => shapes_slip(more),
        Some(command) if command.name == "make" => make_slip(more),
        Some(command) => listed_slip(command.name, more),
    }
}
