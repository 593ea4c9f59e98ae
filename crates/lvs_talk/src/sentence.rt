//! Sentences: a pattern, and the words that stand in it.

use std::alloc::AllocError;

/// A line for people: the words stand at the marks `@` of the pattern, in their order. An empty
/// pattern is no line.
#[derive(Clone, Copy)]
pub struct Sentence<'a> {
    pub pattern: &'static str,
    pub one: &'a str,
    pub two: &'a str,
    pub three: &'a str,
}

/// A sentence of at most three words.
pub fn says<'a>(pattern: &'static str, one: &'a str, two: &'a str, three: &'a str) -> Sentence<'a> {
    Sentence {
        pattern,
        one,
        two,
        three,
    }
}

/// No sentence.
pub const NONE: Sentence<'static> = Sentence {
    pattern: "",
    one: "",
    two: "",
    three: "",
};

/// Adds a sentence, and the line's end.
pub fn say(out: &mut String, sentence: &Sentence<'_>) -> Result<(), AllocError> {
    if sentence.pattern.is_empty() {
        return Ok(());
    }
    let words = [sentence.one, sentence.two, sentence.three];
    let mut more = words.iter();
    for part in sentence.pattern.split('@') {
        out.push_str(part)?;
        if let Some(word) = more.next() {
            out.push_str(word)?;
        }
    }
    out.push_str("\n")
}
