//! The lines of a script: those that go on, where a byte stands, and the comments that bring
//! another file in.

ghost use Rattle.std.specs.Prelude.{◌≡◌, ◌≤◌, ◌+◌, ◌++◌, ◌<◌, ◌^◌, length, drop, true, IfOk, Some};
ghost use Rattle.std.specs.List.{prefix_len};
ghost use Rattle.script_lexis.specs.Bytes.{is_blank};
ghost use Rattle.script_lexis.specs.Lines.{behind_blanks, first_including, goes_on, is_closing};
ghost use Rattle.script_lexis.specs.Lines.{is_end, is_include, is_including, is_joining_word};
ghost use Rattle.script_lexis.specs.Lines.{is_leading, joined_of, leads, position_of};
ghost use Rattle.script_lexis.specs.Seen.{placed, seen, seen_all};

use crate::signs::Sign;
use crate::tokens::{Placed, Token, first};
use crate::widths::is_word;
use std::alloc::{AllocError, Global};

fn is_joining_word(word: &[u8]) -> bool
    ensures { result ≡ is_joining_word word.now }
{
    word == b"and".as_slice() || word == b"or".as_slice() || word == b"not".as_slice()
}

fn is_closing(sign: Sign) -> bool
    ensures { result ≡ is_closing sign }
{
    matches!(sign, Sign::Close | Sign::CloseSquare | Sign::CloseBrace)
}

fn goes_on(token: &Token) -> bool
    ensures { result ≡ goes_on (seen token.now) }
{
    match token {
        Token::Name(word) => is_joining_word(word),
        Token::Label(_) => true,
        Token::Sign(sign) => !is_closing(*sign) && !matches!(sign, Sign::Semicolon),
        _ => false,
    }
}

fn is_leading(token: &Token) -> bool
    ensures { result ≡ is_leading (seen token.now) }
{
    match token {
        Token::Sign(sign) => matches!(sign, Sign::Point) || is_closing(*sign),
        _ => false,
    }
}

fn is_end(token: &Token) -> bool
    ensures { result ≡ is_end (seen token.now) }
{
    matches!(token, Token::End)
}

fn leads(tokens: &[Placed]) -> bool
    ensures { result ≡ leads (seen_all tokens.now) }
{
    let mut rest = tokens;
    'rest: while let [placed, more @ ..] = rest {
        if !is_end(&placed.token) {
            return is_leading(&placed.token);
        }
        rest = more;
    }
    false
}

/// The tokens without the ends of lines that end nothing: behind a sign that wants more, behind
/// `and`, `or`, `not`, before `.` and closing brackets, and those of empty lines. Linear.
pub fn join_lines<'a>(alloc: Global, tokens: &[Placed<'a>]) -> Result<Vec<Placed<'a>>, AllocError>
    ensures { IfOk result (λ found. seen_all found.items ≡ joined_of (seen_all tokens.now)) }
{
    let mut out = Vec::new(alloc);
    let mut is_open = true;
    let mut rest = tokens;
    'rest: while let [placed, more @ ..] = rest {
        let ends = is_end(&placed.token);
        if !ends || !is_open && !leads(more) {
            out.push(*placed)?;
        }
        is_open = ends || goes_on(&placed.token);
        rest = more;
    }
    Ok(out)
}

/// A line and a column of it, in bytes, each from 1.
#[derive(Clone, Copy, Debug, PartialEq, Eq)]
pub struct Position {
    pub line: usize,
    pub column: usize,
}

/// The line and the column of an offset. Linear in the offset.
pub fn position_of(bytes: &[u8], at: usize) -> Position
    requires { at ≤ length bytes.now }
    ensures line { result.line ≡ (position_of bytes.now at).line }
    ensures column { result.column ≡ (position_of bytes.now at).column }
{
    let mut line = 1;
    let mut column = 1;
    let mut rest = &bytes[..at];
    'rest: while let [b, more @ ..] = rest {
        if *b == b'\n' {
            line += 1;
            column = 1;
        } else {
            column += 1;
        }
        rest = more;
    }
    Position { line, column }
}

fn is_blank(b: u8) -> bool
    ensures { result ≡ is_blank b }
{
    b == b' ' || b == b'\t'
}

fn blanks_len(bytes: &[u8]) -> usize
    ensures len { result ≡ prefix_len is_blank bytes.now }
    ensures within { result ≤ length bytes.now }
{
    let mut n = 0;
    while n < bytes.len() && is_blank(bytes[n]) {
        n += 1;
    }
    n
}

fn is_include(bytes: &[u8]) -> bool
    ensures { result ≡ is_include bytes.now }
{
    match bytes.strip_prefix(b"%include".as_slice()) {
        Some(behind) => !is_word(first(behind)),
        None => false,
    }
}

fn is_including(line: &[u8]) -> bool
    ensures { result ≡ is_including line.now }
{
    match line {
        [b'#', behind @ ..] => is_include(&behind[blanks_len(behind)..]),
        _ => false,
    }
}

/// Where the first comment begins that brings another file in: `# %include` alone on its line.
/// Linear.
pub fn first_including(bytes: &[u8]) -> Option<usize>
    ensures { result ≡ first_including bytes.now }
{
    let mut at = 0;
    let mut fresh = true;
    let mut rest = bytes;
    'rest: while let [b, more @ ..] = rest {
        if fresh {
            let blanks = blanks_len(rest);
            if is_including(&rest[blanks..]) {
                return Some(at + blanks);
            }
        }
        at += 1;
        fresh = *b == b'\n';
        rest = more;
    }
    None
}
