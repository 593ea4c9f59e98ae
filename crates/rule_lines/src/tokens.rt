//! The tokens of a line of a rule file.

ghost use Rattle.std.specs.Prelude.{◌≡◌, ◌==◌, ◌<◌, ◌≤◌, ◌++◌, length, drop, IfOk, OnOk};
ghost use Rattle.std.specs.List.{prefix_len, position_or_len};
ghost use Rattle.rule_lines.specs.Tokens.{is_digit, is_small, is_word, is_mark, piece, text_until};
ghost use Rattle.rule_lines.specs.Tokens.{tokens_of};
ghost use Rattle.rule_lines.specs.Seen.{seen_all, seen_some};

use crate::lines::place_of;
use std::alloc::{AllocError, Global};

/// A token of a rule line. A word is a run of letters, digits and `_`; a text is what stands
/// between two quotes; an arrow is `=>`; bad is what begins no token, with the rest of its line.
#[derive(Clone, Copy)]
pub enum Token<'a> {
    Word(&'a [u8]),
    Text(&'a [u8]),
    Mark(u8),
    Arrow,
    Bad,
}

/// The tokens of a line, without blanks and comment. Linear in the line.
pub fn read_tokens(alloc: Global, line: &[u8]) -> Result<Vec<Token>, AllocError>
    ensures { IfOk result (λ found. seen_all found.items ≡ tokens_of line.now) }
{
    let mut out = Vec::new(alloc);
    let mut rest = line;
    while rest.len() > 0 {
        let width = take_piece(&mut out, rest)?;
        rest = &rest[width..];
    }
    Ok(out)
}

// Takes what stands at the front, and says how many bytes it has.
fn take_piece<'a>(out: &mut Vec<Token<'a>>, bytes: &'a [u8]) -> Result<usize, AllocError>
    requires { 0 < length bytes.now }
    ensures tokens { OnOk result (seen_all out.new.items ≡ seen_all out.old.items
        ++ (piece bytes.now).tokens) }
    ensures width { IfOk result (λ n. n ≡ (piece bytes.now).width) }
    ensures some { IfOk result (λ n. 0 < n) }
    ensures within { IfOk result (λ n. n ≤ length bytes.now) }
{
    let (token, width) = piece(bytes);
    if let Some(token) = token {
        out.push(token)?;
    }
    Ok(width)
}

fn piece(bytes: &[u8]) -> (Option<Token>, usize)
    requires { 0 < length bytes.now }
    ensures tokens { seen_some result.0 ≡ (piece bytes.now).tokens }
    ensures width { result.1 ≡ (piece bytes.now).width }
    ensures some { 0 < result.1 }
    ensures within { result.1 ≤ length bytes.now }
{
    let c = bytes[0];
    if c == b' ' || c == b'\t' {
        return (None, 1);
    }
    if c == b'#' {
        return (None, bytes.len());
    }
    if is_word(c) {
        let n = word_len(bytes);
        return (Some(Token::Word(&bytes[..n])), n);
    }
    if c == b'"' || c == b'\'' {
        return text(bytes, c);
    }
    if c == b'=' && bytes.len() > 1 && bytes[1] == b'>' {
        return (Some(Token::Arrow), 2);
    }
    if is_mark(c) {
        return (Some(Token::Mark(c)), 1);
    }
    (Some(Token::Bad), bytes.len())
}

fn text(bytes: &[u8], quote: u8) -> (Option<Token>, usize)
    requires { 0 < length bytes.now }
    ensures tokens { seen_some result.0
        ≡ (text_until (position_or_len (λ b. b == quote) (drop 1 bytes.now))
        (drop 1 bytes.now)).tokens }
    ensures width { result.1 ≡ (text_until (position_or_len (λ b. b == quote) (drop 1 bytes.now))
        (drop 1 bytes.now)).width }
    ensures some { 0 < result.1 }
    ensures within { result.1 ≤ length bytes.now }
{
    let inner = &bytes[1..];
    let n = place_of(inner, quote);
    if n < inner.len() {
        (Some(Token::Text(&inner[..n])), n + 2)
    } else {
        (Some(Token::Bad), bytes.len())
    }
}

fn word_len(bytes: &[u8]) -> usize
    ensures len { result ≡ prefix_len is_word bytes.now }
    ensures within { result ≤ length bytes.now }
{
    let mut n = 0;
    while n < bytes.len() && is_word(bytes[n]) {
        n += 1;
    }
    n
}

/// Whether a byte is a digit.
pub fn is_digit(b: u8) -> bool
    ensures { result ≡ is_digit b }
{
    b >= b'0' && b <= b'9'
}

/// Whether a name may begin with this byte: a small letter or `_`.
pub fn is_small(b: u8) -> bool
    ensures { result ≡ is_small b }
{
    b.is_ascii_lowercase() || b == b'_'
}

fn is_word(b: u8) -> bool
    ensures { result ≡ is_word b }
{
    is_digit(b) || is_small(b) || b.is_ascii_uppercase()
}

fn is_mark(b: u8) -> bool
    ensures { result ≡ is_mark b }
{
    matches!(
        b,
        b'&' | b'(' | b')' | b',' | b'-' | b'.' | b'=' | b'^' | b'{' | b'|' | b'}'
    )
}
