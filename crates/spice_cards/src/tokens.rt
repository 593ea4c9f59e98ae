//! The tokens of a card: words, and each `=` that isn't escaped.

ghost use Rattle.std.specs.Prelude.{◌≡◌, ◌≤◌, ◌<◌, ◌++◌, false, length, IfOk, OnOk};
ghost use Rattle.spice_cards.specs.Tokens.{is_blank, goes_on, run, word_len, piece, tokens_of};
ghost use Rattle.spice_cards.specs.Seen.{tokens_seen, some_seen};

use std::alloc::AllocError;

/// A token of a card: bytes as they stand, or an `=` that isn't escaped.
#[derive(Clone, Copy)]
pub enum Token<'a> {
    Word(&'a [u8]),
    Equals,
}

pub fn is_blank(b: u8) -> bool
    ensures { result ≡ is_blank b }
{
    b == b' ' || b == b'\t'
}

// Whether a byte goes on with a word; `escaped` tells whether it stands behind a backslash that
// begins an escape.
fn goes_on(escaped: bool, b: u8) -> bool
    ensures { result ≡ goes_on escaped b }
{
    !is_blank(b) && (escaped || b != b'=')
}

fn word_len(bytes: &[u8]) -> usize
    ensures len { result ≡ word_len bytes.now }
    ensures within { result ≤ length bytes.now }
{
    let mut n = 0;
    let mut escaped = false;
    let mut rest = bytes;
    'bytes: while let [b, more @ ..] = rest {
        if !goes_on(escaped, *b) {
            return n;
        }
        escaped = !escaped && *b == b'\\';
        n += 1;
        rest = more;
    }
    n
}

fn piece(bytes: &[u8]) -> (Option<Token>, usize)
    requires { 0 < length bytes.now }
    ensures tokens { some_seen result.0 ≡ (piece bytes.now).tokens }
    ensures width { result.1 ≡ (piece bytes.now).width }
    ensures some { 0 < result.1 }
    ensures within { result.1 ≤ length bytes.now }
{
    if is_blank(bytes[0]) {
        return (None, 1);
    }
    if bytes[0] == b'=' {
        return (Some(Token::Equals), 1);
    }
    let n = word_len(bytes);
    (Some(Token::Word(&bytes[..n])), n)
}

// Takes what stands at the front, and says how many bytes it has.
fn take_piece<'a>(out: &mut Vec<Token<'a>>, bytes: &'a [u8]) -> Result<usize, AllocError>
    requires { 0 < length bytes.now }
    ensures tokens { OnOk result
        (tokens_seen out.new.items ≡ tokens_seen out.old.items ++ (piece bytes.now).tokens) }
    ensures width { IfOk result (λ n. n ≡ (piece bytes.now).width) }
    ensures some { IfOk result (λ n. 0 < n) }
    ensures within { IfOk result (λ n. n ≤ length bytes.now) }
{
    let (token, width) = piece(bytes);
    if let Some(token) = token {
        out.push(token)?;
    }
    Ok(width)
}

/// Takes the tokens of a line. Linear in the line.
pub fn take_tokens<'a>(out: &mut Vec<Token<'a>>, line: &'a [u8]) -> Result<(), AllocError>
    ensures { OnOk result
        (tokens_seen out.new.items ≡ tokens_seen out.old.items ++ tokens_of line.now) }
{
    let mut rest = line;
    while rest.len() > 0 {
        let width = take_piece(out, rest)?;
        rest = &rest[width..];
    }
    Ok(())
}
