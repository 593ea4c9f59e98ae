//! The tokens of a script.

ghost use Rattle.std.specs.Prelude.{◌≡◌, ◌<◌, ◌≤◌, ◌+◌, ◌++◌, length, drop, IfOk, OnOk, true};
ghost use Rattle.std.specs.List.{prefix_len, list_any};
ghost use Rattle.script_lexis.specs.Bytes.{first, second, third, is_figure, is_digit, is_letter};
ghost use Rattle.script_lexis.specs.Bytes.{is_word};
ghost use Rattle.script_lexis.specs.Signs.{pair_sign};
ghost use Rattle.script_lexis.specs.Tokens.{fraction_len, is_colon, is_either_assign, is_mixing};
ghost use Rattle.script_lexis.specs.Tokens.{is_spacing, joining_piece, mark_len, mark_piece};
ghost use Rattle.script_lexis.specs.Tokens.{name_piece};
ghost use Rattle.script_lexis.specs.Tokens.{pair_piece, piece, placed_of, power_len, sign_piece};
ghost use Rattle.script_lexis.specs.Tokens.{symbol_piece, text_of, text_piece, variable_piece};
ghost use Rattle.script_lexis.specs.Tokens.{with_fraction, with_place};
ghost use Rattle.script_lexis.specs.Texts.{text_len};
ghost use Rattle.script_lexis.specs.declared.widths.Inside.TheVariants.{Plain};
ghost use Rattle.script_lexis.specs.Seen.{seen_all, seen_some};

use crate::signs::{Sign, is_beyond, pair_sign, single_sign};
use crate::widths::{figures_len, is_digit, is_letter, line_len, text_len, word_len};
use std::alloc::{AllocError, Global};

/// A token of a script. A name may have one `?` or `!` at its end; a label is a name or a plain
/// text that one `:` follows at once; a symbol stands behind `:`, a variable behind `$` or `@`; a
/// text is what stands between two quotes, plain where it has no backslash and no `#`, else mixed,
/// with its quotes; an end is a line's; bad is what begins no token, with all behind it.
#[derive(Clone, Copy)]
pub enum Token<'a> {
    Name(&'a [u8]),
    Label(&'a [u8]),
    Symbol(&'a [u8]),
    Variable(&'a [u8]),
    Number(&'a [u8]),
    Text(&'a [u8]),
    Mixed(&'a [u8]),
    Sign(Sign),
    End,
    Bad,
}

/// A token, the offset of its first byte, and whether blanks or a line's end stand right before it.
#[derive(Clone, Copy)]
pub struct Placed<'a> {
    pub at: usize,
    pub spaced: bool,
    pub token: Token<'a>,
}

/// The tokens of a script, each with its offset. Linear in the bytes.
pub fn read_script(alloc: Global, bytes: &[u8]) -> Result<Vec<Placed>, AllocError>
    ensures { IfOk result (λ found. seen_all found.items ≡ placed_of bytes.now) }
{
    let mut out = Vec::new(alloc);
    let mut at = 0;
    let mut spaced = true;
    let mut rest = bytes;
    while rest.len() > 0 {
        let (width, spacing) = take_piece(&mut out, at, spaced, rest)?;
        at += width;
        spaced = spacing;
        rest = &rest[width..];
    }
    Ok(out)
}

fn is_spacing(token: &Option<Token>) -> bool
    ensures { result ≡ is_spacing (seen_some token.now) }
{
    matches!(token, None | Some(Token::End))
}

// Takes what stands at the front, and says how many bytes it has and whether it spaces what
// follows.
fn take_piece<'a>(
    out: &mut Vec<Placed<'a>>,
    at: usize,
    spaced: bool,
    bytes: &'a [u8],
) -> Result<(usize, bool), AllocError>
    requires { 0 < length bytes.now }
    ensures tokens { OnOk result (seen_all out.new.items ≡ seen_all out.old.items
        ++ with_place at spaced (piece bytes.now).tokens) }
    ensures width { IfOk result (λ r. r.0 ≡ (piece bytes.now).width) }
    ensures spacing { IfOk result (λ r. r.1 ≡ is_spacing (piece bytes.now).tokens) }
    ensures some { IfOk result (λ r. 0 < r.0) }
    ensures within { IfOk result (λ r. r.0 ≤ length bytes.now) }
{
    let (token, width) = piece(bytes);
    let spacing = is_spacing(&token);
    if let Some(token) = token {
        out.push(Placed { at, spaced, token })?;
    }
    Ok((width, spacing))
}

pub fn first(bytes: &[u8]) -> u8
    ensures { result ≡ first bytes.now }
{
    match bytes {
        [c, ..] => *c,
        [] => 0,
    }
}

fn second(bytes: &[u8]) -> u8
    ensures { result ≡ second bytes.now }
{
    match bytes {
        [_, c, ..] => *c,
        _ => 0,
    }
}

fn third(bytes: &[u8]) -> u8
    ensures { result ≡ third bytes.now }
{
    match bytes {
        [_, _, c, ..] => *c,
        _ => 0,
    }
}

fn piece(bytes: &[u8]) -> (Option<Token>, usize)
    requires { 0 < length bytes.now }
    ensures tokens { seen_some result.0 ≡ (piece bytes.now).tokens }
    ensures width { result.1 ≡ (piece bytes.now).width }
    ensures some { 0 < result.1 }
    ensures within { result.1 ≤ length bytes.now }
{
    let c = first(bytes);
    if c == b' ' || c == b'\t' {
        return (None, 1);
    }
    if c == b'\n' {
        return (Some(Token::End), 1);
    }
    if c == b'\r' && second(bytes) == b'\n' {
        return (Some(Token::End), 2);
    }
    if c == b'\\' {
        return joining(bytes);
    }
    if c == b'#' {
        return (None, line_len(bytes));
    }
    if is_letter(c) {
        return name(bytes);
    }
    if is_digit(c) {
        return number(bytes);
    }
    if c == b'"' || c == b'\'' {
        return text(bytes, c);
    }
    if c == b'$' || c == b'@' {
        return variable(bytes);
    }
    mark(bytes)
}

fn joining(bytes: &[u8]) -> (Option<Token>, usize)
    requires { 0 < length bytes.now }
    ensures tokens { seen_some result.0 ≡ (joining_piece bytes.now).tokens }
    ensures width { result.1 ≡ (joining_piece bytes.now).width }
    ensures some { 0 < result.1 }
    ensures within { result.1 ≤ length bytes.now }
{
    match bytes {
        [_, b'\n', ..] => (None, 2),
        [_, b'\r', b'\n', ..] => (None, 3),
        _ => (Some(Token::Bad), bytes.len()),
    }
}

fn mark_len(behind: &[u8]) -> usize
    ensures len { result ≡ mark_len behind.now }
    ensures within { result ≤ length behind.now }
{
    match behind {
        [b'?' | b'!', b'=', ..] => 0,
        [b'?' | b'!', ..] => 1,
        _ => 0,
    }
}

fn is_colon(behind: &[u8]) -> bool
    ensures { result ≡ is_colon behind.now }
{
    first(behind) == b':' && second(behind) != b':'
}

fn name(bytes: &[u8]) -> (Option<Token>, usize)
    requires { is_letter (first bytes.now) ≡ true }
    ensures tokens { seen_some result.0
        ≡ (name_piece (prefix_len is_word bytes.now) bytes.now).tokens }
    ensures width { result.1 ≡ (name_piece (prefix_len is_word bytes.now) bytes.now).width }
    ensures some { 0 < result.1 }
    ensures within { result.1 ≤ length bytes.now }
{
    let n = word_len(bytes);
    if is_colon(&bytes[n..]) {
        return (Some(Token::Label(&bytes[..n])), n + 1);
    }
    let width = n + mark_len(&bytes[n..]);
    (Some(Token::Name(&bytes[..width])), width)
}

fn fraction_len(behind: &[u8]) -> usize
    ensures len { result ≡ fraction_len behind.now }
    ensures within { result ≤ length behind.now }
{
    if first(behind) == b'.' && is_digit(second(behind)) {
        1 + figures_len(&behind[1..])
    } else {
        0
    }
}

fn power_len(behind: &[u8]) -> usize
    ensures len { result ≡ power_len behind.now }
    ensures within { result ≤ length behind.now }
{
    if first(behind) != b'e' && first(behind) != b'E' {
        return 0;
    }
    if is_digit(second(behind)) {
        return 1 + figures_len(&behind[1..]);
    }
    if (second(behind) == b'+' || second(behind) == b'-') && is_digit(third(behind)) {
        return 2 + figures_len(&behind[2..]);
    }
    0
}

fn number(bytes: &[u8]) -> (Option<Token>, usize)
    requires { is_digit (first bytes.now) ≡ true }
    ensures tokens { seen_some result.0
        ≡ (with_fraction (prefix_len is_figure bytes.now) bytes.now).tokens }
    ensures width { result.1 ≡ (with_fraction (prefix_len is_figure bytes.now) bytes.now).width }
    ensures some { 0 < result.1 }
    ensures within { result.1 ≤ length bytes.now }
{
    let whole = figures_len(bytes);
    let n = whole + fraction_len(&bytes[whole..]);
    let width = n + power_len(&bytes[n..]);
    if is_letter(first(&bytes[width..])) {
        return (Some(Token::Bad), bytes.len());
    }
    (Some(Token::Number(&bytes[..width])), width)
}

fn is_mixed(inner: &[u8]) -> bool
    ensures { result ≡ list_any is_mixing inner.now }
{
    inner.iter().any(|b| *b == b'\\' || *b == b'#')
}

// A text with n bytes behind its first quote, its last one among them.
fn text_of(bytes: &[u8], n: usize) -> (Option<Token>, usize)
    requires some { 1 ≤ n }
    requires within { n < length bytes.now }
    ensures tokens { seen_some result.0 ≡ (text_of n bytes.now).tokens }
    ensures width { result.1 ≡ (text_of n bytes.now).width }
    ensures some { 0 < result.1 }
    ensures within { result.1 ≤ length bytes.now }
{
    let inner = &bytes[1..n];
    if is_mixed(inner) {
        return (Some(Token::Mixed(&bytes[..n + 1])), n + 1);
    }
    if is_colon(&bytes[n + 1..]) {
        return (Some(Token::Label(inner)), n + 2);
    }
    (Some(Token::Text(inner)), n + 1)
}

fn text(bytes: &[u8], quote: u8) -> (Option<Token>, usize)
    requires { 0 < length bytes.now }
    ensures tokens { seen_some result.0
        ≡ (text_piece (text_len quote Plain 0 (drop 1 bytes.now)) bytes.now).tokens }
    ensures width { result.1
        ≡ (text_piece (text_len quote Plain 0 (drop 1 bytes.now)) bytes.now).width }
    ensures some { 0 < result.1 }
    ensures within { result.1 ≤ length bytes.now }
{
    match text_len(quote, &bytes[1..]) {
        None => (Some(Token::Bad), bytes.len()),
        Some(n) => text_of(bytes, n),
    }
}

fn variable(bytes: &[u8]) -> (Option<Token>, usize)
    requires { 0 < length bytes.now }
    ensures tokens { seen_some result.0
        ≡ (variable_piece (prefix_len is_word (drop 1 bytes.now)) bytes.now).tokens }
    ensures width { result.1
        ≡ (variable_piece (prefix_len is_word (drop 1 bytes.now)) bytes.now).width }
    ensures some { 0 < result.1 }
    ensures within { result.1 ≤ length bytes.now }
{
    if !is_letter(second(bytes)) {
        return (Some(Token::Bad), bytes.len());
    }
    let n = word_len(&bytes[1..]);
    (Some(Token::Variable(&bytes[..n + 1])), n + 1)
}

fn symbol(bytes: &[u8]) -> (Option<Token>, usize)
    requires { 0 < length bytes.now }
    ensures tokens { seen_some result.0
        ≡ (symbol_piece (prefix_len is_word (drop 1 bytes.now)) bytes.now).tokens }
    ensures width { result.1
        ≡ (symbol_piece (prefix_len is_word (drop 1 bytes.now)) bytes.now).width }
    ensures some { 0 < result.1 }
    ensures within { result.1 ≤ length bytes.now }
{
    let n = word_len(&bytes[1..]);
    (Some(Token::Symbol(&bytes[1..n + 1])), n + 1)
}

fn is_either_assign(bytes: &[u8]) -> bool
    ensures { result ≡ is_either_assign bytes.now }
{
    first(bytes) == b'|' && second(bytes) == b'|' && third(bytes) == b'='
}

fn pair_or_single(bytes: &[u8]) -> (Option<Token>, usize)
    requires { 0 < length bytes.now }
    ensures tokens { seen_some result.0
        ≡ (pair_piece (pair_sign (first bytes.now) (second bytes.now)) bytes.now).tokens }
    ensures width { result.1
        ≡ (pair_piece (pair_sign (first bytes.now) (second bytes.now)) bytes.now).width }
    ensures some { 0 < result.1 }
    ensures within { result.1 ≤ length bytes.now }
{
    if let Some(sign) = pair_sign(first(bytes), second(bytes)) {
        return (Some(Token::Sign(sign)), 2);
    }
    if let Some(sign) = single_sign(first(bytes)) {
        return (Some(Token::Sign(sign)), 1);
    }
    (Some(Token::Bad), bytes.len())
}

fn sign(bytes: &[u8]) -> (Option<Token>, usize)
    requires { 0 < length bytes.now }
    ensures tokens { seen_some result.0 ≡ (sign_piece bytes.now).tokens }
    ensures width { result.1 ≡ (sign_piece bytes.now).width }
    ensures some { 0 < result.1 }
    ensures within { result.1 ≤ length bytes.now }
{
    if is_beyond(first(bytes), second(bytes)) {
        return (Some(Token::Bad), bytes.len());
    }
    if is_either_assign(bytes) {
        return (Some(Token::Sign(Sign::EitherAssign)), 3);
    }
    pair_or_single(bytes)
}

fn mark(bytes: &[u8]) -> (Option<Token>, usize)
    requires { 0 < length bytes.now }
    ensures tokens { seen_some result.0 ≡ (mark_piece bytes.now).tokens }
    ensures width { result.1 ≡ (mark_piece bytes.now).width }
    ensures some { 0 < result.1 }
    ensures within { result.1 ≤ length bytes.now }
{
    if first(bytes) == b':' && is_letter(second(bytes)) {
        return symbol(bytes);
    }
    sign(bytes)
}
