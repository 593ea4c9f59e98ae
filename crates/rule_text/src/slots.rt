//! Slots: what may stand at each place of a statement, and what stands there.

ghost use Rattle.std.specs.Prelude.{◌≡◌, true, ◌≤◌, ◌<◌, ◌^◌, is_some, unwrap_or, length, IfSome};
ghost use Rattle.std.specs.List.{list_all, list_any};
ghost use Rattle.std.specs.Str.{bytes_eq};
ghost use Rattle.geo_base.specs.Layers.{IsStreamKey};
ghost use Rattle.rule_lines.specs.Seen.{seen, seen_all};
ghost use Rattle.rule_text.specs.Rows.{is_name, is_statement_word, number_of, layer_of, guesses_of};
ghost use Rattle.rule_text.specs.Rows.{size_of, size_at, spelled, area_of, is_bound, area_at};
ghost use Rattle.rule_text.specs.Rows.{is_digits, is_printable, is_string, is_wild, is_operator};
ghost use Rattle.rule_text.specs.Rows.{fits_slot, fits};
ghost use Rattle.rule_text.specs.Rows.{word_at, sign_at, layer_at, key_at};
ghost use Rattle.rule_text.specs.Seen.{slot as slot_seen, slots as slots_seen, words as words_seen};
ghost use Rattle.rule_text.specs.Filled.{AreFilled};

use geo_base::LayerKey;
use rule_lines::{Token, is_digit, is_small};

/// What may stand at a place of a row: a name that may be defined, a name, a layer number, a number
/// of guesses, a size, an area, an area or nil, digits, a string, a string that is no pattern, an
/// operator, a given word or sign, or `=>`.
#[derive(Clone, Copy)]
pub enum Slot<'a> {
    Fresh,
    Name,
    Layer,
    Guesses,
    Size,
    Area,
    Bound,
    Digits,
    Quoted,
    Exact,
    Operator,
    Key(&'a [u8]),
    Sign(u8),
    Maps,
}

pub fn is_name(word: &[u8]) -> bool
    ensures { result ≡ is_name word.now }
{
    match word {
        [first, ..] => is_small(*first) && word.len() <= 64,
        [] => false,
    }
}

pub fn is_among(word: &[u8], known: &[&[u8]]) -> bool
    ensures { result ≡ list_any (bytes_eq word.now) (words_seen known.now) }
{
    match known {
        [] => false,
        [first, rest @ ..] => word == *first || is_among(word, rest),
    }
}

#[tactic(auto, unfolding(crate::specs::Rows::is_statement_word))]
pub fn is_statement_word(word: &[u8]) -> bool
    ensures { result ≡ is_statement_word word.now }
{
    is_among(
        word,
        &[
            b"connect",
            b"connect_global",
            b"extract_devices",
            b"same_circuits",
            b"max_guesses",
            b"flatten_unmatched",
            b"same_pins",
            b"keep_covered",
            b"combine_devices",
            b"deep",
            b"netlist",
            b"align",
            b"compare",
            b"schematic",
            b"input",
            b"labels",
            b"polygon_layer",
            b"output",
            b"mos4",
            b"resistor_with_bulk",
            b"diode",
        ],
    )
}

// The number that so many digits at most spell, where it is at most the limit.
fn spelled(most: usize, limit: u64, word: &[u8]) -> Option<u64>
    requires { limit < 2 ^ 60 }
    ensures is { result ≡ spelled most limit word.now }
    ensures within { IfSome result (λ n. n ≤ limit) }
{
    if word.is_empty() || word.len() > most {
        return None;
    }
    let mut n = 0u64;
    for b in word {
        if !is_digit(*b) {
            return None;
        }
        n = n * 10 + u64::from(*b - b'0');
        if n > limit {
            return None;
        }
    }
    Some(n)
}

/// The number that one to seven digits spell, where it is at most the limit.
pub fn number_of(limit: u32, word: &[u8]) -> Option<u32>
    requires { limit < 2 ^ 28 }
    ensures is { result ≡ number_of limit word.now }
    ensures within { IfSome result (λ n. n ≤ limit) }
{
    match spelled(7, u64::from(limit), word) {
        Some(n) => Some(n as u32),
        None => None,
    }
}

fn area_of(word: &[u8]) -> Option<u64>
    ensures is { result ≡ area_of word.now }
    ensures within { IfSome result (λ n. n ≤ 999999999999999999) }
{
    spelled(18, 999_999_999_999_999_999, word)
}

fn is_bound(word: &[u8]) -> bool
    ensures { result ≡ is_bound word.now }
{
    area_of(word).is_some() || word == b"nil".as_slice()
}

fn layer_of(word: &[u8]) -> Option<u16>
    ensures { result ≡ layer_of word.now }
{
    match number_of(65535, word) {
        Some(n) => Some(n as u16),
        None => None,
    }
}

fn size_of(word: &[u8]) -> Option<u32>
    ensures is { result ≡ size_of word.now }
    ensures within { IfSome result (λ n. n ≤ 10000) }
{
    if word.len() <= 5 {
        number_of(10_000, word)
    } else {
        None
    }
}

fn is_digits(word: &[u8]) -> bool
    ensures { result ≡ is_digits word.now }
{
    number_of(9_999_999, word).is_some()
}

fn is_printable(b: u8) -> bool
    ensures { result ≡ is_printable b }
{
    b >= b' ' && b <= b'~'
}

fn are_printable(text: &[u8]) -> bool
    ensures { result ≡ list_all is_printable text.now }
{
    text.iter().all(|b| is_printable(*b))
}

fn is_string(text: &[u8]) -> bool
    ensures { result ≡ is_string text.now }
{
    !text.is_empty() && are_printable(text)
}

fn is_wild(b: u8) -> bool
    ensures { result ≡ is_wild b }
{
    b == b'*' || b == b'?' || b == b'[' || b == b'{'
}

fn is_pattern(text: &[u8]) -> bool
    ensures { result ≡ list_any is_wild text.now }
{
    text.iter().any(|b| is_wild(*b))
}

fn is_operator(b: u8) -> bool
    ensures { result ≡ is_operator b }
{
    b == b'&' || b == b'|' || b == b'-' || b == b'^'
}

fn fits_slot(slot: &Slot, token: &Token) -> bool
    ensures { result ≡ fits_slot (slot_seen slot.now) (seen token.now) }
{
    match (slot, token) {
        (Slot::Fresh, Token::Word(w)) => is_name(w) && !is_statement_word(w),
        (Slot::Name, Token::Word(w)) => is_name(w),
        (Slot::Layer, Token::Word(w)) => layer_of(w).is_some(),
        (Slot::Guesses, Token::Word(w)) => number_of(1_000_000, w).unwrap_or(0) >= 1,
        (Slot::Size, Token::Word(w)) => size_of(w).unwrap_or(0) >= 1,
        (Slot::Area, Token::Word(w)) => area_of(w).is_some(),
        (Slot::Bound, Token::Word(w)) => is_bound(w),
        (Slot::Digits, Token::Word(w)) => is_digits(w),
        (Slot::Quoted, Token::Text(w)) => is_string(w),
        (Slot::Exact, Token::Text(w)) => is_string(w) && !is_pattern(w),
        (Slot::Operator, Token::Mark(b)) => is_operator(*b),
        (Slot::Key(k), Token::Word(w)) => *w == *k,
        (Slot::Sign(k), Token::Mark(b)) => *b == *k,
        (Slot::Maps, Token::Arrow) => true,
        _ => false,
    }
}

fn all_fit(row: &[Slot], tokens: &[Token]) -> bool
    ensures { result ≡ fits (slots_seen row.now) (seen_all tokens.now) }
{
    match row {
        [] => tokens.is_empty(),
        [s, ss @ ..] => match tokens {
            [] => false,
            [t, ts @ ..] => fits_slot(s, t) && all_fit(ss, ts),
        },
    }
}

#[tactic(auto, using(crate::proofs::FilledLemmas::filled))]
/// Whether each token fits its slot. A name or string then has a byte, and a size or a number of
/// guesses lies in its range.
pub fn fits(row: &[Slot], tokens: &[Token]) -> bool
    ensures fits { result ≡ fits (slots_seen row.now) (seen_all tokens.now) }
    ensures filled { result ≡ true → AreFilled 0 (slots_seen row.now) (seen_all tokens.now) }
{
    all_fit(row, tokens)
}

pub fn word_at<'a>(tokens: &[Token<'a>], n: usize) -> &'a [u8]
    ensures { result.now ≡ word_at n (seen_all tokens.now) }
{
    match tokens.get(n) {
        Some(Token::Word(w)) => *w,
        Some(Token::Text(w)) => *w,
        _ => &[],
    }
}

pub fn sign_at(tokens: &[Token], n: usize) -> u8
    ensures { result ≡ sign_at n (seen_all tokens.now) }
{
    match tokens.get(n) {
        Some(Token::Mark(b)) => *b,
        _ => 0,
    }
}

fn layer_at(tokens: &[Token], n: usize) -> u16
    ensures { result ≡ layer_at n (seen_all tokens.now) }
{
    layer_of(word_at(tokens, n)).unwrap_or(0)
}

pub fn size_at(tokens: &[Token], n: usize) -> u32
    ensures is { result ≡ size_at n (seen_all tokens.now) }
    ensures within { result ≤ 10000 }
{
    size_of(word_at(tokens, n)).unwrap_or(0)
}

/// The number of squares at a place, if one stands there.
pub fn area_at(tokens: &[Token], n: usize) -> Option<u64>
    ensures is { result ≡ area_at n (seen_all tokens.now) }
    ensures within { IfSome result (λ n. n ≤ 999999999999999999) }
{
    area_of(word_at(tokens, n))
}

pub fn key_at(tokens: &[Token], n: usize, m: usize) -> LayerKey
    ensures is { result ≡ key_at n m (seen_all tokens.now) }
    ensures stream { IsStreamKey result }
{
    LayerKey {
        layer: u32::from(layer_at(tokens, n)),
        datatype: layer_at(tokens, m),
    }
}
