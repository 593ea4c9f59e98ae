//! Words folded, compared and taken out of quotes.

ghost use Rattle.std.specs.Prelude.{◌≡◌, ◌==◌, IfOk};
ghost use Rattle.std.specs.List.{list_any};
ghost use Rattle.net_names.specs.Folding.{folded_byte, folded_bytes};
ghost use Rattle.netlist_lines.specs.Cleaning.{is_quote};
ghost use Rattle.spice_rows.specs.Names.{is_text};
ghost use Rattle.netlist_turn.specs.Words.{enclose, has_escape, is_number, is_params, is_quoted};
ghost use Rattle.netlist_turn.specs.Words.{is_pins_word, unquoted};

use crate::scale::value;
use fixed_num::ValueFault;
use std::alloc::{AllocError, Global};

/// A byte with a to z made A to Z.
pub fn folded_byte(b: u8) -> u8
    ensures { result ≡ folded_byte b }
{
    match b {
        b'a'..=b'z' => b - 32,
        _ => b,
    }
}

/// A word with a to z made A to Z.
pub fn folded(alloc: Global, word: &[u8]) -> Result<Vec<u8>, AllocError>
    ensures { IfOk result (λ w. w.items ≡ folded_bytes word.now) }
{
    word.iter().map(|b| folded_byte(*b)).collect(alloc)
}

/// Whether a word, folded, is this text.
pub fn is_text(word: &[u8], text: &[u8]) -> bool
    ensures { result ≡ is_text text.now word.now }
{
    let mut left = word;
    let mut right = text;
    'bytes: while let [b, more @ ..] = left {
        let [c, rest @ ..] = right else {
            return false;
        };
        if folded_byte(*b) != *c {
            return false;
        }
        left = more;
        right = rest;
    }
    right.is_empty()
}

/// Whether the word is a number, which may have a unit.
pub fn is_number(word: &[u8]) -> bool
    ensures { result ≡ is_number word.now }
{
    match value(word) {
        Err(ValueFault::NotNumber) => false,
        _ => true,
    }
}

/// Whether a backslash stands in the word.
pub fn has_escape(word: &[u8]) -> bool
    ensures { result ≡ has_escape word.now }
{
    word.iter().any(|b| *b == b'\\')
}

/// Whether the word is `PARAMS:`.
pub fn is_params(word: &[u8]) -> bool
    ensures { result ≡ is_params word.now }
{
    is_text(word, b"PARAMS:")
}

/// Whether the word is `$PINS`.
pub fn is_pins_word(word: &[u8]) -> bool
    ensures { result ≡ is_pins_word word.now }
{
    is_text(word, b"$PINS")
}

fn is_quote(b: u8) -> bool
    ensures { result ≡ is_quote b }
{
    b == b'\'' || b == b'"'
}

// Whether these are two equal quotes, or a brace and the one that closes it.
fn enclose(b: u8, c: u8) -> bool
    ensures { result ≡ enclose b c }
{
    is_quote(b) && c == b || b == b'{' && c == b'}'
}

fn is_quoted(value: &[u8]) -> bool
    ensures { result ≡ is_quoted value.now }
{
    value.len() > 1 && enclose(value[0], value[value.len() - 1])
}

/// A value without the quotes or braces round it.
pub fn unquoted(value: &[u8]) -> &[u8]
    ensures { result.now ≡ unquoted value.now }
{
    if is_quoted(value) && value.len() > 1 {
        &value[1..value.len() - 1]
    } else {
        value
    }
}
