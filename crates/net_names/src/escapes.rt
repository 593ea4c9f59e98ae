//! Names as SPICE text spells them, read and written.

ghost use Rattle.std.specs.Prelude.{◌≡◌, ◌<◌, ◌≤◌, ◌++◌, length, slice_index, IfOk, OnOk, IfSome};
ghost use Rattle.std.specs.Prelude.{IsErrOf, Some, None};
ghost use Rattle.net_names.specs.Escapes.{is_plain, hex_digit, spelling, escaped, hex_value};
ghost use Rattle.net_names.specs.Escapes.{hex_byte, front, unescaped};
ghost use Rattle.net_names.specs.Spells.{ReadAsSpelledLaw, WrittenAsSpelledLaw};

use crate::name::Name;
use std::alloc::{AllocError, Global};
use thiserror::Error;

/// Why a text spells no name.
#[derive(Debug, Drop, Error)]
pub enum NameFault {
    #[error("a backslash that begins no escape")]
    BadEscape,
    #[error("no memory")]
    NoMemory,
}

/// The name as SPICE text writes it. Letters, digits and `_./[]<>#:!-` are themselves, other
/// printable bytes stand behind a backslash, and all others are `\x` and two hexadecimal capitals.
pub fn escape(alloc: Global, name: &Name) -> Result<Vec<u8>, AllocError>
    ensures exact { IfOk result (λ text. text.items ≡ escaped name.now) }
    ensures read_back { IfOk result (λ text. unescaped text.items ≡ Some name.now) }
{
    let mut text = Vec::new(alloc);
    for b in name.bytes() {
        spell(&mut text, *b)?;
    }
    Ok(text)
}

/// The name that SPICE text spells. `\x` or `\X` and two hexadecimal digits are a byte, a backslash
/// before another printable byte is that byte, and any other backslash is a `BadEscape`.
pub fn unescape(alloc: Global, text: &[u8]) -> Result<Name, NameFault>
    requires { 0 < length text.now }
    ensures name { IfOk result (λ name. unescaped text.now ≡ Some name) }
    ensures bad { IsErrOf result NameFault.BadEscape → unescaped text.now ≡ None }
{
    let mut bytes = Vec::new(alloc);
    let mut rest = text;
    'fronts: while !rest.is_empty() {
        let front = front_of(rest);
        match front.byte {
            None => return Err(NameFault::BadEscape),
            Some(b) => bytes.push(b).map_err(|_| NameFault::NoMemory)?,
        }
        rest = &rest[front.width..];
    }
    Ok(Name::from_vec(bytes))
}

fn spell(text: &mut Vec<u8>, b: u8) -> Result<(), AllocError>
    ensures { OnOk result (text.new.items ≡ text.old.items ++ spelling b) }
{
    if is_plain(b) {
        text.push(b)?;
    } else if b.is_ascii_graphic() {
        text.extend_from_slice(&[b'\\', b])?;
    } else {
        text.extend_from_slice(&[b'\\', b'x', hex_digit(b / 16), hex_digit(b % 16)])?;
    }
    Ok(())
}

fn is_plain(b: u8) -> bool
    ensures { result ≡ is_plain b }
{
    b.is_ascii_alphanumeric() || b"_./[]<>#:!-".contains(&b)
}

fn hex_digit(n: u8) -> u8
    requires { n < 16 }
    ensures { result ≡ hex_digit n }
{
    if n < 10 { b'0' + n } else { b'A' - 10 + n }
}

// What stands at the front of a text.
#[derive(Clone, Copy)]
struct Front {
    byte: Option<u8>,
    width: usize,
}

fn front_of(text: &[u8]) -> Front
    requires { 0 < length text.now }
    ensures byte { result.byte ≡ (front text.now).byte }
    ensures width { result.width ≡ (front text.now).width }
    ensures some { 0 < result.width }
    ensures within { IfSome result.byte (λ _. result.width ≤ length text.now) }
{
    if text[0] != b'\\' {
        return Front {
            byte: Some(text[0]),
            width: 1,
        };
    }
    let next = byte_at(text, 1);
    if next == b'x' || next == b'X' {
        let high = hex_value(byte_at(text, 2));
        let low = hex_value(byte_at(text, 3));
        return Front {
            byte: hex_byte(high, low),
            width: 4,
        };
    }
    if next.is_ascii_graphic() {
        return Front {
            byte: Some(next),
            width: 2,
        };
    }
    Front {
        byte: None,
        width: 1,
    }
}

// The byte at a place of the text, zero past its end.
fn byte_at(text: &[u8], n: usize) -> u8
    ensures { result ≡ slice_index text.now n }
{
    if n < text.len() { text[n] } else { 0 }
}

fn hex_value(b: u8) -> Option<u8>
    ensures value { result ≡ hex_value b }
    ensures small { IfSome result (λ v. v < 16) }
{
    match b {
        b'0'..=b'9' => Some(b - b'0'),
        b'A'..=b'F' => Some(b - b'A' + 10),
        b'a'..=b'f' => Some(b - b'a' + 10),
        _ => None,
    }
}

fn hex_byte(high: Option<u8>, low: Option<u8>) -> Option<u8>
    requires high { IfSome high (λ v. v < 16) }
    requires low { IfSome low (λ v. v < 16) }
    ensures { result ≡ hex_byte high low }
{
    match high {
        None => None,
        Some(h) => match low {
            None => None,
            Some(l) => Some(h * 16 + l),
        },
    }
}

/// What holds of all texts: what `unescape` reads is what the text spells by rule, and what
/// `escape` writes spells its name.
pub fn spelling_laws()
    ensures read { ReadAsSpelledLaw }
    ensures written { WrittenAsSpelledLaw }
{}
