//! The words and the numbers of a line.

ghost use Rattle.std.specs.Prelude.{◌≤◌, ◌<◌, length, IfOk};

use std::alloc::{AllocError, AllocFailed};
use std::str;
use thiserror::Error;

/// Why a text isn't read.
#[derive(Clone, Copy, Debug, PartialEq, Eq, Error)]
pub enum RowFault {
    /// No memory was left.
    #[error("no memory")]
    NoMemory,
    /// A line that has no meaning.
    #[error("unclear")]
    Unclear,
}

impl From<AllocError> for RowFault {
    fn from(_: AllocError) -> Self {
        RowFault::NoMemory
    }
}

impl<T: Drop> From<AllocFailed<T>> for RowFault {
    fn from(_: AllocFailed<T>) -> Self {
        RowFault::NoMemory
    }
}

/// What is left of a line, from whose front words are taken.
#[derive(Clone, Copy, Drop)]
pub struct Fields<'a> {
    rest: &'a [u8],
}

// How many bytes stand before the first blank, or before the first that is none.
fn width_of(bytes: &[u8], is_blank: bool) -> usize
    ensures { result ≤ length bytes.now }
{
    match bytes.iter().position(|b| (*b == b' ') == is_blank) {
        Some(place) if place <= bytes.len() => place,
        _ => bytes.len(),
    }
}

fn without_blanks(bytes: &[u8]) -> &[u8] {
    &bytes[width_of(bytes, false)..]
}

impl<'a> Fields<'a> {
    /// The fields of a line.
    pub fn of(line: &'a [u8]) -> Fields<'a> {
        Fields {
            rest: without_blanks(line),
        }
    }

    /// Whether nothing is left.
    pub fn is_done(&self) -> bool {
        self.rest.is_empty()
    }

    /// All that is left, with the blanks in it.
    pub fn rest(&self) -> &'a [u8] {
        self.rest
    }

    /// The next word, which stays; an empty one at the end.
    pub fn peek(&self) -> &'a [u8] {
        &self.rest[..width_of(self.rest, true)]
    }

    /// The next word.
    pub fn word(&mut self) -> &'a [u8] {
        let (word, behind) = self.rest.split_at(width_of(self.rest, true));
        self.rest = without_blanks(behind);
        word
    }

    /// Takes the next word where it is this one.
    pub fn takes(&mut self, word: &[u8]) -> bool {
        let is_so = self.peek() == word;
        if is_so {
            let _ = self.word();
        }
        is_so
    }

    /// The next word as a number.
    pub fn number(&mut self) -> Result<i32, RowFault> {
        number_of(self.word())
    }

    /// The next word as two numbers with this byte between them.
    pub fn pair(&mut self, mark: u8) -> Result<(i32, i32), RowFault> {
        pair_of(self.word(), mark)
    }

    /// The next word as a layer and its datatype, which is 0 where it isn't said.
    pub fn layer(&mut self) -> Result<(u16, u16), RowFault> {
        let word = self.peek();
        let (layer, datatype) = if word.contains(&b'/') {
            self.pair(b'/')?
        } else {
            (self.number()?, 0)
        };
        Ok((short(layer)?, short(datatype)?))
    }
}

/// Two numbers with this byte between them.
pub fn pair_of(word: &[u8], mark: u8) -> Result<(i32, i32), RowFault> {
    let mut parts = word.splitn(2, |b| *b == mark);
    match (parts.next(), parts.next()) {
        (Some(first), Some(second)) => Ok((number_of(first)?, number_of(second)?)),
        _ => Err(RowFault::Unclear),
    }
}

/// A number of 16 bits.
pub fn short(number: i32) -> Result<u16, RowFault> {
    u16::try_from(number).map_err(|_| RowFault::Unclear)
}

fn number_of(word: &[u8]) -> Result<i32, RowFault> {
    let Ok(text) = str::from_utf8(word) else {
        return Err(RowFault::Unclear);
    };
    text.parse::<i32>().map_err(|_| RowFault::Unclear)
}

// The value of a hexadecimal digit.
fn digit(byte: u8) -> Result<u8, RowFault> {
    match byte {
        b'0'..=b'9' => Ok(byte.wrapping_sub(b'0')),
        b'A'..=b'F' => Ok(byte.wrapping_sub(b'A').wrapping_add(10)),
        _ => Err(RowFault::Unclear),
    }
}

/// The byte that two hexadecimal digits write.
pub fn byte_of(high: u8, low: u8) -> Result<u8, RowFault> {
    Ok(digit(high)?.wrapping_mul(16).wrapping_add(digit(low)?))
}

/// Adds the bytes that hexadecimal digits write.
pub fn push_hexadecimal(out: &mut Vec<u8>, digits: &[u8]) -> Result<(), RowFault> {
    let mut rest = digits;
    while let [high, low, behind @ ..] = rest {
        out.push(byte_of(*high, *low)?)?;
        rest = behind;
    }
    if rest.is_empty() {
        Ok(())
    } else {
        Err(RowFault::Unclear)
    }
}

/// Adds a text in which `\n`, `\r`, `\t`, `\\` and `\xNN` stand for a byte.
pub fn unescape(out: &mut Vec<u8>, text: &[u8]) -> Result<(), RowFault> {
    let mut rest = text;
    while let [byte, behind @ ..] = rest {
        rest = behind;
        if *byte == b'\\' {
            rest = push_escaped(out, rest)?;
        } else {
            out.push(*byte)?;
        }
    }
    Ok(())
}

// Adds the byte that stands behind a `\`, and gives what follows it.
fn push_escaped<'a>(out: &mut Vec<u8>, text: &'a [u8]) -> Result<&'a [u8], RowFault>
    ensures { IfOk result (λ r. length r.now ≤ length text.now) }
{
    let (byte, behind) = match text {
        [b'x', high, low, behind @ ..] => (byte_of(*high, *low)?, behind),
        [b'n', behind @ ..] => (b'\n', behind),
        [b'r', behind @ ..] => (b'\r', behind),
        [b't', behind @ ..] => (b'\t', behind),
        [b'\\', behind @ ..] => (b'\\', behind),
        _ => return Err(RowFault::Unclear),
    };
    out.push(byte)?;
    Ok(behind)
}
