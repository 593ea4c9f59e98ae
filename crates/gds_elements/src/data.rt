//! Numbers, strings and reals in the data of records.

ghost use Rattle.std.specs.Prelude.{◌≡◌, ◌≤◌, ◌+◌, ℕ, length, slice_index, is_some, IsTrue};
ghost use Rattle.std.specs.Prelude.{MatchOption};
ghost use Rattle.fixed_num.specs.Real.{is_one, is_unit, quarter_of};
ghost use Rattle.gds_elements.specs.Data.{columns_in, coordinate, exactly, is_count, real_in};
ghost use Rattle.gds_elements.specs.Data.{has_unit, long, number, rows_in, trimmed};
ghost use Rattle.gds_elements.specs.Data.{unit_in};
ghost use Rattle.gds_elements.specs.Units.{IsUnit};

use fixed_num::{Real8, dbu_pm};

/// Two bytes as a number; 0 for data of another length.
pub(crate) fn number(body: &[u8]) -> u16
    ensures { result ≡ number body.now }
{
    if body.len() == 2 {
        u16::from_be_bytes([body[0], body[1]])
    } else {
        0
    }
}

/// Four bytes as a number with a sign.
pub(crate) fn coordinate(bytes: &[u8], at: usize) -> i32
    requires { at + 4 ≤ length bytes.now }
    ensures { result ≡ coordinate bytes.now at }
{
    i32::from_be_bytes([bytes[at], bytes[at + 1], bytes[at + 2], bytes[at + 3]])
}

/// Four bytes as a number with a sign; 0 for data of another length.
pub(crate) fn long(body: &[u8]) -> i32
    ensures { result ≡ long body.now }
{
    if body.len() == 4 {
        coordinate(body, 0)
    } else {
        0
    }
}

/// The columns of an array.
pub(crate) fn columns_in(body: &[u8]) -> u16
    ensures { result ≡ columns_in body.now }
{
    if body.len() == 4 {
        u16::from_be_bytes([body[0], body[1]])
    } else {
        0
    }
}

/// The rows of an array.
pub(crate) fn rows_in(body: &[u8]) -> u16
    ensures { result ≡ rows_in body.now }
{
    if body.len() == 4 {
        u16::from_be_bytes([body[2], body[3]])
    } else {
        0
    }
}

/// Whether a number of columns or rows is at least 1, read with a sign.
pub(crate) fn is_count(n: u16) -> bool
    ensures { result ≡ is_count n }
{
    0 < n && n < 0x8000
}

/// Data of N bytes; zeros for data of another length.
pub(crate) fn exactly<const N: usize>(body: &[u8]) -> [u8; N]
    ensures { result ≡ exactly N body.now }
{
    let mut bytes = [0; N];
    if body.len() == N {
        bytes.copy_from_slice(body);
    }
    bytes
}

/// A string without NULs at its end.
pub(crate) fn trimmed(body: &[u8]) -> &[u8]
    ensures { result.now ≡ trimmed body.now }
{
    let mut end = body.len();
    while end > 0 && body[end - 1] == 0 {
        end -= 1;
    }
    &body[..end]
}

/// Whether the real is 1; zeros stand for data of another length.
pub(crate) fn is_one(body: &[u8]) -> bool
    ensures { result ≡ is_one (real_in body.now) }
{
    Real8::from_bytes(exactly(body)).is_one()
}

/// The quarters of a turn that the real is in degrees.
pub(crate) fn quarter_of(body: &[u8]) -> Option<u8>
    ensures { result ≡ quarter_of (real_in body.now) }
{
    Real8::from_bytes(exactly(body)).quarter()
}

/// The database unit in picometres that the data of UNITS names, the second of its reals being that
/// unit in metres: rounded to the nearest, halves upwards. `None` exactly where it isn't one of 1
/// to 1,000,000. O(1).
pub fn unit_of(units: &[u8; 16]) -> Option<u32>
    ensures { MatchOption result ((k : ℕ) → IsUnit (unit_in units.now) k → ⊥) (λ k. IsUnit
        (unit_in units.now) k) }
{
    dbu_pm(&Real8::from_bytes(exactly(&units[8..])))
}

/// Whether the real in metres is a database unit of 1 to 1,000,000 picometres.
fn is_unit(bytes: &[u8]) -> bool
    ensures { result ≡ is_unit (real_in bytes.now) }
{
    dbu_pm(&Real8::from_bytes(exactly(bytes))).is_some()
}

/// Whether the second real of UNITS is such a database unit.
pub(crate) fn has_unit(body: &[u8]) -> bool
    ensures { result ≡ has_unit body.now }
{
    let units: [u8; 16] = exactly(body);
    is_unit(&units[8..])
}
