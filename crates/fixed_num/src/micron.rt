//! Lengths as text in micrometres and areas in square micrometres, exact and without zeros at the end.

ghost use Rattle.std.specs.Prelude.{◌≡◌, ◌++◌, ◌<◌, ◌≤◌, ◌^◌, IfOk, OnOk, codes};
ghost use Rattle.fixed_num.specs.Microns.{IsMicrons, IsSquareMicrons, IsOver, AddsFraction};
ghost use Rattle.fixed_num.specs.Values.{IsArea, IsValue};

use crate::femto::Femto;
use std::alloc::{AllocError, Global};

/// The length in micrometres, in decimal: exact, with no zeros at the end and no point alone.
pub fn micron_text(alloc: Global, length: Femto) -> Result<Vec<u8>, AllocError>
    ensures exact { IfOk result (λ text. IsMicrons length.0 text.items) }

    // A `U` behind it makes it a value again.
    ensures read { IfOk result (λ text. IsValue (text.items ++ codes "U") length.0) }
{
    let text = in_decimal(alloc, length.0, 9)?;
    Ok(text)
}

/// The square picometres in square micrometres, in decimal: exact, with no zeros at the end and no
/// point alone.
pub fn area_text(alloc: Global, area: u128) -> Result<Vec<u8>, AllocError>
    ensures exact { IfOk result (λ text. IsSquareMicrons area text.items) }

    // A `P` behind it makes it a value again.
    ensures read { IfOk result (λ text. IsArea (text.items ++ codes "P") area) }
{
    let text = in_decimal(alloc, area, 12)?;
    Ok(text)
}

// The value over 10^tens, in decimal.
fn in_decimal(alloc: Global, value: u128, tens: u32) -> Result<Vec<u8>, AllocError>
    requires { tens ≤ 12 }
    ensures { IfOk result (λ text. IsOver tens value text.items) }
{
    let unit = 10u128.pow(tens);
    let mut text = (value / unit).to_string(alloc)?.into_bytes();
    let rest = value % unit;
    if rest == 0 {
        return Ok(text);
    }
    text.push(b'.')?;
    push_fraction(&mut text, rest, tens, unit)?;
    Ok(text)
}

fn push_fraction(text: &mut Vec<u8>, value: u128, tens: u32, unit: u128) -> Result<(), AllocError>
    requires some { 0 < value }
    requires few { tens ≤ 12 }
    requires unit { unit ≡ 10 ^ tens }
    requires below { value < unit }
    ensures { OnOk result (AddsFraction tens value text.old.items text.new.items) }
{
    let mut rest = value;
    while rest > 0 {
        rest *= 10;
        text.push(b'0' + (rest / unit) as u8)?;
        rest %= unit;
    }
    Ok(())
}
