//! Sizes by the scale of a text, exactly, and how they are written.

ghost use Rattle.std.specs.Prelude.{◌≡◌, ◌∷◌, [], ◌++◌, ◌*◌, ◌^◌, OnOk, Some, drop};
ghost use Rattle.spice_rows.specs.Sizes.{area_of, settled, value_of};
ghost use Rattle.spice_rows.specs.Seen.{value_seen};
ghost use Rattle.netlist_turn.specs.Scale.{is_unscaled, micro_text, pico_text, scale_of, scaled};
ghost use Rattle.netlist_turn.specs.Scale.{scaled_area, scaled_length, size_text};
ghost use Rattle.std.specs.Fmt.{decimal};

use fixed_num::{Femto, ValueFault, parse_area, parse_value};
use std::alloc::{AllocError, Global};

/// What turns a size: the scale in 10^-15, once for a length, twice for an area.
#[derive(Clone, Copy)]
pub struct Factor {
    pub scale: u128,
    pub is_twice: bool,
}

/// The femtometres that a text is worth.
pub fn value(text: &[u8]) -> Result<Femto, ValueFault>
    ensures { value_seen result ≡ value_of (Some (10 ^ 18)) text.now }
{
    parse_value(text)
}

fn number(text: &[u8]) -> Result<u128, ValueFault>
    ensures { result ≡ area_of (Some (10 ^ 30)) text.now }
{
    parse_area(text)
}

/// The factor that a text writes, in 10^-15; none where it is no whole number of these, above
/// 1,000, or 0.
pub fn scale_of(text: &[u8]) -> Option<u128>
    ensures { result ≡ scale_of text.now }
{
    match value(text) {
        Ok(factor) => {
            if factor.0 == 0 {
                return None;
            }
            Some(factor.0)
        }
        Err(_) => None,
    }
}

// So many 10^-24 by a factor of so many 10^-15, in femtometres.
fn product(size: u128, scale: u128) -> Result<u128, ValueFault>
    ensures { result ≡ settled (Some (10 ^ 14)) (size * scale) (10 ^ 24) }
{
    let Some(all) = size.checked_mul(scale) else {
        return Err(ValueFault::TooLarge);
    };
    let femto = 10u128.pow(24);
    if all > 10u128.pow(38) {
        return Err(ValueFault::TooLarge);
    }
    if all % femto != 0 {
        return Err(ValueFault::TooFine);
    }
    Ok(all / femto)
}

// The femtometres of a length, by the scale.
fn scaled_length(scale: u128, text: &[u8]) -> Result<u128, ValueFault>
    ensures { result ≡ scaled_length scale text.now }
{
    match number(text) {
        Ok(size) => product(size, scale),
        Err(fault) => Err(fault),
    }
}

// So many 10^-24 by a factor of so many 10^-15.
fn raised_by(scale: u128, size: u128) -> Result<u128, ValueFault>
    ensures { result ≡ settled (Some (10 ^ 23)) (size * scale) (10 ^ 15) }
{
    let Some(all) = size.checked_mul(scale) else {
        return Err(ValueFault::TooLarge);
    };
    let unit = 10u128.pow(15);
    if all > 10u128.pow(38) {
        return Err(ValueFault::TooLarge);
    }
    if all % unit != 0 {
        return Err(ValueFault::TooFine);
    }
    Ok(all / unit)
}

// The square picometres of an area, which is by the scale twice.
fn scaled_area(scale: u128, text: &[u8]) -> Result<u128, ValueFault>
    ensures { result ≡ scaled_area scale text.now }
{
    match number(text) {
        Ok(size) => match raised_by(scale, size) {
            Ok(once) => raised_by(scale, once),
            Err(fault) => Err(fault),
        },
        Err(fault) => Err(fault),
    }
}

/// The femtometres of a length, or the square picometres of an area, by the scale: exact, or why
/// there are none.
pub fn scaled(factor: Factor, text: &[u8]) -> Result<u128, ValueFault>
    ensures { result ≡ scaled factor text.now }
{
    if factor.is_twice {
        scaled_area(factor.scale, text)
    } else {
        scaled_length(factor.scale, text)
    }
}

/// Whether a size, where there is a scale, can't be turned by it.
pub fn is_unscaled(factor: Option<Factor>, text: &[u8]) -> bool
    ensures { result ≡ is_unscaled factor text.now }
{
    match factor {
        None => false,
        Some(factor) => scaled(factor, text).is_err(),
    }
}

// Adds a number, a point, the digits behind the first of another, and a suffix.
fn push_decimal(
    alloc: Global,
    out: &mut Vec<u8>,
    whole: u128,
    places: u128,
    suffix: u8,
) -> Result<(), AllocError>
    ensures { OnOk result (out.new.items ≡ out.old.items
        ++ (decimal whole ++ (0x2E ∷ (drop 1 (decimal places) ++ suffix ∷ [])))) }
{
    let whole = whole.to_string(alloc)?;
    let places = places.to_string(alloc)?;
    let digits = places.as_bytes();
    out.extend_from_slice(whole.as_bytes())?;
    out.push(b'.')?;
    if let [_, behind @ ..] = digits {
        out.extend_from_slice(behind)?;
    }
    out.push(suffix)?;
    Ok(())
}

/// Adds femtometres, in micrometres.
pub fn push_micros(alloc: Global, out: &mut Vec<u8>, n: u128) -> Result<(), AllocError>
    ensures { OnOk result (out.new.items ≡ out.old.items ++ micro_text n) }
{
    let micro = 1_000_000_000u128;
    push_decimal(alloc, out, n / micro, micro + n % micro, b'U')
}

// Adds square picometres, in square micrometres.
fn push_picos(alloc: Global, out: &mut Vec<u8>, n: u128) -> Result<(), AllocError>
    ensures { OnOk result (out.new.items ≡ out.old.items ++ pico_text n) }
{
    let pico = 1_000_000_000_000u128;
    push_decimal(alloc, out, n / pico, pico + n % pico, b'P')
}

/// Adds femtometres in micrometres, or square picometres in square micrometres.
pub fn push_size(
    alloc: Global,
    out: &mut Vec<u8>,
    factor: Factor,
    n: u128,
) -> Result<(), AllocError>
    ensures { OnOk result (out.new.items ≡ out.old.items ++ size_text factor n) }
{
    if factor.is_twice {
        push_picos(alloc, out, n)
    } else {
        push_micros(alloc, out, n)
    }
}
