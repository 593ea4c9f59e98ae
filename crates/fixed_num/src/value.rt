//! The femtometres or square picometres that the text of a SPICE value is worth, or why it is worth
//! none.

ghost use Rattle.std.specs.Prelude.{◌≡◌, ◌+◌, ◌*◌, ◌≤◌, ◌<◌, ◌^◌, ◌↔◌, ℕ, IsTrue, Some};
ghost use Rattle.std.specs.List.{list_all};
ghost use Rattle.std.specs.Char.{is_ascii_digit};
ghost use Rattle.std.specs.Str.Parse.{digits_value};
ghost use Rattle.fixed_num.specs.declared.femto.Femto.{Femto};
ghost use Rattle.fixed_num.specs.Values.{IsValue, IsNoNumber, IsTooLarge, IsTooFine, OneValueLaw};
ghost use Rattle.fixed_num.specs.Values.{IsArea, IsTooLargeArea, IsTooFineArea, OneAreaLaw, raised};
ghost use Rattle.fixed_num.specs.Scan.{IsCapped, Answers, AnswersUpTo, number_at, number_of};
ghost use Rattle.fixed_num.specs.Scan.{power_seen, some_raised};

use crate::femto::{Femto, ValueFault};
use crate::power::Power;
use crate::scan::{power_of, split_digits, split_fraction, unit_of};
use crate::significant::Significant;

/// The femtometres that the text of a SPICE value is worth, in metres: digits with at most one
/// point, an optional exponent, a suffix f p n u m k meg g t, and letters, which are ignored.
///
/// `NotNumber` comes before `TooLarge` (above 10^18) before `TooFine` (not whole). Digits and
/// exponents may be of any length; the time is that of one pass, and no memory is taken.
pub fn parse_value(text: &[u8]) -> Result<Femto, ValueFault>
    ensures value { (f : Femto) → (result ≡ Ok f) ↔ (IsValue text.now f.0 × (f.0 ≤ 10 ^ 18)) }
    ensures not_number { (result ≡ Err ValueFault.NotNumber) ↔ IsNoNumber text.now }
    ensures too_large { (result ≡ Err ValueFault.TooLarge) ↔ IsTooLarge text.now }
    ensures too_fine { (result ≡ Err ValueFault.TooFine) ↔ IsTooFine text.now }
    ensures answers { Answers (number_of text.now) result }
{
    answer(text)
}

/// The square picometres that the text of a SPICE value is worth, in square metres: of the form
/// that a length has.
///
/// `NotNumber` comes before `TooLarge` (above 10^30) before `TooFine` (not whole). The time is that
/// of one pass, and no memory is taken.
pub fn parse_area(text: &[u8]) -> Result<u128, ValueFault>
    ensures value { (v : ℕ) → (result ≡ Ok v) ↔ (IsArea text.now v × (v ≤ 10 ^ 30)) }
    ensures not_number { (result ≡ Err ValueFault.NotNumber) ↔ IsNoNumber text.now }
    ensures too_large { (result ≡ Err ValueFault.TooLarge) ↔ IsTooLargeArea text.now }
    ensures too_fine { (result ≡ Err ValueFault.TooFine) ↔ IsTooFineArea text.now }
    ensures answers { AnswersUpTo 30 (some_raised 9 (number_of text.now)) result }
{
    raised_answer(text, 9, 30)
}

/// What holds of all values: a text is worth one length at most, and one area.
pub fn value_laws()
    ensures one { OneValueLaw }
    ensures one_area { OneAreaLaw }
{}

fn answer(text: &[u8]) -> Result<Femto, ValueFault>
    ensures { Answers (number_of text.now) result }
{
    match raised_answer(text, 0, 18) {
        Ok(length) => Ok(Femto(length)),
        Err(fault) => Err(fault),
    }
}

// The answer for the text's number times 10^tens, where it may be 10^most at most.
fn raised_answer(text: &[u8], tens: u8, most: u32) -> Result<u128, ValueFault>
    requires { most ≤ 30 }
    ensures { AnswersUpTo most (some_raised tens (number_of text.now)) result }
{
    let (whole, rest) = split_digits(text);
    let (places, rest) = split_fraction(rest);
    if whole.is_empty() && places.is_empty() {
        return Err(ValueFault::NotNumber);
    }
    let Some(power) = power_of(rest) else {
        return Err(ValueFault::NotNumber);
    };
    let Some(unit) = unit_of(power.rest) else {
        return Err(ValueFault::NotNumber);
    };
    worth(whole, places, &power, unit, tens, most)
}

fn worth(
    whole: &[u8],
    places: &[u8],
    power: &Power,
    unit: u8,
    tens: u8,
    most: u32,
) -> Result<u128, ValueFault>
    requires whole { IsTrue (list_all is_ascii_digit whole.now) }
    requires places { IsTrue (list_all is_ascii_digit places.now) }
    requires most { most ≤ 30 }
    ensures { AnswersUpTo most
        (Some (raised tens (number_at whole.now places.now (power_seen power.now) unit))) result }
{
    let number = Significant::zero().push_all(whole).push_all(places);
    let exponent = capped(power.digits);
    let unit = u128::from(tens) + u128::from(unit);
    let down = places.len() as u128;
    if power.minus {
        number.whole(unit, down + exponent, most)
    } else {
        number.whole(unit + exponent, down, most)
    }
}

// The number that digits write, or a stand-in where it is 2^80 or more.
fn capped(digits: &[u8]) -> u128
    requires { IsTrue (list_all is_ascii_digit digits.now) }
    ensures { IsCapped (digits_value 10 digits.now) result }
{
    let mut number: u128 = 0;
    for digit in digits {
        number = with_digit(number, *digit - b'0');
    }
    number
}

fn with_digit(number: u128, digit: u8) -> u128
    requires { digit < 10 }
    ensures { (n : ℕ) → IsCapped n number → IsCapped (n * 10 + digit) result }
{
    if number < 1 << 80 {
        number * 10 + u128::from(digit)
    } else {
        number
    }
}
