//! The parts of the text of a value: digits, fraction, exponent and suffix.

ghost use Rattle.std.specs.Prelude.{◌≡◌, ◌≤◌, length, IsTrue, MatchOption, Option, Some, None};
ghost use Rattle.std.specs.Prelude.{option_map, map};
ghost use Rattle.std.specs.List.{prefix_len, list_all};
ghost use Rattle.std.specs.Char.{is_ascii_alphabetic, is_ascii_digit, to_ascii_lowercase};
ghost use Rattle.fixed_num.specs.Values.{suffix_of, milli_or_mega};
ghost use Rattle.fixed_num.specs.Scan.{digits_of, after_digits, fraction_of, after_fraction};
ghost use Rattle.fixed_num.specs.Scan.{power_with, signed_power, power_of, unit_of, power_seen};

use crate::power::Power;

fn digit_count(text: &[u8]) -> usize
    ensures count { result ≡ prefix_len is_ascii_digit text.now }
    ensures within { result ≤ length text.now }
{
    let mut count = 0;
    while count < text.len() && text[count].is_ascii_digit() {
        count += 1;
    }
    count
}

/// The digits at a text's head, and what is behind them.
pub fn split_digits(text: &[u8]) -> (&[u8], &[u8])
    ensures digits { result.0.now ≡ digits_of text.now }
    ensures all { IsTrue (list_all is_ascii_digit result.0.now) }
    ensures rest { result.1.now ≡ after_digits text.now }
{
    text.split_at(digit_count(text))
}

/// The digits behind a point, and what is behind them.
pub fn split_fraction(text: &[u8]) -> (&[u8], &[u8])
    ensures digits { result.0.now ≡ fraction_of text.now }
    ensures all { IsTrue (list_all is_ascii_digit result.0.now) }
    ensures rest { result.1.now ≡ after_fraction text.now }
{
    match text {
        [] => (text, text),
        [first, behind @ ..] => {
            if *first == b'.' {
                split_digits(behind)
            } else {
                (&[], text)
            }
        }
    }
}

fn power_with(minus: bool, text: &[u8]) -> Power<'_>
    ensures { power_seen result ≡ power_with minus text.now }
{
    let (digits, rest) = split_digits(text);
    Power {
        minus,
        digits,
        rest,
    }
}

fn signed_power(text: &[u8]) -> Power<'_>
    ensures { power_seen result ≡ signed_power text.now }
{
    match text {
        [] => power_with(false, text),
        [first, behind @ ..] => match *first {
            b'+' => power_with(false, behind),
            b'-' => power_with(true, behind),
            _ => power_with(false, text),
        },
    }
}

/// What stands behind a value's digits; none where an `e` has no digits.
pub fn power_of(text: &[u8]) -> Option<Power<'_>>
    ensures { option_map power_seen result ≡ power_of text.now }
{
    match text {
        [] => Some(Power {
            minus: false,
            digits: text,
            rest: text,
        }),
        [first, behind @ ..] => {
            if first.to_ascii_lowercase() != b'e' {
                return Some(Power {
                    minus: false,
                    digits: &[],
                    rest: text,
                });
            }
            let power = signed_power(behind);
            if power.digits.is_empty() {
                None
            } else {
                Some(power)
            }
        }
    }
}

fn milli_or_mega(behind: &[u8]) -> Option<u8>
    ensures { result ≡ milli_or_mega (map to_ascii_lowercase behind.now) }
{
    let [second, third, ..] = behind else {
        return Some(12);
    };
    match (second.to_ascii_lowercase(), third.to_ascii_lowercase()) {
        (b'i', b'l') => None,
        (b'e', b'g') => Some(21),
        _ => Some(12),
    }
}

fn suffix_of(letters: &[u8]) -> Option<u8>
    ensures { result ≡ suffix_of (map to_ascii_lowercase letters.now) }
{
    let [first, behind @ ..] = letters else {
        return Some(15);
    };
    match first.to_ascii_lowercase() {
        b'f' => Some(0),
        b'p' => Some(3),
        b'n' => Some(6),
        b'u' => Some(9),
        b'm' => milli_or_mega(behind),
        b'k' => Some(18),
        b'g' => Some(24),
        b't' => Some(27),
        _ => None,
    }
}

fn are_letters(text: &[u8]) -> bool
    ensures { result ≡ list_all is_ascii_alphabetic text.now }
{
    text.iter().all(|b| b.is_ascii_alphabetic())
}

/// What stands behind the number: the power of ten of femtometres of its suffix.
pub fn unit_of(rest: &[u8]) -> Option<u8>
    ensures { result ≡ unit_of rest.now }
{
    if are_letters(rest) {
        suffix_of(rest)
    } else {
        None
    }
}
