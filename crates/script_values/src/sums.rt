//! Numbers read from a text, and their sums and products.

ghost use Rattle.std.specs.Prelude.{◌≡◌, ◌≢◌, ◌⊎◌, ℕ, ◌*◌, ◌^◌, ◌≤◌, ◌<◌, pos, neg_ℤ, ◌+ℤ◌, ◌<ℤ◌};
ghost use Rattle.std.specs.Prelude.{false, IfSome, IsNone, MatchOption};
ghost use Rattle.script_values.specs.Numbers.{IsProduct, Writes, worth};

use crate::number::Number;
use fixed_num::parse_area;

const MOST: u64 = 1_000_000_000_000_000;

const MILLIARD: u64 = 1_000_000_000;

/// The number that a text of digits writes, perhaps with a point and an exponent; none where it is
/// no whole number of thousand-millionths, or above a million. Linear in the text.
pub fn read_number(text: &[u8]) -> Option<Number>
    ensures some { IfSome result (λ n. Writes text.now n.amount) }
    ensures plus { IfSome result (λ n. n.minus ≡ false) }
    ensures none { IsNone result → (k : ℕ) → Writes text.now k → k ≤ 10 ^ 15 → ⊥ }
{
    match parse_area(text) {
        Ok(value) => whole_number(value),
        Err(_) => None,
    }
}

// A value of 10^-24.
fn whole_number(value: u128) -> Option<Number>
    ensures some { IfSome result (λ n. n.amount * 10 ^ 15 ≡ value) }
    ensures plus { IfSome result (λ n. n.minus ≡ false) }
    ensures none { IsNone result → (k : ℕ) → k * 10 ^ 15 ≡ value → k ≤ 10 ^ 15 → ⊥ }
{
    let most = u128::from(MOST);
    if value % most != 0 || value / most > most {
        return None;
    }
    Some(Number {
        amount: (value / most) as u64,
        minus: false,
    })
}

/// The number with the other sign; 0 stays 0.
pub fn negated(number: Number) -> Number
    ensures { worth result ≡ neg_ℤ (worth number) }
{
    Number {
        amount: number.amount,
        minus: !number.minus && number.amount != 0,
    }
}

/// The sum, or none where it is above a million or below minus a million.
pub fn sum(one: Number, other: Number) -> Option<Number>
    ensures some { IfSome result (λ n. worth n ≡ worth one +ℤ worth other) }
    ensures none { IsNone result → (pos (10 ^ 15) <ℤ (worth one +ℤ worth other))
        ⊎ ((worth one +ℤ worth other) <ℤ neg_ℤ (pos (10 ^ 15))) }
{
    if one.minus == other.minus {
        let amount = one.amount + other.amount;
        if amount > MOST {
            return None;
        }
        return Some(Number {
            amount,
            minus: one.minus,
        });
    }
    if one.amount >= other.amount {
        return Some(Number {
            amount: one.amount - other.amount,
            minus: one.minus,
        });
    }
    Some(Number {
        amount: other.amount - one.amount,
        minus: other.minus,
    })
}

/// The product, or none where it is no whole number of thousand-millionths, or above a million.
pub fn product(one: Number, other: Number) -> Option<Number>
    ensures some { IfSome result (λ n. IsProduct one other n) }
    ensures none { IsNone result → (k : ℕ) → k * 10 ^ 9 ≡ one.amount * other.amount
        → k ≤ 10 ^ 15 → ⊥ }
{
    match milliard_part(one.amount, other.amount) {
        Some(amount) => Some(Number {
            amount,
            minus: one.minus != other.minus,
        }),
        None => None,
    }
}

// The product over 10^9, where it is whole.
fn milliard_part(one: u64, other: u64) -> Option<u64>
    requires one { one ≤ 10 ^ 15 }
    requires other { other ≤ 10 ^ 15 }
    ensures some { IfSome result (λ n. n * 10 ^ 9 ≡ one * other) }
    ensures most { IfSome result (λ n. n ≤ 10 ^ 15) }
    ensures none { IsNone result → (k : ℕ) → k * 10 ^ 9 ≡ one * other → k ≤ 10 ^ 15 → ⊥ }
{
    let whole = u128::from(one) * u128::from(other);
    let milliard = u128::from(MILLIARD);
    if whole % milliard != 0 || whole / milliard > u128::from(MOST) {
        return None;
    }
    Some((whole / milliard) as u64)
}

/// How many units a number is, its sign aside, or none where they are no whole number.
pub fn units_of(number: Number, unit: u64) -> Option<u64>
    requires { 0 < unit }
    ensures { MatchOption result
        ((k : ℕ) → k * unit ≢ number.amount)
        (λ k. k * unit ≡ number.amount) }
{
    if number.amount % unit != 0 {
        return None;
    }
    Some(number.amount / unit)
}
