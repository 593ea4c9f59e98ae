//! Numbers by their significant digits, made into whole ones.

ghost use Rattle.std.specs.Prelude.{◌≡◌, ◌+◌, ◌*◌, ◌^◌, ◌<◌, ◌≤◌, ℕ, length, IsTrue, Some};
ghost use Rattle.std.specs.List.{list_all};
ghost use Rattle.std.specs.Char.{is_ascii_digit};
ghost use Rattle.std.specs.Str.Parse.{digits_value_after};

use crate::femto::ValueFault;

/// A number by its digits from the first to the last that isn't 0: how many they are, what they
/// are worth where they are 31 at most, and how many zeros follow them.
#[derive(Clone, Copy)]
pub struct Significant {
    pub count: u128,
    pub value: u128,
    pub zeros: u128,
    ghost below: { value < 10 ^ count },
}

impl Significant {
    ghost use Rattle.fixed_num.specs.Scan.{fraction, IsStripped, IsScale, AnswersUpTo};

    /// No digit yet.
    pub fn zero() -> Significant
        ensures number { IsStripped result.count result.value result.zeros 0 }
        ensures room { result.count + result.zeros ≡ 0 }
    {
        Significant {
            count: 0,
            value: 0,
            zeros: 0,
        }
    }

    // The number with one more digit.
    fn push(self, digit: u8) -> Significant
        requires digit { digit < 10 }
        requires room { self.count + self.zeros < 2 ^ 100 }
        ensures number { (m : ℕ) → IsStripped self.count self.value self.zeros m
            → IsStripped result.count result.value result.zeros (m * 10 + digit) }
        ensures room { result.count + result.zeros ≤ self.count + self.zeros + 1 }
    {
        if digit == 0 {
            if self.count == 0 {
                return self;
            }
            return Significant {
                count: self.count,
                value: self.value,
                zeros: self.zeros + 1,
            };
        }
        let count = self.count + self.zeros + 1;
        if count > 31 {
            return Significant {
                count,
                value: 0,
                zeros: 0,
            };
        }
        let shifted = self.value * 10u128.pow(self.zeros as u32 + 1);
        Significant {
            count,
            value: shifted + u128::from(digit),
            zeros: 0,
        }
    }

    /// The number with these digits behind it.
    pub fn push_all(self, digits: &[u8]) -> Significant
        requires digits { IsTrue (list_all is_ascii_digit digits.now) }
        requires room { self.count + self.zeros < 2 ^ 90 }
        ensures number { (m : ℕ) → IsStripped self.count self.value self.zeros m
            → IsStripped result.count result.value result.zeros
            (digits_value_after 10 m digits.now) }
        ensures room { result.count + result.zeros ≤ self.count + self.zeros + length digits.now }
    {
        let mut number = self;
        for digit in digits {
            number = number.push(*digit - b'0');
        }
        number
    }

    /// The number times 10^up / 10^down, where that is whole and 10^tens at most. A stand-in will
    /// do for a scale beyond 2^80.
    pub fn whole(self, up: u128, down: u128, tens: u32) -> Result<u128, ValueFault>
        requires up { up < 2 ^ 100 }
        requires down { down < 2 ^ 100 }
        requires tens { tens ≤ 30 }
        requires room { self.count + self.zeros < 2 ^ 70 }
        ensures { (m u d : ℕ) → IsStripped self.count self.value self.zeros m → IsScale up down u d
            → AnswersUpTo tens (Some (fraction m u d)) result }
    {
        if self.count == 0 {
            return Ok(0);
        }
        let up = up + self.zeros;
        let places = u128::from(tens) + 1;
        if up < down {
            // Less than one is left over, behind more than `tens` places where it is above
            // 10^tens.
            if self.count + up < down + places {
                return Err(ValueFault::TooFine);
            }
            return Err(ValueFault::TooLarge);
        }
        // A place more than that of 10^tens is above it.
        let shift = up - down;
        if self.count + shift > places {
            return Err(ValueFault::TooLarge);
        }
        let value = self.value * 10u128.pow(shift as u32);
        if value > 10u128.pow(tens) {
            return Err(ValueFault::TooLarge);
        }
        Ok(value)
    }
}
