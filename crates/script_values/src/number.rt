//! A number of a script.

ghost use Rattle.std.specs.Prelude.{◌≤◌, ◌^◌};

/// A number in whole thousand-millionths, a million at most.
#[derive(Clone, Copy, Debug, PartialEq, Eq)]
pub struct Number {
    pub amount: u64,
    pub minus: bool,
    pub ghost in_range: { amount ≤ 10 ^ 15 },
}
