//! The exponent in the text of a value, and what stands behind it.

ghost use Rattle.std.specs.Prelude.{IsTrue};
ghost use Rattle.std.specs.List.{list_all};
ghost use Rattle.std.specs.Char.{is_ascii_digit};

/// An exponent, and what is behind it.
#[derive(Clone, Copy)]
pub struct Power<'a> {
    pub minus: bool,
    pub digits: &'a [u8],
    pub rest: &'a [u8],
    ghost are_digits: { IsTrue (list_all is_ascii_digit digits.now) },
}
