//! The eight-byte reals of a layout stream, as ones and as quarter turns.

ghost use Rattle.std.specs.Prelude.{◌≡◌, ◌*◌, ◌<◌, ◌≤◌, ◌^◌, ℕ, MatchOption};

/// An eight-byte real of the GDSII Stream Format: the value is `mantissa * 16^(exponent - 78)`,
/// below 0 where `negative`.
#[derive(Clone, Copy)]
pub struct Real8 {
    pub negative: bool,
    /// The power of 16, in excess 64.
    pub exponent: u8,
    /// The fraction's 56 bits. It need not be normalised.
    pub mantissa: u64,
    ghost exponent_fits: { exponent < 2 ^ 7 },
    ghost mantissa_fits: { mantissa < 2 ^ 56 },
}

impl Real8 {
    ghost use Rattle.fixed_num.specs.Real.{IsAngle, IsDivisor, IsFarFromOne, is_one, quarter_of};
    ghost use Rattle.fixed_num.specs.Real.{real_of, real_seen};

    /// The real that eight bytes of a stream are.
    pub fn from_bytes(b: [u8; 8]) -> Real8
        ensures { real_seen result ≡ real_of b }
    {
        Real8 {
            negative: b[0] >= 128,
            exponent: b[0] % 128,
            mantissa: u64::from_be_bytes([0, b[1], b[2], b[3], b[4], b[5], b[6], b[7]]),
        }
    }

    /// Whether the value is 1, normalised or not.
    pub fn is_one(&self) -> bool
        ensures { result ≡ is_one (real_seen self.now) }
    {
        match self.divisor() {
            Some(divisor) => !self.negative && u128::from(self.mantissa) == divisor,
            None => false,
        }
    }

    /// The quarter turns, 0 to 3, of an angle in degrees: `None` exactly where the value is no
    /// whole multiple of 90 from -360 to 360.
    pub fn quarter(&self) -> Option<u8>
        ensures { result ≡ quarter_of (real_seen self.now) }
    {
        let degrees = self.whole_degrees()?;
        let turns = turns_of(degrees)?;
        if self.negative {
            return Some((4 - turns) % 4);
        }
        Some(turns % 4)
    }

    // The value without its sign, where it may be 90 times a number up to 4.
    fn whole_degrees(&self) -> Option<u128>
        ensures { MatchOption result
            ((a : ℕ) → a ≤ 4 → IsAngle (real_seen self.now) (90 * a) → ⊥)
            (λ v. IsAngle (real_seen self.now) v) }
    {
        if self.mantissa == 0 {
            return Some(0);
        }
        let Some(divisor) = self.divisor() else {
            return None;
        };
        let mantissa = u128::from(self.mantissa);
        if mantissa % divisor == 0 {
            Some(mantissa / divisor)
        } else {
            None
        }
    }

    // The number by which the mantissa is divided to give the value, where it is one to 2^96.
    pub(crate) fn divisor(&self) -> Option<u128>
        ensures { MatchOption result (IsFarFromOne (real_seen self.now))
            (λ d. IsDivisor (real_seen self.now) d) }
    {
        if self.exponent < 54 || self.exponent > 78 {
            return None;
        }
        Some(1u128 << (4 * (78 - self.exponent)))
    }
}

fn turns_of(degrees: u128) -> Option<u8>
    ensures { MatchOption result
        ((a : ℕ) → a ≤ 4 → degrees ≡ 90 * a → ⊥)
        (λ a. (a ≤ 4) × (degrees ≡ 90 * a)) }
{
    match degrees {
        0 => Some(0),
        90 => Some(1),
        180 => Some(2),
        270 => Some(3),
        360 => Some(4),
        _ => None,
    }
}
