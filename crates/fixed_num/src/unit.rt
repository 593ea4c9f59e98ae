//! The database unit of a layout stream, in whole picometres.

ghost use Rattle.std.specs.Prelude.{◌≡◌, ℕ, MatchOption, is_some};
ghost use Rattle.fixed_num.specs.Real.{IsPicometres, is_unit, real_seen};

use crate::real::Real8;

/// The database unit in picometres: the whole number nearest to `metres * 10^12`, halves upwards.
/// `None` exactly where it isn't from 1 to 1,000,000.
pub fn dbu_pm(metres: &Real8) -> Option<u32>
    ensures value { MatchOption result
        ((k : ℕ) → IsPicometres (real_seen metres.now) k → ⊥)
        (λ k. IsPicometres (real_seen metres.now) k) }
    ensures some { is_some result ≡ is_unit (real_seen metres.now) }
{
    let divisor = metres.divisor()?;
    let nearest = (u128::from(metres.mantissa) * 2_000_000_000_000 + divisor) / (2 * divisor);
    if metres.negative || nearest == 0 || nearest > 1_000_000 {
        return None;
    }
    Some(nearest as u32)
}
