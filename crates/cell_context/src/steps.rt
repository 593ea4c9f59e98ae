//! Which steps of an array lie between two numbers.

ghost use Rattle.std.specs.Prelude.{◌≡◌, ◌≢◌, ◌<◌, ◌≤◌, ◌*◌, ◌^◌, ℕ, ℤ, pos, ◌*ℤ◌, ◌<ℤ◌, ◌≤ℤ◌};
ghost use Rattle.geo_base.specs.Near.{IsWithin};
ghost use Rattle.cell_context.specs.Steps.{Includes};

/// Numbers from one up to, but not at, another.
#[derive(Clone, Copy, Debug)]
pub struct Steps {
    pub from: u32,
    pub to: u32,
}

// The same of steps upwards.
fn steps_up(count: u32, step: u64, low: i64, high: i64) -> Steps
    requires step { 0 < step }
    ensures within { result.to ≤ count }
    ensures all { (i : ℕ) → i < count → low <ℤ pos (i * step) → pos (i * step) <ℤ high
        → Includes result i }
{
    let from = if low < 0 {
        0
    } else {
        let passed = low as u64 / step;
        if passed < count as u64 {
            passed as u32 + 1
        } else {
            count
        }
    };
    let to = if high <= 0 {
        0
    } else {
        let last = (high - 1) as u64 / step;
        if last < count as u64 {
            last as u32 + 1
        } else {
            count
        }
    };
    Steps { from, to }
}

/// The numbers below `count` whose multiples of the step may lie between the two; each such number
/// is among them.
pub fn steps_between(count: u32, step: i64, low: i64, high: i64) -> Steps
    requires low { IsWithin (2 ^ 50) low }
    requires high { IsWithin (2 ^ 50) high }
    ensures within { result.to ≤ count }
    ensures all { (i : ℕ) → i < count → low <ℤ (pos i *ℤ step) → (pos i *ℤ step) <ℤ high
        → Includes result i }
{
    if step > 0 {
        steps_up(count, step.unsigned_abs(), low, high)
    } else if step < 0 {
        steps_up(count, step.unsigned_abs(), -high, -low)
    } else if low < 0 && 0 < high {
        Steps { from: 0, to: count }
    } else {
        Steps { from: 0, to: 0 }
    }
}
