//! The questions, and their answers by sets of squares.

ghost use Rattle.std.specs.Prelude.{◌≡◌, ◌↔◌, ◌≤◌, ℕ, true, IfOk};
ghost use Rattle.geo_base.specs.declared.shapes.Square.{Square};
ghost use Rattle.flat_layout.specs.Parts.{AllOn, Counts, IsCloseTo};
ghost use Rattle.gate_shapes.specs.Sets.{in_set};
ghost use Rattle.gate_shapes.specs.Shapes.{Meet};
ghost use Rattle.select_laws.specs.Selects.{Has, IsBelow};
ghost use Rattle.rule_stages.specs.Selections.{ask_of};

use gate_shapes::{count, least};
use geo_base::Op;
use rect_sets::RectSet;
use rule_text::Ask;
use std::alloc::{AllocError, Global};

fn has_square(set: &RectSet) -> bool
    ensures { (result ≡ true) ↔ ((q : Square) × in_set set.now q) }
{
    match least(set) {
        Some(_) => true,
        None => false,
    }
}

fn meet(alloc: Global, one: &RectSet, other: &RectSet) -> Result<bool, AllocError>
    ensures { IfOk result (λ b. (b ≡ true) ↔ Meet one.now other.now) }
{
    let both = one.combined(alloc, other, Op::And)?;
    Ok(has_square(&both))
}

fn miss(alloc: Global, one: &RectSet, other: &RectSet) -> Result<bool, AllocError>
    ensures { IfOk result (λ b. (b ≡ true) ↔ (Meet one.now other.now → ⊥)) }
{
    let met = meet(alloc, one, other)?;
    Ok(!met)
}

fn lies_in(alloc: Global, one: &RectSet, other: &RectSet) -> Result<bool, AllocError>
    ensures { IfOk result (λ b. (b ≡ true) ↔ AllOn (in_set one.now) (in_set other.now)) }
{
    let outside = one.combined(alloc, other, Op::Not)?;
    Ok(!has_square(&outside))
}

fn is_between(low: u64, high: Option<u64>, n: u128) -> bool
    ensures { (result ≡ true) ↔ ((low ≤ n) × IsBelow n high) }
{
    match high {
        Some(high) => u128::from(low) <= n && n < u128::from(high),
        None => u128::from(low) <= n,
    }
}

fn has_area(low: u64, high: Option<u64>, part: &RectSet) -> Result<bool, AllocError>
    ensures { IfOk result (λ b. (b ≡ true)
        ↔ ((n : ℕ) × Counts (in_set part.now) n × (low ≤ n) × IsBelow n high)) }
{
    let n = count(part)?;
    Ok(is_between(low, high, n))
}

/// Whether a region has what is asked, by its squares, all that is close to it, and the other
/// squares, of which those close to it are enough. In O(n log n) for n rectangles of them; of an
/// area linear, and 2^128 squares, which no set has, are taken for want of memory.
pub fn has(
    alloc: Global,
    ask: Ask,
    part: &RectSet,
    close: &RectSet,
    other: &RectSet,
) -> Result<bool, AllocError>
    requires { (q : Square) → in_set close.now q ↔ IsCloseTo (in_set part.now) q }
    ensures { IfOk result (λ b. (b ≡ true)
        ↔ Has (ask_of ask) (in_set part.now) (in_set other.now)) }
{
    match ask {
        Ask::Interacting => meet(alloc, close, other),
        Ask::Overlapping => meet(alloc, part, other),
        Ask::Inside => lies_in(alloc, part, other),
        Ask::Outside => miss(alloc, part, other),
        Ask::WithArea { low, high } => has_area(low, high, part),
    }
}
