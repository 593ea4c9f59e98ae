//! How far outside cells' hulls disturbed squares are asked for.
ghost use Rattle.std.specs.Prelude.{◌≡◌, ◌≤◌, IfOk};
ghost use Rattle.rule_text.specs.Seen.{rules_seen};
ghost use Rattle.rule_text.specs.Sound.{IsSound};
ghost use Rattle.rule_layers.specs.Formulas.{greatest, zone_margin};

use rule_text::{RuleSet, reaches};
use std::alloc::{AllocError, Global};

// The greatest of some numbers.
fn greatest(numbers: &[u32]) -> u32
    ensures { result ≡ greatest numbers.now }
{
    match numbers {
        [] => 0,
        [number, more @ ..] => (*number).max(greatest(more)),
    }
}

/// How far outside a cell's hull its disturbed squares are asked for, in squares: twice as far as the
/// name that reaches furthest, and one for a region's ring. Linear in the names.
pub fn zone_margin(alloc: Global, rules: &RuleSet) -> Result<u32, AllocError>
    requires { IsSound (rules_seen rules.now) }
    ensures is { IfOk result (λ n. n ≡ zone_margin rules.now.names.items) }
    ensures most { IfOk result (λ n. n ≤ 20001) }
{
    let found = reaches(alloc, &rules.names)?;
    let most = greatest(&found);
    Ok(most + most + 1)
}
