//! How far the names of the output lines reach.

ghost use Rattle.std.specs.Prelude.{◌≡◌, get_or, map, IfOk};
ghost use Rattle.rule_layers.specs.Formulas.{greatest};
ghost use Rattle.rule_text.specs.Seen.{rules_seen};
ghost use Rattle.rule_text.specs.Sound.{IsSound};
ghost use Rattle.layout_shapes.specs.Wide.{output_reach};

use rule_text::{Output, RuleSet, reaches};
use std::alloc::{AllocError, Global};

// The reach of a line's name, of those of all names.
fn reach_of(line: &Output, reaches: &[u32]) -> u32
    ensures { result ≡ get_or reaches.now line.now.layer 0 }
{
    match reaches.get(line.layer as usize) {
        Some(reach) => *reach,
        None => 0,
    }
}

fn furthest(lines: &[Output], reaches: &[u32]) -> u32
    ensures { result ≡ greatest (map (λ o. get_or reaches.now o.layer 0) lines.now) }
{
    let mut most = 0;
    for line in lines {
        most = reach_of(line, reaches).max(most);
    }
    most
}

/// How far the output lines' names reach at most, in squares. Linear in names and lines; memory is
/// four bytes a name.
pub fn output_reach(alloc: Global, rules: &RuleSet) -> Result<u32, AllocError>
    requires { IsSound (rules_seen rules.now) }
    ensures { IfOk result (λ n. n ≡ output_reach (rules_seen rules.now)) }
{
    let found = reaches(alloc, &rules.names)?;
    Ok(furthest(&rules.outputs, &found))
}
