//! Which squares the rules make cells keep.
ghost use Rattle.std.specs.Prelude.{◌≡◌};
ghost use Rattle.rule_text.specs.Seen.{rules_seen};
ghost use Rattle.rule_layers.specs.Meaning.{way_of};

use flat_layout::Way;
use rule_text::RuleSet;

/// With `keep_covered` cells keep what they cover themselves, else only what nothing from elsewhere
/// lies over.
pub fn way_of(rules: &RuleSet) -> Way
    ensures { result ≡ way_of (rules_seen rules.now) }
{
    if rules.covered {
        Way::Covered
    } else {
        Way::Disturbed
    }
}
