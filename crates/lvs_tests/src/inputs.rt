//! A layout and its rules, as they are read.

ghost use Rattle.std.specs.Prelude.{IfOk};
ghost use Rattle.rule_text.specs.Seen.{rules_seen};
ghost use Rattle.rule_text.specs.Sound.{IsSound};

use deep_flow::Pinned;
use gds_layout::{Layout, read_layout};
use rule_text::{RuleSet, read_rules};
use std::alloc::{AllocError, Global};

/// A layout, and the rules that it is extracted by.
pub struct Inputs {
    pub layout: Layout,
    pub rules: RuleSet,
}

// Written out, so that its owners drop it by one call.
impl Drop for Inputs {
    fn drop(self) {
        let Inputs {
            layout: _,
            rules: _,
        } = self;
    }
}

/// What was found of a layout.
pub struct Kept {
    pub found: Pinned,
}

// Written out, so that its owners drop it by one call.
impl Drop for Kept {
    fn drop(self) {
        let Kept { found: _ } = self;
    }
}

/// Reads both; what is refused is an `Err`.
pub fn read(alloc: Global, layout: &[u8], rules: &[u8]) -> Result<Inputs, AllocError>
    ensures { IfOk result (λ inputs. IsSound (rules_seen inputs.rules)) }
{
    let Ok(layout) = read_layout(alloc, layout, None) else {
        return Err(AllocError);
    };
    let Ok(rules) = read_rules(alloc, rules) else {
        return Err(AllocError);
    };
    Ok(Inputs { layout, rules })
}
