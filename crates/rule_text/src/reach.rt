//! How far from a square the shapes may lie that decide whether a name has it.

ghost use Rattle.std.specs.Prelude.{◌≡◌, ◌≤◌, get_or, IfOk};
ghost use Rattle.std.specs.List.{All};
ghost use Rattle.rule_text.specs.Reaches.{MOST_REACH, reach_by, reaches};

use crate::rules::{LayerForm, LayerRule};
use std::alloc::{AllocError, Global};

// The reach of the name of this number.
fn reach_at(before: &[u32], layer: u32) -> u64
    ensures { result ≡ get_or before.now layer 0 }
{
    match before.get(layer as usize) {
        Some(reach) => u64::from(*reach),
        None => 0,
    }
}

/// The reach of a form, from those of the names before it.
pub fn reach_by(before: &[u32], form: LayerForm) -> u64
    ensures { result ≡ reach_by before.now form }
{
    match form {
        LayerForm::Input(_) => 0,
        LayerForm::Labels(_) => 0,
        LayerForm::Empty => 0,
        LayerForm::Binary(_, a, b) => reach_at(before, a).max(reach_at(before, b)),
        LayerForm::Sized(a, by) => reach_at(before, a) + u64::from(by.unsigned_abs()),
    }
}

/// How far each name reaches, in squares. Linear.
pub fn reaches(alloc: Global, names: &[LayerRule]) -> Result<Vec<u32>, AllocError>
    requires { All (λ n. n ≤ MOST_REACH) (reaches names.now) }
    ensures { IfOk result (λ v. v.items ≡ reaches names.now) }
{
    let mut found = Vec::new(alloc);
    for rule in names {
        let reach = reach_by(&found, rule.form);
        found.push(reach as u32)?;
    }
    Ok(found)
}
