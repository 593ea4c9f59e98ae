//! The database as a whole.

ghost use Rattle.std.specs.Prelude.{◌≡◌, ◌<◌, ◌^◌, ℕ, IfOk, length, map};
ghost use Rattle.call_order.specs.Order.{AreInRange, ReachesItself};
ghost use Rattle.net_model.specs.Faults.{called_by};
ghost use Rattle.net_model.specs.Rows.{plain_circuit};
ghost use Rattle.rule_text.specs.Seen.{rules_seen};
ghost use Rattle.view_cross.specs.Whole.{AreWhole};
ghost use Rattle.view_file.specs.Cross.{lists_of, logs_of};
ghost use Rattle.view_file.specs.File.{IsDatabase};
ghost use Rattle.view_file.specs.Layout.{IsSmallPicture};
ghost use Rattle.view_file.specs.Shown.{answers_in};

use crate::cross::{Shown, push_cross};
use crate::layout::{Picture, push_layout};
use fixed_num::Femto;
use rule_text::RuleSet;
use std::alloc::{AllocError, Global};
use view_netlist::push_schematic;

/// The database of a layout and a schematic, complete in memory: what is drawn of the layout, the
/// circuits of both, and the answer of each pair. Linear in the text, but for the pins of matches.
/// An `Err` is want of memory, or 2^32 of a kind.
pub fn database(
    alloc: Global,
    top: &[u8],
    unit: Femto,
    rules: &RuleSet,
    picture: &Picture,
    shown: &Shown<'_, '_>,
) -> Result<Vec<u8>, AllocError>
    requires small { IsSmallPicture picture.now }
    requires range { AreInRange (map called_by (map plain_circuit shown.now.rights.now)) }
    requires no_cycle { (k : ℕ)
        → ReachesItself (map called_by (map plain_circuit shown.now.rights.now)) k → ⊥ }
    requires few { length shown.now.rights.now < 2 ^ 32 }
    requires whole { AreWhole (map plain_circuit shown.now.lefts.now)
        (map plain_circuit shown.now.rights.now) (lists_of shown.now.proposals.now) }
    ensures { IfOk result (λ v. IsDatabase top.now unit.0 (rules_seen rules.now) picture.now
        (logs_of shown.now.logs.now) (map plain_circuit shown.now.lefts.now)
        (map plain_circuit shown.now.rights.now) (lists_of shown.now.proposals.now)
        (answers_in shown.now) v.items) }
{
    let mut out = Vec::new(alloc);
    push_layout(alloc, &mut out, top, unit, rules, picture, shown.lefts)?;
    push_schematic(alloc, &mut out, shown.rights)?;
    push_cross(alloc, &mut out, &picture.names.circuits, shown)?;
    Ok(out)
}
