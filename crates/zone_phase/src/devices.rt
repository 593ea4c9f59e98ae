//! The squares that a cell leaves for each device rule.
ghost use Rattle.std.specs.Prelude.{◌≡◌, ◌++◌, ℕ, List, IfOk, OnOk, map};
ghost use Rattle.std.specs.List.{All};
ghost use Rattle.cell_graph.specs.Linked.{Linked};
ghost use Rattle.deep_tables.specs.Frames.{IsFramedOpen};
ghost use Rattle.flat_layout.specs.Layers.{Formula};
ghost use Rattle.rect_sets.specs.Rects.{IsCanonical};
ghost use Rattle.rule_text.specs.Seen.{rules_seen};
ghost use Rattle.zone_phase.specs.Names.{AreDeviceOpens, AreNameOpens, device_names};
ghost use Rattle.zone_phase.specs.Names.{further_names, mos_names, names_inputs};

use crate::names::push_set;
use crate::unions::with_name;
use rect_sets::RectSet;
use rule_text::{MoreRule, MosRule, RuleSet};
use std::alloc::{AllocError, Global};

// The union for some names.
fn names_zone(alloc: Global, sets: &[RectSet], names: &[u32]) -> Result<RectSet, AllocError>
    ensures { IfOk result (λ r. (n : ℕ) (d : Linked) (cell : ℕ)
        (trees : List Formula) → AreNameOpens n d cell trees sets.now
        → IsFramedOpen n d (names_inputs trees names.now) cell r) }
{
    let [name, more @ ..] = names else {
        return Ok(RectSet::empty(alloc));
    };
    let others = names_zone(alloc, sets, more)?;
    let all = with_name(alloc, sets, *name, &others)?;
    Ok(all)
}

fn further_zone(alloc: Global, sets: &[RectSet], rule: &MoreRule) -> Result<RectSet, AllocError>
    ensures { IfOk result (λ r. (n : ℕ) (d : Linked) (cell : ℕ)
        (trees : List Formula) → AreNameOpens n d cell trees sets.now
        → IsFramedOpen n d (names_inputs trees (further_names rule.now)) cell r) }
{
    match rule {
        MoreRule::Resistor {
            r,
            c,
            w,
            ta,
            tw,
            ..
        } => names_zone(alloc, sets, &[*c, *r, *w, *ta, *tw]),
        MoreRule::Diode { p, n, ta, tc, .. } => names_zone(alloc, sets, &[*p, *n, *ta, *tc]),
    }
}

// Those of transistors' rules.
fn push_mos_zones(
    alloc: Global,
    sets: &[RectSet],
    rules: &[MosRule],
    zones: &mut Vec<RectSet>,
) -> Result<(), AllocError>
    requires { All IsCanonical zones.old.items }
    ensures zones { OnOk result ((n : ℕ) (d : Linked) (cell : ℕ) (trees : List Formula)
        (lists : List (List ℕ)) → AreNameOpens n d cell trees sets.now
        → AreDeviceOpens n d cell trees lists zones.old.items
        → AreDeviceOpens n d cell trees (lists ++ map mos_names rules.now) zones.new.items) }
    ensures canonical { OnOk result (All IsCanonical zones.new.items) }
{
    for rule in rules {
        let names = [rule.sd, rule.g, rule.w, rule.ts, rule.tg, rule.tb];
        let set = names_zone(alloc, sets, &names)?;
        push_set(zones, set)?;
    }
    Ok(())
}

// Those of the other devices' rules.
fn push_further_zones(
    alloc: Global,
    sets: &[RectSet],
    rules: &[MoreRule],
    zones: &mut Vec<RectSet>,
) -> Result<(), AllocError>
    requires { All IsCanonical zones.old.items }
    ensures zones { OnOk result ((n : ℕ) (d : Linked) (cell : ℕ) (trees : List Formula)
        (lists : List (List ℕ)) → AreNameOpens n d cell trees sets.now
        → AreDeviceOpens n d cell trees lists zones.old.items
        → AreDeviceOpens n d cell trees (lists ++ map further_names rules.now) zones.new.items) }
    ensures canonical { OnOk result (All IsCanonical zones.new.items) }
{
    for rule in rules {
        let set = further_zone(alloc, sets, rule)?;
        push_set(zones, set)?;
    }
    Ok(())
}

/// The squares that a cell leaves for each device rule, from those for the names: a union for each
/// of the rule's layers.
pub fn device_zones(
    alloc: Global,
    sets: &[RectSet],
    rules: &RuleSet,
) -> Result<Vec<RectSet>, AllocError>
    ensures zones { IfOk result (λ v. (n : ℕ) (d : Linked) (cell : ℕ)
        (trees : List Formula) → AreNameOpens n d cell trees sets.now
        → AreDeviceOpens n d cell trees (device_names (rules_seen rules.now)) v.items) }
    ensures canonical { IfOk result (λ v. All IsCanonical v.items) }
{
    let mut zones = Vec::new(alloc);
    push_mos_zones(alloc, sets, &rules.devices, &mut zones)?;
    push_further_zones(alloc, sets, &rules.more, &mut zones)?;
    Ok(zones)
}
