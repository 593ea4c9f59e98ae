//! The bad gates of a layout.
ghost use Rattle.std.specs.Prelude.{◌≡◌, ◌++◌, ◌<◌, length, IfOk, OnOk};
ghost use Rattle.cell_graph.specs.Linked.{plain};
ghost use Rattle.deep_tables.specs.Gates.{AreGates};
ghost use Rattle.deep_tables.specs.Nets.{AreRightNets};
ghost use Rattle.flat_layout.specs.Nets.{Tables};
ghost use Rattle.rule_layers.specs.Meaning.{wiring_of};
ghost use Rattle.rule_text.specs.Seen.{rules_seen};
ghost use Rattle.std.specs.List.{flat_map};
ghost use Rattle.rule_text.specs.Rules.{class_in};
ghost use Rattle.deep_flow.specs.Bad.{HaveRules, class_at, device_count, told_gates, told_of};

use cell_graph::Design;
use deep_tables::{BadGate, Gate, GateState, Gates};
use net_names::Name;
use rule_text::{MoreRule, RuleSet};
use std::alloc::{AllocError, Global};

fn further_class(rule: &MoreRule) -> &Name
    ensures { result.now ≡ class_in rule.now }
{
    match rule {
        MoreRule::Resistor { class, .. } => class,
        MoreRule::Diode { class, .. } => class,
    }
}

// The class of a device rule, as the rule file writes it.
fn class_at(rules: &RuleSet, device: u32) -> &Name
    requires { device < device_count (rules_seen rules.now) }
    ensures { result.now ≡ class_at (rules_seen rules.now) device }
{
    let at = device as usize;
    let count = rules.devices.len();
    if at < count {
        return &rules.devices[at].class;
    }
    further_class(&rules.more[at - count])
}

// Adds a gate of the cell where it is bad.
fn push_bad(
    alloc: Global,
    cell: u32,
    gate: &Gate,
    rules: &RuleSet,
    bad: &mut Vec<BadGate>,
) -> Result<(), AllocError>
    requires { gate.now.device < device_count (rules_seen rules.now) }
    ensures { OnOk result (bad.new.items
        ≡ bad.old.items ++ told_of (rules_seen rules.now) cell gate.now) }
{
    let GateState::Bad(cause) = gate.state else {
        return Ok(());
    };
    let class = class_at(rules, gate.device);
    bad.push(BadGate {
        cell,
        class: class.try_clone(alloc)?,
        least: gate.least,
        cause,
    })?;
    Ok(())
}

// Adds the bad gates of a cell.
fn push_cell(
    alloc: Global,
    cell: u32,
    gates: &[Gate],
    rules: &RuleSet,
    bad: &mut Vec<BadGate>,
) -> Result<(), AllocError>
    requires { HaveRules (device_count (rules_seen rules.now)) gates.now }
    ensures { OnOk result (bad.new.items
        ≡ bad.old.items ++ flat_map (told_of (rules_seen rules.now) cell) gates.now) }
{
    for gate in gates {
        push_bad(alloc, cell, gate, rules, bad)?;
    }
    Ok(())
}

/// The bad gates of each reached cell's own list: the cells in the design's order, and each cell's
/// gates in theirs. Linear in the gates.
pub fn bad_gates(
    alloc: Global,
    design: &Design,
    rules: &RuleSet,
    gates: &Gates,
) -> Result<Vec<BadGate>, AllocError>
    requires gates { AreGates (plain design.now) (rules_seen rules.now) gates.now }
    requires nets { (t : Tables)
        × AreRightNets (plain design.now) (wiring_of (rules_seen rules.now)) t }
    ensures { IfOk result (λ v. v.items
        ≡ told_gates (rules_seen rules.now) gates.now design.now.order) }
{
    design.sound();
    let mut bad = Vec::new(alloc);
    for cell in design.order() {
        push_cell(alloc, *cell, gates.of(*cell), rules, &mut bad)?;
    }
    Ok(bad)
}
