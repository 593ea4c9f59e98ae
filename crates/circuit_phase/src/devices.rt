//! The devices of a circuit.
ghost use Rattle.std.specs.Prelude.{◌≡◌, ◌<◌, ◌≤◌, ◌*◌, ℕ, Some};
ghost use Rattle.std.specs.Prelude.{length, slice_get, get_or, take, ◌^◌, IfOk, OnErr, OnOk};
ghost use Rattle.flat_layout.specs.Gates.{Rule, sizes_of, width_of};
ghost use Rattle.flat_layout.specs.GateTables.{device_by};
ghost use Rattle.net_model.specs.Rows.{plain_device};
ghost use Rattle.rule_layers.specs.Meaning.{device_rules, more_rule};
ghost use Rattle.rule_text.specs.Rules.{Rules};
ghost use Rattle.rule_text.specs.Seen.{rules_seen};
ghost use Rattle.circuit_phase.specs.Devices.{gate_row};
ghost use Rattle.circuit_phase.specs.Numbering.{AreNumbersOf};

use crate::numbering::Numbering;
use fixed_num::Femto;
use net_model::DeviceRow;
use net_names::{Name, folded};
use plain_netlist::DeviceKind;
use rule_text::{MoreRule, RuleSet};
use std::alloc::{AllocError, Global};

/// A size in femtometres, from twice its length in sides of unit squares, with the unit in
/// picometres. It takes no memory; 2^128 femtometres or more are taken for want of it. No gate of a
/// layout is so large: its sizes are below 2^76 sides, and its unit is at most 1,000,000.
pub fn size(twice: u128, unit_pm: u32) -> Result<Femto, AllocError>
    ensures size { IfOk result (λ s. s.0 ≡ twice * (unit_pm * 500)) }
    ensures err { OnErr result (2 ^ 128 ≤ twice * (unit_pm * 500)) }
{
    match twice.checked_mul(u128::from(unit_pm) * 500) {
        Some(size) => Ok(Femto(size)),
        None => Err(AllocError),
    }
}

/// The numbers of at most four nets, in their order, and 0 behind them.
pub fn number_terminals(numbering: &mut Numbering, nets: &[u32]) -> Result<[u32; 4], AllocError>
    requires few { length nets.now ≤ 4 }
    requires nets { (i : ℕ) → i < length nets.now → get_or nets.now i 0 < numbering.old.count }
    ensures count { OnOk result (numbering.new.count ≡ numbering.old.count) }
    ensures numbers { IfOk result (λ on. AreNumbersOf numbering.old.nets numbering.new.nets
        nets.now (take (length nets.now) on)) }
    ensures four { IfOk result (λ on. length on ≡ 4) }
{
    let mut on = [0; 4];
    for i in 0..nets.len() {
        on[i] = numbering.number(nets[i])?;
    }
    Ok(on)
}

/// An area in square picometres, from so many unit squares, with the unit in picometres. It takes no
/// memory; 2^128 square picometres or more are taken for want of it. No region of a layout is so
/// large: it has fewer than 2^75 squares.
pub fn area(squares: u128, unit_pm: u32) -> Result<Femto, AllocError>
    ensures area { IfOk result (λ s. s.0 ≡ squares * (unit_pm * unit_pm)) }
    ensures err { OnErr result (2 ^ 128 ≤ squares * (unit_pm * unit_pm)) }
{
    let square = u128::from(unit_pm) * u128::from(unit_pm);
    match squares.checked_mul(square) {
        Some(area) => Ok(Femto(area)),
        None => Err(AllocError),
    }
}

fn further_class(alloc: Global, rule: &MoreRule) -> Result<Name, AllocError>
    ensures { IfOk result (λ name. (r : Rules) → name ≡ (more_rule r rule.now).class) }
{
    match rule {
        MoreRule::Resistor { class, .. } => folded(alloc, class),
        MoreRule::Diode { class, .. } => folded(alloc, class),
    }
}

// The class of a device rule, folded.
fn class_of(alloc: Global, rules: &RuleSet, device: u32) -> Result<Name, AllocError>
    requires { device < length (device_rules (rules_seen rules.now)) }
    ensures { IfOk result (λ name. (u : Rule)
        → slice_get (device_rules (rules_seen rules.now)) device ≡ Some u → name ≡ u.class) }
{
    let at = device as usize;
    let count = rules.devices.len();
    if at < count {
        return folded(alloc, &rules.devices[at].class);
    }
    further_class(alloc, &rules.more[at - count])
}

// The width of a resistor, the area of a diode.
fn further_width(rule: &MoreRule, twice_w: u128, unit_pm: u32) -> Result<Femto, AllocError>
    ensures { IfOk result (λ s. (r : Rules) → s.0 ≡ width_of (more_rule r rule.now) unit_pm
        twice_w) }
{
    match rule {
        MoreRule::Resistor { .. } => size(twice_w, unit_pm),
        MoreRule::Diode { .. } => area(twice_w, unit_pm),
    }
}

// The width of a device rule's devices, or the area of a diode.
fn width(rules: &RuleSet, device: u32, twice_w: u128, unit_pm: u32) -> Result<Femto, AllocError>
    requires { device < length (device_rules (rules_seen rules.now)) }
    ensures { IfOk result (λ s. (u : Rule)
        → slice_get (device_rules (rules_seen rules.now)) device ≡ Some u
        → s.0 ≡ width_of u unit_pm twice_w) }
{
    let at = device as usize;
    let count = rules.devices.len();
    if at < count {
        let width = size(twice_w, unit_pm)?;
        return Ok(width);
    }
    let width = further_width(&rules.more[at - count], twice_w, unit_pm)?;
    Ok(width)
}

/// A good gate: its kind, twice its width and its length in sides of unit squares, or of a diode its
/// squares and twice its boundary edges, and its terminals' nets in the order of a `DeviceRow`'s.
#[derive(Clone, Copy)]
pub struct GateRow {
    pub kind: DeviceKind,
    pub twice_w: u128,
    pub twice_l: u128,
    pub nets: [u32; 4],
}

/// The device of a good gate for the device rule of this number: its kind, its rule's class, its
/// sizes, and its terminals' nets. Constant time beside the class.
pub fn device_row(
    alloc: Global,
    rules: &RuleSet,
    device: u32,
    unit_pm: u32,
    gate: &GateRow,
) -> Result<DeviceRow, AllocError>
    requires { device < length (device_rules (rules_seen rules.now)) }
    ensures { IfOk result (λ row. (u : Rule)
        → slice_get (device_rules (rules_seen rules.now)) device ≡ Some u
        → plain_device row ≡ device_by u (sizes_of u unit_pm gate.now.twice_w gate.now.twice_l)
        (gate_row gate.now.kind gate.now.twice_w gate.now.twice_l gate.now.nets)) }
{
    let class = class_of(alloc, rules, device)?;
    let length = size(gate.twice_l, unit_pm)?;
    let width = width(rules, device, gate.twice_w, unit_pm)?;
    Ok(DeviceRow {
        kind: gate.kind,
        class,
        sizes: [length, width],
        nets: gate.nets,
    })
}
