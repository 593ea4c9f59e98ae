//! The devices of a circuit, of all gates of its cell.
ghost use Rattle.std.specs.Prelude.{◌≡◌, ◌<◌, ◌≤◌, ◌∷◌, [], Some, true, ℕ, length, map};
ghost use Rattle.std.specs.Prelude.{flat_map, slice_get, IfOk, OnOk};
ghost use Rattle.deep_tables.specs.Gates.{plain_gate, plain_state};
ghost use Rattle.deep_tables.specs.declared.gates.Gate.{Gate};
ghost use Rattle.flat_layout.specs.Circuits.{AreCircuitDevices};
ghost use Rattle.net_model.specs.Rows.{plain_device};
ghost use Rattle.plain_netlist.specs.Netlist.{Circuit};
ghost use Rattle.plain_netlist.specs.Devices.{terminal_nets};
ghost use Rattle.plain_netlist.specs.Normal.{AreNumbered};
ghost use Rattle.rule_layers.specs.Meaning.{device_rules};
ghost use Rattle.rule_text.specs.Seen.{rules_seen};
ghost use Rattle.circuit_phase.specs.Devices.{AddDevices};
ghost use Rattle.net_marks.specs.Marks.{has_terminal, is_terminal};
ghost use Rattle.circuit_phase.specs.Numbering.{AreKept};

use crate::devices::{GateRow, device_row, number_terminals};
use crate::numbering::Numbering;
use deep_tables::{Gate, GateState};
use net_model::DeviceRow;
use rule_text::RuleSet;
use std::alloc::{AllocError, Global};

// Adds the device of a gate where it is good.
fn push_device(
    alloc: Global,
    rules: &RuleSet,
    unit_pm: u32,
    gate: &Gate,
    numbering: &mut Numbering,
    rows: &mut Vec<DeviceRow>,
) -> Result<(), AllocError>
    requires rule { gate.now.device < length (device_rules (rules_seen rules.now)) }
    requires terminals { (x : ℕ) → is_terminal x (plain_state gate.now.state) ≡ true
        → x < numbering.old.count }
    ensures count { OnOk result (numbering.new.count ≡ numbering.old.count) }
    ensures devices { OnOk result (AddDevices (device_rules (rules_seen rules.now)) unit_pm
        (plain_gate gate.now ∷ []) numbering.old.nets numbering.new.nets
        (map plain_device rows.old.items) (map plain_device rows.new.items)) }
{
    if let GateState::Good {
        kind,
        twice_w,
        twice_l,
        ..
    } = gate.state
    {
        let on = number_terminals(numbering, gate.terminal_nets())?;
        let good = GateRow {
            kind,
            twice_w,
            twice_l,
            nets: on,
        };
        let row = device_row(alloc, rules, gate.device, unit_pm, &good)?;
        rows.push(row)?;
    }
    Ok(())
}

/// The devices of the good ones of a cell's gates, in order. Linear in the gates and the bytes
/// of their classes.
pub fn device_rows(
    alloc: Global,
    rules: &RuleSet,
    unit_pm: u32,
    gates: &[Gate],
    numbering: &mut Numbering,
) -> Result<Vec<DeviceRow>, AllocError>
    requires rules { (i : ℕ) (gate : Gate) → slice_get gates.now i ≡ Some gate
        → gate.device < length (device_rules (rules_seen rules.now)) }
    requires terminals { (x : ℕ) → has_terminal x (map plain_gate gates.now) ≡ true
        → x < numbering.old.count }
    ensures count { OnOk result (numbering.new.count ≡ numbering.old.count) }
    ensures kept { OnOk result (AreKept numbering.old.nets numbering.new.nets) }
    ensures devices { IfOk result (λ rows. (c : Circuit) → c.devices ≡ map plain_device rows.items
        → AreCircuitDevices (device_rules (rules_seen rules.now)) unit_pm
        (map plain_gate gates.now) numbering.new.nets c) }
    ensures numbered { IfOk result (λ rows. AreNumbered (length numbering.new.nets)
        (length numbering.old.nets) (flat_map terminal_nets (map plain_device rows.items))) }
{
    let mut rows = Vec::new(alloc);
    for gate in gates {
        push_device(alloc, rules, unit_pm, gate, numbering, &mut rows)?;
    }
    Ok(rows)
}
