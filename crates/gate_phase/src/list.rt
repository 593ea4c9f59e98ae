//! The regions of a cell's list.
ghost use Rattle.std.specs.Prelude.{◌≡◌, ◌<◌, ◌≤◌, ◌++◌, Some, length, map, slice_get, IfOk};
ghost use Rattle.std.specs.Prelude.{OnOk};
ghost use Rattle.deep_tables.specs.Nets.{AreRightNets};
ghost use Rattle.flat_layout.specs.Gates.{Rule};
ghost use Rattle.rule_layers.specs.Meaning.{device_rules, globals_of};
ghost use Rattle.gate_phase.specs.Judged.{AreRuleGates, GoOn, rule_grounds};
ghost use Rattle.gate_phase.specs.Site.{IsReadySite, layout_at, rules_at, wiring_at};
ghost use Rattle.gate_phase.specs.Terminals.{grounds_by, grounds_seen};

use crate::bulks::Grounds;
use crate::device::device_at;
use crate::judged::judged_gates;
use crate::own::own_gates;
use crate::site::{DeviceSite, Site};
use crate::terminals::Terminals;
use deep_tables::Gate;
use net_walk::Cells;
use std::alloc::{AllocError, Global};

/// Adds gates behind others. Where there are none, the list itself is taken, and nothing is copied.
pub fn push_all(gates: &mut Vec<Gate>, more: Vec<Gate>) -> Result<(), AllocError>
    ensures { OnOk result (gates.new.items ≡ gates.old.items ++ more.items) }
{
    if gates.is_empty() {
        *gates = more;
        return Ok(());
    }
    for gate in more {
        gates.push(gate)?;
    }
    Ok(())
}

// The regions of a cell's list for a device rule.
fn rule_gates<C: Cells>(
    alloc: Global,
    site: &Site,
    cells: &C,
    number: u32,
    grounds: Grounds,
    globals: u32,
) -> Result<Vec<Gate>, AllocError>
    requires ready { IsReadySite site.now }
    requires known { number < length (device_rules (rules_at site.now)) }
    requires design { C.design cells.now ≡ layout_at site.now }
    requires wiring { C.wiring cells.now ≡ wiring_at site.now }
    requires nets { AreRightNets (layout_at site.now) (wiring_at site.now) (C.tables cells.now) }
    requires grounds { (u : Rule) → slice_get (device_rules (rules_at site.now)) number ≡ Some u
        → grounds_by (wiring_at site.now) u ≡ grounds_seen grounds }
    requires globals { globals ≡ length (globals_of (rules_at site.now)) }
    ensures { IfOk result (λ v. (u : Rule)
        → slice_get (device_rules (rules_at site.now)) number ≡ Some u
        → AreRuleGates (layout_at site.now) (rules_at site.now) u number site.now.cell v.items) }
{
    site.design.sound();
    let device = device_at(site.rules, number);
    let reach = site.layers.device_reach(&device);
    let at = DeviceSite {
        site: *site,
        number,
        device,
        reach,
    };
    let own = own_gates(alloc, &at)?;
    let terminals = Terminals {
        cells,
        cell: site.cell,
        device,
        grounds,
        globals,
    };
    judged_gates(alloc, &terminals, number, own)
}

/// The regions of a cell's list for the device rules from one number up to another, by rule, then
/// least square: the good ones with their sizes and the nets of their terminals, the bad ones with
/// their first cause. The globals of the device rules, and the number of all globals, are given.
pub fn cell_gates<C: Cells>(
    alloc: Global,
    site: &Site,
    cells: &C,
    from: u32,
    to: u32,
    grounds: &[Grounds],
    globals: u32,
) -> Result<Vec<Gate>, AllocError>
    requires ready { IsReadySite site.now }
    requires from { from ≤ to }
    requires to { to ≤ length (device_rules (rules_at site.now)) }
    requires design { C.design cells.now ≡ layout_at site.now }
    requires wiring { C.wiring cells.now ≡ wiring_at site.now }
    requires nets { AreRightNets (layout_at site.now) (wiring_at site.now) (C.tables cells.now) }
    requires grounds { map grounds_seen grounds.now ≡ rule_grounds (rules_at site.now) }
    requires globals { globals ≡ length (globals_of (rules_at site.now)) }
    ensures { IfOk result (λ v. GoOn (layout_at site.now) (rules_at site.now) site.now.cell from to
        v.items) }
{
    let mut gates = Vec::new(alloc);
    for device in from..to {
        let ground = grounds[device as usize];
        let found = rule_gates(alloc, site, cells, device, ground, globals)?;
        push_all(&mut gates, found)?;
    }
    Ok(gates)
}
