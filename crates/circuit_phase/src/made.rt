//! The circuit of a cell, over what is read of the cells that it places.
ghost use Rattle.std.specs.Prelude.{◌≡◌, ◌<◌, ◌≤◌, ◌^◌, ℕ, List, Some, length};
ghost use Rattle.std.specs.Prelude.{map, slice_get, IfOk};
ghost use Rattle.deep_tables.specs.Circuits.{plain_or_none};
ghost use Rattle.deep_tables.specs.Gates.{plain_gate};
ghost use Rattle.deep_tables.specs.Nets.{plain_nets};
ghost use Rattle.deep_tables.specs.Pins.{plain_pins};
ghost use Rattle.deep_tables.specs.declared.gates.Gate.{Gate};
ghost use Rattle.flat_layout.specs.Circuits.{AreDrawn};
ghost use Rattle.flat_layout.specs.Layout.{Place, IsPlaced};
ghost use Rattle.flat_layout.specs.Pins.{HasGate};
ghost use Rattle.geo_base.specs.declared.shapes.Rect.{Rect};
ghost use Rattle.net_model.specs.Rows.{plain_circuit};
ghost use Rattle.rule_layers.specs.Meaning.{device_rules};
ghost use Rattle.rule_text.specs.Seen.{rules_seen};
ghost use Rattle.circuit_phase.specs.Made.{IsMadeOf, IsMadeOr};
ghost use Rattle.circuit_phase.specs.Placed.{AreNetsOver, placed_cells, tables_with};

use crate::calls::call_rows;
use crate::drawn::pin_nets;
use crate::named::circuit_net_names;
use crate::numbering::{Numbering, number_nets};
use crate::placed::Placed;
use crate::rows::device_rows;
use deep_tables::{CellNets, CellPins, Gate};
use list_base::number;
use net_model::Circuit;
use net_names::Name;
use rule_text::RuleSet;
use std::alloc::{AllocError, Global};

/// What is known of a cell: its number, the cells of its placements, its nets, its gates, its pins,
/// the device rules, and the database unit in picometres.
#[derive(Drop)]
pub struct CellParts<'a> {
    pub cell: u32,
    pub cells: &'a [u32],
    pub nets: &'a CellNets,
    pub gates: &'a [Gate],
    pub pins: &'a CellPins,
    pub rules: &'a RuleSet,
    pub unit_pm: u32,
}

/// The circuit of a cell under a name. 2^32 nets are refused. Linear in the gates, in the placements
/// and their cells' nets, and in the bytes of names.
pub fn cell_circuit<P: Placed>(
    alloc: Global,
    placed: &P,
    parts: &CellParts,
    drawn: &[bool],
    name: Name,
) -> Result<Circuit, AllocError>
    requires nets { P.nets placed.now parts.now.cell ≡ plain_nets parts.now.nets.now }
    requires right { AreNetsOver (P.design placed.now) (P.wiring placed.now) (P.nets placed.now)
        parts.now.cell (plain_nets parts.now.nets.now) }
    requires cells { parts.now.cells.now ≡ placed_cells (P.design placed.now) parts.now.cell }
    requires readable { (k : ℕ) (p : Place) → IsPlaced (P.design placed.now) parts.now.cell k p
        → P.may_read placed.now p.cell }
    requires terminals { (x : ℕ)
        → HasGate (λ c. map plain_gate parts.now.gates.now) parts.now.cell x
        → x < parts.now.nets.now.count }
    requires drawn { (own : ℕ → ℕ → List Rect)
        → AreDrawn (P.design placed.now) (tables_with own (P.nets placed.now))
        (λ c. map plain_gate parts.now.gates.now) (P.pins placed.now) (P.drawn placed.now)
        parts.now.cell drawn.now }
    requires pins { P.pins placed.now parts.now.cell ≡ plain_pins parts.now.pins.now }
    requires pin_count { length parts.now.pins.now.pin.items ≡ parts.now.nets.now.count }
    requires name_count { length parts.now.pins.now.names.items ≡ parts.now.nets.now.count }
    requires rules { (i : ℕ) (gate : Gate) → slice_get parts.now.gates.now i ≡ Some gate
        → gate.device < length (device_rules (rules_seen parts.now.rules.now)) }
    ensures name { IfOk result (λ c. c.name ≡ name) }
    ensures made { IfOk result (λ c. IsMadeOf (P.design placed.now) (P.nets placed.now)
        (P.pins placed.now) (P.drawn placed.now) (P.circuits placed.now) parts.now.cell
        (map plain_gate parts.now.gates.now) drawn.now
        (device_rules (rules_seen parts.now.rules.now)) parts.now.unit_pm (plain_circuit c)) }
{
    number(drawn.len())?;
    let mut numbering = Numbering::new(alloc, parts.nets.count)?;
    let first = pin_nets(alloc, parts.pins, drawn)?;
    let pins = number_nets(alloc, &first, &mut numbering)?;
    let devices = device_rows(
        alloc,
        parts.rules,
        parts.unit_pm,
        parts.gates,
        &mut numbering,
    )?;
    let calls = call_rows(
        alloc,
        placed,
        parts.cell,
        parts.cells,
        parts.nets,
        &mut numbering,
    )?;
    let on = numbering.into_nets();
    let nets = circuit_net_names(alloc, parts.pins, drawn, &on)?;
    Ok(Circuit {
        name,
        nets,
        pins,
        devices,
        calls,
    })
}

/// The circuit of a cell that has a number, under the name of that number; none of a cell without
/// one.
pub fn circuit_or_none<P: Placed>(
    alloc: Global,
    placed: &P,
    parts: &CellParts,
    drawn: &[bool],
    number: Option<u32>,
    names: &[Name],
) -> Result<Option<Circuit>, AllocError>
    requires nets { P.nets placed.now parts.now.cell ≡ plain_nets parts.now.nets.now }
    requires right { AreNetsOver (P.design placed.now) (P.wiring placed.now) (P.nets placed.now)
        parts.now.cell (plain_nets parts.now.nets.now) }
    requires cells { parts.now.cells.now ≡ placed_cells (P.design placed.now) parts.now.cell }
    requires readable { (k : ℕ) (p : Place) → IsPlaced (P.design placed.now) parts.now.cell k p
        → P.may_read placed.now p.cell }
    requires terminals { (x : ℕ)
        → HasGate (λ c. map plain_gate parts.now.gates.now) parts.now.cell x
        → x < parts.now.nets.now.count }
    requires drawn { (own : ℕ → ℕ → List Rect)
        → AreDrawn (P.design placed.now) (tables_with own (P.nets placed.now))
        (λ c. map plain_gate parts.now.gates.now) (P.pins placed.now) (P.drawn placed.now)
        parts.now.cell drawn.now }
    requires pins { P.pins placed.now parts.now.cell ≡ plain_pins parts.now.pins.now }
    requires pin_count { length parts.now.pins.now.pin.items ≡ parts.now.nets.now.count }
    requires name_count { length parts.now.pins.now.names.items ≡ parts.now.nets.now.count }
    requires rules { (i : ℕ) (gate : Gate) → slice_get parts.now.gates.now i ≡ Some gate
        → gate.device < length (device_rules (rules_seen parts.now.rules.now)) }
    requires names { (n : ℕ) → number ≡ Some n → n < length names.now }
    ensures { IfOk result (λ o. IsMadeOr (P.design placed.now) (P.nets placed.now)
        (P.pins placed.now) (P.drawn placed.now) (P.circuits placed.now) parts.now.cell
        (map plain_gate parts.now.gates.now) drawn.now
        (device_rules (rules_seen parts.now.rules.now)) parts.now.unit_pm names.now number
        (plain_or_none o)) }
{
    let n = match number {
        None => return Ok(None),
        Some(n) => n,
    };
    let name = names[n as usize].try_clone(alloc)?;
    let circuit = cell_circuit(alloc, placed, parts, drawn, name)?;
    Ok(Some(circuit))
}
