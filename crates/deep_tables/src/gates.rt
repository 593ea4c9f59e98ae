//! Gates of cells.
ghost use Rattle.std.specs.Prelude.{◌≡◌, IfOk, IsSome, Some};
ghost use Rattle.deep_tables.specs.Entries.{entry, IsUpward};
ghost use Rattle.deep_tables.specs.Gates.{list_of, plain_state};
ghost use Rattle.flat_layout.specs.GateTables.{verdict_nets};

use crate::keys::GateKey;
use crate::table::Table;
use cell_graph::Design;
use flat_layout::GateCause;
use geo_base::Square;
use job_graph::{Defined, Results};
use net_names::Name;
use plain_netlist::DeviceKind;
use rect_sets::RectSet;
use std::alloc::{AllocError, Global};
use std::marker::Model;

/// A good gate has the kind of its rule, twice its width and twice its length, in sides of unit
/// squares, and the nets of its terminals, in the order of a netlist's `DeviceRow`. Its first end,
/// of a transistor the source, is the group with the least square.
#[derive(Clone, Copy, Debug, PartialEq, Eq)]
pub enum GateState {
    Good {
        kind: DeviceKind,
        twice_w: u128,
        twice_l: u128,
        nets: [u32; 4],
    },
    Bad(GateCause),
}

/// A gate of a cell: its device rule, its squares, the first of these by y, then x, and the
/// verdict.
#[derive(Drop)]
pub struct Gate {
    pub device: u32,
    pub area: RectSet,
    pub least: Square,
    pub state: GateState,
}

impl Gate {
    /// The nets of a good gate's terminals, in the order of a netlist's `DeviceRow`. Constant time.
    pub fn terminal_nets(&self) -> &[u32]
        ensures { result.now ≡ verdict_nets (plain_state self.now.state) }
    {
        match &self.state {
            GateState::Good { kind, nets, .. } => &nets[..kind.terminals()],
            GateState::Bad(_) => &[],
        }
    }
}

/// The gates of a cell's own list, by device rule, then least square.
#[derive(Drop)]
pub struct CellGates {
    pub gates: Vec<Gate>,
}

impl Defined for CellGates {
    type Key = GateKey;

    ghost use Rattle.cell_graph.specs.Linked.{plain};
    ghost use Rattle.rule_text.specs.Seen.{rules_seen};
    ghost use Rattle.deep_tables.specs.Entries.{upward_cell};
    ghost use Rattle.deep_tables.specs.Gates.{AreListedGates};

    ghost is_defined = { λ key job v. AreListedGates key.further.value (plain key.design.value)
        (rules_seen key.rules.value) (upward_cell key.design.value job) v };
}

/// A bad gate of a layout: its cell, its rule's class, its least square in the cell, and why it is
/// bad.
#[derive(Drop)]
pub struct BadGate {
    pub cell: u32,
    pub class: Name,
    pub least: Square,
    pub cause: GateCause,
}

/// The gates of each cell that the top reaches. Contracts see a list with an entry, or none, for
/// each cell.
#[derive(Drop)]
pub struct Gates {
    table: Table<CellGates>,
}

impl Model for Gates {
    ghost use Rattle.std.specs.Prelude.{List, Option};
    ghost use Rattle.deep_tables.specs.declared.gates.CellGates.{CellGates};

    ghost Value = { List (Option CellGates) };

    ghost view = { λ t. t.table };
}

impl Gates {
    /// The table of a phase's results: its jobs go through the design's order.
    pub fn new(
        alloc: Global,
        design: &Design,
        results: Results<CellGates>,
    ) -> Result<Gates, AllocError>
        ensures { IfOk result (IsUpward design.now results) }
    {
        let table = Table::upward(alloc, design, results)?;
        Ok(Gates { table })
    }

    /// The gates of a cell's own list, in constant time.
    pub fn of(&self, cell: u32) -> &[Gate]
        requires { IsSome (entry self.now cell) }
        ensures { list_of (entry self.now cell) ≡ Some result.now }
    {
        &self.table.of(cell).gates
    }
}
