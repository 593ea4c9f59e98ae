//! Circuits of cells.
ghost use Rattle.std.specs.Prelude.{◌≡◌, IfOk, IsSome, Some};
ghost use Rattle.deep_tables.specs.Entries.{entry, IsUpward};
ghost use Rattle.deep_tables.specs.Circuits.{circuit_at, drawn_at};

use crate::table::Table;
use cell_graph::Design;
use job_graph::{Defined, Results};
use net_model::Circuit;
use rule_text::RuleSet;
use std::alloc::{AllocError, Global};
use std::marker::Model;
use std::snapshot::Snapshot;

/// What circuits are made from: the layout, the rules, and the database unit in picometres. Tokens
/// of no bytes.
#[derive(Drop)]
pub struct CircuitKey {
    pub design: Snapshot<Design>,
    pub rules: Snapshot<RuleSet>,
    pub unit_pm: Snapshot<u32>,
}

/// A cell's circuit, where it has one, and for each net of the cell whether it is drawn.
/// A call names its circuit by its place among the circuits in the design's order.
#[derive(Drop)]
pub struct CellCircuit {
    pub circuit: Option<Circuit>,
    pub drawn: Vec<bool>,
}

impl Defined for CellCircuit {
    type Key = CircuitKey;

    ghost use Rattle.cell_graph.specs.Linked.{plain};
    ghost use Rattle.rule_text.specs.Seen.{rules_seen};
    ghost use Rattle.deep_tables.specs.Entries.{upward_cell};
    ghost use Rattle.deep_tables.specs.Circuits.{IsCellCircuit};

    ghost is_defined = { λ key job v. IsCellCircuit key.unit_pm.value (plain key.design.value)
        (rules_seen key.rules.value) (upward_cell key.design.value job) v };
}

/// The circuit of each cell that the top reaches. Contracts see a list with an entry, or none, for
/// each cell.
#[derive(Drop)]
pub struct Circuits {
    table: Table<CellCircuit>,
}

impl Model for Circuits {
    ghost use Rattle.std.specs.Prelude.{List, Option};
    ghost use Rattle.deep_tables.specs.declared.circuits.CellCircuit.{CellCircuit};

    ghost Value = { List (Option CellCircuit) };

    ghost view = { λ t. t.table };
}

impl Circuits {
    /// The table of a phase's results: its jobs go through the design's order.
    pub fn new(
        alloc: Global,
        design: &Design,
        results: Results<CellCircuit>,
    ) -> Result<Circuits, AllocError>
        ensures { IfOk result (IsUpward design.now results) }
    {
        let table = Table::upward(alloc, design, results)?;
        Ok(Circuits { table })
    }

    /// A cell's circuit, if it has one, in constant time.
    pub fn of(&self, cell: u32) -> &Option<Circuit>
        requires { IsSome (entry self.now cell) }
        ensures { circuit_at self.now cell ≡ Some result.now }
    {
        &self.table.of(cell).circuit
    }

    /// For each net of a cell, whether it is drawn, in constant time.
    pub fn drawn(&self, cell: u32) -> &[bool]
        requires { IsSome (entry self.now cell) }
        ensures { drawn_at self.now cell ≡ Some result.now }
    {
        &self.table.of(cell).drawn
    }
}
