//! Pins and base names of cells.
ghost use Rattle.std.specs.Prelude.{◌≡◌, IfOk, IsSome, Some};
ghost use Rattle.deep_tables.specs.Entries.{entry, IsDownward};

use crate::keys::DeepKey;
use crate::table::Table;
use cell_graph::Design;
use job_graph::{Defined, Results};
use net_names::Name;
use std::alloc::{AllocError, Global};
use std::marker::Model;

/// For each net of a cell, whether it is a pin, and its base name: its texts and globals in byte
/// order, joined by commas; none
/// where it has none.
#[derive(Drop)]
pub struct CellPins {
    pub pin: Vec<bool>,
    pub names: Vec<Option<Name>>,
}

impl Defined for CellPins {
    type Key = DeepKey;

    ghost use Rattle.cell_graph.specs.Linked.{plain};
    ghost use Rattle.rule_text.specs.Seen.{rules_seen};
    ghost use Rattle.deep_tables.specs.Entries.{downward_cell};
    ghost use Rattle.deep_tables.specs.Pins.{AreCellPins};

    ghost is_defined = { λ key job v. AreCellPins (plain key.design.value)
        (rules_seen key.rules.value) (downward_cell key.design.value job) v };
}

/// The pins of each cell that the top reaches. Contracts see a list with an entry, or none, for
/// each cell.
#[derive(Drop)]
pub struct Pins {
    table: Table<CellPins>,
}

impl Model for Pins {
    ghost use Rattle.std.specs.Prelude.{List, Option};
    ghost use Rattle.deep_tables.specs.declared.pins.CellPins.{CellPins};

    ghost Value = { List (Option CellPins) };

    ghost view = { λ t. t.table };
}

impl Pins {
    /// The table of a phase's results: its jobs go through the design's order from its end.
    pub fn new(
        alloc: Global,
        design: &Design,
        results: Results<CellPins>,
    ) -> Result<Pins, AllocError>
        ensures { IfOk result (IsDownward design.now results) }
    {
        let table = Table::downward(alloc, design, results)?;
        Ok(Pins { table })
    }

    /// A cell's pins and base names, in constant time.
    pub fn of(&self, cell: u32) -> &CellPins
        requires { IsSome (entry self.now cell) }
        ensures { entry self.now cell ≡ Some result.now }
    {
        self.table.of(cell)
    }
}
