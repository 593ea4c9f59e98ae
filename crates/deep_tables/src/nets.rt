//! Nets of cells.
ghost use Rattle.std.specs.Prelude.{◌≡◌, IfOk, IsSome, Option, Some, ℕ};
ghost use Rattle.deep_tables.specs.Entries.{entry, IsUpward};
ghost use Rattle.deep_tables.specs.declared.nets.CellNets.{CellNets};

use crate::keys::DeepKey;
use crate::table::Table;
use cell_graph::Design;
use job_graph::{Defined, Results};
use std::alloc::{AllocError, Global};
use std::marker::Model;

/// What a net of a cell is made of.
#[derive(Clone, Copy, Debug, PartialEq, Eq)]
pub enum Item {
    /// A rectangle of the squares that the cell holds itself of a conductor, by the conductor's
    /// name and the rectangle's place.
    Own { conductor: u32, rect: u32 },
    /// A net of a placed cell. Placements are numbered by reference, then row, then column.
    Child { place: u64, net: u32 },
    /// A global, by its place among the different globals in the order of their first lines.
    Global { global: u32 },
}

/// The items of a cell in order, the net of each, and the number of nets. Nets are numbered by
/// their least item.
#[derive(Drop)]
pub struct CellNets {
    pub items: Vec<Item>,
    pub net_of: Vec<u32>,
    pub count: u32,
}

impl Defined for CellNets {
    type Key = DeepKey;

    ghost use Rattle.cell_graph.specs.Linked.{plain};
    ghost use Rattle.rule_text.specs.Seen.{rules_seen};
    ghost use Rattle.deep_tables.specs.Entries.{upward_cell};
    ghost use Rattle.deep_tables.specs.Nets.{AreCellNets};

    ghost is_defined = { λ key job v. AreCellNets (plain key.design.value)
        (rules_seen key.rules.value) (upward_cell key.design.value job) v };
}

/// Where the nets of cells are read: of all cells, or of those below the one that a phase works on.
pub trait NetSource {
    ghost may_read: { Self → ℕ → Type 0 };

    ghost nets: { Self → ℕ → Option CellNets };

    /// A cell's nets.
    fn of(&self, cell: u32) -> &CellNets
        requires { may_read self.now cell }
        ensures { nets self.now cell ≡ Some result.now };
}

/// The nets of each cell that the top reaches. Contracts see a list with an entry, or none, for
/// each cell.
#[derive(Drop)]
pub struct Nets {
    table: Table<CellNets>,
}

impl Model for Nets {
    ghost use Rattle.std.specs.Prelude.{List, Option};
    ghost use Rattle.deep_tables.specs.declared.nets.CellNets.{CellNets};

    ghost Value = { List (Option CellNets) };

    ghost view = { λ t. t.table };
}

impl Nets {
    /// The table of a phase's results: its jobs go through the design's order.
    pub fn new(
        alloc: Global,
        design: &Design,
        results: Results<CellNets>,
    ) -> Result<Nets, AllocError>
        ensures { IfOk result (IsUpward design.now results) }
    {
        let table = Table::upward(alloc, design, results)?;
        Ok(Nets { table })
    }

    /// A cell's nets, in constant time.
    pub fn of(&self, cell: u32) -> &CellNets
        requires { IsSome (entry self.now cell) }
        ensures { entry self.now cell ≡ Some result.now }
    {
        self.table.of(cell)
    }
}

impl NetSource for Nets {
    ghost use Rattle.std.specs.Prelude.{IsSome};
    ghost use Rattle.deep_tables.specs.Entries.{entry};

    ghost may_read = { λ t cell. IsSome (entry t cell) };

    ghost nets = { λ t cell. entry t cell };

    fn of(&self, cell: u32) -> &CellNets {
        self.table.of(cell)
    }
}
