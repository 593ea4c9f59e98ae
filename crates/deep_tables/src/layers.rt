//! Squares that cells hold themselves.
ghost use Rattle.std.specs.Prelude.{◌≡◌, IfOk, IsSome, Some};
ghost use Rattle.deep_tables.specs.Entries.{IsUpward};
ghost use Rattle.deep_tables.specs.Layers.{layer_of};

use crate::keys::DeepKey;
use crate::table::Table;
use cell_graph::Design;
use job_graph::{Defined, Results};
use rect_sets::RectSet;
use std::alloc::{AllocError, Global};
use std::marker::Model;

/// The squares that a cell holds itself, for each name of the rules. At a labels name there are
/// none.
#[derive(Drop)]
pub struct CellLayers {
    pub layers: Vec<RectSet>,
}

impl Defined for CellLayers {
    type Key = DeepKey;

    ghost use Rattle.cell_graph.specs.Linked.{plain};
    ghost use Rattle.rule_text.specs.Seen.{rules_seen};
    ghost use Rattle.deep_tables.specs.Entries.{upward_cell};
    ghost use Rattle.deep_tables.specs.Layers.{AreCellLayers};

    ghost is_defined = { λ key job v. AreCellLayers (plain key.design.value)
        (rules_seen key.rules.value) (upward_cell key.design.value job) v };
}

/// The squares that each cell that the top reaches holds itself. Contracts see a list with an
/// entry, or none, for each cell.
#[derive(Drop)]
pub struct Layers {
    table: Table<CellLayers>,
}

impl Model for Layers {
    ghost use Rattle.std.specs.Prelude.{List, Option};
    ghost use Rattle.deep_tables.specs.declared.layers.CellLayers.{CellLayers};

    ghost Value = { List (Option CellLayers) };

    ghost view = { λ t. t.table };
}

impl Layers {
    /// The table of a phase's results: its jobs go through the design's order.
    pub fn new(
        alloc: Global,
        design: &Design,
        results: Results<CellLayers>,
    ) -> Result<Layers, AllocError>
        ensures { IfOk result (IsUpward design.now results) }
    {
        let table = Table::upward(alloc, design, results)?;
        Ok(Layers { table })
    }

    /// The squares that a cell holds itself for a name, in constant time.
    pub fn local(&self, cell: u32, layer: u32) -> &RectSet
        requires { IsSome (layer_of self.now cell layer) }
        ensures { layer_of self.now cell layer ≡ Some result.now }
    {
        &self.table.of(cell).layers[layer as usize]
    }
}
