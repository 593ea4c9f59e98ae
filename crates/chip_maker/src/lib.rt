//! A chip made from a number: rows of inverters with a layout, the rules that extract it and a
//! schematic.
#![tactic(auto)]

mod cells;
mod elements;
mod inverters;
mod names;
mod rules;
mod schematic;
mod stream;

ghost use Rattle.std.specs.Prelude.{◌≡◌, ◌<◌, ◌≤◌, IfOk};
ghost use Rattle.chip_maker.specs.Rules.{chip_rules};
ghost use Rattle.chip_maker.specs.Schematic.{chip_netlist};
ghost use Rattle.chip_maker.specs.Stream.{chip_stream};

use crate::inverters::rows;
use crate::rules::rules_text;
use crate::schematic::netlist_text;
use crate::stream::stream_bytes;
use std::alloc::{AllocError, Global};

/// A chip's files: its layout as a GDSII stream, its rules, and its netlist in SPICE.
#[derive(Drop)]
pub struct Made {
    pub layout: Vec<u8>,
    pub rules: Vec<u8>,
    pub schematic: Vec<u8>,
}

/// The chip of `n` inverters, 1 to 100,000, whose kinds are drawn from the seed. The layout's and
/// the netlist's top is `TOP`. Linear in `n`. An `Err` is want of memory.
pub fn make(alloc: Global, n: u32, seed: u64) -> Result<Made, AllocError>
    requires some { 0 < n }
    requires most { n ≤ 100000 }
    ensures layout { IfOk result (λ made. made.layout.items ≡ chip_stream n seed) }
    ensures rules { IfOk result (λ made. made.rules.items ≡ chip_rules) }
    ensures schematic { IfOk result (λ made. made.schematic.items ≡ chip_netlist n seed) }
{
    let rows = rows(alloc, n, seed)?;
    let layout = stream_bytes(alloc, &rows)?;
    let rules = rules_text(alloc)?;
    let schematic = netlist_text(alloc, &rows)?;
    Ok(Made {
        layout,
        rules,
        schematic,
    })
}
