//! A layout's shapes file, and what a summary line counts in it.

ghost use Rattle.std.specs.Prelude.{None, IfOk};
ghost use Rattle.cell_graph.specs.Linked.{plain};
ghost use Rattle.deep_tables.specs.Layers.{AreLayers};
ghost use Rattle.layout_shapes.specs.Wide.{IsFirstWide};
ghost use Rattle.layout_shapes.specs.Writable.{IsWritable};
ghost use Rattle.rule_text.specs.Seen.{rules_seen};
ghost use Rattle.rule_text.specs.Sound.{IsSound};
ghost use Rattle.shapes_file.specs.File.{IsDrawing, IsShapesFile};

use crate::count::count_rectangles;
use deep_flow::derive_layers;
use deep_tables::{Layers, layer_table};
use gds_layout::Layout;
use job_board::{Crew, Gate};
use layout_shapes::{shapes_text, wide_cell};
use rule_text::RuleSet;
use std::alloc::{AllocError, Global};
use std::sync::Wait;
use std::thread::Threads;

/// A shapes file, complete in memory: a GDSII stream, how many cells stand in it, and how many
/// rectangles in all these cells, fewer than its bytes.
#[derive(Drop)]
pub struct Shapes {
    pub text: Vec<u8>,
    pub cells: u32,
    pub rectangles: u64,
}

/// A layout's shapes file, or the first cell in the order of the file for which there is none: it
/// holds a rectangle of an output line itself with a coordinate outside 32 bits, or its hull, grown
/// as far as output lines' names reach, leaves the range of hulls.
#[derive(Drop)]
pub enum Drawing {
    Whole(Shapes),
    Wide(u32),
}

/// The shapes file of a layout for which a stream has room: the cells that the top reaches, each
/// with its references and the squares that it holds itself of each output line of the rules.
/// Nothing is flattened: a cell is worked once, however often it is placed. The answer is the same
/// for every number of workers, of which there are 1 to 64. An `Err` is want of memory. Cost: the
/// layers of each cell, and the bytes written.
pub fn shapes_file<R: Threads + Wait + Sync, G: Gate + Sync>(
    alloc: Global,
    layout: &Layout,
    rules: &RuleSet,
    crew: &Crew<R, G>,
) -> Result<Drawing, AllocError>
    requires layout { IsWritable layout.now }
    requires rules { IsSound (rules_seen rules.now) }
    ensures { IfOk result (IsDrawing layout.now (rules_seen rules.now)) }
{
    let layers = derive_layers(alloc, &layout.design, rules, crew)?;
    shapes_of_layers(alloc, layout, rules, &layers)
}

/// The shapes file of a layout for which a stream has room, over its layers. An `Err` is want of
/// memory. Linear in what the cells hold of the output lines, and in the bytes written.
pub fn shapes_of_layers(
    alloc: Global,
    layout: &Layout,
    rules: &RuleSet,
    layers: &Layers,
) -> Result<Drawing, AllocError>
    requires layout { IsWritable layout.now }
    requires rules { IsSound (rules_seen rules.now) }
    requires layers { AreLayers (plain layout.now.design) (rules_seen rules.now) layers.now }
    ensures { IfOk result (IsDrawing layout.now (rules_seen rules.now)) }
{
    match wide_cell(alloc, layout, rules, layers)? {
        Some(cell) => Ok(Drawing::Wide(cell)),
        None => Ok(Drawing::Whole(write_file(alloc, layout, rules, layers)?)),
    }
}

fn write_file(
    alloc: Global,
    layout: &Layout,
    rules: &RuleSet,
    layers: &Layers,
) -> Result<Shapes, AllocError>
    requires layout { IsWritable layout.now }
    requires rules { IsSound (rules_seen rules.now) }
    requires layers { AreLayers (plain layout.now.design) (rules_seen rules.now) layers.now }
    requires narrow { IsFirstWide layout.now.design (rules_seen rules.now) layers.now None }
    ensures { IfOk result (λ s. IsShapesFile layout.now (rules_seen rules.now) s.text.items s.cells
        s.rectangles) }
{
    layout.design.sound();
    layer_table();
    let text = shapes_text(alloc, layout, rules, layers)?;
    let order = layout.design.order();
    let rectangles = count_rectangles(rules, layers, order);
    Ok(Shapes {
        text,
        cells: order.len() as u32,
        rectangles,
    })
}
