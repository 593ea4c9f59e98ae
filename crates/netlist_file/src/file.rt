//! A layout's shapes file, its netlist and the netlist's text.

ghost use Rattle.std.specs.Prelude.{◌≡◌, IfOk};
ghost use Rattle.cell_graph.specs.Linked.{plain};
ghost use Rattle.deep_tables.specs.Layers.{AreLayers};
ghost use Rattle.layout_shapes.specs.Writable.{IsWritable};
ghost use Rattle.net_model.specs.Rows.{plain_netlist};
ghost use Rattle.netlist_file.specs.File.{AreFiles, HasNetlist, IsExtracted};
ghost use Rattle.rule_text.specs.Seen.{rules_seen};
ghost use Rattle.rule_text.specs.Sound.{IsSound};
ghost use Rattle.shapes_file.specs.File.{IsDrawing};
ghost use Rattle.spice_text.specs.Written.{IsWritten};

use crate::{extracted_text, spelled};
use deep_flow::extract;
use deep_tables::{BadGate, Layers};
use gds_layout::Layout;
use job_board::{Crew, Gate};
use net_model::Netlist;
use rule_text::RuleSet;
use shapes_file::{Drawing, Shapes, shapes_of_layers};
use spice_text::write_spice;
use std::alloc::{AllocError, Global};
use std::sync::Wait;
use std::thread::Threads;

/// A layout's netlist, complete in memory: with the number of the top's circuit, the layout's bad
/// gates, and the netlist's text.
#[derive(Drop)]
pub struct NetlistFile {
    pub netlist: Netlist,
    pub top: u32,
    pub bad: Vec<BadGate>,
    pub text: Vec<u8>,
}

/// What is extracted from a layout: its shapes file and its netlist.
#[derive(Drop)]
pub struct Extraction {
    pub shapes: Shapes,
    pub file: NetlistFile,
}

/// What is extracted from a layout, or the first cell in the order of the file for which there is
/// no shapes file.
#[derive(Drop)]
pub enum Files {
    Whole(Extraction),
    Wide(u32),
}

// What is extracted from a layout, but for the texts.
#[derive(Drop)]
struct Cells {
    layers: Layers,
    netlist: Netlist,
    top: u32,
    bad: Vec<BadGate>,
}

// A layout's layers, its netlist and its bad gates; all else that was found for its cells is let
// go.
fn extracted<R: Threads + Wait + Sync, G: Gate + Sync>(
    alloc: Global,
    layout: &Layout,
    rules: &RuleSet,
    crew: &Crew<R, G>,
) -> Result<Cells, AllocError>
    requires rules { IsSound (rules_seen rules.now) }
    ensures { IfOk result (IsExtracted layout.now (rules_seen rules.now)) }
{
    layout.design.sound();
    let unit_pm = layout.header.unit_pm;
    let found = extract(alloc, &layout.design, rules, unit_pm, crew)?;
    extracted_text();
    spelled(&found.netlist);
    Ok(Cells {
        layers: found.layers,
        netlist: found.netlist,
        top: found.top,
        bad: found.bad,
    })
}

// The netlist file of what was extracted, with this text.
fn file_of(cells: Cells, text: Vec<u8>) -> NetlistFile
    ensures { result ≡ record {
      netlist = cells.netlist;
      top = cells.top;
      bad = cells.bad;
      text = text;
    } }
{
    NetlistFile {
        netlist: cells.netlist,
        top: cells.top,
        bad: cells.bad,
        text,
    }
}

// A layout's shapes file and its netlist's text, side by side.
fn both_texts<R: Threads, G>(
    alloc: Global,
    layout: &Layout,
    rules: &RuleSet,
    layers: &Layers,
    netlist: &Netlist,
    crew: &Crew<R, G>,
) -> (Result<Drawing, AllocError>, Result<Vec<u8>, AllocError>)
    requires layout { IsWritable layout.now }
    requires rules { IsSound (rules_seen rules.now) }
    requires layers { AreLayers (plain layout.now.design) (rules_seen rules.now) layers.now }
    ensures drawing { IfOk result.0 (IsDrawing layout.now (rules_seen rules.now)) }
    ensures text { IfOk result.1 (λ text. IsWritten (plain_netlist netlist.now) text.items) }
{
    let drawing = move || -> Result<Drawing, AllocError>
        requires { IsWritable layout.now × IsSound (rules_seen rules.now)
            × AreLayers (plain layout.now.design) (rules_seen rules.now) layers.now }
        ensures { IfOk result (IsDrawing layout.entry.now (rules_seen rules.entry.now)) }
    { shapes_of_layers(alloc, layout, rules, layers) };
    crew.both(drawing, || write_spice(alloc, netlist))
}

/// The netlist of a layout. It has a circuit for the top and for each reached cell with a good gate
/// in or below it; its text is SPICE, with sizes in micrometres. The bad gates are those of all
/// reached cells, the cells in the design's order. Nothing is flattened: a cell is worked once,
/// however often it is placed. The answer is the same for every number of workers, of which there
/// are 1 to 64. An `Err` is want of memory, or 2^32 circuits or nets of a cell. Cost:
/// the layers, nets, gates, pins and circuit of each cell, and the bytes written.
pub fn extract_netlist<R: Threads + Wait + Sync, G: Gate + Sync>(
    alloc: Global,
    layout: &Layout,
    rules: &RuleSet,
    crew: &Crew<R, G>,
) -> Result<NetlistFile, AllocError>
    requires rules { IsSound (rules_seen rules.now) }
    ensures { IfOk result (HasNetlist layout.now (rules_seen rules.now)) }
{
    let cells = extracted(alloc, layout, rules, crew)?;
    let text = write_spice(alloc, &cells.netlist)?;
    Ok(file_of(cells, text))
}

/// The shapes file and the netlist of a layout for which a stream has room, as `extract_netlist`
/// has it; or the first cell for which there is no shapes file. Two workers or more write both
/// texts at once. An `Err` is want of memory, or 2^32 circuits or nets of a cell. Cost: that of
/// `extract_netlist`, and the bytes written.
pub fn extract_files<R: Threads + Wait + Sync, G: Gate + Sync>(
    alloc: Global,
    layout: &Layout,
    rules: &RuleSet,
    crew: &Crew<R, G>,
) -> Result<Files, AllocError>
    requires layout { IsWritable layout.now }
    requires rules { IsSound (rules_seen rules.now) }
    ensures { IfOk result (AreFiles layout.now (rules_seen rules.now)) }
{
    let cells = extracted(alloc, layout, rules, crew)?;
    let (layers, netlist) = (&cells.layers, &cells.netlist);
    let (drawing, text) = both_texts(alloc, layout, rules, layers, netlist, crew);
    match drawing? {
        Drawing::Whole(shapes) => {
            let file = file_of(cells, text?);
            Ok(Files::Whole(Extraction { shapes, file }))
        }
        Drawing::Wide(cell) => Ok(Files::Wide(cell)),
    }
}
