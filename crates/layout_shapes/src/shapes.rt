//! The stream of a whole layout.

ghost use Rattle.std.specs.Prelude.{IfOk, OnOk, ◌≡◌, ◌++◌, map, None};
ghost use Rattle.std.specs.List.{All, flat_map};
ghost use Rattle.cell_graph.specs.Linked.{plain};
ghost use Rattle.deep_tables.specs.Layers.{AreLayers};
ghost use Rattle.gds_records.specs.Records.{record_bytes};
ghost use Rattle.gds_shapes.specs.Data.{IsShort};
ghost use Rattle.gds_shapes.specs.Accepted.{FitsCell};
ghost use Rattle.gds_shapes.specs.Stream.{header, structure};
ghost use Rattle.rule_text.specs.Seen.{rules_seen};
ghost use Rattle.rule_text.specs.Sound.{IsSound};
ghost use Rattle.layout_shapes.specs.Wide.{IsFirstWide};
ghost use Rattle.layout_shapes.specs.Writable.{IsWritable, CanWriteCell};
ghost use Rattle.layout_shapes.specs.Written.{AreReached, IsWritten, drawn, heading_of};

use crate::cells::write_cell;
use cell_graph::Design;
use deep_tables::{Layers, layer_table};
use gds_layout::{Header, Layout};
use gds_shapes::{Heading, write_end, write_heading, written};
use rule_text::RuleSet;
use std::alloc::{AllocError, Global};

/// The stream of a layout (GDSII Stream Format, Release 6), which a reader of the format reads as
/// the cells that the top reaches, in the order of the file: each with its dates, its name, its
/// references in order, and then the squares that it holds itself of each output line of the rules
/// in order, a rectangle as a boundary. Cells, references and arrays stand as they are; nothing is
/// spelled out, and texts aren't written. No such cell holds a rectangle that is wider than the
/// stream has room for, or lies too far out to be read back (`wide_cell`). An `Err` is want of
/// memory. Cost: the bytes written.
pub fn shapes_text(
    alloc: Global,
    layout: &Layout,
    rules: &RuleSet,
    layers: &Layers,
) -> Result<Vec<u8>, AllocError>
    requires layout { IsWritable layout.now }
    requires rules { IsSound (rules_seen rules.now) }
    requires layers { AreLayers (plain layout.now.design) (rules_seen rules.now) layers.now }
    requires narrow { IsFirstWide layout.now.design (rules_seen rules.now) layers.now None }
    ensures { IfOk result (λ text. IsWritten layout.now (rules_seen rules.now) layers.now
        text.items) }
{
    layout.design.sound();
    layer_table();
    written();
    let cells = reached_cells(alloc, &layout.design)?;
    let mut out = Vec::new(alloc);
    write_header(alloc, &mut out, &layout.header)?;
    write_cells(alloc, &mut out, layout, rules, layers, &cells)?;
    write_end(&mut out)?;
    Ok(out)
}

// The cells that the top reaches, in the order of the file.
fn reached_cells(alloc: Global, design: &Design) -> Result<Vec<u32>, AllocError>
    ensures { IfOk result (λ v. AreReached design.now v.items) }
{
    design.sound();
    let mut cells = design.order().to_vec(alloc)?;
    cells.sort_unstable();
    Ok(cells)
}

fn write_header(alloc: Global, out: &mut Vec<u8>, head: &Header) -> Result<(), AllocError>
    requires { IsShort head.now.name.items }
    ensures { OnOk result (out.new.items ≡ out.old.items ++ flat_map record_bytes (header
        (heading_of head.now))) }
{
    let heading = Heading {
        version: head.version,
        dates: head.dates,
        name: &head.name,
        units: head.units,
    };
    write_heading(alloc, out, &heading)
}

fn write_cells(
    alloc: Global,
    out: &mut Vec<u8>,
    layout: &Layout,
    rules: &RuleSet,
    layers: &Layers,
    cells: &[u32],
) -> Result<(), AllocError>
    requires { All (CanWriteCell layout.now (rules_seen rules.now) layers.now) cells.now }
    ensures fits { OnOk result (All FitsCell (map (drawn layout.now (rules_seen rules.now)
        layers.now) cells.now)) }
    ensures written { OnOk result (out.new.items ≡ out.old.items ++ flat_map record_bytes (flat_map
        structure (map (drawn layout.now (rules_seen rules.now) layers.now) cells.now))) }
{
    for cell in cells {
        write_cell(alloc, out, layout, rules, layers, *cell)?;
    }
    Ok(())
}
