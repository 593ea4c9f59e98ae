//! A cell of a layout as records.

ghost use Rattle.std.specs.Prelude.{OnOk, ◌≡◌, ◌<◌, ◌++◌, map, length};
ghost use Rattle.std.specs.List.{All, flat_map};
ghost use Rattle.cell_graph.specs.Linked.{cell_at, places_at};
ghost use Rattle.gds_records.specs.Records.{record_bytes};
ghost use Rattle.gds_shapes.specs.References.{FitsReference, reference};
ghost use Rattle.gds_shapes.specs.Accepted.{FitsCell};
ghost use Rattle.gds_shapes.specs.Stream.{FitsLayer, layer, structure};
ghost use Rattle.rule_text.specs.Seen.{rules_seen};
ghost use Rattle.layout_shapes.specs.Writable.{CanWriteCell, CanWriteLine};
ghost use Rattle.layout_shapes.specs.Written.{drawn, line_of, ref_of};

use cell_graph::{Design, Place};
use deep_tables::Layers;
use gds_layout::Layout;
use gds_shapes::{Reference, write_cell_end, write_cell_start, write_layer, write_reference};
use rule_text::{Output, RuleSet};
use std::alloc::{AllocError, Global};

/// Appends a cell: its references in order, then what it holds of each output line in order.
pub fn write_cell(
    alloc: Global,
    out: &mut Vec<u8>,
    layout: &Layout,
    rules: &RuleSet,
    layers: &Layers,
    cell: u32,
) -> Result<(), AllocError>
    requires { CanWriteCell layout.now (rules_seen rules.now) layers.now cell }
    ensures fits { OnOk result (FitsCell (drawn layout.now (rules_seen rules.now) layers.now
        cell)) }
    ensures written { OnOk result (out.new.items ≡ out.old.items ++ flat_map record_bytes (structure
        (drawn layout.now (rules_seen rules.now) layers.now cell))) }
{
    let design = &layout.design;
    let dates = &layout.cell_dates[cell as usize];
    write_cell_start(alloc, out, dates, design.name(cell).bytes())?;
    write_references(alloc, out, design, cell)?;
    write_lines(out, rules, layers, cell)?;
    write_cell_end(out)
}

fn write_references(
    alloc: Global,
    out: &mut Vec<u8>,
    design: &Design,
    cell: u32,
) -> Result<(), AllocError>
    requires inside { cell < length design.now.cells }
    requires fits { All (λ p. FitsReference (ref_of design.now p)) (places_at
        (cell_at design.now cell)) }
    ensures { OnOk result (out.new.items ≡ out.old.items ++ flat_map record_bytes (flat_map
        reference (map (ref_of design.now) (places_at (cell_at design.now cell))))) }
{
    design.sound();
    for place in design.places(cell) {
        write_place(alloc, out, design, place)?;
    }
    Ok(())
}

fn write_place(
    alloc: Global,
    out: &mut Vec<u8>,
    design: &Design,
    place: &Place,
) -> Result<(), AllocError>
    requires inside { place.now.cell < length design.now.cells }
    requires fits { FitsReference (ref_of design.now place.now) }
    ensures { OnOk result (out.new.items ≡ out.old.items ++ flat_map record_bytes (reference
        (ref_of design.now place.now))) }
{
    let placed = Reference {
        cell: design.name(place.cell),
        motion: place.motion,
        columns: place.columns,
        rows: place.rows,
        column_step: place.column_step,
        row_step: place.row_step,
    };
    write_reference(alloc, out, &placed)
}

fn write_lines(
    out: &mut Vec<u8>,
    rules: &RuleSet,
    layers: &Layers,
    cell: u32,
) -> Result<(), AllocError>
    requires { All (CanWriteLine layers.now cell) rules.now.outputs.items }
    ensures fits { OnOk result (All FitsLayer (map (line_of layers.now cell)
        rules.now.outputs.items)) }
    ensures written { OnOk result (out.new.items ≡ out.old.items ++ flat_map record_bytes (flat_map
        layer (map (line_of layers.now cell) rules.now.outputs.items))) }
{
    for line in &rules.outputs {
        write_line(out, layers, cell, line)?;
    }
    Ok(())
}

fn write_line(
    out: &mut Vec<u8>,
    layers: &Layers,
    cell: u32,
    line: &Output,
) -> Result<(), AllocError>
    requires { CanWriteLine layers.now cell line.now }
    ensures fits { OnOk result (FitsLayer (line_of layers.now cell line.now)) }
    ensures written { OnOk result (out.new.items ≡ out.old.items ++ flat_map record_bytes (layer
        (line_of layers.now cell line.now))) }
{
    let squares = layers.local(cell, line.layer);
    write_layer(out, line.key, squares.rects())
}
