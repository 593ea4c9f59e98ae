//! What is drawn of the circuits of a layout's netlist.

ghost use Rattle.std.specs.Prelude.{◌≡◌, ◌++◌, ◌∷◌, [], IfOk, IfSome, IsErrOf, OnOk, Some};
ghost use Rattle.std.specs.Prelude.{map, slice_get, true};
ghost use Rattle.deep_tables.specs.Circuits.{value_of};
ghost use Rattle.net_model.specs.Rows.{plain_circuit};
ghost use Rattle.spice_text.specs.Needs.{first_seen};
ghost use Rattle.view_drawing.specs.Calls.{has_circuit};
ghost use Rattle.view_drawing.specs.Devices.{AddsRegions, AreSmallRegions, areas_of};
ghost use Rattle.view_drawing.specs.Drawn.{listed_tables};
ghost use Rattle.view_netlist.specs.Drawing.{AreAllSmall, IsSmallDrawing, plain_drawing};
ghost use Rattle.view_shapes.specs.Shown.{called_by};
ghost use Rattle.view_picture.specs.Far.{HasFarCell};
ghost use Rattle.view_picture.specs.Picture.{AreAllDrawn, AreDrawn, IsDrawable};
ghost use Rattle.view_picture.specs.Picture.{IsDrawnAs, IsDrawnIn, IsReachedIn, plain_drawings};

use crate::parts::device_places;
use net_model::Circuit;
use net_names::Name;
use std::alloc::{AllocError, Global};
use text_table::TextTable;
use view_drawing::{DeviceRegions, Lists, Source, draw_cell, name_table};
use view_labels::{same_rows, shown_cell, shown_numbers};
use view_netlist::Drawing;
use view_shapes::ShowFault;

/// What was found of a layout: its cells in lists, the cells with circuits, the names of their
/// circuits.
#[derive(Clone, Copy)]
pub struct Given<'a, 'b> {
    pub source: Source<'a>,
    pub lists: &'b Lists<'a>,
    pub cells: &'b [u32],
    pub names: &'b [Name],
}

// What is drawn of a circuit whose cell has this one: nothing, unless it has its rows; devices
// where the cell's stand that they are, or are made of.
fn draw_found(
    alloc: Global,
    given: Given,
    shown: &[u32],
    cell: u32,
    left: &Circuit,
    found: &Circuit,
    regions: &mut DeviceRegions,
) -> Result<Drawing, ShowFault>
    requires given { IsDrawable given }
    requires reached { IsReachedIn given cell }
    requires circuit { has_circuit given.source.circuits.now cell ≡ true }
    ensures added { OnOk result (AddsRegions (areas_of regions.old.regions.items)
        (areas_of regions.new.regions.items)) }
    ensures drawn { IfOk result (λ v. IsDrawnAs given.entry.source (listed_tables given.entry.lists.now)
        (called_by given.entry.lists.now.called.items) shown.now cell (plain_circuit left.now)
        (plain_circuit found.now) (areas_of regions.new.regions.items) (plain_drawing v)) }
    ensures small { IfOk result (λ v. IsSmallDrawing (plain_drawing v)) }
    ensures small_regions { OnOk result (AreSmallRegions (areas_of regions.old.regions.items)
        → AreSmallRegions (areas_of regions.new.regions.items)) }
    ensures far { IsErrOf result ShowFault.TooFar → HasFarCell given.entry.source
        (listed_tables given.entry.lists.now) (called_by given.entry.lists.now.called.items) }
{
    if !same_rows(shown, left, found) {
        return Ok(Drawing::blank(alloc));
    }
    let drawing = draw_cell(alloc, given.source, given.lists, cell, found, regions)?;
    let Drawing {
        hull,
        nets,
        devices: places,
        calls,
    } = drawing;
    let devices = device_places(alloc, &left.devices, &found.devices, places)?;
    Ok(Drawing {
        hull,
        nets,
        devices,
        calls,
    })
}

// What is drawn of a circuit of this cell.
fn draw_in(
    alloc: Global,
    given: Given,
    shown: &[u32],
    cell: Option<u32>,
    left: &Circuit,
    regions: &mut DeviceRegions,
) -> Result<Drawing, ShowFault>
    requires given { IsDrawable given }
    requires reached { IfSome cell (IsReachedIn given) }
    ensures added { OnOk result (AddsRegions (areas_of regions.old.regions.items)
        (areas_of regions.new.regions.items)) }
    ensures drawn { IfOk result (λ v. IsDrawnIn given.entry.source (listed_tables given.entry.lists.now)
        (called_by given.entry.lists.now.called.items) shown.now cell (plain_circuit left.now)
        (areas_of regions.new.regions.items) (plain_drawing v)) }
    ensures small { IfOk result (λ v. IsSmallDrawing (plain_drawing v)) }
    ensures small_regions { OnOk result (AreSmallRegions (areas_of regions.old.regions.items)
        → AreSmallRegions (areas_of regions.new.regions.items)) }
    ensures far { IsErrOf result ShowFault.TooFar → HasFarCell given.entry.source
        (listed_tables given.entry.lists.now) (called_by given.entry.lists.now.called.items) }
{
    let Some(cell) = cell else {
        return Ok(Drawing::blank(alloc));
    };
    match given.source.circuits.of(cell) {
        Some(found) => draw_found(alloc, given, shown, cell, left, found, regions),
        None => Ok(Drawing::blank(alloc)),
    }
}

/// Adds what is drawn of a circuit.
pub fn keep(out: &mut Vec<Drawing>, drawing: Drawing) -> Result<(), AllocError>
    requires { IsSmallDrawing (plain_drawing drawing) }
    ensures small { OnOk result (AreAllSmall out.old.items → AreAllSmall out.new.items) }
    ensures kept { OnOk result (plain_drawings out.new.items
        ≡ plain_drawings out.old.items ++ plain_drawing drawing ∷ []) }
{
    out.push(drawing)?;
    Ok(())
}

// What is drawn of each of these circuits by its cell.
fn draw_all(
    alloc: Global,
    given: Given,
    table: &TextTable,
    shown: &[u32],
    lefts: &[Circuit],
    regions: &mut DeviceRegions,
) -> Result<Vec<Drawing>, ShowFault>
    requires given { IsDrawable given }
    ensures added { OnOk result (AddsRegions (areas_of regions.old.regions.items)
        (areas_of regions.new.regions.items)) }
    ensures drawn { IfOk result (λ v. AreAllDrawn given.entry.source (listed_tables given.entry.lists.now)
        (called_by given.entry.lists.now.called.items) given.entry.cells.now table.now shown.now
        (map plain_circuit lefts.now) (areas_of regions.new.regions.items) (plain_drawings v.items)) }
    ensures small { IfOk result (λ v. AreAllSmall v.items) }
    ensures small_regions { OnOk result (AreSmallRegions (areas_of regions.old.regions.items)
        → AreSmallRegions (areas_of regions.new.regions.items)) }
    ensures far { IsErrOf result ShowFault.TooFar → HasFarCell given.entry.source
        (listed_tables given.entry.lists.now) (called_by given.entry.lists.now.called.items) }
{
    let mut out = Vec::new(alloc);
    let mut rest = lefts;
    'circuits: while let [left, more @ ..] = rest {
        let cell = shown_cell(given.cells, table, left);
        let drawing = draw_in(alloc, given, shown, cell, left, regions)?;
        keep(&mut out, drawing)?;
        rest = more;
    }
    Ok(out)
}

/// What is drawn of the circuits of a netlist, and the regions that their devices have.
#[derive(Drop)]
pub struct Sketch {
    pub drawings: Vec<Drawing>,
    pub regions: DeviceRegions,
}

/// What is drawn of the circuits of a layout's netlist by their cells, before it is aligned. After
/// it the lists and tables of the cells aren't needed. `TooFar` where something reaches 2^30 or more
/// from the origin. Cost: that of drawing each cell once.
pub fn draw_written(alloc: Global, given: Given, written: &[Circuit]) -> Result<Sketch, ShowFault>
    requires given { IsDrawable given }
    ensures drawn { IfOk result (AreDrawn given.entry.source (listed_tables given.entry.lists.now)
        (called_by given.entry.lists.now.called.items) given.entry.cells.now given.entry.names.now
        (map plain_circuit written.now)) }
    ensures small { IfOk result (λ v. AreAllSmall v.drawings.items) }
    ensures small_regions { IfOk result (λ v.
        AreSmallRegions (areas_of v.regions.regions.items)) }
    ensures far { IsErrOf result ShowFault.TooFar → HasFarCell given.entry.source
        (listed_tables given.entry.lists.now) (called_by given.entry.lists.now.called.items) }
{
    let table = name_table(alloc, given.names)?;
    let shown = shown_numbers(alloc, &table, written)?;
    let mut regions = DeviceRegions::none(alloc);
    let drawings = draw_all(alloc, given, &table, &shown, written, &mut regions)?;
    Ok(Sketch { drawings, regions })
}
