//! What is drawn of the circuit of a cell.

ghost use Rattle.std.specs.Prelude.{◌≡◌, IfOk, IsErrOf, OnOk, [], get_or, length, map};
ghost use Rattle.std.specs.List.{All};
ghost use Rattle.cell_graph.specs.Linked.{plain};
ghost use Rattle.deep_tables.specs.Layers.{AreLayers};
ghost use Rattle.deep_tables.specs.Nets.{AreNets, AreRightNets};
ghost use Rattle.flat_layout.specs.Layout.{IsReached};
ghost use Rattle.net_model.specs.Rows.{plain_circuit};
ghost use Rattle.net_phase.specs.Elements.{element_lists};
ghost use Rattle.rule_layers.specs.Meaning.{wiring_of};
ghost use Rattle.rule_text.specs.Seen.{rules_seen};
ghost use Rattle.rule_text.specs.Sound.{IsSound};
ghost use Rattle.view_netlist.specs.Drawing.{AreSmallShapes, IsSmallDrawing, plain_drawing};
ghost use Rattle.view_drawing.specs.Nets.{list_at};
ghost use Rattle.view_shapes.specs.Shown.{called_by};
ghost use Rattle.view_drawing.specs.Devices.{AddsRegions, AreSmallRegions, areas_of};
ghost use Rattle.view_drawing.specs.Drawn.{AreAllThere, AreCellNetsDrawn, AreListsOf, IsCellDrawn};
ghost use Rattle.view_drawing.specs.Drawn.{drawn_in, listed_tables};
ghost use Rattle.view_drawing.specs.Far.{ReachesFar};
ghost use Rattle.view_shapes.specs.Shown.{ShowsFar};

use crate::called::called_marks;
use crate::calls::call_motions;
use crate::circuit_shapes;
use crate::devices::place_devices;
use crate::numbers::net_numbers;
use crate::placed::{Placed, elements_at};
use crate::regions::DeviceRegions;
use crate::small::small_hull;
use cell_graph::Design;
use deep_tables::{CellNets, Circuits, Gates, Layers, Nets, Pins};
use geo_base::Rect;
use list_base::number;
use net_model::Circuit;
use net_phase::{all_elements, find_wires, known_nets, own_lists};
use net_walk::Element;
use rule_text::RuleSet;
use std::alloc::{AllocError, Global};
use view_netlist::{Drawing, Shape};
use view_shapes::ShowFault;

/// What was found for the cells of a layout.
#[derive(Clone, Copy)]
pub struct Source<'a> {
    pub design: &'a Design,
    pub rules: &'a RuleSet,
    pub layers: &'a Layers,
    pub nets: &'a Nets,
    pub gates: &'a Gates,
    pub pins: &'a Pins,
    pub circuits: &'a Circuits,
}

/// The same in lists by cell, and the nets of each cell that calls have a pin on.
#[derive(Drop)]
pub struct Lists<'a> {
    pub conductors: u32,
    pub own: Vec<Vec<&'a [Rect]>>,
    pub elements: Vec<Vec<Element>>,
    pub nets: Vec<Option<&'a CellNets>>,
    pub called: Vec<Vec<bool>>,
}

/// The lists of a layout: linear in its rectangles and placements, of which no rectangle is copied.
/// An `Err` is want of memory, or 2^32 of a kind.
pub fn find_lists<'a>(alloc: Global, source: Source<'a>) -> Result<Lists<'a>, AllocError>
    requires rules { IsSound (rules_seen source.rules.now) }
    requires layers { AreLayers (plain source.design.now) (rules_seen source.rules.now)
        source.layers.now }
    requires nets { AreNets (plain source.design.now) (rules_seen source.rules.now)
        source.nets.now }
    requires entries { AreAllThere source }
    ensures lists { IfOk result (AreListsOf source.entry) }
    ensures right { IfOk result (λ l. AreRightNets (plain source.entry.design.now)
        (wiring_of (rules_seen source.entry.rules.now)) (listed_tables l)) }
{
    source.design.sound();
    number(source.rules.names.len())?;
    let wires = find_wires(alloc, source.rules)?;
    let own = own_lists(alloc, source.design, source.rules, source.layers)?;
    let elements = all_elements(alloc, source.design)?;
    let nets = known_nets(alloc, source.design, source.nets)?;
    let called = called_marks(alloc, source.design, source.pins, source.circuits)?;
    Ok(Lists {
        conductors: wires.conductors,
        own,
        elements,
        nets,
        called,
    })
}

// The rectangles of the nets of a cell's circuit.
fn draw_nets(
    alloc: Global,
    source: Source,
    lists: &Lists,
    cell: u32,
    circuit: &Circuit,
) -> Result<Vec<Vec<Shape>>, ShowFault>
    requires right { AreRightNets (plain source.design.now)
        (wiring_of (rules_seen source.rules.now)) (listed_tables lists.now) }
    requires entries { AreAllThere source }
    requires lists { AreListsOf source lists.now }
    requires reached { IsReached (plain source.design.now) cell }
    ensures count { IfOk result (λ v. length v.items ≡ length circuit.now.nets.items) }
    ensures drawn { IfOk result (λ v. AreCellNetsDrawn source.entry (listed_tables lists.now)
        (called_by lists.now.called.items) cell (plain_circuit circuit.now) (list_at v.items)) }
    ensures small { IfOk result (λ v. All AreSmallShapes (map (λ s. s.items) v.items)) }
    ensures far { IsErrOf result ShowFault.TooFar → ShowsFar (plain source.entry.design.now)
        (listed_tables lists.now) (called_by lists.now.called.items) cell
        (drawn_in source.entry.circuits.now cell) }
{
    source.design.sound();
    let cells = Placed::new(
        source.design,
        source.rules,
        lists.conductors,
        &lists.own,
        &lists.elements,
        &lists.nets,
    );
    let drawn = source.circuits.drawn(cell);
    let pins = source.pins.of(cell);
    let names = circuit.nets.as_slice();
    let numbers = net_numbers(alloc, pins, drawn, names)?;
    let called = lists.called.as_slice();
    let count = circuit.nets.len();
    let shapes = circuit_shapes(
        alloc,
        &cells,
        cell,
        drawn,
        called,
        numbers.as_slice(),
        count,
    )?;
    Ok(shapes)
}

/// What is drawn of the circuit of a cell; regions of devices that are new are added. `TooFar`
/// where something of it reaches 2^30 or more from the origin. Cost: the items of each cell that is
/// entered for the nets, the placements, and what is drawn.
pub fn draw_cell(
    alloc: Global,
    source: Source,
    lists: &Lists,
    cell: u32,
    circuit: &Circuit,
    regions: &mut DeviceRegions,
) -> Result<Drawing, ShowFault>
    requires right { AreRightNets (plain source.design.now)
        (wiring_of (rules_seen source.rules.now)) (listed_tables lists.now) }
    requires entries { AreAllThere source }
    requires lists { AreListsOf source lists.now }
    requires reached { IsReached (plain source.design.now) cell }
    ensures added { OnOk result (AddsRegions (areas_of regions.old.regions.items)
        (areas_of regions.new.regions.items)) }
    ensures drawn { IfOk result (λ v. IsCellDrawn source.entry (listed_tables lists.now)
        (called_by lists.now.called.items) cell (plain_circuit circuit.now)
        (areas_of regions.new.regions.items) (plain_drawing v)) }
    ensures small { IfOk result (λ v. IsSmallDrawing (plain_drawing v)) }
    ensures small_regions { OnOk result (AreSmallRegions (areas_of regions.old.regions.items)
        → AreSmallRegions (areas_of regions.new.regions.items)) }
    ensures far { IsErrOf result ShowFault.TooFar → ReachesFar source.entry
        (listed_tables lists.now) (called_by lists.now.called.items) cell }
{
    source.design.sound();
    let hull = small_hull(source.design.hull(cell))?;
    let nets = draw_nets(alloc, source, lists, cell, circuit)?;
    let devices = place_devices(alloc, source.gates.of(cell), &circuit.devices, regions)?;
    let calls = call_motions(alloc, source.circuits, elements_at(&lists.elements, cell))?;
    Ok(Drawing {
        hull,
        nets,
        devices,
        calls,
    })
}
