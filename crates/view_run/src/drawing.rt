//! What is drawn of a layout's circuits.

ghost use Rattle.std.specs.Prelude.{◌≡◌, ◌++◌, ℕ, IfOk, IsErrOf, Some, length, map};
ghost use Rattle.std.specs.Prelude.{slice_get};
ghost use Rattle.cell_graph.specs.Linked.{plain};
ghost use Rattle.deep_tables.specs.Nets.{AreRightNets};
ghost use Rattle.flat_layout.specs.Layout.{IsReached};
ghost use Rattle.net_model.specs.Rows.{plain_circuit, plain_netlist};
ghost use Rattle.part_origins.specs.Origins.{AreNamedApart};
ghost use Rattle.plain_netlist.specs.Sound.{IsGood};
ghost use Rattle.rule_layers.specs.Meaning.{wiring_of};
ghost use Rattle.rule_text.specs.Seen.{rules_seen};
ghost use Rattle.rule_text.specs.Sound.{IsSound};
ghost use Rattle.view_drawing.specs.Devices.{AreSmallRegions, areas_of};
ghost use Rattle.view_drawing.specs.Drawn.{AreAllThere, AreListsOf, listed_tables};
ghost use Rattle.view_file.specs.Layout.{IsSmallPicture};
ghost use Rattle.view_labels.specs.Labels.{AreInside};
ghost use Rattle.view_netlist.specs.Drawing.{AreAllSmall};
ghost use Rattle.view_picture.specs.Picture.{AreDrawn};
ghost use Rattle.view_joined.specs.Devices.{HaveRegions};
ghost use Rattle.view_picture.specs.Far.{HasFarCell};
ghost use Rattle.view_run.specs.Far.{HasFarBy, HasFarCircuit};
ghost use Rattle.view_run.specs.Found.{HasCells};
ghost use Rattle.view_run.specs.Sketched.{AreSketched, IsJoinedBy};
ghost use Rattle.view_run.specs.Views.{names_of};
ghost use Rattle.view_shapes.specs.Shown.{called_by};

use crate::found::{Cells, source_of};
use gds_layout::Layout;
use net_model::{Circuit, Netlist};
use net_names::Name;
use part_origins::part_origins;
use rule_text::RuleSet;
use std::alloc::{AllocError, Global};
use view_drawing::{Lists, Source, find_lists};
use view_file::Picture;
use view_picture::{Given, Sketch, Sketched, draw_written, picture};
use view_shapes::ShowFault;

/// The names of a netlist's circuits. Linear in their bytes.
pub fn circuit_names(alloc: Global, netlist: &Netlist) -> Result<Vec<Name>, AllocError>
    ensures { IfOk result (λ v. v.items ≡ names_of (plain_netlist netlist.now)) }
{
    let mut names = Vec::new(alloc);
    let mut rest = netlist.circuits.as_slice();
    'circuits: while let [c, more @ ..] = rest {
        names.push(c.name.try_clone(alloc)?)?;
        rest = more;
    }
    Ok(names)
}

// What is drawn of these circuits over these lists.
fn draw_lists<'a, 'b>(
    alloc: Global,
    source: Source<'a>,
    lists: &'b Lists<'a>,
    cells: &'b [u32],
    names: &'b [Name],
    written: &[Circuit],
) -> Result<Sketch, ShowFault>
    requires right { AreRightNets (plain source.design.now)
        (wiring_of (rules_seen source.rules.now)) (listed_tables lists.now) }
    requires entries { AreAllThere source }
    requires lists { AreListsOf source lists.now }
    requires cells { (k cell : ℕ) → slice_get cells.now k ≡ Some cell
        → IsReached (plain source.design.now) cell }
    ensures drawn { IfOk result (AreDrawn source.entry (listed_tables lists.now)
        (called_by lists.now.called.items) cells.now names.now (map plain_circuit written.now)) }
    ensures small { IfOk result (λ v. AreAllSmall v.drawings.items) }
    ensures small_regions { IfOk result (λ v.
        AreSmallRegions (areas_of v.regions.regions.items)) }
    ensures far { IsErrOf result ShowFault.TooFar → HasFarCell source.entry
        (listed_tables lists.now) (called_by lists.now.called.items) }
{
    let given = Given {
        source,
        lists,
        cells,
        names,
    };
    let drawn = draw_written(alloc, given, written)?;
    Ok(drawn)
}

/// What is drawn of a layout's circuits, before they are aligned. All else that was found of the
/// cells is freed. `TooFar` where something reaches 2^30 or more from the origin. Cost: that of
/// drawing each cell once.
pub fn draw(
    alloc: Global,
    layout: &Layout,
    rules: &RuleSet,
    found: Cells,
    names: Vec<Name>,
    written: &Netlist,
) -> Result<Sketched, ShowFault>
    requires rules { IsSound (rules_seen rules.now) }
    requires cells { HasCells layout.now (rules_seen rules.now) found }
    ensures sketched { IfOk result (AreSketched layout.now rules.now found names.items
        (plain_netlist written.now)) }
    ensures far { IsErrOf result ShowFault.TooFar → HasFarCircuit layout.now (rules_seen rules.now) }
{
    layout.design.sound();
    let source = source_of(layout, rules, &found);
    let lists = find_lists(alloc, source)?;
    let circuits = written.circuits.as_slice();
    let sketch = draw_lists(alloc, source, &lists, &found.cells, &names, circuits)?;
    drop(lists);
    let Cells { cells, .. } = found;
    Ok(Sketched {
        sketch,
        cells,
        names,
    })
}

/// The picture of these circuits, which the drawn ones were aligned to. `TooFar` as for `draw`.
/// Cost: what is drawn, of flattened circuits once for each call.
pub fn joined(
    alloc: Global,
    layout: &Layout,
    rules: &RuleSet,
    drawn: Sketched,
    written: &Netlist,
    shown: &Netlist,
) -> Result<Picture, ShowFault>
    requires inside { AreInside (length layout.now.design.cells) drawn.cells.items }
    requires small { AreAllSmall drawn.sketch.drawings.items }
    requires listed { HaveRegions (areas_of drawn.sketch.regions.regions.items)
        drawn.sketch.drawings.items }
    requires small_regions { AreSmallRegions (areas_of drawn.sketch.regions.regions.items) }
    requires written { IsGood (plain_netlist written.now) (λ k. k) }
    requires apart { AreNamedApart (plain_netlist written.now) }
    requires shown { IsGood (plain_netlist shown.now) (λ k. k) }
    ensures picture { IfOk result (IsJoinedBy layout.now.design rules.now.names.items
        drawn.cells.items drawn.names.items drawn.sketch.drawings.items
        (plain_netlist written.now) (plain_netlist shown.now)) }
    ensures small { IfOk result IsSmallPicture }
    ensures far { IsErrOf result ShowFault.TooFar → HasFarBy (plain_netlist written.now)
        (plain_netlist shown.now) drawn.sketch.drawings.items
        (areas_of drawn.sketch.regions.regions.items) }
{
    let origins = part_origins(alloc, written, shown)?;
    let lefts = shown.circuits.as_slice();
    let made = picture(alloc, &layout.design, rules, drawn, &origins, lefts)?;
    Ok(made)
}
