//! The picture of a layout's circuits as they are compared.

ghost use Rattle.std.specs.Prelude.{◌≡◌, IfOk, IsErrOf, length, map};
ghost use Rattle.net_model.specs.Rows.{plain_circuit};
ghost use Rattle.part_origins.specs.Made.{plain_all};
ghost use Rattle.view_drawing.specs.Devices.{AreSmallRegions, areas_of};
ghost use Rattle.view_file.specs.Layout.{IsSmallPicture};
ghost use Rattle.view_joined.specs.Devices.{HaveRegions};
ghost use Rattle.view_labels.specs.Labels.{AreInside};
ghost use Rattle.view_netlist.specs.Drawing.{AreAllSmall};
ghost use Rattle.view_picture.specs.Far.{HasFarJoined};
ghost use Rattle.view_picture.specs.Picture.{IsJoinedPicture, shown_areas};

use crate::drawings::Sketch;
use crate::joined::join_all;
use cell_graph::Design;
use net_model::Circuit;
use net_names::Name;
use part_origins::Origins;
use rule_text::RuleSet;
use std::alloc::{AllocError, Global};
use view_drawing::{Region as Found, name_table};
use view_file::{Picture, Region};
use view_labels::{labels, layer_names};
use view_netlist::Names;
use view_shapes::ShowFault;

// The regions in the form that the database takes.
fn regions_of(alloc: Global, found: Vec<Found>) -> Result<Vec<Region>, AllocError>
    ensures { IfOk result (λ v. shown_areas v.items ≡ areas_of found.items) }
{
    let mut out = Vec::new(alloc);
    'regions: for region in found {
        let Found { kind, class, rects } = region;
        out.push(Region { kind, class, rects })?;
    }
    Ok(out)
}

/// What is drawn of a layout's circuits by their cells, the cells with circuits, and the names of
/// their circuits.
#[derive(Drop)]
pub struct Sketched {
    pub sketch: Sketch,
    pub cells: Vec<u32>,
    pub names: Vec<Name>,
}

/// The picture of these circuits of an aligned netlist: each under the name of its cell, with what
/// is drawn of the circuits that stand inside it, by the sketch of the netlist that was aligned.
/// `TooFar` where something reaches 2^30 or more from the origin. Cost: what is drawn, of flattened
/// circuits once for each call.
pub fn picture(
    alloc: Global,
    design: &Design,
    rules: &RuleSet,
    drawn: Sketched,
    origins: &Origins,
    lefts: &[Circuit],
) -> Result<Picture, ShowFault>
    requires cells { AreInside (length design.now.cells) drawn.cells.items }
    requires small { AreAllSmall drawn.sketch.drawings.items }
    requires listed { HaveRegions (areas_of drawn.sketch.regions.regions.items)
        drawn.sketch.drawings.items }
    requires small_regions { AreSmallRegions (areas_of drawn.sketch.regions.regions.items) }
    ensures picture { IfOk result (IsJoinedPicture design.now rules.now.names.items
        drawn.cells.items drawn.names.items drawn.sketch.drawings.items (plain_all origins.now)
        (map plain_circuit lefts.now)) }
    ensures small { IfOk result IsSmallPicture }
    ensures far { IsErrOf result ShowFault.TooFar → HasFarJoined
        (plain_all origins.now).insides (plain_all origins.now).circuits
        drawn.sketch.drawings.items (areas_of drawn.sketch.regions.regions.items) }
{
    let Sketched {
        sketch,
        cells,
        names,
    } = drawn;
    let Sketch { drawings, regions } = sketch;
    let mut found = regions;
    let table = name_table(alloc, &names)?;
    let layers = layer_names(alloc, &rules.names)?;
    let circuits = labels(alloc, design, &cells, &table, lefts)?;
    let joined = join_all(alloc, origins, &drawings, lefts, &mut found)?;
    Ok(Picture {
        names: Names { layers, circuits },
        drawings: joined,
        regions: regions_of(alloc, found.regions)?,
    })
}
