//! Drafts of cells linked: one test after another, then the design.

ghost use Rattle.std.specs.Prelude.{◌≡◌, ℕ, slice_get, Some, IfOk, IfErr};
ghost use Rattle.plain_netlist.specs.Lists.{AreApart};
ghost use Rattle.cell_graph.specs.Linked.{layer_keys};
ghost use Rattle.cell_graph.specs.declared.drafts.CellDraft.{CellDraft};
ghost use Rattle.cell_graph.specs.Drafts.{IsFault, IsLink};
ghost use Rattle.cell_graph.specs.Extents.{HaveArrays};
ghost use Rattle.cell_graph.specs.Finished.{IsExamined};
ghost use Rattle.cell_graph.specs.Tops.{now_of};
ghost use Rattle.flat_layout.specs.declared.way.Way.TheVariants.{Disturbed};

use crate::bounds::Bounds;
use crate::cells::Place;
use crate::depths::sound_heights;
use crate::design::Design;
use crate::drafts::{CellDraft, LinkFault};
use crate::extents::all_bounds;
use crate::finishing::{finished, reached};
use crate::names::names_of;
use crate::ordering::by_height;
use crate::references::parts_of;
use crate::tops::top_of;
use net_names::Name;
use std::alloc::Global;

/// The most cells of a library.
const MOST_CELLS: usize = 65_536;

// What is found of the drafts before they become cells: their references, heights and bounds, the
// top, and what it reaches.
#[derive(Drop)]
struct Findings {
    parts: Vec<Vec<Place>>,
    heights: Vec<u32>,
    bounds: Vec<Option<Bounds>>,
    top: u32,
    order: Vec<u32>,
}

fn examined(alloc: Global, cells: &[CellDraft], top: Option<&Name>) -> Result<Findings, LinkFault>
    requires arrays { HaveArrays cells.now }
    ensures found { IfOk result (IsExamined cells.now (now_of top.entry)) }
    ensures fault { IfErr result (IsFault cells.now (now_of top.entry)) }
{
    if MOST_CELLS < cells.len() {
        return Err(LinkFault::TooManyCells);
    }
    let names = names_of(alloc, cells)?;
    let parts = parts_of(alloc, &names, cells)?;
    let heights = sound_heights(alloc, cells, &parts)?;
    let top = top_of(alloc, &names, cells, &parts, top)?;
    let all = by_height(alloc, &heights)?;
    let bounds = all_bounds(alloc, cells, &parts, &heights, &all)?;
    let order = reached(alloc, &parts, &all, top)?;
    Ok(Findings {
        parts,
        heights,
        bounds,
        top,
        order,
    })
}

impl Design {
    /// The design that the drafts name; or their first fault, in the order of `LinkFault`. Linear
    /// in what the drafts hold: an array takes as long as a single placement, whatever its size.
    pub fn link(
        alloc: Global,
        cells: Vec<CellDraft>,
        top: Option<&Name>,
    ) -> Result<Design, LinkFault>
        requires keys { (i : ℕ) (c : CellDraft) → slice_get cells.items i ≡ Some c
            → AreApart (layer_keys c.layers.items) }
        requires arrays { HaveArrays cells.items }
        ensures design { IfOk result (IsLink cells.items (now_of top.entry)) }
        ensures way { IfOk result (λ d. d.way ≡ Disturbed) }
        ensures fault { IfErr result (IsFault cells.items (now_of top.entry)) }
    {
        let found = examined(alloc, &cells, top)?;
        let made = finished(alloc, cells, found.parts, &found.bounds, &found.heights)?;
        let design = Design::from_parts(alloc, made, found.top, found.order)?;
        Ok(design)
    }
}
