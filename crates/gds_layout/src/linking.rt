//! The header and the linked cells of an accepted library.

ghost use Rattle.std.specs.Prelude.{◌≡◌, ◌++◌, List, map, IfOk, IfErr};
ghost use Rattle.gds_elements.specs.Data.{unit_in};
ghost use Rattle.gds_elements.specs.Faults.{IsAccepted};
ghost use Rattle.gds_elements.specs.Meaning.{Cell};
ghost use Rattle.gds_elements.specs.Placeable.{ArePlaceable};
ghost use Rattle.gds_elements.specs.Reading.{cell_seen, library_after};
ghost use Rattle.gds_elements.specs.Units.{IsUnit};
ghost use Rattle.cell_graph.specs.Drafts.{IsFault, IsLink};
ghost use Rattle.cell_graph.specs.Tops.{now_of};
ghost use Rattle.gds_layout.specs.Drafts.{AreDraftsOf, AreDrawn};
ghost use Rattle.gds_layout.specs.Layouts.{IsFaultOfLibrary, IsLayoutOf, IsRestOf};

use crate::drafts::Drawn;
use crate::layout::{Header, Layout, LayoutFault};
use cell_graph::Design;
use gds_elements::{Library, fillable, measured, placeable, unit_of};
use net_names::Name;
use std::alloc::Global;

/// The layout of an accepted library, of which the structures in front of the rest are drawn
/// already.
pub(crate) fn layout_of(
    alloc: Global,
    rest: Library,
    drawn: Drawn,
    top: Option<&Name>,
) -> Result<Layout, LayoutFault>
    requires { IsRestOf rest drawn }
    ensures layout { IfOk result (λ l. (taken : List Cell) → AreDrawn taken drawn → IsAccepted
        (library_after taken rest) → IsLayoutOf (library_after taken rest) (now_of top.entry) l) }
    ensures fault { IfErr result (λ f. (taken : List Cell) → AreDrawn taken drawn → IsAccepted
        (library_after taken rest) → IsFaultOfLibrary (library_after taken rest)
        (now_of top.entry) f) }
{
    let Library {
        version,
        dates,
        name,
        units,
        cells,
    } = rest;
    fillable();
    placeable();
    measured();
    let mut drawn = drawn;
    drawn.add_all(alloc, cells)?;
    let unit_pm = unit_of(&units).unwrap_or(0);
    let Drawn {
        cells,
        dates: cell_dates,
    } = drawn;
    let design = Design::link(alloc, cells, top)?;
    let header = Header {
        version,
        dates,
        name,
        units,
        unit_pm,
    };
    Ok(Layout {
        header,
        cell_dates,
        design,
    })
}
