//! What a cell finds of a selection.

ghost use Rattle.std.specs.Prelude.{◌≡◌, length, IfOk};
ghost use Rattle.gate_phase.specs.Site.{layout_at};
ghost use Rattle.select_phase.specs.Found.{AreFoundBelow, IsCellSelection};
ghost use Rattle.select_phase.specs.Selections.{IsReadySelection, meant_at};

use crate::candidates::candidates;
use crate::sorting::{Sorted, sort_part};
use gate_phase::Site;
use gate_shapes::corner_parts;
use rect_sets::RectSet;
use rule_text::SelectRule;
use std::alloc::{AllocError, Global};

/// The squares of a cell's own regions that a selection chooses, and those of the regions' layer
/// that go up to the cells that place it, since their regions aren't whole in it.
#[derive(Drop)]
pub struct CellSelection {
    pub chosen: RectSet,
    pub rest: RectSet,
}

/// What a cell finds of a selection, over what its placed cells found: `below` by cells' numbers.
/// In O(n log n) for n rectangles of the candidates and of what lies close to these, where the
/// site's layers have an index of the other name.
pub fn cell_selection(
    alloc: Global,
    site: &Site,
    selection: &SelectRule,
    below: &[Option<CellSelection>],
) -> Result<CellSelection, AllocError>
    requires ready { IsReadySelection site.now selection.now }
    requires count { length below.now ≡ length site.now.design.now.cells }
    requires below { AreFoundBelow (layout_at site.now) (meant_at site.now selection.now)
        site.now.cell below.now }
    ensures { IfOk result (IsCellSelection (layout_at site.now) (meant_at site.now selection.now)
        site.now.cell) }
{
    site.design.sound();
    let all = candidates(alloc, site, selection, below)?;
    let parts = corner_parts(alloc, &all)?;
    let mut sorted = Sorted {
        chosen: Vec::new(alloc),
        rest: Vec::new(alloc),
    };
    for part in &parts {
        sort_part(alloc, site, selection, part, &mut sorted)?;
    }
    let chosen = RectSet::canon(alloc, sorted.chosen)?;
    let rest = RectSet::canon(alloc, sorted.rest)?;
    Ok(CellSelection { chosen, rest })
}
