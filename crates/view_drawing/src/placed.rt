//! What is read of cells whose nets are shown.

ghost use Rattle.std.specs.Prelude.{◌≡◌, None, [], get_or, length};
ghost use Rattle.net_phase.specs.Below.{AreHeldOwn};
ghost use Rattle.net_phase.specs.Elements.{AreAllElements, element_lists};
ghost use Rattle.net_phase.specs.Indexes.{bound_of};
ghost use Rattle.net_phase.specs.Own.{own_at, rect_lists};
ghost use Rattle.net_phase.specs.Reading.{nets_of, now_of};
ghost use Rattle.rule_layers.specs.Meaning.{wiring_of};
ghost use Rattle.rule_text.specs.Reaches.{MOST_REACH};
ghost use Rattle.rule_text.specs.Seen.{rules_seen};

use cell_context::grown;
use cell_graph::Design;
use deep_tables::CellNets;
use geo_base::Rect;
use net_walk::{Cells, Element};
use rule_text::RuleSet;
use std::marker::Model;

const MOST_REACH: u32 = 10_000;

/// The layout, the rules, the rectangles that cells hold themselves, their placements and nets,
/// without indexes: no window is asked for what is shown of nets. Contracts see lists by the
/// cells' numbers.
#[derive(Drop)]
pub struct Placed<'a, 'l> {
    design: &'a Design,
    rules: &'a RuleSet,
    conductors: u32,
    own: &'a [Vec<&'l [Rect]>],
    elements: &'a [Vec<Element>],
    nets: &'a [Option<&'a CellNets>],
}

impl<'a, 'l> Model for Placed<'a, 'l> {
    ghost use Rattle.net_phase.specs.Below.{BelowSeen};
    ghost use Rattle.view_drawing.specs.Placed.{IsPlacedView, placed_seen};

    ghost Value = { BelowSeen };

    ghost view = { placed_seen };

    ghost invariant = { IsPlacedView };
}

impl<'a, 'l> Placed<'a, 'l> {
    /// A view of these, in constant time.
    pub fn new(
        design: &'a Design,
        rules: &'a RuleSet,
        conductors: u32,
        own: &'a [Vec<&'l [Rect]>],
        elements: &'a [Vec<Element>],
        nets: &'a [Option<&'a CellNets>],
    ) -> Placed<'a, 'l>
        requires conductors { conductors ≡ length (wiring_of (rules_seen rules.now)).conductors }
        requires elements { AreAllElements design.now (element_lists elements.now) }
        requires own { AreHeldOwn MOST_REACH design.now (rect_lists own.now) }
        ensures design { result.design ≡ design.now }
        ensures rules { result.rules ≡ rules.now }
        ensures own { result.own ≡ rect_lists own.now }
        ensures nets { result.nets ≡ nets_of nets.now }
    {
        design.sound();
        Placed {
            design,
            rules,
            conductors,
            own,
            elements,
            nets,
        }
    }
}

// A cell's rectangles of a conductor, none past the last cell or conductor.
fn rects_at<'b>(own: &'b [Vec<&'b [Rect]>], cell: u32, conductor: u32) -> &'b [Rect]
    ensures { result.now ≡ own_at (rect_lists own.now) cell conductor }
{
    match own.get(cell as usize) {
        None => &[],
        Some(found) => match found.get(conductor as usize) {
            None => &[],
            Some(rects) => *rects,
        },
    }
}

/// The placements of a cell; none past the last.
pub fn elements_at(elements: &[Vec<Element>], cell: u32) -> &[Element]
    ensures { result.now ≡ get_or (element_lists elements.now) cell [] }
{
    match elements.get(cell as usize) {
        None => &[],
        Some(found) => found.as_slice(),
    }
}

// A cell's nets, where they are known.
fn nets_at<'b>(nets: &'b [Option<&'b CellNets>], cell: u32) -> Option<&'b CellNets>
    ensures { now_of result ≡ get_or (nets_of nets.now) cell None }
{
    match nets.get(cell as usize) {
        None => None,
        Some(found) => *found,
    }
}

// What bounds the nets of a cell, however far its names reach; nothing past the last cell.
fn bound_at(design: &Design, cell: u32) -> Option<Rect>
    ensures { result ≡ bound_of MOST_REACH design.now cell }
{
    design.sound();
    if cell >= design.cells() {
        return None;
    }
    match design.hull(cell) {
        Some(hull) => Some(grown(&hull, MOST_REACH)),
        None => None,
    }
}

impl Cells for Placed<'_, '_> {
    ghost use Rattle.cell_graph.specs.Linked.{height_at, plain};
    ghost use Rattle.net_phase.specs.Below.{tables_seen, wiring_seen};

    ghost design = { λ v. plain v.design };

    ghost wiring = { wiring_seen };

    ghost tables = { tables_seen };

    ghost height = { λ v. height_at v.design };

    fn conductors(&self) -> u32 {
        self.conductors
    }

    fn own(&self, cell: u32, conductor: u32) -> &[Rect] {
        rects_at(self.own, cell, conductor)
    }

    fn net_of(&self, cell: u32) -> &[u32] {
        match nets_at(self.nets, cell) {
            None => &[],
            Some(nets) => nets.net_of.as_slice(),
        }
    }

    fn count(&self, cell: u32) -> u32 {
        match nets_at(self.nets, cell) {
            None => 0,
            Some(nets) => nets.count,
        }
    }

    fn places(&self, cell: u32) -> &[Element] {
        elements_at(self.elements, cell)
    }

    fn hull(&self, cell: u32) -> Option<Rect> {
        bound_at(self.design, cell)
    }

    fn span(&self, element: &Element) -> Option<Rect> {
        match bound_at(self.design, element.cell) {
            None => None,
            Some(bound) => Some(element.motion.rect(bound)),
        }
    }

    fn sound(&self) {
        let _ = &self.conductors;
    }
}
