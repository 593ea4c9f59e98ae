//! What a job reads of cells.
ghost use Rattle.std.specs.Prelude.{◌≡◌, None, [], get_or, length, map, MatchOption};
ghost use Rattle.deep_tables.specs.Nets.{nets_in, plain_item};
ghost use Rattle.rule_layers.specs.Meaning.{wiring_of};
ghost use Rattle.rule_text.specs.Seen.{rules_seen};
ghost use Rattle.net_phase.specs.Below.{AreHeldOwn};
ghost use Rattle.net_phase.specs.Elements.{AreAllElements, element_lists};
ghost use Rattle.net_phase.specs.Indexes.{AreIndexes, index_lists};
ghost use Rattle.net_phase.specs.Own.{own_at, rect_lists};
ghost use Rattle.net_phase.specs.Reading.{nets_of, now_of};

use crate::bare::is_marked;
use crate::indexes::{Indexes, bound_at};
use crate::items::first_net;
use cell_graph::Design;
use deep_tables::{CellNets, Item};
use geo_base::Rect;
use net_walk::{Cells, Element};
use rule_text::RuleSet;
use std::alloc::{AllocError, Global};
use std::marker::Model;
use tile_index::TileIndex;

/// The layout, the rules, the rectangles that cells hold themselves, and the nets of the cells
/// below one, or of all. Contracts see lists by the cells' numbers.
#[derive(Drop)]
pub struct Below<'a, 'l> {
    design: &'a Design,
    rules: &'a RuleSet,
    conductors: u32,
    own: &'a [Vec<&'l [Rect]>],
    elements: &'a [Vec<Element>],
    indexes: &'a Indexes,
    nets: &'a [Option<&'a CellNets>],
}

impl<'a, 'l> Model for Below<'a, 'l> {
    ghost use Rattle.net_phase.specs.Below.{BelowSeen, IsBelowView, below_seen};

    ghost Value = { BelowSeen };

    ghost view = { below_seen };

    ghost invariant = { IsBelowView };
}

impl<'a, 'l> Below<'a, 'l> {
    /// A view of these, in constant time.
    pub(crate) fn new(
        design: &'a Design,
        rules: &'a RuleSet,
        conductors: u32,
        own: &'a [Vec<&'l [Rect]>],
        elements: &'a [Vec<Element>],
        indexes: &'a Indexes,
        nets: &'a [Option<&'a CellNets>],
    ) -> Below<'a, 'l>
        requires conductors { conductors ≡ length (wiring_of (rules_seen rules.now)).conductors }
        requires elements { AreAllElements design.now (element_lists elements.now) }
        requires own { AreHeldOwn indexes.now.reach design.now (rect_lists own.now) }
        requires indexes { AreIndexes design.now (rules_seen rules.now) (rect_lists own.now)
            (element_lists elements.now) indexes.now }
        ensures design { result.design ≡ design.now }
        ensures rules { result.rules ≡ rules.now }
        ensures own { result.own ≡ rect_lists own.now }
        ensures nets { result.nets ≡ nets_of nets.now }
    {
        design.sound();
        Below {
            design,
            rules,
            conductors,
            own,
            elements,
            indexes,
            nets,
        }
    }
}

// A cell's rectangles of a conductor, none past the last cell or conductor.
fn rects_at<'b>(own: &'b [Vec<&'b [Rect]>], cell: u32, conductor: u32) -> &'b [Rect]
    ensures { result.now ≡ own_at (rect_lists own.now) cell conductor }
{
    match own.get(cell as usize) {
        None => &[],
        Some(found) => match found.get(conductor as usize) {
            None => &[],
            Some(rects) => *rects,
        },
    }
}

// A cell's placements, none past the last cell.
fn elements_at(elements: &[Vec<Element>], cell: u32) -> &[Element]
    ensures { result.now ≡ get_or (element_lists elements.now) cell [] }
{
    match elements.get(cell as usize) {
        None => &[],
        Some(found) => found.as_slice(),
    }
}

// A cell's nets, where they are known.
fn nets_at<'b>(nets: &'b [Option<&'b CellNets>], cell: u32) -> Option<&'b CellNets>
    ensures { now_of result ≡ get_or (nets_of nets.now) cell None }
{
    match nets.get(cell as usize) {
        None => None,
        Some(found) => *found,
    }
}

// A cell's items, none where its nets aren't known.
fn items_at<'b>(nets: &'b [Option<&'b CellNets>], cell: u32) -> &'b [Item]
    ensures { map plain_item result.now ≡ (nets_in (get_or (nets_of nets.now) cell None)).items }
{
    match nets_at(nets, cell) {
        None => &[],
        Some(found) => found.items.as_slice(),
    }
}

// The index of a cell's rectangles of a conductor, none past the last cell or conductor.
fn own_index(indexes: &Indexes, cell: u32, conductor: u32) -> Option<&TileIndex>
    ensures { MatchOption result (own_at (index_lists indexes.now.own.items) cell conductor ≡ [])
        (λ i. i.now ≡ own_at (index_lists indexes.now.own.items) cell conductor) }
{
    match indexes.own.get(cell as usize) {
        None => None,
        Some(found) => found.get(conductor as usize),
    }
}

// The index of what bounds a cell's placements, none past the last cell.
fn span_index(indexes: &Indexes, cell: u32) -> Option<&TileIndex>
    ensures { MatchOption result (get_or indexes.now.spans.items cell [] ≡ [])
        (λ i. i.now ≡ get_or indexes.now.spans.items cell []) }
{
    indexes.spans.get(cell as usize)
}

impl Cells for Below<'_, '_> {
    ghost use Rattle.cell_graph.specs.Linked.{height_at, plain};
    ghost use Rattle.net_phase.specs.Below.{tables_seen, wiring_seen};

    ghost design = { λ v. plain v.design };

    ghost wiring = { wiring_seen };

    ghost tables = { tables_seen };

    ghost height = { λ v. height_at v.design };

    fn conductors(&self) -> u32 {
        self.conductors
    }

    fn own(&self, cell: u32, conductor: u32) -> &[Rect] {
        rects_at(self.own, cell, conductor)
    }

    fn is_bare(&self, cell: u32, conductor: u32) -> bool {
        is_marked(&self.indexes.bare, cell, conductor)
    }

    fn own_near(
        &self,
        alloc: Global,
        cell: u32,
        conductor: u32,
        window: &Rect,
    ) -> Result<Vec<u32>, AllocError> {
        match own_index(self.indexes, cell, conductor) {
            None => Ok(Vec::new(alloc)),
            Some(index) => index.query(alloc, *window),
        }
    }

    fn places_near(&self, alloc: Global, cell: u32, window: &Rect) -> Result<Vec<u32>, AllocError> {
        match span_index(self.indexes, cell) {
            None => Ok(Vec::new(alloc)),
            Some(index) => index.query(alloc, *window),
        }
    }

    fn first_place(&self, cell: u32, number: u32) -> usize {
        first_net(items_at(self.nets, cell), number)
    }

    fn net_of(&self, cell: u32) -> &[u32] {
        match nets_at(self.nets, cell) {
            None => &[],
            Some(nets) => nets.net_of.as_slice(),
        }
    }

    fn count(&self, cell: u32) -> u32 {
        match nets_at(self.nets, cell) {
            None => 0,
            Some(nets) => nets.count,
        }
    }

    fn places(&self, cell: u32) -> &[Element] {
        elements_at(self.elements, cell)
    }

    fn hull(&self, cell: u32) -> Option<Rect> {
        bound_at(self.design, cell, self.indexes.reach)
    }

    fn span(&self, element: &Element) -> Option<Rect> {
        match bound_at(self.design, element.cell, self.indexes.reach) {
            None => None,
            Some(bound) => Some(element.motion.rect(bound)),
        }
    }

    fn sound(&self) {
        let _ = &self.conductors;
    }
}
