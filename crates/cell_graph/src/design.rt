//! The design of linked cells, and what is asked of it, by cell and by window.

ghost use Rattle.std.specs.Prelude.{◌≡◌, ◌<◌, ℕ, length, [], Some, IfOk};
ghost use Rattle.tile_index.specs.Windows.{ArePositions};
ghost use Rattle.cell_graph.specs.Linked.{own_rects, own_of, cell_at, hull_of, places_at};
ghost use Rattle.cell_graph.specs.Linked.{keeping, linked_of, IsSound};
ghost use Rattle.cell_graph.specs.Spans.{ArePlacesIn};
ghost use Rattle.cell_graph.specs.Laws.{OwnLaw, HeightLaw, LevelLaw, OrderLaw, HullLaw, SeenLaw};
ghost use Rattle.cell_graph.specs.declared.cells.CellPart.{CellPart};

use crate::cells::{CellPart, OwnLayer, Place, RawText, is_same_key};
use crate::indexes::{CellIndex, find_index, indexes_of, numbers_at};
use flat_layout::Way;
use geo_base::{LayerKey, Rect};
use net_names::Name;
use rect_sets::RectSet;
use std::alloc::{AllocError, Global};
use std::marker::Model;
use tile_index::positions_in;

/// Linked cells: each reference names a cell, no cell stands below itself, and hulls hold what is
/// below.
pub struct Design {
    cells: Vec<CellPart>,
    top: u32,
    order: Vec<u32>,
    nothing: RectSet,
    indexes: Vec<CellIndex>,
    way: Way,
}

// Written out, so that its owners drop it by one call.
impl Drop for Design {
    fn drop(self) {
        let Design {
            cells: _,
            top: _,
            order: _,
            nothing: _,
            indexes: _,
            way: _,
        } = self;
    }
}

impl Model for Design {
    ghost use Rattle.cell_graph.specs.Linked.{Linked};

    ghost Value = { Linked };

    ghost use Rattle.cell_graph.specs.Inside.{linked, IsLinked};

    ghost view = { linked };

    ghost invariant = { IsLinked };
}

// The set of the first entry of the key.
fn find<'a>(layers: &'a [OwnLayer], key: LayerKey, nothing: &'a RectSet) -> &'a RectSet
    requires { nothing.now ≡ [] }
    ensures { result.now ≡ own_rects layers.now key }
{
    for layer in layers {
        if is_same_key(layer.key, key) {
            return &layer.set;
        }
    }
    nothing
}

impl Design {
    /// The design of cells that are linked already.
    pub(crate) fn from_parts(
        alloc: Global,
        cells: Vec<CellPart>,
        top: u32,
        order: Vec<u32>,
    ) -> Result<Design, AllocError>
        requires { IsSound (linked_of cells.items top order.items) }
        ensures { IfOk result (λ d. d ≡ linked_of cells.items top order.items) }
    {
        let indexes = indexes_of(alloc, &cells, top)?;
        Ok(Design {
            cells,
            top,
            order,
            nothing: RectSet::empty(alloc),
            indexes,
            way: Way::Disturbed,
        })
    }

    /// The cells by themselves.
    pub(crate) fn into_cells(self) -> Vec<CellPart>
        ensures { result.items ≡ self.cells }
    {
        let Design {
            cells,
            top: _,
            order: _,
            nothing: _,
            indexes: _,
            way: _,
        } = self;
        cells
    }

    /// What each design promises; among it, that each hull is the least range of what stands in and
    /// below its cell.
    pub fn sound(&self)
        ensures { IsSound self.now }
    {
        let _ = &self.top;
    }

    /// The same design, whose cells keep squares in this way. O(1).
    pub fn keeping(self, way: Way) -> Design
        ensures { result ≡ keeping way self }
    {
        let mut design = self;
        design.way = way;
        design
    }

    /// The way in which its cells keep squares.
    pub fn way(&self) -> Way
        ensures { result ≡ self.now.way }
    {
        self.way
    }

    /// The number of cells.
    pub fn cells(&self) -> u32
        ensures { result ≡ length self.now.cells }
    {
        self.cells.len() as u32
    }

    /// The top cell.
    pub fn top(&self) -> u32
        ensures { result ≡ self.now.top }
    {
        self.top
    }

    /// The name of a cell.
    pub fn name(&self, cell: u32) -> &Name
        requires { cell < length self.now.cells }
        ensures { (c : CellPart) → cell_at self.now cell ≡ Some c → result.now ≡ c.name }
    {
        &self.cells[cell as usize].name
    }

    /// A cell's own squares on a layer.
    pub fn own(&self, cell: u32, key: LayerKey) -> &RectSet
        requires { cell < length self.now.cells }
        ensures { result.now ≡ own_of (cell_at self.now cell) key }
    {
        let part = &self.cells[cell as usize];
        find(&part.layers, key, &self.nothing)
    }

    /// The positions in `own(cell, key)` of the rectangles that share a square with the window,
    /// ascending. About O(log n + k log k) for k of n rectangles; O(n) in a top that places no cell:
    /// no walk looks into it.
    pub fn own_in(
        &self,
        alloc: Global,
        cell: u32,
        key: LayerKey,
        w: Rect,
    ) -> Result<Vec<u32>, AllocError>
        requires { cell < length self.now.cells }
        ensures { IfOk result (λ v. ArePositions (own_of (cell_at self.now cell) key) w v.items) }
    {
        let part = &self.cells[cell as usize];
        let Some(own) = &self.indexes[cell as usize].own else {
            return positions_in(alloc, self.own(cell, key).rects(), &w);
        };
        match find_index(&part.layers, own, key) {
            Some(rects) => rects.query(alloc, w),
            None => Ok(Vec::new(alloc)),
        }
    }

    /// A cell's texts.
    pub fn texts(&self, cell: u32) -> &[RawText]
        requires { cell < length self.now.cells }
        ensures { (c : CellPart) → cell_at self.now cell ≡ Some c → result.now ≡ c.texts.items }
    {
        &self.cells[cell as usize].texts
    }

    /// A cell's references.
    pub fn places(&self, cell: u32) -> &[Place]
        requires { cell < length self.now.cells }
        ensures { result.now ≡ places_at (cell_at self.now cell) }
    {
        &self.cells[cell as usize].places
    }

    /// The positions in `places(cell)` of the references whose span shares a square with the
    /// window, ascending. The span is the least rectangle that holds the images of the placed
    /// cell's hull by all elements of the array; where that cell has no hull, there is none. About
    /// O(log n + k log k) for k of n references.
    pub fn places_in(&self, alloc: Global, cell: u32, w: Rect) -> Result<Vec<u32>, AllocError>
        requires { cell < length self.now.cells }
        ensures { IfOk result (λ v. ArePlacesIn self.now cell w v.items) }
    {
        let index = &self.indexes[cell as usize];
        let found = index.spans.query(alloc, w)?;
        numbers_at(alloc, &index.spanned, &found)
    }

    /// The range of what stands in and below a cell; none where it holds no square.
    pub fn hull(&self, cell: u32) -> Option<Rect>
        requires { cell < length self.now.cells }
        ensures { result ≡ hull_of (cell_at self.now cell) }
    {
        self.cells[cell as usize].hull
    }

    /// The cells reached from the top, by height, then file order.
    pub fn order(&self) -> &[u32]
        ensures { result.now ≡ self.now.order }
    {
        &self.order
    }
}

/// What holds of each design beside the plain layout that it stands for.
pub fn design_laws()
    ensures own { OwnLaw }
    ensures height { HeightLaw }
    ensures level { LevelLaw }
    ensures order { OrderLaw }
    ensures hull { HullLaw }
    ensures seen { SeenLaw }
{}
