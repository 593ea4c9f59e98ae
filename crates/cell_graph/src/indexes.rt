//! The indexes by which cells are looked into by windows. To build them takes O(n log n) for n
//! rectangles and references.

ghost use Rattle.std.specs.Prelude.{◌≡◌, ◌<◌, ◌≤◌, ◌^◌, ℕ, length, map, slice_get, slice_index};
ghost use Rattle.std.specs.Prelude.{Some, IfOk, OnErr};
ghost use Rattle.std.specs.Prelude.{MatchOption, []};
ghost use Rattle.std.specs.List.{All};
ghost use Rattle.cell_graph.specs.declared.cells.CellPart.{CellPart};
ghost use Rattle.cell_graph.specs.Indexes.{sets_of, AreSpans, IsIndexed, AreIndexed, AreSoundCells};
ghost use Rattle.cell_graph.specs.Linked.{IsSoundCell, own_rects};

use crate::cells::{CellPart, OwnLayer, is_same_key};
use crate::spans::span_of;
use geo_base::{LayerKey, Rect};
use list_base::small;
use std::alloc::{AllocError, Global};
use tile_index::TileIndex;

/// The indexes of a cell: one of its rectangles on each of its layers, none where no walk looks into
/// the cell, and one of the spans of its references, beside the numbers of those that have one.
#[derive(Drop)]
pub struct CellIndex {
    pub own: Option<Vec<TileIndex>>,
    pub spanned: Vec<u32>,
    pub spans: TileIndex,
}

// Spans of references, and the numbers of these.
#[derive(Drop)]
struct Spans {
    numbers: Vec<u32>,
    spans: Vec<Rect>,
}

// A place in a list as a number of 32 bits. One of 2^32 or more is want of memory.
fn number_of(i: usize) -> Result<u32, AllocError>
    ensures number { IfOk result (λ number. number ≡ i) }
    ensures err { OnErr result (2 ^ 32 ≤ i) }
{
    match small(i) {
        Some(number) => Ok(number),
        None => Err(AllocError),
    }
}

// The spans of a cell's references.
fn spans_of(alloc: Global, cells: &[CellPart], cell: usize) -> Result<Spans, AllocError>
    requires sound { AreSoundCells cells.now }
    requires inside { cell < length cells.now }
    ensures { IfOk result (λ s. (c : CellPart) → slice_get cells.now cell ≡ Some c
        → AreSpans cells.now c.places.items s.numbers.items s.spans.items) }
{
    let mut numbers = Vec::new(alloc);
    let mut spans = Vec::new(alloc);
    let places = &cells[cell].places;
    for i in 0..places.len() {
        let place = &places[i];
        if let Some(span) = span_of(place, cells[place.cell as usize].hull) {
            numbers.push(number_of(i)?)?;
            spans.push(span)?;
        }
    }
    Ok(Spans { numbers, spans })
}

// The indexes of the layers of a cell.
fn own_of(alloc: Global, layers: &[OwnLayer], hull: Rect) -> Result<Vec<TileIndex>, AllocError>
    ensures { IfOk result (λ v. v.items ≡ sets_of layers.now) }
{
    let mut own = Vec::with_capacity(alloc, layers.len())?;
    for layer in layers {
        own.push(TileIndex::build(alloc, layer.set.rects(), hull)?)?;
    }
    Ok(own)
}

// The indexes of one cell. No walk looks into a top that places no cell.
fn index_of(
    alloc: Global,
    cells: &[CellPart],
    top: u32,
    cell: usize,
) -> Result<CellIndex, AllocError>
    requires sound { AreSoundCells cells.now }
    requires inside { cell < length cells.now }
    ensures { IfOk result (λ x. (c : CellPart) → slice_get cells.now cell ≡ Some c
        → IsIndexed cells.now c x) }
{
    let part = &cells[cell];
    let hull = part.hull.unwrap_or(Rect {
        x1: 0,
        y1: 0,
        x2: 0,
        y2: 0,
    });
    let own = if cell == top as usize && part.places.is_empty() {
        None
    } else {
        Some(own_of(alloc, &part.layers, hull)?)
    };
    let found = spans_of(alloc, cells, cell)?;
    let spans = TileIndex::build(alloc, &found.spans, hull)?;
    Ok(CellIndex {
        own,
        spanned: found.numbers,
        spans,
    })
}

/// The indexes of all cells.
pub fn indexes_of(alloc: Global, cells: &[CellPart], top: u32) -> Result<Vec<CellIndex>, AllocError>
    requires { AreSoundCells cells.now }
    ensures { IfOk result (λ v. AreIndexed cells.now v.items) }
{
    let mut indexes = Vec::with_capacity(alloc, cells.len())?;
    for i in 0..cells.len() {
        indexes.push(index_of(alloc, cells, top, i)?)?;
    }
    Ok(indexes)
}

/// The index of the first layer of a key.
pub fn find_index<'a>(
    layers: &[OwnLayer],
    own: &'a [TileIndex],
    key: LayerKey,
) -> Option<&'a TileIndex>
    requires { own.now ≡ sets_of layers.now }
    ensures { MatchOption result (own_rects layers.now key ≡ [])
        (λ index. index.now ≡ own_rects layers.now key) }
{
    for i in 0..layers.len() {
        if is_same_key(layers[i].key, key) {
            return Some(&own[i]);
        }
    }
    None
}

/// The numbers at some places of a list.
pub fn numbers_at(alloc: Global, numbers: &[u32], places: &[u32]) -> Result<Vec<u32>, AllocError>
    requires { All (λ j. j < length numbers.now) places.now }
    ensures { IfOk result (λ v. v.items ≡ map (slice_index numbers.now) places.now) }
{
    let mut found = Vec::with_capacity(alloc, places.len())?;
    for j in places {
        found.push(numbers[*j as usize])?;
    }
    Ok(found)
}
