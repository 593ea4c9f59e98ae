//! Structures as cells that are to be linked.

ghost use Rattle.std.specs.Prelude.{◌≡◌, ◌∷◌, [], ◌++◌, List, map, IfOk, OnOk};
ghost use Rattle.std.specs.List.{All};
ghost use Rattle.gds_elements.specs.Meaning.{Cell};
ghost use Rattle.gds_elements.specs.Fillable.{AreFillable};
ghost use Rattle.gds_elements.specs.Reading.{cell_seen, ref_seen, text_seen};
ghost use Rattle.gds_layout.specs.Drafts.{AreDrawn, IsDraftOf, ref_of, text_of};

use crate::layers::layers_of;
use cell_graph::{CellDraft, DraftRef, RawText};
use gds_elements::{RawCell, RawRef, RawText as StreamText};
use std::alloc::{AllocError, Global};

/// Cells, and the data of each one's BGNSTR.
#[derive(Drop)]
pub struct Drawn {
    pub cells: Vec<CellDraft>,
    pub dates: Vec<[u8; 24]>,
}

fn text_of(text: StreamText) -> RawText
    ensures { text_of result ≡ text_seen text }
{
    let StreamText { key, at, text } = text;
    RawText { key, at, text }
}

fn texts_of(alloc: Global, texts: Vec<StreamText>) -> Result<Vec<RawText>, AllocError>
    ensures { IfOk result (λ v. map text_of v.items ≡ map text_seen texts.items) }
{
    let mut kept = Vec::new(alloc);
    for text in texts {
        kept.push(text_of(text))?;
    }
    Ok(kept)
}

fn ref_of(r: RawRef) -> DraftRef
    ensures { ref_of result ≡ ref_seen r }
{
    let RawRef {
        cell,
        motion,
        columns,
        rows,
        column_step,
        row_step,
    } = r;
    DraftRef {
        cell,
        motion,
        columns,
        rows,
        column_step,
        row_step,
    }
}

fn refs_of(alloc: Global, refs: Vec<RawRef>) -> Result<Vec<DraftRef>, AllocError>
    ensures { IfOk result (λ v. map ref_of v.items ≡ map ref_seen refs.items) }
{
    let mut kept = Vec::new(alloc);
    for r in refs {
        kept.push(ref_of(r))?;
    }
    Ok(kept)
}

// The cell that a structure draws. Its outlines are let go.
fn draft_of(alloc: Global, cell: RawCell) -> Result<CellDraft, AllocError>
    requires { AreFillable (cell_seen cell) }
    ensures { IfOk result (IsDraftOf (cell_seen cell)) }
{
    let RawCell {
        name,
        shapes,
        texts,
        refs,
        ..
    } = cell;
    let layers = layers_of(alloc, shapes)?;
    let texts = texts_of(alloc, texts)?;
    let refs = refs_of(alloc, refs)?;
    Ok(CellDraft {
        name,
        layers,
        texts,
        refs,
    })
}

impl Drawn {
    /// No cells.
    pub(crate) fn new(alloc: Global) -> Drawn
        ensures { AreDrawn [] result }
    {
        Drawn {
            cells: Vec::new(alloc),
            dates: Vec::new(alloc),
        }
    }

    // Draws a structure.
    fn add(&mut self, alloc: Global, cell: RawCell) -> Result<(), AllocError>
        requires { AreFillable (cell_seen cell) }
        ensures { OnOk result ((before : List Cell) → AreDrawn before self.old
            → AreDrawn (before ++ cell_seen cell ∷ []) self.new) }
    {
        let dates = cell.dates;
        let draft = draft_of(alloc, cell)?;
        self.cells.push(draft)?;
        self.dates.push(dates)?;
        Ok(())
    }

    /// Draws structures, in order, and lets go of their outlines.
    pub(crate) fn add_all(&mut self, alloc: Global, cells: Vec<RawCell>) -> Result<(), AllocError>
        requires { All AreFillable (map cell_seen cells.items) }
        ensures { OnOk result ((before : List Cell) → AreDrawn before self.old
            → AreDrawn (before ++ map cell_seen cells.items) self.new) }
    {
        for cell in cells {
            self.add(alloc, cell)?;
        }
        Ok(())
    }
}
