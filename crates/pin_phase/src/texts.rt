//! The tags of the nets of a cell: the strings of texts, and the names of globals.
ghost use Rattle.std.specs.Prelude.{◌≡◌, ◌<◌, ◌^◌, ℕ, List, length, map, IfOk, OnOk};
ghost use Rattle.net_link_laws.specs.Laws.{AreNetsUnder};
ghost use Rattle.pin_phase.specs.Corners.{IsPieceOf};
ghost use Rattle.pin_phase.specs.Lines.{label, names_of};
ghost use Rattle.pin_phase.specs.Sets.{Adds, OfSome};
ghost use Rattle.pin_phase.specs.Tagged.{AreTags, AreTextsOf, IsGlobalTag, IsLineTag, IsRawTag};

use crate::corners::pieces_at;
use crate::lines::TextLine;
use crate::sets::NetTags;
use crate::tags::Tag;
use cell_graph::RawText;
use gate_phase::net_of_global;
use net_link_laws::NetPiece;
use net_walk::Cells;
use std::alloc::{AllocError, Global};

/// Gives the string of a text to the net of each piece.
pub fn tag_pieces(
    alloc: Global,
    tags: &mut NetTags,
    pieces: &[NetPiece],
    text: &[u8],
) -> Result<(), AllocError>
    requires { (x : ℕ) → IsPieceOf pieces.now x → x < length tags.old }
    ensures { OnOk result (Adds (λ (x : ℕ) (s : List ℕ). IsPieceOf pieces.now x
        × (s ≡ text.now)) tags.old tags.new) }
{
    for piece in pieces {
        let tag = Tag::new(alloc, text)?;
        tags.add(piece.net, tag)?;
    }
    Ok(())
}

// Gives a text's string to the nets that a line connects its layer to.
fn tag_line<C: Cells>(
    alloc: Global,
    cells: &C,
    cell: u32,
    text: &RawText,
    line: &TextLine,
    tags: &mut NetTags,
) -> Result<(), AllocError>
    requires nets { AreNetsUnder (C.design cells.now) (C.wiring cells.now) (C.tables cells.now)
        cell }
    requires count { length tags.old ≡ ((C.tables cells.now).nets cell).count }
    ensures { OnOk result (Adds (IsLineTag (C.design cells.now) (C.tables cells.now) cell text.now
        line.now) tags.old tags.new) }
{
    if !line.key.is_same(text.key) {
        return Ok(());
    }
    if cells.conductors() <= line.conductor {
        return Ok(());
    }
    let pieces = pieces_at(alloc, cells, cell, line.conductor, text.at)?;
    tag_pieces(alloc, tags, &pieces, &text.text)
}

// Gives a text's string to the nets that it stands on.
fn tag_text<C: Cells>(
    alloc: Global,
    cells: &C,
    cell: u32,
    text: &RawText,
    lines: &[TextLine],
    tags: &mut NetTags,
) -> Result<(), AllocError>
    requires nets { AreNetsUnder (C.design cells.now) (C.wiring cells.now) (C.tables cells.now)
        cell }
    requires count { length tags.old ≡ ((C.tables cells.now).nets cell).count }
    ensures { OnOk result (Adds (IsRawTag (C.design cells.now) (C.tables cells.now) cell lines.now
        text.now) tags.old tags.new) }
{
    for line in lines {
        tag_line(alloc, cells, cell, text, line, tags)?;
    }
    Ok(())
}

// Gives the strings of texts to the nets that they stand on.
fn tag_texts<C: Cells>(
    alloc: Global,
    cells: &C,
    cell: u32,
    texts: &[RawText],
    lines: &[TextLine],
    tags: &mut NetTags,
) -> Result<(), AllocError>
    requires nets { AreNetsUnder (C.design cells.now) (C.wiring cells.now) (C.tables cells.now)
        cell }
    requires count { length tags.old ≡ ((C.tables cells.now).nets cell).count }
    ensures { OnOk result (Adds (OfSome (λ i text. IsRawTag (C.design cells.now)
        (C.tables cells.now) cell lines.now text) texts.now) tags.old tags.new) }
{
    for text in texts {
        tag_text(alloc, cells, cell, text, lines, tags)?;
    }
    Ok(())
}

// Gives the names of globals to their nets.
fn tag_globals<C: Cells>(
    alloc: Global,
    cells: &C,
    cell: u32,
    globals: &[Vec<u8>],
    tags: &mut NetTags,
) -> Result<(), AllocError>
    requires nets { AreNetsUnder (C.design cells.now) (C.wiring cells.now) (C.tables cells.now)
        cell }
    requires globals { names_of globals.now ≡ (C.wiring cells.now).globals }
    requires few { length globals.now < 2 ^ 32 }
    requires count { length tags.old ≡ ((C.tables cells.now).nets cell).count }
    ensures { OnOk result (Adds (OfSome (IsGlobalTag (C.design cells.now) (C.tables cells.now)
        cell) (C.wiring cells.now).globals) tags.old tags.new) }
{
    let count = globals.len() as u32;
    for global in 0..count {
        let net = net_of_global(cells, cell, count, global);
        let tag = Tag::new(alloc, &globals[global as usize])?;
        tags.add(net, tag)?;
    }
    Ok(())
}

/// The tags of each net of a cell: the strings of the texts that stand at a corner of a square of
/// it, on a conductor that a line connects to the text's layer, and the names of its globals. One
/// walk in a window of four squares for each text and line of its layer.
pub fn net_tags<C: Cells>(
    alloc: Global,
    cells: &C,
    cell: u32,
    texts: &[RawText],
    lines: &[TextLine],
    globals: &[Vec<u8>],
) -> Result<NetTags, AllocError>
    requires nets { AreNetsUnder (C.design cells.now) (C.wiring cells.now) (C.tables cells.now)
        cell }
    requires texts { AreTextsOf (C.design cells.now) cell texts.now }
    requires lines { map label lines.now ≡ (C.wiring cells.now).labels }
    requires globals { names_of globals.now ≡ (C.wiring cells.now).globals }
    requires few { length globals.now < 2 ^ 32 }
    ensures { IfOk result (AreTags (C.design cells.now) (C.wiring cells.now) (C.tables cells.now)
        cell) }
{
    let mut tags = NetTags::new(alloc, cells.count(cell))?;
    tag_texts(alloc, cells, cell, texts, lines, &mut tags)?;
    tag_globals(alloc, cells, cell, globals, &mut tags)?;
    Ok(tags)
}
