//! What the written stream is read as.

ghost use Rattle.gds_shapes.specs.Accepted.{ReadLaw, ReadHeadingLaw};
ghost use Rattle.gds_shapes.specs.Accepted.{ReadReferencesLaw, WrittenLaw};

use gds_elements::placeable;

/// What is written of cells is a stream of the format, and is read as exactly these cells in order:
/// each has its dates and its name, its references, of which a single placement has steps of 0, and
/// the outlines of its rectangles.
pub fn written()
    ensures { WrittenLaw }
{}

/// What an accepted stream has can be written again: what stands before its cells, and each
/// reference.
pub fn read_again()
    ensures heading { ReadHeadingLaw }
    ensures references { ReadReferencesLaw }
{
    placeable();
}

/// An accepted library has data of their sizes and names without NULs at their ends; so has each of
/// its cells.
pub fn library_read()
    ensures { ReadLaw }
{}
