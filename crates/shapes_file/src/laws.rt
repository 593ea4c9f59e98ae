//! What was read can be written, and what is written means.

ghost use Rattle.shapes_file.specs.Flat.{CoversFlatLaw, OneHierarchyLaw};
ghost use Rattle.shapes_file.specs.Read.{FitsStreamLaw};

use deep_tables::layer_table;
use flat_laws::layers;
use gds_shapes::{library_read, read_again};
use layout_shapes::same_places;
use poly_fill::outline_laws;
use rect_sets::canonical_rects;

/// A layout that was read has room in a stream: its header, each cell's dates, name and references;
/// and it can be read from one, as its names and references are.
pub fn writable()
    ensures { FitsStreamLaw }
{
    library_read();
    read_again();
}

/// What is written of a layout for which a stream has room is itself an accepted stream. Expanded
/// through all its references, it covers on the layer of each output line exactly the unit squares
/// that the line's name has over the flat layout, and none on any other layer.
pub fn covers_flat()
    ensures { CoversFlatLaw }
{
    same_places();
    layer_table();
    canonical_rects();
    outline_laws();
    layers();
}

/// The unit squares that a library has, seen through all its references from one of its structures,
/// are the same in each design that stands for it.
pub fn one_hierarchy()
    ensures { OneHierarchyLaw }
{}
