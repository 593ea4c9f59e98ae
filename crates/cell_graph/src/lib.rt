//! Cells that refer to one another by name, linked: own sets, texts, references (instances, single
//! or as arrays), hulls, which are bounding boxes; or the first fault in them.
#![tactic(auto)]

mod arrays;
mod bounds;
mod cells;
mod depths;
mod design;
mod drafts;
mod extents;
mod finishing;
mod heights;
mod indexes;
mod layering;
mod linking;
mod names;
mod ordering;
mod references;
mod spans;
mod tops;
mod walking;

pub use cells::{CellPart, OwnLayer, Place, RawText};
pub use design::{Design, design_laws};
pub use drafts::{CellDraft, DraftRef, LinkFault};
pub use layering::layering_laws;
