//! Cells as a file has them, and why they can't be linked.

ghost use Rattle.std.specs.Prelude.{◌≡◌};

use crate::cells::{OwnLayer, RawText};
use geo_base::{Motion, Point};
use net_names::Name;
use std::alloc::AllocError;
use thiserror::Error;

/// A reference by name (SREF and AREF of the GDSII Stream Format): an array of placements, in
/// database units. A single placement has one column, one row and steps of 0.
#[derive(Drop)]
pub struct DraftRef {
    pub cell: Name,
    pub motion: Motion,
    pub columns: u16,
    pub rows: u16,
    pub column_step: Point,
    pub row_step: Point,
}

/// A cell as a file has it.
#[derive(Drop)]
pub struct CellDraft {
    pub name: Name,
    pub layers: Vec<OwnLayer>,
    pub texts: Vec<RawText>,
    pub refs: Vec<DraftRef>,
}

/// Why cells can't be linked. The tests come in the order of the variants; the first that finds
/// something gives the fault.
#[derive(Debug, Drop, Error)]
pub enum LinkFault {
    #[error("more cells than 65536")]
    TooManyCells,
    #[error("a cell's name stands before it")]
    DuplicateCell(Name),
    #[error("a reference to a missing cell")]
    NoSuchCell(Name),
    #[error("a cell stands below itself")]
    Cycle(Name),
    #[error("a chain of more than 64 references")]
    TooDeep(Name),
    #[error("no top cell")]
    NoTop,
    #[error("two cells are referred to by none")]
    TopUnclear(Name, Name),
    #[error("a coordinate out of range")]
    CoordinateRange(Name),
    #[error("no memory")]
    NoMemory,
}

impl From<AllocError> for LinkFault {
    ghost use Rattle.cell_graph.specs.declared.drafts.LinkFault.TheVariants.{NoMemory};

    ghost from_gives = { λ _ e. e ≡ NoMemory };

    fn from(_: AllocError) -> LinkFault {
        LinkFault::NoMemory
    }
}
