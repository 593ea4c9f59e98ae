//! The structures that a reader handed over, kept for contracts alone: a token of no bytes.

ghost use Rattle.std.specs.Prelude.{◌≡◌, ◌++◌, [], map};
ghost use Rattle.gds_elements.specs.Reading.{cell_seen, taken_cells};

use crate::library::RawCell;
use std::mem;
use std::snapshot::Snapshot;

/// Lists of structures, the last one first.
#[derive(Drop)]
pub enum Taken {
    Nothing,
    More(Snapshot<Vec<RawCell>>, Snapshot<Taken>),
}

/// No structures.
pub fn nothing_taken() -> Snapshot<Taken>
    ensures { taken_cells result.value ≡ [] }
{
    Snapshot::of(&Taken::Nothing)
}

/// Adds structures at the end.
pub fn add_taken(taken: &mut Snapshot<Taken>, cells: &Vec<RawCell>)
    ensures { taken_cells taken.new.value ≡ taken_cells taken.old.value
        ++ map cell_seen cells.now.items }
{
    let before = mem::replace(taken, nothing_taken());
    *taken = Snapshot::of(&Taken::More(Snapshot::of(cells), before));
}
