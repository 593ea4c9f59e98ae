//! The rows of good gates, and the list of a cell's gates.
ghost use Rattle.gate_phase.specs.Rows.{EntryLaw, GateListLaw, PrefixLaw, RowLaw};

/// The sizes of a good gate and the nets of four nodes of it are its row; with its row, or with its
/// cause, a gate of the cell's own is a right entry of the cell's list; and the entries of all
/// device rules, one rule after the other, are that list; those of the first rules are the list of
/// these alone.
pub fn entry_laws()
    ensures row { RowLaw }
    ensures entry { EntryLaw }
    ensures list { GateListLaw }
    ensures front { PrefixLaw }
{}
