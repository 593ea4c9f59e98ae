//! What right tables give of terminals.
ghost use Rattle.net_marks.specs.Laws.{TerminalLaw};

/// Each terminal of a cell's good gates stands on a net of the cell, over right nets and gates.
pub fn terminal_law()
    ensures { TerminalLaw }
{}
