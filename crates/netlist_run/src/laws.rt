//! What is made of a text that the reader of `lvs` takes as it stands.

ghost use Rattle.netlist_run.specs.Kept.{KeptNetlistLaw, SameCardsLaw};
ghost use Rattle.netlist_run.specs.Plain.{KeptFileLaw, PlainFileLaw};

use netlist_lines::line_laws;
use netlist_turn::kept_laws;

/// Cards that say the same mean the same netlist, whatever stands between them; and a text of which
/// nothing is told but cards that say nothing keeps its netlist: one without a backslash, and
/// without a card behind `.END`, of which no circuit and no device is to be left out.
pub fn netlist_laws()
    ensures same { SameCardsLaw }
    ensures kept { KeptNetlistLaw }
{
    kept_laws();
}

/// A file of plain lines, which name no other file, is joined to a text with its cards; so what a
/// run over it writes means what the file means as it stands.
pub fn file_laws()
    ensures plain { PlainFileLaw }
    ensures kept { KeptFileLaw }
{
    netlist_laws();
    line_laws();
}
