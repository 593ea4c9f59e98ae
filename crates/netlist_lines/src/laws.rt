//! What the profile reads of a cleaned line.

ghost use Rattle.netlist_lines.specs.Names.{EscapedNameLaw, PlainLineLaw};

use net_names::spelling_laws;

/// An escaped name becomes a word that spells just its bytes, so two such words spell one name
/// only where they are one word; and a line of plain bytes stays as it is.
pub fn line_laws()
    ensures escaped { EscapedNameLaw }
    ensures plain { PlainLineLaw }
{
    spelling_laws();
}
