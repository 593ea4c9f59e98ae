//! What is written of the netlist of a layout means that netlist.
//!
//! The laws are the contracts of functions without statements of their own; `spelled` reads a
//! netlist for what its types say of it.

ghost use Rattle.netlist_file.specs.Extracted.{ExtractedFormedLaw, ExtractedWritableLaw};
ghost use Rattle.netlist_file.specs.Extracted.{ExtractedMeansLaw};
ghost use Rattle.netlist_file.specs.Once.{OneTextLaw};

mod spelling;

pub use spelling::spelled;
use spice_text::written_laws;
use table_laws::sound_netlist;

/// What is written of a layout's circuits means them, cell by cell, where the classes of the device
/// rules are folded and ones that cards of their kinds have.
pub fn extracted_text()
    ensures formed { ExtractedFormedLaw }
    ensures writable { ExtractedWritableLaw }
    ensures means { ExtractedMeansLaw }
{
    sound_netlist();
    written_laws();
}

/// A netlist has one text.
pub fn one_text()
    ensures { OneTextLaw }
{}
