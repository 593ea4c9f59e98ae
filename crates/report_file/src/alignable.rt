//! What is extracted from a layout and what is read of a schematic can be compared.
ghost use Rattle.report_file.specs.Alignable.{ExtractedAlignableLaw, ReadAlignableLaw};
ghost use Rattle.report_file.specs.Combined.{CombinedAlignableLaw, CombinedOrderLaw};

use merge_laws::merging;
use table_laws::sound_netlist;

/// A sound netlist of a layout's circuits can be aligned, and its circuits stand behind those that
/// they call.
pub fn extracted_alignable()
    ensures { ExtractedAlignableLaw }
{
    sound_netlist();
}

/// A sound netlist that a text means can be aligned.
pub fn read_alignable()
    ensures { ReadAlignableLaw }
{}

/// A netlist that can be aligned still can where each group of alike transistors of a circuit is
/// one, and its circuits call the same.
pub fn combined_alignable()
    ensures alignable { CombinedAlignableLaw }
    ensures order { CombinedOrderLaw }
{
    merging();
}
