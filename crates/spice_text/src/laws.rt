//! Laws on the written text: it means its netlist, and is read again as that.

ghost use Rattle.spice_text.specs.Laws.{WrittenMeansLaw, ReadAgainLaw, OneMeaningLaw, NoFaultLaw};
ghost use Rattle.spice_text.specs.Sample.{SampleLaw};

use net_model::call_list_laws;

/// What is written of a sound netlist in normal form means that netlist, whose sizes may be above
/// what is read; where none is, it is read again as it was. A text has one meaning at most, and
/// beside it no fault.
pub fn written_laws()
    ensures written { WrittenMeansLaw }
    ensures again { ReadAgainLaw }
    ensures one { OneMeaningLaw }
    ensures no_fault { NoFaultLaw }
{
    call_list_laws();
}

/// A netlist with a transistor and a call, and the text that is written of it.
pub fn written_sample()
    ensures { SampleLaw }
{
    call_list_laws();
}
