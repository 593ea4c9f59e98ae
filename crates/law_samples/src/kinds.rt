//! A resistor and a diode, and names that tell pins apart, carried through the premises of a match
//! and of a difference; and a layout in which they lie on a layer of another size.

ghost use Rattle.law_samples.specs.Kinds.{NamedMatchLaw, OtherPinLaw};
ghost use Rattle.law_samples.specs.Shrunk.{ShrunkDevicesLaw, ShrunkLaw};
ghost use Rattle.law_samples.specs.Taken.{TakenApartLaw};

/// Where names tell pins apart, the pair with equal names is a match, which is a correspondence; of
/// the pair with another name each answer is a difference, and where it is called by the tops it is
/// taken apart.
pub fn named_kinds()
    ensures matched { NamedMatchLaw }
    ensures other { OtherPinLaw }
    ensures taken { TakenApartLaw }
{}

/// A layer that is shrunk leaves one square of a layout, and that is by one rule a resistor, by
/// another a diode of the flat netlist, with these sizes and nodes.
pub fn shrunk_kinds()
    ensures shrunk { ShrunkLaw }
    ensures devices { ShrunkDevicesLaw }
{}
