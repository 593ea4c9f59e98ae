//! A small layout and a schematic carried through all premises of a reported match: a circuit that
//! is flattened, one without devices, a line `same_circuits`, a called pair with its pins
//! crosswise.
//!
//! The circuits and what is said of them stand in `specs/Chain`, faulty netlists in `specs/Faulty`.
//! No code runs here; the laws are the contract of a function with an empty body.

ghost use Rattle.law_samples.specs.Chain.{AllFlattenedChainLaw, FurtherChainLaw, MatchedChainLaw};
ghost use Rattle.law_samples.specs.Chain.{NamesChainLaw, NamesakesChainLaw, WidthChainLaw};
ghost use Rattle.law_samples.specs.Faulty.{FirstFaultsLaw};

/// Each pair matches, so both netlists expand to the same; and what isn't an aligned pair is
/// refused.
pub fn flattened_and_matched()
    ensures matched { MatchedChainLaw }
    ensures all_flattened { AllFlattenedChainLaw }
    ensures names { NamesChainLaw }
    ensures namesakes { NamesakesChainLaw }
    ensures further { FurtherChainLaw }
    ensures width { WidthChainLaw }
{}

/// Each fault is the first one of some netlist.
pub fn first_faults()
    ensures { FirstFaultsLaw }
{}
