//! How a netlist is made comparable with another one: circuits without a partner are flattened into
//! their callers, nets that hold nothing and circuits without devices are dropped; and that what a
//! circuit expands to stays. Definitions and laws.
//!
//! The definitions stand in `specs/`: `Flat` and `Lists` (flattening), `Cut` (dropping), `Aligned`
//! (both, in normal form), `Partners` (which circuits are compared), `Words` (the same in words of
//! paths). No code runs here; each law is the contract of a function with an empty body.
#![tactic(auto)]

ghost use Rattle.align_laws.specs.Aligned.{AlignedLaw, AlignedCorrespondsLaw, AlignedFaultLaw};
ghost use Rattle.align_laws.specs.Aligned.{AlignedSoundLaw, AllFlattenedLaw, NoFurtherLaw};
ghost use Rattle.align_laws.specs.Aligned.{OneAlignedLaw};
ghost use Rattle.align_laws.specs.Flat.{FlatLaw};
ghost use Rattle.align_laws.specs.Lists.{ListLaw};
ghost use Rattle.align_laws.specs.Partners.{AlignedSidesLaw, KeptLaw, LeftOrderLaw, OnePairLaw};
ghost use Rattle.align_laws.specs.Partners.{OnePartnerLaw, SaidLaw};
ghost use Rattle.align_laws.specs.Sample.{NestedLaw};
ghost use Rattle.align_laws.specs.Words.{InsideLaw, OneFlatLaw, OneNumberLaw, OneHeldLaw, LowerLaw};
ghost use Rattle.align_laws.specs.Words.{FlatGoodLaw, InnerNetLaw, InnerCallLaw};

/// Flattening leaves the expansion as it is, and lists made of a circuit and of the flat circuits
/// below it are flattened circuits.
pub fn flattening()
    ensures expansion { FlatLaw }
    ensures lists { ListLaw }
{}

/// Devices, nets and calls of a flat circuit are those of paths through circuits that go.
pub fn wording()
    ensures inside { InsideLaw }
    ensures nets { InnerNetLaw }
    ensures calls { InnerCallLaw }
{}

/// There is one list of flat circuits, one choice of what is held, and one numbering.
pub fn once()
    ensures flat { OneFlatLaw }
    ensures number { OneNumberLaw }
    ensures held { OneHeldLaw }
    ensures lower { LowerLaw }
    ensures good { FlatGoodLaw }
{}

/// An aligned netlist expands to the same devices and nets as the given one; what is kept
/// determines it, and it has no fault but equal names of nets.
pub fn aligned()
    ensures expansion { AlignedLaw }
    ensures correspondence { AlignedCorrespondsLaw }
    ensures one { OneAlignedLaw }
    ensures all_flattened { AllFlattenedLaw }
    ensures sound { AlignedSoundLaw }
    ensures fault { AlignedFaultLaw }
    ensures no_further { NoFurtherLaw }
{}

/// What a line names pairs only so; partners are one to one; there is one aligned pair, and its two
/// netlists can be compared by position.
pub fn pairs()
    ensures said { SaidLaw }
    ensures one_partner { OnePartnerLaw }
    ensures kept { KeptLaw }
    ensures one_pair { OnePairLaw }
    ensures sides { AlignedSidesLaw }
    ensures order { LeftOrderLaw }
{}

/// Three nested circuits whose middle one is flattened: the definitions computed.
pub fn one_nested()
    ensures { NestedLaw }
{}
