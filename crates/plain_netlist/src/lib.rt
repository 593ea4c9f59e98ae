//! Netlists as plain records: what can be wrong with one, what a circuit expands to, and when two
//! circuits expand to the same.
//!
//! The definitions stand in `specs/`: `Kinds` and `Devices` have what a device is, `DeviceLaws` the
//! laws of devices, `Netlist` the records and the expansion, `Sound` the faults, `Normal` the normal
//! form, `Flats` flat netlists of any kind and their correspondences, `Chains` chains of joins,
//! `Lists` lists without repeats and rising lists. But for the kinds of devices no code runs here;
//! each law is the contract of a function with an empty body.
#![tactic(auto)]

ghost use Rattle.plain_netlist.specs.DeviceLaws.{CarriedLaw, FormedLaw, KindLaw, OrderedLaw};
ghost use Rattle.plain_netlist.specs.DeviceLaws.{RowSameLaw, RowTerminalLaw, RowThroughLaw};
ghost use Rattle.plain_netlist.specs.DeviceLaws.{RowTurnedLaw, TerminalsLaw};
ghost use Rattle.plain_netlist.specs.FlatLaws.{ComposedLaw, OneImageLaw, ReversedLaw, SameLaw};
ghost use Rattle.plain_netlist.specs.FlatLaws.{TerminalLaw};
ghost use Rattle.plain_netlist.specs.OneNet.{SelfLaw, TurnLaw, ThroughLaw};
ghost use Rattle.plain_netlist.specs.Sound.{GoodFaultLaw, GoodLaw, HeightLaw, NormalNetsLaw};
ghost use Rattle.plain_netlist.specs.Sound.{OneFaultLaw, SoundLaw};

mod kinds;

pub use kinds::DeviceKind;

/// Being the same device is an equivalence that tells the joined terminals and goes along with maps
/// of nets.
pub fn device_rows()
    ensures kinds { KindLaw }
    ensures same { RowSameLaw }
    ensures turned { RowTurnedLaw }
    ensures through { RowThroughLaw }
    ensures terminal { RowTerminalLaw }
    ensures terminals { TerminalsLaw }
    ensures formed { FormedLaw }
    ensures carried { CarriedLaw }
    ensures ordered { OrderedLaw }
{}

/// Standing on one net is an equivalence, so that a net is named by any of its slots.
pub fn net_classes()
    ensures itself { SelfLaw }
    ensures turned { TurnLaw }
    ensures through { ThroughLaw }
{}

/// A netlist is sound or has one first fault; the calls of a sound one go down in some height.
pub fn soundness()
    ensures sound { SoundLaw }
    ensures one_fault { OneFaultLaw }
    ensures height { HeightLaw }
    ensures good { GoodLaw }
    ensures good_faults { GoodFaultLaw }
    ensures normal { NormalNetsLaw }
{}

/// Expanding to the same is an equivalence of circuits; it is one to one on devices, and each net
/// with a terminal has an image.
pub fn correspondences()
    ensures same { SameLaw }
    ensures reversed { ReversedLaw }
    ensures composed { ComposedLaw }
    ensures one_image { OneImageLaw }
    ensures terminals { TerminalLaw }
{}
