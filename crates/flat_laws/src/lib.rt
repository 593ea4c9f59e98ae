//! Deep equals flat: the laws of `flat_layout`, each the contract of a function that does nothing.
//!
//! A square of a cell that nothing outside its own placement touches looks the same from every cell
//! above. So what cells hold covers the flat layers, their nets are the flat regions, their gates
//! the flat gates, and their circuits expand to the flat netlist.
#![tactic(auto)]

ghost use Rattle.flat_laws.specs.FlatGates.{FlatGatesLaw};
ghost use Rattle.flat_laws.specs.GateLaws.{ReadLayersLaw, KeptGateLaw, KeptFormLaw, OnePlaceLaw};
ghost use Rattle.flat_laws.specs.GateLaws.{GateLaw, TopLaw, TerminalNodeLaw, GroundNodeLaw};
ghost use Rattle.flat_laws.specs.GateLaws.{GoodInLaw, OneCountLaw, OneSizesLaw};
ghost use Rattle.flat_laws.specs.GateLaws.{NotBothLaw, OneCauseLaw, SameGateLaw, CauseAlongLaw};
ghost use Rattle.flat_laws.specs.LayerLaws.{ZoneLaw, UndisturbedLaw, StillLaw};
ghost use Rattle.flat_laws.specs.LayerLaws.{NearInputLaw, CalmLaw, SameFlatLaw, CoverLaw};
ghost use Rattle.flat_laws.specs.LayerLaws.{TopKeptLaw};
ghost use Rattle.flat_laws.specs.NetLaws.{TouchLaw, RegionLaw, OneParentLaw, OneTableLaw, ReadLaw};
ghost use Rattle.flat_laws.specs.NetLaws.{TogetherLaw};
ghost use Rattle.flat_laws.specs.NetlistLaws.{RowsLaw, PlannedLaw, PartLaw, NetLaw, NetlistLaw};
ghost use Rattle.flat_laws.specs.NetlistLaws.{DeviceOfRuleLaw, FlatNetlistLaw, FlatRegionLaw};
ghost use Rattle.flat_laws.specs.ShutLaws.{AreShutLaws, keeping};
ghost use Rattle.flat_laws.specs.SeedLaws.{ReachLaw, SeedLaw, ThroughLaw};
ghost use Rattle.flat_laws.specs.SeedLaws.{CalmThroughLaw, TestLaw, BelowLaw, SeedOpenLaw};
ghost use Rattle.flat_laws.specs.SeedLaws.{KeptPartLaw, ClosedLaw, PartedLaw, PartedOpenLaw};

/// Disturbed squares of a cell come from the cells that place it.
pub fn zones()
    ensures { ZoneLaw }
{}

/// What lies within the reach of a name: of an input layer the square itself.
pub fn reaches()
    ensures still { StillLaw }
    ensures near { NearInputLaw }
{}

/// What the laws of kept squares and of gates stand on: by each way of a design squares are shut in
/// the sense of these laws.
pub fn shut_squares()
    ensures { (way : _) → AreShutLaws (keeping way) }
{}

/// Undisturbed squares look the same from above.
pub fn undisturbed()
    ensures input { UndisturbedLaw }
    ensures name { SameFlatLaw }
    ensures calm { CalmLaw }
{}

/// What the cells hold covers what each keeps, and the top keeps its flat layout.
pub fn layers()
    ensures cover { CoverLaw }
    ensures top { TopKeptLaw }
{}

/// The nets of each cell are the regions of what it keeps, each in one net of the cell above.
pub fn nets()
    ensures touch { TouchLaw }
    ensures region { RegionLaw }
    ensures parent { OneParentLaw }
{}

/// Each cell has one table of nets, right by itself and with the others.
pub fn one_table()
    ensures one { OneTableLaw }
    ensures read { ReadLaw }
    ensures together { TogetherLaw }
{}

/// The gates of the lists are the flat gates, each once, with their sizes or causes.
pub fn gates()
    ensures reads { ReadLayersLaw }
    ensures kept { KeptGateLaw }
    ensures form { KeptFormLaw }
    ensures place { OnePlaceLaw }
    ensures once { GateLaw }
    ensures top { TopLaw }
    ensures terminals { TerminalNodeLaw }
    ensures ground { GroundNodeLaw }
    ensures inside { GoodInLaw }
    ensures count { OneCountLaw }
    ensures sizes { OneSizesLaw }
{}

/// All lists of gates, seen from the top, are the gates of the flat top, each once, with their
/// verdicts and terminals.
pub fn flat_gates()
    ensures { FlatGatesLaw }
{}

/// A gate is good or bad, for one cause, by each of its squares and seen from above.
pub fn verdicts()
    ensures not_both { NotBothLaw }
    ensures one { OneCauseLaw }
    ensures same { SameGateLaw }
    ensures along { CauseAlongLaw }
{}

/// A cell's own gates touch its own shapes or what placed cells leave open, and which come from
/// below is told by squares.
pub fn own_gates()
    ensures reach { ReachLaw }
    ensures seed { SeedLaw }
    ensures through { ThroughLaw }
    ensures calm { CalmThroughLaw }
    ensures test { TestLaw }
    ensures below { BelowLaw }
    ensures part { KeptPartLaw }
    ensures closed { ClosedLaw }
    ensures parted { PartedLaw }
    ensures tabled_seed { SeedOpenLaw }
    ensures tabled { PartedOpenLaw }
{}

/// The netlist of the cells expands to that of the flat layout.
pub fn netlist()
    ensures rows { RowsLaw }
    ensures planned { PlannedLaw }
    ensures formed { DeviceOfRuleLaw }
    ensures part { PartLaw }
    ensures net { NetLaw }
    ensures devices { NetlistLaw }
    ensures flat { FlatNetlistLaw }
    ensures regions { FlatRegionLaw }
{}
