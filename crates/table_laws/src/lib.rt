//! Tables of a hierarchical layout, cell by cell: what each phase fills in is determined, is what
//! any right tables say of the cells that a job reads, and where each cell's value is right by
//! itself, all are right together. The circuits so found are a sound netlist.
#![tactic(auto)]

ghost use Rattle.table_laws.specs.BadLaws.{BadListedLaw, NoBadLaw, OneBadLaw};
ghost use Rattle.table_laws.specs.HullLaws.{GrownLaw, NoHullLaw, FlatHullLaw, ReachHullLaw};
ghost use Rattle.table_laws.specs.NameLaws.{NetNamesApartLaw, CircuitNamesApartLaw, SecondNameLaw};
ghost use Rattle.table_laws.specs.NameLaws.{ExtractedGoodLaw, ExtractedSoundLaw};
ghost use Rattle.table_laws.specs.TableLaws.{OneZoneLaw, OneLayerLaw, OneOwnLaw, TablesLaw};
ghost use Rattle.table_laws.specs.TableLaws.{OnePinsLaw, ReadPinsLaw, PinsTogetherLaw, OneDrawnLaw};
ghost use Rattle.table_laws.specs.TableLaws.{ReadDrawnLaw, DrawnTogetherLaw, OneCircuitLaw};
ghost use Rattle.table_laws.specs.TableLaws.{CircuitsTogetherLaw};

/// Hulls as rectangles, and that flat squares, with what lies around them, lie in grown hulls.
pub fn hulls()
    ensures grown { GrownLaw }
    ensures none { NoHullLaw }
    ensures flat { FlatHullLaw }
    ensures reach { ReachHullLaw }
{}

/// Disturbed squares and local layers are determined; with nets that are right by themselves they
/// are right tables.
pub fn layer_tables()
    ensures zone { OneZoneLaw }
    ensures layer { OneLayerLaw }
    ensures own { OneOwnLaw }
    ensures tables { TablesLaw }
{}

/// Each cell has one table of pins, right by itself and with those of the cells above.
pub fn pin_tables()
    ensures one { OnePinsLaw }
    ensures read { ReadPinsLaw }
    ensures together { PinsTogetherLaw }
{}

/// Each cell has one table of drawn nets and one circuit, right by themselves and with those of the
/// cells below.
pub fn circuit_tables()
    ensures one_drawn { OneDrawnLaw }
    ensures read { ReadDrawnLaw }
    ensures drawn { DrawnTogetherLaw }
    ensures one { OneCircuitLaw }
    ensures together { CircuitsTogetherLaw }
{}

/// The names of nets and circuits are apart, and the netlist is sound and in normal form.
pub fn sound_netlist()
    ensures nets { NetNamesApartLaw }
    ensures circuits { CircuitNamesApartLaw }
    ensures second { SecondNameLaw }
    ensures good { ExtractedGoodLaw }
    ensures sound { ExtractedSoundLaw }
{}

/// The list of a design's bad gates has each bad gate of a reached cell's list and no other; it is
/// one, and empty exactly where there is none.
pub fn bad_gates()
    ensures listed { BadListedLaw }
    ensures one { OneBadLaw }
    ensures none { NoBadLaw }
{}
