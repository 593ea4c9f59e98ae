//! Laws on local and on disturbed squares, each the contract of a function that does nothing.

ghost use Rattle.deep_laws.specs.Layers.{CandidateLaw, BelowLaw};
ghost use Rattle.deep_laws.specs.Opens.{OpenZoneLaw, BareLaw, OpenNoneLaw, OpenUnionLaw, CalmByLaw};
ghost use Rattle.deep_laws.specs.Opens.{LoneInputLaw, LoneBinaryLaw, LoneSizedLaw};
ghost use Rattle.deep_laws.specs.Zones.{ArrayZoneLaw, UnionLaw};

/// Local squares lie over own shapes or over disturbed squares of placed cells; below lies what
/// isn't disturbed there.
pub fn layer_laws()
    ensures candidate { CandidateLaw }
    ensures below { BelowLaw }
{}

/// Disturbed squares come from the parents, by reference, row and column.
pub fn zone_laws()
    ensures zones { ArrayZoneLaw }
    ensures union { UnionLaw }
{}

/// The squares that a cell leaves are worked from disturbed squares: one list of layers after
/// another.
pub fn open_laws()
    ensures zone { OpenZoneLaw }
    ensures bare { BareLaw }
    ensures none { OpenNoneLaw }
    ensures union { OpenUnionLaw }
    ensures calm { CalmByLaw }
{}

/// Those that others may make of a name without the cell follow the name's operators.
pub fn lone_laws()
    ensures input { LoneInputLaw }
    ensures binary { LoneBinaryLaw }
    ensures sized { LoneSizedLaw }
{}
