//! Laws of the definitions: a byte list has one meaning.

ghost use Rattle.gds_elements.specs.Fillable.{FillableLaw};
ghost use Rattle.gds_elements.specs.Placeable.{PlaceableLaw};
ghost use Rattle.gds_elements.specs.Units.{MeasuredLaw};
ghost use Rattle.gds_elements.specs.Once.{DerivedLaw, NoFaultLaw, OneFaultLaw, OneLibraryLaw};

/// A byte list means one library or has one first fault, never both.
pub fn one_meaning()
    ensures library { OneLibraryLaw }
    ensures apart { NoFaultLaw }
    ensures fault { OneFaultLaw }
{}

/// The grammar derives the kinds of what is accepted.
pub fn derived()
    ensures { DerivedLaw }
{}

/// Each shape of what is accepted can be filled: outlines end where they begin, and all numbers are
/// those of four bytes.
pub fn fillable()
    ensures { FillableLaw }
{}

/// Each reference of what is accepted has a column and a row.
pub fn placeable()
    ensures { PlaceableLaw }
{}

/// What is accepted has a database unit.
pub fn measured()
    ensures { MeasuredLaw }
{}
