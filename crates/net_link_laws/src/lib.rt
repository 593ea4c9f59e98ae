//! Links that are found in windows give the nets of a cell: laws, each the contract of a function
//! that does nothing.
#![tactic(auto)]

ghost use Rattle.net_link_laws.specs.Places.{OwnPlaceLaw, ChildPlaceLaw, GlobalPlaceLaw};
ghost use Rattle.net_link_laws.specs.Places.{OwnNextLaw, ChildNextLaw};
ghost use Rattle.net_link_laws.specs.Laws.{CollectLaw, OneNetLaw, ConductorLaw, FoundLaw, ClassLaw};
ghost use Rattle.net_link_laws.specs.Laws.{AllLaw, OwnLaw, BesideLaw, ContactLaw, AlikeLaw};
ghost use Rattle.net_link_laws.specs.Laws.{ChildrenLaw, HullLaw};

mod piece;

pub use piece::NetPiece;

/// The pieces of a cell's nets in a window come from its own rectangles and from those of the cells
/// that it places.
pub fn collected()
    ensures pieces { CollectLaw }
    ensures net { OneNetLaw }
    ensures conductor { ConductorLaw }
{}

/// Links by squares in windows, and links to globals, join what all links join; their classes are
/// the nets.
pub fn found()
    ensures chains { FoundLaw }
    ensures classes { ClassLaw }
    ensures all { AllLaw }
{}

/// Which windows are enough.
pub fn windows()
    ensures own { OwnLaw }
    ensures beside { BesideLaw }
    ensures contact { ContactLaw }
    ensures alike { AlikeLaw }
    ensures children { ChildrenLaw }
    ensures hulls { HullLaw }
{}

/// Where each item stands in a cell's list of items.
pub fn places()
    ensures own { OwnPlaceLaw }
    ensures child { ChildPlaceLaw }
    ensures global { GlobalPlaceLaw }
    ensures next_own { OwnNextLaw }
    ensures next_child { ChildNextLaw }
{}
