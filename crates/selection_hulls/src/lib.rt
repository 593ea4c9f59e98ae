//! Hulls of a design with the rules' selections: they lie within the drawn ones, grown by 10,000 for
//! each selection.
#![tactic(auto)]

ghost use Rattle.selection_hulls.specs.Near.{RoomLaw};

use rect_sets::canonical_rects;

/// Where no drawn hull, grown so far, leaves the range of hulls, no hull of the design with all
/// selections does.
pub fn hulls_with_selections()
    ensures { RoomLaw }
{
    canonical_rects();
}
