//! How one placement lies beside another.

ghost use Rattle.std.specs.Prelude.{◌≡◌};
ghost use Rattle.geo_base.specs.Motions.{moved_square};
ghost use Rattle.geo_base.specs.Near.{IsNearMotion};
ghost use Rattle.geo_base.specs.declared.shapes.Square.{Square};
ghost use Rattle.net_walk.specs.Relative.{IsRelative, SameContactLaw};

use geo_base::Motion;

/// The first motion as it is seen from where the other leads: followed by the other it is the
/// first.
pub fn relative(one: &Motion, other: &Motion) -> Motion
    requires near { IsNearMotion one.now }
    requires near_other { IsNearMotion other.now }
    ensures { IsRelative one.now other.now result }
{
    one.then(&other.inverse())
}

/// Two pairs of placements of the same cells that lie beside each other alike have the same nets in
/// contact.
pub fn same_contacts()
    ensures { SameContactLaw }
{}
