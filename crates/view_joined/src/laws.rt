//! Motions of spots are those of their paths, and nets cover what they are made of.
ghost use Rattle.view_joined.specs.Covered.{CoverLaw};
ghost use Rattle.view_joined.specs.Paths.{MotionLaw};

/// Each circuit inside a flat one is moved as the calls on the path to it say, the innermost first;
/// and the rectangles of a net cover exactly the moved squares of all nets inside that are it.
pub fn joined_laws()
    ensures motion { MotionLaw }
    ensures cover { CoverLaw }
{}
