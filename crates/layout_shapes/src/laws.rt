//! What written references place.

ghost use Rattle.layout_shapes.specs.Writable.{PlacesLaw};

/// A written reference is read with the placements that it has in the design, in the same order.
pub fn same_places()
    ensures { PlacesLaw }
{}
