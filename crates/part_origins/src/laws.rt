//! What a comparison gives is what origins ask for.
ghost use Rattle.part_origins.specs.Laws.{LeftLaw, WrittenLaw};

/// A layout's netlist that is compared, and what it is aligned to, have origins: circuits stand
/// behind those that they call, and their names are apart.
pub fn origins_asked()
    ensures written { WrittenLaw }
    ensures left { LeftLaw }
{}
