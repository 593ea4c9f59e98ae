//! What lines by which circuits have no partner say.
ghost use Rattle.pair_turns.specs.Laws.{AloneLaw, LinesApartLaw, LongestLaw};

/// Beside names that are longer than each, no two of the lines have one name on one side, and the
/// circuits have no partner.
pub fn alone_lines()
    ensures longest { LongestLaw }
    ensures apart { LinesApartLaw }
    ensures alone { AloneLaw }
{}
