//! The laws of words, numbers and steps.

ghost use Rattle.view_words.specs.Laws.{NumberLaw, PrintableLaw, ReadableStepsLaw, StepsLaw};
ghost use Rattle.view_words.specs.Laws.{WordReadLaw};

/// Each word is read as its name, and no line ends in it.
pub fn word_laws()
    ensures read { WordReadLaw }
    ensures printable { PrintableLaw }
{}

/// Numbers that the reader takes have texts of their own.
pub fn number_laws()
    ensures { NumberLaw }
{}

/// The steps lead to the rectangles again; between small rectangles each of their numbers is one
/// that the reader takes.
pub fn step_laws()
    ensures again { StepsLaw }
    ensures readable { ReadableStepsLaw }
{}
