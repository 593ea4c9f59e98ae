//! What is written of cards and of sizes, and how it is read.

ghost use Rattle.netlist_turn.specs.CardLaw.{CardTextLaw, CardTokensLaw};
ghost use Rattle.netlist_turn.specs.DeviceLaw.{DeviceReadLaw, DeviceTextLaw};
ghost use Rattle.netlist_turn.specs.KeptLaw.{KeptCardsLaw, KeptStartLaw};
ghost use Rattle.netlist_turn.specs.ScaleLaw.{ProductLaw, SquareLaw, WrittenAreaLaw};
ghost use Rattle.netlist_turn.specs.ScaleLaw.{WrittenSizeLaw};

/// A length by the scale is exactly the product, an area by the scale is exactly the product with
/// the scale's square, and what is written of them is read as that size.
pub fn scale_laws()
    ensures product { ProductLaw }
    ensures written { WrittenSizeLaw }
    ensures squared { SquareLaw }
    ensures written_area { WrittenAreaLaw }
{}

/// The line that is written of a kept card is its first word, the words of it that say something,
/// and its kept parameters with their values as they were turned; and it is read as just these.
pub fn card_laws()
    ensures text { CardTextLaw }
    ensures tokens { CardTokensLaw }
{}

/// The line that is written of a call of a listed name is the kind's letter, the call's first word,
/// its nets by the ports, the class, and the parameters by the keys; and it is read as the device
/// of the kind with just these.
pub fn device_laws()
    ensures text { DeviceTextLaw }
    ensures read { DeviceReadLaw }
{}

/// Of a text without a backslash, of which nothing is told but cards that say nothing of the
/// netlist, all other cards stand in what is made, in their order, each with its tokens, and no `+`
/// before them. No circuit and no device may be left out, and no name listed.
pub fn kept_laws()
    ensures cards { KeptCardsLaw }
    ensures start { KeptStartLaw }
{}
