//! The grammar of a GDSII stream (GDSII Stream Format, Release 6, stream syntax): which kinds of
//! records may follow
//! which.
#![tactic(auto)]

ghost use Rattle.gds_grammar.specs.Order.{GrammarLaw, EndLaw};

mod place;

pub use place::{
    ArefPlace, BoundaryPlace, BoxPlace, NodePlace, PathPlace, Place, SrefPlace, TextPlace, follow,
};

/// The grammar can go on with a kind exactly where some text of it begins with the kinds so far and
/// this one.
pub fn grammar()
    ensures { GrammarLaw }
{}

/// Nothing follows ENDLIB.
pub fn grammar_end()
    ensures { EndLaw }
{}
