//! The comparison of two circuits: rounds, and guesses where rounds leave ties.
#![tactic(auto)]

mod by_rounds;
mod called;
mod candidates;
mod choosing;
mod evidence;
mod guessing;
mod lefts;
mod lists;
mod matching;
mod namesakes;
mod pairings;
mod rights;
mod searching;
mod ties;

pub use called::first_unmatched;
pub use matching::match_circuits;
