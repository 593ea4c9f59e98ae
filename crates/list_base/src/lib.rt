//! Numbers of a list's places. Lists of up to 2^32 members have places of 32 bits; a longer one is
//! want of memory for whoever keeps such places.
#![tactic(auto)]

mod numbers;

pub use numbers::{number, small};
