//! What is asked of a region and of other squares: whether it touches them, shares some, lies in
//! them; or how many squares it has.
#![tactic(auto)]

mod asks;

pub use asks::has;
