//! Which nodes of layout and schematic are partners: the last section of the database that
//! KLayout's netlist browser reads.
#![tactic(auto)]

mod laws;
mod matched;
mod pair;
mod rows;

pub use laws::{apart_laws, matched_laws};
pub use matched::{Counts, apart_rows, matched_rows};
pub use pair::push_pair;
pub use rows::{Kind, Mark, Row};
