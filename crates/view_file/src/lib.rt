//! The database that KLayout's netlist browser reads: a layout, a schematic, and which of their
//! nodes are partners.
#![tactic(auto)]

mod cross;
mod file;
mod layers;
mod layout;
mod regions;

pub use cross::Shown;
pub use file::database;
pub use layout::Picture;
pub use regions::Region;
