//! Names of cells, nets and devices, which are bytes, and the escapes by which SPICE text spells
//! them.
#![tactic(auto)]

mod escapes;
mod name;

pub use escapes::{NameFault, escape, spelling_laws, unescape};
pub use name::{Name, folded};
