//! The cards of a netlist text, one at a time: what a card says, or its fault.
//!
//! `specs/Rows.antt` has a row for each form of card: the words behind the first, the parameters,
//! and what is said by them.
#![tactic(auto)]

mod card;
mod device;
mod fault;
mod kinds;
mod names;
mod params;
mod rows;
mod sizes;

pub use card::{CallCard, CardRow};
pub use device::DeviceCard;
pub use fault::SpiceFault;
pub use kinds::{first_key, letter, second_key};
pub use rows::read_card;
