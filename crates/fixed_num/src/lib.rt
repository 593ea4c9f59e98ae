//! Exact numbers: the eight-byte reals of a layout stream, lengths in whole femtometres, and areas
//! in whole square picometres.
#![tactic(auto)]

mod femto;
mod micron;
mod power;
mod real;
mod scan;
mod significant;
mod unit;
mod value;

pub use femto::{Femto, ValueFault};
pub use micron::{area_text, micron_text};
pub use real::Real8;
pub use unit::dbu_pm;
pub use value::{parse_area, parse_value, value_laws};
