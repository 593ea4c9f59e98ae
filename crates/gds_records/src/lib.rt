//! Records of a GDSII stream (GDSII Stream Format, Release 6): a two-byte length that counts its
//! own four header
//! bytes, a kind byte, a form byte and the data. Numbers are big-endian.
#![tactic(auto)]

pub mod kinds;
mod reading;
mod writing;

pub use reading::{Record, RecordFault, next_record, one_reading};
pub use writing::write_record;
