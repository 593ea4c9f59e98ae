//! Edge-connected parts of a set of unit squares, and each of them judged as the gate of a
//! transistor, or as a device alone.
#![tactic(auto)]

mod alone;
mod area;
mod border;
mod contacts;
mod laws;
mod pieces;
mod plain;
mod shape;

pub use alone::{Sheets, area_shape};
pub use area::count;
pub use border::{border_of, grown, sides_of};
pub use flat_layout::GateCause;
pub use laws::{looks, looks_alone};
pub use pieces::{corner_parts, least, parts};
pub use shape::{Around, GateForm, GateShape, shape_of};
