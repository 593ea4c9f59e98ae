//! The gates of transistors that each cell holds itself, and the regions of further devices.
//!
//! A region belongs to the lowest cell that leaves nothing near it, and of which others can't make
//! all of it. In a cell, regions of its own can only lie around its own shapes, around what placed
//! cells leave and around what others may make there; from there whole parts are gathered of what
//! the cell keeps, and each is judged by what lies close to it. Placed cells are looked into by
//! windows and never flattened.
#![tactic(auto)]

mod below;
mod both;
mod bulks;
mod close;
mod copies;
mod device;
mod entries;
mod frame;
mod indexes;
mod judged;
mod kept;
mod layer;
mod list;
mod met;
mod more;
mod nearby;
mod nets;
mod own;
mod phase;
mod reads;
mod search;
mod seeds;
mod shape;
mod site;
mod terminals;
mod work;

pub use both::BothLayer;
pub use bulks::{Grounds, device_grounds};
pub use close::{close_to, misses};
pub use device::{Device, Region, device_at, device_count};
pub use entries::entry_laws;
pub use frame::plane;
pub use indexes::IndexedLayers;
pub use kept::{kept_in, kept_rects};
pub use layer::KeptLayer;
pub use list::{cell_gates, push_all};
pub use more::MorePhase;
pub use nets::{net_at, net_of_global};
pub use own::{OwnGate, own_gates};
pub use phase::GatePhase;
pub use site::{DeviceSite, Site};
pub use terminals::{Terminals, terminal_nets};
pub use work::DeviceWork;
