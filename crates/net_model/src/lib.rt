//! Netlists: circuits with nets, pins, devices and calls of circuits; what is wrong with one.
//!
//! Contracts see each type as the plain record of `plain_netlist` (`specs/Rows.antt`), where
//! soundness, normal form and the faults of a netlist are defined.
#![tactic(auto)]

mod calls;
mod checked;
mod copies;
mod fault;
mod names;
mod netlist;
mod ranges;

pub use calls::{call_list_laws, call_lists};
pub use checked::check;
pub use copies::{copy_devices, copy_names};
pub use fault::NetFault;
pub use names::has_twins;
pub use netlist::{CallRow, Circuit, DeviceRow, Netlist};
