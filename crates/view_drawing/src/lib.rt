//! What is drawn of a layout's circuits: boxes, rectangles of nets, regions and places of devices,
//! motions of calls.
#![tactic(auto)]

mod called;
mod calls;
mod devices;
mod nets;
mod numbers;
mod placed;
mod regions;
mod shown;
mod small;
mod source;

pub use calls::is_small_shift;
pub use devices::{keep_place, place_devices};
pub use nets::net_shapes;
pub use numbers::{name_table, net_numbers};
pub use regions::{DeviceRegions, Region, add_region, area_from};
pub use shown::circuit_shapes;
pub use source::{Lists, Source, draw_cell, find_lists};
