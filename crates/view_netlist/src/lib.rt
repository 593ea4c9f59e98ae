//! Circuits as KLayout's netlist browser reads them: nets, pins, devices and calls.
#![tactic(auto)]

mod circuits;
mod classes;
mod devices;
mod drawing;
mod kinds;
mod laws;
mod rows;
mod section;

pub use circuits::push_circuits;
pub use classes::{push_classes, used_classes};
pub use drawing::{DevicePlace, Drawing, Names, Shape, drawing_at, push_region};
pub use kinds::{DeviceClass, class_name, class_of, kind_word, size_letters, size_texts};
pub use laws::class_names;
pub use rows::name_at;
pub use section::push_schematic;
