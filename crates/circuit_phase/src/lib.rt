//! The circuit of each cell: its devices and the instances of circuits below, on its nets.
#![tactic(auto)]

mod below;
mod calls;
mod cells;
mod circuits;
mod devices;
mod drawn;
mod gated;
mod made;
mod named;
mod names;
mod numbering;
mod ordered;
mod phase;
mod placed;
mod rows;

pub use below::Below;
pub use calls::call_rows;
pub use cells::placed_cells;
pub use circuits::{CircuitCells, find_circuits, number_of};
pub use devices::{GateRow, device_row, number_terminals, size};
pub use drawn::{drawn_names, drawn_nets, pin_nets};
pub use gated::gated_cells;
pub use made::{CellParts, cell_circuit};
pub use named::circuit_net_names;
pub use names::{circuit_names, net_names};
pub use numbering::{Numbering, number_nets};
pub use ordered::circuit_cells;
pub use phase::CircuitPhase;
pub use placed::{Placed, drawn_marks};
pub use rows::device_rows;
