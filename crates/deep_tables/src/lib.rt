//! What was found for each cell that the top reaches: disturbed squares, local layers, nets, gates,
//! pins and circuits.
//!
//! A table is made from the results of its phase. Contracts see it as a list with an entry, or
//! none,
//! for each cell of the design. What an entry must be is said over whatever is right of the cells
//! that its job reads, in the words of the flat layout; the laws say that tables so filled are
//! right.
#![tactic(auto)]

mod circuits;
mod gates;
mod indexed;
mod jobs;
mod keys;
mod laws;
mod layers;
mod nets;
mod pins;
mod table;
mod zones;

pub use circuits::{CellCircuit, CircuitKey, Circuits};
pub use flat_layout::GateCause;
pub use gates::{BadGate, CellGates, Gate, GateState, Gates};
pub use indexed::{IndexedSet, index_of, indexed_sets};
pub use jobs::free_graph;
pub use keys::{DeepKey, GateKey};
pub use laws::{
    circuit_table, gate_table, layer_table, net_table, over_any, pin_table, zone_frames, zone_table,
};
pub use layers::{CellLayers, Layers};
pub use nets::{CellNets, Item, NetSource, Nets};
pub use pins::{CellPins, Pins};
pub use table::positions;
pub use zones::{CellZones, CoveredZones, ZoneKey, Zones};
