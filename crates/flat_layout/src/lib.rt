//! What a hierarchical layout means, flat and cell by cell: definitions over plain records, and
//! the two types that code shares, why a gate is bad and which squares cells keep.
//!
//! Of layouts: `specs/Plane` has unit squares, `Layout` designs, paths, flat input layers and
//! disturbed squares, `Order` and `Hull` the order of cells and their hulls, `Arrays` the
//! placements of references. Of layers: `Layers` has derived layers, kept and local squares,
//! `Zones` disturbed squares as they come from parents. Of nets and devices: `Regions` has
//! connected regions, `Nets` the nets of a cell, `Parts` regions joined at edges or at corners and
//! what lies round one, `Gates` the gates of device rules, `Seeds` where a cell may have gates of
//! its own.
//! Of circuits: `GateTables` has the gates of a cell's list, `Pins` texts, base names and pins,
//! `Names` the names of nets and circuits, `Circuits` drawn nets and the circuits of cells,
//! `Values` what each phase fills in, `Expanded` a netlist beside the flat layout. The laws between
//! them are the contracts of `flat_laws`.
#![tactic(auto)]

mod cause;
mod way;

pub use cause::GateCause;
pub use way::Way;
