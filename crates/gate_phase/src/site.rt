//! What the calls of this crate read together: a cell, and a device rule that is looked for in it.

use crate::device::Device;
use crate::indexes::IndexedLayers;
use cell_graph::Design;
use deep_tables::Zones;
use rule_text::RuleSet;

/// A reached cell of a layout, with the rules, and the layout's zones and layers for them.
#[derive(Clone, Copy)]
pub struct Site<'a> {
    pub design: &'a Design,
    pub rules: &'a RuleSet,
    pub zones: &'a Zones,
    pub layers: &'a IndexedLayers<'a>,
    pub cell: u32,
}

/// A device rule whose regions are looked for in a cell: by its number, with its names; it reaches
/// so far.
#[derive(Clone, Copy)]
pub struct DeviceSite<'a> {
    pub site: Site<'a>,
    pub number: u32,
    pub device: Device,
    pub reach: u32,
}
