//! What the calls of this crate read together.

use cell_graph::Design;
use deep_tables::Zones;
use rule_text::{LayerRule, RuleSet};

/// A reached cell of a layout, with the rules and the squares that cells leave for them.
#[derive(Drop)]
pub struct CellWork<'a> {
    pub design: &'a Design,
    pub rules: &'a RuleSet,
    pub zones: &'a Zones,
    pub cell: u32,
}

/// A layout and the squares that its cells leave, as the derived names of one reach see them:
/// `members` tells which these are.
#[derive(Drop)]
pub struct View<'a> {
    pub design: &'a Design,
    pub zones: &'a Zones,
    pub names: &'a [LayerRule],
    pub members: &'a [bool],
    pub reach: u32,
}
