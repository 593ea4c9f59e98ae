//! What a cell keeps of a name, as a layer that is asked window by window.
ghost use Rattle.std.specs.Prelude.{◌≡◌, ◌<◌, length};
ghost use Rattle.flat_layout.specs.Layout.{IsReached};
ghost use Rattle.cell_graph.specs.Linked.{plain};
ghost use Rattle.rule_text.specs.Seen.{rules_seen};
ghost use Rattle.rule_text.specs.Sound.{IsSound};
ghost use Rattle.gate_phase.specs.Indexes.{AreLayersOf};

use crate::frame::plane;
use crate::indexes::IndexedLayers;
use crate::kept::kept_in;
use cell_context::meet;
use cell_graph::Design;
use gate_search::GateLayer;
use geo_base::Rect;
use rect_sets::RectSet;
use rule_text::RuleSet;
use std::alloc::{AllocError, Global};
use std::marker::Model;

/// What a cell keeps of a name of the rules, by the table of what cells hold themselves.
#[derive(Drop)]
pub struct KeptLayer<'a, 'l> {
    design: &'a Design,
    rules: &'a RuleSet,
    layers: &'a IndexedLayers<'l>,
    cell: u32,
    name: u32,
}

impl<'a, 'l> Model for KeptLayer<'a, 'l> {
    ghost use Rattle.gate_phase.specs.Layer.{IsKeptLayer, KeptOf, kept_of};

    ghost Value = { KeptOf };

    ghost view = { kept_of };

    ghost invariant = { IsKeptLayer };
}

impl<'a, 'l> KeptLayer<'a, 'l> {
    /// What the cell keeps of the name.
    pub fn new(
        design: &'a Design,
        rules: &'a RuleSet,
        layers: &'a IndexedLayers<'l>,
        cell: u32,
        name: u32,
    ) -> KeptLayer<'a, 'l>
        requires rules { IsSound (rules_seen rules.now) }
        requires name { name < length rules.now.names.items }
        requires layers { AreLayersOf (plain design.now) (rules_seen rules.now) layers.now }
        requires reached { IsReached (plain design.now) cell }
        ensures design { result.design ≡ design.now }
        ensures rules { result.rules ≡ rules.now }
        ensures cell { result.cell ≡ cell }
        ensures name { result.name ≡ name }
    {
        KeptLayer {
            design,
            rules,
            layers,
            cell,
            name,
        }
    }
}

impl GateLayer for KeptLayer<'_, '_> {
    ghost use Rattle.gate_phase.specs.Layer.{IsKeptNear};

    ghost keeps = { IsKeptNear };

    fn near(&self, alloc: Global, window: Rect) -> Result<RectSet, AllocError> {
        self.design.sound();
        match meet(&window, &plane()) {
            Some(near) => kept_in(
                alloc,
                self.design,
                self.layers,
                self.cell,
                self.name,
                &[near],
            ),
            None => Ok(RectSet::empty(alloc)),
        }
    }

    ghost bounded = { λ x q e. e.near };
}
