//! What the phases of nets, gates and pins read, made once for all of them.
ghost use Rattle.std.specs.Prelude.{◌≡◌, ◌<◌, ◌^◌, length, IfOk};
ghost use Rattle.cell_graph.specs.Linked.{plain};
ghost use Rattle.deep_tables.specs.Layers.{AreLayers};
ghost use Rattle.rule_layers.specs.Meaning.{globals_of, wiring_of};
ghost use Rattle.rule_text.specs.Seen.{rules_seen};
ghost use Rattle.rule_text.specs.Sound.{IsSound};
ghost use Rattle.net_phase.specs.Own.{AreOwnLists};
ghost use Rattle.net_phase.specs.Reading.{nets_of};
ghost use Rattle.net_phase.specs.Wired.{with_nets};
ghost use Rattle.net_phase.specs.Wires.{AreWires};

use crate::below::Below;
use crate::elements::all_elements;
use crate::indexes::{Indexes, find_indexes};
use crate::own::own_lists;
use crate::wires::{Wires, find_wires};
use cell_graph::Design;
use deep_tables::{CellNets, Layers};
use geo_base::Rect;
use list_base::small;
use net_walk::Element;
use rule_text::RuleSet;
use std::alloc::{AllocError, Global};
use std::marker::Model;

/// What the rules join, and the rectangles that cells hold themselves and their placements, with
/// indexes of both. Contracts see the layout, the rules and the rectangles.
#[derive(Drop)]
pub struct Wired<'a> {
    design: &'a Design,
    rules: &'a RuleSet,
    wires: Wires,
    own: Vec<Vec<&'a [Rect]>>,
    elements: Vec<Vec<Element>>,
    indexes: Indexes,
}

impl<'a> Model for Wired<'a> {
    ghost use Rattle.net_phase.specs.Wired.{IsWired, WiredOf, wired_of};

    ghost Value = { WiredOf };

    ghost view = { wired_of };

    ghost invariant = { IsWired };
}

impl<'a> Wired<'a> {
    /// What phases read of a layout and of its layers for these rules. Linear in the placements,
    /// and in the names for each reached cell, beside the indexes of rectangles and placements.
    /// 2^32 names, globals or placements of a cell, or more, are refused.
    pub fn new(
        alloc: Global,
        design: &'a Design,
        rules: &'a RuleSet,
        layers: &'a Layers,
    ) -> Result<Wired<'a>, AllocError>
        requires rules { IsSound (rules_seen rules.now) }
        requires layers { AreLayers (plain design.now) (rules_seen rules.now) layers.now }
        ensures design { IfOk result (λ w. w.design ≡ design.now) }
        ensures rules { IfOk result (λ w. w.rules ≡ rules.now) }
    {
        let wires = find_wires(alloc, rules)?;
        small(rules.names.len()).ok_or(AllocError)?;
        let own = own_lists(alloc, design, rules, layers)?;
        let elements = all_elements(alloc, design)?;
        let indexes = find_indexes(alloc, design, rules, &own, &elements)?;
        Ok(Wired {
            design,
            rules,
            wires,
            own,
            elements,
            indexes,
        })
    }

    /// The rules are sound and have few globals, and the rectangles are what reached cells hold
    /// themselves. It does nothing.
    pub fn sound(&self)
        ensures rules { IsSound (rules_seen self.now.rules) }
        ensures few { length (globals_of (rules_seen self.now.rules)) < 2 ^ 32 }
        ensures own { AreOwnLists self.now.design (rules_seen self.now.rules) self.now.own }
    {
        let _ = &self.wires;
    }

    /// The layout.
    pub fn design(&self) -> &'a Design
        ensures { result.now ≡ self.now.design }
    {
        self.design
    }

    /// The rules.
    pub fn rules(&self) -> &'a RuleSet
        ensures { result.now ≡ self.now.rules }
    {
        self.rules
    }

    /// What the rules join.
    pub fn wires(&self) -> &Wires
        ensures { AreWires (wiring_of (rules_seen self.now.rules)) result.now }
    {
        &self.wires
    }

    /// What a job reads of cells, with the nets that are known, in constant time.
    pub fn below<'b>(&'b self, nets: &'b [Option<&'b CellNets>]) -> Below<'b, 'a>
        ensures { result ≡ with_nets self.now (nets_of nets.now) }
    {
        self.design.sound();
        Below::new(
            self.design,
            self.rules,
            self.wires.conductors,
            &self.own,
            &self.elements,
            &self.indexes,
            nets,
        )
    }
}
