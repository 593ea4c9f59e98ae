//! What a job reads of the cells that its cell places.
use crate::circuits::number_of;
use crate::placed::Placed;
use cell_graph::Design;
use deep_tables::{CellCircuit, CellPins, Nets, Pins};
use job_graph::Reads;
use rule_text::RuleSet;

/// The layout, the rules, the nets and pins of all cells, the job of each cell, the cells with
/// circuits and the position of each cell among them, and the values of jobs.
#[derive(Drop)]
pub struct Below<'a, R> {
    pub design: &'a Design,
    pub rules: &'a RuleSet,
    pub nets: &'a Nets,
    pub pins: &'a Pins,
    pub jobs: &'a [u32],
    pub circuits: &'a [u32],
    pub numbers: &'a [u32],
    pub reads: &'a R,
}

impl<R: Reads<CellCircuit>> Placed for Below<'_, R> {
    ghost use Rattle.cell_graph.specs.Linked.{plain};
    ghost use Rattle.deep_tables.specs.Entries.{entry};
    ghost use Rattle.deep_tables.specs.Nets.{nets_in};
    ghost use Rattle.deep_tables.specs.Pins.{pins_of};
    ghost use Rattle.rule_layers.specs.Meaning.{wiring_of};
    ghost use Rattle.rule_text.specs.Seen.{rules_seen};
    ghost use Rattle.circuit_phase.specs.Below.{IsReadable, drawn_by};

    ghost design = { λ v. plain v.design.now };

    ghost wiring = { λ v. wiring_of (rules_seen v.rules.now) };

    ghost nets = { λ v cell. nets_in (entry v.nets.now cell) };

    ghost pins = { λ v cell. pins_of v.pins.now cell };

    ghost drawn = { λ v cell. drawn_by (R.value v.reads.now) v.jobs.now cell };

    ghost circuits = { λ v. v.circuits.now };

    ghost may_read = { λ v cell. IsReadable (R.may_read v.reads.now) (R.value v.reads.now)
        v.jobs.now v.numbers.now v.circuits.now v.nets.now v.pins.now cell };

    fn pins(&self, cell: u32) -> &CellPins {
        self.pins.of(cell)
    }

    fn drawn(&self, cell: u32) -> &[bool] {
        &self.reads.get(self.jobs[cell as usize]).drawn
    }

    fn circuit(&self, cell: u32) -> Option<u32> {
        number_of(self.circuits, self.numbers, cell)
    }
}
