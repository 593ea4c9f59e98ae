//! Marks at the nets with drawn pins of placed cells.
ghost use Rattle.std.specs.Prelude.{◌≡◌, ◌<◌, ◌||◌, ℕ, Bool, List};
ghost use Rattle.std.specs.Prelude.{Some, false, length, map};
ghost use Rattle.std.specs.Prelude.{get_or, slice_get, IfOk};
ghost use Rattle.deep_tables.specs.declared.nets.Item.{Item};
ghost use Rattle.deep_tables.specs.Gates.{plain_gate};
ghost use Rattle.deep_tables.specs.Nets.{plain_item, plain_nets};
ghost use Rattle.deep_tables.specs.Pins.{plain_pins};
ghost use Rattle.flat_layout.specs.Circuits.{AreDrawn};
ghost use Rattle.flat_layout.specs.Layout.{Design, Place, IsPlaced};
ghost use Rattle.flat_layout.specs.Nets.{CellNets};
ghost use Rattle.flat_layout.specs.Pins.{CellPins, HasGate};
ghost use Rattle.flat_layout.specs.Regions.{Wiring};
ghost use Rattle.geo_base.specs.declared.shapes.Rect.{Rect};
ghost use Rattle.circuit_phase.specs.Placed.{AreNetsOver, AreReadable, IsNumberOf};
ghost use Rattle.circuit_phase.specs.Placed.{is_child_marked, is_drawn_pin, is_marked_by};
ghost use Rattle.circuit_phase.specs.Placed.{placed_cells, tables_with};

use deep_tables::{CellNets as DeepNets, CellPins as DeepPins, Gate, Item};
use net_marks::{mark_gates, mark_if};
use std::alloc::{AllocError, Global};

/// What is read of the cells that a cell places.
pub trait Placed {
    ghost design: { Self → Design };

    ghost wiring: { Self → Wiring };

    ghost nets: { Self → ℕ → CellNets };

    ghost pins: { Self → ℕ → CellPins };

    ghost drawn: { Self → ℕ → List Bool };

    ghost circuits: { Self → List ℕ };

    ghost may_read: { Self → ℕ → Type 0 };

    /// The pins of a cell.
    fn pins(&self, cell: u32) -> &DeepPins
        requires { may_read self.now cell }
        ensures value { plain_pins result.now ≡ pins self.now cell }
        ensures count { length (pins self.now cell).pins ≡ (nets self.now cell).count };

    /// For each net of a cell, whether it is drawn.
    fn drawn(&self, cell: u32) -> &[bool]
        requires { may_read self.now cell }
        ensures value { result.now ≡ drawn self.now cell }
        ensures count { length (drawn self.now cell) ≡ (nets self.now cell).count };

    /// The number of a cell's circuit, where it has one.
    fn circuit(&self, cell: u32) -> Option<u32>
        requires { may_read self.now cell }
        ensures { IsNumberOf (circuits self.now) cell result };
}

// Whether a mark is set; past the last there is none.
fn is_set(marks: &[bool], n: u32) -> bool
    ensures { result ≡ get_or marks.now n false }
{
    match marks.get(n as usize) {
        None => false,
        Some(mark) => *mark,
    }
}

fn is_drawn_pin<P: Placed>(placed: &P, cell: u32, net: u32) -> bool
    requires { P.may_read placed.now cell }
    ensures { result ≡ is_drawn_pin (P.pins placed.now) (P.drawn placed.now) cell net }
{
    is_set(&placed.pins(cell).pin, net) && is_set(placed.drawn(cell), net)
}

// An item that is a drawn pin of a placed cell; of each placement its cell is known.
fn is_child_marked<P: Placed>(placed: &P, cells: &[u32], item: &Item) -> bool
    requires { AreReadable (P.may_read placed.now) cells.now (plain_item item.now) }
    ensures { result ≡ is_child_marked (P.pins placed.now) (P.drawn placed.now) cells.now
        (plain_item item.now) }
{
    match *item {
        Item::Child { place, net } => is_drawn_pin(placed, cells[place as usize], net),
        _ => false,
    }
}

// Marks the nets with drawn pins of placed cells, in the order of the items. Constant time an
// item.
fn mark_placed<P: Placed>(placed: &P, cells: &[u32], nets: &DeepNets, marks: &mut [bool])
    requires readable { (i : ℕ) (item : Item) → slice_get nets.now.items.items i ≡ Some item
        → AreReadable (P.may_read placed.now) cells.now (plain_item item) }
    requires numbers { length nets.now.net_of.items ≡ length nets.now.items.items }
    requires within { (i : ℕ) → i < length nets.now.net_of.items
        → get_or nets.now.net_of.items i 0 < length marks.old }
    ensures count { length marks.new ≡ length marks.old }
    ensures marked { (x : ℕ) → get_or marks.new x false
        ≡ (is_marked_by (is_child_marked (P.pins placed.now) (P.drawn placed.now) cells.now)
        (map plain_item nets.now.items.items) nets.now.net_of.items x
        || get_or marks.old x false) }
{
    for i in 0..nets.items.len() {
        let wanted = is_child_marked(placed, cells, &nets.items[i]);
        mark_if(nets.net_of[i], wanted, marks);
    }
}

/// Which nets of a cell are drawn: those with a terminal of a good gate, and those with a drawn pin
/// of a placed cell. Linear in the gates and in the items of the nets.
pub fn drawn_marks<P: Placed>(
    alloc: Global,
    placed: &P,
    cell: u32,
    cells: &[u32],
    nets: &DeepNets,
    gates: &[Gate],
) -> Result<Vec<bool>, AllocError>
    requires nets { P.nets placed.now cell ≡ plain_nets nets.now }
    requires right { AreNetsOver (P.design placed.now) (P.wiring placed.now) (P.nets placed.now)
        cell (plain_nets nets.now) }
    requires cells { cells.now ≡ placed_cells (P.design placed.now) cell }
    requires readable { (k : ℕ) (p : Place) → IsPlaced (P.design placed.now) cell k p
        → P.may_read placed.now p.cell }
    requires terminals { (x : ℕ) → HasGate (λ c. map plain_gate gates.now) cell x
        → x < nets.now.count }
    ensures { IfOk result (λ v. (own : ℕ → ℕ → List Rect)
        → AreDrawn (P.design placed.now) (tables_with own (P.nets placed.now))
        (λ c. map plain_gate gates.now) (P.pins placed.now) (P.drawn placed.now) cell v.items) }
{
    let _ = cell;
    let mut marks = vec![in alloc; false; nets.count as usize]?;
    mark_gates(gates, &mut marks);
    mark_placed(placed, cells, nets, &mut marks);
    Ok(marks)
}
