//! The netlist that a SPICE text means, or the text's first fault.

ghost use Rattle.std.specs.Prelude.{◌≡◌, ◌<◌, ◌^◌, [], IfOk, IfErr, length, map};
ghost use Rattle.call_order.specs.Order.{lists};
ghost use Rattle.net_model.specs.Rows.{plain_netlist};
ghost use Rattle.plain_netlist.specs.Normal.{IsNormalNetlist};
ghost use Rattle.plain_netlist.specs.Sound.{IsSoundNetlist};
ghost use Rattle.spice_rows.specs.Sizes.{read_limit};
ghost use Rattle.spice_text.specs.Faults.{AreOrdered};
ghost use Rattle.spice_text.specs.Means.{IsNetlistOf, Means, SaysFirst, rows_from};
ghost use Rattle.spice_text.specs.Needs.{first_seen};
ghost use Rattle.spice_text.specs.Seen.{circuit_seen};
ghost use Rattle.spice_text.specs.Table.{AreGlobals, IsNeedTable, needed_of};

use crate::circuits::circuit_rows;
use crate::gather::{CircuitCards, gather_cards};
use crate::needs::{Globals, each_once, need_table};
use crate::ordered::{OrderedCards, order_cards};
use call_order::order_laws;
use net_model::{Netlist, call_list_laws};
use spice_rows::SpiceFault;
use std::alloc::{AllocError, Global};
use text_table::TextTable;

/// The global names, and for each circuit the rising numbers of those that it needs.
#[derive(Drop)]
struct Needs {
    globals: Globals,
    rows: Vec<Vec<u32>>,
}

fn needs_of(alloc: Global, cards: &OrderedCards) -> Result<Needs, AllocError>
    requires { AreOrdered (map circuit_seen cards.now.circuits.items) cards.now.names
        (lists cards.now.calls.items) cards.now.order.items }
    ensures table { IfOk result (λ needs.
        needs.globals.table ≡ first_seen [] cards.now.globals.items) }
    ensures globals { IfOk result (λ needs. AreGlobals needs.globals) }
    ensures rows { IfOk result (λ needs. IsNeedTable (map circuit_seen cards.now.circuits.items)
        needs.globals.table (lists needs.rows.items)) }
{
    let globals = each_once(alloc, &cards.globals)?;
    let rows = need_table(alloc, &cards.circuits, &cards.calls, &cards.order, &globals)?;
    Ok(Needs { globals, rows })
}

// The netlist of circuits of these names with these needs.
fn netlist_over(
    alloc: Global,
    names: &TextTable,
    needs: &Needs,
    circuits: Vec<CircuitCards>,
) -> Result<Netlist, AllocError>
    requires { length names.now < 2 ^ 32 }
    ensures { IfOk result (λ n. (plain_netlist n).circuits ≡ rows_from names.now
        (needed_of (lists needs.now.rows.items) needs.now.globals.names.items) 0
        (map circuit_seen circuits.items)) }
{
    let (rows, globals) = (&needs.rows, &needs.globals.names);
    let circuits = circuit_rows(alloc, names, rows, globals, circuits)?;
    Ok(Netlist { circuits })
}

fn netlist(alloc: Global, cards: OrderedCards) -> Result<Netlist, AllocError>
    requires { AreOrdered (map circuit_seen cards.circuits.items) cards.names
        (lists cards.calls.items) cards.order.items }
    ensures { IfOk result (λ n. IsNetlistOf (map circuit_seen cards.circuits.items)
        cards.globals.items (plain_netlist n)) }
{
    let needs = needs_of(alloc, &cards)?;
    let gathered = cards.circuits;
    netlist_over(alloc, &cards.names, &needs, gathered)
}

/// The netlist that a SPICE text means, or the text's first fault: that of the first card that has
/// one, or else of the cards as a whole. See `SpiceFault` for the faults.
///
/// Linear in the text and in the netlist, but for sorting the global names that a circuit needs.
pub fn read_spice(alloc: Global, bytes: &[u8]) -> Result<Netlist, SpiceFault>
    ensures netlist { IfOk result (λ n. Means read_limit bytes.now (plain_netlist n)) }
    ensures sound { IfOk result (λ n. IsSoundNetlist (plain_netlist n)) }
    ensures normal { IfOk result (λ n. IsNormalNetlist (plain_netlist n)) }
    ensures fault { IfErr result (SaysFirst read_limit bytes.now) }
{
    let all = gather_cards(alloc, bytes)?;
    let cards = order_cards(alloc, all)?;
    order_laws();
    call_list_laws();
    let netlist = netlist(alloc, cards)?;
    Ok(netlist)
}
