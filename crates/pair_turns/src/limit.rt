//! How large the circuits become that are made of pairs taken apart.

ghost use Rattle.std.specs.Prelude.{◌≡◌, ◌<◌, ◌≤◌, ◌^◌, ℕ, IfOk, length};
ghost use Rattle.std.specs.List.{All};
ghost use Rattle.align_laws.specs.Partners.{AreSides};
ghost use Rattle.call_order.specs.Order.{IsCallOrder};
ghost use Rattle.net_model.specs.Faults.{call_lists};
ghost use Rattle.net_model.specs.Rows.{plain_call, plain_circuit, plain_netlist};
ghost use Rattle.pair_turns.specs.Limit.{AreSizes, IsLimit, call_rows, capped, is_over, rows_of};
ghost use Rattle.plain_netlist.specs.Sound.{IsGood};

use call_order::{CallOrder, call_order};
use list_base::number;
use net_model::{CallRow, Circuit, Netlist, call_lists};
use std::alloc::{AllocError, Global};

/// The most devices and calls of a circuit that a turn may make.
const MOST_ROWS: u64 = 16_777_216;

// The smaller one, and one more than the limit at most.
fn capped(rows: u64) -> u64
    ensures is { result ≡ capped rows }
    ensures within { result ≤ 16777217 }
{
    if rows > MOST_ROWS {
        MOST_ROWS + 1
    } else {
        rows
    }
}

// What a call counts for: what stands in the circuit that is called, where it goes, else one.
fn call_rows(call: &CallRow, goes: &[bool], sizes: &[u64]) -> u64
    requires goes { call.now.circuit < length goes.now }
    requires sizes { call.now.circuit < length sizes.now }
    requires capped { All (λ n. n ≤ 16777217) sizes.now }
    ensures is { result ≡ call_rows goes.now sizes.now (plain_call call.now) }
    ensures within { result ≤ 16777217 }
{
    let called = call.circuit as usize;
    if goes[called] { sizes[called] } else { 1 }
}

// How many devices and calls a circuit has, where what is called and goes stands in it.
fn rows_of(circuit: &Circuit, goes: &[bool], sizes: &[u64]) -> u64
    requires goes { All (λ r. r.circuit < length goes.now) circuit.now.calls.items }
    requires sizes { All (λ r. r.circuit < length sizes.now) circuit.now.calls.items }
    requires capped { All (λ n. n ≤ 16777217) sizes.now }
    ensures { result ≡ capped (rows_of goes.now sizes.now (plain_circuit circuit.now)) }
{
    let mut rows = capped(circuit.devices.len() as u64);
    let mut rest = circuit.calls.as_slice();
    'calls: while let [call, more @ ..] = rest {
        rows = capped(rows + call_rows(call, goes, sizes));
        rest = more;
    }
    rows
}

// The numbers of all circuits, each behind those that it calls.
fn circuit_order(alloc: Global, netlist: &Netlist) -> Result<Vec<u32>, AllocError>
    requires good { (height : ℕ → ℕ) × IsGood (plain_netlist netlist.now) height }
    requires few { length netlist.now.circuits.items < 2 ^ 32 }
    ensures { IfOk result (λ order.
        IsCallOrder (call_lists (plain_netlist netlist.now)) order.items) }
{
    let calls = call_lists(alloc, &netlist.circuits)?;
    match call_order(alloc, &calls)? {
        CallOrder::CalleesFirst(order) => Ok(order),
        CallOrder::Cycle(_) => Ok(Vec::new(alloc)),
    }
}

// The same of all circuits, in this order.
fn sizes_in_order(
    alloc: Global,
    netlist: &Netlist,
    goes: &[bool],
    order: &[u32],
) -> Result<Vec<u64>, AllocError>
    requires good { (height : ℕ → ℕ) × IsGood (plain_netlist netlist.now) height }
    requires goes { length goes.now ≡ length netlist.now.circuits.items }
    requires order { IsCallOrder (call_lists (plain_netlist netlist.now)) order.now }
    ensures { IfOk result (λ sizes. AreSizes (plain_netlist netlist.now) goes.now sizes.items) }
{
    let mut sizes = vec![in alloc; 0_u64; netlist.circuits.len()]?;
    for circuit in order {
        let rows = rows_of(&netlist.circuits[*circuit as usize], goes, &sizes);
        sizes[*circuit as usize] = rows;
    }
    Ok(sizes)
}

fn sizes(alloc: Global, netlist: &Netlist, goes: &[bool]) -> Result<Vec<u64>, AllocError>
    requires good { (height : ℕ → ℕ) × IsGood (plain_netlist netlist.now) height }
    requires few { length netlist.now.circuits.items < 2 ^ 32 }
    requires goes { length goes.now ≡ length netlist.now.circuits.items }
    ensures { IfOk result (λ sizes. AreSizes (plain_netlist netlist.now) goes.now sizes.items) }
{
    let order = circuit_order(alloc, netlist)?;
    sizes_in_order(alloc, netlist, goes, &order)
}

// Whether a pair stays, and one of its circuits is too large.
fn is_over(goes: &[bool], lefts: &[u64], rights: &[u64], k: usize) -> bool
    requires goes { k < length goes.now }
    requires lefts { k < length lefts.now }
    requires rights { k < length rights.now }
    ensures { result ≡ is_over goes.now lefts.now rights.now k }
{
    !goes[k] && (lefts[k] > MOST_ROWS || rights[k] > MOST_ROWS)
}

/// The first pair that stays and one of whose circuits would have more than 2^24 devices and calls
/// with the pairs that go flattened into their callers. Nothing is made of them: it takes the time
/// and memory of the calls that there are. The error is want of memory, or 2^32 pairs or more.
pub fn first_over(
    alloc: Global,
    left: &Netlist,
    right: &Netlist,
    goes: &[bool],
) -> Result<Option<usize>, AllocError>
    requires sides { AreSides (plain_netlist left.now) (plain_netlist right.now) }
    requires goes { length goes.now ≡ length left.now.circuits.items }
    ensures { IfOk result (IsLimit (plain_netlist left.now) (plain_netlist right.now) goes.now) }
{
    number(goes.len())?;
    let lefts = sizes(alloc, left, goes)?;
    let rights = sizes(alloc, right, goes)?;
    'pairs: for k in 0..goes.len() {
        if is_over(goes, &lefts, &rights, k) {
            return Ok(Some(k));
        }
    }
    Ok(None)
}
