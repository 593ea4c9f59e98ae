//! An order of numbers that call numbers, or the least of them that calls itself.

ghost use Rattle.std.specs.Prelude.{◌<◌, ◌^◌, IfOk, length};
ghost use Rattle.call_order.specs.Order.{lists, AreInRange, IsFound, NoCycleLaw};

use crate::walk::Walk;
use std::alloc::{AllocError, Global};

/// What is found of numbers that call numbers.
#[derive(Debug, Drop)]
pub enum CallOrder {
    /// All numbers, each behind those that it calls.
    CalleesFirst(Vec<u32>),
    /// The least number that calls itself, at once or through others.
    Cycle(u32),
}

/// All numbers, each once and behind those that it calls; or, where some number calls itself, at
/// once or through others, the least of these. `calls` has for each number those that it calls.
///
/// Linear in the calls, by one walk deep first without recursion (the strongly connected components
/// of Gabow's path-based search).
pub fn call_order(alloc: Global, calls: &[Vec<u32>]) -> Result<CallOrder, AllocError>
    requires range { AreInRange (lists calls.now) }
    requires few { length calls.now < 2 ^ 32 }
    ensures { IfOk result (λ found. IsFound (lists calls.now) found) }
{
    let mut walk = Walk::new(alloc, calls)?;
    for k in 0..calls.len() {
        walk.visit(k as u32)?;
    }
    Ok(walk.found())
}

/// Numbers in such an order don't call themselves.
pub fn order_laws()
    ensures no_cycle { NoCycleLaw }
{}
