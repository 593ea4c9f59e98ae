//! The numbers that calls lead to from one.

ghost use Rattle.std.specs.Prelude.{◌≡◌, [], IfOk, OnOk, slice_index_or};
ghost use Rattle.call_order.specs.Order.{lists};
ghost use Rattle.netlist_run.specs.Marks.{AreReached};
ghost use Rattle.netlist_run.specs.Work.{Work, with_mark, with_row};

use std::alloc::{AllocError, Global};

// Marks a number that isn't marked, and puts it to the work.
fn mark(marks: &mut Vec<bool>, work: &mut Vec<usize>, k: usize) -> Result<(), AllocError>
    ensures { OnOk result (record { marks = marks.new.items; work = work.new.items }
        ≡ with_mark (record { marks = marks.old.items; work = work.old.items }) k) }
{
    if k < marks.len() && !marks[k] {
        marks[k] = true;
        work.push(k)?;
    }
    Ok(())
}

// Marks all these numbers.
fn mark_all(marks: &mut Vec<bool>, work: &mut Vec<usize>, row: &[usize]) -> Result<(), AllocError>
    ensures { OnOk result (record { marks = marks.new.items; work = work.new.items }
        ≡ with_row (record { marks = marks.old.items; work = work.old.items }) row.now) }
{
    let mut rest = row;
    'row: while let [k, more @ ..] = rest {
        mark(marks, work, *k)?;
        rest = more;
    }
    Ok(())
}

// Marks what a number calls.
#[tactic(auto, using(crate::proofs::Walking::row_there, crate::proofs::Walking::row_past))]
fn follow(
    marks: &mut Vec<bool>,
    work: &mut Vec<usize>,
    calls: &[Vec<usize>],
    k: usize,
) -> Result<(), AllocError>
    ensures { OnOk result (record { marks = marks.new.items; work = work.new.items }
        ≡ with_row (record { marks = marks.old.items; work = work.old.items })
        (slice_index_or (lists calls.now) k [])) }
{
    match calls.get(k) {
        None => Ok(()),
        Some(row) => mark_all(marks, work, row),
    }
}

/// Which numbers calls lead to from one, itself among them. Linear in the calls.
pub fn reached(alloc: Global, calls: &[Vec<usize>], top: usize) -> Result<Vec<bool>, AllocError>
    ensures { IfOk result (λ marks. AreReached (lists calls.now) top marks.items) }
{
    let mut marks = vec![in alloc; false; calls.len()]?;
    let mut work = Vec::new(alloc);
    mark(&mut marks, &mut work, top)?;
    'steps: while let Some(k) = work.pop() {
        follow(&mut marks, &mut work, calls, k)?;
    }
    Ok(marks)
}
