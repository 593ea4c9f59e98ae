//! The pins that matched pairs hand up to the pairs that call them.
ghost use Rattle.std.specs.Prelude.{◌≡◌, ◌<◌, ℕ, true, IfOk, length, take};
ghost use Rattle.composed_laws.specs.Answered.{pairing_or, right_pins};
ghost use Rattle.job_graph.specs.Graph.{has};
ghost use Rattle.match_types.specs.Children.{is_told};
ghost use Rattle.match_types.specs.Plain.{plain_answer};
ghost use Rattle.net_model.specs.Rows.{plain_circuit, plain_netlist};
ghost use Rattle.pair_jobs.specs.Children.{AreChildrenOf, list_in};

use job_graph::Reads;
use match_types::{Answer, ChildPins};
use net_model::{Circuit, Netlist};
use std::alloc::{AllocError, Global};

// The first numbers of a list, as many as these or all.
fn front(alloc: Global, numbers: &[u32], count: usize) -> Result<Vec<u32>, AllocError>
    ensures { IfOk result (λ v. v.items ≡ take count numbers.now) }
{
    let count = count.min(numbers.len());
    numbers[..count].to_vec(alloc)
}

// The right pin of each left pin of a circuit, where its pair is matched.
fn pins_of(
    alloc: Global,
    circuit: &Circuit,
    answer: &Answer,
) -> Result<Option<Vec<u32>>, AllocError>
    ensures { IfOk result (λ found. list_in found
        ≡ right_pins (plain_circuit circuit.now) (pairing_or (plain_answer answer.now))) }
{
    match answer {
        Answer::Match(pairing) => {
            let pins = front(alloc, &pairing.nets, circuit.pins.len())?;
            Ok(Some(pins))
        }
        Answer::Differs(_) | Answer::Undecided(_) | Answer::Skipped(_) => Ok(None),
    }
}

/// The right pin of each left pin of these pairs, where they are matched, and nothing for all
/// others; and whether names tell the pins of the pair above apart. Linear in the pins.
pub fn child_pins<R: Reads<Answer>>(
    alloc: Global,
    left: &Netlist,
    pairs: &[u32],
    reads: &R,
    told: bool,
) -> Result<ChildPins, AllocError>
    requires there { (pair : ℕ) → has pair pairs.now ≡ true
        → pair < length (plain_netlist left.now).circuits }
    requires read { (pair : ℕ) → has pair pairs.now ≡ true → R.may_read reads.now pair }
    ensures children { IfOk result
        (AreChildrenOf (plain_netlist left.now) (R.value reads.now) pairs.now) }
    ensures told { IfOk result (λ children. is_told children ≡ told) }
{
    let mut children = ChildPins::new(alloc, told);
    for pair in pairs {
        let circuit = &left.circuits[*pair as usize];
        let found = pins_of(alloc, circuit, reads.get(*pair))?;
        match found {
            Some(pins) => children.set(*pair, pins)?,
            None => {}
        }
    }
    Ok(children)
}
