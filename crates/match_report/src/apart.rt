//! The lines of pairs that were taken apart.
ghost use Rattle.std.specs.Prelude.{◌≡◌, ◌++◌, [], OnOk, length, map, slice_get, if◌then◌else◌};
ghost use Rattle.match_report.specs.Apart.{apart_text, apart_texts, gone_text, limit_text};
ghost use Rattle.match_types.specs.Plain.{plain_answer};
ghost use Rattle.net_model.specs.Rows.{plain_circuit};

use crate::pairs::{push_answer, push_circuit};
use job_graph::{Reads, Results};
use list_base::number;
use match_types::Answer;
use net_model::Circuit;
use std::alloc::{AllocError, Global};

fn push_gone(
    alloc: Global,
    out: &mut Vec<u8>,
    lefts: &[Circuit],
    answer: &Answer,
) -> Result<(), AllocError>
    ensures { OnOk result (out.new.items ≡ out.old.items
        ++ gone_text (map plain_circuit lefts.now) (plain_answer answer.now)) }
{
    match answer {
        Answer::Match(_) => out.extend_from_slice(b" match\n"),
        Answer::Differs(_) => push_answer(alloc, out, lefts, &[], &[], answer),
        Answer::Undecided(_) => push_answer(alloc, out, lefts, &[], &[], answer),
        Answer::Skipped(_) => push_answer(alloc, out, lefts, &[], &[], answer),
    }
}

fn push_pair(
    alloc: Global,
    out: &mut Vec<u8>,
    lefts: &[Circuit],
    rights: &[Circuit],
    k: usize,
    answer: &Answer,
) -> Result<(), AllocError>
    ensures { OnOk result (out.new.items ≡ out.old.items
        ++ apart_text (map plain_circuit lefts.now) (slice_get (map plain_circuit lefts.now) k)
        (slice_get (map plain_circuit rights.now) k) (plain_answer answer.now)) }
{
    out.extend_from_slice(b"apart")?;
    push_circuit(alloc, out, lefts, k)?;
    push_circuit(alloc, out, rights, k)?;
    push_gone(alloc, out, lefts, answer)
}

// The line of a pair, if it goes.
fn push_marked(
    alloc: Global,
    out: &mut Vec<u8>,
    lefts: &[Circuit],
    rights: &[Circuit],
    k: usize,
    goes: bool,
    answer: &Answer,
) -> Result<(), AllocError>
    ensures { OnOk result (out.new.items ≡ out.old.items ++ (if goes
        then apart_text (map plain_circuit lefts.now) (slice_get (map plain_circuit lefts.now) k)
        (slice_get (map plain_circuit rights.now) k) (plain_answer answer.now) else [])) }
{
    if goes {
        return push_pair(alloc, out, lefts, rights, k, answer);
    }
    Ok(())
}

/// The lines of the pairs that were taken apart after a comparison, in order: the names of both
/// circuits, and what their own comparison came to, with what shows it.
pub fn push_apart(
    alloc: Global,
    out: &mut Vec<u8>,
    lefts: &[Circuit],
    rights: &[Circuit],
    goes: &[bool],
    answers: &Results<Answer>,
) -> Result<(), AllocError>
    requires { length goes.now ≡ length answers.now }
    ensures { OnOk result (out.new.items ≡ out.old.items
        ++ apart_texts (map plain_circuit lefts.now) (map plain_circuit rights.now) 0 goes.now
        (map plain_answer answers.now)) }
{
    let count = number(answers.len())?;
    'pairs: for k in 0..count {
        let place = k as usize;
        push_marked(
            alloc,
            out,
            lefts,
            rights,
            place,
            goes[place],
            answers.get(k),
        )?;
    }
    Ok(())
}

/// The line of the pair whose circuits would become too large.
pub fn push_limit(
    alloc: Global,
    out: &mut Vec<u8>,
    lefts: &[Circuit],
    k: usize,
) -> Result<(), AllocError>
    ensures { OnOk result (out.new.items ≡ out.old.items
        ++ limit_text (map plain_circuit lefts.now) k) }
{
    out.extend_from_slice(b"apart limit")?;
    push_circuit(alloc, out, lefts, k)?;
    out.push(b'\n')?;
    Ok(())
}
