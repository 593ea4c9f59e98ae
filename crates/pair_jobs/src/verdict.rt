//! What the answers of all pairs come to.
ghost use Rattle.std.specs.Option.{IsSomeAnd, option_map};
ghost use Rattle.std.specs.List.{list_any};
ghost use Rattle.std.specs.Prelude.{◌≡◌, ◌≤◌, ◌^◌, IfOk, OnErr, length, map};
ghost use Rattle.match_types.specs.Plain.{plain_answer};
ghost use Rattle.pair_jobs.specs.Answers.{is_difference};
ghost use Rattle.pair_jobs.specs.Verdict.{IsRunVerdict, IsVerdict};

use job_graph::{Reads, Results};
use list_base::number;
use match_types::Answer;
use std::alloc::AllocError;

/// Whether all pairs match, one differs, or neither.
#[derive(Clone, Copy, Debug, PartialEq, Eq)]
pub enum Verdict {
    Match,
    Mismatch,
    Undecided,
}

// A match where each pair matches, a mismatch where one differs, else undecided. It takes no
// memory; the error is 2^32 pairs or more.
fn judge(answers: &Results<Answer>) -> Result<Verdict, AllocError>
    ensures verdict { IfOk result (IsVerdict (map plain_answer answers.now)) }
    ensures err { OnErr result (2 ^ 32 ≤ length answers.now) }
{
    let count = number(answers.len())?;
    let mut verdict = Verdict::Match;
    for pair in 0..count {
        match answers.get(pair) {
            Answer::Match(_) => {}
            Answer::Differs(_) => return Ok(Verdict::Mismatch),
            Answer::Undecided(_) => verdict = Verdict::Undecided,
            Answer::Skipped(_) => verdict = Verdict::Undecided,
        }
    }
    Ok(verdict)
}

/// Whether a pair differs. It takes no memory; the error is 2^32 pairs or more.
pub fn some_differs(answers: &Results<Answer>) -> Result<bool, AllocError>
    ensures some { IfOk result (λ some. some
        ≡ list_any is_difference (map plain_answer answers.now)) }
    ensures err { OnErr result (2 ^ 32 ≤ length answers.now) }
{
    let verdict = judge(answers)?;
    match verdict {
        Verdict::Mismatch => Ok(true),
        Verdict::Match => Ok(false),
        Verdict::Undecided => Ok(false),
    }
}

/// What a run comes to, by the number of bad gates and the answers, if the layout's top has a
/// partner: a mismatch where a gate is bad or there are no answers, else what the answers come to.
/// It takes no memory; the error is 2^32 pairs or more.
pub fn judge_run(bad: usize, answers: Option<&Results<Answer>>) -> Result<Verdict, AllocError>
    ensures verdict { IfOk result
        (IsRunVerdict bad (option_map (λ all. map plain_answer all.now) answers.entry)) }
    ensures err { OnErr result (IsSomeAnd answers.entry (λ all. 2 ^ 32 ≤ length all.now)) }
{
    if bad > 0 {
        return Ok(Verdict::Mismatch);
    }
    match answers {
        Some(all) => judge(all),
        None => Ok(Verdict::Mismatch),
    }
}
