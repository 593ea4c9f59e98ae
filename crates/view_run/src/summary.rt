//! The line of a run.

ghost use Rattle.std.specs.Prelude.{◌≡◌, ◌++◌, IfOk, OnOk};
ghost use Rattle.std.specs.Fmt.{decimal};
ghost use Rattle.view_run.specs.Lines.{verdict_word, view_line};

use pair_jobs::Verdict;
use std::alloc::{AllocError, Global};

fn verdict_word(verdict: Verdict) -> &'static [u8]
    ensures { result.now ≡ verdict_word verdict }
{
    match verdict {
        Verdict::Match => b"match",
        Verdict::Mismatch => b"mismatch",
        Verdict::Undecided => b"undecided",
    }
}

fn push_number(
    alloc: Global,
    line: &mut Vec<u8>,
    words: &[u8],
    number: u64,
) -> Result<(), AllocError>
    ensures { OnOk result (line.new.items ≡ line.old.items ++ words.now ++ decimal number) }
{
    let digits = format!(in alloc; "{number}")?;
    line.extend_from_slice(words)?;
    line.extend_from_slice(digits.as_bytes())
}

/// The line of a run that writes its file: what the comparison came to, and how many circuits the
/// layout has, pairs are compared and gates are bad.
pub fn view_line(
    alloc: Global,
    verdict: Verdict,
    circuits: usize,
    pairs: usize,
    bad: usize,
) -> Result<Vec<u8>, AllocError>
    ensures { IfOk result (λ line. line.items ≡ view_line verdict circuits pairs bad) }
{
    let mut line = b"view ".to_vec(alloc)?;
    line.extend_from_slice(verdict_word(verdict))?;
    push_number(alloc, &mut line, b" circuits ", circuits as u64)?;
    push_number(alloc, &mut line, b" pairs ", pairs as u64)?;
    push_number(alloc, &mut line, b" bad ", bad as u64)?;
    line.push(b'\n')?;
    Ok(line)
}
