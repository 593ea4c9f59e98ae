//! What a run has to write.

use crate::status::Status;
use lvs_outside::Written;

/// How a run that writes its files ends.
#[derive(Clone, Copy, Debug)]
pub enum Verdict {
    Good,
    Bad,
    Undecided,
}

/// What a run has to write: the files in this order, then the line.
#[derive(Drop)]
pub struct Output {
    pub files: Vec<Written>,
    pub line: Vec<u8>,
    pub verdict: Verdict,
}

impl Verdict {
    ghost use Rattle.std.specs.Prelude.{◌≡◌};
    ghost use Rattle.lvs_run.specs.Answers.{answer_of, verdict_of};
    ghost use Rattle.lvs_run.specs.Lines.{verdict_word};

    /// What the summary line of a comparison begins with.
    pub fn word(self) -> &'static [u8]
        ensures { result.now ≡ verdict_word self }
    {
        match self {
            Verdict::Good => b"match",
            Verdict::Bad => b"mismatch",
            Verdict::Undecided => b"undecided",
        }
    }

    /// The same as the run's answer.
    pub fn status(self) -> Status
        ensures { answer_of result ≡ verdict_of self }
    {
        match self {
            Verdict::Good => Status::Good,
            Verdict::Bad => Status::Bad,
            Verdict::Undecided => Status::Undecided,
        }
    }
}
