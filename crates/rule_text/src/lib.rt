//! Rule files: a table of statements, what their lines mean together, and the fault of the first
//! line that fails.
#![tactic(auto)]

ghost use Rattle.std.specs.Prelude.{◌≡◌, Ok, IfOk, IfErr};
ghost use Rattle.rule_text.specs.Reading.{Answers, Means, MeaningLaw, FaultLaw, reading_of};
ghost use Rattle.rule_text.specs.Seen.{rules_seen};
ghost use Rattle.rule_text.specs.Reader.{SaysFirst};
ghost use Rattle.rule_text.specs.Sound.{IsSound};

mod choices;
mod devices;
mod fault;
mod reach;
mod reader;
mod rows;
mod rules;
mod slots;
mod tables;

pub use fault::RuleFault;
pub use reach::reaches;
use reader::Reader;
use rule_lines::first_no_text;
pub use rules::{Ask, LayerForm, LayerRule, MoreRule, MosRule, Output, RuleSet, SelectRule};
use std::alloc::Global;

#[tactic(auto, using(crate::proofs::SoundLemmas::none_formed))]
fn read(alloc: Global, bytes: &[u8]) -> Result<RuleSet, RuleFault>
    ensures ok { IfOk result (λ r. reading_of bytes.now ≡ Ok (rules_seen r)) }
    ensures sound { IfOk result (λ r. IsSound (rules_seen r)) }
    ensures err { IfErr result (λ e. SaysFirst e (reading_of bytes.now)) }
{
    if let Some(offset) = first_no_text(bytes) {
        return Err(RuleFault::NotText(offset as u64));
    }
    let mut reader = Reader::new(alloc);
    reader.lines(alloc, bytes)?;
    reader.close(alloc)
}

/// The rules of a rule file, or its first fault: a byte that no text has; else the first line that
/// fails a test; else a device one of whose terminals has no conductor. Linear in the file's
/// bytes: names, layers, classes and circuits are looked up by their hashes.
#[tactic(auto, using(crate::proofs::ReadingLemmas::means, crate::proofs::ReadingLemmas::answers))]
pub fn read_rules(alloc: Global, bytes: &[u8]) -> Result<RuleSet, RuleFault>
    ensures found { IfOk result (λ r. Means bytes.now (rules_seen r)) }
    ensures fault { IfErr result (λ e. Answers bytes.now e) }
    ensures sound { IfOk result (λ r. IsSound (rules_seen r)) }
{
    read(alloc, bytes)
}

/// A file has one meaning or one first fault, both ways: what `reading_of` computes.
pub fn laws()
    ensures meaning { MeaningLaw }
    ensures fault { FaultLaw }
{}
