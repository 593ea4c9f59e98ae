//! The refused lines of a rule file.

use lvs_talk::{RefusedLine, RuleReader, refused_lines};
use rule_text::{RuleFault, read_rules};
use std::alloc::Global;

// The reader of rule files.
struct Rules;

// The line of a fault that is one line's, with the number of its refusal.
fn refused_by(fault: &RuleFault) -> Option<RefusedLine> {
    let (code, line) = match fault {
        RuleFault::UnknownStatement(line) => (30, line),
        RuleFault::BadForm(line) => (31, line),
        RuleFault::UnknownName(line) => (32, line),
        RuleFault::NameTwice(line) => (33, line),
        RuleFault::NotConductor(line) => (34, line),
        RuleFault::TooManyLayers(_) | RuleFault::NotText(_) | RuleFault::NoMemory => return None,
    };
    match usize::try_from(*line) {
        Ok(line) => Some(RefusedLine { code, line }),
        Err(_) => None,
    }
}

impl RuleReader for Rules {
    fn first_refused(&self, alloc: Global, bytes: &[u8]) -> Option<RefusedLine> {
        match read_rules(alloc, bytes) {
            Ok(_) => None,
            Err(fault) => refused_by(&fault),
        }
    }
}

/// The refused lines of a rule file, as far as there is memory for them.
pub fn refused_rules(alloc: Global, bytes: &[u8]) -> Vec<RefusedLine> {
    match refused_lines(alloc, &Rules, bytes) {
        Ok(lines) => lines,
        Err(_) => Vec::new(alloc),
    }
}
