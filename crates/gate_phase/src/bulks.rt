//! The globals at the ends and at the bulks of device rules.
ghost use Rattle.std.specs.Prelude.{◌≡◌, map, IfOk};
ghost use Rattle.flat_layout.specs.Regions.{ground_of};
ghost use Rattle.net_phase.specs.Wires.{ground_line};
ghost use Rattle.rule_text.specs.Seen.{rules_seen};
ghost use Rattle.gate_phase.specs.Judged.{rule_grounds};
ghost use Rattle.gate_phase.specs.Terminals.{grounds_seen};

use crate::device::{device_at, device_count};
use net_phase::ground_lines;
use net_walk::Grounded;
use rule_text::RuleSet;
use std::alloc::{AllocError, Global};

// The global of the first line that names the conductor.
fn ground(lines: &[Grounded], conductor: u32) -> Option<u32>
    ensures { result ≡ ground_of conductor (map ground_line lines.now) }
{
    for line in lines {
        if line.conductor == conductor {
            return Some(line.global);
        }
    }
    None
}

/// The globals of a device rule: that of its ends' conductor and that of its bulk's, if they have
/// one.
#[derive(Clone, Copy, Debug, PartialEq, Eq)]
pub struct Grounds {
    pub ends: Option<u32>,
    pub bulk: Option<u32>,
}

/// The globals of each device rule: of each conductor that of its first line. The device rules
/// times the lines of globals; 2^32 globals or device rules are refused.
pub fn device_grounds(alloc: Global, rules: &RuleSet) -> Result<Vec<Grounds>, AllocError>
    ensures { IfOk result (λ v. map grounds_seen v.items ≡ rule_grounds (rules_seen rules.now)) }
{
    let grounds = ground_lines(alloc, rules)?;
    let mut found = Vec::new(alloc);
    let count = device_count(rules)?;
    for number in 0..count {
        let device = device_at(rules, number);
        found.push(Grounds {
            ends: ground(&grounds.lines, device.ts),
            bulk: ground(&grounds.lines, device.tb),
        })?;
    }
    Ok(found)
}
