//! A device rule of any kind, by the numbers of its names.
ghost use Rattle.std.specs.Prelude.{◌≡◌, ◌<◌, ◌≤◌, ◌^◌, length, slice_get, IfOk, OnErr, OnOk};
ghost use Rattle.std.specs.Prelude.{Some};
ghost use Rattle.rule_text.specs.Seen.{rules_seen};
ghost use Rattle.rule_layers.specs.Meaning.{device_rules};
ghost use Rattle.gate_phase.specs.Devices.{devices_of, of_more, of_mos};

use list_base::number;
use plain_netlist::DeviceKind;
use rule_text::{MoreRule, MosRule, RuleSet};
use std::alloc::AllocError;

/// The layer whose parts are the regions of a device rule: a name's, or the squares of both names.
#[derive(Clone, Copy, Debug, PartialEq, Eq)]
pub enum Region {
    One(u32),
    Both(u32, u32),
}

/// A device rule by the numbers of its names: the regions' layer, the layer of the groups beside
/// them, the well, and the conductors of the ends, the gate and the bulk. Only a transistor has a
/// gate: else its bulk stands there. A diode has neither groups nor a well, its anode is at the
/// ends and its cathode at the bulk.
#[derive(Clone, Copy, Debug, PartialEq, Eq)]
pub struct Device {
    pub kind: DeviceKind,
    pub region: Region,
    pub ends: Option<u32>,
    pub well: Option<u32>,
    pub ts: u32,
    pub tg: u32,
    pub tb: u32,
}

fn transistor(rule: &MosRule) -> Device
    ensures { result ≡ of_mos rule.now }
{
    Device {
        kind: DeviceKind::Mos4,
        region: Region::One(rule.g),
        ends: Some(rule.sd),
        well: Some(rule.w),
        ts: rule.ts,
        tg: rule.tg,
        tb: rule.tb,
    }
}

fn further(rule: &MoreRule) -> Device
    ensures { result ≡ of_more rule.now }
{
    match rule {
        MoreRule::Resistor {
            r,
            c,
            w,
            ta,
            tw,
            ..
        } => Device {
            kind: DeviceKind::ResistorWithBulk,
            region: Region::One(*r),
            ends: Some(*c),
            well: Some(*w),
            ts: *ta,
            tg: *tw,
            tb: *tw,
        },
        MoreRule::Diode { p, n, ta, tc, .. } => Device {
            kind: DeviceKind::Diode,
            region: Region::Both(*p, *n),
            ends: None,
            well: None,
            ts: *ta,
            tg: *tc,
            tb: *tc,
        },
    }
}

/// How many device rules there are; 2^32 or more are refused. It takes no memory.
pub fn device_count(rules: &RuleSet) -> Result<u32, AllocError>
    ensures count { IfOk result (λ n. n ≡ length (device_rules (rules_seen rules.now))) }
    ensures few { OnOk result (length (device_rules (rules_seen rules.now)) < 2 ^ 32) }
    ensures err { OnErr result (2 ^ 32 ≤ length (device_rules (rules_seen rules.now))) }
{
    let count = number(rules.devices.len() + rules.more.len())?;
    Ok(count)
}

/// The device rule of this number: those of transistors come first. Constant time.
pub fn device_at(rules: &RuleSet, number: u32) -> Device
    requires { number < length (device_rules (rules_seen rules.now)) }
    ensures { slice_get (devices_of (rules_seen rules.now)) number ≡ Some result }
{
    let at = number as usize;
    let count = rules.devices.len();
    if at < count {
        return transistor(&rules.devices[at]);
    }
    further(&rules.more[at - count])
}
