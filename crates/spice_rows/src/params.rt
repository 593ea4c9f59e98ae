//! Which parameters a device or a call may have.

ghost use Rattle.std.specs.Prelude.{◌≡◌, not, true, false, IfSome, IsNone};
ghost use Rattle.std.specs.List.{list_any, count_by};
ghost use Rattle.std.specs.Str.Parse.{digits_value};
ghost use Rattle.spice_cards.specs.Seen.{params_seen, param_seen};
ghost use Rattle.spice_rows.specs.Params.{copies_of, is_count, is_device_key, is_key, is_one};
ghost use Rattle.spice_rows.specs.Params.{is_passed_key, is_refused};

use crate::kinds::{first_key, may_say_more, second_key};
use crate::names::is_text;
use plain_netlist::DeviceKind;
use spice_cards::Param;

/// How many parameters have this key.
pub fn count(params: &[Param], key: &[u8]) -> usize
    ensures { result ≡ count_by (is_key key.now) (params_seen params.now) }
{
    let mut n = 0;
    let mut rest = params;
    'params: while let [p, more @ ..] = rest {
        if is_text(p.key, key) {
            n += 1;
        }
        rest = more;
    }
    n
}

// A further parameter that says nothing.
fn is_passed_key(key: &[u8]) -> bool
    ensures { result ≡ is_passed_key key.now }
{
    is_text(key, b"AS")
        || is_text(key, b"AD")
        || is_text(key, b"PS")
        || is_text(key, b"PD")
        || is_text(key, b"NRD")
        || is_text(key, b"NRS")
        || is_text(key, b"NF")
}

fn is_device_key(kind: DeviceKind, key: &[u8]) -> bool
    ensures { result ≡ is_device_key kind key.now }
{
    is_text(key, &[first_key(kind)])
        || is_text(key, &[second_key(kind)])
        || may_say_more(kind) && is_passed_key(key)
}

fn is_one(p: &Param) -> bool
    ensures { result ≡ is_one (param_seen p.now) }
{
    is_text(p.key, b"M") && p.value == b"1".as_slice()
}

// The number from 1 to 1,000 that one to four digits write.
fn number_of(text: &[u8]) -> Option<u32>
    ensures some { IfSome result (λ n. n ≡ digits_value 10 text.now) }
    ensures count { IfSome result (λ n. is_count text.now ≡ true) }
    ensures none { IsNone result → is_count text.now ≡ false }
{
    if text.len() > 4 {
        return None;
    }
    let mut n = 0;
    let mut rest = text;
    'digits: while let [b, more @ ..] = rest {
        if !b.is_ascii_digit() {
            return None;
        }
        n = n * 10 + u32::from(*b - b'0');
        rest = more;
    }
    if 0 < n && n <= 1000 { Some(n) } else { None }
}

fn is_refused(kind: DeviceKind, p: &Param) -> bool
    ensures { result ≡ is_refused kind (param_seen p.now) }
{
    if is_text(p.key, b"M") {
        return number_of(p.value).is_none();
    }
    !is_device_key(kind, p.key)
}

/// Whether a device of the kind can't have one of the parameters.
pub fn has_refused(kind: DeviceKind, params: &[Param]) -> bool
    ensures { result ≡ list_any (is_refused kind) (params_seen params.now) }
{
    let mut rest = params;
    'params: while let [p, more @ ..] = rest {
        if is_refused(kind, p) {
            return true;
        }
        rest = more;
    }
    false
}

/// How many equal devices a card stands for: the last M says it, and one without any.
pub fn copies_of(params: &[Param]) -> u32
    ensures { result ≡ copies_of (params_seen params.now) }
{
    let mut copies = 1;
    let mut rest = params;
    'params: while let [p, more @ ..] = rest {
        if is_text(p.key, b"M") {
            copies = number_of(p.value).unwrap_or(copies);
        }
        rest = more;
    }
    copies
}

/// Whether a parameter is another than `M=1`, which alone a call may have.
pub fn has_other(params: &[Param]) -> bool
    ensures { result ≡ list_any (λ p. not (is_one p)) (params_seen params.now) }
{
    let mut rest = params;
    'params: while let [p, more @ ..] = rest {
        if !is_one(p) {
            return true;
        }
        rest = more;
    }
    false
}
