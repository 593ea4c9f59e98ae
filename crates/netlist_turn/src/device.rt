//! What the card of a call of a listed name is.

ghost use Rattle.std.specs.Prelude.{◌≡◌, ◌++◌, [], IfOk, OnOk, map, slice_index_or};
ghost use Rattle.spice_cards.specs.Seen.{param_seen, params_seen, words_seen};
ghost use Rattle.netlist_turn.specs.Devices.{called_name, class_of, device_params, device_words};
ghost use Rattle.netlist_turn.specs.Devices.{fixed_params, is_fixed, is_written, key_of, net_at};
ghost use Rattle.netlist_turn.specs.Devices.{net_count, nets_at};
ghost use Rattle.netlist_turn.specs.Devices.{said_params, stands_for};
ghost use Rattle.netlist_turn.specs.DevicesSeen.{device_seen, keys_seen};

use crate::words::is_text;
use plain_netlist::DeviceKind;
use spice_cards::Param;
use spice_rows::{first_key, second_key};
use std::alloc::{AllocError, Global};

/// A key of a card, and the parameter of a call that stands for it, or its value; both folded.
#[derive(Drop)]
pub struct Key {
    pub key: Vec<u8>,
    pub name: Vec<u8>,
}

/// A listed name: its kind, none where its cards are left out; the nets that the list says; which of
/// a call's nets and these, in this order, each terminal is on, in the order of a card of the kind;
/// and which keys stand for which parameters of a call.
#[derive(Drop)]
pub struct Device {
    pub kind: Option<DeviceKind>,
    pub fixed: Vec<Vec<u8>>,
    pub places: Vec<usize>,
    pub keys: Vec<Key>,
}

/// Whether a card of the kind has the key.
pub fn is_written(kind: DeviceKind, key: &[u8]) -> bool
    ensures { result ≡ is_written kind key.now }
{
    is_text(key, &[first_key(kind)]) || is_text(key, &[second_key(kind)]) || is_text(key, b"M")
}

/// The key for which a parameter of this name stands.
pub fn key_of<'a>(keys: &'a [Key], name: &[u8]) -> &'a [u8]
    ensures { result.now ≡ key_of (keys_seen keys.now) name.now }
{
    let mut rest = keys;
    'keys: while let [key, more @ ..] = rest {
        if is_text(name, key.name.as_slice()) {
            return key.key.as_slice();
        }
        rest = more;
    }
    b""
}

/// Whether a parameter stands for a key.
pub fn stands_for(key: &[u8], keys: &[Key], param: &Param) -> bool
    ensures { result ≡ stands_for key.now (keys_seen keys.now) (param_seen param.now) }
{
    is_text(key_of(keys, param.key), key)
}

// A digit or `.` begins it: a value, not a parameter.
fn is_fixed(name: &[u8]) -> bool
    ensures { result ≡ is_fixed name.now }
{
    match name {
        [b, ..] => *b == b'.' || b.is_ascii_digit(),
        [] => false,
    }
}

fn push_said<'a>(
    out: &mut Vec<Param<'a>>,
    kind: DeviceKind,
    keys: &'a [Key],
    params: &[Param<'a>],
) -> Result<(), AllocError>
    ensures { OnOk result (params_seen out.new.items ≡ params_seen out.old.items
        ++ said_params kind (keys_seen keys.now) (params_seen params.now)) }
{
    let mut rest = params;
    'params: while let [param, more @ ..] = rest {
        let key = key_of(keys, param.key);
        if is_written(kind, key) {
            out.push(Param {
                key,
                value: param.value,
            })?;
        }
        rest = more;
    }
    Ok(())
}

fn push_fixed<'a>(
    out: &mut Vec<Param<'a>>,
    kind: DeviceKind,
    keys: &'a [Key],
) -> Result<(), AllocError>
    ensures { OnOk result (params_seen out.new.items ≡ params_seen out.old.items
        ++ fixed_params kind (keys_seen keys.now)) }
{
    let mut rest = keys;
    'keys: while let [key, more @ ..] = rest {
        if is_written(kind, key.key.as_slice()) && is_fixed(key.name.as_slice()) {
            out.push(Param {
                key: key.key.as_slice(),
                value: key.name.as_slice(),
            })?;
        }
        rest = more;
    }
    Ok(())
}

/// The parameters of the card that a call of these is.
pub fn device_params<'a>(
    alloc: Global,
    kind: DeviceKind,
    keys: &'a [Key],
    params: &[Param<'a>],
) -> Result<Vec<Param<'a>>, AllocError>
    ensures { IfOk result (λ ps. params_seen ps.items
        ≡ device_params kind (keys_seen keys.now) (params_seen params.now)) }
{
    let mut out = Vec::new(alloc);
    push_said(&mut out, kind, keys, params)?;
    push_fixed(&mut out, kind, keys)?;
    Ok(out)
}

// The listed class, or the name.
fn class_of<'a>(keys: &'a [Key], name: &'a [u8]) -> &'a [u8]
    ensures { result.now ≡ class_of (keys_seen keys.now) name.now }
{
    let mut rest = keys;
    'keys: while let [key, more @ ..] = rest {
        if is_text(key.key.as_slice(), b"AS") {
            return key.name.as_slice();
        }
        rest = more;
    }
    name
}

/// The word of a place, or an empty one.
#[tactic(auto, using(crate::proofs::DeviceLemmas::word_there, crate::proofs::DeviceLemmas::word_past))]
pub fn word_at<'a>(words: &[&'a [u8]], k: usize) -> &'a [u8]
    ensures { result.now ≡ slice_index_or (words_seen words.now) k [] }
{
    match words.get(k) {
        None => b"",
        Some(word) => *word,
    }
}

/// The name that a call's words call.
#[tactic(auto, using(crate::proofs::DeviceLemmas::words_long))]
pub fn called_name<'a>(words: &[&'a [u8]]) -> &'a [u8]
    ensures { result.now ≡ called_name (words_seen words.now) }
{
    word_at(words, words.len().saturating_sub(1))
}

// The net of a place among those that the list says, or an empty one.
#[tactic(auto, using(crate::proofs::DeviceLemmas::text_there, crate::proofs::DeviceLemmas::text_past))]
fn fixed_at(fixed: &[Vec<u8>], k: usize) -> &[u8]
    ensures { result.now ≡ slice_index_or (map (λ n. n.items) fixed.now) k [] }
{
    match fixed.get(k) {
        None => b"",
        Some(net) => net.as_slice(),
    }
}

/// How many nets a call has.
#[tactic(auto, using(crate::proofs::DeviceLemmas::texts_long))]
pub fn net_count(device: &Device) -> usize
    ensures { result ≡ net_count (device_seen device.now) }
{
    device.places.len().saturating_sub(device.fixed.len())
}

// A net of a call, or one that the list says.
fn net_at<'a>(device: &'a Device, words: &[&'a [u8]], k: usize) -> &'a [u8]
    ensures { result.now ≡ net_at (device_seen device.now) (words_seen words.now) k }
{
    let count = net_count(device);
    if k < count {
        word_at(words, k)
    } else {
        fixed_at(device.fixed.as_slice(), k - count)
    }
}

fn push_nets<'a>(
    out: &mut Vec<&'a [u8]>,
    device: &'a Device,
    words: &[&'a [u8]],
) -> Result<(), AllocError>
    ensures { OnOk result (words_seen out.new.items ≡ words_seen out.old.items
        ++ nets_at (device_seen device.now) device.now.places.items (words_seen words.now)) }
{
    let mut rest = device.places.as_slice();
    'places: while let [place, more @ ..] = rest {
        out.push(net_at(device, words, *place))?;
        rest = more;
    }
    Ok(())
}

/// The words behind the first of the card that a call of these is.
pub fn device_words<'a>(
    alloc: Global,
    device: &'a Device,
    words: &[&'a [u8]],
) -> Result<Vec<&'a [u8]>, AllocError>
    ensures { IfOk result (λ ws. words_seen ws.items
        ≡ device_words (device_seen device.now) (words_seen words.now)) }
{
    let mut out = Vec::new(alloc);
    push_nets(&mut out, device, words)?;
    out.push(class_of(device.keys.as_slice(), called_name(words)))?;
    Ok(out)
}
