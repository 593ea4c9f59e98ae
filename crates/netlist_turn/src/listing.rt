//! The cards of a list of devices: `.DEVICE name kind ports key=parameter ..`.

ghost use Rattle.std.specs.Prelude.{◌≡◌, ◌∷◌, [], ◌++◌, IfOk, OnOk, Some, map, nat_lt};
ghost use Rattle.std.specs.List.{list_all, list_any};
ghost use Rattle.std.specs.Option.{option_map};
ghost use Rattle.spice_cards.specs.Seen.{param_seen, params_seen, words_seen};
ghost use Rattle.spice_rows.specs.Names.{is_text};
ghost use Rattle.netlist_turn.specs.Devices.{are_ports, call_ports, device_of, folded_param};
ghost use Rattle.netlist_turn.specs.Devices.{free_letters, is_list_key, is_list_param, is_net};
ghost use Rattle.netlist_turn.specs.Devices.{is_net_text, keys_of, kind_of, letters, net_names};
ghost use Rattle.netlist_turn.specs.Devices.{net_ports, of_kind, out, place_in, places_by};
ghost use Rattle.netlist_turn.specs.Devices.{places_in, with_own};
ghost use Rattle.netlist_turn.specs.DevicesSeen.{device_seen, key_seen, keys_seen};
ghost use Rattle.netlist_turn.specs.PinsSeen.{pins_seen};

use crate::device::{Device, Key, is_written};
use crate::words::{folded, is_text};
use plain_netlist::DeviceKind;
use spice_cards::Param;
use spice_rows::{first_key, second_key};
use std::alloc::{AllocError, Global};

fn kind_of(word: &[u8]) -> Option<DeviceKind>
    ensures { result ≡ kind_of word.now }
{
    if is_text(word, b"MOS") {
        return Some(DeviceKind::Mos4);
    }
    if is_text(word, b"RESISTOR") {
        return Some(DeviceKind::ResistorWithBulk);
    }
    if is_text(word, b"DIODE") {
        return Some(DeviceKind::Diode);
    }
    None
}

// The ports of a kind, in the order of a card.
fn letters(kind: DeviceKind) -> &'static [u8]
    ensures { result.now ≡ letters kind }
{
    match kind {
        DeviceKind::Mos4 => b"DGSB",
        DeviceKind::ResistorWithBulk => b"ABW",
        DeviceKind::Diode => b"AC",
    }
}

fn place_in(ports: &[Vec<u8>], letter: u8) -> usize
    ensures { result ≡ place_in (pins_seen ports.now) 0 letter }
{
    let mut k = 0;
    let mut rest = ports;
    'ports: while let [port, more @ ..] = rest {
        if is_text(port.as_slice(), &[letter]) {
            return k;
        }
        k += 1;
        rest = more;
    }
    k
}

fn places_of(alloc: Global, ports: &[Vec<u8>], letters: &[u8]) -> Result<Vec<usize>, AllocError>
    ensures { IfOk result (λ ks. ks.items ≡ places_in (pins_seen ports.now) letters.now) }
{
    let mut places = Vec::new(alloc);
    let mut rest = letters;
    'letters: while let [letter, more @ ..] = rest {
        places.push(place_in(ports, *letter))?;
        rest = more;
    }
    Ok(places)
}

fn are_below(places: &[usize], count: usize) -> bool
    ensures { result ≡ list_all (λ k. nat_lt k count) places.now }
{
    places.iter().all(|k| *k < count)
}

#[tactic(auto, using(crate::proofs::PinLemmas::pins_long))]
fn are_ports(ports: &[Vec<u8>], places: &[usize]) -> bool
    ensures { result ≡ are_ports (pins_seen ports.now) places.now }
{
    ports.len() == places.len() && are_below(places, ports.len())
}

// `port:net`
fn is_net_text(text: &[u8]) -> bool
    ensures { result ≡ is_net_text text.now }
{
    match text {
        [_, colon, _, ..] => *colon == b':',
        _ => false,
    }
}

fn is_net(key: &Key) -> bool
    ensures { result ≡ is_net (key_seen key.now) }
{
    is_text(key.key.as_slice(), b"NET") && is_net_text(key.name.as_slice())
}

// The ports on nets that the list says.
fn push_net_ports(alloc: Global, out: &mut Vec<Vec<u8>>, keys: &[Key]) -> Result<(), AllocError>
    ensures { OnOk result (pins_seen out.new.items
        ≡ pins_seen out.old.items ++ net_ports (keys_seen keys.now)) }
{
    let mut rest = keys;
    'keys: while let [key, more @ ..] = rest {
        if is_net(key) && key.name.len() > 1 {
            let port = &key.name.as_slice()[..1];
            out.push(port.to_vec(alloc)?)?;
        }
        rest = more;
    }
    Ok(())
}

// And these nets.
fn net_names(alloc: Global, keys: &[Key]) -> Result<Vec<Vec<u8>>, AllocError>
    ensures { IfOk result (λ ns. pins_seen ns.items ≡ net_names (keys_seen keys.now)) }
{
    let mut names = Vec::new(alloc);
    let mut rest = keys;
    'keys: while let [key, more @ ..] = rest {
        if is_net(key) && key.name.len() > 2 {
            let net = &key.name.as_slice()[2..];
            names.push(net.to_vec(alloc)?)?;
        }
        rest = more;
    }
    Ok(names)
}

fn has_port(ports: &[Vec<u8>], letter: u8) -> bool
    ensures { result ≡ list_any (λ p. is_text (letter ∷ []) p) (pins_seen ports.now) }
{
    let mut rest = ports;
    'ports: while let [port, more @ ..] = rest {
        if is_text(port.as_slice(), &[letter]) {
            return true;
        }
        rest = more;
    }
    false
}

// The ports of a kind that aren't on such nets, in the order of a card.
fn push_free(
    alloc: Global,
    out: &mut Vec<Vec<u8>>,
    letters: &[u8],
    nets: &[Vec<u8>],
) -> Result<(), AllocError>
    ensures { OnOk result (pins_seen out.new.items
        ≡ pins_seen out.old.items ++ free_letters letters.now (pins_seen nets.now)) }
{
    let mut rest = letters;
    'letters: while let [letter, more @ ..] = rest {
        if !has_port(nets, *letter) {
            out.push(rest[..1].to_vec(alloc)?)?;
        }
        rest = more;
    }
    Ok(())
}

fn push_copies(alloc: Global, out: &mut Vec<Vec<u8>>, words: &[&[u8]]) -> Result<(), AllocError>
    ensures { OnOk result
        (pins_seen out.new.items ≡ pins_seen out.old.items ++ words_seen words.now) }
{
    let mut rest = words;
    'words: while let [word, more @ ..] = rest {
        out.push(word.to_vec(alloc)?)?;
        rest = more;
    }
    Ok(())
}

// The ports that are on a call's nets.
fn call_ports(
    alloc: Global,
    ports: &[&[u8]],
    letters: &[u8],
    nets: &[Vec<u8>],
) -> Result<Vec<Vec<u8>>, AllocError>
    ensures { IfOk result (λ ps. pins_seen ps.items
        ≡ call_ports (words_seen ports.now) letters.now (pins_seen nets.now)) }
{
    let mut out = Vec::new(alloc);
    if ports.is_empty() {
        push_free(alloc, &mut out, letters, nets)?;
    } else {
        push_copies(alloc, &mut out, ports)?;
    }
    Ok(out)
}

fn is_list_key(kind: DeviceKind, key: &[u8]) -> bool
    ensures { result ≡ is_list_key kind key.now }
{
    is_written(kind, key) || is_text(key, b"CHECK") || is_text(key, b"AS") || is_text(key, b"NF")
}

fn is_list_param(kind: DeviceKind, key: &Key) -> bool
    ensures { result ≡ is_list_param kind (key_seen key.now) }
{
    is_list_key(kind, key.key.as_slice()) || is_net(key)
}

fn are_list_params(kind: DeviceKind, keys: &[Key]) -> bool
    ensures { result ≡ list_all (is_list_param kind) (keys_seen keys.now) }
{
    let mut rest = keys;
    'keys: while let [key, more @ ..] = rest {
        if !is_list_param(kind, key) {
            return false;
        }
        rest = more;
    }
    true
}

fn folded_keys(alloc: Global, params: &[Param]) -> Result<Vec<Key>, AllocError>
    ensures { IfOk result (λ ks. keys_seen ks.items
        ≡ map folded_param (params_seen params.now)) }
{
    let mut keys = Vec::new(alloc);
    let mut rest = params;
    'params: while let [param, more @ ..] = rest {
        keys.push(folded_key(alloc, param)?)?;
        rest = more;
    }
    Ok(keys)
}

fn folded_key(alloc: Global, param: &Param) -> Result<Key, AllocError>
    ensures { IfOk result (λ k. key_seen k ≡ folded_param (param_seen param.now)) }
{
    let key = folded(alloc, param.key)?;
    let name = folded(alloc, param.value)?;
    Ok(Key { key, name })
}

fn has_key(keys: &[Key], text: &[u8]) -> bool
    ensures { result ≡ list_any (λ k. is_text text.now k.key) (keys_seen keys.now) }
{
    let mut rest = keys;
    'keys: while let [key, more @ ..] = rest {
        if is_text(key.key.as_slice(), text) {
            return true;
        }
        rest = more;
    }
    false
}

// A key that isn't listed stands for the parameter of its own name.
fn add_own(alloc: Global, keys: &mut Vec<Key>, key: &[u8]) -> Result<(), AllocError>
    ensures { OnOk result (keys_seen keys.new.items ≡ with_own key.now (keys_seen keys.old.items)) }
{
    if has_key(keys, key) {
        return Ok(());
    }
    let name = key.to_vec(alloc)?;
    let key = key.to_vec(alloc)?;
    keys.push(Key { key, name })?;
    Ok(())
}

fn add_keys(alloc: Global, kind: DeviceKind, keys: &mut Vec<Key>) -> Result<(), AllocError>
    ensures { OnOk result
        (keys_seen keys.new.items ≡ keys_of kind (keys_seen keys.old.items)) }
{
    add_own(alloc, keys, &[first_key(kind)])?;
    add_own(alloc, keys, &[second_key(kind)])?;
    add_own(alloc, keys, b"M")
}

// The place of each port of a kind among those of a call and those on nets that the list says; none
// where one stands twice, or is missing.
fn places_by(
    alloc: Global,
    kind: DeviceKind,
    ports: &[&[u8]],
    keys: &[Key],
) -> Result<Option<Vec<usize>>, AllocError>
    ensures { IfOk result (λ r. option_map (λ ks. ks.items) r
        ≡ places_by kind (words_seen ports.now) (keys_seen keys.now)) }
{
    let mut nets = Vec::new(alloc);
    push_net_ports(alloc, &mut nets, keys)?;
    let mut all = call_ports(alloc, ports, letters(kind), nets.as_slice())?;
    push_net_ports(alloc, &mut all, keys)?;
    let places = places_of(alloc, all.as_slice(), letters(kind))?;
    if !are_ports(all.as_slice(), places.as_slice()) {
        return Ok(None);
    }
    Ok(Some(places))
}

fn of_kind(
    alloc: Global,
    ports: &[&[u8]],
    params: &[Param],
    kind: DeviceKind,
) -> Result<Option<Device>, AllocError>
    ensures { IfOk result (λ d. option_map device_seen d
        ≡ of_kind (words_seen ports.now) (params_seen params.now) (Some kind)) }
{
    let mut keys = folded_keys(alloc, params)?;
    if !are_list_params(kind, keys.as_slice()) {
        return Ok(None);
    }
    let Some(places) = places_by(alloc, kind, ports, keys.as_slice())? else {
        return Ok(None);
    };
    let fixed = net_names(alloc, keys.as_slice())?;
    add_keys(alloc, kind, &mut keys)?;
    Ok(Some(Device {
        kind: Some(kind),
        fixed,
        places,
        keys,
    }))
}

// Cards of the name are left out.
fn out(alloc: Global, ports: &[&[u8]], params: &[Param]) -> Option<Device>
    ensures { option_map device_seen result ≡ out (words_seen ports.now) (params_seen params.now) }
{
    match ports {
        [] => match params {
            [] => Some(Device {
                kind: None,
                fixed: Vec::new(alloc),
                places: Vec::new(alloc),
                keys: Vec::new(alloc),
            }),
            _ => None,
        },
        _ => None,
    }
}

/// What the words behind a listed name, and the parameters, say of it; none where they have another
/// form. Linear in them.
pub fn device_of(
    alloc: Global,
    words: &[&[u8]],
    params: &[Param],
) -> Result<Option<Device>, AllocError>
    ensures { IfOk result (λ d. option_map device_seen d
        ≡ device_of (words_seen words.now) (params_seen params.now)) }
{
    let [kind, ports @ ..] = words else {
        return Ok(None);
    };
    if is_text(kind, b"OUT") {
        return Ok(out(alloc, ports, params));
    }
    match kind_of(kind) {
        Some(kind) => of_kind(alloc, ports, params, kind),
        None => Ok(None),
    }
}
