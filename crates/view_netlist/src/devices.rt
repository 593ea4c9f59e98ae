//! Devices: places, sizes, and the nets of their terminals.

ghost use Rattle.std.specs.Prelude.{◌≡◌, ◌++◌, ◌∷◌, OnOk, codes, slice_get};
ghost use Rattle.net_model.specs.Rows.{plain_device};
ghost use Rattle.spice_text.specs.Written.{Adds};
ghost use Rattle.view_netlist.specs.Circuits.{IsDeviceText, device_text};
ghost use Rattle.view_netlist.specs.Kinds.{terminals};
ghost use Rattle.view_netlist.specs.Rows.{device_end, place_text, size_text, terminal_text};
ghost use Rattle.view_netlist.specs.Rows.{terminal_texts};

use crate::drawing::{DevicePlace, push_kind};
use crate::kinds::{class_of, size_letters, size_texts};
use crate::rows::push_place;
use net_model::DeviceRow;
use plain_netlist::DeviceKind;
use std::alloc::{AllocError, Global};

fn push_size(out: &mut Vec<u8>, letter: u8, size: &[u8]) -> Result<(), AllocError>
    ensures { OnOk result (out.new.items ≡ out.old.items ++ size_text letter size.now) }
{
    out.extend_from_slice(b" E(")?;
    out.push(letter)?;
    out.push(b' ')?;
    out.extend_from_slice(size)?;
    out.extend_from_slice(b")")
}

fn push_terminal(alloc: Global, out: &mut Vec<u8>, letter: u8, net: u32) -> Result<(), AllocError>
    ensures { OnOk result (out.new.items ≡ out.old.items ++ terminal_text letter net) }
{
    out.extend_from_slice(b" T(")?;
    out.push(letter)?;
    out.push(b' ')?;
    push_place(alloc, out, net)?;
    out.extend_from_slice(b")")
}

fn push_terminals(
    alloc: Global,
    out: &mut Vec<u8>,
    terminals: &[(u8, u32)],
) -> Result<(), AllocError>
    ensures { OnOk result (out.new.items ≡ out.old.items ++ terminal_texts terminals.now) }
{
    let mut rest = terminals;
    'terminals: while let [terminal, more @ ..] = rest {
        push_terminal(alloc, out, terminal.0, terminal.1)?;
        rest = more;
    }
    Ok(())
}

// The terminals of a device.
fn push_nets(alloc: Global, out: &mut Vec<u8>, d: &DeviceRow) -> Result<(), AllocError>
    ensures { OnOk result (out.new.items ≡ out.old.items ++ terminal_texts
        (terminals d.now.kind (plain_device d.now).ends (plain_device d.now).others)) }
{
    let [first, second, third, fourth] = d.nets;
    match d.kind {
        DeviceKind::Mos4 => {
            let ends = [(b'S', third), (b'G', second), (b'D', first), (b'B', fourth)];
            push_terminals(alloc, out, &ends)
        }
        DeviceKind::ResistorWithBulk => {
            push_terminals(alloc, out, &[(b'A', third), (b'B', first), (b'W', second)])
        }
        DeviceKind::Diode => push_terminals(alloc, out, &[(b'A', first), (b'C', second)]),
    }
}

fn push_end(
    alloc: Global,
    out: &mut Vec<u8>,
    first: &[u8],
    second: &[u8],
    d: &DeviceRow,
) -> Result<(), AllocError>
    ensures { OnOk result (out.new.items ≡ out.old.items
        ++ device_end first.now second.now (plain_device d.now)) }
{
    let letters = size_letters(d.kind);
    push_size(out, letters.0, first)?;
    push_size(out, letters.1, second)?;
    push_nets(alloc, out, d)?;
    out.extend_from_slice(b")")
}

fn push_row(
    alloc: Global,
    out: &mut Vec<u8>,
    k: u32,
    first: &[u8],
    second: &[u8],
    place: Option<DevicePlace>,
    d: &DeviceRow,
) -> Result<(), AllocError>
    ensures { OnOk result (out.new.items ≡ out.old.items
        ++ device_text k first.now second.now place (plain_device d.now)) }
{
    out.extend_from_slice(b"\n  D(")?;
    push_place(alloc, out, k)?;
    out.push(b' ')?;
    push_kind(alloc, out, class_of(d), place)?;
    push_end(alloc, out, first, second, d)
}

// The place of a number; none past the last.
fn place_at(places: &[DevicePlace], k: u32) -> Option<DevicePlace>
    ensures { result ≡ slice_get places.now k }
{
    match places.get(k as usize) {
        Some(place) => Some(*place),
        None => None,
    }
}

/// Appends the row of a device, with its place among these, if it has one.
pub fn push_device(
    alloc: Global,
    out: &mut Vec<u8>,
    places: &[DevicePlace],
    k: u32,
    d: &DeviceRow,
) -> Result<(), AllocError>
    ensures { OnOk result (Adds (IsDeviceText places.now k (plain_device d.now))
        out.old.items out.new.items) }
{
    let (first, second) = size_texts(alloc, d)?;
    push_row(alloc, out, k, &first, &second, place_at(places, k), d)
}
