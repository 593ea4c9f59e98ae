//! The SPICE text of a netlist.

ghost use Rattle.std.specs.Prelude.{◌≡◌, ◌<◌, ◌++◌, ◌∷◌, OnOk, IfOk, decimal, codes, length, map};
ghost use Rattle.std.specs.Prelude.{slice_get};
ghost use Rattle.net_names.specs.Escapes.{escaped};
ghost use Rattle.net_model.specs.Rows.{plain_device, plain_call, plain_circuit, plain_netlist};
ghost use Rattle.plain_netlist.specs.Netlist.{DeviceRow as PlainDevice};
ghost use Rattle.spice_rows.specs.Kinds.{card_nets};
ghost use Rattle.spice_text.specs.Cards.{back_key, front_key};
ghost use Rattle.spice_text.specs.Written.{net_text, nets_text, IsDeviceText, AreSizes};
ghost use Rattle.spice_text.specs.Written.{call_text, calls_text, AreTexts, AreOneByOne};
ghost use Rattle.spice_text.specs.Written.{device_nets_text, sizes_text, circuit_text};
ghost use Rattle.spice_text.specs.Written.{IsLengthText, IsAreaText};
ghost use Rattle.spice_text.specs.Written.{IsCircuitText, IsWritten, Adds, name_in};

use fixed_num::{Femto, area_text, micron_text};
use net_model::{CallRow, Circuit, DeviceRow, Netlist};
use net_names::{Name, escape};
use plain_netlist::DeviceKind;
use spice_rows::{first_key, letter, second_key};
use std::alloc::{AllocError, Global};

fn push_name(alloc: Global, out: &mut Vec<u8>, name: &Name) -> Result<(), AllocError>
    ensures { OnOk result (out.new.items ≡ out.old.items ++ escaped name.now) }
{
    let text = escape(alloc, name)?;
    out.extend_from_slice(&text)?;
    Ok(())
}

fn push_net(alloc: Global, out: &mut Vec<u8>, nets: &[Name], n: u32) -> Result<(), AllocError>
    ensures { OnOk result (out.new.items ≡ out.old.items ++ net_text nets.now n) }
{
    out.push(b' ')?;
    if let Some(name) = nets.get(n as usize) {
        push_name(alloc, out, name)?;
    }
    Ok(())
}

fn push_nets(
    alloc: Global,
    out: &mut Vec<u8>,
    nets: &[Name],
    numbers: &[u32],
) -> Result<(), AllocError>
    ensures { OnOk result (out.new.items ≡ out.old.items ++ nets_text nets.now numbers.now) }
{
    let mut rest = numbers;
    'nets: while let [n, more @ ..] = rest {
        push_net(alloc, out, nets, *n)?;
        rest = more;
    }
    Ok(())
}

fn push_number(alloc: Global, out: &mut Vec<u8>, n: usize) -> Result<(), AllocError>
    ensures { OnOk result (out.new.items ≡ out.old.items ++ decimal n) }
{
    let text = n.to_string(alloc)?.into_bytes();
    out.extend_from_slice(&text)?;
    Ok(())
}

// The nets in the order of the card: of a resistor its two ends stand first.
fn push_card_nets(
    alloc: Global,
    out: &mut Vec<u8>,
    nets: &[Name],
    d: &DeviceRow,
) -> Result<(), AllocError>
    ensures { OnOk result (out.new.items ≡ out.old.items
        ++ nets_text nets.now (card_nets (plain_device d.now))) }
{
    match d.kind {
        DeviceKind::ResistorWithBulk => {
            push_nets(alloc, out, nets, &[d.nets[2], d.nets[0], d.nets[1]])
        }
        _ => push_nets(alloc, out, nets, d.terminal_nets()),
    }
}

fn push_device_nets(
    alloc: Global,
    out: &mut Vec<u8>,
    nets: &[Name],
    k: usize,
    d: &DeviceRow,
) -> Result<(), AllocError>
    ensures { OnOk result (out.new.items ≡ out.old.items
        ++ device_nets_text nets.now k (plain_device d.now)) }
{
    out.push(letter(d.kind))?;
    push_number(alloc, out, k)?;
    push_card_nets(alloc, out, nets, d)
}

fn front_key(kind: DeviceKind) -> u8
    ensures { result ≡ front_key kind }
{
    match kind {
        DeviceKind::Diode => second_key(kind),
        _ => first_key(kind),
    }
}

fn back_key(kind: DeviceKind) -> u8
    ensures { result ≡ back_key kind }
{
    match kind {
        DeviceKind::Diode => first_key(kind),
        _ => second_key(kind),
    }
}

// ` K=value`
fn push_value(out: &mut Vec<u8>, key: u8, value: &[u8]) -> Result<(), AllocError>
    ensures { OnOk result
        (out.new.items ≡ out.old.items ++ 0x20 ∷ key ∷ 0x3D ∷ value.now) }
{
    out.push(b' ')?;
    out.push(key)?;
    out.push(b'=')?;
    out.extend_from_slice(value)?;
    Ok(())
}

fn push_sizes(
    alloc: Global,
    out: &mut Vec<u8>,
    kind: DeviceKind,
    class: &Name,
    front: &[u8],
    back: &[u8],
) -> Result<(), AllocError>
    ensures { OnOk result
        (out.new.items ≡ out.old.items ++ sizes_text kind class.now front.now back.now) }
{
    out.push(b' ')?;
    push_name(alloc, out, class)?;
    push_value(out, front_key(kind), front)?;
    push_value(out, back_key(kind), back)?;
    out.push(b'\n')?;
    Ok(())
}

fn length_text(alloc: Global, length: Femto) -> Result<Vec<u8>, AllocError>
    ensures { IfOk result (λ text. IsLengthText length.0 text.items) }
{
    let mut text = micron_text(alloc, length)?;
    text.push(b'U')?;
    Ok(text)
}

fn area_in_text(alloc: Global, area: u128) -> Result<Vec<u8>, AllocError>
    ensures { IfOk result (λ text. IsAreaText area text.items) }
{
    let mut text = area_text(alloc, area)?;
    text.push(b'P')?;
    Ok(text)
}

// The two sizes as the card has them: of a diode its area and its perimeter.
fn size_texts(alloc: Global, d: &DeviceRow) -> Result<(Vec<u8>, Vec<u8>), AllocError>
    ensures { IfOk result (λ texts. AreSizes d.now.kind (plain_device d.now) texts.0.items
        texts.1.items) }
{
    let [first, second] = d.sizes;
    let length = length_text(alloc, first)?;
    match d.kind {
        DeviceKind::Mos4 => Ok((length, length_text(alloc, second)?)),
        DeviceKind::ResistorWithBulk => Ok((length, length_text(alloc, second)?)),
        DeviceKind::Diode => Ok((area_in_text(alloc, second.0)?, length)),
    }
}

fn write_device(
    alloc: Global,
    out: &mut Vec<u8>,
    nets: &[Name],
    k: usize,
    d: &DeviceRow,
) -> Result<(), AllocError>
    ensures { OnOk result
        (Adds (IsDeviceText nets.now k (plain_device d.now)) out.old.items out.new.items) }
{
    let (front, back) = size_texts(alloc, d)?;
    push_device_nets(alloc, out, nets, k, d)?;
    push_sizes(alloc, out, d.kind, &d.class, &front, &back)
}

fn write_devices(
    alloc: Global,
    out: &mut Vec<u8>,
    nets: &[Name],
    devices: &[DeviceRow],
) -> Result<(), AllocError>
    ensures { OnOk result
        (Adds (AreTexts (IsDeviceText nets.now) 1 (map plain_device devices.now))
        out.old.items out.new.items) }
{
    'devices: for i in 0..devices.len() {
        write_device(alloc, out, nets, i + 1, &devices[i])?;
    }
    Ok(())
}

fn push_called(
    alloc: Global,
    out: &mut Vec<u8>,
    circuits: &[Circuit],
    k: u32,
) -> Result<(), AllocError>
    ensures { OnOk result (out.new.items ≡ out.old.items
        ++ escaped (name_in (slice_get (map plain_circuit circuits.now) k))) }
{
    if let Some(called) = circuits.get(k as usize) {
        push_name(alloc, out, &called.name)?;
    }
    Ok(())
}

fn write_call(
    alloc: Global,
    out: &mut Vec<u8>,
    nets: &[Name],
    circuits: &[Circuit],
    k: usize,
    r: &CallRow,
) -> Result<(), AllocError>
    ensures { OnOk result (out.new.items ≡ out.old.items
        ++ call_text (map plain_circuit circuits.now) nets.now k (plain_call r.now)) }
{
    out.push(b'X')?;
    push_number(alloc, out, k)?;
    push_nets(alloc, out, nets, &r.nets)?;
    out.push(b' ')?;
    push_called(alloc, out, circuits, r.circuit)?;
    out.push(b'\n')?;
    Ok(())
}

fn write_calls(
    alloc: Global,
    out: &mut Vec<u8>,
    nets: &[Name],
    circuits: &[Circuit],
    calls: &[CallRow],
) -> Result<(), AllocError>
    ensures { OnOk result (out.new.items ≡ out.old.items
        ++ calls_text (map plain_circuit circuits.now) nets.now 1 (map plain_call calls.now)) }
{
    let mut k = 1;
    let mut rest = calls;
    'calls: while let [call, more @ ..] = rest {
        write_call(alloc, out, nets, circuits, k, call)?;
        k += 1;
        rest = more;
    }
    Ok(())
}

fn open_circuit(alloc: Global, out: &mut Vec<u8>, c: &Circuit) -> Result<(), AllocError>
    ensures { OnOk result (out.new.items ≡ out.old.items ++ (codes ".SUBCKT "
        ++ (escaped c.now.name ++ (nets_text c.now.nets.items c.now.pins.items ++ codes "\n")))) }
{
    out.extend_from_slice(b".SUBCKT ")?;
    push_name(alloc, out, &c.name)?;
    push_nets(alloc, out, &c.nets, &c.pins)?;
    out.push(b'\n')?;
    Ok(())
}

fn close_circuit(alloc: Global, out: &mut Vec<u8>, c: &Circuit) -> Result<(), AllocError>
    ensures { OnOk result (out.new.items ≡ out.old.items ++ (codes ".ENDS "
        ++ (escaped c.now.name ++ codes "\n"))) }
{
    out.extend_from_slice(b".ENDS ")?;
    push_name(alloc, out, &c.name)?;
    out.push(b'\n')?;
    Ok(())
}

fn write_circuit(
    alloc: Global,
    out: &mut Vec<u8>,
    circuits: &[Circuit],
    c: &Circuit,
) -> Result<(), AllocError>
    ensures { OnOk result
        (Adds (IsCircuitText (map plain_circuit circuits.now) (plain_circuit c.now))
        out.old.items out.new.items) }
{
    open_circuit(alloc, out, c)?;
    write_devices(alloc, out, &c.nets, &c.devices)?;
    write_calls(alloc, out, &c.nets, circuits, &c.calls)?;
    close_circuit(alloc, out, c)
}

fn write_circuits(alloc: Global, out: &mut Vec<u8>, circuits: &[Circuit]) -> Result<(), AllocError>
    ensures { OnOk result
        (Adds (AreOneByOne (IsCircuitText (map plain_circuit circuits.now))
        (map plain_circuit circuits.now)) out.old.items out.new.items) }
{
    'circuits: for i in 0..circuits.len() {
        write_circuit(alloc, out, circuits, &circuits[i])?;
    }
    Ok(())
}

/// The SPICE text of a netlist: a comment, for each circuit its pins, its devices and its calls,
/// and `.END`. Names are escaped, sizes are in micrometres, a diode's area in square micrometres.
/// Linear in the text.
pub fn write_spice(alloc: Global, n: &Netlist) -> Result<Vec<u8>, AllocError>
    ensures { IfOk result (λ text. IsWritten (plain_netlist n.now) text.items) }
{
    let mut out = Vec::new(alloc);
    out.extend_from_slice(b"* lvs netlist\n")?;
    write_circuits(alloc, &mut out, &n.circuits)?;
    out.extend_from_slice(b".END\n")?;
    Ok(out)
}
