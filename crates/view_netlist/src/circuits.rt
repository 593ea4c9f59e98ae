//! Circuits: what stands in them, and where.

ghost use Rattle.std.specs.Prelude.{◌≡◌, ◌<◌, ◌++◌, OnOk, length, map, slice_get};
ghost use Rattle.std.specs.List.{All};
ghost use Rattle.net_model.specs.Rows.{plain_call, plain_circuit, plain_device};
ghost use Rattle.spice_text.specs.Written.{Adds, AreTexts};
ghost use Rattle.view_netlist.specs.Circuits.{AreCircuitTexts, IsCircuitText, IsDeviceText};
ghost use Rattle.view_netlist.specs.Circuits.{IsNumberText, call_end, call_text, call_texts};
ghost use Rattle.view_netlist.specs.Circuits.{head_text, net_text, net_texts, tail_text};
ghost use Rattle.view_netlist.specs.Drawing.{IsSmallDrawing, plain_drawing};

use crate::devices::push_device;
use crate::drawing::{
    DevicePlace, Drawing, Names, drawing_at, push_hull, push_motion, push_shapes,
};
use crate::rows::{push_call_pins, push_name_of, push_pins, push_place, push_word_of};
use geo_base::Motion;
use list_base::number;
use net_model::{CallRow, Circuit, DeviceRow};
use net_names::Name;
use std::alloc::{AllocError, Global};

fn push_net(
    alloc: Global,
    out: &mut Vec<u8>,
    layers: &[Name],
    drawing: &Drawing,
    names: &[Name],
    k: u32,
) -> Result<(), AllocError>
    requires { IsSmallDrawing (plain_drawing drawing.now) }
    ensures { OnOk result (out.new.items ≡ out.old.items
        ++ net_text layers.now (plain_drawing drawing.now).nets names.now k) }
{
    out.extend_from_slice(b"\n  N(")?;
    push_place(alloc, out, k)?;
    push_name_of(out, names, k)?;
    push_shapes(alloc, out, layers, drawing.shapes(k))?;
    out.extend_from_slice(b")")
}

fn push_nets(
    alloc: Global,
    out: &mut Vec<u8>,
    layers: &[Name],
    drawing: &Drawing,
    names: &[Name],
) -> Result<(), AllocError>
    requires { IsSmallDrawing (plain_drawing drawing.now) }
    ensures { OnOk result (out.new.items ≡ out.old.items
        ++ net_texts layers.now (plain_drawing drawing.now).nets names.now 0 names.now) }
{
    number(names.len())?;
    let mut k = 0;
    let mut rest = names;
    'nets: while let [_, more @ ..] = rest {
        push_net(alloc, out, layers, drawing, names, k)?;
        k += 1;
        rest = more;
    }
    Ok(())
}

fn push_devices(
    alloc: Global,
    out: &mut Vec<u8>,
    places: &[DevicePlace],
    devices: &[DeviceRow],
) -> Result<(), AllocError>
    ensures { OnOk result (Adds
        (AreTexts (IsDeviceText places.now) 0 (map plain_device devices.now))
        out.old.items out.new.items) }
{
    let count = number(devices.len())?;
    'devices: for i in 0..count {
        push_device(alloc, out, places, i, &devices[i as usize])?;
    }
    Ok(())
}

fn push_call_end(
    alloc: Global,
    out: &mut Vec<u8>,
    motion: Option<Motion>,
    r: &CallRow,
) -> Result<(), AllocError>
    ensures { OnOk result (out.new.items ≡ out.old.items
        ++ call_end motion (plain_call r.now)) }
{
    push_motion(alloc, out, motion)?;
    push_call_pins(alloc, out, &r.nets)?;
    out.extend_from_slice(b")")
}

// The motion of a number; none past the last.
fn motion_at(motions: &[Motion], k: u32) -> Option<Motion>
    ensures { result ≡ slice_get motions.now k }
{
    match motions.get(k as usize) {
        Some(motion) => Some(*motion),
        None => None,
    }
}

fn push_call(
    alloc: Global,
    out: &mut Vec<u8>,
    circuits: &[Name],
    motions: &[Motion],
    k: u32,
    r: &CallRow,
) -> Result<(), AllocError>
    ensures { OnOk result (out.new.items ≡ out.old.items
        ++ call_text circuits.now (slice_get motions.now k) k (plain_call r.now)) }
{
    out.extend_from_slice(b"\n  X(")?;
    push_place(alloc, out, k)?;
    out.push(b' ')?;
    push_word_of(out, circuits, r.circuit)?;
    push_call_end(alloc, out, motion_at(motions, k), r)
}

fn push_calls(
    alloc: Global,
    out: &mut Vec<u8>,
    circuits: &[Name],
    motions: &[Motion],
    calls: &[CallRow],
) -> Result<(), AllocError>
    ensures { OnOk result (out.new.items ≡ out.old.items
        ++ call_texts circuits.now motions.now 0 (map plain_call calls.now)) }
{
    number(calls.len())?;
    let mut k = 0;
    let mut rest = calls;
    'calls: while let [call, more @ ..] = rest {
        push_call(alloc, out, circuits, motions, k, call)?;
        k += 1;
        rest = more;
    }
    Ok(())
}

fn open_circuit(
    alloc: Global,
    out: &mut Vec<u8>,
    names: &Names,
    drawing: &Drawing,
    k: u32,
    c: &Circuit,
) -> Result<(), AllocError>
    requires { IsSmallDrawing (plain_drawing drawing.now) }
    ensures { OnOk result (out.new.items ≡ out.old.items
        ++ head_text names.now (plain_drawing drawing.now) k (plain_circuit c.now)) }
{
    out.extend_from_slice(b"\n X(")?;
    push_word_of(out, &names.circuits, k)?;
    push_hull(alloc, out, &drawing.hull)?;
    push_nets(alloc, out, &names.layers, drawing, &c.nets)?;
    push_pins(alloc, out, &c.nets, &c.pins)
}

fn close_circuit(
    alloc: Global,
    out: &mut Vec<u8>,
    circuits: &[Name],
    drawing: &Drawing,
    c: &Circuit,
) -> Result<(), AllocError>
    ensures { OnOk result (out.new.items ≡ out.old.items
        ++ tail_text circuits.now (plain_drawing drawing.now) (plain_circuit c.now)) }
{
    push_calls(alloc, out, circuits, &drawing.calls, &c.calls)?;
    out.extend_from_slice(b"\n )")
}

fn push_circuit(
    alloc: Global,
    out: &mut Vec<u8>,
    names: &Names,
    drawing: &Drawing,
    k: u32,
    c: &Circuit,
) -> Result<(), AllocError>
    requires { IsSmallDrawing (plain_drawing drawing.now) }
    ensures { OnOk result (Adds
        (IsCircuitText names.now (plain_drawing drawing.now) k (plain_circuit c.now))
        out.old.items out.new.items) }
{
    open_circuit(alloc, out, names, drawing, k, c)?;
    push_devices(alloc, out, &drawing.devices, &c.devices)?;
    close_circuit(alloc, out, &names.circuits, drawing, c)
}

fn push_numbered(
    alloc: Global,
    out: &mut Vec<u8>,
    names: &Names,
    drawings: &[Drawing],
    circuits: &[Circuit],
    k: u32,
) -> Result<(), AllocError>
    requires there { k < length circuits.now }
    requires small { All (λ d. IsSmallDrawing (plain_drawing d)) drawings.now }
    ensures { OnOk result (Adds
        (IsNumberText names.now drawings.now (map plain_circuit circuits.now) k)
        out.old.items out.new.items) }
{
    let blank = Drawing::blank(alloc);
    let drawing = drawing_at(drawings, &blank, k);
    push_circuit(alloc, out, names, drawing, k, &circuits[k as usize])?;
    Ok(())
}

/// Appends the circuits of these numbers, in this order: what is drawn of them, their nets, pins,
/// devices and calls. Linear in the text. An `Err` is want of memory, or 2^32 of a kind in a
/// circuit.
pub fn push_circuits(
    alloc: Global,
    out: &mut Vec<u8>,
    names: &Names,
    drawings: &[Drawing],
    circuits: &[Circuit],
    order: &[u32],
) -> Result<(), AllocError>
    requires there { All (λ k. k < length circuits.now) order.now }
    requires small { All (λ d. IsSmallDrawing (plain_drawing d)) drawings.now }
    ensures { OnOk result (Adds
        (AreCircuitTexts names.now drawings.now (map plain_circuit circuits.now) order.now)
        out.old.items out.new.items) }
{
    'circuits: for i in 0..order.len() {
        push_numbered(alloc, out, names, drawings, circuits, order[i])?;
    }
    Ok(())
}
