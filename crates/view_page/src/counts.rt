//! How much was compared, in words.

ghost use Rattle.std.specs.Prelude.{◌≡◌, ◌++◌, OnOk, codes, decimal, map};
ghost use Rattle.net_model.specs.Rows.{plain_circuit};
ghost use Rattle.view_page.specs.Counts.{compared_text, counted, counts_text, device_count};
ghost use Rattle.view_page.specs.Counts.{layout_text, net_count, pin_count, schematic_text};
ghost use Rattle.view_page.specs.Counts.{warning_text};

use net_model::Circuit;
use std::alloc::{AllocError, Global};

// How many devices, nets and pins circuits have.
#[derive(Clone, Copy)]
struct Counts {
    devices: u128,
    nets: u128,
    pins: u128,
}

// Counts what circuits have, each circuit once.
fn count(circuits: &[Circuit]) -> Counts
    ensures devices { result.devices ≡ device_count (map plain_circuit circuits.now) }
    ensures nets { result.nets ≡ net_count (map plain_circuit circuits.now) }
    ensures pins { result.pins ≡ pin_count (map plain_circuit circuits.now) }
{
    let mut counts = Counts {
        devices: 0,
        nets: 0,
        pins: 0,
    };
    let _ = circuits.len();
    let mut rest = circuits;
    'circuits: while let [circuit, more @ ..] = rest {
        counts.devices += circuit.devices.len() as u128;
        counts.nets += circuit.nets.len() as u128;
        counts.pins += circuit.pins.len() as u128;
        rest = more;
    }
    counts
}

fn push_counted(
    alloc: Global,
    out: &mut Vec<u8>,
    word: &[u8],
    count: u128,
) -> Result<(), AllocError>
    ensures { OnOk result (out.new.items ≡ out.old.items ++ counted word.now count) }
{
    let digits = count.to_string(alloc)?.into_bytes();
    out.extend_from_slice(word)?;
    out.extend_from_slice(&digits)
}

fn push_counts(alloc: Global, out: &mut Vec<u8>, circuits: &[Circuit]) -> Result<(), AllocError>
    ensures { OnOk result (out.new.items
        ≡ out.old.items ++ counts_text (map plain_circuit circuits.now)) }
{
    let counts = count(circuits);
    push_counted(alloc, out, b"devices ", counts.devices)?;
    push_counted(alloc, out, b", nets ", counts.nets)?;
    push_counted(alloc, out, b", pins ", counts.pins)
}

fn push_warning(out: &mut Vec<u8>, lefts: &[Circuit], rights: &[Circuit]) -> Result<(), AllocError>
    ensures { OnOk result (out.new.items ≡ out.old.items
        ++ warning_text (map plain_circuit lefts.now) (map plain_circuit rights.now)) }
{
    if count(lefts).devices == 0 && count(rights).devices == 0 {
        out.extend_from_slice(
            b"Warning: no device was compared, so opens and shorts aren't seen.\n",
        )
    } else {
        Ok(())
    }
}

fn push_layout(alloc: Global, out: &mut Vec<u8>, circuits: &[Circuit]) -> Result<(), AllocError>
    ensures { OnOk result (out.new.items
        ≡ out.old.items ++ layout_text (map plain_circuit circuits.now)) }
{
    out.extend_from_slice(b"Compared: ")?;
    push_counts(alloc, out, circuits)?;
    out.extend_from_slice(b" of the layout; ")
}

fn push_schematic(alloc: Global, out: &mut Vec<u8>, circuits: &[Circuit]) -> Result<(), AllocError>
    ensures { OnOk result (out.new.items
        ≡ out.old.items ++ schematic_text (map plain_circuit circuits.now)) }
{
    push_counts(alloc, out, circuits)?;
    out.extend_from_slice(b" of the schematic.\n")
}

/// Appends the line of what was compared, these circuits of the layout and those of the schematic;
/// and a warning where no device was. Linear in the circuits. The error is want of memory.
pub fn push_compared(
    alloc: Global,
    out: &mut Vec<u8>,
    lefts: &[Circuit],
    rights: &[Circuit],
) -> Result<(), AllocError>
    ensures { OnOk result (out.new.items ≡ out.old.items
        ++ compared_text (map plain_circuit lefts.now) (map plain_circuit rights.now)) }
{
    push_layout(alloc, out, lefts)?;
    push_schematic(alloc, out, rights)?;
    push_warning(out, lefts, rights)
}
