//! Rows that layout and schematic share.

ghost use Rattle.std.specs.Prelude.{◌≡◌, ◌++◌, ◌∷◌, [], OnOk, codes, decimal, get_or};
ghost use Rattle.view_words.specs.Words.{word};
ghost use Rattle.view_netlist.specs.Rows.{call_pin_texts, name_text, pin_text, pin_texts};
ghost use Rattle.view_netlist.specs.Rows.{place_text};

use list_base::number;
use net_names::Name;
use std::alloc::{AllocError, Global};
use view_words::push_word;

/// Appends the number of a net, device or call: they count from 1.
pub fn push_place(alloc: Global, out: &mut Vec<u8>, k: u32) -> Result<(), AllocError>
    ensures { OnOk result (out.new.items ≡ out.old.items ++ place_text k) }
{
    let place = u64::from(k) + 1;
    let digits = place.to_string(alloc)?.into_bytes();
    out.extend_from_slice(&digits)
}

/// The name of a number; past the last it is empty.
pub fn name_at(names: &[Name], n: u32) -> &[u8]
    ensures { result.now ≡ get_or names.now n [] }
{
    match names.get(n as usize) {
        Some(name) => name.bytes(),
        None => &[],
    }
}

/// Appends the word of the name of a number.
pub fn push_word_of(out: &mut Vec<u8>, names: &[Name], n: u32) -> Result<(), AllocError>
    ensures { OnOk result (out.new.items ≡ out.old.items ++ word (get_or names.now n [])) }
{
    push_word(out, name_at(names, n))
}

/// Appends the name of a net, by its number.
pub fn push_name_of(out: &mut Vec<u8>, names: &[Name], n: u32) -> Result<(), AllocError>
    ensures { OnOk result (out.new.items ≡ out.old.items ++ name_text names.now n) }
{
    out.extend_from_slice(b" I(")?;
    push_word_of(out, names, n)?;
    out.extend_from_slice(b")")
}

fn push_pin(alloc: Global, out: &mut Vec<u8>, names: &[Name], n: u32) -> Result<(), AllocError>
    ensures { OnOk result (out.new.items ≡ out.old.items ++ pin_text names.now n) }
{
    out.extend_from_slice(b"\n  P(")?;
    push_place(alloc, out, n)?;
    push_name_of(out, names, n)?;
    out.extend_from_slice(b")")
}

/// Appends a row for each pin, by the nets' names. Linear in the text.
pub fn push_pins(
    alloc: Global,
    out: &mut Vec<u8>,
    names: &[Name],
    pins: &[u32],
) -> Result<(), AllocError>
    ensures { OnOk result (out.new.items ≡ out.old.items ++ pin_texts names.now pins.now) }
{
    let mut rest = pins;
    'pins: while let [n, more @ ..] = rest {
        push_pin(alloc, out, names, *n)?;
        rest = more;
    }
    Ok(())
}

fn push_call_pin(alloc: Global, out: &mut Vec<u8>, k: u32, n: u32) -> Result<(), AllocError>
    ensures { OnOk result (out.new.items ≡ out.old.items
        ++ (codes " P(" ++ (decimal k ++ (0x20 ∷ (place_text n ++ codes ")"))))) }
{
    let digits = k.to_string(alloc)?.into_bytes();
    out.extend_from_slice(b" P(")?;
    out.extend_from_slice(&digits)?;
    out.extend_from_slice(b" ")?;
    push_place(alloc, out, n)?;
    out.extend_from_slice(b")")
}

/// Appends the nets at the pins of a call. Linear in the text. 2^32 pins are refused.
pub fn push_call_pins(alloc: Global, out: &mut Vec<u8>, nets: &[u32]) -> Result<(), AllocError>
    ensures { OnOk result (out.new.items ≡ out.old.items ++ call_pin_texts 0 nets.now) }
{
    number(nets.len())?;
    let mut k = 0;
    let mut rest = nets;
    'pins: while let [n, more @ ..] = rest {
        push_call_pin(alloc, out, k, *n)?;
        k += 1;
        rest = more;
    }
    Ok(())
}
