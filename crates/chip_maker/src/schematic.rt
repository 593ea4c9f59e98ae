//! The netlist of a chip.

ghost use Rattle.std.specs.Prelude.{◌≡◌, ◌<◌, ◌≤◌, ◌++◌, IfOk, OnOk, length};
ghost use Rattle.chip_maker.specs.Inverters.{by_number, kind_name};
ghost use Rattle.chip_maker.specs.Schematic.{inverter_line, inverter_text, net_before, net_behind};
ghost use Rattle.chip_maker.specs.Schematic.{netlist_of, pin_words, row_line, row_text, top_text};

use crate::inverters::{Kind, Row};
use crate::names::{kind_name, push_numbered};
use std::alloc::{AllocError, Global};

const PLAIN: &[u8] = b".SUBCKT INV A Y VDD VSS
M1 Y A VDD VDD PMOS L=0.1U W=1U
M2 Y A VSS VSS NMOS L=0.1U W=0.5U
.ENDS INV
";

const WIDE: &[u8] = b".SUBCKT INV2 A Y VDD VSS
M1 Y A VDD VDD PMOS L=0.1U W=1U
M2 Y A VSS VSS NMOS L=0.1U W=1U
.ENDS INV2
";

fn inverter_text(kind: Kind) -> &'static [u8]
    ensures { result.now ≡ inverter_text kind }
{
    match kind {
        Kind::Plain => PLAIN,
        Kind::Wide => WIDE,
    }
}

fn push_kind_name(out: &mut Vec<u8>, kind: Kind) -> Result<(), AllocError>
    ensures { OnOk result (out.new.items ≡ out.old.items ++ kind_name kind) }
{
    out.extend_from_slice(kind_name(kind))
}

fn push_net_before(alloc: Global, out: &mut Vec<u8>, j: u32) -> Result<(), AllocError>
    ensures { OnOk result (out.new.items ≡ out.old.items ++ net_before j) }
{
    if j == 0 {
        return out.extend_from_slice(b"IN");
    }
    push_numbered(alloc, out, b"N", j)
}

fn push_net_behind(alloc: Global, out: &mut Vec<u8>, m: u32, j: u32) -> Result<(), AllocError>
    requires { j < m }
    ensures { OnOk result (out.new.items ≡ out.old.items ++ net_behind m j) }
{
    if j + 1 == m {
        return out.extend_from_slice(b"OUT");
    }
    push_numbered(alloc, out, b"N", j + 1)
}

fn push_inverter(
    alloc: Global,
    out: &mut Vec<u8>,
    m: u32,
    j: u32,
    kind: Kind,
) -> Result<(), AllocError>
    requires { j < m }
    ensures { OnOk result (out.new.items ≡ out.old.items ++ inverter_line m j kind) }
{
    push_numbered(alloc, out, b"X", j + 1)?;
    out.extend_from_slice(b" ")?;
    push_net_before(alloc, out, j)?;
    out.extend_from_slice(b" ")?;
    push_net_behind(alloc, out, m, j)?;
    out.extend_from_slice(b" VDD VSS ")?;
    push_kind_name(out, kind)?;
    out.push(b'\n')?;
    Ok(())
}

fn push_inverters(alloc: Global, out: &mut Vec<u8>, row: &[Kind]) -> Result<(), AllocError>
    requires { length row.now ≤ 100 }
    ensures { OnOk result (out.new.items ≡ out.old.items
        ++ by_number (inverter_line (length row.now)) 0 row.now) }
{
    let m = row.len() as u32;
    let mut j = 0;
    let mut rest = row;
    'inverters: while let [kind, more @ ..] = rest {
        push_inverter(alloc, out, m, j, *kind)?;
        j += 1;
        rest = more;
    }
    Ok(())
}

fn push_row(alloc: Global, out: &mut Vec<u8>, i: u32, row: &Row) -> Result<(), AllocError>
    ensures { OnOk result (out.new.items ≡ out.old.items ++ row_text i row.now) }
{
    out.extend_from_slice(b".SUBCKT ")?;
    push_numbered(alloc, out, b"ROW", i)?;
    out.extend_from_slice(b" IN OUT VDD VSS\n")?;
    push_inverters(alloc, out, row.kinds())?;
    out.extend_from_slice(b".ENDS ")?;
    push_numbered(alloc, out, b"ROW", i)?;
    out.push(b'\n')?;
    Ok(())
}

fn push_rows(alloc: Global, out: &mut Vec<u8>, rows: &[Row]) -> Result<(), AllocError>
    requires { length rows.now ≤ 1000 }
    ensures { OnOk result (out.new.items ≡ out.old.items ++ by_number row_text 0 rows.now) }
{
    let mut i = 0;
    let mut rest = rows;
    'rows: while let [row, more @ ..] = rest {
        push_row(alloc, out, i, row)?;
        i += 1;
        rest = more;
    }
    Ok(())
}

fn push_pins(alloc: Global, out: &mut Vec<u8>, i: u32) -> Result<(), AllocError>
    ensures { OnOk result (out.new.items ≡ out.old.items ++ pin_words i) }
{
    push_numbered(alloc, out, b"I", i)?;
    out.extend_from_slice(b" ")?;
    push_numbered(alloc, out, b"O", i)?;
    out.extend_from_slice(b" ")
}

fn push_all_pins(alloc: Global, out: &mut Vec<u8>, rows: &[Row]) -> Result<(), AllocError>
    requires { length rows.now ≤ 1000 }
    ensures { OnOk result (out.new.items ≡ out.old.items
        ++ by_number (λ i row. pin_words i) 0 rows.now) }
{
    let mut i = 0;
    let mut rest = rows;
    'pins: while let [_, more @ ..] = rest {
        push_pins(alloc, out, i)?;
        i += 1;
        rest = more;
    }
    Ok(())
}

fn push_call(alloc: Global, out: &mut Vec<u8>, i: u32) -> Result<(), AllocError>
    requires { i < 1000 }
    ensures { OnOk result (out.new.items ≡ out.old.items ++ row_line i) }
{
    push_numbered(alloc, out, b"X", i + 1)?;
    out.extend_from_slice(b" ")?;
    push_pins(alloc, out, i)?;
    out.extend_from_slice(b"VDD VSS ")?;
    push_numbered(alloc, out, b"ROW", i)?;
    out.push(b'\n')?;
    Ok(())
}

fn push_calls(alloc: Global, out: &mut Vec<u8>, rows: &[Row]) -> Result<(), AllocError>
    requires { length rows.now ≤ 1000 }
    ensures { OnOk result (out.new.items ≡ out.old.items
        ++ by_number (λ i row. row_line i) 0 rows.now) }
{
    let mut i = 0;
    let mut rest = rows;
    'calls: while let [_, more @ ..] = rest {
        push_call(alloc, out, i)?;
        i += 1;
        rest = more;
    }
    Ok(())
}

fn push_top(alloc: Global, out: &mut Vec<u8>, rows: &[Row]) -> Result<(), AllocError>
    requires { length rows.now ≤ 1000 }
    ensures { OnOk result (out.new.items ≡ out.old.items ++ top_text rows.now) }
{
    out.extend_from_slice(b".SUBCKT TOP ")?;
    push_all_pins(alloc, out, rows)?;
    out.extend_from_slice(b"VDD VSS\n")?;
    push_calls(alloc, out, rows)?;
    out.extend_from_slice(b".ENDS TOP\n")?;
    Ok(())
}

/// The netlist of a chip of these rows, at most 1,000.
pub fn netlist_text(alloc: Global, rows: &[Row]) -> Result<Vec<u8>, AllocError>
    requires { length rows.now ≤ 1000 }
    ensures { IfOk result (λ text. text.items ≡ netlist_of rows.now) }
{
    let mut out = Vec::new(alloc);
    out.extend_from_slice(inverter_text(Kind::Plain))?;
    out.extend_from_slice(inverter_text(Kind::Wide))?;
    push_rows(alloc, &mut out, rows)?;
    push_top(alloc, &mut out, rows)?;
    out.extend_from_slice(b".END\n")?;
    Ok(out)
}
