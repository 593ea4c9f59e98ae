//! The lines of bad gates.
ghost use Rattle.std.specs.Prelude.{◌≡◌, ◌<◌, ◌++◌, OnOk, length};
ghost use Rattle.std.specs.List.{All};
ghost use Rattle.cell_graph.specs.Linked.{cell_at};
ghost use Rattle.flat_layout.specs.declared.cause.GateCause.TheVariants.{Groups};
ghost use Rattle.match_report.specs.Gates.{cause_word, gate_line, gate_lines, name_of};
ghost use Rattle.match_report.specs.Gates.{square_words};

use crate::words::push_name;
use cell_graph::Design;
use deep_tables::{BadGate, GateCause};
use geo_base::Square;
use net_names::Name;
use std::alloc::{AllocError, Global};

fn push_square(alloc: Global, out: &mut Vec<u8>, square: Square) -> Result<(), AllocError>
    ensures { OnOk result (out.new.items ≡ out.old.items ++ square_words square) }
{
    let x = square.x.to_string(alloc)?.into_bytes();
    let y = square.y.to_string(alloc)?.into_bytes();
    out.push(b' ')?;
    out.extend_from_slice(&x)?;
    out.push(b' ')?;
    out.extend_from_slice(&y)
}

fn push_groups(alloc: Global, out: &mut Vec<u8>, n: u128) -> Result<(), AllocError>
    ensures { OnOk result (out.new.items ≡ out.old.items ++ cause_word (Groups n)) }
{
    let digits = n.to_string(alloc)?.into_bytes();
    out.extend_from_slice(b" groups-")?;
    out.extend_from_slice(&digits)
}

fn push_cause(alloc: Global, out: &mut Vec<u8>, cause: GateCause) -> Result<(), AllocError>
    ensures { OnOk result (out.new.items ≡ out.old.items ++ cause_word cause) }
{
    match cause {
        GateCause::Groups(n) => push_groups(alloc, out, n),
        GateCause::OffGate => out.extend_from_slice(b" off-gate"),
        GateCause::OffSd => out.extend_from_slice(b" off-sd"),
        GateCause::NoBulk => out.extend_from_slice(b" no-bulk"),
        GateCause::NoLength => out.extend_from_slice(b" no-length"),
    }
}

fn cell_name(design: &Design, cell: u32) -> &Name
    requires { cell < length design.now.cells }
    ensures { result.now ≡ name_of (cell_at design.now cell) }
{
    design.name(cell)
}

fn push_gate(
    alloc: Global,
    out: &mut Vec<u8>,
    design: &Design,
    gate: &BadGate,
) -> Result<(), AllocError>
    requires { gate.now.cell < length design.now.cells }
    ensures { OnOk result (out.new.items ≡ out.old.items ++ gate_line design.now gate.now) }
{
    out.extend_from_slice(b"gate")?;
    push_name(alloc, out, cell_name(design, gate.cell))?;
    push_name(alloc, out, &gate.class)?;
    push_square(alloc, out, gate.least)?;
    push_cause(alloc, out, gate.cause)?;
    out.push(b'\n')?;
    Ok(())
}

/// A line for each bad gate, in the list's order.
pub fn push_gates(
    alloc: Global,
    out: &mut Vec<u8>,
    design: &Design,
    bad: &[BadGate],
) -> Result<(), AllocError>
    requires { All (λ x. x.cell < length design.now.cells) bad.now }
    ensures { OnOk result (out.new.items ≡ out.old.items ++ gate_lines design.now bad.now) }
{
    let mut rest = bad;
    'gates: while let [gate, more @ ..] = rest {
        push_gate(alloc, out, design, gate)?;
        rest = more;
    }
    Ok(())
}
