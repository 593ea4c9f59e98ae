//! The whole report.
ghost use Rattle.std.specs.Prelude.{◌≡◌, ◌<◌, ◌++◌, IfOk, OnOk, bytes_eq, length, map};
ghost use Rattle.std.specs.List.{All, position_or_len};
ghost use Rattle.match_report.specs.Report.{again_line, blocks, partner_word, report};
ghost use Rattle.net_model.specs.Rows.{plain_circuit};

use crate::gates::push_gates;
use crate::pairs::{push_circuit, push_pairs};
use crate::words::{push_name, push_number};
use cell_graph::Design;
use deep_tables::BadGate;
use job_graph::Results;
use match_types::Answer;
use net_model::{Circuit, Netlist};
use net_names::Name;
use std::alloc::{AllocError, Global};

/// What a comparison came to: the circuits of the layout and of the schematic, paired by number,
/// and the answer of each pair; where they were merged again, of the circuits with each group of
/// alike transistors as one once more.
#[derive(Drop)]
pub struct Compared {
    pub left: Netlist,
    pub right: Netlist,
    pub merged_again: bool,
    pub answers: Results<Answer>,
}

// The number of the first circuit of this name, or the number of circuits.
fn number_of(circuits: &[Circuit], name: &Name) -> usize
    ensures { result ≡ position_or_len (λ c. bytes_eq name.now c.name)
        (map plain_circuit circuits.now) }
{
    let mut k = 0;
    let mut rest = circuits;
    'circuits: while let [circuit, more @ ..] = rest {
        if name.bytes() == circuit.name.bytes() {
            return k;
        }
        k += 1;
        rest = more;
    }
    k
}

fn push_partner(
    alloc: Global,
    out: &mut Vec<u8>,
    top: &Name,
    compared: &Option<Compared>,
) -> Result<(), AllocError>
    ensures { OnOk result (out.new.items ≡ out.old.items ++ partner_word top.now compared.now) }
{
    match compared {
        Some(found) => {
            let k = number_of(&found.left.circuits, top);
            push_circuit(alloc, out, &found.right.circuits, k)
        }
        None => out.extend_from_slice(b" none"),
    }
}

/// The line of a comparison whose circuits were merged again; no line of another.
pub fn push_again(out: &mut Vec<u8>, merged_again: bool) -> Result<(), AllocError>
    ensures { OnOk result (out.new.items ≡ out.old.items ++ again_line merged_again) }
{
    if merged_again {
        out.extend_from_slice(b"combined again\n")?;
    }
    Ok(())
}

fn push_blocks(
    alloc: Global,
    out: &mut Vec<u8>,
    compared: &Option<Compared>,
) -> Result<(), AllocError>
    ensures { OnOk result (out.new.items ≡ out.old.items ++ blocks compared.now) }
{
    match compared {
        Some(found) => {
            let Compared {
                left,
                right,
                merged_again,
                answers,
            } = found;
            push_again(out, *merged_again)?;
            push_pairs(alloc, out, &left.circuits, &right.circuits, answers)
        }
        None => Ok(()),
    }
}

/// The report of a comparison as a text: the line `lvs report 1`; the layout's top and its partner
/// in the schematic, or `none`; how many gates are bad, and a line for each with its cell, class,
/// least square in database units, and cause; the lines of the pairs that were taken apart; the
/// line `combined again` where the circuits were merged again; a block for each pair of circuits
/// with its answer and what shows it; `end`. Nets, devices and calls are numbered from 1, names are
/// escaped. Linear in the text. An `Err` is want of memory.
pub fn report_text(
    alloc: Global,
    top: &Name,
    bad: &[BadGate],
    design: &Design,
    apart: &[u8],
    compared: &Option<Compared>,
) -> Result<Vec<u8>, AllocError>
    requires cells { All (λ x. x.cell < length design.now.cells) bad.now }
    ensures { IfOk result (λ text. text.items
        ≡ report design.now top.now bad.now apart.now compared.now) }
{
    let mut out = Vec::new(alloc);
    out.extend_from_slice(b"lvs report 1\ntop")?;
    push_name(alloc, &mut out, top)?;
    push_partner(alloc, &mut out, top, compared)?;
    out.extend_from_slice(b"\nbad")?;
    push_number(alloc, &mut out, bad.len() as u64)?;
    out.push(b'\n')?;
    push_gates(alloc, &mut out, design, bad)?;
    out.extend_from_slice(apart)?;
    push_blocks(alloc, &mut out, compared)?;
    out.extend_from_slice(b"end\n")?;
    Ok(out)
}
