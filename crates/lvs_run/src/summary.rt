//! The summary line of each command, and that of each refusal.

ghost use Rattle.std.specs.Prelude.{◌≡◌, ◌++◌, ◌∷◌, [], ℕ, List, length, IfOk, OnOk, string_bytes};
ghost use Rattle.std.specs.Fmt.{decimal};
ghost use Rattle.net_names.specs.Escapes.{escaped};
ghost use Rattle.gds_layout.specs.declared.layout.LayoutFault.TheVariants.{Gds};
ghost use Rattle.net_model.specs.Rows.{plain_netlist};
ghost use Rattle.lvs_run.specs.Answers.{Compared, Extracted, Layers, nothing, refused};
ghost use Rattle.lvs_run.specs.Answers.{RefusedLayout, RefusedSchematic};
ghost use Rattle.lvs_run.specs.Answers.{RefusedRules};
ghost use Rattle.lvs_run.specs.Lines.{counts_line, layout_place, line_of, link_place, rule_place};
ghost use Rattle.lvs_run.specs.Lines.{schematic_place, value_number, verdict_word};

use crate::output::Verdict;
use crate::status::Refusal;
use cell_graph::LinkFault;
use fixed_num::ValueFault;
use gds_elements::GdsFault;
use gds_layout::LayoutFault;
use net_names::{Name, escape};
use netlist_file::{Extraction, NetlistFile};
use rule_text::RuleFault;
use shapes_file::Shapes;
use spice_rows::SpiceFault;
use std::alloc::{AllocError, Global};

// A line of two words and a path, whose escapes are those of SPICE names.
fn path_line(alloc: Global, words: &[u8], path: &str) -> Result<Vec<u8>, AllocError>
    ensures { IfOk result (λ line. line.items ≡ words.now ++ escaped path.now ++ 10 ∷ []) }
{
    let mut line = words.to_vec(alloc)?;
    if let Some(name) = Name::from_bytes(alloc, path.as_bytes())? {
        let text = escape(alloc, &name)?;
        line.extend_from_slice(text.as_slice())?;
    }
    line.push(b'\n')?;
    Ok(line)
}

// What stands behind `refused rules`: the fault's number, and its line or its offset.
fn rule_place(alloc: Global, fault: RuleFault) -> Result<String, AllocError>
    ensures { IfOk result (λ text. string_bytes text ≡ rule_place fault) }
{
    match fault {
        RuleFault::UnknownStatement(line) => format!(in alloc; "30 line {line}"),
        RuleFault::BadForm(line) => format!(in alloc; "31 line {line}"),
        RuleFault::UnknownName(line) => format!(in alloc; "32 line {line}"),
        RuleFault::NameTwice(line) => format!(in alloc; "33 line {line}"),
        RuleFault::NotConductor(line) => format!(in alloc; "34 line {line}"),
        RuleFault::TooManyLayers(line) => format!(in alloc; "35 line {line}"),
        RuleFault::NotText(offset) => format!(in alloc; "36 offset {offset}"),
        RuleFault::NoMemory => format!(in alloc; ""),
    }
}

// The line of a rule file's fault.
fn rules_line(alloc: Global, fault: RuleFault) -> Result<Vec<u8>, AllocError>
    ensures { IfOk result (λ line. line.items ≡ line_of (RefusedRules fault) nothing) }
{
    let place = rule_place(alloc, fault)?;
    let mut line = b"refused rules ".to_vec(alloc)?;
    line.extend_from_slice(place.as_bytes())?;
    line.push(b'\n')?;
    Ok(line)
}

// Adds words and a number.
fn push_number(
    alloc: Global,
    line: &mut Vec<u8>,
    words: &[u8],
    number: u64,
) -> Result<(), AllocError>
    ensures { OnOk result (line.new.items ≡ line.old.items ++ words.now ++ decimal number) }
{
    let digits = format!(in alloc; "{number}")?;
    line.extend_from_slice(words)?;
    line.extend_from_slice(digits.as_bytes())
}

// Adds words and a cell's name, whose escapes are those of SPICE names.
fn push_name(alloc: Global, line: &mut Vec<u8>, words: &[u8], name: &Name) -> Result<(), AllocError>
    ensures { OnOk result (line.new.items ≡ line.old.items ++ words.now ++ escaped name.now) }
{
    let text = escape(alloc, name)?;
    line.extend_from_slice(words)?;
    line.extend_from_slice(text.as_slice())
}

// Adds the number of a fault of the cells' names and references, and the cells that it names.
fn push_link(alloc: Global, line: &mut Vec<u8>, fault: &LinkFault) -> Result<(), AllocError>
    ensures { OnOk result (line.new.items ≡ line.old.items ++ link_place fault.now) }
{
    match fault {
        LinkFault::DuplicateCell(name) => push_name(alloc, line, b"20 cell ", name),
        LinkFault::NoSuchCell(name) => push_name(alloc, line, b"21 cell ", name),
        LinkFault::Cycle(name) => push_name(alloc, line, b"22 cell ", name),
        LinkFault::TopUnclear(one, other) => {
            push_name(alloc, line, b"23 cell ", one)?;
            push_name(alloc, line, b" cell ", other)
        }
        LinkFault::NoTop => line.extend_from_slice(b"24"),
        LinkFault::CoordinateRange(name) => push_name(alloc, line, b"25 cell ", name),
        LinkFault::TooManyCells => line.extend_from_slice(b"26"),
        LinkFault::TooDeep(name) => push_name(alloc, line, b"27 cell ", name),
        LinkFault::NoMemory => Ok(()),
    }
}

// Adds the number of the first record that doesn't pass, its place and its offset.
fn push_record(alloc: Global, line: &mut Vec<u8>, fault: &GdsFault) -> Result<(), AllocError>
    ensures { OnOk result (line.new.items ≡ line.old.items ++ layout_place (Gds fault.now)) }
{
    let GdsFault::Bad {
        number,
        index,
        offset,
    } = fault
    else {
        return Ok(());
    };
    push_number(alloc, line, b"", u64::from(*number))?;
    push_number(alloc, line, b" record ", *index)?;
    push_number(alloc, line, b" offset ", *offset)
}

// The line of a layout's fault.
fn layout_line(alloc: Global, fault: &LayoutFault) -> Result<Vec<u8>, AllocError>
    ensures { IfOk result (λ line. line.items ≡ line_of (RefusedLayout fault.now) nothing) }
{
    let mut line = b"refused layout ".to_vec(alloc)?;
    match fault {
        LayoutFault::Gds(fault) => push_record(alloc, &mut line, fault)?,
        LayoutFault::Link(fault) => push_link(alloc, &mut line, fault)?,
        LayoutFault::NoMemory => {}
    }
    line.push(b'\n')?;
    Ok(line)
}

// Adds the number of a schematic's fault, its line or the circuit that it names, and of a value why
// it is none.
fn push_card(alloc: Global, line: &mut Vec<u8>, fault: &SpiceFault) -> Result<(), AllocError>
    ensures { OnOk result (line.new.items ≡ line.old.items ++ schematic_place fault.now) }
{
    match fault {
        SpiceFault::NoSuchCircuit(at) => push_number(alloc, line, b"41 line ", *at),
        SpiceFault::CircuitCycle(name) => push_name(alloc, line, b"42 circuit ", name),
        SpiceFault::PinCount(at) => push_number(alloc, line, b"43 line ", *at),
        SpiceFault::NameClash(at) => push_number(alloc, line, b"44 line ", *at),
        SpiceFault::UnknownCard(at) => push_number(alloc, line, b"50 line ", *at),
        SpiceFault::BadLine(at) => push_number(alloc, line, b"51 line ", *at),
        SpiceFault::ParameterRefused(at) => push_number(alloc, line, b"52 line ", *at),
        SpiceFault::Value(at, fault) => {
            push_number(alloc, line, b"53 line ", *at)?;
            push_number(alloc, line, b" value ", value_number(*fault))
        }
        SpiceFault::NotClosed(at) => push_number(alloc, line, b"54 line ", *at),
        SpiceFault::NoMemory => Ok(()),
    }
}

fn value_number(fault: ValueFault) -> u64
    ensures { result ≡ value_number fault }
{
    u64::from(fault.number())
}

// The line of a schematic's fault.
fn schematic_line(alloc: Global, fault: &SpiceFault) -> Result<Vec<u8>, AllocError>
    ensures { IfOk result (λ line. line.items ≡ line_of (RefusedSchematic fault.now) nothing) }
{
    let mut line = b"refused schematic ".to_vec(alloc)?;
    push_card(alloc, &mut line, fault)?;
    line.push(b'\n')?;
    Ok(line)
}

// A line of some words and a name.
fn name_line(alloc: Global, words: &[u8], name: &Name) -> Result<Vec<u8>, AllocError>
    ensures { IfOk result (λ line. line.items ≡ words.now ++ escaped name.now ++ 10 ∷ []) }
{
    let mut line = words.to_vec(alloc)?;
    let text = escape(alloc, name)?;
    line.extend_from_slice(text.as_slice())?;
    line.push(b'\n')?;
    Ok(line)
}

/// The line that a refusal prints, with its end. An `Err` is want of memory.
pub fn refusal_line(alloc: Global, why: &Refusal) -> Result<Vec<u8>, AllocError>
    ensures { IfOk result (λ line. line.items ≡ line_of (refused why.now) nothing) }
{
    match why {
        Refusal::Words => b"refused words\n".to_vec(alloc),
        Refusal::SamePath(path) => path_line(alloc, b"refused same ", path.as_str()),
        Refusal::Absent(path) => path_line(alloc, b"refused absent ", path.as_str()),
        Refusal::TooLong(path) => path_line(alloc, b"refused long ", path.as_str()),
        Refusal::Rules(fault) => rules_line(alloc, *fault),
        Refusal::Layout(fault) => layout_line(alloc, fault),
        Refusal::Schematic(fault) => schematic_line(alloc, fault),
        Refusal::Wide(name) => name_line(alloc, b"refused layout 28 cell ", name),
        Refusal::MergedLayout(name) => name_line(alloc, b"refused merge layout ", name),
        Refusal::MergedSchematic(name) => name_line(alloc, b"refused merge schematic ", name),
    }
}

/// The line of `run` and `make`, with what the comparison came to, the cells that the layout's top
/// reaches, the netlist's circuits, the compared pairs and the bad gates.
pub fn compared_line(
    alloc: Global,
    verdict: Verdict,
    cells: u32,
    found: &NetlistFile,
    pairs: u32,
) -> Result<Vec<u8>, AllocError>
    ensures { IfOk result (λ line. line.items ≡ counts_line (verdict_word verdict) (Compared
        cells (length (plain_netlist found.now.netlist).circuits) pairs
        (length found.now.bad.items))) }
{
    let circuits = found.netlist.circuits.len() as u64;
    let mut line = verdict.word().to_vec(alloc)?;
    push_number(alloc, &mut line, b" cells ", u64::from(cells))?;
    push_number(alloc, &mut line, b" circuits ", circuits)?;
    push_number(alloc, &mut line, b" pairs ", u64::from(pairs))?;
    push_number(alloc, &mut line, b" bad ", found.bad.len() as u64)?;
    line.push(b'\n')?;
    Ok(line)
}

/// The line of `extract`, with the cells of the shapes file, the netlist's circuits and the bad
/// gates.
pub fn extracted_line(alloc: Global, found: &Extraction) -> Result<Vec<u8>, AllocError>
    ensures { IfOk result (λ line. (verdict : List ℕ) → line.items ≡ counts_line verdict (Extracted
        found.now.shapes.cells (length (plain_netlist found.now.file.netlist).circuits)
        (length found.now.file.bad.items))) }
{
    let circuits = found.file.netlist.circuits.len() as u64;
    let mut line = Vec::new(alloc);
    push_number(
        alloc,
        &mut line,
        b"extracted cells ",
        u64::from(found.shapes.cells),
    )?;
    push_number(alloc, &mut line, b" circuits ", circuits)?;
    push_number(alloc, &mut line, b" bad ", found.file.bad.len() as u64)?;
    line.push(b'\n')?;
    Ok(line)
}

/// The line of `shapes`, which wrote so many cells and rectangles.
pub fn layers_line(alloc: Global, shapes: &Shapes) -> Result<Vec<u8>, AllocError>
    ensures { IfOk result (λ line. (verdict : List ℕ) → line.items ≡ counts_line verdict (Layers
        shapes.now.cells shapes.now.rectangles)) }
{
    let mut line = Vec::new(alloc);
    push_number(alloc, &mut line, b"shapes cells ", u64::from(shapes.cells))?;
    push_number(alloc, &mut line, b" rectangles ", shapes.rectangles)?;
    line.push(b'\n')?;
    Ok(line)
}
