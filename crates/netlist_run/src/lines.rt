//! The lines of refusals.

ghost use Rattle.std.specs.Prelude.{◌≡◌, ◌++◌, ◌-◌, IfOk, codes, slice_index_or};
ghost use Rattle.std.specs.Fmt.{decimal};
ghost use Rattle.std.specs.Option.{option_copied};
ghost use Rattle.netlist_run.specs.Lines.{Says, SaysJoin, SaysLoad, SaysSpice, SaysTurn};
ghost use Rattle.netlist_run.specs.Lines.{StopsWith};
ghost use Rattle.netlist_run.specs.Lines.{fault_line, fault_number, no_top_line, refusal};
ghost use Rattle.netlist_run.specs.Lines.{turn_line, turn_text, why_text};

use crate::place::{origin_of, push_place};
use crate::status::Stop;
use netlist_join::{Failed, File, JoinFault, Origin, Why};
use netlist_turn::TurnFault;
use spice_rows::SpiceFault;
use std::alloc::{AllocError, Global};

/// A line of two texts.
pub fn line_of(alloc: Global, words: &[u8], name: &[u8]) -> Result<Vec<u8>, AllocError>
    ensures { IfOk result (λ l. l.items ≡ words.now ++ (name.now ++ codes "\n")) }
{
    let mut out = words.to_vec(alloc)?;
    out.extend_from_slice(name)?;
    out.extend_from_slice(b"\n")?;
    Ok(out)
}

// `refused PATH line L WHY`
fn refusal(alloc: Global, files: &[File], at: Origin, why: &[u8]) -> Result<Vec<u8>, AllocError>
    ensures { IfOk result (λ l. l.items ≡ refusal files.now at why.now) }
{
    let mut out = b"refused ".to_vec(alloc)?;
    push_place(alloc, &mut out, files, at)?;
    out.extend_from_slice(why)?;
    out.extend_from_slice(b"\n")?;
    Ok(out)
}

// A refusal with this line.
fn stop_of(line: Result<Vec<u8>, AllocError>) -> Stop
    ensures { StopsWith line result }
{
    match line {
        Ok(line) => Stop::Refused(line),
        Err(_) => Stop::NoMemory,
    }
}

fn stop_at(alloc: Global, files: &[File], at: Origin, why: &[u8]) -> Stop
    ensures { Says (refusal files.now at why.now) result }
{
    match refusal(alloc, files, at, why) {
        Ok(line) => Stop::Refused(line),
        Err(_) => Stop::NoMemory,
    }
}

fn why_text(why: Why) -> &'static [u8]
    ensures { result.now ≡ why_text why }
{
    match why {
        Why::Absent => b"names a file that isn't there",
        Why::Deep => b"files take in each other in a cycle, or too deep",
        Why::NoSection => b"the file hasn't the section",
        Why::BadForm => b"names no file",
        Why::OpenQuotes => b"quotes that don't end",
        Why::SplitText => b"a blank inside a value",
        Why::EarlyMore => b"a + with no card before it in its file",
    }
}

/// The refusal of a line that can't be joined.
pub fn join_stop(alloc: Global, files: &[File], fault: JoinFault) -> Stop
    ensures { SaysJoin files.now fault result }
{
    match fault {
        JoinFault::At(why, at) => stop_at(alloc, files, at, why_text(why)),
        JoinFault::NoMemory => Stop::NoMemory,
    }
}

fn turn_line(fault: &TurnFault) -> u64
    ensures { result ≡ turn_line fault.now }
{
    match fault {
        TurnFault::UnknownCard(line) => *line,
        TurnFault::BadForm(line) => *line,
        TurnFault::Shadowed(line) => *line,
        TurnFault::EarlyMore(line) => *line,
        TurnFault::Twice(line) => *line,
        TurnFault::Resized(line) => *line,
        TurnFault::BadScale(line) => *line,
        TurnFault::SecondScale(line) => *line,
        TurnFault::Unscaled(line) => *line,
        TurnFault::DeviceNets(line) => *line,
        TurnFault::OddCount(line) => *line,
        TurnFault::ListedTwice(line) => *line,
        TurnFault::OtherPins(line) => *line,
        TurnFault::NoMemory => 0,
    }
}

fn turn_text(fault: &TurnFault) -> &'static [u8]
    ensures { result.now ≡ turn_text fault.now }
{
    match fault {
        TurnFault::UnknownCard(_) => b"a card that can't be taken",
        TurnFault::BadForm(_) => b"the card has another form",
        TurnFault::Shadowed(_) => b"a circuit's parameter that .PARAM defines, too",
        TurnFault::EarlyMore(_) => b"a + with no card before it",
        TurnFault::Twice(_) => b"a second .PARAM of one name",
        TurnFault::Resized(_) => b"an option that changes sizes",
        TurnFault::BadScale(_) => b"a SCALE that is no number",
        TurnFault::SecondScale(_) => b"a second SCALE",
        TurnFault::Unscaled(_) => b"a size that the scale doesn't turn into one",
        TurnFault::DeviceNets(_) => b"a call of a device with another number of nets",
        TurnFault::OddCount(_) => {
            b"a number of devices that is said twice, or not twice the same"
        }
        TurnFault::ListedTwice(_) => b"a second .DEVICE of one name",
        TurnFault::OtherPins(_) => b"$PINS that aren't the circuit's pins",
        TurnFault::NoMemory => b"",
    }
}

/// The refusal of a card that can't be turned.
pub fn turn_stop(alloc: Global, files: &[File], origins: &[Origin], fault: TurnFault) -> Stop
    ensures { SaysTurn files.now origins.now fault result }
{
    if let TurnFault::NoMemory = fault {
        return Stop::NoMemory;
    }
    let at = origin_of(origins, turn_line(&fault));
    stop_at(alloc, files, at, turn_text(&fault))
}

/// The refusal where no circuit of the name that is asked for begins.
pub fn no_top_stop(alloc: Global, top: Option<&[u8]>) -> Stop
    ensures { Says (no_top_line (option_copied top.entry)) result }
{
    match top {
        None => Stop::Refused(Vec::new(alloc)),
        Some(name) => match line_of(alloc, b"refused no circuit ", name) {
            Ok(line) => Stop::Refused(line),
            Err(_) => Stop::NoMemory,
        },
    }
}

// The line of a fault of the written text.
fn fault_line(fault: &SpiceFault) -> u64
    ensures { result ≡ fault_line fault.now }
{
    match fault {
        SpiceFault::NoSuchCircuit(line) => *line,
        SpiceFault::CircuitCycle(_) => 0,
        SpiceFault::PinCount(line) => *line,
        SpiceFault::NameClash(line) => *line,
        SpiceFault::UnknownCard(line) => *line,
        SpiceFault::BadLine(line) => *line,
        SpiceFault::ParameterRefused(line) => *line,
        SpiceFault::Value(line, _) => *line,
        SpiceFault::NotClosed(line) => *line,
        SpiceFault::NoMemory => 0,
    }
}

// Its number in the list of lvs.
fn fault_number(fault: &SpiceFault) -> u32
    ensures { result ≡ fault_number fault.now }
{
    match fault {
        SpiceFault::NoSuchCircuit(_) => 41,
        SpiceFault::CircuitCycle(_) => 42,
        SpiceFault::PinCount(_) => 43,
        SpiceFault::NameClash(_) => 44,
        SpiceFault::UnknownCard(_) => 50,
        SpiceFault::BadLine(_) => 51,
        SpiceFault::ParameterRefused(_) => 52,
        SpiceFault::Value(_, _) => 53,
        SpiceFault::NotClosed(_) => 54,
        SpiceFault::NoMemory => 0,
    }
}

// The line of the card that a line of the written text was.
fn card_of(lines: &[u64], line: u64) -> u64
    ensures { result ≡ slice_index_or lines.now (line - 1) 0 }
{
    let place = line.saturating_sub(1) as usize;
    lines.get(place).copied().unwrap_or(0)
}

fn number_text(alloc: Global, number: u32) -> Result<Vec<u8>, AllocError>
    ensures { IfOk result (λ t. t.items ≡ codes "schematic " ++ decimal number) }
{
    let digits = format!(in alloc; "{number}")?;
    let mut out = b"schematic ".to_vec(alloc)?;
    out.extend_from_slice(digits.as_bytes())?;
    Ok(out)
}

/// The refusal of a fault that `lvs` finds in the written text, at the card that it is of.
pub fn spice_stop(
    alloc: Global,
    files: &[File],
    origins: &[Origin],
    lines: &[u64],
    fault: SpiceFault,
) -> Stop
    ensures { SaysSpice files.now origins.now lines.now fault result }
{
    if let SpiceFault::NoMemory = fault {
        return Stop::NoMemory;
    }
    match number_text(alloc, fault_number(&fault)) {
        Err(_) => Stop::NoMemory,
        Ok(why) => {
            let card = card_of(lines, fault_line(&fault));
            stop_at(alloc, files, origin_of(origins, card), why.as_slice())
        }
    }
}

/// The refusal of files that weren't loaded.
pub fn load_stop(alloc: Global, failed: Failed) -> Stop
    ensures { SaysLoad failed result }
{
    match failed {
        Failed::Outside => Stop::Outside,
        Failed::Absent(path) => stop_of(line_of(alloc, b"refused absent ", path.as_bytes())),
        Failed::TooLong(path) => stop_of(line_of(alloc, b"refused long ", path.as_bytes())),
        Failed::TooMany => stop_of(b"refused more than 10000 files\n".to_vec(alloc)),
        Failed::NoMemory => Stop::NoMemory,
    }
}
