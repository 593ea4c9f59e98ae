//! The cards of a text, gathered by circuit.

ghost use Rattle.std.specs.Prelude.{◌≡◌, ◌++◌, IfErr, IfOk, OnOk, replicate};
ghost use Rattle.spice_rows.specs.Sizes.{read_limit};
ghost use Rattle.spice_text.specs.Gather.{begun, reading_of};
ghost use Rattle.spice_text.specs.Seen.{circuit_seen, cards_seen, SaysFault};
ghost use Rattle.std.specs.Prelude.{codes, [], Ok};

use net_names::Name;
use spice_cards::CardReader;
use spice_rows::{CallCard, CardRow, DeviceCard, SpiceFault, read_card};
use std::alloc::{AllocError, Global};

/// A circuit as its cards name it, with the line of the first of them.
#[derive(Debug, Drop)]
pub struct CircuitCards {
    pub line: u64,
    pub name: Name,
    pub pins: Vec<Name>,
    pub devices: Vec<DeviceCard>,
    pub calls: Vec<CallCard>,
}

/// The cards so far: the circuits that are closed, the open one, that of the cards outside, and
/// the global names.
#[derive(Debug, Drop)]
pub struct Gathered {
    pub circuits: Vec<CircuitCards>,
    pub open_one: Option<CircuitCards>,
    pub outside: Option<CircuitCards>,
    pub globals: Vec<Name>,
}

fn begun(alloc: Global, line: u64, name: Name, pins: Vec<Name>) -> CircuitCards
    ensures { circuit_seen result ≡ begun line name pins.items }
{
    CircuitCards {
        line,
        name,
        pins,
        devices: Vec::new(alloc),
        calls: Vec::new(alloc),
    }
}

// The circuit of the cards outside, before its first card.
fn top(alloc: Global, line: u64) -> Result<CircuitCards, AllocError>
    ensures { IfOk result (λ c. circuit_seen c ≡ begun line (codes ".TOP") []) }
{
    let name = Name::from_vec(b".TOP".to_vec(alloc)?);
    Ok(begun(alloc, line, name, Vec::new(alloc)))
}

// So many equal devices, one after another.
fn push_devices(
    alloc: Global,
    out: &mut Vec<DeviceCard>,
    device: DeviceCard,
    copies: u32,
) -> Result<(), AllocError>
    ensures { OnOk result (out.new.items ≡ out.old.items ++ replicate copies device) }
{
    if copies == 0 {
        return Ok(());
    }
    'copies: for _copy in 0..copies - 1 {
        out.push(device.try_clone(alloc)?)?;
    }
    out.push(device)?;
    Ok(())
}

impl Gathered {
    ghost use Rattle.std.specs.Prelude.{◌≡◌, OnOk};
    ghost use Rattle.spice_rows.specs.Rows as rows;
    ghost use Rattle.spice_rows.specs.Seen.{row_seen, call_seen};
    ghost use Rattle.spice_text.specs.Gather.{no_cards, with_row};
    ghost use Rattle.spice_text.specs.Seen.{cards_seen};

    fn new(alloc: Global) -> Gathered
        ensures { cards_seen result ≡ no_cards }
    {
        Gathered {
            circuits: Vec::new(alloc),
            open_one: None,
            outside: None,
            globals: Vec::new(alloc),
        }
    }

    fn add_devices(
        &mut self,
        alloc: Global,
        line: u64,
        device: DeviceCard,
        copies: u32,
    ) -> Result<(), AllocError>
        ensures { OnOk result (cards_seen self.new
            ≡ with_row (cards_seen self.old) line (rows.Device device copies)) }
    {
        if let Some(circuit) = &mut self.open_one {
            return push_devices(alloc, &mut circuit.devices, device, copies);
        }
        let mut circuit = match self.outside.take() {
            Some(circuit) => circuit,
            None => top(alloc, line)?,
        };
        push_devices(alloc, &mut circuit.devices, device, copies)?;
        self.outside = Some(circuit);
        Ok(())
    }

    fn add_call(&mut self, alloc: Global, line: u64, call: CallCard) -> Result<(), AllocError>
        ensures { OnOk result (cards_seen self.new
            ≡ with_row (cards_seen self.old) line (rows.Call (call_seen call))) }
    {
        if let Some(circuit) = &mut self.open_one {
            circuit.calls.push(call)?;
            return Ok(());
        }
        let mut circuit = match self.outside.take() {
            Some(circuit) => circuit,
            None => top(alloc, line)?,
        };
        circuit.calls.push(call)?;
        self.outside = Some(circuit);
        Ok(())
    }

    fn close(&mut self, line: u64) -> Result<(), AllocError>
        ensures { OnOk result
            (cards_seen self.new ≡ with_row (cards_seen self.old) line rows.Ends) }
    {
        if let Some(circuit) = self.open_one.take() {
            self.circuits.push(circuit)?;
        }
        Ok(())
    }

    fn add_globals(&mut self, line: u64, names: Vec<Name>) -> Result<(), AllocError>
        ensures { OnOk result (cards_seen self.new
            ≡ with_row (cards_seen self.old) line (rows.Globals names.items)) }
    {
        let mut names = names;
        self.globals.append(&mut names)?;
        Ok(())
    }

    fn take(&mut self, alloc: Global, line: u64, row: CardRow) -> Result<(), AllocError>
        ensures { OnOk result (cards_seen self.new
            ≡ with_row (cards_seen self.old) line (row_seen row)) }
    {
        match row {
            CardRow::Opens(name, pins) => {
                self.open_one = Some(begun(alloc, line, name, pins));
                Ok(())
            }
            CardRow::Ends => self.close(line),
            CardRow::Globals(names) => self.add_globals(line, names),
            CardRow::Stops => Ok(()),
            CardRow::Passed => Ok(()),
            CardRow::Device(device, copies) => self.add_devices(alloc, line, device, copies),
            CardRow::Call(call) => self.add_call(alloc, line, call),
        }
    }
}

/// The cards of a text in their circuits, up to `.END`, or the first fault of a card. Linear in
/// the text; one card at a time is held beside what the cards say.
pub fn gather_cards(alloc: Global, bytes: &[u8]) -> Result<Gathered, SpiceFault>
    ensures cards { IfOk result (λ g. reading_of read_limit bytes.now ≡ Ok (cards_seen g)) }
    ensures fault { IfErr result (λ e. SaysFault e (reading_of read_limit bytes.now)) }
{
    let mut cards = match CardReader::new(bytes) {
        Ok(cards) => cards,
        Err(line) => return Err(SpiceFault::BadLine(line)),
    };
    let mut all = Gathered::new(alloc);
    let mut tokens = Vec::new(alloc);
    'cards: while let Some(line) = cards.next(&mut tokens)? {
        let row = read_card(alloc, line, all.open_one.is_some(), &tokens)?;
        if let CardRow::Stops = row {
            return Ok(all);
        }
        all.take(alloc, line, row)?;
    }
    Ok(all)
}
