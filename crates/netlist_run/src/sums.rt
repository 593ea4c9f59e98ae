//! The changes, card by card and counted.

ghost use Rattle.std.specs.Prelude.{◌≡◌, ◌++◌, OnOk, IfOk, map};
ghost use Rattle.netlist_turn.specs.Seen.{told_seen};
ghost use Rattle.netlist_run.specs.SumsSeen.{seen};
ghost use Rattle.netlist_run.specs.Sums.{card_line, no_sums, sums_from, with_kind};

use crate::place::{origin_of, push_place};
use crate::tally::{Tally, no_names, raised, see_once};
use netlist_join::{File, Origin};
use netlist_turn::{Kind, Told};
use std::alloc::{AllocError, Global};

/// The lines of cards that are left out, and the counts of the other changes.
#[derive(Drop)]
pub struct Sums {
    pub cards: Vec<u8>,
    pub parameters: Tally,
    pub values: Tally,
    pub sizes: Tally,
    pub devices: Tally,
    pub slashes: u64,
    pub params: u64,
    pub quotes: u64,
    pub names: u64,
    pub numbers: u64,
    pub marked: u64,
    pub pins: u64,
}

fn no_sums(alloc: Global) -> Sums
    ensures { seen result ≡ no_sums }
{
    Sums {
        cards: Vec::new(alloc),
        parameters: no_names(alloc),
        values: no_names(alloc),
        sizes: no_names(alloc),
        devices: no_names(alloc),
        slashes: 0,
        params: 0,
        quotes: 0,
        names: 0,
        numbers: 0,
        marked: 0,
        pins: 0,
    }
}

fn push_card(
    alloc: Global,
    out: &mut Vec<u8>,
    files: &[File],
    origins: &[Origin],
    told: &Told,
) -> Result<(), AllocError>
    ensures { OnOk result (out.new.items
        ≡ out.old.items ++ card_line files.now origins.now (told_seen told.now)) }
{
    out.extend_from_slice(b"left out ")?;
    push_place(alloc, out, files, origin_of(origins, told.line))?;
    out.extend_from_slice(told.word)?;
    out.extend_from_slice(b"\n")
}

fn take(
    alloc: Global,
    sums: &mut Sums,
    files: &[File],
    origins: &[Origin],
    told: &Told,
) -> Result<(), AllocError>
    ensures { OnOk result (seen sums.new ≡ with_kind files.now origins.now (seen sums.old)
        (told_seen told.now) (told_seen told.now).kind) }
{
    match told.kind {
        Kind::Card => push_card(alloc, &mut sums.cards, files, origins, told),
        Kind::Parameter => see_once(alloc, &mut sums.parameters, told.word),
        Kind::Value => see_once(alloc, &mut sums.values, told.word),
        Kind::Size => see_once(alloc, &mut sums.sizes, told.word),
        Kind::Device => see_once(alloc, &mut sums.devices, told.word),
        Kind::Slash => {
            sums.slashes = raised(sums.slashes);
            Ok(())
        }
        Kind::Params => {
            sums.params = raised(sums.params);
            Ok(())
        }
        Kind::Quotes => {
            sums.quotes = raised(sums.quotes);
            Ok(())
        }
        Kind::Name => {
            sums.names = raised(sums.names);
            Ok(())
        }
        Kind::Number => {
            sums.numbers = raised(sums.numbers);
            Ok(())
        }
        Kind::Marked => {
            sums.marked = raised(sums.marked);
            Ok(())
        }
        Kind::Pins => {
            sums.pins = raised(sums.pins);
            Ok(())
        }
    }
}

/// The changes, card by card and counted. Linear in them.
pub fn sums_of(
    alloc: Global,
    files: &[File],
    origins: &[Origin],
    told: &[Told],
) -> Result<Sums, AllocError>
    ensures { IfOk result (λ s. seen s
        ≡ sums_from files.now origins.now no_sums (map told_seen told.now)) }
{
    let mut sums = no_sums(alloc);
    let mut rest = told;
    'changes: while let [change, more @ ..] = rest {
        take(alloc, &mut sums, files, origins, change)?;
        rest = more;
    }
    Ok(sums)
}
