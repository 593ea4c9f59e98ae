//! The names that cards define, the scale that one sets, and the circuits' calls.

ghost use Rattle.std.specs.Prelude.{◌≡◌, IfErr, IfOk};
ghost use Rattle.std.specs.Option.{option_copied};
ghost use Rattle.netlist_run.specs.Marks.{AreKept, IsPlan};
ghost use Rattle.netlist_run.specs.Defined.{defined, params_seen, settings_seen, SaysFault};
ghost use Rattle.netlist_run.specs.CircuitsSeen.{circuits_seen};

use crate::circuits::Circuits;
use crate::params::{Params, start, take};
use crate::reach::reached;
use netlist_turn::{Settings, TurnFault};
use spice_cards::CardReader;
use std::alloc::{AllocError, Global};

/// What the words choose: whether capacitors and resistors are left out, and the scale in 10^-15 of
/// a text that sets none.
#[derive(Clone, Copy)]
pub struct Choices {
    pub capacitors: bool,
    pub resistors: bool,
    pub scale: Option<u128>,
}

/// What cards are turned by, and whether the circuit that is asked for was found.
#[derive(Drop)]
pub struct Plan {
    pub settings: Settings,
    pub is_found: bool,
}

// Which circuits are kept.
#[derive(Drop)]
struct Kept {
    marks: Vec<bool>,
    all: bool,
    is_found: bool,
}

// Which circuits are kept: none is marked where all are.
fn kept_of(alloc: Global, circuits: &Circuits, top: Option<&[u8]>) -> Result<Kept, AllocError>
    ensures { IfOk result (λ r. AreKept (circuits_seen circuits.now) (option_copied top.entry) r.all
        r.marks.items r.is_found) }
{
    match top {
        None => Ok(Kept {
            marks: Vec::new(alloc),
            all: true,
            is_found: true,
        }),
        Some(name) => {
            let (k, is_found) = circuits.find(alloc, name)?;
            let marks = reached(alloc, &circuits.calls, k)?;
            Ok(Kept {
                marks,
                all: false,
                is_found,
            })
        }
    }
}

// What cards are turned by.
fn settled(
    alloc: Global,
    params: Params,
    circuits: Circuits,
    top: Option<&[u8]>,
    choices: Choices,
) -> Result<Plan, AllocError>
    ensures params { IfOk result (λ p. settings_seen p.settings ≡ params_seen params) }
    ensures circuits { IfOk result (λ p. p.settings.circuits ≡ (circuits_seen circuits).names) }
    ensures kept { IfOk result (λ p. AreKept (circuits_seen circuits) (option_copied top.entry)
        p.settings.all p.settings.marks.items p.is_found) }
    ensures capacitors { IfOk result (λ p. p.settings.capacitors ≡ choices.capacitors) }
    ensures resistors { IfOk result (λ p. p.settings.resistors ≡ choices.resistors) }
{
    let Kept {
        marks,
        all,
        is_found,
    } = kept_of(alloc, &circuits, top)?;
    let Params {
        names,
        values,
        scale,
        listed,
        devices,
        pinned,
        pins,
    } = params;
    let Circuits {
        names: circuits,
        calls: _,
        begun: _,
        inside: _,
    } = circuits;
    let settings = Settings {
        names,
        values,
        circuits,
        marks,
        all,
        capacitors: choices.capacitors,
        resistors: choices.resistors,
        scale,
        listed,
        devices,
        pinned,
        pins,
    };
    Ok(Plan { settings, is_found })
}

/// What the cards of a text are turned by: the names that they define, the scale, and where there is
/// a `top`, just the circuit of that name and those that it calls, at once or through others, are
/// kept; else all are. Linear in the text. The errors are the first card's that can't be taken.
#[tactic(auto, using(crate::proofs::Plans::plan))]
pub fn plan_cards(
    alloc: Global,
    bytes: &[u8],
    top: Option<&[u8]>,
    choices: Choices,
) -> Result<Plan, TurnFault>
    ensures made { IfOk result (λ p. IsPlan bytes.now (option_copied top.entry) choices p.settings
        p.is_found) }
    ensures fault { IfErr result (λ e. SaysFault e (defined choices.scale bytes.now)) }
{
    let mut cards = match CardReader::new(bytes) {
        Ok(cards) => cards,
        Err(line) => return Err(TurnFault::EarlyMore(line)),
    };
    let mut params = start(alloc, choices.scale);
    let mut circuits = Circuits::new(alloc);
    let mut tokens = Vec::new(alloc);
    'cards: while let Some(line) = cards.next(&mut tokens)? {
        take(alloc, &mut params, line, &tokens)?;
        circuits.take(alloc, &tokens)?;
    }
    let plan = settled(alloc, params, circuits, top, choices)?;
    Ok(plan)
}
