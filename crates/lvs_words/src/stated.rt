//! What a list of words states.

ghost use Rattle.std.specs.Prelude.{◌≡◌, map, IfOk, IsErrOf, None, Some, string_bytes};
ghost use Rattle.lvs_words.specs.Commands.{asked, asked_of, extract_of, run_of, said, said_extract};
ghost use Rattle.lvs_words.specs.Commands.{said_make, said_of, said_run, said_shapes};
ghost use Rattle.lvs_words.specs.Items.{AreValues};
ghost use Rattle.lvs_words.specs.Seen.{seen_all};

use crate::command::{Command, Stated, WordFault};
use crate::fitting::{fits, path, shared_path, top, workers};
use crate::flag::Flag;
use crate::items::{Item, is_value, read_items};
use crate::numbers::number_in;
use std::alloc::Global;

// The options that may be left out.
const FREE: [Flag; 2] = [Flag::Top, Flag::Workers];

// `shapes LAYOUT RULES SHAPES`, behind its first word.
fn shapes(alloc: Global, words: &[String]) -> Result<Stated, WordFault>
    ensures found { IfOk result (λ s. said_shapes (map string_bytes words.now)
        ≡ Some (said_of s)) }
    ensures refused { IsErrOf result WordFault.Refused → said_shapes (map string_bytes words.now)
        ≡ None }
{
    let [layout, rules, shapes] = words else {
        return Err(WordFault::Refused);
    };
    if !is_value(layout.as_str()) || !is_value(rules.as_str()) || !is_value(shapes.as_str()) {
        return Err(WordFault::Refused);
    }
    let items = [
        Item {
            flag: Flag::Layout,
            value: layout.as_str(),
        },
        Item {
            flag: Flag::Rules,
            value: rules.as_str(),
        },
        Item {
            flag: Flag::Shapes,
            value: shapes.as_str(),
        },
    ];
    let shared = shared_path(alloc, &items)?;
    let command = Command::Shapes {
        layout: layout.clone()?,
        rules: rules.clone()?,
        shapes: shapes.clone()?,
    };
    Ok(Stated { command, shared })
}

// The command `extract` of these options.
fn extract_of(alloc: Global, items: &[Item<'_>]) -> Result<Command, WordFault>
    requires { AreValues (seen_all items.now) }
    ensures found { IfOk result (λ c. extract_of (seen_all items.now) ≡ Some (asked_of c)) }
    ensures refused { IsErrOf result WordFault.Refused → extract_of (seen_all items.now) ≡ None }
{
    let needed = [Flag::Layout, Flag::Rules, Flag::Shapes, Flag::Netlist];
    if !fits(&needed, &FREE, items) {
        return Err(WordFault::Refused);
    }
    let Some(workers) = workers(items) else {
        return Err(WordFault::Refused);
    };
    Ok(Command::Extract {
        layout: path(alloc, items, Flag::Layout)?,
        rules: path(alloc, items, Flag::Rules)?,
        shapes: path(alloc, items, Flag::Shapes)?,
        netlist: path(alloc, items, Flag::Netlist)?,
        top: top(alloc, items)?,
        workers,
    })
}

// The command `run` of these options.
fn run_of(alloc: Global, items: &[Item<'_>]) -> Result<Command, WordFault>
    requires { AreValues (seen_all items.now) }
    ensures found { IfOk result (λ c. run_of (seen_all items.now) ≡ Some (asked_of c)) }
    ensures refused { IsErrOf result WordFault.Refused → run_of (seen_all items.now) ≡ None }
{
    let needed = [
        Flag::Layout,
        Flag::Rules,
        Flag::Schematic,
        Flag::Shapes,
        Flag::Netlist,
        Flag::Report,
    ];
    if !fits(&needed, &FREE, items) {
        return Err(WordFault::Refused);
    }
    let Some(workers) = workers(items) else {
        return Err(WordFault::Refused);
    };
    Ok(Command::Run {
        layout: path(alloc, items, Flag::Layout)?,
        rules: path(alloc, items, Flag::Rules)?,
        schematic: path(alloc, items, Flag::Schematic)?,
        shapes: path(alloc, items, Flag::Shapes)?,
        netlist: path(alloc, items, Flag::Netlist)?,
        report: path(alloc, items, Flag::Report)?,
        top: top(alloc, items)?,
        workers,
    })
}

// `extract`, behind its first word.
fn extract(alloc: Global, words: &[String]) -> Result<Stated, WordFault>
    ensures found { IfOk result (λ s. said_extract (map string_bytes words.now)
        ≡ Some (said_of s)) }
    ensures refused { IsErrOf result WordFault.Refused → said_extract (map string_bytes words.now)
        ≡ None }
{
    let items = read_items(alloc, words)?;
    let command = extract_of(alloc, items.as_slice())?;
    let shared = shared_path(alloc, items.as_slice())?;
    Ok(Stated { command, shared })
}

// `run`, behind its first word.
fn run(alloc: Global, words: &[String]) -> Result<Stated, WordFault>
    ensures found { IfOk result (λ s. said_run (map string_bytes words.now) ≡ Some (said_of s)) }
    ensures refused { IsErrOf result WordFault.Refused → said_run (map string_bytes words.now)
        ≡ None }
{
    let items = read_items(alloc, words)?;
    let command = run_of(alloc, items.as_slice())?;
    let shared = shared_path(alloc, items.as_slice())?;
    Ok(Stated { command, shared })
}

// `make N SEED WORKERS PREFIX`, behind its first word.
fn make(words: &[String]) -> Result<Stated, WordFault>
    ensures found { IfOk result (λ s. said_make (map string_bytes words.now) ≡ Some (said_of s)) }
    ensures refused { IsErrOf result WordFault.Refused → said_make (map string_bytes words.now)
        ≡ None }
{
    let [n, seed, workers, prefix] = words else {
        return Err(WordFault::Refused);
    };
    if !is_value(prefix.as_str()) {
        return Err(WordFault::Refused);
    }
    let Some(n) = number_in(1, 100_000, n.as_str()) else {
        return Err(WordFault::Refused);
    };
    let Some(seed) = number_in(0, u64::MAX, seed.as_str()) else {
        return Err(WordFault::Refused);
    };
    let Some(workers) = number_in(1, 64, workers.as_str()) else {
        return Err(WordFault::Refused);
    };
    let command = Command::Make {
        n: n as u32,
        seed,
        workers: workers as usize,
        prefix: prefix.clone()?,
    };
    Ok(Stated {
        command,
        shared: None,
    })
}

/// The command that the words state, and the path that it names twice. `Refused` where they state
/// none. Takes memory for the options and the paths, and no more than a few times the words.
pub fn read_stated(alloc: Global, words: &[String]) -> Result<Stated, WordFault>
    ensures found { IfOk result (λ s. said (map string_bytes words.now) ≡ Some (said_of s)) }
    ensures refused { IsErrOf result WordFault.Refused → said (map string_bytes words.now) ≡ None }
{
    let [first, more @ ..] = words else {
        return Err(WordFault::Refused);
    };
    let first = first.as_str();
    if first == "shapes" {
        return shapes(alloc, more);
    }
    if first == "extract" {
        return extract(alloc, more);
    }
    if first == "run" {
        return run(alloc, more);
    }
    if first == "make" {
        return make(more);
    }
    Err(WordFault::Refused)
}

/// The command that the words state. `Refused` where they state none.
pub fn read_words(alloc: Global, words: &[String]) -> Result<Command, WordFault>
    ensures found { IfOk result (λ c. asked (map string_bytes words.now) ≡ Some (asked_of c)) }
    ensures refused { IsErrOf result WordFault.Refused → asked (map string_bytes words.now) ≡ None }
{
    let stated = read_stated(alloc, words)?;
    Ok(stated.command)
}
