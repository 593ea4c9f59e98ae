//! What is to be done of what the words state.

ghost use Rattle.std.specs.Prelude.{◌≡◌, map, IfOk, IsErrOf, None, Some, string_bytes};
ghost use Rattle.std.specs.Option.{option_map};
ghost use Rattle.lvs_outside.specs.Files.{AreApart};
ghost use Rattle.lvs_run.specs.Words.{AreInverters, AreWorkers, IsFairSaid, IsFairWork, ToReport};
ghost use Rattle.lvs_run.specs.Words.{ToShapes, blank_files, chip_paths};
ghost use Rattle.lvs_run.specs.Words.{built_of, outputs_of, said, work_paths};
ghost use Rattle.lvs_words.specs.Commands.{said_of};

use lvs_words::{Command, Stated, WordFault, read_stated};
use net_names::Name;
use std::alloc::Global;

/// The files that a command writes: of a layout alone, or of a layout and a schematic.
#[derive(Debug, Drop)]
pub enum Outputs {
    Layout(LayoutOutputs),
    Report {
        schematic: String,
        paths: ReportPaths,
    },
}

/// The files of a layout.
#[derive(Debug, Drop)]
pub enum LayoutOutputs {
    Shapes(String),
    Netlist { shapes: String, netlist: String },
}

/// The files of a comparison with a schematic.
#[derive(Debug, Drop)]
pub struct ReportPaths {
    pub shapes: String,
    pub netlist: String,
    pub report: String,
}

/// The files of a command, the name of the layout's top, the number of workers, and the path of a
/// file that the command writes and names twice.
#[derive(Debug, Drop)]
pub struct Task {
    pub layout: String,
    pub rules: String,
    pub top: Option<Name>,
    pub workers: usize,
    pub outputs: Outputs,
    pub shared: Option<String>,
}

/// The chip of a number of inverters, drawn from a seed, whose files' paths begin with a prefix.
#[derive(Debug, Drop)]
pub struct ChipTask {
    pub n: u32,
    pub seed: u64,
    pub workers: usize,
    pub prefix: String,
}

/// What is to be done: files are read, or a chip is made.
#[derive(Debug, Drop)]
pub enum Work {
    Files(Task),
    Chip(ChipTask),
}

// The file of derived layers alone.
fn shapes_outputs(shapes: String) -> Outputs
    ensures { outputs_of result ≡ ToShapes (string_bytes shapes) }
{
    Outputs::Layout(LayoutOutputs::Shapes(shapes))
}

// The files of a comparison.
fn report_outputs(schematic: String, shapes: String, netlist: String, report: String) -> Outputs
    ensures { outputs_of result ≡ ToReport (string_bytes schematic) (string_bytes shapes)
        (string_bytes netlist) (string_bytes report) }
{
    Outputs::Report {
        schematic,
        paths: ReportPaths {
            shapes,
            netlist,
            report,
        },
    }
}

// A command that reads files.
fn files(
    layout: String,
    rules: String,
    top: Option<Name>,
    workers: usize,
    outputs: Outputs,
    shared: Option<String>,
) -> Work
    requires workers { AreWorkers workers }
    requires apart { option_map string_bytes shared ≡ None
        → AreApart (blank_files (outputs_of outputs)) }
    ensures paths { work_paths result ≡ record {
      layout = string_bytes layout;
      rules = string_bytes rules;
      top = top;
      outputs = outputs_of outputs;
      shared = option_map string_bytes shared;
    } }
    ensures fair { IsFairWork result }
{
    Work::Files(Task {
        layout,
        rules,
        top,
        workers,
        outputs,
        shared,
    })
}

// The command that makes a chip.
fn chip(n: u32, seed: u64, workers: usize, prefix: String) -> Work
    requires workers { AreWorkers workers }
    requires inverters { AreInverters n }
    ensures paths { work_paths result ≡ chip_paths n seed (string_bytes prefix) }
    ensures fair { IsFairWork result }
{
    Work::Chip(ChipTask {
        n,
        seed,
        workers,
        prefix,
    })
}

fn work_of(stated: Stated) -> Work
    requires { IsFairSaid (said_of stated) }
    ensures paths { work_paths result ≡ built_of (said_of stated) }
    ensures fair { IsFairWork result }
{
    let Stated { command, shared } = stated;
    match command {
        Command::Shapes {
            layout,
            rules,
            shapes,
        } => files(layout, rules, None, 1, shapes_outputs(shapes), shared),
        Command::Extract {
            layout,
            rules,
            shapes,
            netlist,
            top,
            workers,
        } => {
            let outputs = Outputs::Layout(LayoutOutputs::Netlist { shapes, netlist });
            files(layout, rules, top, workers, outputs, shared)
        }
        Command::Run {
            layout,
            rules,
            schematic,
            shapes,
            netlist,
            report,
            top,
            workers,
        } => {
            let outputs = report_outputs(schematic, shapes, netlist, report);
            files(layout, rules, top, workers, outputs, shared)
        }
        Command::Make {
            n,
            seed,
            workers,
            prefix,
        } => chip(n, seed, workers, prefix),
    }
}

/// What is to be done of these words, by 1 to 64 workers. `Refused` where they state no command.
pub fn read_work(alloc: Global, words: &[String]) -> Result<Work, WordFault>
    ensures found { IfOk result (λ w. said (map string_bytes words.now) ≡ Some (work_paths w)) }
    ensures refused { IsErrOf result WordFault.Refused → said (map string_bytes words.now) ≡ None }
    ensures fair { IfOk result IsFairWork }
{
    let stated = read_stated(alloc, words)?;
    Ok(work_of(stated))
}
