//! The run of the program: words and inputs are read, files written, the line sent.

ghost use Rattle.std.specs.Prelude.{◌≡◌, ◌≤◌, ℕ, List, map, string_bytes, IfOk, IfErr};
ghost use Rattle.std.specs.Prelude.{Some, None};
ghost use Rattle.layout_shapes.specs.Writable.{IsWritable};
ghost use Rattle.lvs_outside.specs.Files.{AreApart, files_of};
ghost use Rattle.lvs_outside.specs.Store.{HasRoom};
ghost use Rattle.lvs_outside.specs.Summary.{SinkHasRoom};
ghost use Rattle.lvs_run.specs.Answers.{answer_of, refused};
ghost use Rattle.lvs_run.specs.Ends.{ComesOut, Delivered, Refused};
ghost use Rattle.lvs_run.specs.Flat.{WritesFlat, WritesNetlist};
ghost use Rattle.lvs_run.specs.Inputs.{IsBeside, IsReady, Quiet, RefusesComparison, Stops};
ghost use Rattle.lvs_run.specs.Inputs.{stopped};
ghost use Rattle.lvs_run.specs.Runs.{HasCauseIn, ShowsFaults};
ghost use Rattle.lvs_run.specs.Verdicts.{WritesMatch, WritesVerdicts};
ghost use Rattle.lvs_run.specs.Words.{blank_files, outputs_of, paths_of, report_outputs, said};
ghost use Rattle.rule_text.specs.Seen.{rules_seen};
ghost use Rattle.rule_text.specs.Sound.{IsSound};

use crate::chips::chip_output;
use crate::input::Stop;
use crate::laws::compared_laws;
use crate::making::{output_of, report_output};
use crate::output::Output;
use crate::readings::{layout_of, rules_of, schematic_beside};
use crate::status::{Refusal, Status};
use crate::summary::refusal_line;
use crate::words::{Outputs, ReportPaths, Task, Work, read_work};
use gds_layout::Layout;
use job_board::{Crew, Gate};
use lvs_outside::{Depot, Sink, write_all, write_files};
use lvs_words::WordFault;
use netlist_file::flat_netlist;
use report_file::read_alignable;
use rule_text::RuleSet;
use run_layout::run_layouts;
use shapes_file::{covers_flat, writable};
use std::alloc::Global;
use std::sync::Wait;
use std::thread::Threads;

// Reads the schematic, and makes all that is to be written of the comparison with it.
fn compare<R: Threads + Wait + Sync, D: Depot, G: Gate + Sync>(
    alloc: Global,
    layout: &Layout,
    rules: &RuleSet,
    schematic: &String,
    paths: ReportPaths,
    depot: &mut D,
    crew: &Crew<R, G>,
) -> Result<Output, Stop>
    requires depot { HasRoom (D.state depot.old) }
    requires layout { IsWritable layout.now }
    requires rules { IsSound (rules_seen rules.now) }
    requires apart { (path : List ℕ) → AreApart (blank_files (report_outputs path paths)) }
    ensures quiet { Quiet (D.state depot.old) (D.state depot.new) }
    ensures made { IfOk result (IsBeside (report_outputs (string_bytes schematic.now) paths)
        layout.now (rules_seen rules.now) (D.state depot.old) (D.state depot.new)
        (string_bytes schematic.now)) }
    ensures refused { IfErr result (λ why. RefusesComparison layout.now (rules_seen rules.now)
        (D.state depot.old) (D.state depot.new) (string_bytes schematic.now) (stopped why)) }
{
    read_alignable();
    let both = schematic_beside(alloc, depot, schematic, layout, rules, crew)?;
    let (netlist, files) = both;
    let output = report_output(alloc, layout, rules, files, &netlist, paths, crew)?;
    Ok(output)
}

// Reads the inputs of a command, and makes all that is to be written.
fn prepare_task<R: Threads + Wait + Sync, D: Depot, G: Gate + Sync>(
    rt: &R,
    alloc: Global,
    task: Task,
    depot: &mut D,
    gate: &G,
) -> Result<Output, Stop>
    requires depot { HasRoom (D.state depot.old) }
    requires workers { (1 ≤ task.workers) × (task.workers ≤ 64) }
    requires apart { (paths_of task).shared ≡ None
        → AreApart (blank_files (outputs_of task.outputs)) }
    ensures quiet { Quiet (D.state depot.old) (D.state depot.new) }
    ensures ready { IfOk result (λ o. IsReady (Some (paths_of task)) (D.state depot.old)
        (D.state depot.new) o) }
    ensures stops { IfErr result (λ why. Stops (Some (paths_of task)) (D.state depot.old)
        (D.state depot.new) (stopped why)) }
{
    writable();
    run_layouts();
    covers_flat();
    flat_netlist();
    compared_laws();
    let Task {
        layout,
        rules,
        top,
        workers,
        outputs,
        shared,
    } = task;
    match shared {
        Some(path) => return Err(Stop::Refused(Refusal::SamePath(path))),
        None => {}
    }
    let rule_set = rules_of(alloc, depot, &rules)?;
    let crew = Crew::new(rt, workers, gate);
    let design = layout_of(alloc, depot, &layout, &top, &rule_set, &crew)?;
    match outputs {
        Outputs::Layout(outputs) => {
            let output = output_of(alloc, &design, &rule_set, outputs, &crew)?;
            Ok(output)
        }
        Outputs::Report { schematic, paths } => {
            let made = compare(alloc, &design, &rule_set, &schematic, paths, depot, &crew)?;
            Ok(made)
        }
    }
}

// Reads the words and the inputs, and makes all that is to be written.
fn prepare<R: Threads + Wait + Sync, D: Depot, G: Gate + Sync>(
    rt: &R,
    alloc: Global,
    words: &[String],
    depot: &mut D,
    gate: &G,
) -> Result<Output, Stop>
    requires { HasRoom (D.state depot.old) }
    ensures quiet { Quiet (D.state depot.old) (D.state depot.new) }
    ensures ready { IfOk result (λ o. IsReady (said (map string_bytes words.now))
        (D.state depot.old) (D.state depot.new) o) }
    ensures stops { IfErr result (λ why. Stops (said (map string_bytes words.now))
        (D.state depot.old) (D.state depot.new) (stopped why)) }
{
    match read_work(alloc, words) {
        Ok(Work::Files(task)) => prepare_task(rt, alloc, task, depot, gate),
        Ok(Work::Chip(task)) => chip_output(rt, alloc, task, gate),
        Err(WordFault::Refused) => Err(Stop::Refused(Refusal::Words)),
        Err(WordFault::NoMemory) => Err(Stop::NoMemory),
    }
}

// Sends the line of a refusal.
fn refuse<S: Sink>(alloc: Global, why: Refusal, out: &mut S) -> Status
    requires { SinkHasRoom (S.state out.old) }
    ensures { Refused (refused why) (S.state out.old) (S.state out.new) (answer_of result) }
{
    let Ok(line) = refusal_line(alloc, &why) else {
        return Status::NoMemory;
    };
    if write_all(out, line.as_slice()).is_err() {
        return Status::Outside;
    }
    Status::Refused(why)
}

// Writes the files, then sends the line.
fn deliver<D: Depot, S: Sink>(output: &Output, depot: &mut D, out: &mut S) -> Status
    requires depot { HasRoom (D.state depot.old) }
    requires out { SinkHasRoom (S.state out.old) }
    requires apart { AreApart (files_of output.now.files.items) }
    ensures { Delivered output.now (D.state depot.old) (D.state depot.new) (S.state out.old)
        (S.state out.new) (answer_of result) }
{
    if write_files(output.files.as_slice(), depot).is_err() {
        return Status::Outside;
    }
    if write_all(out, output.line.as_slice()).is_err() {
        return Status::Outside;
    }
    output.verdict.status()
}

/// Runs the command that the words state, over the files of the depot, and gives the sink its
/// summary line.
///
/// All that is written is complete in memory before the first write. After a failed call on one
/// object the other isn't called. Two workers or more read the schematic beside extraction, whose
/// work is in vain where it is refused. The layout is read in pieces, of which none is kept, to its
/// end or past the limit before its fault is answered. Cost: reading the inputs, the layers of each
/// reached cell (also its nets, gates, pins and circuit), the comparison of each pair of circuits,
/// and the bytes written; a cell is worked once, however often it is placed. `make` reads no file
/// and makes no shapes file: else it costs what `run` on its files does.
pub fn run_lvs<R: Threads + Wait + Sync, D: Depot, S: Sink, G: Gate + Sync>(
    rt: &R,
    alloc: Global,
    words: &[String],
    depot: &mut D,
    out: &mut S,
    gate: &G,
) -> Status
    requires depot { HasRoom (D.state depot.old) }
    requires out { SinkHasRoom (S.state out.old) }
    // Outside is answered exactly where a count of faults rose.
    ensures faults { ShowsFaults (answer_of result) (D.state depot.old) (D.state depot.new)
        (S.state out.old) (S.state out.new) }
    // Each refusal has its cause, and other answers come only without one, whatever depot and sink
    // tell; no file is opened for words that are refused.
    ensures cause { HasCauseIn (said (map string_bytes words.now)) (D.state depot.old)
        (D.state depot.new) (answer_of result) }
    // Where the files are told, the answer, the written files and the line are what they come to;
    // those that `make` makes are told. After a failed call on one object the other stands as it
    // stood.
    ensures outcome { ComesOut (said (map string_bytes words.now)) (D.state depot.old)
        (D.state depot.new) (S.state out.old) (S.state out.new) (answer_of result) }
    // After each answer of a run that writes its files the shapes file has in each cell exactly the
    // squares that the cell holds itself, and covers exactly the flat rules' unit squares of the
    // layout, where the files are told. The layout is what was read, with a further layer for each
    // selection of the rules, which is the flat selection (`IsRunLayout`); so it is in the clauses
    // below.
    ensures flat { WritesFlat (said (map string_bytes words.now)) (D.state depot.old)
        (D.state depot.new) (answer_of result) }
    // After Good of a comparison the pairs of the report, which `make` doesn't write, compose to a
    // one-to-one correspondence of the flat layout's regions and good gates with the nets and
    // devices of the flattened schematic; by rules with `combine_devices`, where each class of
    // alike ones is one on both sides.
    ensures matched { WritesMatch (said (map string_bytes words.now)) (D.state depot.old)
        (D.state depot.new) (answer_of result) }
    // The answer of a comparison comes exactly where the flat layout's bad gates and the pairs of
    // the report say so; unequal numbers of devices of a class, or of a class and sizes, in a pair
    // make Bad. Whatever the answer is, a pair reported as matched carries a correspondence which
    // keeps the pins of the pairs below, and one that has such a correspondence is never reported
    // as different. With `flatten_unmatched`, no bad gate and nothing too large, Bad says that the
    // flat layout corresponds to the schematic, flattened from the top's partner, in no way; with
    // `combine_devices`, where each class of alike ones is one on both sides. Alike devices of the
    // pairs' circuits are made one once more only where a pair differs without.
    ensures verdicts { WritesVerdicts (said (map string_bytes words.now)) (D.state depot.old)
        (D.state depot.new) (answer_of result) }
    // The netlist's file means, expanded, the netlist of the flat layout. `extract` is Bad exactly
    // where a gate of the flat layout is bad, and a comparison is Good only where none is.
    ensures netlist { WritesNetlist (said (map string_bytes words.now)) (D.state depot.old)
        (D.state depot.new) (answer_of result) }
{
    match prepare(rt, alloc, words, depot, gate) {
        Ok(output) => deliver(&output, depot, out),
        Err(Stop::Refused(why)) => refuse(alloc, why, out),
        Err(Stop::Outside) => Status::Outside,
        Err(Stop::NoMemory) => Status::NoMemory,
    }
}
