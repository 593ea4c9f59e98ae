//! What a command has to write of what it has read.

ghost use Rattle.std.specs.Prelude.{◌≡◌, ◌≢◌, ◌<◌, ◌++◌, ◌∷◌, [], ℕ, List};
ghost use Rattle.std.specs.Prelude.{IfErr, IfOk, None, OnOk, Some, length, string_bytes};
ghost use Rattle.cell_graph.specs.Linked.{cell_at};
ghost use Rattle.cell_graph.specs.declared.cells.CellPart.{CellPart};
ghost use Rattle.gds_layout.specs.declared.layout.Layout.{Layout as Layouts};
ghost use Rattle.layout_shapes.specs.Writable.{IsWritable};
ghost use Rattle.lvs_outside.specs.Files.{AreApart, files_of};
ghost use Rattle.lvs_run.specs.Inputs.{IsOutput, IsOutputBeside, IsStopFor, NotForRun, NotMerged};
ghost use Rattle.lvs_run.specs.Inputs.{NotWide, stopped};
ghost use Rattle.net_align.specs.Compared.{AreCalleesFirst, IsAlignable};
ghost use Rattle.net_model.specs.Rows.{plain_netlist};
ghost use Rattle.netlist_file.specs.File.{AreFiles, HasFiles, IsNetlistFile};
ghost use Rattle.report_file.specs.Combined.{AreNarrow, compared_of, wide_name};
ghost use Rattle.report_file.specs.File.{IsReportFile};
ghost use Rattle.lvs_run.specs.Answers.{comparison_answer, verdict_of};
ghost use Rattle.lvs_run.specs.Outcomes.{AreComparable, gates_answer, merge_refusal};
ghost use Rattle.lvs_run.specs.Chips.{chip_files};
ghost use Rattle.lvs_run.specs.Words.{ToChip, ToNetlist, ToShapes, blank_files, file_at};
ghost use Rattle.lvs_run.specs.Words.{layout_outputs, report_outputs};
ghost use Rattle.rule_text.specs.Rules.{Rules};
ghost use Rattle.rule_text.specs.Seen.{rules_seen};
ghost use Rattle.rule_text.specs.Sound.{IsSound};
ghost use Rattle.shapes_file.specs.File.{IsShapesFile};

use crate::input::Stop;
use crate::merging::merge_both;
use crate::output::{Output, Verdict};
use crate::status::Refusal;
use crate::summary::{compared_line, extracted_line, layers_line};
use crate::words::{LayoutOutputs, ReportPaths};
use deep_tables::BadGate;
use gds_layout::Layout;
use job_board::{Crew, Gate};
use lvs_outside::Written;
use net_model::Netlist;
use netlist_file::{Extraction, Files, NetlistFile, extract_files, extract_netlist, flat_netlist};
use pair_jobs::Verdict as Comparison;
use report_file::{Extracted, Report, combined_alignable, extracted_alignable, report_file};
use rule_text::RuleSet;
use shapes_file::{Drawing, Shapes, shapes_file};
use std::alloc::{AllocError, Global};
use std::sync::Wait;
use std::thread::Threads;

/// Adds a file.
pub fn push_file(files: &mut Vec<Written>, path: String, text: Vec<u8>) -> Result<(), AllocError>
    ensures { OnOk result (files_of files.new.items ≡ files_of files.old.items
        ++ file_at (string_bytes path) text.items ∷ []) }
{
    files.push(Written { path, text })?;
    Ok(())
}

// The end of a run for a cell that is too wide for a shapes file.
fn wide_stop(alloc: Global, layout: &Layout, cell: u32) -> Stop
    requires { cell < length layout.now.design.cells }
    ensures { (c : CellPart) → cell_at layout.now.design cell ≡ Some c
        → IsStopFor c.name (stopped result) }
{
    match layout.design.name(cell).try_clone(alloc) {
        Ok(name) => Stop::Refused(Refusal::Wide(name)),
        Err(AllocError) => Stop::NoMemory,
    }
}

// What `shapes` has to write.
fn shapes_output(alloc: Global, shapes: Shapes, path: String) -> Result<Output, AllocError>
    ensures { (l : Layouts) (r : Rules) → IsShapesFile l r shapes.text.items shapes.cells
        shapes.rectangles → IfOk result (IsOutput (ToShapes (string_bytes path)) l r) }
{
    let line = layers_line(alloc, &shapes)?;
    let mut files = Vec::new(alloc);
    push_file(&mut files, path, shapes.text)?;
    Ok(Output {
        files,
        line,
        verdict: Verdict::Good,
    })
}

// What `extract` has to write.
fn netlist_output(
    alloc: Global,
    found: Extraction,
    path: String,
    netlist: String,
) -> Result<Output, AllocError>
    requires apart { string_bytes path ≢ string_bytes netlist }
    ensures { (l : Layouts) (r : Rules) → HasFiles l r found
        → IfOk result (IsOutput (ToNetlist (string_bytes path) (string_bytes netlist)) l r) }
{
    let line = extracted_line(alloc, &found)?;
    let Extraction { shapes, file } = found;
    let verdict = gates_verdict(file.bad.as_slice());
    let mut files = Vec::new(alloc);
    push_file(&mut files, path, shapes.text)?;
    push_file(&mut files, netlist, file.text)?;
    Ok(Output {
        files,
        line,
        verdict,
    })
}

// The report on what was extracted from a layout, its netlist being compared as the one of these,
// and a schematic as the other.
fn report_on<R: Threads + Wait + Sync, G: Gate + Sync>(
    alloc: Global,
    layout: &Layout,
    rules: &RuleSet,
    found: &NetlistFile,
    netlist: &Netlist,
    schematic: &Netlist,
    crew: &Crew<R, G>,
) -> Result<Report, AllocError>
    requires rules { IsSound (rules_seen rules.now) }
    requires found { IsNetlistFile layout.now (rules_seen rules.now)
        (plain_netlist found.now.netlist) found.now.top found.now.bad.items found.now.text.items }
    requires count { length (plain_netlist netlist.now).circuits
        ≡ length (plain_netlist found.now.netlist).circuits }
    requires netlist { IsAlignable (plain_netlist netlist.now) }
    requires order { AreCalleesFirst (plain_netlist netlist.now) }
    requires schematic { IsAlignable (plain_netlist schematic.now) }
    requires narrow { AreNarrow (rules_seen rules.now) (plain_netlist netlist.now)
        (plain_netlist schematic.now) }
    ensures { IfOk result (λ x. IsReportFile layout.now.design (rules_seen rules.now)
        (plain_netlist netlist.now) found.now.top found.now.bad.items
        (plain_netlist schematic.now) x.text.items x.pairs x.verdict) }
{
    flat_netlist();
    let extracted = Extracted {
        netlist,
        top: found.top,
        bad: found.bad.as_slice(),
    };
    let report = report_file(alloc, &layout.design, rules, &extracted, schematic, crew)?;
    Ok(report)
}

// The report on what was extracted from a layout, compared with a schematic.
fn report_found<R: Threads + Wait + Sync, G: Gate + Sync>(
    alloc: Global,
    layout: &Layout,
    rules: &RuleSet,
    found: &NetlistFile,
    schematic: &Netlist,
    crew: &Crew<R, G>,
) -> Result<Report, Stop>
    requires rules { IsSound (rules_seen rules.now) }
    requires found { IsNetlistFile layout.now (rules_seen rules.now)
        (plain_netlist found.now.netlist) found.now.top found.now.bad.items found.now.text.items }
    requires schematic { IsAlignable (plain_netlist schematic.now) }
    ensures comparable { IfOk result (λ _. AreComparable (rules_seen rules.now)
        (plain_netlist found.now.netlist) (plain_netlist schematic.now)) }
    ensures narrow { OnOk result (merge_refusal
        (wide_name (rules_seen rules.now) (plain_netlist found.now.netlist))
        (wide_name (rules_seen rules.now) (plain_netlist schematic.now)) ≡ None) }
    ensures report { IfOk result (λ x. IsReportFile layout.now.design (rules_seen rules.now)
        (compared_of (rules_seen rules.now) (plain_netlist found.now.netlist)) found.now.top
        found.now.bad.items (compared_of (rules_seen rules.now) (plain_netlist schematic.now))
        x.text.items x.pairs x.verdict) }
    ensures refused { IfErr result (λ why. NotMerged layout.now (rules_seen rules.now)
        (plain_netlist schematic.now) (stopped why)) }
{
    extracted_alignable();
    combined_alignable();
    if !rules.combine {
        let netlist = &found.netlist;
        let report = report_on(alloc, layout, rules, found, netlist, schematic, crew)?;
        return Ok(report);
    }
    let both = merge_both(alloc, &found.netlist, schematic)?;
    let (netlist, other) = (&both.layout, &both.schematic);
    let report = report_on(alloc, layout, rules, found, netlist, other, crew)?;
    Ok(report)
}

// What `run` has to write, beside what was extracted.
fn compared_output<R: Threads + Wait + Sync, G: Gate + Sync>(
    alloc: Global,
    layout: &Layout,
    rules: &RuleSet,
    found: Extraction,
    schematic: &Netlist,
    paths: ReportPaths,
    crew: &Crew<R, G>,
) -> Result<Output, Stop>
    requires rules { IsSound (rules_seen rules.now) }
    requires found { HasFiles layout.now (rules_seen rules.now) found }
    requires schematic { IsAlignable (plain_netlist schematic.now) }
    requires apart { (path : List ℕ) → AreApart (blank_files (report_outputs path paths)) }
    ensures made { (path : List ℕ) → IfOk result (IsOutputBeside (report_outputs path paths)
        layout.now (rules_seen rules.now) (plain_netlist schematic.now)) }
    ensures refused { IfErr result (λ why. NotMerged layout.now (rules_seen rules.now)
        (plain_netlist schematic.now) (stopped why)) }
{
    let Extraction { shapes, file } = found;
    let report = report_found(alloc, layout, rules, &file, schematic, crew)?;
    let verdict = comparison_verdict(report.verdict);
    let line = compared_line(alloc, verdict, shapes.cells, &file, report.pairs)?;
    let mut files = Vec::new(alloc);
    push_file(&mut files, paths.shapes, shapes.text)?;
    push_file(&mut files, paths.netlist, file.text)?;
    push_file(&mut files, paths.report, report.text)?;
    Ok(Output {
        files,
        line,
        verdict,
    })
}

/// What `run` has to write, beside what was extracted.
pub fn report_output<R: Threads + Wait + Sync, G: Gate + Sync>(
    alloc: Global,
    layout: &Layout,
    rules: &RuleSet,
    files: Files,
    schematic: &Netlist,
    paths: ReportPaths,
    crew: &Crew<R, G>,
) -> Result<Output, Stop>
    requires rules { IsSound (rules_seen rules.now) }
    requires files { AreFiles layout.now (rules_seen rules.now) files }
    requires schematic { IsAlignable (plain_netlist schematic.now) }
    requires apart { (path : List ℕ) → AreApart (blank_files (report_outputs path paths)) }
    ensures made { (path : List ℕ) → IfOk result (IsOutputBeside (report_outputs path paths)
        layout.now (rules_seen rules.now) (plain_netlist schematic.now)) }
    ensures refused { IfErr result (λ why. NotForRun layout.now (rules_seen rules.now)
        (plain_netlist schematic.now) (stopped why)) }
{
    layout.design.sound();
    match files {
        Files::Whole(found) => {
            let output = compared_output(alloc, layout, rules, found, schematic, paths, crew)?;
            Ok(output)
        }
        Files::Wide(cell) => Err(wide_stop(alloc, layout, cell)),
    }
}

/// What `make` has to write: these files, and the line of comparing a layout with a schematic.
pub fn made_output<R: Threads + Wait + Sync, G: Gate + Sync>(
    alloc: Global,
    layout: &Layout,
    rules: &RuleSet,
    schematic: &Netlist,
    files: Vec<Written>,
    crew: &Crew<R, G>,
) -> Result<Output, Stop>
    requires rules { IsSound (rules_seen rules.now) }
    requires schematic { IsAlignable (plain_netlist schematic.now) }
    ensures made { (n seed : ℕ) (prefix : List ℕ) → files_of files.items ≡ chip_files n seed prefix
        → IfOk result (IsOutputBeside (ToChip n seed prefix) layout.now (rules_seen rules.now)
        (plain_netlist schematic.now)) }
    ensures refused { IfErr result (λ why. NotMerged layout.now (rules_seen rules.now)
        (plain_netlist schematic.now) (stopped why)) }
{
    layout.design.sound();
    let found = extract_netlist(alloc, layout, rules, crew)?;
    let report = report_found(alloc, layout, rules, &found, schematic, crew)?;
    let verdict = comparison_verdict(report.verdict);
    let cells = layout.design.order().len() as u32;
    let line = compared_line(alloc, verdict, cells, &found, report.pairs)?;
    Ok(Output {
        files,
        line,
        verdict,
    })
}

fn comparison_verdict(verdict: Comparison) -> Verdict
    ensures { verdict_of result ≡ comparison_answer verdict }
{
    match verdict {
        Comparison::Match => Verdict::Good,
        Comparison::Mismatch => Verdict::Bad,
        Comparison::Undecided => Verdict::Undecided,
    }
}

// Good where there is no bad gate.
fn gates_verdict(bad: &[BadGate]) -> Verdict
    ensures { verdict_of result ≡ gates_answer bad.now }
{
    match bad {
        [] => Verdict::Good,
        [_, ..] => Verdict::Bad,
    }
}

/// What the command with these outputs, which reads no schematic, has to write.
pub fn output_of<R: Threads + Wait + Sync, G: Gate + Sync>(
    alloc: Global,
    layout: &Layout,
    rules: &RuleSet,
    outputs: LayoutOutputs,
    crew: &Crew<R, G>,
) -> Result<Output, Stop>
    requires layout { IsWritable layout.now }
    requires rules { IsSound (rules_seen rules.now) }
    requires apart { AreApart (blank_files (layout_outputs outputs)) }
    ensures made { IfOk result (IsOutput (layout_outputs outputs) layout.now
        (rules_seen rules.now)) }
    ensures refused { IfErr result (λ why. NotWide layout.now (rules_seen rules.now)
        (stopped why)) }
{
    layout.design.sound();
    match outputs {
        LayoutOutputs::Shapes(path) => {
            match shapes_file(alloc, layout, rules, crew)? {
                Drawing::Whole(shapes) => Ok(shapes_output(alloc, shapes, path)?),
                Drawing::Wide(cell) => Err(wide_stop(alloc, layout, cell)),
            }
        }
        LayoutOutputs::Netlist { shapes, netlist } => {
            match extract_files(alloc, layout, rules, crew)? {
                Files::Whole(found) => Ok(netlist_output(alloc, found, shapes, netlist)?),
                Files::Wide(cell) => Err(wide_stop(alloc, layout, cell)),
            }
        }
    }
}
