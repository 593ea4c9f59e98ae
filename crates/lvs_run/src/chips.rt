//! What `make` has to write.

ghost use Rattle.std.specs.Prelude.{◌≡◌, ◌≤◌, ◌++◌, ◌∷◌, [], length, Some, codes, string_bytes};
ghost use Rattle.std.specs.Prelude.{IfOk, IfErr, OnOk};
ghost use Rattle.lvs_outside.specs.Files.{files_of};
ghost use Rattle.lvs_outside.specs.Loops.{limit};
ghost use Rattle.lvs_outside.specs.Store.{Store};
ghost use Rattle.lvs_run.specs.Chips.{layout_at, layout_text, rules_at, rules_text};
ghost use Rattle.lvs_run.specs.Chips.{schematic_at, schematic_text};
ghost use Rattle.lvs_run.specs.Inputs.{IsReady, Stops, stopped};
ghost use Rattle.lvs_run.specs.Texts.{NoLayoutIn, NoRulesIn, NoSchematicIn, NotTaken};
ghost use Rattle.lvs_run.specs.Words.{AreInverters, AreWorkers, chip_paths};
ghost use Rattle.net_model.specs.Rows.{plain_netlist};
ghost use Rattle.plain_netlist.specs.Normal.{IsNormalNetlist};
ghost use Rattle.plain_netlist.specs.Sound.{IsSoundNetlist};
ghost use Rattle.rule_text.specs.Reading.{Means};
ghost use Rattle.run_layout.specs.RunLayout.{IsRunFault, IsRunLayout};
ghost use Rattle.rule_text.specs.Seen.{rules_seen};
ghost use Rattle.rule_text.specs.Sound.{IsSound};
ghost use Rattle.spice_rows.specs.Sizes.{read_limit};
ghost use Rattle.spice_text.specs.Means.{Means as SpiceMeans};

use crate::input::Stop;
use crate::laws::compared_laws;
use crate::making::{made_output, push_file};
use crate::output::Output;
use crate::readings::{layout_stop, rules_stop, schematic_stop};
use crate::status::Refusal;
use crate::words::ChipTask;
use chip_maker::{Made, make};
use gds_layout::{Layout, LayoutFault, read_layout};
use job_board::{Crew, Gate};
use lvs_outside::{LIMIT, Written};
use net_model::Netlist;
use net_names::Name;
use report_file::read_alignable;
use rule_layers::way_of;
use rule_text::{RuleSet, read_rules};
use run_layout::run_layout;
use spice_text::read_spice;
use std::alloc::{AllocError, Global};
use std::sync::Wait;
use std::thread::Threads;

// The chip's texts.
fn texts_of(alloc: Global, n: u32, seed: u64) -> Result<Made, AllocError>
    requires { AreInverters n }
    ensures layout { IfOk result (λ made. made.layout.items ≡ layout_text n seed) }
    ensures rules { IfOk result (λ made. made.rules.items ≡ rules_text) }
    ensures schematic { IfOk result (λ made. made.schematic.items ≡ schematic_text n seed) }
{
    make(alloc, n, seed)
}

// A path that begins with the prefix.
fn path_of(prefix: &String, ending: &str) -> Result<String, AllocError>
    ensures { IfOk result (λ path. string_bytes path ≡ string_bytes prefix.now ++ ending.now) }
{
    let mut path = prefix.clone()?;
    path.push_str(ending)?;
    Ok(path)
}

// The chip's files, in the order in which they are written.
fn files_to_write(alloc: Global, texts: Made, prefix: &String) -> Result<Vec<Written>, AllocError>
    ensures { IfOk result (λ files. files_of files.items ≡
        record { path = layout_at (string_bytes prefix.now); text = texts.layout.items }
        ∷ record { path = rules_at (string_bytes prefix.now); text = texts.rules.items }
        ∷ record { path = schematic_at (string_bytes prefix.now); text = texts.schematic.items }
        ∷ []) }
{
    let Made {
        layout,
        rules,
        schematic,
    } = texts;
    let mut files = Vec::new(alloc);
    push_file(&mut files, path_of(prefix, ".gds")?, layout)?;
    push_file(&mut files, path_of(prefix, ".lvs")?, rules)?;
    push_file(&mut files, path_of(prefix, ".cir")?, schematic)?;
    Ok(files)
}

// A text is refused where a file of its length is.
fn check_length(prefix: &String, ending: &str, text: &[u8]) -> Result<(), Stop>
    ensures short { OnOk result (length text.now ≤ limit) }
    ensures refused { IfErr result (λ why. NotTaken (string_bytes prefix.now ++ ending.now)
        text.now (stopped why)) }
{
    if text.len() <= LIMIT {
        return Ok(());
    }
    let path = path_of(prefix, ending)?;
    Err(Stop::Refused(Refusal::TooLong(path)))
}

fn rules_in(alloc: Global, prefix: &String, text: &[u8]) -> Result<RuleSet, Stop>
    ensures short { OnOk result (length text.now ≤ limit) }
    ensures found { IfOk result (λ r. Means text.now (rules_seen r)) }
    ensures sound { IfOk result (λ r. IsSound (rules_seen r)) }
    ensures refused { IfErr result (λ why. NoRulesIn (rules_at (string_bytes prefix.now)) text.now
        (stopped why)) }
{
    check_length(prefix, ".lvs", text)?;
    match read_rules(alloc, text) {
        Ok(rules) => Ok(rules),
        Err(fault) => Err(rules_stop(fault)),
    }
}

fn top_name(alloc: Global) -> Result<Option<Name>, AllocError>
    ensures { IfOk result (λ name. name ≡ Some (codes "TOP")) }
{
    Name::from_bytes(alloc, b"TOP")
}

// The layout of a text, with the rules' selections.
fn read_drawn<R: Threads + Wait + Sync, G: Gate + Sync>(
    alloc: Global,
    text: &[u8],
    top: &Option<Name>,
    rules: &RuleSet,
    crew: &Crew<R, G>,
) -> Result<Layout, LayoutFault>
    requires { IsSound (rules_seen rules.now) }
    ensures layout { IfOk result (IsRunLayout text.now top.now (rules_seen rules.now)) }
    ensures fault { IfErr result (IsRunFault text.now top.now (rules_seen rules.now)) }
{
    let drawn = read_layout(alloc, text, top.as_ref())?;
    run_layout(alloc, drawn.keeping(way_of(rules)), rules, crew)
}

fn layout_in<R: Threads + Wait + Sync, G: Gate + Sync>(
    alloc: Global,
    prefix: &String,
    text: &[u8],
    top: &Option<Name>,
    rules: &RuleSet,
    crew: &Crew<R, G>,
) -> Result<Layout, Stop>
    requires { IsSound (rules_seen rules.now) }
    ensures short { OnOk result (length text.now ≤ limit) }
    ensures found { IfOk result (IsRunLayout text.now top.now (rules_seen rules.now)) }
    ensures refused { IfErr result (λ why. NoLayoutIn (layout_at (string_bytes prefix.now))
        text.now top.now (rules_seen rules.now) (stopped why)) }
{
    check_length(prefix, ".gds", text)?;
    match read_drawn(alloc, text, top, rules, crew) {
        Ok(layout) => Ok(layout),
        Err(fault) => Err(layout_stop(fault)),
    }
}

fn schematic_in(alloc: Global, prefix: &String, text: &[u8]) -> Result<Netlist, Stop>
    ensures short { OnOk result (length text.now ≤ limit) }
    ensures found { IfOk result (λ nl. SpiceMeans read_limit text.now (plain_netlist nl)) }
    ensures sound { IfOk result (λ nl. IsSoundNetlist (plain_netlist nl)) }
    ensures normal { IfOk result (λ nl. IsNormalNetlist (plain_netlist nl)) }
    ensures refused { IfErr result (λ why. NoSchematicIn (schematic_at (string_bytes prefix.now))
        text.now (stopped why)) }
{
    check_length(prefix, ".cir", text)?;
    match read_spice(alloc, text) {
        Ok(netlist) => Ok(netlist),
        Err(fault) => Err(schematic_stop(fault)),
    }
}

/// Makes a chip, and compares its layout with its schematic by its rules, as `run` does with files
/// that hold them. What is written are these three. Cost: that of `run` on them
/// without the shapes file; its netlist and report are made and let go.
pub fn chip_output<R: Threads + Wait + Sync, G: Gate + Sync>(
    rt: &R,
    alloc: Global,
    task: ChipTask,
    gate: &G,
) -> Result<Output, Stop>
    requires workers { AreWorkers task.workers }
    requires inverters { AreInverters task.n }
    ensures ready { IfOk result (λ o. (s : Store) → IsReady (Some (chip_paths task.n task.seed
        (string_bytes task.prefix))) s s o) }
    ensures stops { IfErr result (λ why. (s : Store) → Stops (Some (chip_paths task.n task.seed
        (string_bytes task.prefix))) s s (stopped why)) }
{
    read_alignable();
    compared_laws();
    let ChipTask {
        n,
        seed,
        workers,
        prefix,
    } = task;
    let texts = texts_of(alloc, n, seed)?;
    let rules = rules_in(alloc, &prefix, texts.rules.as_slice())?;
    let top = top_name(alloc)?;
    let crew = Crew::new(rt, workers, gate);
    let layout = layout_in(alloc, &prefix, texts.layout.as_slice(), &top, &rules, &crew)?;
    let schematic = schematic_in(alloc, &prefix, texts.schematic.as_slice())?;
    let files = files_to_write(alloc, texts, &prefix)?;
    let output = made_output(alloc, &layout, &rules, &schematic, files, &crew)?;
    Ok(output)
}
