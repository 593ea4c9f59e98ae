//! The rules, the layout and the schematic of input files.

ghost use Rattle.std.specs.Prelude.{◌≡◌, string_bytes, IfOk, IfErr};
ghost use Rattle.layout_shapes.specs.Writable.{IsWritable};
ghost use Rattle.lvs_outside.specs.Store.{HasRoom};
ghost use Rattle.lvs_run.specs.Answers.{refused_layout, refused_rules, refused_schematic};
ghost use Rattle.lvs_run.specs.Inputs.{Quiet, ReadAs, RefusesLayout, RefusesRules};
ghost use Rattle.lvs_run.specs.Inputs.{RefusesSchematic, stopped};
ghost use Rattle.net_model.specs.Rows.{plain_netlist};
ghost use Rattle.netlist_file.specs.File.{AreFiles};
ghost use Rattle.plain_netlist.specs.Normal.{IsNormalNetlist};
ghost use Rattle.plain_netlist.specs.Sound.{IsSoundNetlist};
ghost use Rattle.rule_text.specs.Reading.{Means};
ghost use Rattle.run_layout.specs.RunLayout.{IsRunFault, IsRunLayout};
ghost use Rattle.rule_text.specs.Seen.{rules_seen};
ghost use Rattle.rule_text.specs.Sound.{IsSound};
ghost use Rattle.spice_rows.specs.Sizes.{read_limit};
ghost use Rattle.spice_text.specs.Means.{Means as SpiceMeans, SaysFirst};

use crate::input::{Stop, feed_input, read_input};
use crate::status::Refusal;
use gds_layout::{Layout, LayoutFault, LayoutReader};
use job_board::{Crew, Gate};
use lvs_outside::Depot;
use net_model::Netlist;
use net_names::Name;
use netlist_file::{Files, extract_files};
use rule_layers::way_of;
use rule_text::{RuleFault, RuleSet, read_rules};
use run_layout::run_layout;
use spice_rows::SpiceFault;
use spice_text::read_spice;
use std::alloc::{AllocError, Global};
use std::sync::Wait;
use std::thread::Threads;

/// The answer of a fault of the rules.
pub fn rules_stop(fault: RuleFault) -> Stop
    ensures { stopped result ≡ refused_rules fault }
{
    match fault {
        RuleFault::NoMemory => Stop::NoMemory,
        fault => Stop::Refused(Refusal::Rules(fault)),
    }
}

/// The rules that the path's file means. An `Err` says that there is no such file, that it is too
/// long or has this first fault, that a call on the depot failed, or that memory ran out. Linear in
/// the file's bytes.
pub fn rules_of<D: Depot>(alloc: Global, depot: &mut D, path: &String) -> Result<RuleSet, Stop>
    requires { HasRoom (D.state depot.old) }
    ensures quiet { Quiet (D.state depot.old) (D.state depot.new) }
    ensures found { IfOk result (λ r. ReadAs (D.state depot.old) (D.state depot.new)
        (string_bytes path.now) (λ bytes. Means bytes (rules_seen r))) }
    ensures sound { IfOk result (λ r. IsSound (rules_seen r)) }
    ensures refused { IfErr result (λ why. RefusesRules (D.state depot.old) (D.state depot.new)
        (string_bytes path.now) (stopped why)) }
{
    let bytes = read_input(alloc, depot, path)?;
    match read_rules(alloc, bytes.as_slice()) {
        Ok(rules) => Ok(rules),
        Err(fault) => Err(rules_stop(fault)),
    }
}

/// The answer of a fault of the layout.
pub fn layout_stop(fault: LayoutFault) -> Stop
    ensures { stopped result ≡ refused_layout fault }
{
    match fault {
        LayoutFault::NoMemory => Stop::NoMemory,
        fault => Stop::Refused(Refusal::Layout(fault)),
    }
}

// The layout of the bytes fed, with the rules' selections.
fn finish_layout<R: Threads + Wait + Sync, G: Gate + Sync>(
    alloc: Global,
    reader: LayoutReader,
    top: &Option<Name>,
    rules: &RuleSet,
    crew: &Crew<R, G>,
) -> Result<Layout, LayoutFault>
    requires { IsSound (rules_seen rules.now) }
    ensures layout { IfOk result (IsRunLayout reader.fed top.now (rules_seen rules.now)) }
    ensures fault { IfErr result (IsRunFault reader.fed top.now (rules_seen rules.now)) }
{
    let drawn = reader.finish(alloc, top.as_ref())?;
    run_layout(alloc, drawn.keeping(way_of(rules)), rules, crew)
}

/// The layout of the path's file, from the cell of this name, or from the only one that none refers
/// to, with the rules' selections. The file is read in pieces, of which none is kept, to its end or
/// past the limit before its fault is answered. An `Err` is as that of `rules_of`. Cost: the file's
/// bytes, linking its cells, and what the selections take.
pub fn layout_of<R: Threads + Wait + Sync, D: Depot, G: Gate + Sync>(
    alloc: Global,
    depot: &mut D,
    path: &String,
    top: &Option<Name>,
    rules: &RuleSet,
    crew: &Crew<R, G>,
) -> Result<Layout, Stop>
    requires room { HasRoom (D.state depot.old) }
    requires rules { IsSound (rules_seen rules.now) }
    ensures quiet { Quiet (D.state depot.old) (D.state depot.new) }
    ensures found { IfOk result (λ l. ReadAs (D.state depot.old) (D.state depot.new)
        (string_bytes path.now) (λ bytes. IsRunLayout bytes top.now (rules_seen rules.now) l)) }
    ensures refused { IfErr result (λ why. RefusesLayout (D.state depot.old) (D.state depot.new)
        (string_bytes path.now) top.now (rules_seen rules.now) (stopped why)) }
{
    let mut reader = LayoutReader::new(alloc);
    feed_input(alloc, depot, path, &mut reader)?;
    match finish_layout(alloc, reader, top, rules, crew) {
        Ok(layout) => Ok(layout),
        Err(fault) => Err(layout_stop(fault)),
    }
}

/// The answer of a fault of the schematic.
pub fn schematic_stop(fault: SpiceFault) -> Stop
    ensures { stopped result ≡ refused_schematic fault }
{
    match fault {
        SpiceFault::NoMemory => Stop::NoMemory,
        fault => Stop::Refused(Refusal::Schematic(fault)),
    }
}

/// The netlist that the path's file means. An `Err` is as that of `rules_of`. Linear in the file's
/// bytes.
pub fn schematic_of<D: Depot>(alloc: Global, depot: &mut D, path: &String) -> Result<Netlist, Stop>
    requires { HasRoom (D.state depot.old) }
    ensures quiet { Quiet (D.state depot.old) (D.state depot.new) }
    ensures found { IfOk result (λ nl. ReadAs (D.state depot.old) (D.state depot.new)
        (string_bytes path.now) (λ bytes. SpiceMeans read_limit bytes (plain_netlist nl))) }
    ensures sound { IfOk result (λ nl. IsSoundNetlist (plain_netlist nl)) }
    ensures normal { IfOk result (λ nl. IsNormalNetlist (plain_netlist nl)) }
    ensures refused { IfErr result (λ why. RefusesSchematic (D.state depot.old) (D.state depot.new)
        (string_bytes path.now) (stopped why)) }
{
    let bytes = read_input(alloc, depot, path)?;
    match read_spice(alloc, bytes.as_slice()) {
        Ok(netlist) => Ok(netlist),
        Err(fault) => Err(schematic_stop(fault)),
    }
}

// The netlist that these bytes mean, and what is extracted from a layout, side by side.
fn read_beside<R: Threads + Wait + Sync, G: Gate + Sync>(
    alloc: Global,
    bytes: Vec<u8>,
    layout: &Layout,
    rules: &RuleSet,
    crew: &Crew<R, G>,
) -> (Result<Netlist, SpiceFault>, Result<Files, AllocError>)
    requires layout { IsWritable layout.now }
    requires rules { IsSound (rules_seen rules.now) }
    ensures found { IfOk result.0 (λ nl. SpiceMeans read_limit bytes.items (plain_netlist nl)) }
    ensures sound { IfOk result.0 (λ nl. IsSoundNetlist (plain_netlist nl)) }
    ensures normal { IfOk result.0 (λ nl. IsNormalNetlist (plain_netlist nl)) }
    ensures fault { IfErr result.0 (SaysFirst read_limit bytes.items) }
    ensures files { IfOk result.1 (AreFiles layout.now (rules_seen rules.now)) }
{
    let extraction = move || -> Result<Files, AllocError>
        requires { IsWritable layout.now × IsSound (rules_seen rules.now) }
        ensures { IfOk result (AreFiles layout.entry.now (rules_seen rules.entry.now)) }
    { extract_files(alloc, layout, rules, crew) };
    crew.both(|| read_spice(alloc, bytes.as_slice()), extraction)
}

/// The netlist that the path's file means, and what is extracted from a layout: one worker reads
/// and then extracts, two or more do both at once, in vain where the file is refused. An `Err` is
/// as that of `schematic_of`. Cost: that of `schematic_of` and of `extract_files`.
pub fn schematic_beside<R: Threads + Wait + Sync, D: Depot, G: Gate + Sync>(
    alloc: Global,
    depot: &mut D,
    path: &String,
    layout: &Layout,
    rules: &RuleSet,
    crew: &Crew<R, G>,
) -> Result<(Netlist, Files), Stop>
    requires room { HasRoom (D.state depot.old) }
    requires layout { IsWritable layout.now }
    requires rules { IsSound (rules_seen rules.now) }
    ensures quiet { Quiet (D.state depot.old) (D.state depot.new) }
    ensures found { IfOk result (λ v. ReadAs (D.state depot.old) (D.state depot.new)
        (string_bytes path.now) (λ bytes. SpiceMeans read_limit bytes (plain_netlist v.0))) }
    ensures sound { IfOk result (λ v. IsSoundNetlist (plain_netlist v.0)) }
    ensures normal { IfOk result (λ v. IsNormalNetlist (plain_netlist v.0)) }
    ensures files { IfOk result (λ v. AreFiles layout.now (rules_seen rules.now) v.1) }
    ensures refused { IfErr result (λ why. RefusesSchematic (D.state depot.old) (D.state depot.new)
        (string_bytes path.now) (stopped why)) }
{
    if crew.workers == 1 {
        let netlist = schematic_of(alloc, depot, path)?;
        let files = extract_files(alloc, layout, rules, crew)?;
        return Ok((netlist, files));
    }
    let bytes = read_input(alloc, depot, path)?;
    let (read, files) = read_beside(alloc, bytes, layout, rules, crew);
    match read {
        Ok(netlist) => Ok((netlist, files?)),
        Err(fault) => Err(schematic_stop(fault)),
    }
}
