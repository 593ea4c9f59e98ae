//! The run: files are read and joined, cards turned, the text tried, and then it is written.

ghost use Rattle.std.specs.Prelude.{◌≡◌, false, true, IfErr, IfOk, Ok, OnOk, Some, length, map};
ghost use Rattle.std.specs.Prelude.{None, is_none, string_bytes};
ghost use Rattle.std.specs.List.{list_any};
ghost use Rattle.std.specs.Str.{bytes_eq};
ghost use Rattle.std.specs.Option.{option_copied};
ghost use Rattle.lvs_outside.specs.Store.{HasRoom};
ghost use Rattle.lvs_outside.specs.Summary.{SinkHasRoom};
ghost use Rattle.spice_rows.specs.Sizes.{read_limit};
ghost use Rattle.spice_text.specs.Means.{SaysFirst};
ghost use Rattle.netlist_turn.specs.Seen.{seen};
ghost use Rattle.netlist_join.specs.Failing.{OnlyReads};
ghost use Rattle.netlist_join.specs.Loaded.{StartsWith, has_twins, paths_of};
ghost use Rattle.netlist_join.specs.Named.{AreAsked};
ghost use Rattle.netlist_run.specs.Marks.{IsPlan};
ghost use Rattle.netlist_run.specs.Sums.{told_text};
ghost use Rattle.netlist_run.specs.Accepted.{IsAccepted, IsJoined, IsOutput, IsPrepared};
ghost use Rattle.netlist_run.specs.Accepted.{NotJoined, NotMade, NotRead, Stops};
ghost use Rattle.netlist_run.specs.Ends.{Delivers, Ends, Leaves, Sends, SendsStop, ShowsFaults};
ghost use Rattle.netlist_run.specs.Ends.{ShowsStop};
ghost use Rattle.netlist_run.specs.Words.{asked, asked_seen, is_same};

use crate::lines::{join_stop, load_stop, no_top_stop, spice_stop, turn_stop};
use crate::plan::plan_cards;
use crate::status::{Status, Stop};
use crate::told::told_lines;
use crate::words::{Command, read_command};
use lvs_outside::{Depot, Sink, write_all, write_file};
use netlist_join::{File, Joined, Origin, join_files, joined_laws, load_files};
use netlist_turn::{Settings, Turned, turn_cards};
use spice_rows::SpiceFault;
use spice_text::read_spice;
use std::alloc::{AllocError, Global};

// What a run has to write: a netlist, and lines that tell what was changed.
#[derive(Drop)]
struct Output {
    text: Vec<u8>,
    lines: Vec<u8>,
}

// Tries a text: the reader of `lvs` takes it, or this is its fault.
fn try_text(alloc: Global, text: &[u8]) -> Result<(), SpiceFault>
    ensures accepted { OnOk result (IsAccepted text.now) }
    ensures fault { IfErr result (SaysFirst read_limit text.now) }
{
    let _netlist = read_spice(alloc, text)?;
    Ok(())
}

// What is to be written of what was made.
fn finished(
    alloc: Global,
    files: &[File],
    joined: &Joined,
    has_title: bool,
    scale: Option<u128>,
    turned: Turned,
) -> Result<Output, AllocError>
    ensures text { IfOk result (λ o. o.text.items ≡ (seen turned.entry).text) }
    ensures lines { IfOk result (λ o. o.lines.items ≡ told_text has_title files.now
        joined.now.origins.items joined.now.comments scale (seen turned.entry).told
        (length (seen turned.entry).lines)) }
{
    let told = turned.told.as_slice();
    let cards = turned.lines.as_slice();
    let origins = joined.origins.as_slice();
    let comments = joined.comments;
    let lines = told_lines(
        alloc,
        has_title,
        files,
        origins,
        comments,
        scale,
        told,
        cards.len(),
    )?;
    let Turned {
        text,
        lines: _,
        told: _,
        at: _,
    } = turned;
    Ok(Output { text, lines })
}

// The refusal of a fault of what was made.
#[tactic(auto, using(crate::proofs::Refusing::not_read))]
fn read_stop(
    alloc: Global,
    files: &[File],
    joined: &Joined,
    turned: &Turned,
    fault: SpiceFault,
) -> Stop
    requires { SaysFirst read_limit (seen turned.now).text fault }
    ensures { NotRead files.now joined.now.origins.items (seen turned.now) result }
{
    let origins = joined.origins.as_slice();
    spice_stop(alloc, files, origins, turned.lines.as_slice(), fault)
}

// What is to be written, where the reader of `lvs` takes what was made.
fn tried(
    alloc: Global,
    files: &[File],
    joined: &Joined,
    has_title: bool,
    scale: Option<u128>,
    turned: Turned,
) -> Result<Output, Stop>
    ensures text { IfOk result (λ o. o.text.items ≡ (seen turned.entry).text) }
    ensures lines { IfOk result (λ o. o.lines.items ≡ told_text has_title files.now
        joined.now.origins.items joined.now.comments scale (seen turned.entry).told
        (length (seen turned.entry).lines)) }
    ensures accepted { IfOk result (λ o. IsAccepted (seen turned.entry).text) }
    ensures refused { IfErr result (NotRead files.now joined.now.origins.items
        (seen turned.entry)) }
{
    match try_text(alloc, turned.text.as_slice()) {
        Ok(()) => {
            let output = finished(alloc, files, joined, has_title, scale, turned)?;
            Ok(output)
        }
        Err(fault) => Err(read_stop(alloc, files, joined, &turned, fault)),
    }
}

// What the cards of a joined text make by these settings.
#[tactic(auto, using(crate::proofs::Leaving::reads_of))]
fn turned_output(
    alloc: Global,
    files: &[File],
    joined: &Joined,
    command: &Command,
    settings: &Settings,
) -> Result<Output, Stop>
    requires { IsPlan joined.now.text.items (asked_seen command.now).top command.now.choices
        settings.now true }
    ensures output { IfOk result (λ o. IsOutput files.now joined.now (asked_seen command.now)
        o.text.items o.lines.items) }
    ensures refused { IfErr result (NotMade files.now joined.now (asked_seen command.now)) }
{
    let origins = joined.origins.as_slice();
    match turn_cards(alloc, settings, joined.text.as_slice()) {
        Ok(turned) => tried(
            alloc,
            files,
            joined,
            command.has_title,
            settings.scale,
            turned,
        ),
        Err(fault) => Err(turn_stop(alloc, files, origins, fault)),
    }
}

// The bytes of the name of the circuit that is asked for.
fn top_of(command: &Command) -> Option<&[u8]>
    ensures { option_copied result ≡ (asked_seen command.now).top }
{
    match &command.top {
        None => None,
        Some(name) => Some(name.as_bytes()),
    }
}

// What is made of a joined text.
#[tactic(auto, using(crate::proofs::Leaving::plan_for))]
fn made(alloc: Global, files: &[File], joined: &Joined, command: &Command) -> Result<Output, Stop>
    ensures output { IfOk result (λ o. IsOutput files.now joined.now (asked_seen command.now)
        o.text.items o.lines.items) }
    ensures refused { IfErr result (NotMade files.now joined.now (asked_seen command.now)) }
{
    let text = joined.text.as_slice();
    let origins = joined.origins.as_slice();
    let top = top_of(command);
    let plan = match plan_cards(alloc, text, top, command.choices) {
        Ok(plan) => plan,
        Err(fault) => return Err(turn_stop(alloc, files, origins, fault)),
    };
    if !plan.is_found {
        return Err(no_top_stop(alloc, top));
    }
    turned_output(alloc, files, joined, command, &plan.settings)
}

#[tactic(auto, using(crate::proofs::WordLemmas::count_is))]
fn input_count(command: &Command) -> usize
    ensures { result ≡ length (asked_seen command.now).inputs }
{
    command.inputs.len()
}

// What is to be written of the inputs and the files that they name.
#[tactic(auto, using(crate::proofs::Leaving::makes_of))]
fn joined_output(alloc: Global, files: &[File], command: &Command) -> Result<Output, Stop>
    requires asked { AreAsked (asked_seen command.now).inputs files.now }
    requires inputs { StartsWith (paths_of files.now) (asked_seen command.now).inputs }
    ensures output { IfOk result (λ o. IsJoined files.now (asked_seen command.now) o.text.items
        o.lines.items) }
    ensures refused { IfErr result (NotJoined files.now (asked_seen command.now)) }
{
    joined_laws();
    let count = input_count(command);
    match join_files(alloc, files, count, command.has_title) {
        Ok(joined) => made(alloc, files, &joined, command),
        Err(fault) => Err(join_stop(alloc, files, fault)),
    }
}

// Reads the files that a command names, and makes what is to be written.
#[tactic(auto, using(crate::proofs::Leaving::loaded, crate::proofs::Leaving::prepared_of, crate::proofs::Refusing::joined_quiet, crate::proofs::Refusing::load_quiet))]
fn prepare<D: Depot>(alloc: Global, command: &Command, depot: &mut D) -> Result<Output, Stop>
    requires room { HasRoom (D.state depot.old) }
    requires apart { has_twins (asked_seen command.now).inputs ≡ false }
    ensures room { OnOk result (HasRoom (D.state depot.new)) }
    ensures reads { OnlyReads (D.state depot.old) (D.state depot.new) }
    ensures absent { OnOk result ((D.state depot.new).absent ≡ (D.state depot.old).absent) }
    ensures faults { ShowsStop (D.state depot.old) (D.state depot.new) result }
    ensures made { IfOk result (λ o. IsPrepared (D.state depot.old).file (asked_seen command.now)
        o.text.items o.lines.items) }
    ensures refused { IfErr result (Stops (D.state depot.old) (D.state depot.new)
        (asked_seen command.now)) }
{
    match load_files(alloc, depot, command.inputs.as_slice()) {
        Ok(files) => joined_output(alloc, &files, command),
        Err(failed) => Err(load_stop(alloc, failed)),
    }
}

fn send<S: Sink>(out: &mut S, line: &[u8], status: Status) -> Status
    requires { SinkHasRoom (S.state out.old) }
    ensures { Sends line.now (S.state out.old) (S.state out.new) status result }
{
    match write_all(out, line) {
        Ok(()) => status,
        Err(_) => Status::Outside,
    }
}

// Tells why there is nothing to write.
fn stopped<S: Sink>(out: &mut S, stop: Stop) -> Status
    requires { SinkHasRoom (S.state out.old) }
    ensures { SendsStop stop (S.state out.old) (S.state out.new) result }
{
    match stop {
        Stop::Refused(line) => send(out, &line, Status::Refused),
        Stop::Outside => Status::Outside,
        Stop::NoMemory => Status::NoMemory,
    }
}

// Writes what is to be written, and tells it.
fn deliver<D: Depot, S: Sink>(depot: &mut D, out: &mut S, path: &str, output: &Output) -> Status
    requires depot { HasRoom (D.state depot.old) }
    requires sink { SinkHasRoom (S.state out.old) }
    ensures { Delivers path.now output.now.text.items output.now.lines.items (D.state depot.old)
        (D.state depot.new) (S.state out.old) (S.state out.new) result }
{
    match write_file(depot, path, output.text.as_slice()) {
        Ok(()) => send(out, output.lines.as_slice(), Status::Good),
        Err(_) => Status::Outside,
    }
}

// Runs what the words ask for, where the output's path is that of no input.
fn run_command<D: Depot, S: Sink>(
    alloc: Global,
    command: &Command,
    path: &str,
    depot: &mut D,
    out: &mut S,
) -> Status
    requires depot { HasRoom (D.state depot.old) }
    requires sink { SinkHasRoom (S.state out.old) }
    requires path { (asked_seen command.now).out ≡ Some path.now }
    requires apart { is_same (asked_seen command.now) path.now ≡ false }
    ensures { Ends (Some (asked_seen command.now)) (D.state depot.old) (D.state depot.new)
        (S.state out.old) (S.state out.new) result }
{
    match prepare(alloc, command, depot) {
        Ok(output) => deliver(depot, out, path, &output),
        Err(stop) => stopped(out, stop),
    }
}

// The path of the output.
fn path_of(command: &Command) -> &str
    requires { is_none (asked_seen command.now).out ≡ false }
    ensures { (asked_seen command.now).out ≡ Some result.now }
{
    match &command.out {
        None => "",
        Some(path) => path.as_str(),
    }
}

// Runs what the words ask for.
fn run_asked<D: Depot, S: Sink>(
    alloc: Global,
    command: &Command,
    depot: &mut D,
    out: &mut S,
) -> Status
    requires depot { HasRoom (D.state depot.old) }
    requires sink { SinkHasRoom (S.state out.old) }
    requires path { is_none (asked_seen command.now).out ≡ false }
    ensures { Ends (Some (asked_seen command.now)) (D.state depot.old) (D.state depot.new)
        (S.state out.old) (S.state out.new) result }
{
    let path = path_of(command);
    if is_same(command, path) {
        return send(out, b"refused same\n", Status::Refused);
    }
    run_command(alloc, command, path, depot, out)
}

// Reads the words, and runs what they ask for.
#[tactic(auto, using(crate::proofs::Leaving::asked_ends, crate::proofs::Leaving::memory_ends, crate::proofs::Leaving::words_end))]
fn run_words<D: Depot, S: Sink>(
    alloc: Global,
    words: &[String],
    depot: &mut D,
    out: &mut S,
) -> Status
    requires depot { HasRoom (D.state depot.old) }
    requires sink { SinkHasRoom (S.state out.old) }
    ensures { Ends (asked (map string_bytes words.now)) (D.state depot.old) (D.state depot.new)
        (S.state out.old) (S.state out.new) result }
{
    match read_command(alloc, words) {
        Ok(Some(command)) => run_asked(alloc, &command, depot, out),
        Ok(None) => send(out, b"refused words\n", Status::Refused),
        Err(_) => Status::NoMemory,
    }
}

/// Runs the program on its words. After `Good` the file of the named path is what the cards of the
/// inputs make, which the reader of `lvs` takes, and the lines that tell what was changed are sent.
/// After `Refused` no file was started, and the sent line says why: the words, a file that isn't
/// there, the first line or card that can't be taken, or what `lvs` would refuse in what was made.
/// `Outside` is answered exactly where a call failed, and no line is sent behind a write that did.
/// After `NoMemory` no file was started and nothing was sent. Linear in the bytes read and written.
pub fn run_netlist<D: Depot, S: Sink>(
    alloc: Global,
    words: &[String],
    depot: &mut D,
    out: &mut S,
) -> Status
    requires depot { HasRoom (D.state depot.old) }
    requires sink { SinkHasRoom (S.state out.old) }
    // What was written and sent, or why not, or where a call failed.
    ensures outcome { Leaves (asked (map string_bytes words.now)) (D.state depot.old)
        (D.state depot.new) (S.state out.old) (S.state out.new) result }
    // Outside is answered exactly where a count of faults rose.
    ensures faults { ShowsFaults (D.state depot.old) (D.state depot.new) (S.state out.old)
        (S.state out.new) result }
{
    run_words(alloc, words, depot, out)
}

// Whether a path is that of an input.
fn is_input(paths: &[String], path: &str) -> bool
    ensures { result ≡ list_any (λ p. bytes_eq (string_bytes p) path.now) paths.now }
{
    paths.iter().any(|input| input.as_str() == path)
}

// Whether a path is one of these.
fn is_one_of(path: &str, paths: &[String]) -> bool
    ensures { result ≡ list_any (λ q. bytes_eq path.now (string_bytes q)) paths.now }
{
    paths.iter().any(|other| path == other.as_str())
}

// Whether a path stands behind.
fn is_behind(path: &str, more: &[String]) -> bool
    ensures { result ≡ list_any (λ q. bytes_eq path.now q) (map string_bytes more.now) }
{
    is_one_of(path, more)
}

// Whether a path stands twice.
fn has_twins(paths: &[String]) -> bool
    ensures { result ≡ has_twins (map string_bytes paths.now) }
{
    let mut rest = paths;
    'paths: while let [path, more @ ..] = rest {
        if is_behind(path.as_str(), more) {
            return true;
        }
        rest = more;
    }
    false
}

// Whether an input stands twice, or is the output.
#[tactic(auto, using(crate::proofs::WordLemmas::any_mapped))]
fn is_same(command: &Command, path: &str) -> bool
    ensures { result ≡ is_same (asked_seen command.now) path.now }
{
    let inputs = command.inputs.as_slice();
    is_input(inputs, path) || has_twins(inputs)
}
