//! The run: words and inputs are read, the files are written, the line is sent.

ghost use Rattle.std.specs.Prelude.{◌≡◌, ◌∷◌, ◌++◌, ◌≤◌, IfErr, IfOk, None, Some, map, string_bytes};
ghost use Rattle.std.specs.Option.{option_map};
ghost use Rattle.lvs_outside.specs.Files.{AreApart, files_of};
ghost use Rattle.lvs_outside.specs.Store.{HasRoom};
ghost use Rattle.lvs_outside.specs.Summary.{SinkHasRoom};
ghost use Rattle.lvs_run.specs.Answers.{RefusedSame};
ghost use Rattle.lvs_run.specs.Inputs.{Quiet};
ghost use Rattle.view_run.specs.Stated.{asked, asked_of};
ghost use Rattle.view_run.specs.Ends.{AsRun, ShowsTheFaults, end_of, refusal_text, refused_for};
ghost use Rattle.view_run.specs.Ends.{stopped, verdict_end};
ghost use Rattle.lvs_run.specs.Words.{file_at};
ghost use Rattle.view_run.specs.Runs.{Comes, Delivers, IsPageApart, IsReady, Sends, Stops};
ghost use Rattle.view_run.specs.Runs.{page_files};

use crate::making::{View, make_view};
use crate::status::{Status, Stop, Why};
use crate::stops::run_stop;
use crate::{Task, read_task};
use job_board::{Crew, Gate};
use lvs_outside::{Depot, Sink, Written, write_all, write_files};
use lvs_run::{Refusal, layout_of, refusal_line, rules_of, schematic_of};
use lvs_words::WordFault;
use pair_jobs::Verdict;
use report_file::read_alignable;
use std::alloc::{AllocError, Global};
use std::sync::Wait;
use std::thread::Threads;

/// What a run has to write: the files in this order, then the line.
#[derive(Drop)]
pub struct Output {
    pub files: Vec<Written>,
    pub line: Vec<u8>,
    pub verdict: Verdict,
}

// Adds the page with the path that it is written to, where there is one.
fn add_page(
    files: &mut Vec<Written>,
    path: &Option<String>,
    page: Option<Vec<u8>>,
) -> Result<(), AllocError>
    ensures { IfOk result (λ _. files_of files.new.items ≡ files_of files.old.items
        ++ page_files (option_map string_bytes path.now) (option_map (λ text. text.items) page)) }
{
    let Some(path) = path else {
        return Ok(());
    };
    let Some(text) = page else {
        return Ok(());
    };
    let path = path.clone()?;
    files.push(Written { path, text })?;
    Ok(())
}

// What is made, with the paths that it is written to.
fn output_of(alloc: Global, task: &Task, made: View) -> Result<Output, AllocError>
    ensures files { IfOk result (λ o. files_of o.files.items
        ≡ file_at (string_bytes task.now.database) made.text.items
        ∷ page_files (option_map string_bytes task.now.page)
        (option_map (λ text. text.items) made.page)) }
    ensures line { IfOk result (λ o. o.line.items ≡ made.line.items) }
    ensures verdict { IfOk result (λ o. o.verdict ≡ made.verdict) }
{
    let View {
        text,
        page,
        line,
        verdict,
    } = made;
    let path = task.database.clone()?;
    let mut files = Vec::new(alloc);
    files.push(Written { path, text })?;
    add_page(&mut files, &task.page, page)?;
    Ok(Output {
        files,
        line,
        verdict,
    })
}

// Reads the inputs, and makes all that is to be written.
fn prepare<R: Threads + Wait + Sync, D: Depot, G: Gate + Sync>(
    rt: &R,
    alloc: Global,
    task: &Task,
    depot: &mut D,
    gate: &G,
) -> Result<Output, Stop>
    requires depot { HasRoom (D.state depot.old) }
    requires workers { (1 ≤ task.now.workers) × (task.now.workers ≤ 64) }
    requires apart { (asked_of task.now).shared ≡ None }
    ensures quiet { Quiet (D.state depot.old) (D.state depot.new) }
    ensures ready { IfOk result (λ o. IsReady (Some (asked_of task.now)) (D.state depot.old)
        (D.state depot.new) o.verdict (files_of o.files.items) o.line.items) }
    ensures stops { IfErr result (λ why. Stops (Some (asked_of task.now)) (D.state depot.old)
        (D.state depot.new) (stopped why)) }
{
    read_alignable();
    let rules = match rules_of(alloc, depot, &task.rules) {
        Ok(rules) => rules,
        Err(stop) => return Err(run_stop(stop)),
    };
    let crew = Crew::new(rt, task.workers, gate);
    let layout = match layout_of(alloc, depot, &task.layout, &task.top, &rules, &crew) {
        Ok(layout) => layout,
        Err(stop) => return Err(run_stop(stop)),
    };
    let schematic = match schematic_of(alloc, depot, &task.schematic) {
        Ok(schematic) => schematic,
        Err(stop) => return Err(run_stop(stop)),
    };
    let paged = task.page.is_some();
    let made = make_view(alloc, &layout, &rules, schematic, paged, &crew)?;
    let output = output_of(alloc, task, made)?;
    Ok(output)
}

// The line of a refusal.
fn why_line(alloc: Global, why: &Why) -> Result<Vec<u8>, AllocError>
    ensures { IfOk result (λ line. line.items ≡ refusal_text (refused_for why.now)) }
{
    match why {
        Why::Run(refusal) => refusal_line(alloc, refusal),
        Why::View => b"refused view\n".to_vec(alloc),
    }
}

// Sends the line of a refusal.
fn refuse<S: Sink>(alloc: Global, why: Why, out: &mut S) -> Status
    requires { SinkHasRoom (S.state out.old) }
    ensures { Sends (refused_for why) (S.state out.old) (S.state out.new) (end_of result) }
{
    let Ok(line) = why_line(alloc, &why) else {
        return Status::NoMemory;
    };
    if write_all(out, line.as_slice()).is_err() {
        return Status::Outside;
    }
    Status::Refused(why)
}

fn status_of(verdict: Verdict) -> Status
    ensures { end_of result ≡ verdict_end verdict }
{
    match verdict {
        Verdict::Match => Status::Good,
        Verdict::Mismatch => Status::Bad,
        Verdict::Undecided => Status::Undecided,
    }
}

// Writes the files, then sends the line.
fn deliver<D: Depot, S: Sink>(output: &Output, depot: &mut D, out: &mut S) -> Status
    requires depot { HasRoom (D.state depot.old) }
    requires out { SinkHasRoom (S.state out.old) }
    requires apart { AreApart (files_of output.now.files.items) }
    ensures { Delivers (files_of output.now.files.items) output.now.line.items
        (verdict_end output.now.verdict) (D.state depot.old) (D.state depot.new)
        (S.state out.old) (S.state out.new) (end_of result) }
{
    if write_files(output.files.as_slice(), depot).is_err() {
        return Status::Outside;
    }
    if write_all(out, output.line.as_slice()).is_err() {
        return Status::Outside;
    }
    status_of(output.verdict)
}

// Reads the inputs, and writes what is made of them.
fn run_task<R: Threads + Wait + Sync, D: Depot, S: Sink, G: Gate + Sync>(
    rt: &R,
    alloc: Global,
    task: &Task,
    depot: &mut D,
    out: &mut S,
    gate: &G,
) -> Status
    requires depot { HasRoom (D.state depot.old) }
    requires out { SinkHasRoom (S.state out.old) }
    requires workers { (1 ≤ task.now.workers) × (task.now.workers ≤ 64) }
    requires apart { (asked_of task.now).shared ≡ None }
    requires page { IsPageApart (asked_of task.now) }
    ensures { Comes (Some (asked_of task.now)) (D.state depot.old) (D.state depot.new)
        (S.state out.old) (S.state out.new) (end_of result) }
{
    match prepare(rt, alloc, task, depot, gate) {
        Ok(output) => deliver(&output, depot, out),
        Err(Stop::Refused(why)) => refuse(alloc, why, out),
        Err(Stop::Outside) => Status::Outside,
        Err(Stop::NoMemory) => Status::NoMemory,
    }
}

// Sends the refusal of a path that is written and named twice.
fn refuse_same<S: Sink>(alloc: Global, path: &String, out: &mut S) -> Status
    requires { SinkHasRoom (S.state out.old) }
    ensures { Sends (AsRun (RefusedSame (string_bytes path.now))) (S.state out.old)
        (S.state out.new) (end_of result) }
{
    match path.clone() {
        Ok(path) => refuse(alloc, Why::Run(Refusal::SamePath(path)), out),
        Err(_) => Status::NoMemory,
    }
}

/// Compares the layout that the words name with their schematic, over the files of the depot, writes
/// the database and, where it is asked for, the page, and gives the sink the summary line.
///
/// All that is written is complete in memory before the first write. After a failed call on one
/// object the other isn't called. Cost: that of `lvs run` on the same files but for its writing, the
/// circuit of each cell once more, what is drawn, and the bytes written.
pub fn run_view<R: Threads + Wait + Sync, D: Depot, S: Sink, G: Gate + Sync>(
    rt: &R,
    alloc: Global,
    words: &[String],
    depot: &mut D,
    out: &mut S,
    gate: &G,
) -> Status
    requires depot { HasRoom (D.state depot.old) }
    requires out { SinkHasRoom (S.state out.old) }
    // What the words ask for, the inputs that were read and what they mean; then why nothing was
    // written, or that the database of the layout and the schematic was.
    ensures outcome { Comes (asked (map string_bytes words.now)) (D.state depot.old)
        (D.state depot.new) (S.state out.old) (S.state out.new) (end_of result) }
    // Outside is answered exactly where a count of faults rose.
    ensures faults { ShowsTheFaults (end_of result) (D.state depot.old) (D.state depot.new)
        (S.state out.old) (S.state out.new) }
{
    let task = match read_task(alloc, words) {
        Ok(task) => task,
        Err(WordFault::Refused) => return refuse(alloc, Why::Run(Refusal::Words), out),
        Err(WordFault::NoMemory) => return Status::NoMemory,
    };
    match &task.shared {
        Some(path) => refuse_same(alloc, path, out),
        None => run_task(rt, alloc, &task, depot, out, gate),
    }
}
