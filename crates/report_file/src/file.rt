//! The report of a comparison, complete in memory.
ghost use Rattle.std.specs.Prelude.{◌≡◌, ◌<◌, ◌≤◌, ◌^◌, IfOk, OnErr, length};
ghost use Rattle.std.specs.List.{All};
ghost use Rattle.match_report.specs.Report.{report};
ghost use Rattle.net_align.specs.Compared.{AreCalleesFirst, IsAlignable};
ghost use Rattle.net_model.specs.Rows.{plain_netlist};
ghost use Rattle.pair_jobs.specs.Verdict.{IsRunVerdict};
ghost use Rattle.report_file.specs.Combined.{AreNarrow};
ghost use Rattle.report_file.specs.File.{IsReportFile, all_answers, pair_count};
ghost use Rattle.rule_text.specs.Seen.{rules_seen};
ghost use Rattle.rule_text.specs.Sound.{IsSound};

use crate::turns::{Turns, circuit_name, compare_in_turns};
use cell_graph::Design;
use deep_tables::BadGate;
use job_board::{Crew, Gate};
use list_base::number;
use match_report::{Compared, report_text};
use net_model::Netlist;
use net_names::Name;
use pair_jobs::{Verdict, judge_run};
use rule_text::RuleSet;
use std::alloc::{AllocError, Global};
use std::sync::Wait;
use std::thread::Threads;

/// A report, complete in memory: its text, how many pairs of circuits stand in it, and what the bad
/// gates and the pairs come to.
#[derive(Drop)]
pub struct Report {
    pub text: Vec<u8>,
    pub pairs: u32,
    pub verdict: Verdict,
}

/// What was extracted from a layout: its netlist as it is compared, the number of the top's circuit
/// in it, and its bad gates.
#[derive(Clone, Copy)]
pub struct Extracted<'a> {
    pub netlist: &'a Netlist,
    pub top: u32,
    pub bad: &'a [BadGate],
}

// How many pairs there are. It takes no memory.
fn count_pairs(compared: &Option<Compared>) -> Result<u32, AllocError>
    ensures count { IfOk result (λ n. n ≡ pair_count compared.now) }
    ensures err { OnErr result (2 ^ 32 ≤ pair_count compared.now) }
{
    let Some(found) = compared else {
        return Ok(0);
    };
    number(found.answers.len())
}

// What the bad gates and the pairs come to. It takes no memory.
fn judge_compared(bad: usize, compared: &Option<Compared>) -> Result<Verdict, AllocError>
    ensures verdict { IfOk result (IsRunVerdict bad (all_answers compared.now)) }
    ensures err { OnErr result (2 ^ 32 ≤ pair_count compared.now) }
{
    match compared {
        Some(found) => judge_run(bad, Some(&found.answers)),
        None => judge_run(bad, None),
    }
}

fn write_report(
    alloc: Global,
    design: &Design,
    top: &Name,
    bad: &[BadGate],
    turns: &Turns,
) -> Result<Report, AllocError>
    requires cells { All (λ x. x.cell < length design.now.cells) bad.now }
    ensures text { IfOk result (λ x. x.text.items
        ≡ report design.now top.now bad.now turns.now.lines.items turns.now.compared) }
    ensures pairs { IfOk result (λ x. x.pairs ≡ pair_count turns.now.compared) }
    ensures verdict { IfOk result (λ x. IsRunVerdict (length bad.now)
        (all_answers turns.now.compared) x.verdict) }
{
    let Turns { lines, compared } = turns;
    let pairs = count_pairs(compared)?;
    let verdict = judge_compared(bad.len(), compared)?;
    let text = report_text(alloc, top, bad, design, lines, compared)?;
    Ok(Report {
        text,
        pairs,
        verdict,
    })
}

/// A layout's netlist, below its top, compared with a schematic, and the report of that with the
/// layout's bad gates. Partners and the limit of refuted guesses in each pair are those of the
/// rules. A mismatch is a bad gate, a top without a partner or a pair that differs; a match is that
/// every pair matches. The answer is the same for every number of workers, of which there are 1 to
/// 64. An `Err` is want of memory, or 2^32 pairs or more. Cost: the comparison of the pairs, and
/// the bytes written.
pub fn report_file<R: Threads + Wait + Sync, G: Gate + Sync>(
    alloc: Global,
    design: &Design,
    rules: &RuleSet,
    found: &Extracted<'_>,
    schematic: &Netlist,
    crew: &Crew<R, G>,
) -> Result<Report, AllocError>
    requires rules { IsSound (rules_seen rules.now) }
    requires netlist { IsAlignable (plain_netlist found.now.netlist.now) }
    requires schematic { IsAlignable (plain_netlist schematic.now) }
    requires order { AreCalleesFirst (plain_netlist found.now.netlist.now) }
    requires top { found.now.top < length found.now.netlist.now.circuits.items }
    requires cells { All (λ x. x.cell < length design.now.cells) found.now.bad.now }
    requires narrow { AreNarrow (rules_seen rules.now) (plain_netlist found.now.netlist.now)
        (plain_netlist schematic.now) }
    ensures { IfOk result (λ x. IsReportFile design.now (rules_seen rules.now)
        (plain_netlist found.now.netlist.now) found.now.top found.now.bad.now
        (plain_netlist schematic.now) x.text.items x.pairs x.verdict) }
{
    let turns = compare_in_turns(alloc, rules, found.netlist, found.top, schematic, crew)?;
    let name = circuit_name(found.netlist, found.top as usize);
    let report = write_report(alloc, design, name, found.bad, &turns)?;
    Ok(report)
}
