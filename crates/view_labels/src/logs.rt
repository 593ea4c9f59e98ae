//! The lines that the browser shows with each pair of circuits.

ghost use Rattle.std.specs.Prelude.{◌≡◌, ◌++◌, ◌<◌, [], IfOk, OnOk, drop, length, map};
ghost use Rattle.std.specs.List.{All};
ghost use Rattle.match_report.specs.Pairs.{answer_text};
ghost use Rattle.match_report.specs.Report.{answers_of, lefts_of};
ghost use Rattle.match_types.specs.Plain.{plain_answer};
ghost use Rattle.net_model.specs.Rows.{plain_circuit};
ghost use Rattle.rule_lines.specs.Lines.{lines_of};
ghost use Rattle.view_labels.specs.Logs.{answer_log, gate_log, pair_log, pair_logs};
ghost use Rattle.view_labels.specs.Logs.{texts_of};

use crate::lines::{push_lines, push_some};
use cell_graph::Design;
use deep_tables::BadGate;
use job_graph::Reads;
use list_base::number;
use match_report::{Compared, push_answer, report_text};
use match_types::{Answer, Evidence};
use net_model::Circuit;
use net_names::Name;
use std::alloc::{AllocError, Global};

// All bytes but the first.
fn behind_first(text: &[u8]) -> &[u8]
    ensures { result.now ≡ drop 1 text.now }
{
    match text {
        [] => &[],
        [_, more @ ..] => more,
    }
}

// The lines of an answer, as the report has them behind the names of its pair.
fn told(alloc: Global, lefts: &[Circuit], answer: &Answer) -> Result<Vec<Vec<u8>>, AllocError>
    ensures { IfOk result (λ v. texts_of v.items ≡ lines_of (drop 1
        (answer_text (map plain_circuit lefts.now) [] [] (plain_answer answer.now)))) }
{
    let mut text = Vec::new(alloc);
    push_answer(alloc, &mut text, lefts, &[], &[], answer)?;
    let mut log = Vec::new(alloc);
    push_lines(alloc, &mut log, behind_first(&text))?;
    Ok(log)
}

// The same, but of a match nothing.
fn answer_log(alloc: Global, lefts: &[Circuit], answer: &Answer) -> Result<Vec<Vec<u8>>, AllocError>
    ensures { IfOk result (λ v. texts_of v.items
        ≡ answer_log (map plain_circuit lefts.now) (plain_answer answer.now)) }
{
    match answer {
        Answer::Match(_) => Ok(Vec::new(alloc)),
        Answer::Differs(Evidence::Round { .. }) => told(alloc, lefts, answer),
        Answer::Differs(Evidence::Tree(_)) => told(alloc, lefts, answer),
        Answer::Undecided(_) => told(alloc, lefts, answer),
        Answer::Skipped(_) => told(alloc, lefts, answer),
    }
}

// Adds the lines of the bad gates, as the report has them.
fn push_gate_log(
    alloc: Global,
    log: &mut Vec<Vec<u8>>,
    top: &Name,
    bad: &[BadGate],
    design: &Design,
) -> Result<(), AllocError>
    requires { All (λ x. x.cell < length design.now.cells) bad.now }
    ensures { OnOk result (texts_of log.new.items
        ≡ texts_of log.old.items ++ gate_log design.now top.now bad.now) }
{
    let text = report_text(alloc, top, bad, design, &[], &None)?;
    let mut all = Vec::new(alloc);
    push_lines(alloc, &mut all, &text)?;
    push_some(alloc, log, &all, 3, bad.len())?;
    Ok(())
}

// The lines of a pair; with the last one those of the bad gates too.
fn pair_log(
    alloc: Global,
    lefts: &[Circuit],
    answer: &Answer,
    is_last: bool,
    top: &Name,
    bad: &[BadGate],
    design: &Design,
) -> Result<Vec<Vec<u8>>, AllocError>
    requires { All (λ x. x.cell < length design.now.cells) bad.now }
    ensures { IfOk result (λ v. texts_of v.items ≡ pair_log (map plain_circuit lefts.now)
        (gate_log design.now top.now bad.now) is_last (plain_answer answer.now)) }
{
    let mut log = answer_log(alloc, lefts, answer)?;
    if is_last {
        push_gate_log(alloc, &mut log, top, bad, design)?;
        return Ok(log);
    }
    Ok(log)
}

/// The lines that the browser shows with each pair: of one that doesn't match those that the report
/// has behind the pair's names; with the last pair, that of the tops, those of the bad gates too.
/// Linear in the report's lines.
pub fn pair_logs(
    alloc: Global,
    found: &Compared,
    top: &Name,
    bad: &[BadGate],
    design: &Design,
) -> Result<Vec<Vec<Vec<u8>>>, AllocError>
    requires { All (λ x. x.cell < length design.now.cells) bad.now }
    ensures { IfOk result (λ v. map (λ log. texts_of log.items) v.items
        ≡ pair_logs (lefts_of found.now) (gate_log design.now top.now bad.now)
        (answers_of found.now)) }
{
    let count = number(found.answers.len())?;
    let mut logs = Vec::new(alloc);
    'pairs: for k in 0..count {
        let is_last = k + 1 == count;
        let answer = found.answers.get(k);
        let log = pair_log(
            alloc,
            &found.left.circuits,
            answer,
            is_last,
            top,
            bad,
            design,
        )?;
        logs.push(log)?;
    }
    Ok(logs)
}
