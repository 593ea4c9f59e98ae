//! The section of partners.

ghost use Rattle.std.specs.Prelude.{◌≡◌, ◌++◌, [], IfOk, OnOk, map, slice_get};
ghost use Rattle.std.specs.Option.{option_map};
ghost use Rattle.match_types.specs.Plain.{plain_answer};
ghost use Rattle.net_model.specs.Rows.{plain_circuit};
ghost use Rattle.view_cross.specs.Matched.{apart_rows};
ghost use Rattle.view_cross.specs.Pair.{pair_text};
ghost use Rattle.view_cross.specs.Whole.{counts_of};
ghost use Rattle.view_cross.specs.declared.rows.Mark.TheVariants.{Unmatched};
ghost use Rattle.view_file.specs.Cross.{all_texts, left_texts, lists_of, log_at, logs_of, mark_of};
ghost use Rattle.view_file.specs.Cross.{no_counts, proposed, right_texts, rows_of};
ghost use Rattle.view_file.specs.Shown.{answered_at, answers_in, pairs_from, shown_text};

use job_graph::{Reads, Results};
use list_base::number;
use match_types::{Answer, Evidence};
use net_model::Circuit;
use net_names::Name;
use std::alloc::{AllocError, Global};
use view_cross::{Counts, Mark, Row, apart_rows, matched_rows, push_pair};
use view_netlist::name_at;

/// What a database shows of two netlists: the circuits of both, by pair; with each left one the
/// lines that the browser shows; the rows of the pairs, which stand for those that don't match, and
/// past the last of which each node is alone; and the answers, without which none has a partner.
#[derive(Clone, Copy)]
pub struct Shown<'a, 'b> {
    pub lefts: &'a [Circuit],
    pub rights: &'a [Circuit],
    pub logs: &'b [Vec<Vec<u8>>],
    pub proposals: &'b [Vec<Row>],
    pub answers: Option<&'a Results<Answer>>,
}

fn counts_of(circuit: &Circuit) -> Result<Counts, AllocError>
    ensures { IfOk result (λ c. c ≡ counts_of (plain_circuit circuit.now)) }
{
    Ok(Counts {
        nets: number(circuit.nets.len())?,
        pins: number(circuit.pins.len())?,
        devices: number(circuit.devices.len())?,
        calls: number(circuit.calls.len())?,
    })
}

fn no_counts() -> Counts
    ensures { result ≡ no_counts }
{
    Counts {
        nets: 0,
        pins: 0,
        devices: 0,
        calls: 0,
    }
}

fn mark_of(answer: &Answer) -> Mark
    ensures { result ≡ mark_of (plain_answer answer.now) }
{
    match answer {
        Answer::Match(_) => Mark::Matched,
        Answer::Differs(Evidence::Round { .. }) => Mark::Unmatched,
        Answer::Differs(Evidence::Tree(_)) => Mark::Unmatched,
        Answer::Undecided(_) => Mark::Skipped,
        Answer::Skipped(_) => Mark::Skipped,
    }
}

// The rows of circuits that don't match: as proposed, or each node alone.
fn proposed(
    alloc: Global,
    a: &Circuit,
    b: &Circuit,
    proposal: Option<&[Row]>,
) -> Result<Vec<Row>, AllocError>
    ensures { IfOk result (λ rows. rows.items ≡ proposed (plain_circuit a.now)
        (plain_circuit b.now) (option_map (λ rows. rows.now) proposal.entry)) }
{
    let Some(rows) = proposal else {
        let lefts = counts_of(a)?;
        let rights = counts_of(b)?;
        return apart_rows(alloc, lefts, rights);
    };
    let mut out = Vec::new(alloc);
    out.extend_from_slice(rows)?;
    Ok(out)
}

fn rows_of(
    alloc: Global,
    a: &Circuit,
    b: &Circuit,
    proposal: Option<&[Row]>,
    answer: &Answer,
) -> Result<Vec<Row>, AllocError>
    ensures { IfOk result (λ rows. rows.items ≡ rows_of (plain_circuit a.now)
        (plain_circuit b.now) (option_map (λ rows. rows.now) proposal.entry)
        (plain_answer answer.now)) }
{
    match answer {
        Answer::Match(f) => matched_rows(alloc, &f.nets, &a.pins, &b.pins, &f.devices, &f.calls),
        Answer::Differs(Evidence::Round { .. }) => proposed(alloc, a, b, proposal),
        Answer::Differs(Evidence::Tree(_)) => proposed(alloc, a, b, proposal),
        Answer::Undecided(_) => proposed(alloc, a, b, proposal),
        Answer::Skipped(_) => proposed(alloc, a, b, proposal),
    }
}

// The lines of the log of a circuit's number; none past the last.
fn log_at(logs: &[Vec<Vec<u8>>], k: u32) -> &[Vec<u8>]
    ensures { map (λ line. line.items) result.now ≡ log_at (logs_of logs.now) k }
{
    match logs.get(k as usize) {
        Some(log) => log.as_slice(),
        None => &[],
    }
}

// The circuit of a number; none past the last.
fn circuit_at(circuits: &[Circuit], k: u32) -> Option<&Circuit>
    ensures { option_map (λ c. plain_circuit c.now) result
        ≡ slice_get (map plain_circuit circuits.now) k }
{
    circuits.get(k as usize)
}

// What is proposed for the pair of a number; none past the last.
fn proposal_at(proposals: &[Vec<Row>], k: u32) -> Option<&[Row]>
    ensures { option_map (λ rows. rows.now) result ≡ slice_get (lists_of proposals.now) k }
{
    match proposals.get(k as usize) {
        Some(rows) => Some(rows.as_slice()),
        None => None,
    }
}

// The pair of a number, with its answer; nothing where a side has no circuit of it.
fn push_numbered(
    alloc: Global,
    out: &mut Vec<u8>,
    names: &[Name],
    shown: &Shown<'_, '_>,
    k: u32,
    answer: &Answer,
) -> Result<(), AllocError>
    ensures { OnOk result (out.new.items ≡ out.old.items ++ answered_at names.now shown.now k
        (plain_answer answer.now)) }
{
    let Some(a) = circuit_at(shown.lefts, k) else {
        return Ok(());
    };
    let Some(b) = circuit_at(shown.rights, k) else {
        return Ok(());
    };
    let rows = rows_of(alloc, a, b, proposal_at(shown.proposals, k), answer)?;
    let (name, log) = (name_at(names, k), log_at(shown.logs, k));
    push_pair(
        alloc,
        out,
        name,
        b.name.bytes(),
        mark_of(answer),
        log,
        &rows,
    )
}

// The pairs of circuits of one number, with their answers.
fn push_answers(
    alloc: Global,
    out: &mut Vec<u8>,
    names: &[Name],
    shown: &Shown<'_, '_>,
    answers: &Results<Answer>,
) -> Result<(), AllocError>
    ensures { OnOk result (out.new.items ≡ out.old.items ++ pairs_from names.now shown.now 0
        (map plain_answer answers.now)) }
{
    let count = number(answers.len())?;
    'pairs: for k in 0..count {
        let answer = answers.get(k);
        push_numbered(alloc, out, names, shown, k, answer)?;
    }
    Ok(())
}

fn push_left(
    alloc: Global,
    out: &mut Vec<u8>,
    name: &[u8],
    log: &[Vec<u8>],
    a: &Circuit,
) -> Result<(), AllocError>
    ensures { OnOk result (out.new.items ≡ out.old.items ++ pair_text name.now [] Unmatched
        (map (λ line. line.items) log.now)
        (apart_rows (counts_of (plain_circuit a.now)) no_counts)) }
{
    let counts = counts_of(a)?;
    let rows = apart_rows(alloc, counts, no_counts())?;
    push_pair(alloc, out, name, b"", Mark::Unmatched, log, &rows)
}

fn push_lefts(
    alloc: Global,
    out: &mut Vec<u8>,
    names: &[Name],
    logs: &[Vec<Vec<u8>>],
    lefts: &[Circuit],
) -> Result<(), AllocError>
    ensures { OnOk result (out.new.items ≡ out.old.items
        ++ left_texts names.now (logs_of logs.now) 0 (map plain_circuit lefts.now)) }
{
    number(lefts.len())?;
    let mut k = 0;
    let mut rest = lefts;
    'circuits: while let [a, more @ ..] = rest {
        push_left(alloc, out, name_at(names, k), log_at(logs, k), a)?;
        k += 1;
        rest = more;
    }
    Ok(())
}

fn push_right(alloc: Global, out: &mut Vec<u8>, b: &Circuit) -> Result<(), AllocError>
    ensures { OnOk result (out.new.items ≡ out.old.items ++ pair_text [] b.now.name Unmatched []
        (apart_rows no_counts (counts_of (plain_circuit b.now)))) }
{
    let counts = counts_of(b)?;
    let rows = apart_rows(alloc, no_counts(), counts)?;
    push_pair(alloc, out, b"", b.name.bytes(), Mark::Unmatched, &[], &rows)
}

fn push_rights(alloc: Global, out: &mut Vec<u8>, rights: &[Circuit]) -> Result<(), AllocError>
    ensures { OnOk result (out.new.items ≡ out.old.items
        ++ right_texts (map plain_circuit rights.now)) }
{
    let mut rest = rights;
    'circuits: while let [b, more @ ..] = rest {
        push_right(alloc, out, b)?;
        rest = more;
    }
    Ok(())
}

fn push_all(
    alloc: Global,
    out: &mut Vec<u8>,
    names: &[Name],
    shown: &Shown<'_, '_>,
) -> Result<(), AllocError>
    ensures { OnOk result (out.new.items ≡ out.old.items ++ all_texts names.now
        (logs_of shown.now.logs.now) (map plain_circuit shown.now.lefts.now)
        (map plain_circuit shown.now.rights.now) (lists_of shown.now.proposals.now)
        (answers_in shown.now)) }
{
    match shown.answers {
        Some(found) => push_answers(alloc, out, names, shown, found),
        None => {
            push_lefts(alloc, out, names, shown.logs, shown.lefts)?;
            push_rights(alloc, out, shown.rights)
        }
    }
}

/// Appends the section of partners: each pair of circuits with its answer and the partners of its
/// nodes, or, where there are no answers, each circuit alone. `names` are those of the layout's
/// circuits in its section. Linear in the text, but for the pins of matches. An `Err` is want of
/// memory, or 2^32 of a kind.
pub fn push_cross(
    alloc: Global,
    out: &mut Vec<u8>,
    names: &[Name],
    shown: &Shown<'_, '_>,
) -> Result<(), AllocError>
    ensures { OnOk result (out.new.items ≡ out.old.items ++ shown_text names.now shown.now) }
{
    out.extend_from_slice(b"\nZ(")?;
    push_all(alloc, out, names, shown)?;
    out.extend_from_slice(b"\n)\n")
}
