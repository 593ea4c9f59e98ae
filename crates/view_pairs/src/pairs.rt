//! The proposals of all pairs of two netlists.

ghost use Rattle.std.specs.Prelude.{◌≡◌, ◌<◌, ℕ, IfOk, OnOk, length, map};
ghost use Rattle.net_model.specs.Rows.{plain_circuit};
ghost use Rattle.view_pairs.specs.Alike.{pin_marks};
ghost use Rattle.view_pairs.specs.Partners.{ArePartners};
ghost use Rattle.view_pairs.specs.Proposals.{AreAlike, AreProposed, IsProposal, is_told};
ghost use Rattle.view_cross.specs.Whole.{AreWhole};
ghost use Rattle.view_cross.specs.declared.rows.Kind.TheVariants.{Net, Pin};
ghost use Rattle.view_pairs.specs.Added.{AddsPair};
ghost use Rattle.view_pairs.specs.Sure.{AreMatched, AreNamed, HaveSure};
ghost use Rattle.view_pairs.specs.Only.{AreOnlyFirst, is_given};
ghost use Rattle.view_pairs.specs.Wanted.{AreWanted, TakesAlike, TakesWanted};
ghost use Rattle.view_pairs.specs.Rows.{asked, proposal_rows};

use crate::alike::{Sides, sides_of};
use crate::couples::partners_of;
use crate::partners::{Couple, Partners, claimed};
use crate::proposal::Proposal;
use crate::rows::{proposal_rows, show};
use crate::search::searched;
use crate::wanted::{Wanted, found, matched, named_first, pin_couples};
use job_graph::Reads;
use list_base::number;
use match_types::Answer;
use net_model::Circuit;
use std::alloc::{AllocError, Global};
use view_cross::{Kind, Row};

// The partners of nets that couples give.
fn net_partners(
    alloc: Global,
    sides: &Sides<'_>,
    couples: &[Couple],
) -> Result<Partners, AllocError>
    requires left_pins { sides.now.left_pins.items ≡ pin_marks (plain_circuit sides.now.left.now) }
    requires right_pins { sides.now.right_pins.items
        ≡ pin_marks (plain_circuit sides.now.right.now) }
    ensures partners { IfOk result (λ x. ArePartners (length (plain_circuit sides.now.left.now).nets)
        (length (plain_circuit sides.now.right.now).nets) x) }
    ensures alike { IfOk result (λ x. AreAlike (plain_circuit sides.now.left.now)
        (plain_circuit sides.now.right.now) x Net x) }
    ensures first { IfOk result (λ x. TakesAlike (plain_circuit sides.now.left.now)
        (plain_circuit sides.now.right.now) x Net (length (plain_circuit sides.now.left.now).nets)
        (length (plain_circuit sides.now.right.now).nets) couples.now x) }
{
    let none = claimed(alloc, 0, 0, &[])?;
    let (n, m) = (sides.left.nets.len(), sides.right.nets.len());
    partners_of(alloc, sides, &none, Kind::Net, n, m, couples)
}

// The partners of pins, the nets having these.
fn pin_partners(alloc: Global, sides: &Sides<'_>, nets: &Partners) -> Result<Partners, AllocError>
    requires left_pins { sides.now.left_pins.items ≡ pin_marks (plain_circuit sides.now.left.now) }
    requires right_pins { sides.now.right_pins.items
        ≡ pin_marks (plain_circuit sides.now.right.now) }
    ensures partners { IfOk result (λ x. ArePartners (length (plain_circuit sides.now.left.now).pins)
        (length (plain_circuit sides.now.right.now).pins) x) }
    ensures alike { IfOk result (λ x. AreAlike (plain_circuit sides.now.left.now)
        (plain_circuit sides.now.right.now) nets.now Pin x) }
{
    let (a, b) = (sides.left, sides.right);
    let couples = pin_couples(alloc, nets, &a.pins, &b.pins, b.nets.len())?;
    let (n, m) = (a.pins.len(), b.pins.len());
    partners_of(alloc, sides, nets, Kind::Pin, n, m, &couples)
}

// The proposal that couples give.
fn proposal_of(alloc: Global, sides: &Sides<'_>, wanted: &Wanted) -> Result<Proposal, AllocError>
    requires left_pins { sides.now.left_pins.items ≡ pin_marks (plain_circuit sides.now.left.now) }
    requires right_pins { sides.now.right_pins.items
        ≡ pin_marks (plain_circuit sides.now.right.now) }
    ensures sound { IfOk result (λ x. IsProposal (plain_circuit sides.now.left.now)
        (plain_circuit sides.now.right.now) x) }
    ensures takes { IfOk result (λ x. TakesWanted (plain_circuit sides.now.left.now)
        (plain_circuit sides.now.right.now) wanted.now x) }
{
    let (a, b) = (sides.left, sides.right);
    let nets = net_partners(alloc, sides, &wanted.nets)?;
    let pins = pin_partners(alloc, sides, &nets)?;
    let (n, m) = (a.devices.len(), b.devices.len());
    let devices = partners_of(alloc, sides, &nets, Kind::Device, n, m, &wanted.devices)?;
    let (n, m) = (a.calls.len(), b.calls.len());
    let calls = partners_of(alloc, sides, &nets, Kind::Call, n, m, &wanted.calls)?;
    Ok(Proposal {
        nets,
        pins,
        devices,
        calls,
    })
}

// Nets that alone have a name on both sides, and what a search finds.
fn looked_for(alloc: Global, sides: &Sides<'_>, before: &[Proposal]) -> Result<Wanted, AllocError>
    ensures { IfOk result (λ w. AreOnlyFirst is_given sides.now.left.now.nets.items
        sides.now.right.now.nets.items w.nets.items) }
{
    let result = searched(alloc, sides, before)?;
    let wanted = found(alloc, &result)?;
    named_first(alloc, sides, wanted)
}

// The couples of a match, or those that are looked for.
fn wanted_of(
    alloc: Global,
    sides: &Sides<'_>,
    before: &[Proposal],
    answer: &Answer,
) -> Result<Wanted, AllocError>
    ensures { IfOk result (AreWanted (plain_circuit sides.now.left.now)
        (plain_circuit sides.now.right.now) answer.now) }
{
    match answer {
        Answer::Match(pairing) => matched(alloc, pairing),
        Answer::Differs(_) => looked_for(alloc, sides, before),
        Answer::Undecided(_) => looked_for(alloc, sides, before),
        Answer::Skipped(_) => looked_for(alloc, sides, before),
    }
}

// The rows of a proposal.
fn rows_of(
    alloc: Global,
    told: bool,
    sides: &Sides<'_>,
    before: &[Proposal],
    proposal: &Proposal,
) -> Result<Vec<Row>, AllocError>
    requires { sides.now.left_pins.items ≡ pin_marks (plain_circuit sides.now.left.now) }
    ensures { IfOk result (λ rows. rows.items ≡ proposal_rows (asked told
        (plain_circuit sides.now.left.now) (plain_circuit sides.now.right.now) before.now
        proposal.now)) }
{
    let shown = show(alloc, told, sides, before, proposal)?;
    proposal_rows(alloc, &shown)
}

/// A proposal and its rows.
#[derive(Drop)]
struct Told {
    proposal: Proposal,
    rows: Vec<Row>,
}

fn told_pair(
    alloc: Global,
    left: &Circuit,
    right: &Circuit,
    before: &[Proposal],
    answer: &Answer,
    told: bool,
) -> Result<Told, AllocError>
    ensures sound { IfOk result (λ x. IsProposal (plain_circuit left.now)
        (plain_circuit right.now) x.proposal) }
    ensures rows { IfOk result (λ x. x.rows.items ≡ proposal_rows (asked told
        (plain_circuit left.now) (plain_circuit right.now) before.now x.proposal)) }
    ensures sure { IfOk result (λ x. HaveSure (plain_circuit left.now)
        (plain_circuit right.now) answer.now (proposal_rows (asked told (plain_circuit left.now)
        (plain_circuit right.now) before.now x.proposal))) }
{
    let sides = sides_of(alloc, left, right)?;
    let wanted = wanted_of(alloc, &sides, before, answer)?;
    let proposal = proposal_of(alloc, &sides, &wanted)?;
    let rows = rows_of(alloc, told, &sides, before, &proposal)?;
    Ok(Told { proposal, rows })
}

/// The proposals of the pairs up to one, and the rows of each.
#[derive(Drop)]
struct Proposed {
    proposals: Vec<Proposal>,
    rows: Vec<Vec<Row>>,
}

// Adds that of the next pair.
fn add_pair(
    alloc: Global,
    out: &mut Proposed,
    left: &Circuit,
    right: &Circuit,
    answer: &Answer,
    told: bool,
) -> Result<(), AllocError>
    ensures { OnOk result (AddsPair told (plain_circuit left.now) (plain_circuit right.now)
        answer.now out.old out.new) }
{
    let found = told_pair(alloc, left, right, &out.proposals, answer, told)?;
    out.proposals.push(found.proposal)?;
    out.rows.push(found.rows)?;
    Ok(())
}

// Whether names tell the pins of a pair apart.
fn is_told(same_pins: bool, count: u32, k: u32) -> bool
    requires { k < count }
    ensures { result ≡ is_told same_pins count k }
{
    same_pins && k + 1 == count
}

/// For each pair of two netlists that are compared by position its rows: the partners of its nets,
/// pins, devices and calls that its pairing gives, or, where it isn't a match, those that are
/// proposed for it, among them the only nets of a name. Names tell nothing of devices and calls,
/// since these have none: a netlist keeps no card's own name, and a layout has no such names. With
/// `same_pins` names tell the last pair's pins apart. For show: what is sure is the answer. Near
/// linear. The error is want of memory, or 2^32 nodes of a pair.
pub fn proposals<R: Reads<Answer>>(
    alloc: Global,
    lefts: &[Circuit],
    rights: &[Circuit],
    answers: &R,
    same_pins: bool,
) -> Result<Vec<Vec<Row>>, AllocError>
    requires rights { length rights.now ≡ length lefts.now }
    requires answers { (k : ℕ) → k < length lefts.now → R.may_read answers.now k }
    ensures proposed { IfOk result (λ rows. AreProposed (map plain_circuit lefts.now)
        (map plain_circuit rights.now) same_pins (map (λ r. r.items) rows.items)) }
    ensures whole { IfOk result (λ rows. AreWhole (map plain_circuit lefts.now)
        (map plain_circuit rights.now) (map (λ r. r.items) rows.items)) }
    ensures matched { IfOk result (λ rows. AreMatched (map plain_circuit lefts.now)
        (map plain_circuit rights.now) (λ k. R.value answers.now k)
        (map (λ r. r.items) rows.items)) }
    ensures named { IfOk result (λ rows. AreNamed (map plain_circuit lefts.now)
        (map plain_circuit rights.now) (λ k. R.value answers.now k)
        (map (λ r. r.items) rows.items)) }
{
    let count = number(lefts.len())?;
    let mut out = Proposed {
        proposals: Vec::new(alloc),
        rows: Vec::new(alloc),
    };
    for k in 0..count {
        let told = is_told(same_pins, count, k);
        let left = &lefts[k as usize];
        let right = &rights[k as usize];
        add_pair(alloc, &mut out, left, right, answers.get(k), told)?;
    }
    Ok(out.rows)
}
