//! The comparison of a layout's netlist with a schematic.
ghost use Rattle.std.specs.Prelude.{◌≡◌, ◌&&◌, ◌||◌, ◌↔◌, ◌<◌, IfOk, IfSome, IsNone};
ghost use Rattle.std.specs.Prelude.{is_some, length, map, true};
ghost use Rattle.std.specs.List.{list_any};
ghost use Rattle.device_merge.specs.Merged.{IsNarrow, has_alike};
ghost use Rattle.match_flow.specs.Again.{IsAnswered};
ghost use Rattle.match_types.specs.Plain.{plain_answer};
ghost use Rattle.match_types.specs.Answered.{asked_of};
ghost use Rattle.merge_laws.specs.Grouped.{merged_netlist};
ghost use Rattle.net_align.specs.Compared.{AreAligned, AreCalleesFirst, AreComparable};
ghost use Rattle.net_align.specs.Compared.{HasNoPartner, IsAlignable};
ghost use Rattle.net_align.specs.Names.{left_names, right_names};
ghost use Rattle.net_model.specs.Rows.{plain_netlist};
ghost use Rattle.pair_jobs.specs.Answers.{AreAllAnswers, is_difference};
ghost use Rattle.plain_netlist.specs.Lists.{AreApart};

use crate::phase::PairPhase;
use device_merge::merge_again;
use job_board::{Crew, Gate, run_phase};
use job_graph::Results;
use match_types::Answer;
use net_align::{Aligned, align};
use net_model::Netlist;
use net_names::Name;
use pair_jobs::some_differs;
use std::alloc::{AllocError, Global};
use std::sync::Wait;
use std::thread::Threads;

/// Two netlists made comparable, and the answer of each pair of their circuits; where they were
/// merged again, of their circuits with each group of alike transistors as one once more.
#[derive(Drop)]
pub struct Comparison {
    pub left: Netlist,
    pub right: Netlist,
    pub merged_again: bool,
    pub answers: Results<Answer>,
}

/// What a comparison goes by: circuits that are partners whatever their names are, how many guesses
/// of a pair may end refuted, whether names tell the tops' pins apart, and whether alike
/// transistors are made one once more where a pair differs.
#[derive(Clone, Copy)]
pub struct Settings<'a> {
    pub same: &'a [(Name, Name)],
    pub limit: u32,
    pub same_pins: bool,
    pub merges_again: bool,
}

// The answers of all pairs.
fn answer_pairs<R: Threads + Wait + Sync, G: Gate + Sync>(
    alloc: Global,
    left: &Netlist,
    right: &Netlist,
    settings: &Settings<'_>,
    crew: &Crew<R, G>,
) -> Result<Results<Answer>, AllocError>
    requires sides { AreComparable (plain_netlist left.now) (plain_netlist right.now) }
    ensures { IfOk result (λ answers. AreAllAnswers (plain_netlist left.now)
        (plain_netlist right.now) (asked_of (plain_netlist left.now) settings.now.limit
        settings.now.same_pins) (map plain_answer answers)) }
{
    let phase = PairPhase::new(alloc, left, right, settings.limit, settings.same_pins)?;
    run_phase(alloc, &phase, crew)
}

// Whether a pair differs and the settings say that all are then answered again.
fn asks_again(settings: &Settings<'_>, first: &Results<Answer>) -> Result<bool, AllocError>
    ensures { IfOk result (λ asked. asked ≡ (settings.now.merges_again
        && list_any is_difference (map plain_answer first.now))) }
{
    if !settings.merges_again {
        return Ok(false);
    }
    some_differs(first)
}

// The answers of all pairs, each group of alike transistors of a circuit being one once more; none
// where none are alike.
fn answer_merged<R: Threads + Wait + Sync, G: Gate + Sync>(
    alloc: Global,
    left: &Netlist,
    right: &Netlist,
    settings: &Settings<'_>,
    crew: &Crew<R, G>,
) -> Result<Option<Results<Answer>>, AllocError>
    requires sides { AreComparable (plain_netlist left.now) (plain_netlist right.now) }
    requires left_narrow { IsNarrow (plain_netlist left.now) }
    requires right_narrow { IsNarrow (plain_netlist right.now) }
    ensures alike { IfOk result (λ found. is_some found
        ≡ (has_alike (plain_netlist left.now) || has_alike (plain_netlist right.now))) }
    ensures answers { IfOk result (λ found. IfSome found (λ answers. AreAllAnswers
        (merged_netlist (plain_netlist left.now)) (merged_netlist (plain_netlist right.now))
        (asked_of (plain_netlist left.now) settings.now.limit settings.now.same_pins)
        (map plain_answer answers))) }
{
    let near = merge_again(alloc, left)?;
    let far = merge_again(alloc, right)?;
    if !near.had_alike && !far.had_alike {
        return Ok(None);
    }
    let answers = answer_pairs(alloc, &near.netlist, &far.netlist, settings, crew)?;
    Ok(Some(answers))
}

// The answers of all pairs, and whether they are of circuits merged once more.
#[derive(Drop)]
struct Answered {
    merged_again: bool,
    answers: Results<Answer>,
}

// The answers of all pairs; where a pair differs and the settings say so, of the circuits merged
// once more.
fn answer<R: Threads + Wait + Sync, G: Gate + Sync>(
    alloc: Global,
    left: &Netlist,
    right: &Netlist,
    settings: &Settings<'_>,
    crew: &Crew<R, G>,
) -> Result<Answered, AllocError>
    requires sides { AreComparable (plain_netlist left.now) (plain_netlist right.now) }
    requires narrow { settings.now.merges_again ≡ true
        → IsNarrow (plain_netlist left.now) × IsNarrow (plain_netlist right.now) }
    ensures { IfOk result (λ a. IsAnswered settings.now.merges_again settings.now.limit
        settings.now.same_pins (plain_netlist left.now) (plain_netlist right.now) a.merged_again
        (map plain_answer a.answers)) }
{
    let first = answer_pairs(alloc, left, right, settings, crew)?;
    if !asks_again(settings, &first)? {
        return Ok(Answered {
            merged_again: false,
            answers: first,
        });
    }
    match answer_merged(alloc, left, right, settings, crew)? {
        Some(answers) => Ok(Answered {
            merged_again: true,
            answers,
        }),
        None => Ok(Answered {
            merged_again: false,
            answers: first,
        }),
    }
}

/// The layout below its top compared with the schematic; nothing where the top has no partner.
/// Partners are as `align` finds them, and a pair is compared after those that its left circuit
/// calls. Where a pair differs and the settings say so, all pairs are compared again, each group of
/// alike transistors of a circuit being one once more, as `merge_again` makes it: of those that
/// stand together since circuits were flattened; unless none are alike. The answer is the same for
/// every number of workers. The error is want of memory.
pub fn compare<R: Threads + Wait + Sync, G: Gate + Sync>(
    alloc: Global,
    layout: &Netlist,
    top: u32,
    schematic: &Netlist,
    settings: &Settings<'_>,
    crew: &Crew<R, G>,
) -> Result<Option<Comparison>, AllocError>
    requires layout { IsAlignable (plain_netlist layout.now) }
    requires schematic { IsAlignable (plain_netlist schematic.now) }
    requires order { AreCalleesFirst (plain_netlist layout.now) }
    requires top { top < length layout.now.circuits.items }
    requires lefts { AreApart (left_names settings.now.same.now) }
    requires rights { AreApart (right_names settings.now.same.now) }
    requires narrow { settings.now.merges_again ≡ true
        → IsNarrow (plain_netlist layout.now) × IsNarrow (plain_netlist schematic.now) }
    ensures none { IfOk result (λ found. IsNone found
        ↔ HasNoPartner (plain_netlist layout.now) (plain_netlist schematic.now) top
        settings.now.same.now) }
    ensures pair { IfOk result (λ found. IfSome found (λ c.
        AreAligned (plain_netlist layout.now) (plain_netlist schematic.now) top
        settings.now.same.now (plain_netlist c.left) (plain_netlist c.right))) }
    ensures comparable { IfOk result (λ found. IfSome found (λ c.
        AreComparable (plain_netlist c.left) (plain_netlist c.right))) }
    ensures answers { IfOk result (λ found. IfSome found (λ c. IsAnswered
        settings.now.merges_again settings.now.limit settings.now.same_pins
        (plain_netlist c.left) (plain_netlist c.right) c.merged_again
        (map plain_answer c.answers))) }
{
    let Some(aligned) = align(alloc, layout, top, schematic, settings.same, crew)? else {
        return Ok(None);
    };
    let Aligned { left, right } = aligned;
    let answered = answer(alloc, &left, &right, settings, crew)?;
    let Answered {
        merged_again,
        answers,
    } = answered;
    Ok(Some(Comparison {
        left,
        right,
        merged_again,
        answers,
    }))
}
