//! Layout and schematic compared in turns.
ghost use Rattle.std.specs.Prelude.{◌≡◌, ◌<◌, ◌++◌, IfOk, IfSome, IsNone, OnOk, length, slice_get};
ghost use Rattle.align_laws.specs.Partners.{AreSides};
ghost use Rattle.match_report.specs.Apart.{apart_texts};
ghost use Rattle.match_report.specs.Pairs.{name_of};
ghost use Rattle.match_report.specs.Report.{again_line, answers_of, lefts_of, rights_of};
ghost use Rattle.net_align.specs.Compared.{AreCalleesFirst, IsAlignable};
ghost use Rattle.net_align.specs.Names.{left_names, right_names};
ghost use Rattle.net_model.specs.Rows.{plain_netlist};
ghost use Rattle.pair_turns.specs.Seen.{names_in};
ghost use Rattle.plain_netlist.specs.Lists.{AreApart};
ghost use Rattle.report_file.specs.Combined.{AreNarrow, merges_again};
ghost use Rattle.report_file.specs.Compared.{IsComparison};
ghost use Rattle.report_file.specs.Turns.{IsAloneByRules, others, others_at};
ghost use Rattle.report_file.specs.Taken.{AddsLast, AddsTurn, IsTaken};
ghost use Rattle.rule_text.specs.Seen.{rules_seen};
ghost use Rattle.rule_text.specs.Sound.{IsSound};

use job_board::{Crew, Gate};
use match_flow::{Comparison, Settings, compare};
use match_report::{Compared, push_again, push_apart, push_limit};
use net_align::partner_of_top;
use net_model::Netlist;
use net_names::{Name, folded};
use pair_turns::{Alone, alone_lines, first_over, going, is_any, longest_name, same_alone};
use rule_text::RuleSet;
use std::alloc::{AllocError, Global};
use std::sync::Wait;
use std::thread::Threads;

/// What the comparisons in turns come to: the last of them, `None` where the top has no partner;
/// and the report's lines on the pairs that were taken apart before it, or on the circuit that would
/// be too large without them.
#[derive(Drop)]
pub struct Turns {
    pub lines: Vec<u8>,
    pub compared: Option<Compared>,
}

// Whether the rules combine devices and flatten circuits.
fn merges_again(rules: &RuleSet) -> bool
    ensures { result ≡ merges_again (rules_seen rules.now) }
{
    let names_none = rules.flat_layouts.is_empty() && rules.flat_schematics.is_empty();
    rules.combine && (rules.flattens_unmatched || !names_none)
}

// Layout and schematic compared by the rules, in the form that a report has; partners are as these
// lines say.
fn compare_by<R: Threads + Wait + Sync, G: Gate + Sync>(
    alloc: Global,
    rules: &RuleSet,
    layout: &Netlist,
    top: u32,
    schematic: &Netlist,
    same: &[(Name, Name)],
    crew: &Crew<R, G>,
) -> Result<Option<Compared>, AllocError>
    requires layout { IsAlignable (plain_netlist layout.now) }
    requires schematic { IsAlignable (plain_netlist schematic.now) }
    requires order { AreCalleesFirst (plain_netlist layout.now) }
    requires top { top < length layout.now.circuits.items }
    requires lefts { AreApart (left_names same.now) }
    requires rights { AreApart (right_names same.now) }
    requires narrow { AreNarrow (rules_seen rules.now) (plain_netlist layout.now)
        (plain_netlist schematic.now) }
    ensures { IfOk result (IsComparison (rules_seen rules.now) (plain_netlist layout.now) top
        (plain_netlist schematic.now) same.now) }
{
    let settings = Settings {
        same,
        limit: rules.max_guesses,
        same_pins: rules.tells_pins,
        merges_again: merges_again(rules),
    };
    let Some(found) = compare(alloc, layout, top, schematic, &settings, crew)? else {
        return Ok(None);
    };
    let Comparison {
        left,
        right,
        merged_again,
        answers,
    } = found;
    Ok(Some(Compared {
        left,
        right,
        merged_again,
        answers,
    }))
}

/// The name of the circuit of this number.
pub fn circuit_name(netlist: &Netlist, number: usize) -> &Name
    requires { number < length netlist.now.circuits.items }
    ensures { result.now ≡ name_of (slice_get (plain_netlist netlist.now).circuits number) }
{
    &netlist.circuits[number].name
}

// The names that aren't this one, small letters being large ones.
fn others(alloc: Global, names: &[Name], name: &Name) -> Result<Vec<Name>, AllocError>
    ensures { IfOk result (λ kept. kept.items ≡ others name.now names.now) }
{
    let out = folded(alloc, name)?;
    let mut kept = Vec::new(alloc);
    let mut rest = names;
    'names: while let [other, more @ ..] = rest {
        if folded(alloc, other)?.bytes() != out.bytes() {
            kept.push(other.try_clone(alloc)?)?;
        }
        rest = more;
    }
    Ok(kept)
}

// The circuits of the schematic that the rules give no partner; none where the top has none.
fn rights_alone(
    alloc: Global,
    names: &[Name],
    schematic: &Netlist,
    partner: Option<usize>,
) -> Result<Vec<Name>, AllocError>
    requires { IfSome partner (λ b. b < length schematic.now.circuits.items) }
    ensures { IfOk result (λ rights. rights.items
        ≡ others_at (plain_netlist schematic.now) partner names.now) }
{
    match partner {
        Some(b) => others(alloc, names, circuit_name(schematic, b)),
        None => Ok(Vec::new(alloc)),
    }
}

// The circuits that the rules give no partner: those of their lines, but for the two tops.
fn alone_by_rules(
    alloc: Global,
    rules: &RuleSet,
    layout: &Netlist,
    top: u32,
    schematic: &Netlist,
) -> Result<Alone, AllocError>
    requires rules { IsSound (rules_seen rules.now) }
    requires schematic { IsAlignable (plain_netlist schematic.now) }
    requires top { top < length layout.now.circuits.items }
    ensures { IfOk result (λ alone. IsAloneByRules (rules_seen rules.now)
        (plain_netlist layout.now) top (plain_netlist schematic.now) (names_in alone)) }
{
    let name = circuit_name(layout, top as usize);
    let partner = partner_of_top(alloc, layout, top, schematic, &rules.same)?;
    let lefts = others(alloc, &rules.flat_layouts, name)?;
    let rights = rights_alone(alloc, &rules.flat_schematics, schematic, partner)?;
    Ok(Alone { lefts, rights })
}

// The lines of a turn, in which these pairs go.
fn push_turn(
    alloc: Global,
    lines: &mut Vec<u8>,
    found: &Compared,
    goes: &[bool],
) -> Result<(), AllocError>
    requires { length goes.now ≡ length found.now.answers }
    ensures { OnOk result (lines.new.items ≡ lines.old.items
        ++ (again_line found.now.merged_again ++ apart_texts (lefts_of found.now)
        (rights_of found.now) 0 goes.now (answers_of found.now))) }
{
    let Compared {
        left,
        right,
        merged_again,
        answers,
    } = found;
    push_again(lines, *merged_again)?;
    push_apart(alloc, lines, &left.circuits, &right.circuits, goes, answers)
}

// The marks of the pairs that are taken apart after a comparison, with their lines added; none
// where it is the last one, which has a line where a circuit would become too large.
fn take_apart(
    alloc: Global,
    rules: &RuleSet,
    found: &Compared,
    lines: &mut Vec<u8>,
) -> Result<Option<Vec<bool>>, AllocError>
    requires sides { AreSides (plain_netlist found.now.left) (plain_netlist found.now.right) }
    requires count { length found.now.answers ≡ length found.now.left.circuits.items }
    ensures last { IfOk result (λ next. IsNone next
        → AddsLast (rules_seen rules.now) found.now lines.old.items lines.new.items) }
    ensures turn { IfOk result (λ next. IfSome next (λ goes.
        AddsTurn (rules_seen rules.now) found.now goes.items lines.old.items lines.new.items)) }
{
    if !rules.flattens_unmatched {
        return Ok(None);
    }
    let goes = going(alloc, &found.left, &found.right, &found.answers)?;
    if !is_any(&goes) {
        return Ok(None);
    }
    if let Some(k) = first_over(alloc, &found.left, &found.right, &goes)? {
        push_limit(alloc, lines, &found.left.circuits, k)?;
        return Ok(None);
    }
    push_turn(alloc, lines, found, &goes)?;
    Ok(Some(goes))
}

/// The comparisons of a layout, below its top, with a schematic, one after the other. Partners, the
/// limit of refuted guesses in each pair, and whether names tell the tops' pins apart, are those of
/// the rules. Where these combine devices and flatten circuits, `compare` makes alike transistors
/// one once more. Where the rules say so, after a comparison with pairs that differ, those that
/// `going` tells are taken apart, and both netlists are compared again, until none differs or all
/// is flat, or a circuit would have more than 2^24 devices and calls. An `Err` is want of memory,
/// or 2^32 pairs or more. Cost: that of each comparison, of which there are at most as many as
/// circuits of the layout.
pub fn compare_in_turns<R: Threads + Wait + Sync, G: Gate + Sync>(
    alloc: Global,
    rules: &RuleSet,
    layout: &Netlist,
    top: u32,
    schematic: &Netlist,
    crew: &Crew<R, G>,
) -> Result<Turns, AllocError>
    requires rules { IsSound (rules_seen rules.now) }
    requires layout { IsAlignable (plain_netlist layout.now) }
    requires schematic { IsAlignable (plain_netlist schematic.now) }
    requires order { AreCalleesFirst (plain_netlist layout.now) }
    requires top { top < length layout.now.circuits.items }
    requires narrow { AreNarrow (rules_seen rules.now) (plain_netlist layout.now)
        (plain_netlist schematic.now) }
    ensures { IfOk result (IsTaken (rules_seen rules.now) (plain_netlist layout.now) top
        (plain_netlist schematic.now)) }
{
    alone_lines();
    let mut alone = alone_by_rules(alloc, rules, layout, top, schematic)?;
    let most = longest_name(layout, schematic, &rules.same, &alone);
    let mut lines = Vec::new(alloc);
    'turns: loop {
        let same = same_alone(alloc, &rules.same, &alone, most)?;
        let Some(found) = compare_by(alloc, rules, layout, top, schematic, &same, crew)? else {
            return Ok(Turns {
                lines,
                compared: None,
            });
        };
        let Some(goes) = take_apart(alloc, rules, &found, &mut lines)? else {
            return Ok(Turns {
                lines,
                compared: Some(found),
            });
        };
        alone.add(alloc, &found.left, &found.right, &goes)?;
    }
}
