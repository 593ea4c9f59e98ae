//! What the rules join, by numbers.
ghost use Rattle.std.specs.Prelude.{◌≡◌, ◌++◌, ◌||◌, ◌⊎◌, ◌↔◌, List, [], ◌∷◌, ℕ, true};
ghost use Rattle.std.specs.Prelude.{length, map, flat_map, IfOk, OnOk};
ghost use Rattle.std.specs.List.{Contains};
ghost use Rattle.flat_layout.specs.Regions.{IsJoined};
ghost use Rattle.rule_layers.specs.Meaning.{globals_of, grounds_of, line, wiring_of};
ghost use Rattle.rule_text.specs.Rules.{has_texts};
ghost use Rattle.rule_text.specs.Seen.{rules_seen};
ghost use Rattle.text_table.specs.Texts.{place_of, with_text};
ghost use Rattle.touching_pieces.specs.Pairs.{AreJoined};
ghost use Rattle.net_phase.specs.Wires.{AreWires, ground_line, join_line, joined_by};

use list_base::{number, small};
use net_names::Name;
use net_walk::Grounded;
use rule_text::RuleSet;
use std::alloc::{AllocError, Global};
use text_table::TextTable;
use touching_pieces::Joined;

/// How many conductors and globals the rules have, and what lines join. A conductor's number is its
/// name's, and a global's is its place among the different globals in the order of their first
/// lines.
#[derive(Drop)]
pub struct Wires {
    pub conductors: u32,
    pub joins: Vec<Joined>,
    pub grounds: Vec<Grounded>,
    pub globals: u32,
}

/// What each line of a global joins, and how many different globals there are.
#[derive(Drop)]
pub struct Grounds {
    pub lines: Vec<Grounded>,
    pub globals: u32,
}

fn has_labels(rules: &RuleSet, line: &(u32, u32)) -> bool
    ensures { result ≡ (has_texts line.now.0 rules.now.names.items
        || has_texts line.now.1 rules.now.names.items) }
{
    rules.has_texts(line.0 as usize) || rules.has_texts(line.1 as usize)
}

// A connect line joins two conductors, unless one of its names is a labels name.
fn push_join(rules: &RuleSet, line: &(u32, u32), out: &mut Vec<Joined>) -> Result<(), AllocError>
    ensures { OnOk result (map join_line out.new.items
        ≡ map join_line out.old.items ++ joined_by (rules_seen rules.now) line.now) }
{
    if !has_labels(rules, line) {
        out.push(Joined {
            first: line.0,
            second: line.1,
        })?;
    }
    Ok(())
}

// Whether a line is the last of these.
fn is_last(lines: &[(u32, u32)], line: &(u32, u32)) -> bool
    ensures { result ≡ true → Contains lines.now line.now }
{
    match lines.last() {
        None => false,
        Some(last) => last.0 == line.0 && last.1 == line.1,
    }
}

// Adds a line, unless it is the last one already.
fn push_new(lines: &mut Vec<(u32, u32)>, line: &(u32, u32)) -> Result<(), AllocError>
    ensures { OnOk result ((x : ℕ × ℕ) → Contains lines.new.items x
        ↔ (Contains lines.old.items x ⊎ (line.now ≡ x))) }
{
    if is_last(lines, line) {
        return Ok(());
    }
    lines.push(*line)?;
    Ok(())
}

// The lines, without those that stand right behind their like.
fn unlike_last(alloc: Global, lines: &[(u32, u32)]) -> Result<Vec<(u32, u32)>, AllocError>
    ensures { IfOk result (λ v. (x : ℕ × ℕ) → Contains v.items x ↔ Contains lines.now x) }
{
    let mut once = Vec::new(alloc);
    for line in lines {
        push_new(&mut once, line)?;
    }
    Ok(once)
}

// Each line once: a rule file may repeat a line.
fn each_once(alloc: Global, lines: &[(u32, u32)]) -> Result<Vec<(u32, u32)>, AllocError>
    ensures { IfOk result (λ v. (x : ℕ × ℕ) → Contains v.items x ↔ Contains lines.now x) }
{
    let mut sorted = lines.to_vec(alloc)?;
    sorted.sort_unstable();
    unlike_last(alloc, &sorted)
}

// What lines join, one after the other.
fn joins_by(alloc: Global, rules: &RuleSet, lines: &[(u32, u32)]) -> Result<Vec<Joined>, AllocError>
    ensures { IfOk result (λ v. map join_line v.items
        ≡ flat_map (joined_by (rules_seen rules.now)) lines.now) }
{
    let mut joins = Vec::new(alloc);
    for line in lines {
        push_join(rules, line, &mut joins)?;
    }
    Ok(joins)
}

// What the connect lines join, each line taken once.
fn joins(alloc: Global, rules: &RuleSet) -> Result<Vec<Joined>, AllocError>
    ensures { IfOk result (λ v. (c e : ℕ) → AreJoined v.items c e
        ↔ IsJoined (wiring_of (rules_seen rules.now)) c e) }
{
    let lines = each_once(alloc, &rules.connects)?;
    joins_by(alloc, rules, &lines)
}

// Adds what a line of a global joins, by the global's place among the different ones.
fn push_ground(
    alloc: Global,
    global: &(u32, Name),
    names: &mut TextTable,
    lines: &mut Vec<Grounded>,
) -> Result<(), AllocError>
    ensures names { OnOk result (names.new ≡ with_text names.old global.now.1) }
    ensures lines { OnOk result (map ground_line lines.new.items ≡ map ground_line lines.old.items
        ++ line global.now.0 (place_of names.old global.now.1) ∷ []) }
{
    let at = names.number(alloc, global.1.bytes())?;
    let place = number(at)?;
    lines.push(Grounded {
        conductor: global.0,
        global: place,
    })?;
    Ok(())
}

/// Each line of a global, by the global's place among the different ones: linear in the lines. 2^32
/// globals are refused.
pub fn ground_lines(alloc: Global, rules: &RuleSet) -> Result<Grounds, AllocError>
    ensures lines { IfOk result (λ v. map ground_line v.lines.items
        ≡ grounds_of (rules_seen rules.now)) }
    ensures globals { IfOk result (λ v. v.globals ≡ length (globals_of (rules_seen rules.now))) }
{
    let mut names = TextTable::new(alloc);
    let mut lines = Vec::new(alloc);
    for line in &rules.globals {
        push_ground(alloc, line, &mut names, &mut lines)?;
    }
    let globals = number(names.len())?;
    Ok(Grounds { lines, globals })
}

/// What a rule set joins, each connect line taken once: O(n log n) in its lines. 2^32 names, or
/// globals, or more are refused.
pub fn find_wires(alloc: Global, rules: &RuleSet) -> Result<Wires, AllocError>
    ensures { IfOk result (AreWires (wiring_of (rules_seen rules.now))) }
{
    let conductors = small(rules.names.len()).ok_or(AllocError)?;
    let joins = joins(alloc, rules)?;
    let grounds = ground_lines(alloc, rules)?;
    Ok(Wires {
        conductors,
        joins,
        grounds: grounds.lines,
        globals: grounds.globals,
    })
}
