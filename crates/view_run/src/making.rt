//! What a run has to write.

ghost use Rattle.std.specs.Prelude.{◌≡◌, ◌<◌, IfErr, IfOk, IfSome, length, true};
ghost use Rattle.std.specs.List.{All};
ghost use Rattle.std.specs.Option.{option_map};
ghost use Rattle.device_merge.specs.Merged.{IsNarrow};
ghost use Rattle.net_align.specs.Compared.{IsAlignable};
ghost use Rattle.net_model.specs.Rows.{plain_netlist};
ghost use Rattle.pair_jobs.specs.Verdict.{IsRunVerdict};
ghost use Rattle.report_file.specs.File.{all_answers, pair_count};
ghost use Rattle.rule_text.specs.Seen.{rules_seen};
ghost use Rattle.rule_text.specs.Sound.{IsSound};
ghost use Rattle.view_file.specs.Layout.{IsSmallPicture};
ghost use Rattle.view_run.specs.Ends.{stopped};
ghost use Rattle.view_run.specs.Found.{HasFound};
ghost use Rattle.view_run.specs.Far.{NotMade};
ghost use Rattle.view_run.specs.Lines.{view_line};
ghost use Rattle.view_run.specs.Showing.{rights_in};
ghost use Rattle.view_run.specs.Views.{AreAllPaired, AreShown, AreWritten, CanBeOrdered};
ghost use Rattle.view_run.specs.Views.{IsView, shown_rights};

use crate::answered::as_answered;
use crate::drawing::{circuit_names, draw, joined};
use crate::found::{Found, find_all};
use crate::merging::{Both, as_compared};
use crate::status::Stop;
use crate::stops::view_stop;
use crate::summary::view_line;
use crate::writing::{Showing, propose, shown_circuits, write_database, write_page};
use deep_tables::BadGate;
use gds_layout::Layout;
use job_board::{Crew, Gate};
use match_report::Compared;
use net_model::Netlist;
use pair_jobs::{Verdict, judge_run};
use part_origins::origins_asked;
use report_file::{Turns, circuit_name, combined_alignable, compare_in_turns, extracted_alignable};
use rule_text::RuleSet;
use std::alloc::{AllocError, Global};
use std::sync::Wait;
use std::thread::Threads;
use view_file::Picture;

/// What is made of a layout and a schematic: the database, the page where it is asked for, the line,
/// and what they come to.
#[derive(Drop)]
pub struct View {
    pub text: Vec<u8>,
    pub page: Option<Vec<u8>>,
    pub line: Vec<u8>,
    pub verdict: Verdict,
}

// How many pairs there are.
fn pair_count(compared: &Option<Compared>) -> usize
    ensures { result ≡ pair_count compared.now }
{
    match compared {
        Some(found) => found.answers.len(),
        None => 0,
    }
}

// What the bad gates and the pairs come to.
fn judge(bad: &[BadGate], compared: &Option<Compared>) -> Result<Verdict, AllocError>
    ensures { IfOk result (IsRunVerdict (length bad.now) (all_answers compared.now)) }
{
    match compared {
        Some(found) => judge_run(bad.len(), Some(&found.answers)),
        None => judge_run(bad.len(), None),
    }
}

/// How many circuits a layout has as it is drawn, the top's number among them, its bad gates, and
/// whether the page is asked for.
#[derive(Clone, Copy)]
struct Told<'a> {
    circuits: usize,
    top: u32,
    bad: &'a [BadGate],
    paged: bool,
}

// What there is to write of what was compared.
fn view_compared(alloc: Global, showing: &Showing<'_>, told: Told<'_>) -> Result<View, AllocError>
    requires paired { AreAllPaired showing.now.compared.now }
    requires small { IsSmallPicture showing.now.picture.now }
    requires cells { All (λ x. x.cell < length showing.now.layout.now.design.cells) told.bad.now }
    requires ordered { CanBeOrdered (rights_in showing.now) }
    requires top { told.top < length showing.now.both.now.layout.circuits.items }
    ensures verdict { IfOk result (λ o. IsRunVerdict (length told.entry.bad.now)
        (all_answers showing.now.compared.now) o.verdict) }
    ensures written { IfOk result (λ o. AreWritten showing.now.layout.now
        (rules_seen showing.now.rules.now) showing.now.picture.now
        (plain_netlist showing.now.both.now.layout) (plain_netlist showing.now.both.now.schematic)
        showing.now.compared.now told.entry.top told.entry.bad.now told.entry.paged o.text.items
        (option_map (λ text. text.items) o.page)) }
    ensures line { IfOk result (λ o. o.line.items ≡ view_line o.verdict told.entry.circuits
        (pair_count showing.now.compared.now) (length told.entry.bad.now)) }
{
    let compared = showing.compared;
    let verdict = judge(told.bad, compared)?;
    let rows = propose(alloc, showing.rules, compared)?;
    let name = circuit_name(&showing.both.layout, told.top as usize);
    let text = write_database(alloc, showing, &rows, name, told.bad)?;
    let page = write_page(alloc, showing, &rows, told.paged)?;
    let (pairs, bad) = (pair_count(compared), told.bad.len());
    let line = view_line(alloc, verdict, told.circuits, pairs, bad)?;
    Ok(View {
        text,
        page,
        line,
        verdict,
    })
}

// What there is to write of what was compared, over the picture of the aligned circuits.
fn view_answered(
    alloc: Global,
    layout: &Layout,
    rules: &RuleSet,
    both: &Both,
    compared: Option<Compared>,
    picture: Picture,
    told: Told<'_>,
) -> Result<View, AllocError>
    requires narrow { IfSome compared (λ c. c.merged_again ≡ true
        → IsNarrow (plain_netlist c.left) × IsNarrow (plain_netlist c.right)) }
    requires paired { AreAllPaired compared }
    requires small { IsSmallPicture picture }
    requires cells { All (λ x. x.cell < length layout.now.design.cells) told.bad.now }
    requires ordered { CanBeOrdered (shown_rights (plain_netlist both.now.schematic) compared) }
    requires top { told.top < length both.now.layout.circuits.items }
    ensures verdict { IfOk result (λ o. IsRunVerdict (length told.entry.bad.now)
        (all_answers compared) o.verdict) }
    ensures shown { IfOk result (λ o. AreShown layout.now (rules_seen rules.now) picture
        (plain_netlist both.now.layout) (plain_netlist both.now.schematic) compared
        told.entry.top told.entry.bad.now told.entry.paged o.text.items
        (option_map (λ text. text.items) o.page)) }
    ensures line { IfOk result (λ o. o.line.items ≡ view_line o.verdict told.entry.circuits
        (pair_count compared) (length told.entry.bad.now)) }
{
    let answered = as_answered(alloc, compared, picture)?;
    let showing = Showing {
        layout,
        rules,
        picture: &answered.picture,
        both,
        compared: &answered.compared,
    };
    let made = view_compared(alloc, &showing, told)?;
    Ok(made)
}

// What there is to write, by what was found of the layout.
fn view_found<R: Threads + Wait + Sync, G: Gate + Sync>(
    alloc: Global,
    layout: &Layout,
    rules: &RuleSet,
    found: Found,
    schematic: Netlist,
    paged: bool,
    crew: &Crew<R, G>,
) -> Result<View, Stop>
    requires rules { IsSound (rules_seen rules.now) }
    requires found { HasFound layout.now (rules_seen rules.now) found }
    requires schematic { IsAlignable (plain_netlist schematic) }
    ensures made { IfOk result (λ o. IsView layout.now (rules_seen rules.now)
        (plain_netlist schematic) paged o.verdict o.text.items
        (option_map (λ text. text.items) o.page) o.line.items) }
    ensures refused { IfErr result (λ why. NotMade layout.now (rules_seen rules.now)
        (plain_netlist schematic) (stopped why)) }
{
    layout.design.sound();
    extracted_alignable();
    combined_alignable();
    origins_asked();
    let Found {
        netlist,
        top,
        bad,
        cells,
    } = found;
    let names = circuit_names(alloc, &netlist)?;
    let circuits = netlist.circuits.len();
    let both = as_compared(alloc, rules, netlist, schematic)?;
    let (one, other) = (&both.layout, &both.schematic);
    let drawn = match draw(alloc, layout, rules, cells, names, one) {
        Ok(drawn) => drawn,
        Err(fault) => return Err(view_stop(fault)),
    };
    let turns = compare_in_turns(alloc, rules, one, top, other, crew)?;
    let shown = shown_circuits(&both, &turns.compared);
    let picture = match joined(alloc, layout, rules, drawn, one, shown) {
        Ok(picture) => picture,
        Err(fault) => return Err(view_stop(fault)),
    };
    let told = Told {
        circuits,
        top,
        bad: &bad,
        paged,
    };
    let Turns { compared, .. } = turns;
    let made = view_answered(alloc, layout, rules, &both, compared, picture, told)?;
    Ok(made)
}

/// What there is to write of a layout, rules and a schematic; the page only if it is asked for.
pub fn make_view<R: Threads + Wait + Sync, G: Gate + Sync>(
    alloc: Global,
    layout: &Layout,
    rules: &RuleSet,
    schematic: Netlist,
    paged: bool,
    crew: &Crew<R, G>,
) -> Result<View, Stop>
    requires rules { IsSound (rules_seen rules.now) }
    requires schematic { IsAlignable (plain_netlist schematic) }
    ensures made { IfOk result (λ o. IsView layout.now (rules_seen rules.now)
        (plain_netlist schematic) paged o.verdict o.text.items
        (option_map (λ text. text.items) o.page) o.line.items) }
    ensures refused { IfErr result (λ why. NotMade layout.now (rules_seen rules.now)
        (plain_netlist schematic) (stopped why)) }
{
    let found = find_all(alloc, layout, rules, crew)?;
    view_found(alloc, layout, rules, found, schematic, paged, crew)
}
