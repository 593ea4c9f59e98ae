//! The database and the page of what was compared.

ghost use Rattle.std.specs.Prelude.{◌≡◌, ◌<◌, IfOk, length, map};
ghost use Rattle.std.specs.List.{All};
ghost use Rattle.std.specs.Option.{option_map};
ghost use Rattle.net_model.specs.Rows.{plain_circuit, plain_netlist};
ghost use Rattle.rule_text.specs.Seen.{rules_seen};
ghost use Rattle.view_cross.specs.Whole.{AreWhole};
ghost use Rattle.view_file.specs.Cross.{lists_of};
ghost use Rattle.view_file.specs.Layout.{IsSmallPicture};
ghost use Rattle.view_labels.specs.Logs.{gate_log};
ghost use Rattle.view_run.specs.Showing.{IsDatabaseOf, lefts_in, rights_in};
ghost use Rattle.view_run.specs.Views.{AreAllPaired, AreRowsOf, AreWholeRows, CanBeOrdered};
ghost use Rattle.view_run.specs.Views.{IsPageAsked, compared_lefts, compared_rights};
ghost use Rattle.view_run.specs.Views.{shown_left};

use crate::merging::Both;
use crate::places::places;
use deep_tables::BadGate;
use fixed_num::Femto;
use gds_layout::Layout;
use list_base::number;
use match_report::Compared;
use net_model::{Circuit, Netlist};
use net_names::Name;
use rule_text::RuleSet;
use std::alloc::{AllocError, Global};
use view_cross::Row;
use view_file::{Picture, Shown, database};
use view_labels::pair_logs;
use view_page::{Book, push_page};
use view_pairs::proposals;

/// The circuits of the layout as they are compared.
pub fn shown_circuits<'a>(both: &'a Both, compared: &'a Option<Compared>) -> &'a Netlist
    ensures { plain_netlist result.now
        ≡ shown_left (plain_netlist both.now.layout) compared.now }
{
    match compared {
        Some(found) => &found.left,
        None => &both.layout,
    }
}

// The circuits that were compared, of the layout and of the schematic; none where nothing was.
fn compared_circuits(compared: &Option<Compared>) -> (&[Circuit], &[Circuit])
    ensures lefts { map plain_circuit result.0.now ≡ compared_lefts compared.now }
    ensures rights { map plain_circuit result.1.now ≡ compared_rights compared.now }
{
    match compared {
        Some(found) => (
            found.left.circuits.as_slice(),
            found.right.circuits.as_slice(),
        ),
        None => (&[], &[]),
    }
}

/// What is shown of a layout by its rules: what is drawn, the netlists, and what was compared of them.
#[derive(Clone, Copy)]
pub struct Showing<'a> {
    pub layout: &'a Layout,
    pub rules: &'a RuleSet,
    pub picture: &'a Picture,
    pub both: &'a Both,
    pub compared: &'a Option<Compared>,
}

/// The database of what was compared.
pub fn write_database(
    alloc: Global,
    showing: &Showing<'_>,
    rows: &[Vec<Row>],
    top: &Name,
    bad: &[BadGate],
) -> Result<Vec<u8>, AllocError>
    requires whole { AreWhole (lefts_in showing.now) (rights_in showing.now) (lists_of rows.now) }
    requires small { IsSmallPicture showing.now.picture.now }
    requires cells { All (λ x. x.cell < length showing.now.layout.now.design.cells) bad.now }
    requires ordered { CanBeOrdered (rights_in showing.now) }
    ensures { IfOk result (λ v. IsDatabaseOf showing.now
        (gate_log showing.now.layout.now.design top.now bad.now) (lists_of rows.now) v.items) }
{
    let layout = showing.layout;
    layout.design.sound();
    let design = &layout.design;
    let cell = design.name(design.top()).bytes();
    let unit = Femto(u128::from(layout.header.unit_pm) * 1000);
    let (rules, picture) = (showing.rules, showing.picture);
    match showing.compared {
        Some(found) => {
            let logs = pair_logs(alloc, found, top, bad, design)?;
            let shown = Shown {
                logs: &logs,
                lefts: &found.left.circuits,
                rights: &found.right.circuits,
                proposals: rows,
                answers: Some(&found.answers),
            };
            number(shown.rights.len())?;
            database(alloc, cell, unit, rules, picture, &shown)
        }
        None => {
            let shown = Shown {
                logs: &[],
                lefts: &showing.both.layout.circuits,
                rights: &showing.both.schematic.circuits,
                proposals: rows,
                answers: None,
            };
            number(shown.rights.len())?;
            database(alloc, cell, unit, rules, picture, &shown)
        }
    }
}

/// The partners that are proposed for what was compared; none where nothing was.
pub fn propose(
    alloc: Global,
    rules: &RuleSet,
    compared: &Option<Compared>,
) -> Result<Vec<Vec<Row>>, AllocError>
    requires paired { AreAllPaired compared.now }
    ensures proposed { IfOk result (λ rows. AreRowsOf (rules_seen rules.now) compared.now
        (lists_of rows.items)) }
    ensures whole { IfOk result (λ rows. AreWholeRows compared.now (lists_of rows.items)) }
{
    match compared {
        Some(found) => {
            let (lefts, rights) = (&found.left.circuits, &found.right.circuits);
            let rows = proposals(alloc, lefts, rights, &found.answers, rules.tells_pins)?;
            Ok(rows)
        }
        None => Ok(Vec::new(alloc)),
    }
}

/// The page of what was compared, where it is asked for; of nothing the lines that begin it.
pub fn write_page(
    alloc: Global,
    showing: &Showing<'_>,
    rows: &[Vec<Row>],
    paged: bool,
) -> Result<Option<Vec<u8>>, AllocError>
    ensures { IfOk result (λ page. IsPageAsked paged showing.now.layout.now.header.unit_pm
        showing.now.picture.now showing.now.compared.now (lists_of rows.now)
        (option_map (λ text. text.items) page)) }
{
    if !paged {
        return Ok(None);
    }
    let (lefts, rights) = compared_circuits(showing.compared);
    let shown = places(alloc, &showing.picture.drawings)?;
    let book = Book {
        unit: showing.layout.header.unit_pm,
        names: &showing.picture.names.circuits,
        lefts,
        rights,
        places: &shown,
    };
    let mut text = Vec::new(alloc);
    push_page(alloc, &mut text, book, rows)?;
    Ok(Some(text))
}
