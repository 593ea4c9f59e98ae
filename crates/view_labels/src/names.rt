//! By which names the browser shows circuits and layers.

ghost use Rattle.std.specs.Prelude.{◌≡◌, ◌<◌, IfOk, length, map};
ghost use Rattle.cell_graph.specs.Linked.{cell_at};
ghost use Rattle.match_report.specs.Gates.{name_of};
ghost use Rattle.net_model.specs.Rows.{plain_circuit};
ghost use Rattle.view_labels.specs.Labels.{AreInside, label_of, labels_of, layer_names};
ghost use Rattle.view_labels.specs.Labels.{numbers_of, shown_cell};

use cell_graph::Design;
use list_base::number;
use net_model::Circuit;
use net_names::Name;
use rule_text::LayerRule;
use std::alloc::{AllocError, Global};
use text_table::TextTable;

/// Of each circuit the place of its name.
pub fn shown_numbers(
    alloc: Global,
    table: &TextTable,
    circuits: &[Circuit],
) -> Result<Vec<u32>, AllocError>
    ensures { IfOk result (λ v. v.items
        ≡ numbers_of table.now (map plain_circuit circuits.now)) }
{
    let mut places = Vec::new(alloc);
    let mut rest = circuits;
    'circuits: while let [c, more @ ..] = rest {
        places.push(number(table.place(c.name.bytes()))?)?;
        rest = more;
    }
    Ok(places)
}

/// The cell whose circuit has a circuit's name.
pub fn shown_cell(cells: &[u32], table: &TextTable, circuit: &Circuit) -> Option<u32>
    ensures { result ≡ shown_cell cells.now table.now (plain_circuit circuit.now) }
{
    match cells.get(table.place(circuit.name.bytes())) {
        Some(cell) => Some(*cell),
        None => None,
    }
}

fn cell_name(design: &Design, cell: u32) -> &Name
    requires { cell < length design.now.cells }
    ensures { result.now ≡ name_of (cell_at design.now cell) }
{
    design.name(cell)
}

// The name of a circuit's cell; its own where it has none.
fn label<'a>(design: &'a Design, cells: &[u32], table: &TextTable, circuit: &'a Circuit) -> &'a Name
    requires { AreInside (length design.now.cells) cells.now }
    ensures { result.now ≡ label_of design.now
        (shown_cell cells.now table.now (plain_circuit circuit.now)) (plain_circuit circuit.now) }
{
    match shown_cell(cells, table, circuit) {
        Some(cell) => cell_name(design, cell),
        None => &circuit.name,
    }
}

/// The names of the circuits' cells, or their own where they have none. Linear in their bytes.
pub fn labels(
    alloc: Global,
    design: &Design,
    cells: &[u32],
    table: &TextTable,
    circuits: &[Circuit],
) -> Result<Vec<Name>, AllocError>
    requires { AreInside (length design.now.cells) cells.now }
    ensures { IfOk result (λ v. v.items
        ≡ labels_of design.now cells.now table.now (map plain_circuit circuits.now)) }
{
    let mut names = Vec::new(alloc);
    let mut rest = circuits;
    'circuits: while let [c, more @ ..] = rest {
        names.push(label(design, cells, table, c).try_clone(alloc)?)?;
        rest = more;
    }
    Ok(names)
}

/// The names of the rules' layers.
pub fn layer_names(alloc: Global, rules: &[LayerRule]) -> Result<Vec<Name>, AllocError>
    ensures { IfOk result (λ v. v.items ≡ layer_names rules.now) }
{
    let mut names = Vec::new(alloc);
    let mut rest = rules;
    'rules: while let [rule, more @ ..] = rest {
        names.push(rule.name.try_clone(alloc)?)?;
        rest = more;
    }
    Ok(names)
}
