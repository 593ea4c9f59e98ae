//! How many rectangles are written.

ghost use Rattle.std.specs.Prelude.{◌≡◌, ◌<◌, ◌^◌};
ghost use Rattle.std.specs.List.{All, sum_by};
ghost use Rattle.layout_shapes.specs.Wide.{AreHeld};
ghost use Rattle.rule_text.specs.Seen.{rules_seen};
ghost use Rattle.shapes_file.specs.File.{count_in};

use deep_tables::Layers;
use rule_text::RuleSet;

/// The rectangles of the output lines in these cells.
pub fn count_rectangles(rules: &RuleSet, layers: &Layers, cells: &[u32]) -> u64
    requires held { All (AreHeld layers.now (rules_seen rules.now)) cells.now }
    requires room { sum_by (count_in layers.now (rules_seen rules.now)) cells.now < 2 ^ 64 }
    ensures { result ≡ sum_by (count_in layers.now (rules_seen rules.now)) cells.now }
{
    let mut count = 0;
    for cell in cells {
        count += count_in_cell(rules, layers, *cell);
    }
    count
}

fn count_in_cell(rules: &RuleSet, layers: &Layers, cell: u32) -> u64
    requires held { AreHeld layers.now (rules_seen rules.now) cell }
    requires room { count_in layers.now (rules_seen rules.now) cell < 2 ^ 64 }
    ensures { result ≡ count_in layers.now (rules_seen rules.now) cell }
{
    let mut count = 0;
    for line in &rules.outputs {
        count += layers.local(cell, line.layer).rects().len() as u64;
    }
    count
}
