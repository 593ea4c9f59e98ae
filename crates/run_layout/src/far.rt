//! The first cell whose hull leaves no room for what selections may reach beyond it.

ghost use Rattle.std.specs.Prelude.{◌≡◌, ◌<◌, ◌≤◌, ◌^◌, ◌+ℤ◌, ◌-ℤ◌, length, pos};
ghost use Rattle.std.specs.Bool.{Decides};
ghost use Rattle.cell_graph.specs.Linked.{IsRectWithin, plain};
ghost use Rattle.geo_base.specs.Near.{IsWithin};
ghost use Rattle.geo_base.specs.Rects.{grown};
ghost use Rattle.layout_shapes.specs.Wide.{IsFarOut};
ghost use Rattle.rule_text.specs.Seen.{rules_seen};
ghost use Rattle.run_layout.specs.Far.{IsFirstOut};
ghost use Rattle.selection_hulls.specs.Near.{selects_reach};

use cell_graph::Design;
use geo_base::{REACH, Rect};
use rule_text::RuleSet;

// How far a name may reach.
const MOST_REACH: u64 = 10_000;

// So many selections may reach further than any hull leaves room for.
const MOST_SELECTS: usize = 1 << 23;

/// How far from what is drawn the rules' selections reach at most. O(1).
pub fn selects_reach(rules: &RuleSet) -> u64
    ensures is { result ≡ selects_reach (rules_seen rules.now) }
    ensures most { result ≤ 2 ^ 37 }
{
    let count = rules.selects.len().min(MOST_SELECTS);
    count as u64 * MOST_REACH
}

// Whether a range stays within plus or minus 2^36 once it is grown so far on both sides.
fn stays_near(low: i64, high: i64, reach: u64) -> bool
    requires low { IsWithin (2 ^ 36) low }
    requires high { IsWithin (2 ^ 36) high }
    requires reach { reach ≤ 2 ^ 37 }
    ensures { Decides result (IsWithin (2 ^ 36) (low -ℤ pos reach)
        × IsWithin (2 ^ 36) (high +ℤ pos reach)) }
{
    let room = REACH - reach as i64;
    -room <= low && high <= room
}

// And so a hull in both directions.
fn has_room(hull: &Rect, reach: u64) -> bool
    requires hull { IsRectWithin (2 ^ 36) hull.now }
    requires reach { reach ≤ 2 ^ 37 }
    ensures { Decides result (IsRectWithin (2 ^ 36) (grown reach hull.now)) }
{
    let across = stays_near(hull.x1, hull.x2, reach);
    let up = stays_near(hull.y1, hull.y2, reach);
    across && up
}

fn is_far(design: &Design, reach: u64, cell: u32) -> bool
    requires inside { cell < length design.now.cells }
    requires reach { reach ≤ 2 ^ 37 }
    ensures { Decides result (IsFarOut (plain design.now) reach cell) }
{
    design.sound();
    match design.hull(cell) {
        Some(hull) => !has_room(&hull, reach),
        None => false,
    }
}

/// The first cell in the order of the file whose hull, grown so far, leaves the range of hulls.
/// Linear in the cells.
pub fn first_far(design: &Design, reach: u64) -> Option<u32>
    requires { reach ≤ 2 ^ 37 }
    ensures { IsFirstOut design.now reach result }
{
    for cell in 0..design.cells() {
        if is_far(design, reach, cell) {
            return Some(cell);
        }
    }
    None
}
