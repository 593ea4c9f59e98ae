//! The first cell that a stream has no room for, or that would be read back as too far away.

ghost use Rattle.std.specs.Prelude.{◌≡◌, ◌<◌, ◌^◌, IfOk, IsSome, length};
ghost use Rattle.std.specs.Bool.{Decides};
ghost use Rattle.std.specs.List.{All};
ghost use Rattle.cell_graph.specs.Linked.{IsRectWithin, plain};
ghost use Rattle.deep_tables.specs.Layers.{AreLayers, layer_of};
ghost use Rattle.geo_base.specs.Near.{IsWithin};
ghost use Rattle.layout_shapes.specs.Wide.{AreHeld, IsFarOut, IsFirstWide, IsLeast, IsWideCell};
ghost use Rattle.layout_shapes.specs.Wide.{has_wide_line, is_long, is_long_rect, is_wide_line};
ghost use Rattle.layout_shapes.specs.Wide.{lesser, output_reach};
ghost use Rattle.layout_shapes.specs.Writable.{IsWritable};
ghost use Rattle.layout_shapes.specs.Written.{line_of};
ghost use Rattle.rule_text.specs.Seen.{rules_seen};
ghost use Rattle.rule_text.specs.Sound.{IsSound};

use crate::reach::output_reach;
use cell_context::grown;
use cell_graph::Design;
use deep_tables::{Layers, layer_table};
use gds_layout::Layout;
use geo_base::{REACH, Rect};
use rule_text::{Output, RuleSet};
use std::alloc::{AllocError, Global};

/// What the four bytes of a coordinate don't reach (GDSII Stream Format, four-byte signed).
const LONG: i64 = 1 << 31;

/// The first cell in the order of the file, of those that the top reaches, for which one of two
/// things holds; `None` where there is none. Either it holds a rectangle of an output line itself
/// with a coordinate below -2^31 or above 2^31 - 1. Or its hull, grown by the greatest reach of an
/// output line's name, has a coordinate outside plus or minus 2^36: what is written of it and of
/// the cells below it lies in that grown hull, and whoever reads it back asks for hulls in this
/// range. An `Err` is want of memory, of which it takes four bytes a name of the rules. Linear in
/// what these cells hold of the output lines.
pub fn wide_cell(
    alloc: Global,
    layout: &Layout,
    rules: &RuleSet,
    layers: &Layers,
) -> Result<Option<u32>, AllocError>
    requires layout { IsWritable layout.now }
    requires rules { IsSound (rules_seen rules.now) }
    requires layers { AreLayers (plain layout.now.design) (rules_seen rules.now) layers.now }
    ensures { IfOk result (IsFirstWide layout.now.design (rules_seen rules.now) layers.now) }
{
    let design = &layout.design;
    design.sound();
    layer_table();
    let reach = output_reach(alloc, rules)?;
    Ok(least_wide(design, rules, layers, reach, design.order()))
}

// The least wide cell of these; the output lines' names reach so far.
fn least_wide(
    design: &Design,
    rules: &RuleSet,
    layers: &Layers,
    reach: u32,
    cells: &[u32],
) -> Option<u32>
    requires inside { All (λ c. c < length design.now.cells) cells.now }
    requires held { All (AreHeld layers.now (rules_seen rules.now)) cells.now }
    requires reach { reach ≡ output_reach (rules_seen rules.now) }
    ensures { IsLeast (IsWideCell (plain design.now) (rules_seen rules.now) layers.now) cells.now
        result }
{
    let mut least = None;
    for cell in cells {
        if is_wide(design, rules, layers, reach, *cell) {
            least = Some(lesser(least, *cell));
        }
    }
    least
}

fn lesser(one: Option<u32>, other: u32) -> u32
    ensures { result ≡ lesser one other }
{
    match one {
        Some(one) => one.min(other),
        None => other,
    }
}

fn is_wide(design: &Design, rules: &RuleSet, layers: &Layers, reach: u32, cell: u32) -> bool
    requires inside { cell < length design.now.cells }
    requires held { AreHeld layers.now (rules_seen rules.now) cell }
    requires reach { reach ≡ output_reach (rules_seen rules.now) }
    ensures { Decides result (IsWideCell (plain design.now) (rules_seen rules.now) layers.now
        cell) }
{
    has_wide_line(rules, layers, cell) || is_far_out(design, reach, cell)
}

fn has_wide_line(rules: &RuleSet, layers: &Layers, cell: u32) -> bool
    requires { AreHeld layers.now (rules_seen rules.now) cell }
    ensures { result ≡ has_wide_line layers.now (rules_seen rules.now) cell }
{
    for line in &rules.outputs {
        if is_wide_line(layers, cell, line) {
            return true;
        }
    }
    false
}

fn is_wide_line(layers: &Layers, cell: u32, line: &Output) -> bool
    requires { IsSome (layer_of layers.now cell line.now.layer) }
    ensures { result ≡ is_wide_line (line_of layers.now cell line.now).1 }
{
    let squares = layers.local(cell, line.layer);
    squares.rects().iter().any(|rect| !is_long_rect(rect))
}

fn is_long_rect(rect: &Rect) -> bool
    ensures { result ≡ is_long_rect rect.now }
{
    let low = is_long(rect.x1) && is_long(rect.y1);
    let high = is_long(rect.x2) && is_long(rect.y2);
    low && high
}

fn is_long(z: i64) -> bool
    ensures { result ≡ is_long z }
{
    -LONG <= z && z < LONG
}

/// Whether a cell's hull, which holds a square, has a side outside plus or minus 2^36 once it is grown
/// by so many squares. O(1).
pub fn is_far_out(design: &Design, reach: u32, cell: u32) -> bool
    requires inside { cell < length design.now.cells }
    ensures { Decides result (IsFarOut (plain design.now) reach cell) }
{
    design.sound();
    match design.hull(cell) {
        Some(hull) => !is_near_rect(&grown(&hull, reach)),
        None => false,
    }
}

fn is_near_rect(rect: &Rect) -> bool
    ensures { Decides result (IsRectWithin (2 ^ 36) rect.now) }
{
    let low = are_near(rect.x1, rect.y1);
    let high = are_near(rect.x2, rect.y2);
    low && high
}

// Whether the corner of a hull that is read may lie there.
fn are_near(x: i64, y: i64) -> bool
    ensures { Decides result (IsWithin (2 ^ 36) x × IsWithin (2 ^ 36) y) }
{
    is_near(x) && is_near(y)
}

fn is_near(z: i64) -> bool
    ensures { Decides result (IsWithin (2 ^ 36) z) }
{
    -REACH <= z && z <= REACH
}
