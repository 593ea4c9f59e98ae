//! From strip to strip.

ghost use Rattle.std.specs.Prelude.{◌≡◌, ℤ, ◌<◌, ◌++◌, length, OnOk};
ghost use Rattle.rect_sets.specs.Spans.{AreApart};
ghost use Rattle.rect_sets.specs.Opens.{spans_of, nexts, ended, rect_of, fresh, is_same, IsTurn};
ghost use Rattle.rect_sets.specs.Opens.{HasLeft, ArePartsApart, Advances};

use crate::row::Span;
use geo_base::Rect;
use std::alloc::AllocError;

/// A rectangle whose upper end isn't known yet.
#[derive(Clone, Copy, Debug)]
pub struct Open {
    pub x1: i64,
    pub x2: i64,
    pub y1: i64,
}

#[derive(Clone, Copy, Debug)]
enum Turn {
    Same,
    Close,
    Fresh,
}

fn rect_of(opens: &Open, y: i64) -> Rect
    ensures { result ≡ rect_of y opens.now }
{
    Rect {
        x1: opens.x1,
        y1: opens.y1,
        x2: opens.x2,
        y2: y,
    }
}

fn fresh(run: &Span, y: i64) -> Open
    ensures { result ≡ fresh y run.now }
{
    Open {
        x1: run.x1,
        x2: run.x2,
        y1: y,
    }
}

fn is_same(opens: &Open, run: &Span) -> bool
    ensures { result ≡ is_same opens.now run.now }
{
    opens.x1 == run.x1 && opens.x2 == run.x2
}

// Which of the next open rectangle and the next run comes first.
fn turn_of(opens: &[Open], j: usize, runs: &[Span], i: usize) -> Turn
    requires { HasLeft opens.now j runs.now i }
    ensures { IsTurn opens.now j runs.now i result }
{
    if j == opens.len() {
        return Turn::Fresh;
    }
    if i == runs.len() {
        return Turn::Close;
    }
    if is_same(&opens[j], &runs[i]) {
        return Turn::Same;
    }
    if opens[j].x1 <= runs[i].x1 {
        Turn::Close
    } else {
        Turn::Fresh
    }
}

fn advance(
    opens: &[Open],
    j: &mut usize,
    runs: &[Span],
    i: &mut usize,
    y: i64,
    next: &mut Vec<Open>,
    closed: &mut Vec<Rect>,
) -> Result<(), AllocError>
    requires left { HasLeft opens.now j.old runs.now i.old }
    requires apart { ArePartsApart opens.now j.old runs.now i.old }
    ensures { OnOk result (Advances y opens.now runs.now j.old j.new i.old i.new next.old.items
        next.new.items closed.old.items closed.new.items) }
{
    match turn_of(opens, *j, runs, *i) {
        Turn::Same => {
            next.push(opens[*j])?;
            *j += 1;
            *i += 1;
            Ok(())
        }
        Turn::Close => {
            closed.push(rect_of(&opens[*j], y))?;
            *j += 1;
            Ok(())
        }
        Turn::Fresh => {
            next.push(fresh(&runs[*i], y))?;
            *i += 1;
            Ok(())
        }
    }
}

/// Closes the open rectangles that are no runs of the next strip, which begins at y, and opens its
/// other runs.
pub fn step(
    opens: &[Open],
    runs: &[Span],
    y: i64,
    next: &mut Vec<Open>,
    closed: &mut Vec<Rect>,
) -> Result<(), AllocError>
    requires opens { (from : ℤ) × AreApart from (spans_of opens.now) }
    requires runs { (from : ℤ) × AreApart from runs.now }
    ensures next { OnOk result (next.new.items ≡ nexts y opens.now runs.now) }
    ensures closed { OnOk result (closed.new.items ≡ closed.old.items
        ++ ended y opens.now runs.now) }
{
    next.clear();
    let mut j = 0;
    let mut i = 0;
    while j < opens.len() || i < runs.len() {
        advance(opens, &mut j, runs, &mut i, y, next, closed)?;
    }
    Ok(())
}
