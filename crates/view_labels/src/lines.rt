//! Texts cut into lines.

ghost use Rattle.std.specs.Prelude.{◌≡◌, ◌++◌, ◌∷◌, [], OnOk, drop, take};
ghost use Rattle.rule_lines.specs.Lines.{lines_of};
ghost use Rattle.view_labels.specs.Logs.{texts_of};

use rule_lines::next_line;
use std::alloc::{AllocError, Global};

fn push_line(alloc: Global, lines: &mut Vec<Vec<u8>>, line: &[u8]) -> Result<(), AllocError>
    ensures { OnOk result (texts_of lines.new.items
        ≡ texts_of lines.old.items ++ line.now ∷ []) }
{
    lines.push(line.to_vec(alloc)?)?;
    Ok(())
}

/// Adds the lines of a text, each without its end. Linear in the text.
pub fn push_lines(alloc: Global, lines: &mut Vec<Vec<u8>>, text: &[u8]) -> Result<(), AllocError>
    ensures { OnOk result (texts_of lines.new.items
        ≡ texts_of lines.old.items ++ lines_of text.now) }
{
    let mut rest = text;
    'lines: while rest.len() > 0 {
        let (line, behind) = next_line(rest);
        push_line(alloc, lines, line)?;
        rest = behind;
    }
    Ok(())
}

/// Adds so many of a list's lines, from a place on. Linear in them.
pub fn push_some(
    alloc: Global,
    lines: &mut Vec<Vec<u8>>,
    all: &[Vec<u8>],
    from: usize,
    count: usize,
) -> Result<(), AllocError>
    ensures { OnOk result (texts_of lines.new.items
        ≡ texts_of lines.old.items ++ take count (drop from (texts_of all.now))) }
{
    if from > all.len() {
        return Ok(());
    }
    let mut rest = &all[from..];
    let mut left = count;
    'lines: while let [line, more @ ..] = rest {
        if left == 0 {
            return Ok(());
        }
        push_line(alloc, lines, line)?;
        left -= 1;
        rest = more;
    }
    Ok(())
}
