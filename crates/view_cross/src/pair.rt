//! Pairs of circuits.

ghost use Rattle.std.specs.Prelude.{◌≡◌, ◌++◌, OnOk, map};
ghost use Rattle.view_cross.specs.Pair.{body_text, head_text};
ghost use Rattle.view_cross.specs.Pair.{line_text, line_texts, log_text, name_text, pair_text};

use crate::rows::{Mark, Row, mark_letter, push_rows};
use std::alloc::{AllocError, Global};
use view_words::push_word;

fn push_name(out: &mut Vec<u8>, name: &[u8]) -> Result<(), AllocError>
    ensures { OnOk result (out.new.items ≡ out.old.items ++ name_text name.now) }
{
    match name {
        [] => out.extend_from_slice(b"()"),
        [_, ..] => push_word(out, name),
    }
}

fn push_line(out: &mut Vec<u8>, line: &[u8]) -> Result<(), AllocError>
    ensures { OnOk result (out.new.items ≡ out.old.items ++ line_text line.now) }
{
    out.extend_from_slice(b"\n   M(E B(")?;
    push_word(out, line)?;
    out.extend_from_slice(b"))")
}

fn push_lines(out: &mut Vec<u8>, lines: &[Vec<u8>]) -> Result<(), AllocError>
    ensures { OnOk result (out.new.items ≡ out.old.items
        ++ line_texts (map (λ line. line.items) lines.now)) }
{
    let mut rest = lines;
    'lines: while let [line, more @ ..] = rest {
        push_line(out, line)?;
        rest = more;
    }
    Ok(())
}

fn push_log(out: &mut Vec<u8>, lines: &[Vec<u8>]) -> Result<(), AllocError>
    ensures { OnOk result (out.new.items ≡ out.old.items
        ++ log_text (map (λ line. line.items) lines.now)) }
{
    match lines {
        [] => Ok(()),
        [_, ..] => {
            out.extend_from_slice(b"\n  L(")?;
            push_lines(out, lines)?;
            out.extend_from_slice(b"\n  )")
        }
    }
}

fn push_head(out: &mut Vec<u8>, left: &[u8], right: &[u8], mark: Mark) -> Result<(), AllocError>
    ensures { OnOk result (out.new.items
        ≡ out.old.items ++ head_text left.now right.now mark) }
{
    out.extend_from_slice(b"\n X(")?;
    push_name(out, left)?;
    out.push(b' ')?;
    push_name(out, right)?;
    out.push(b' ')?;
    out.push(mark_letter(mark))?;
    Ok(())
}

fn push_body(alloc: Global, out: &mut Vec<u8>, rows: &[Row]) -> Result<(), AllocError>
    ensures { OnOk result (out.new.items ≡ out.old.items ++ body_text rows.now) }
{
    out.extend_from_slice(b"\n  Z(")?;
    push_rows(alloc, out, rows)?;
    out.extend_from_slice(b"\n  )\n )")
}

/// Appends a pair of circuits: the names of both, an empty one where there is none; its mark; the
/// lines that the browser shows as its log; its rows. Linear in what is written.
pub fn push_pair(
    alloc: Global,
    out: &mut Vec<u8>,
    left: &[u8],
    right: &[u8],
    mark: Mark,
    log: &[Vec<u8>],
    rows: &[Row],
) -> Result<(), AllocError>
    ensures { OnOk result (out.new.items
        ≡ out.old.items ++ pair_text left.now right.now mark (map (λ line. line.items) log.now)
        rows.now) }
{
    push_head(out, left, right, mark)?;
    push_log(out, log)?;
    push_body(alloc, out, rows)
}
