//! Names and how often each was seen.

ghost use Rattle.std.specs.Prelude.{◌≡◌, ◌++◌, OnOk, map, min, ◌+◌, ◌-◌, ◌^◌};
ghost use Rattle.netlist_run.specs.SumsSeen.{tally_seen};
ghost use Rattle.netlist_run.specs.Sums.{count_text, name_line, no_names, number_text, raised};
ghost use Rattle.netlist_run.specs.Sums.{raised_at, seen_once, tally_text};

use crate::place::push_number;
use netlist_turn::folded;
use std::alloc::{AllocError, Global};
use text_table::TextTable;

/// Names, folded, in the order of their first sight, and how often each was seen.
#[derive(Drop)]
pub struct Tally {
    pub names: TextTable,
    pub counts: Vec<u64>,
}

/// One more, up to what 64 bits hold.
pub fn raised(n: u64) -> u64
    ensures { result ≡ raised n }
{
    n.saturating_add(1)
}

fn raise_at(counts: &mut Vec<u64>, k: usize) -> Result<(), AllocError>
    ensures { OnOk result (counts.new.items ≡ raised_at counts.old.items k) }
{
    if k < counts.len() {
        counts[k] = raised(counts[k]);
        return Ok(());
    }
    counts.push(1)?;
    Ok(())
}

/// No names.
pub fn no_names(alloc: Global) -> Tally
    ensures { tally_seen result ≡ no_names }
{
    Tally {
        names: TextTable::new(alloc),
        counts: Vec::new(alloc),
    }
}

/// A name is seen once more.
pub fn see_once(alloc: Global, tally: &mut Tally, word: &[u8]) -> Result<(), AllocError>
    ensures { OnOk result (tally_seen tally.new ≡ seen_once (tally_seen tally.old) word.now) }
{
    let name = folded(alloc, word)?;
    let k = tally.names.number(alloc, &name)?;
    raise_at(&mut tally.counts, k)
}

fn push_number_text(alloc: Global, out: &mut Vec<u8>, n: u64) -> Result<(), AllocError>
    ensures { OnOk result (out.new.items ≡ out.old.items ++ number_text n) }
{
    out.extend_from_slice(b" ")?;
    push_number(alloc, out, n)?;
    out.extend_from_slice(b"\n")
}

fn push_name_line(
    alloc: Global,
    out: &mut Vec<u8>,
    what: &[u8],
    name: &[u8],
    n: u64,
) -> Result<(), AllocError>
    ensures { OnOk result (out.new.items ≡ out.old.items ++ name_line what.now name.now n) }
{
    out.extend_from_slice(what)?;
    out.extend_from_slice(b" ")?;
    out.extend_from_slice(name)?;
    push_number_text(alloc, out, n)
}

fn push_lines(
    alloc: Global,
    out: &mut Vec<u8>,
    what: &[u8],
    names: &[Vec<u8>],
    counts: &[u64],
) -> Result<(), AllocError>
    ensures { OnOk result (out.new.items
        ≡ out.old.items ++ tally_text what.now (map (λ n. n.items) names.now) counts.now) }
{
    let mut rest = names;
    let mut left = counts;
    'names: while let [name, more @ ..] = rest {
        match left {
            [] => push_name_line(alloc, out, what, name.as_slice(), 0)?,
            [n, behind @ ..] => {
                push_name_line(alloc, out, what, name.as_slice(), *n)?;
                left = behind;
            }
        }
        rest = more;
    }
    Ok(())
}

/// Adds a line for each name.
pub fn push_tally(
    alloc: Global,
    out: &mut Vec<u8>,
    what: &[u8],
    tally: Tally,
) -> Result<(), AllocError>
    ensures { OnOk result (out.new.items ≡ out.old.items
        ++ tally_text what.now (tally_seen tally).names (tally_seen tally).counts) }
{
    let Tally { names, counts } = tally;
    let names = names.into_texts(alloc)?;
    push_lines(alloc, out, what, names.as_slice(), counts.as_slice())
}

/// Adds a line where there is something to count.
pub fn push_count(alloc: Global, out: &mut Vec<u8>, what: &[u8], n: u64) -> Result<(), AllocError>
    ensures { OnOk result (out.new.items ≡ out.old.items ++ count_text what.now n) }
{
    if n == 0 {
        return Ok(());
    }
    out.extend_from_slice(what)?;
    push_number_text(alloc, out, n)
}
