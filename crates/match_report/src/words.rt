//! The words of a report.
ghost use Rattle.std.specs.Prelude.{◌≡◌, ◌<◌, ◌^◌, ◌++◌, OnOk};
ghost use Rattle.match_report.specs.Words.{kind_word, name_word, number_word, place_word};
ghost use Rattle.match_report.specs.Words.{name_at, side_word};
ghost use Rattle.match_types.specs.Plain.{plain_kind, plain_side};

use match_types::{NodeKind, Side};
use net_names::{Name, escape};
use std::alloc::{AllocError, Global};

pub fn push_name(alloc: Global, out: &mut Vec<u8>, name: &Name) -> Result<(), AllocError>
    ensures { OnOk result (out.new.items ≡ out.old.items ++ name_word name.now) }
{
    let text = escape(alloc, name)?;
    out.push(b' ')?;
    out.extend_from_slice(&text)
}

/// The name of a number; nothing past the last.
pub fn push_name_at(
    alloc: Global,
    out: &mut Vec<u8>,
    names: &[Name],
    n: usize,
) -> Result<(), AllocError>
    ensures { OnOk result (out.new.items ≡ out.old.items ++ name_word (name_at names.now n)) }
{
    match names.get(n) {
        Some(name) => push_name(alloc, out, name),
        None => {
            out.push(b' ')?;
            Ok(())
        }
    }
}

pub fn push_number(alloc: Global, out: &mut Vec<u8>, n: u64) -> Result<(), AllocError>
    ensures { OnOk result (out.new.items ≡ out.old.items ++ number_word n) }
{
    let digits = n.to_string(alloc)?.into_bytes();
    out.push(b' ')?;
    out.extend_from_slice(&digits)
}

/// The number of a net, device or call: they count from 1.
pub fn push_place(alloc: Global, out: &mut Vec<u8>, n: usize) -> Result<(), AllocError>
    requires { n < 2 ^ 63 }
    ensures { OnOk result (out.new.items ≡ out.old.items ++ place_word n) }
{
    push_number(alloc, out, n as u64 + 1)
}

pub fn push_kind(out: &mut Vec<u8>, kind: NodeKind) -> Result<(), AllocError>
    ensures { OnOk result (out.new.items ≡ out.old.items ++ kind_word (plain_kind kind)) }
{
    match kind {
        NodeKind::Net => out.extend_from_slice(b" net"),
        NodeKind::Device => out.extend_from_slice(b" device"),
        NodeKind::Call => out.extend_from_slice(b" call"),
    }
}

pub fn push_side(out: &mut Vec<u8>, side: Side) -> Result<(), AllocError>
    ensures { OnOk result (out.new.items ≡ out.old.items ++ side_word (plain_side side)) }
{
    match side {
        Side::Layout => out.extend_from_slice(b" layout"),
        Side::Schematic => out.extend_from_slice(b" schematic"),
    }
}
