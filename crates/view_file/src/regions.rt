//! The regions of devices.

ghost use Rattle.std.specs.Prelude.{◌≡◌, ◌++◌, OnOk};
ghost use Rattle.std.specs.List.{All};
ghost use Rattle.view_netlist.specs.Kinds.{class_seen};
ghost use Rattle.view_words.specs.Numbers.{IsSmallRect};
ghost use Rattle.view_file.specs.Regions.{region_close, region_head, region_open, region_text};
ghost use Rattle.view_file.specs.Regions.{region_texts, terminal_rows};

use geo_base::{Point, Rect};
use list_base::number;
use plain_netlist::DeviceKind;
use std::alloc::{AllocError, Global};
use view_netlist::{DeviceClass, class_name, push_region};
use view_words::{push_rects, push_word};

/// The region of devices of a class, seen from a corner of each.
#[derive(Drop)]
pub struct Region {
    pub kind: DeviceKind,
    pub class: Vec<u8>,
    pub rects: Vec<Rect>,
}

fn push_head(
    alloc: Global,
    out: &mut Vec<u8>,
    k: u32,
    class: DeviceClass<'_>,
) -> Result<(), AllocError>
    ensures { OnOk result (out.new.items
        ≡ out.old.items ++ region_head k (class_seen class.entry)) }
{
    let name = class_name(alloc, class)?;
    out.extend_from_slice(b"\n D(")?;
    push_region(alloc, out, k)?;
    out.push(b' ')?;
    push_word(out, &name)
}

// What stands before the rectangles of a region.
fn region_open(kind: DeviceKind) -> &'static [u8]
    ensures { result.now ≡ region_open kind }
{
    match kind {
        DeviceKind::Mos4 => b"\n  T(S)\n  T(G",
        DeviceKind::ResistorWithBulk => b"\n  T(A",
        DeviceKind::Diode => b"\n  T(A",
    }
}

// And behind them.
fn region_close(kind: DeviceKind) -> &'static [u8]
    ensures { result.now ≡ region_close kind }
{
    match kind {
        DeviceKind::Mos4 => b"\n  )\n  T(D)\n  T(B)\n )",
        DeviceKind::ResistorWithBulk => b"\n  )\n  T(B)\n  T(W)\n )",
        DeviceKind::Diode => b"\n  )\n  T(C)\n )",
    }
}

fn push_terminals(
    alloc: Global,
    out: &mut Vec<u8>,
    kind: DeviceKind,
    rects: &[Rect],
) -> Result<(), AllocError>
    requires { All IsSmallRect rects.now }
    ensures { OnOk result (out.new.items
        ≡ out.old.items ++ terminal_rows kind rects.now) }
{
    out.extend_from_slice(region_open(kind))?;
    push_rects(alloc, out, b"device regions", Point { x: 0, y: 0 }, rects)?;
    out.extend_from_slice(region_close(kind))
}

fn push_one(alloc: Global, out: &mut Vec<u8>, k: u32, region: &Region) -> Result<(), AllocError>
    requires { All IsSmallRect region.now.rects.items }
    ensures { OnOk result (out.new.items ≡ out.old.items ++ region_text k region.now) }
{
    let class = DeviceClass {
        kind: region.kind,
        name: &region.class,
    };
    push_head(alloc, out, k, class)?;
    push_terminals(alloc, out, region.kind, &region.rects)
}

/// Appends the regions, numbered from 1. Linear in the rectangles. 2^32 are refused.
pub fn push_regions(alloc: Global, out: &mut Vec<u8>, regions: &[Region]) -> Result<(), AllocError>
    requires { All (λ r. All IsSmallRect r.rects.items) regions.now }
    ensures { OnOk result (out.new.items ≡ out.old.items ++ region_texts 0 regions.now) }
{
    number(regions.len())?;
    let mut k = 0;
    let mut rest = regions;
    'regions: while let [region, more @ ..] = rest {
        push_one(alloc, out, k, region)?;
        k += 1;
        rest = more;
    }
    Ok(())
}
