//! The cells of a chip: inverters, rows and the top.

ghost use Rattle.std.specs.Prelude.{◌≡◌, ◌<◌, ◌≤◌, ◌++◌, length, OnOk};
ghost use Rattle.std.specs.List.{flat_map};
ghost use Rattle.geo_base.specs.Near.{IsLongRect};
ghost use Rattle.chip_maker.specs.Inverters.{by_number};
ghost use Rattle.chip_maker.specs.Layout.{actives, branch, branches, inverter_block};
ghost use Rattle.chip_maker.specs.Layout.{inverter_layers, inverter_ref, output_x, row_block};
ghost use Rattle.chip_maker.specs.Layout.{row_pins, row_ref, row_texts, top_block, trunk};
ghost use Rattle.chip_maker.specs.Layout.{drawn, row_blocks, supply, top_texts};
ghost use Rattle.chip_maker.specs.Stream.{block_bytes, layer_bytes, ref_bytes, text_bytes};

use crate::elements::{drawn, write_label, write_placed, write_rectangle, write_rectangles};
use crate::inverters::{Kind, Row};
use crate::names::{kind_name, numbered};
use gds_shapes::{write_cell_end, write_cell_start};
use geo_base::Rect;
use std::alloc::{AllocError, Global};

const NO_DATES: [u8; 24] = [0; 24];

// The rectangles of an inverter, by layers.
const WELLS: [[u16; 4]; 1] = [[0, 1500, 1000, 3000]];

const PLAIN: [[u16; 4]; 2] = [[200, 300, 800, 800], [200, 1700, 800, 2700]];

const WIDE: [[u16; 4]; 2] = [[200, 300, 800, 1300], [200, 1700, 800, 2700]];

const POLYS: [[u16; 4]; 2] = [[450, 100, 550, 2900], [300, 1450, 450, 1550]];

const CONTACTS: [[u16; 4]; 7] = [
    [80, 70, 140, 130],
    [260, 400, 320, 460],
    [650, 400, 710, 460],
    [320, 1470, 400, 1530],
    [650, 1800, 710, 1860],
    [260, 2500, 320, 2560],
    [80, 2870, 140, 2930],
];

const METALS: [[u16; 4]; 7] = [
    [0, 0, 1000, 200],
    [250, 0, 330, 470],
    [640, 390, 720, 1870],
    [0, 1450, 420, 1550],
    [640, 1450, 1000, 1550],
    [250, 2490, 330, 3000],
    [0, 2800, 1000, 3000],
];

const TIES: [[u16; 4]; 2] = [[50, 50, 200, 150], [50, 2850, 200, 2950]];

fn write_actives(out: &mut Vec<u8>, kind: Kind) -> Result<(), AllocError>
    ensures { OnOk result (out.new.items ≡ out.old.items ++ layer_bytes (drawn 2, actives kind)) }
{
    match kind {
        Kind::Plain => write_rectangles(out, 2, &PLAIN),
        Kind::Wide => write_rectangles(out, 2, &WIDE),
    }
}

fn write_inverter_layers(out: &mut Vec<u8>, kind: Kind) -> Result<(), AllocError>
    ensures { OnOk result (out.new.items ≡ out.old.items
        ++ flat_map layer_bytes (inverter_layers kind)) }
{
    write_rectangles(out, 1, &WELLS)?;
    write_actives(out, kind)?;
    write_rectangles(out, 3, &POLYS)?;
    write_rectangles(out, 4, &CONTACTS)?;
    write_rectangles(out, 5, &METALS)?;
    write_rectangles(out, 6, &TIES)
}

/// Appends the cell of an inverter.
pub fn write_inverter(alloc: Global, out: &mut Vec<u8>, kind: Kind) -> Result<(), AllocError>
    ensures { OnOk result (out.new.items ≡ out.old.items ++ block_bytes (inverter_block kind)) }
{
    write_cell_start(alloc, out, &NO_DATES, kind_name(kind))?;
    write_inverter_layers(out, kind)?;
    write_cell_end(out)
}

// Where the output of a row of `m` inverters is.
fn output_x(m: usize) -> i32
    requires { m ≤ 100 }
    ensures { result ≡ output_x m }
{
    1000 * m as i32 - 10
}

fn write_row_texts(alloc: Global, out: &mut Vec<u8>, m: usize) -> Result<(), AllocError>
    requires { m ≤ 100 }
    ensures { OnOk result (out.new.items ≡ out.old.items ++ flat_map text_bytes (row_texts m)) }
{
    write_label(alloc, out, 10, 1500, b"IN")?;
    write_label(alloc, out, output_x(m), 1500, b"OUT")?;
    write_label(alloc, out, 10, 2900, b"VDD")
}

fn write_inverter_refs(alloc: Global, out: &mut Vec<u8>, row: &[Kind]) -> Result<(), AllocError>
    requires { length row.now ≤ 100 }
    ensures { OnOk result (out.new.items ≡ out.old.items
        ++ flat_map ref_bytes (by_number inverter_ref 0 row.now)) }
{
    let mut j = 0;
    let mut rest = row;
    'inverters: while let [kind, more @ ..] = rest {
        write_placed(alloc, out, kind_name(*kind), 1000 * j, 0)?;
        j += 1;
        rest = more;
    }
    Ok(())
}

fn write_row(alloc: Global, out: &mut Vec<u8>, i: u32, row: &Row) -> Result<(), AllocError>
    ensures { OnOk result (out.new.items ≡ out.old.items ++ block_bytes (row_block i row.now)) }
{
    let kinds = row.kinds();
    let name = numbered(alloc, b"ROW", i)?;
    write_cell_start(alloc, out, &NO_DATES, &name)?;
    write_row_texts(alloc, out, kinds.len())?;
    write_inverter_refs(alloc, out, kinds)?;
    write_cell_end(out)
}

/// Appends the cells of rows, numbered from 0.
pub fn write_rows(alloc: Global, out: &mut Vec<u8>, rows: &[Row]) -> Result<(), AllocError>
    requires { length rows.now ≤ 1000 }
    ensures { OnOk result (out.new.items ≡ out.old.items
        ++ flat_map block_bytes (by_number row_blocks 0 rows.now)) }
{
    let mut i = 0;
    let mut rest = rows;
    'rows: while let [row, more @ ..] = rest {
        write_row(alloc, out, i, row)?;
        i += 1;
        rest = more;
    }
    Ok(())
}

// What joins the rails of so many rows, at their left.
fn trunk(rows: usize) -> Rect
    requires { rows ≤ 1000 }
    ensures is { result ≡ trunk rows }
    ensures long { IsLongRect result }
{
    Rect {
        x1: -300,
        y1: 2800,
        x2: -100,
        y2: 4000 * rows as i64 - 1000,
    }
}

// From there to the rail of row `i`.
fn branch(i: u32) -> Rect
    requires { i < 1000 }
    ensures is { result ≡ branch i }
    ensures long { IsLongRect result }
{
    let bottom = 4000 * i64::from(i);
    Rect {
        x1: -300,
        y1: bottom + 2800,
        x2: 0,
        y2: bottom + 3000,
    }
}

fn write_supply(out: &mut Vec<u8>, rows: &[Row]) -> Result<(), AllocError>
    requires { length rows.now ≤ 1000 }
    ensures { OnOk result (out.new.items ≡ out.old.items
        ++ layer_bytes (drawn 5, supply rows.now)) }
{
    write_rectangle(out, drawn(5), trunk(rows.len()))?;
    let mut i = 0;
    let mut rest = rows;
    'branches: while let [_, more @ ..] = rest {
        write_rectangle(out, drawn(5), branch(i))?;
        i += 1;
        rest = more;
    }
    Ok(())
}

fn write_row_pins(alloc: Global, out: &mut Vec<u8>, i: u32, m: usize) -> Result<(), AllocError>
    requires number { i < 1000 }
    requires few { m ≤ 100 }
    ensures { OnOk result (out.new.items ≡ out.old.items ++ flat_map text_bytes (row_pins i m)) }
{
    let y = 4000 * i as i32 + 1500;
    write_label(alloc, out, 10, y, &numbered(alloc, b"I", i)?)?;
    write_label(alloc, out, output_x(m), y, &numbered(alloc, b"O", i)?)
}

fn write_pins(alloc: Global, out: &mut Vec<u8>, rows: &[Row]) -> Result<(), AllocError>
    requires { length rows.now ≤ 1000 }
    ensures { OnOk result (out.new.items ≡ out.old.items
        ++ flat_map text_bytes (top_texts rows.now)) }
{
    write_label(alloc, out, -200, 2900, b"VDD")?;
    let mut i = 0;
    let mut rest = rows;
    'pins: while let [row, more @ ..] = rest {
        write_row_pins(alloc, out, i, row.kinds().len())?;
        i += 1;
        rest = more;
    }
    Ok(())
}

fn write_row_refs(alloc: Global, out: &mut Vec<u8>, rows: &[Row]) -> Result<(), AllocError>
    requires { length rows.now ≤ 1000 }
    ensures { OnOk result (out.new.items ≡ out.old.items
        ++ flat_map ref_bytes (by_number row_ref 0 rows.now)) }
{
    let mut i = 0;
    let mut rest = rows;
    'rows: while let [_, more @ ..] = rest {
        write_placed(alloc, out, &numbered(alloc, b"ROW", i)?, 0, 4000 * i)?;
        i += 1;
        rest = more;
    }
    Ok(())
}

/// Appends the top of these rows, at most 1,000.
pub fn write_top(alloc: Global, out: &mut Vec<u8>, rows: &[Row]) -> Result<(), AllocError>
    requires { length rows.now ≤ 1000 }
    ensures { OnOk result (out.new.items ≡ out.old.items ++ block_bytes (top_block rows.now)) }
{
    write_cell_start(alloc, out, &NO_DATES, b"TOP")?;
    write_supply(out, rows)?;
    write_pins(alloc, out, rows)?;
    write_row_refs(alloc, out, rows)?;
    write_cell_end(out)
}
