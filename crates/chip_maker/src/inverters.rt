//! A chip's inverters, in rows.

ghost use Rattle.std.specs.Prelude.{◌≡◌, ◌≤◌, ℕ, List, length, map, IfOk, OnOk};
ghost use Rattle.std.specs.List.{All, range_with_len};
ghost use Rattle.chip_maker.specs.Inverters.{inverter, kind_by, next, random, rows};

use std::alloc::{AllocError, Global};
use std::marker::Model;

/// The kinds of inverters: the n-channel transistor of a wide one is as wide as its other.
#[derive(Clone, Copy, Debug, PartialEq, Eq)]
pub enum Kind {
    Plain,
    Wide,
}

/// A row's inverters, at most 100.
#[derive(Drop)]
pub struct Row {
    kinds: Vec<Kind>,
}

impl Model for Row {
    ghost use Rattle.std.specs.Prelude.{List, length, ◌≤◌};
    ghost use Rattle.chip_maker.specs.declared.inverters.Kind.{Kind};

    ghost Value = { List Kind };

    ghost view = { λ r. r.kinds.items };

    ghost invariant = { λ r. length r.kinds.items ≤ 100 };
}

impl Row {
    /// The kinds from left to right.
    pub fn kinds(&self) -> &[Kind]
        ensures same { result.now ≡ self.now }
        ensures few { length self.now ≤ 100 }
    {
        self.kinds.as_slice()
    }
}

const ROW: u32 = 100;

const MULTIPLIER: u64 = 6_364_136_223_846_793_005;

const INCREMENT: u64 = 1_442_695_040_888_963_407;

// The next number of the random sequence.
fn next(x: u64) -> u64
    ensures { result ≡ next x }
{
    x.wrapping_mul(MULTIPLIER).wrapping_add(INCREMENT)
}

fn kind_by(x: u64) -> Kind
    ensures { result ≡ kind_by x }
{
    if x < 1 << 63 { Kind::Plain } else { Kind::Wide }
}

// A row of the next inverters.
fn draw_row(alloc: Global, state: &mut u64, count: u32) -> Result<Row, AllocError>
    requires { count ≤ 100 }
    ensures row { IfOk result (λ row. row ≡ map (inverter state.old) (range_with_len 0 count)) }
    ensures state { OnOk result (state.new ≡ random state.old count) }
{
    let mut kinds = Vec::new(alloc);
    for _ in 0..count {
        *state = next(*state);
        kinds.push(kind_by(*state))?;
    }
    Ok(Row { kinds })
}

/// The rows of a chip of `n` inverters.
pub fn rows(alloc: Global, n: u32, seed: u64) -> Result<Vec<Row>, AllocError>
    requires { n ≤ 100000 }
    ensures { IfOk result (λ made. made.items ≡ rows n seed) }
{
    let mut made = Vec::new(alloc);
    let mut state = seed;
    for i in 0..(n + 99) / ROW {
        let left = n - i * ROW;
        made.push(draw_row(alloc, &mut state, left.min(ROW))?)?;
    }
    Ok(made)
}
