//! Small pairs, matched exactly where one of all maps is a correspondence.

ghost use Rattle.std.specs.Prelude.{◌<◌};

use crate::builders::{circuit, transistor};
use crate::fitting::{compare, is_match};
use match_types::{Answer, ChildPins, Pairing};
use net_model::Circuit;
use std::alloc::{AllocError, Global};

// The next of a row of numbers without order.
fn next(seed: u32) -> u32 {
    seed.wrapping_mul(1_664_525).wrapping_add(1_013_904_223)
}

// One of three nets, by the high bits.
fn net(seed: u32) -> u32
    ensures { result < 3 }
{
    (seed >> 24) % 3
}

// Three nets, the first one a pin, and two transistors on nets that the seed picks, renamed.
fn small(alloc: Global, seed: u32, names: [u32; 3]) -> Result<Circuit, AllocError> {
    let mut c = circuit(alloc, &[b"A", b"B", b"C"], 1)?;
    let mut s = seed;
    for _ in 0..2 {
        let source = next(s);
        let gate = next(source);
        let drain = next(gate);
        s = next(drain);
        let on = [
            named(names, source),
            named(names, gate),
            named(names, drain),
            0,
        ];
        transistor(alloc, &mut c, b"NMOS", 1000, on)?;
    }
    Ok(c)
}

// The net that a number picks.
fn named(names: [u32; 3], seed: u32) -> u32 {
    names[net(seed) as usize]
}

static NETS: [[u32; 3]; 6] = [
    [0, 1, 2],
    [0, 2, 1],
    [1, 0, 2],
    [1, 2, 0],
    [2, 0, 1],
    [2, 1, 0],
];

static DEVICES: [[u32; 2]; 2] = [[0, 1], [1, 0]];

// Whether one of all maps is a correspondence.
fn has_match(alloc: Global, left: &Circuit, right: &Circuit) -> Result<bool, AllocError> {
    for nets in &NETS {
        for devices in &DEVICES {
            let pairing = Pairing {
                nets: nets.to_vec(alloc)?,
                devices: devices.to_vec(alloc)?,
                calls: Vec::new(alloc),
            };
            if is_match(alloc, left, right, &pairing)? {
                return Ok(true);
            }
        }
    }
    Ok(false)
}

// Whether a pair is a match, where it is one or a difference.
fn is_matched(answer: Option<Answer>) -> Option<bool> {
    match answer {
        Some(Answer::Match(_pairing)) => Some(true),
        Some(Answer::Differs(_evidence)) => Some(false),
        _other => None,
    }
}

// Small pairs are matched exactly where one of all maps is a correspondence.
#[test]
fn every_map(rt: HostRuntime) -> Result<(), AllocError> {
    let alloc = rt.alloc();
    let mut matches: u32 = 0;
    for i in 0..300 {
        let left = small(alloc, i, NETS[0])?;
        let right = small(alloc, i - i % 3, NETS[(i % 6) as usize])?;
        let want = has_match(alloc, &left, &right)?;
        let none = ChildPins::new(alloc, false);
        let found = is_matched(compare(alloc, &left, &right, &none, 1000)?);
        assert!(rt; found == Some(want), "pair {i}");
        if want {
            matches = matches.saturating_add(1);
        }
    }
    assert!(rt; matches > 50);
    Ok(())
}
