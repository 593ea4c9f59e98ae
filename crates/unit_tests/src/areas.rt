//! Texts of SPICE areas, and areas written in square micrometres and read again.

use fixed_num::ValueFault::{NotNumber, TooFine, TooLarge};
use fixed_num::{ValueFault, area_text, parse_area};
use std::test::Fail;

const SQUARE_METRE: u128 = 1_000_000_000_000_000_000_000_000;

static AREAS: [(&str, u128); 14] = [
    ("1", SQUARE_METRE),
    ("0", 0),
    ("1p", 1_000_000_000_000),
    ("0.0004P", 400_000_000),
    ("1f", 1_000_000_000),
    ("1e-9f", 1),
    ("1e-24", 1),
    ("1n", 1_000_000_000_000_000),
    ("1u", 1_000_000_000_000_000_000),
    ("1meg", 1_000_000 * SQUARE_METRE),
    ("1e6", 1_000_000 * SQUARE_METRE),
    (
        "999999.999999999999999999999999",
        1_000_000 * SQUARE_METRE - 1,
    ),
    ("1000000.000000000000000000000000", 1_000_000 * SQUARE_METRE),
    ("0.25psqm", 250_000_000_000),
];

static FAULTS: [(&str, ValueFault); 9] = [
    ("", NotNumber),
    ("-1p", NotNumber),
    ("1mil", NotNumber),
    ("0.25e-12sqm", NotNumber),
    ("1e-25", TooFine),
    ("0.1e-9f", TooFine),
    ("1.0000000000000000000000001", TooFine),
    ("1000000.000000000000000000000001", TooLarge),
    ("1.0000001meg", TooLarge),
];

#[test]
fn areas(rt: HostRuntime) {
    for (text, want) in &AREAS {
        assert!(rt; parse_area(text.as_bytes()) == Ok(*want), "at {text}");
    }
    for (text, want) in &FAULTS {
        assert!(rt; parse_area(text.as_bytes()) == Err(*want), "at {text}");
    }
    assert!(rt; parse_area(b"1p2") == Err(NotNumber));
}

/// Areas in square picometres, and their texts in square micrometres.
static WRITTEN: [(u128, &str); 7] = [
    (0, "0"),
    (1, "0.000000000001"),
    (400_000_000, "0.0004"),
    (1_000_000_000_000, "1"),
    (1_500_000_000_000, "1.5"),
    (10_000_000_000_010, "10.00000000001"),
    (
        1_000_000_000_000_000_000_000_000_000_000,
        "1000000000000000000",
    ),
];

// With ample memory each area is written, and read again with a `P` behind it.
#[test]
fn square_micrometres(rt: HostRuntime) -> Result<(), Fail> {
    for (area, want) in &WRITTEN {
        let mut text = area_text(rt.alloc(), *area)?;
        assert!(rt; text.as_slice() == want.as_bytes(), "at {area}");
        text.push(b'P')?;
        assert!(rt; parse_area(&text) == Ok(*area), "at {area}");
    }
    let most = area_text(rt.alloc(), u128::MAX)?;
    assert!(rt; most.as_slice() == b"340282366920938463463374607.431768211455".as_slice());
    Ok(())
}
