//! Texts of SPICE values, and the lengths that they are worth or their faults.

use fixed_num::ValueFault::{NotNumber, TooFine, TooLarge};
use fixed_num::{Femto, ValueFault, parse_value};
use std::test::Fail;

const FEMTO_PER_METRE: u128 = 1_000_000_000_000_000;

static VALUES: [(&str, u128); 31] = [
    ("0.25u", 250_000_000),
    ("2.5e-07", 250_000_000),
    ("1500n", 1_500_000_000),
    (".5", FEMTO_PER_METRE / 2),
    ("5.", 5 * FEMTO_PER_METRE),
    ("1e3", 1000 * FEMTO_PER_METRE),
    ("1", FEMTO_PER_METRE),
    ("0", 0),
    ("0.000t", 0),
    ("1f", 1),
    ("1p", 1000),
    ("1n", 1_000_000),
    ("1u", 1_000_000_000),
    ("1U", 1_000_000_000),
    ("1um", 1_000_000_000),
    ("1m", 1_000_000_000_000),
    ("1mi", 1_000_000_000_000),
    ("1me", 1_000_000_000_000),
    ("1microns", 1_000_000_000_000),
    ("1k", 1000 * FEMTO_PER_METRE),
    ("0.000001Meg", FEMTO_PER_METRE),
    ("0.000001megameters", FEMTO_PER_METRE),
    ("1e-9g", FEMTO_PER_METRE),
    ("1E-12T", FEMTO_PER_METRE),
    ("1e+2u", 100_000_000_000),
    ("1.5e1n", 15_000_000),
    ("00012u", 12_000_000_000),
    ("1.10u", 1_100_000_000),
    ("10e-1f", 1),
    ("1e18f", 1000 * FEMTO_PER_METRE),
    ("999.999999999999999", 1000 * FEMTO_PER_METRE - 1),
];

static FAULTS: [(&str, ValueFault); 31] = [
    ("", NotNumber),
    (".", NotNumber),
    ("u", NotNumber),
    ("e3", NotNumber),
    ("-1", NotNumber),
    ("+1", NotNumber),
    (" 1", NotNumber),
    ("1 u", NotNumber),
    ("1..2", NotNumber),
    ("1.2.3", NotNumber),
    ("1e", NotNumber),
    ("1e-", NotNumber),
    ("1eu", NotNumber),
    ("1e3.5", NotNumber),
    ("1e3e4", NotNumber),
    ("1mil", NotNumber),
    ("1MIL", NotNumber),
    ("1mils", NotNumber),
    ("1milli", NotNumber),
    ("1x", NotNumber),
    ("1u2", NotNumber),
    ("1u_", NotNumber),
    ("1meg", TooLarge),
    ("1g", TooLarge),
    ("1001", TooLarge),
    ("1000.000000000000001", TooLarge),
    ("1000.0000000000000001", TooLarge),
    ("0.5f", TooFine),
    ("1e-16", TooFine),
    ("1.0000000000000000001u", TooFine),
    ("999.9999999999999999", TooFine),
];

#[test]
fn plain_values(rt: HostRuntime) {
    for (text, want) in &VALUES {
        assert!(rt;
            parse_value(text.as_bytes()) == Ok(Femto(*want)),
            "at {text}"
        );
    }
}

#[test]
fn faulty_values(rt: HostRuntime) {
    for (text, want) in &FAULTS {
        assert!(rt; parse_value(text.as_bytes()) == Err(*want), "at {text}");
    }
}

#[test]
fn fault_numbers(rt: HostRuntime) {
    for (fault, want) in [(NotNumber, 1), (TooFine, 2), (TooLarge, 3)] {
        assert!(rt; fault.number() == want);
    }
}

/// Texts with long exponents, and what each is.
static EXPONENTS: [(&str, Result<Femto, ValueFault>); 5] = [
    (
        "1e0000000000000000000000000000000000000003",
        Ok(Femto(1000 * FEMTO_PER_METRE)),
    ),
    ("0e9999999999999999999999999999999999999999", Ok(Femto(0))),
    ("0e-9999999999999999999999999999999999999999", Ok(Femto(0))),
    ("1e9999999999999999999999999999999999999999", Err(TooLarge)),
    ("1e-9999999999999999999999999999999999999999", Err(TooFine)),
];

#[test]
fn long_exponents(rt: HostRuntime) {
    for (text, want) in &EXPONENTS {
        assert!(rt; parse_value(text.as_bytes()) == *want, "at {text}");
    }
}

/// A text, 399 times a digit and a text, and what they are together.
static DIGITS: [(&str, u8, &str, Result<Femto, ValueFault>); 7] = [
    ("1", b'0', "e-399", Ok(Femto(FEMTO_PER_METRE))),
    ("9", b'0', "e-399u", Ok(Femto(9_000_000_000))),
    ("1", b'0', "1e-400", Err(TooFine)),
    ("9", b'9', "e-397", Err(TooFine)),
    ("9", b'9', "e-396", Err(TooLarge)),
    ("0.", b'0', "1e400", Ok(Femto(FEMTO_PER_METRE))),
    ("0.0", b'0', "1e400", Ok(Femto(FEMTO_PER_METRE / 10))),
];

// 400 digits with an exponent that undoes them.
#[test]
fn long_digits(rt: HostRuntime) -> Result<(), Fail> {
    for (first, digit, last, want) in &DIGITS {
        let mut text = first.as_bytes().to_vec(rt.alloc())?;
        for _ in 0..399 {
            text.push(*digit)?;
        }
        text.extend_from_slice(last.as_bytes())?;
        assert!(rt; parse_value(&text) == *want, "at {first}..{last}");
    }
    Ok(())
}
