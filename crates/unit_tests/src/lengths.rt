//! Lengths written in micrometres and read again.

use fixed_num::{Femto, micron_text, parse_value};
use std::test::Fail;

/// Lengths in femtometres, and their texts in micrometres.
static WRITTEN: [(u128, &str); 10] = [
    (0, "0"),
    (1, "0.000000001"),
    (1_000_000, "0.001"),
    (250_000_000, "0.25"),
    (1_000_000_000, "1"),
    (1_500_000_000, "1.5"),
    (10_000_000_000, "10"),
    (10_000_000_010, "10.00000001"),
    (999_999_999_999_999_999, "999999999.999999999"),
    (1_000_000_000_000_000_000, "1000000000"),
];

// With ample memory each length is written, and read again with a `U` behind it.
#[test]
fn micrometres(rt: HostRuntime) -> Result<(), Fail> {
    for (length, want) in &WRITTEN {
        let mut text = micron_text(rt.alloc(), Femto(*length))?;
        assert!(rt; text.as_slice() == want.as_bytes(), "at {length}");
        text.push(b'U')?;
        assert!(rt; parse_value(&text) == Ok(Femto(*length)), "at {length}");
    }
    let most = micron_text(rt.alloc(), Femto(u128::MAX))?;
    assert!(rt; most.as_slice() == b"340282366920938463463374607431.768211455".as_slice());
    Ok(())
}
