//! Eight-byte reals as ones, as angles and as database units.

use fixed_num::{Real8, dbu_pm};

/// Reals, and whether each is one.
static ONES: [([u8; 8], bool); 10] = [
    ([0x41, 0x10, 0, 0, 0, 0, 0, 0], true),
    ([0x42, 0x01, 0, 0, 0, 0, 0, 0], true),
    ([0x43, 0x00, 0x10, 0, 0, 0, 0, 0], true),
    ([0x4e, 0, 0, 0, 0, 0, 0, 1], true),
    ([0xc1, 0x10, 0, 0, 0, 0, 0, 0], false),
    ([0x41, 0x20, 0, 0, 0, 0, 0, 0], false),
    ([0x41, 0x10, 0, 0, 0, 0, 0, 1], false),
    ([0x40, 0x10, 0, 0, 0, 0, 0, 0], false),
    ([0x4f, 0, 0, 0, 0, 0, 0, 1], false),
    ([0; 8], false),
];

#[test]
fn ones(rt: HostRuntime) {
    for (bytes, want) in &ONES {
        assert!(rt; Real8::from_bytes(*bytes).is_one() == *want, "at {bytes:?}");
    }
}

/// Reals, and the quarter turns that each is as an angle.
static ANGLES: [([u8; 8], Option<u8>); 18] = [
    ([0x42, 0x5a, 0, 0, 0, 0, 0, 0], Some(1)),
    ([0x43, 0x05, 0xa0, 0, 0, 0, 0, 0], Some(1)),
    ([0x42, 0xb4, 0, 0, 0, 0, 0, 0], Some(2)),
    ([0x43, 0x10, 0xe0, 0, 0, 0, 0, 0], Some(3)),
    ([0x43, 0x16, 0x80, 0, 0, 0, 0, 0], Some(0)),
    ([0xc2, 0x5a, 0, 0, 0, 0, 0, 0], Some(3)),
    ([0xc2, 0xb4, 0, 0, 0, 0, 0, 0], Some(2)),
    ([0xc3, 0x10, 0xe0, 0, 0, 0, 0, 0], Some(1)),
    ([0xc3, 0x16, 0x80, 0, 0, 0, 0, 0], Some(0)),
    ([0; 8], Some(0)),
    ([0x80, 0, 0, 0, 0, 0, 0, 0], Some(0)),
    ([0xff, 0, 0, 0, 0, 0, 0, 0], Some(0)),
    ([0x43, 0x1c, 0x20, 0, 0, 0, 0, 0], None),
    ([0xc3, 0x1c, 0x20, 0, 0, 0, 0, 0], None),
    ([0x42, 0x2d, 0, 0, 0, 0, 0, 0], None),
    ([0x42, 0x5a, 0, 0, 0, 0, 0, 1], None),
    ([0x41, 0x10, 0, 0, 0, 0, 0, 0], None),
    ([0x7f, 0xff, 0, 0, 0, 0, 0, 0], None),
];

#[test]
fn angles(rt: HostRuntime) {
    for (bytes, want) in &ANGLES {
        assert!(rt;
            Real8::from_bytes(*bytes).quarter() == *want,
            "at {bytes:?}"
        );
    }
}

/// Reals, and the picometres that each is as a database unit.
static UNITS: [([u8; 8], Option<u32>); 13] = [
    ([0x39, 0x44, 0xb8, 0x2f, 0xa0, 0x9b, 0x5a, 0x54], Some(1000)),
    ([0x39, 0x44, 0xb8, 0x2f, 0xa0, 0x9b, 0x5a, 0x51], Some(1000)),
    ([0x36, 0x8c, 0xbc, 0xcc, 0x09, 0x6f, 0x50, 0x88], None),
    ([0x36, 0x8c, 0xbc, 0xcc, 0x09, 0x6f, 0x50, 0x89], Some(1)),
    ([0x37, 0x11, 0x97, 0x99, 0x81, 0x2d, 0xea, 0x11], Some(1)),
    ([0x37, 0x1a, 0x63, 0x66, 0x41, 0xc4, 0xdf, 0x19], Some(1)),
    ([0x37, 0x1a, 0x63, 0x66, 0x41, 0xc4, 0xdf, 0x1a], Some(2)),
    (
        [0x3c, 0x10, 0xc6, 0xf7, 0xa0, 0xb5, 0xed, 0x8d],
        Some(1_000_000),
    ),
    (
        [0x3c, 0x10, 0xc6, 0xf8, 0x2d, 0x72, 0xb9, 0x96],
        Some(1_000_000),
    ),
    ([0x3c, 0x10, 0xc6, 0xf8, 0x2d, 0x72, 0xb9, 0x97], None),
    ([0xb9, 0x44, 0xb8, 0x2f, 0xa0, 0x9b, 0x5a, 0x54], None),
    ([0x41, 0x10, 0, 0, 0, 0, 0, 0], None),
    ([0; 8], None),
];

// The neighbours of 0.5, 1, 1.5, 1000, 1,000,000 and 1,000,000.5 picometres.
#[test]
fn units(rt: HostRuntime) {
    for (bytes, want) in &UNITS {
        assert!(rt; dbu_pm(&Real8::from_bytes(*bytes)) == *want, "at {bytes:?}");
    }
}
