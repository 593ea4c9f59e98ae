//! Lengths and checksums of the texts of chips of one to 10,000 inverters.

use chip_maker::make;
use std::test::Fail;

// A checksum that sees each byte and its place.
fn checksum(bytes: &[u8]) -> u64 {
    let mut sum: u64 = 0;
    for b in bytes {
        sum = sum.wrapping_mul(31).wrapping_add(u64::from(*b));
    }
    sum
}

#[test]
fn one_inverter(rt: HostRuntime) -> Result<(), Fail> {
    let made = make(rt.alloc(), 1, 0)?;
    assert!(rt; made.layout.len() == 3332);
    assert!(rt; checksum(&made.layout) == 17524975726159161561);
    assert!(rt; made.rules.len() == 814);
    assert!(rt; checksum(&made.rules) == 2668275730867555041);
    assert!(rt; made.schematic.len() == 324);
    assert!(rt; checksum(&made.schematic) == 8080628753190960074);
    Ok(())
}

// A row that is full, and one inverter in a row of its own behind it.
#[test]
fn full_row(rt: HostRuntime) -> Result<(), Fail> {
    let alloc = rt.alloc();
    for (n, layout, schematic) in [
        (100u32, 5961618435434317683u64, 8379335124524882391u64),
        (101, 2254451484658909453, 14624244873281417630),
    ] {
        let made = make(alloc, n, 7)?;
        assert!(rt; checksum(&made.layout) == layout);
        assert!(rt; checksum(&made.schematic) == schematic);
    }
    Ok(())
}

#[test]
fn hundred_rows(rt: HostRuntime) -> Result<(), Fail> {
    let made = make(rt.alloc(), 10000, 7)?;
    assert!(rt; made.layout.len() == 316298);
    assert!(rt; checksum(&made.layout) == 3883389019518697909);
    assert!(rt; made.schematic.len() == 250000);
    assert!(rt; checksum(&made.schematic) == 1336800968981811890);
    Ok(())
}
