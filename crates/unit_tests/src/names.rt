//! Names: how SPICE text spells them, both ways, and their folding and order.

use net_names::{Name, NameFault, escape, folded, unescape};
use std::alloc::Global;
use std::cmp::Ordering;
use std::test::Fail;

fn name_of(alloc: Global, bytes: &[u8]) -> Result<Name, Fail> {
    match Name::from_bytes(alloc, bytes)? {
        Some(name) => Ok(name),
        None => Err(Fail::from("empty")),
    }
}

// Whether the name of these bytes is spelled so.
fn is_spelled(alloc: Global, bytes: &[u8], text: &[u8]) -> Result<bool, Fail> {
    let name = name_of(alloc, bytes)?;
    Ok(escape(alloc, &name)?.as_slice() == text)
}

// Whether the text spells the name of these bytes.
fn is_read(alloc: Global, text: &[u8], bytes: &[u8]) -> Result<bool, Fail> {
    if text.is_empty() {
        return Ok(false);
    }
    match unescape(alloc, text) {
        Ok(name) => Ok(name.bytes() == bytes),
        Err(_) => Ok(false),
    }
}

/// Bytes of names, and how SPICE text spells them.
static SPELLED: [(&[u8], &[u8]); 9] = [
    (b"net_1.a/b[3]<4>#5:!-Z", b"net_1.a/b[3]<4>#5:!-Z"),
    (b"a b", b"a\\x20b"),
    (b"l=1u", b"l\\=1u"),
    (
        b"$\"'(*+,;?@^`{|}~%&)",
        b"\\$\\\"\\'\\(\\*\\+\\,\\;\\?\\@\\^\\`\\{\\|\\}\\~\\%\\&\\)",
    ),
    (b"\\x41", b"\\\\x41"),
    (b"\x00\t\n\r", b"\\x00\\x09\\x0A\\x0D"),
    (b"\x1f\x7f", b"\\x1F\\x7F"),
    (b"\x80\xab\xff", b"\\x80\\xAB\\xFF"),
    (b"x", b"x"),
];

// How SPICE text spells names with every kind of byte, both ways.
#[test]
fn spellings(rt: HostRuntime) -> Result<(), Fail> {
    for (bytes, text) in &SPELLED {
        assert!(rt; is_spelled(rt.alloc(), bytes, text)?, "{text:?}");
        assert!(rt; is_read(rt.alloc(), text, bytes)?, "{text:?}");
    }
    Ok(())
}

/// Texts with other escapes, and the bytes of their names.
static WRITTEN: [(&[u8], &[u8]); 6] = [
    (b"\\x41\\X42\\x4a\\X4B", b"ABJK"),
    (b"\\xfF", b"\xff"),
    (b"\\a\\_\\.", b"a_."),
    (b"a b", b"a b"),
    (b"\xe4\x7f", b"\xe4\x7f"),
    (b"\\\\\\x5c", b"\\\\"),
];

#[test]
fn escapes_as_written_by_others(rt: HostRuntime) -> Result<(), Fail> {
    for (text, bytes) in &WRITTEN {
        assert!(rt; is_read(rt.alloc(), text, bytes)?, "{text:?}");
    }
    Ok(())
}

/// Texts that spell no name.
static BAD: [&[u8]; 10] = [
    b"\\",
    b"a\\",
    b"\\x",
    b"\\x4",
    b"\\X4g",
    b"\\xg4",
    b"\\ a",
    b"\\\x7f",
    b"\\\x00",
    b"ok\\\\\\",
];

#[test]
fn bad_escapes(rt: HostRuntime) {
    for text in &BAD {
        assert!(rt; !text.is_empty());
        assert!(rt; matches!(unescape(rt.alloc(), text), Err(NameFault::BadEscape)));
    }
}

/// Names, and the order of the first to the second.
static ORDERS: [(&[u8], &[u8], Ordering); 5] = [
    (b"a", b"ab", Ordering::Less),
    (b"b", b"ab", Ordering::Greater),
    (b"A", b"a", Ordering::Less),
    (b"\xff", b"z", Ordering::Greater),
    (b"same", b"same", Ordering::Equal),
];

#[test]
fn folding_and_order(rt: HostRuntime) -> Result<(), Fail> {
    assert!(rt; Name::from_bytes(rt.alloc(), b"")?.is_none());
    let name = name_of(rt.alloc(), b"aZz{`\xe4")?;
    assert!(rt; folded(rt.alloc(), &name)?.bytes() == b"AZZ{`\xe4".as_slice());
    assert!(rt; name.try_clone(rt.alloc())? == name);
    for (left, right, order) in &ORDERS {
        let left = name_of(rt.alloc(), left)?;
        let right = name_of(rt.alloc(), right)?;
        assert!(rt; left.cmp(&right) == *order);
        assert!(rt; (left == right) == (*order == Ordering::Equal));
    }
    Ok(())
}
