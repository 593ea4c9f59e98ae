//! Depots and sinks over files and in memory: what they keep, and the calls that fail.

ghost use Rattle.std.specs.Prelude.{◌≡◌, []};
ghost use Rattle.lvs_outside.specs.Store.{HasRoom};

use crate::broken::{Broken, Fault, Mouth};
use lvs_outside::{
    Depot, EndlessDepot, Failed, FileDepot, IdleDepot, MemoryDepot, MemorySink, QuietDepot,
    ReadFault, Sink, StdoutSink, read_rest, write_all, write_file,
};
use std::alloc::Global;
use std::fs;
use std::io::ErrorKind;
use std::test::Fail;

// Reads a file, where there is one.
fn read_back<D: Depot>(depot: &mut D, path: &str, back: &mut Vec<u8>) -> Result<bool, ReadFault>
    requires room { HasRoom (D.state depot.old) }
    requires fresh { back.old.items ≡ [] }
{
    if !depot.open_read(path)? {
        return Ok(false);
    }
    read_rest(depot, back)?;
    Ok(true)
}

// Writes a file and reads it back.
fn write_and_read<D: Depot>(
    depot: &mut D,
    path: &str,
    text: &[u8],
    back: &mut Vec<u8>,
) -> Result<bool, ReadFault>
    requires room { HasRoom (D.state depot.old) }
    requires fresh { back.old.items ≡ [] }
{
    write_file(depot, path, text)?;
    read_back(depot, path, back)
}

#[test]
fn file_depot_keeps_a_file(rt: HostRuntime) -> Result<(), Fail> {
    let alloc = rt.alloc();
    let mut back = Vec::new(alloc);
    let path = "lvs_outside_tests_file";
    let answer = write_and_read(&mut FileDepot::new(&rt), path, b"GDS\x00\xff", &mut back);
    fs::remove_file(&rt, path)?;
    assert!(rt; answer == Ok(true));
    assert!(rt; back.as_slice() == b"GDS\x00\xff".as_slice());
    let absent = FileDepot::new(&rt).open_read(path);
    assert!(rt; absent == Ok(false));
    Ok(())
}

// 70,000 bytes without an order, and three in their place: a file that was longer ends where the text
// does.
#[test]
fn file_depot_writes_over_a_longer_file(rt: HostRuntime) -> Result<(), Fail> {
    let alloc = rt.alloc();
    let path = "lvs_outside_tests_longer";
    let mut long = Vec::new(alloc);
    for k in 0..70_000u32 {
        long.push(k.wrapping_mul(2_654_435_761).to_be_bytes()[0])?;
    }
    let mut first = Vec::new(alloc);
    assert!(rt; write_and_read(&mut FileDepot::new(&rt), path, &long, &mut first) == Ok(true));
    let mut second = Vec::new(alloc);
    assert!(rt; write_and_read(&mut FileDepot::new(&rt), path, b"GDS", &mut second) == Ok(true));
    fs::remove_file(&rt, path)?;
    assert!(rt; first == long);
    assert!(rt; second.as_slice() == b"GDS".as_slice());
    Ok(())
}

// A folder that isn't there: the file can't be started, and none is found. A full device takes no
// byte, another takes all. A folder is opened, and can't be read; a path that goes on behind a file
// can't be opened, and isn't told as absent.
#[test]
fn file_depot_fails(rt: HostRuntime) -> Result<(), Fail> {
    let alloc = rt.alloc();
    let mut back = Vec::new(alloc);
    let path = "no_folder/file";
    let answer = write_and_read(&mut FileDepot::new(&rt), path, b"GDS", &mut back);
    assert!(rt; answer == Err(ReadFault::Failed));
    assert!(rt; FileDepot::new(&rt).open_read(path) == Ok(false));
    assert!(rt; FileDepot::new(&rt).open_read("/dev/null/file") == Err(Failed));
    assert!(rt; write_file(&mut FileDepot::new(&rt), "/dev/full", b"GDS").is_err());
    assert!(rt; write_file(&mut FileDepot::new(&rt), "/dev/null", b"GDS").is_ok());
    let mut none = Vec::new(alloc);
    let answer = read_back(&mut FileDepot::new(&rt), ".", &mut none);
    assert!(rt; answer == Err(ReadFault::Failed));
    Ok(())
}

/// The calls that may fail.
static CALLS_THAT_FAIL: [Fault; 6] = [
    Fault::None,
    Fault::Open,
    Fault::Read,
    Fault::Write,
    Fault::Flush,
    Fault::Sync,
];

/// The kinds of errors.
static KINDS: [ErrorKind; 42] = [
    ErrorKind::NotFound,
    ErrorKind::PermissionDenied,
    ErrorKind::ConnectionRefused,
    ErrorKind::ConnectionReset,
    ErrorKind::HostUnreachable,
    ErrorKind::NetworkUnreachable,
    ErrorKind::ConnectionAborted,
    ErrorKind::NotConnected,
    ErrorKind::AddrInUse,
    ErrorKind::AddrNotAvailable,
    ErrorKind::NetworkDown,
    ErrorKind::BrokenPipe,
    ErrorKind::AlreadyExists,
    ErrorKind::WouldBlock,
    ErrorKind::NotADirectory,
    ErrorKind::IsADirectory,
    ErrorKind::DirectoryNotEmpty,
    ErrorKind::ReadOnlyFilesystem,
    ErrorKind::FilesystemLoop,
    ErrorKind::StaleNetworkFileHandle,
    ErrorKind::InvalidInput,
    ErrorKind::InvalidData,
    ErrorKind::TimedOut,
    ErrorKind::WriteZero,
    ErrorKind::StorageFull,
    ErrorKind::NotSeekable,
    ErrorKind::QuotaExceeded,
    ErrorKind::FileTooLarge,
    ErrorKind::ResourceBusy,
    ErrorKind::ExecutableFileBusy,
    ErrorKind::Deadlock,
    ErrorKind::CrossesDevices,
    ErrorKind::TooManyLinks,
    ErrorKind::InvalidFilename,
    ErrorKind::ArgumentListTooLong,
    ErrorKind::Interrupted,
    ErrorKind::Unsupported,
    ErrorKind::UnexpectedEof,
    ErrorKind::OutOfMemory,
    ErrorKind::InProgress,
    ErrorKind::Other,
    ErrorKind::Uncategorized,
];

// Whether a file is written where this call fails so, and what reading it answers: a file that isn't
// found is absent, a device has no sync, and all else is told.
fn wanted(fault: Fault, kind: ErrorKind) -> (bool, Result<bool, ReadFault>) {
    match (fault, kind) {
        (Fault::Open, ErrorKind::NotFound) => (false, Ok(false)),
        (Fault::Open, _) => (false, Err(ReadFault::Failed)),
        (Fault::Read, _) => (true, Err(ReadFault::Failed)),
        (Fault::Sync, ErrorKind::InvalidInput) => (true, Ok(true)),
        (Fault::Sync, _) => (false, Ok(true)),
        (Fault::Write, _) => (false, Ok(true)),
        (Fault::Flush, _) => (false, Ok(true)),
        (_, _) => (true, Ok(true)),
    }
}

// Whether a file of a system that fails so is written and read as it is wanted.
fn is_told(alloc: Global, fault: Fault, kind: ErrorKind) -> bool {
    let (is_written, read) = wanted(fault, kind);
    let files = Broken { fault, kind };
    let mut back = Vec::new(alloc);
    let written = write_file(&mut FileDepot::new(&files), "a", b"GDS");
    let answer = read_back(&mut FileDepot::new(&files), "a", &mut back);
    written.is_ok() == is_written && answer == read
}

// Each call fails with each kind of error.
#[test]
fn file_depot_tells_each_fault(rt: HostRuntime) {
    for fault in &CALLS_THAT_FAIL {
        for kind in &KINDS {
            assert!(rt; is_told(rt.alloc(), *fault, *kind), "{fault:?}");
        }
    }
}

// A write that takes a part of its piece says so.
#[test]
fn file_depot_writes_short(rt: HostRuntime) {
    let files = Broken {
        fault: Fault::Short,
        kind: ErrorKind::Other,
    };
    let mut depot = FileDepot::new(&files);
    assert!(rt; depot.start_write("a").is_ok());
    assert!(rt; Depot::write(&mut depot, b"GDSII") == Ok(2));
    assert!(rt; Depot::write(&mut depot, b"") == Ok(0));
    assert!(rt; depot.finish_write().is_ok());
}

/// How many bytes a standard output takes, where it doesn't fail, and what a write of five and one
/// of a whole line answer.
static MOUTHS: [(Option<usize>, Result<usize, Failed>, bool); 4] = [
    (Some(100), Ok(5), true),
    (Some(2), Ok(2), true),
    (Some(0), Ok(0), false),
    (None, Err(Failed), false),
];

#[test]
fn stdout_sink_tells_what_is_taken(rt: HostRuntime) {
    for (takes, answer, is_whole) in &MOUTHS {
        let mouth = Mouth { takes: *takes };
        assert!(rt;
            StdoutSink::new(&mouth).write(b"GDSII") == *answer,
            "{takes:?}"
        );
        let whole = write_all(
            &mut StdoutSink::new(&mouth),
            b"shapes cells 1 rectangles 1\n",
        );
        assert!(rt; whole.is_ok() == *is_whole, "{takes:?}");
    }
}

#[test]
fn stdout_sink_takes_a_line(rt: HostRuntime) {
    assert!(rt; write_all(&mut StdoutSink::new(&rt), b"shapes cells 1 rectangles 1\n").is_ok());
}

/// The number of a call, what writing and reading answer, the file that is left and what was read.
struct Call(
    u64,
    Result<bool, ReadFault>,
    Option<&'static str>,
    &'static str,
);

// Calls 1 to 3 write the file, 4 opens it, 5 reads it, and 6 reads its end.
static CALLS: [Call; 7] = [
    Call(1, Err(ReadFault::Failed), None, ""),
    Call(2, Err(ReadFault::Failed), Some(""), ""),
    Call(3, Err(ReadFault::Failed), Some("abc"), ""),
    Call(4, Err(ReadFault::Failed), Some("abc"), ""),
    Call(5, Err(ReadFault::Failed), Some("abc"), ""),
    Call(6, Err(ReadFault::Failed), Some("abc"), "abc"),
    Call(7, Ok(true), Some("abc"), "abc"),
];

// Whether a depot has this file, or none.
fn has_file(depot: &MemoryDepot, path: &str, text: Option<&str>) -> bool {
    match (depot.file(path), text) {
        (None, None) => true,
        (Some(bytes), Some(text)) => bytes == text.as_bytes(),
        _ => false,
    }
}

#[test]
fn memory_depot_fails_where_it_is_told(rt: HostRuntime) -> Result<(), Fail> {
    let alloc = rt.alloc();
    for Call(number, want, file, read) in &CALLS {
        let mut depot = MemoryDepot::new(alloc, vec![in alloc; *number]?);
        let mut back = Vec::new(alloc);
        let answer = write_and_read(&mut depot, "a.gds", b"abc", &mut back);
        assert!(rt; answer == *want, "call {number}");
        assert!(rt; has_file(&depot, "a.gds", *file), "call {number}");
        assert!(rt; back.as_slice() == read.as_bytes(), "call {number}");
        assert!(rt; depot.refused() == 0, "call {number}");
    }
    Ok(())
}

#[test]
fn memory_depot_holds_what_is_put(rt: HostRuntime) -> Result<(), Fail> {
    let alloc = rt.alloc();
    let mut depot = MemoryDepot::new(alloc, Vec::new(alloc));
    for (path, bytes) in [("a", "one"), ("b", "two"), ("a", "three")] {
        depot.put(alloc, path, bytes.as_bytes())?;
    }
    assert!(rt; has_file(&depot, "a", Some("three")));
    assert!(rt; has_file(&depot, "b", Some("two")));
    assert!(rt; has_file(&depot, "c", None));
    Ok(())
}

#[test]
fn memory_sink_fails_where_it_is_told(rt: HostRuntime) -> Result<(), Fail> {
    let alloc = rt.alloc();
    for number in 1..3 {
        let mut out = MemorySink::new(alloc, vec![in alloc; number]?);
        let done = write_all(&mut out, b"line\n");
        let line = if number == 2 { "line\n" } else { "" };
        assert!(rt; done.is_ok() == (number == 2));
        assert!(rt; out.bytes() == line.as_bytes());
        assert!(rt; out.refused() == 0);
    }
    Ok(())
}

// Any file is there, each buffer is filled, and each write is taken whole.
#[test]
fn endless_depot_has_no_end(rt: HostRuntime) {
    let mut depot = EndlessDepot::new();
    assert!(rt; write_file(&mut depot, "a", b"abc").is_ok());
    assert!(rt; depot.open_read("b") == Ok(true));
    let mut buf = [1; 3];
    assert!(rt; depot.read(&mut buf) == Ok(3));
    assert!(rt; buf == [0; 3]);
}

// What was put is read, a piece isn't taken, and an empty one is no fault.
#[test]
fn idle_depot_takes_nothing(rt: HostRuntime) -> Result<(), Fail> {
    let alloc = rt.alloc();
    for (text, is_written) in [("abc", false), ("", true)] {
        let mut depot = IdleDepot::new(alloc);
        let mut back = Vec::new(alloc);
        depot.put(alloc, "a", b"one")?;
        assert!(rt; read_back(&mut depot, "a", &mut back) == Ok(true));
        assert!(rt; back.as_slice() == b"one".as_slice());
        let written = write_file(&mut IdleDepot::new(alloc), "b", text.as_bytes());
        assert!(rt; written.is_ok() == is_written);
    }
    Ok(())
}

// Reads the file three times, two bytes at most each time: the bytes and the three answers.
fn read_in_twos(
    depot: &mut QuietDepot<'_>,
    path: &str,
) -> Result<Option<([[u8; 2]; 3], [usize; 3])>, Failed> {
    if !depot.open_read(path)? {
        return Ok(None);
    }
    let mut first = [0; 2];
    let mut second = [0; 2];
    let mut third = [0; 2];
    let counts = [
        depot.read(&mut first)?,
        depot.read(&mut second)?,
        depot.read(&mut third)?,
    ];
    Ok(Some(([first, second, third], counts)))
}

#[test]
fn quiet_depot_reads_what_is_lent(rt: HostRuntime) -> Result<(), Fail> {
    let mut depot = QuietDepot::new(rt.alloc());
    for (path, bytes) in [("a", "one"), ("b", "two"), ("a", "four")] {
        depot.lend(path, bytes.as_bytes())?;
    }
    let rows = [
        ("a", Some(([*b"fo", *b"ur", [0; 2]], [2, 2, 0]))),
        ("b", Some(([*b"tw", *b"o\0", [0; 2]], [2, 1, 0]))),
        ("c", None),
    ];
    for (path, want) in rows {
        assert!(rt; read_in_twos(&mut depot, path) == Ok(want), "{path}");
    }
    assert!(rt; depot.written() == 0);
    Ok(())
}

#[test]
fn quiet_depot_counts_what_is_written(rt: HostRuntime) -> Result<(), Fail> {
    let mut depot = QuietDepot::new(rt.alloc());
    depot.lend("a", b"one")?;
    for path in ["a", "b"] {
        assert!(rt; depot.start_write(path).is_ok());
        assert!(rt; Depot::write(&mut depot, b"line") == Ok(4));
        assert!(rt; Depot::write(&mut depot, b"") == Ok(0));
        assert!(rt; Depot::write(&mut depot, b"\n") == Ok(1));
        assert!(rt; depot.finish_write().is_ok());
        assert!(rt; depot.open_read(path) == Ok(false), "{path}");
    }
    assert!(rt; depot.written() == 10);
    for piece in ["shapes", "", "\n"] {
        assert!(rt; Sink::write(&mut depot, piece.as_bytes()) == Ok(piece.len()));
    }
    assert!(rt; depot.written() == 17);
    depot.lend("a", b"two")?;
    assert!(rt; depot.open_read("a") == Ok(true));
    Ok(())
}

// The loops over any depot and any sink take it too.
#[test]
fn quiet_depot_goes_through_the_loops(rt: HostRuntime) -> Result<(), Fail> {
    let alloc = rt.alloc();
    let mut depot = QuietDepot::new(alloc);
    let mut back = Vec::new(alloc);
    let answer = write_and_read(&mut depot, "a", b"abc", &mut back);
    assert!(rt; answer == Ok(false));
    assert!(rt; write_all(&mut depot, b"line\n").is_ok());
    assert!(rt; depot.written() == 8);
    Ok(())
}
