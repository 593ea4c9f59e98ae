//! Lists of words, and the commands that they state, or their refusal.

use lvs_words::{Stated, WordFault, read_stated};
use std::alloc::{AllocError, Global};
use std::test::Fail;

fn words_of(alloc: Global, line: &str) -> Result<Vec<String>, AllocError> {
    let mut made = Vec::new(alloc);
    for word in line.split_whitespace() {
        made.push(String::from_str(alloc, word)?)?;
    }
    Ok(made)
}

// What the words state, with the path that is named twice; or that they are refused.
fn stated(alloc: Global, line: &str) -> Result<String, AllocError> {
    let words = words_of(alloc, line)?;
    match read_stated(alloc, words.as_slice()) {
        Ok(stated) => {
            let command = stated.command;
            let shared = stated.shared;
            format!(in alloc; "{command:?} {shared:?}")
        }
        Err(WordFault::Refused) => format!(in alloc; "refused"),
        Err(WordFault::NoMemory) => format!(in alloc; "no memory"),
    }
}

// The path that is named twice, of words that are accepted.
fn shared_of(alloc: Global, line: &str) -> Result<String, AllocError> {
    let words = words_of(alloc, line)?;
    match read_stated(alloc, words.as_slice()) {
        Ok(stated) => {
            let Stated { command, shared } = stated;
            let _ = command;
            match shared {
                Some(path) => Ok(path),
                None => String::from_str(alloc, "none"),
            }
        }
        Err(_) => String::from_str(alloc, "refused"),
    }
}

// Options in several orders, both spellings, and the default.
#[test]
fn commands(rt: HostRuntime) -> Result<(), Fail> {
    let alloc = rt.alloc();
    let wanted = stated(alloc, "extract --layout l --rules r --shapes s --netlist n")?;
    assert!(rt;
        wanted.as_str()
            == "Extract { layout: \"l\", rules: \"r\", shapes: \"s\", netlist: \"n\", top: None, \
        workers: 1 } None"
    );
    for line in [
        "extract --netlist=n --workers 1 --shapes s --rules=r --layout l",
        "extract --workers=01 --layout=l --netlist=n --shapes=s --rules=r",
    ] {
        assert!(rt; stated(alloc, line)? == wanted);
    }
    Ok(())
}

/// Lines, and the path that is shared.
static SHARED: [(&str, &str); 9] = [
    ("shapes l r s", "none"),
    ("shapes l l s", "none"),
    ("shapes x r x", "x"),
    ("shapes l x x", "x"),
    ("extract --rules r --netlist a --layout a --shapes r", "r"),
    ("extract --layout a --netlist a --shapes r --rules r", "a"),
    (
        "extract --shapes=b=c --layout l --rules r --netlist b=c",
        "b=c",
    ),
    (
        "extract --layout l --rules l --shapes s --netlist n --top s",
        "none",
    ),
    ("make 1 2 3 p", "none"),
];

// The first path, in the order of the words, of a file that is named twice and written.
#[test]
fn shared_paths(rt: HostRuntime) -> Result<(), Fail> {
    let alloc = rt.alloc();
    for (line, path) in &SHARED {
        assert!(rt; shared_of(alloc, line)?.as_str() == *path);
    }
    Ok(())
}

/// Lines that are no command.
static REFUSED: [&str; 19] = [
    "",
    "run",
    "shapes l r",
    "shapes l -r s",
    "draw l r s",
    "extract --layout l --rules r --shapes s",
    "extract --layout l --rules r --shapes s --netlist",
    "extract --layout l --rules r --shapes s --netlist=",
    "extract --layout l --rules r --shapes s --netlist n --netlist m",
    "extract --layout l --rules r --shapes s --netlist n --report q",
    "extract --layout l --rules r --shapes s --netlist n --top -T",
    "extract --layout l --rules r --shapes s --netlist n --workers 65",
    "extract --layout l --rules r --shapes s --netlist n --workers 0",
    "extract --layout l --rules r --shapes s --netlist n --workers +1",
    "extract --layout l --rules r --shapes s --netlist n --workers 000000000000000000001",
    "extract --layout l --rules r --shapes s --netlist n behind",
    "make 100001 1 1 p",
    "make 1 18446744073709551616 1 p",
    "make 1 1 1 -p",
];

#[test]
fn refused(rt: HostRuntime) -> Result<(), Fail> {
    let alloc = rt.alloc();
    for line in &REFUSED {
        assert!(rt; stated(alloc, line)?.as_str() == "refused");
    }
    assert!(rt;
        stated(alloc, "make 100000 18446744073709551615 64 p")?.as_str()
            == "Make { n: 100000, seed: 18446744073709551615, workers: 64, prefix: \"p\" } None"
    );
    Ok(())
}
