//! The edges of the limits of rule files.

use crate::rule_shown::all_answer;
use rule_text::read_rules;
use std::alloc::{AllocError, Global};
use std::test::Fail;

// A file without a line; a name of 64 bytes is one, a name of 65 is none.
static LONG: [(&str, &str); 3] = [
    ("", "guesses 1000\n"),
    (
        "a234567890123456789012345678901234567890123456789012345678901234 = polygon_layer",
        "a234567890123456789012345678901234567890123456789012345678901234 empty\nguesses 1000\n",
    ),
    (
        "_a234567890123456789012345678901234567890123456789012345678901234 = polygon_layer",
        "31 1",
    ),
];

#[test]
fn name_lengths(rt: HostRuntime) -> Result<(), Fail> {
    all_answer(&rt, rt.alloc(), "", &LONG)?;
    Ok(())
}

fn many_names(alloc: Global, count: u32) -> Result<String, AllocError> {
    let mut text = String::new(alloc);
    for k in 0..count {
        text.push_str(&format!(in alloc; "n{k} = polygon_layer\n")?)?;
    }
    Ok(text)
}

/// Lines behind the most names, and their faults.
static BEHIND_NAMES: [(&str, &str); 4] = [
    ("n256 = polygon_layer", "35 257"),
    ("n256 = n0 & n256", "32 257"),
    ("n255 = n0 & n1", "33 257"),
    ("connect_global(n256, 'G')", "32 257"),
];

#[test]
fn name_count(rt: HostRuntime) -> Result<(), Fail> {
    let text = many_names(rt.alloc(), 256)?;
    assert!(rt; read_rules(rt.alloc(), text.as_bytes()).is_ok());
    all_answer(&rt, rt.alloc(), &text, &BEHIND_NAMES)?;
    Ok(())
}

fn push_links(alloc: Global, text: &mut String, number: u32) -> Result<(), AllocError> {
    let lines = format!(in alloc; "connect(n0, n249)\nn249.output({number}, 0)\n")?;
    text.push_str(&lines)
}

// How many names, connections and outputs there are.
fn counts(alloc: Global, text: &str) -> Option<[usize; 3]> {
    let rules = read_rules(alloc, text.as_bytes()).ok()?;
    Some([rules.names.len(), rules.connects.len(), rules.outputs.len()])
}

// 250 names and 100,000 further lines, half of which may stand once alone.
#[test]
fn many_lines(rt: HostRuntime) -> Result<(), Fail> {
    let alloc = rt.alloc();
    let mut text = many_names(alloc, 250)?;
    for number in 0..50000u32 {
        push_links(alloc, &mut text, number)?;
    }
    assert!(rt; counts(alloc, &text) == Some([250, 50000, 50000]));
    Ok(())
}
