//! Whether something keeps a run from being begun though its words are whole.

use crate::telling::bytes_of;
use lvs_talk::{Hindrance, Used, has_slip, scale_line, schematic_of, used_files};
use std::alloc::Global;
use std::os::unix::fs::MetadataExt;
use std::rt::Files;
use std::{fs, io};

// Which file a path is: by the system's numbers of the file, or of the folder in which there is
// none of the name yet.
#[derive(Clone, Copy, PartialEq, Eq)]
struct Place<'a> {
    device: u64,
    number: u64,
    name: &'a str,
}

// The folder of a path, and the name in it.
fn parted(path: &str) -> (&str, &str) {
    match path.rsplit_once('/') {
        Some(("", name)) => ("/", name),
        Some((folder, name)) => (folder, name),
        None => (".", path),
    }
}

// Where a file would stand that isn't there.
fn new_place<'a, R: Files>(rt: &R, path: &'a str) -> Option<Place<'a>> {
    let (folder, name) = parted(path);
    match fs::metadata(rt, folder) {
        Ok(found) => Some(Place {
            device: found.dev(),
            number: found.ino(),
            name,
        }),
        Err(_) => None,
    }
}

// Which file a path is; none for what is no file, as a pipe or a device.
fn place_of<'a, R: Files>(rt: &R, path: &'a str) -> Option<Place<'a>> {
    match fs::metadata(rt, path) {
        Ok(found) if found.is_file() => Some(Place {
            device: found.dev(),
            number: found.ino(),
            name: "",
        }),
        Ok(_) => None,
        Err(e) if e.kind() == io::ErrorKind::NotFound => new_place(rt, path),
        Err(_) => None,
    }
}

// Whether two paths are one file.
fn are_one<R: Files>(rt: &R, one: &str, other: &str) -> bool {
    match (place_of(rt, one), place_of(rt, other)) {
        (Some(one), Some(other)) => one == other,
        _ => false,
    }
}

// The first path that is one file with a written one, though spelt otherwise. Paths that are spelt
// alike the run itself refuses.
fn shared_with<'a, R: Files>(rt: &R, used: &[Used<'a>], written: &'a str) -> Option<&'a str> {
    for other in used.iter() {
        if other.path != written && are_one(rt, other.path, written) {
            return Some(other.path);
        }
    }
    None
}

fn shared<'a, R: Files>(rt: &R, used: &[Used<'a>]) -> Option<Hindrance<'a>> {
    for file in used.iter() {
        if !file.is_written {
            continue;
        }
        if let Some(other) = shared_with(rt, used, file.path) {
            let written = file.path;
            return Some(Hindrance::Shared { written, other });
        }
    }
    None
}

// The system's name of standard output.
const OUTPUT: &str = "/dev/stdout";

// A file that is standard output, too.
fn output<'a, R: Files>(rt: &R, used: &[Used<'a>]) -> Option<Hindrance<'a>> {
    for file in used.iter() {
        if are_one(rt, file.path, OUTPUT) {
            return Some(Hindrance::Output(file.path));
        }
    }
    None
}

// A schematic whose sizes an option changes, of a command that reads them as they stand.
fn scale<'a, R: Files + AllocGlobal>(
    rt: &R,
    alloc: Global,
    words: &'a [String],
) -> Option<Hindrance<'a>> {
    let path = schematic_of(words);
    let bytes = bytes_of(rt, alloc, path);
    match scale_line(str::from_utf8(bytes.as_slice()).unwrap_or("")) {
        0 => None,
        line => Some(Hindrance::Scale { path, line }),
    }
}

/// What keeps a run of these words from being begun. Reads the schematic.
pub fn hindrance_of<'a, R: Files + AllocGlobal>(
    rt: &R,
    alloc: Global,
    words: &'a [String],
) -> Option<Hindrance<'a>> {
    if has_slip(words) {
        return None;
    }
    let Ok(used) = used_files(alloc, words) else {
        return None;
    };
    let used = used.as_slice();
    shared(rt, used)
        .or(output(rt, used))
        .or(scale(rt, alloc, words))
}
