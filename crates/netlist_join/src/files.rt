//! The files that netlist files name, read whole.

ghost use Rattle.std.specs.Prelude.{◌≡◌, ◌≤◌, ◌++◌, ◌∷◌, [], false, length, IfErr, IfOk};
ghost use Rattle.std.specs.Prelude.{OnOk, map, string_bytes, take, true};
ghost use Rattle.std.specs.List.{list_any};
ghost use Rattle.std.specs.Option.{option_map};
ghost use Rattle.std.specs.Str.{bytes_eq};
ghost use Rattle.rule_lines.specs.Lines.{begins};
ghost use Rattle.netlist_join.specs.Failing.{NotRead, OnlyReads, SaysFailed, ShowsFaults};
ghost use Rattle.netlist_join.specs.Named.{AreAsked, named, named_by};
ghost use Rattle.netlist_join.specs.Paths.{beside, find, folder, folder_len, text_of};
ghost use Rattle.netlist_join.specs.Loaded.{AreFiles, IsMore, StartsWith, has_path, has_twins};
ghost use Rattle.netlist_join.specs.Loaded.{paths_of, with_path, with_paths};
ghost use Rattle.netlist_join.specs.Directives.{directive};
ghost use Rattle.lvs_outside.specs.Loops.{IsFile};
ghost use Rattle.lvs_outside.specs.Store.{HasRoom, IsThere, Reading};
ghost use Rattle.netlist_join.specs.declared.files.Failed.TheVariants.{NoMemory};

use crate::directive::{Directive, directive_of};
use lvs_outside::{Depot, ReadFault, read_rest};
use rule_lines::next_line;
use std::alloc::{AllocError, Global};

/// A file and its bytes.
#[derive(Drop)]
pub struct File {
    pub path: String,
    pub bytes: Vec<u8>,
}

/// Why files weren't read: a call failed, one isn't there or is too long, they are too many, or no
/// memory is left.
#[derive(Drop)]
pub enum Failed {
    Outside,
    Absent(String),
    TooLong(String),
    TooMany,
    NoMemory,
}

impl From<AllocError> for Failed {
    ghost from_gives = { λ _ e. e ≡ NoMemory };

    fn from(_: AllocError) -> Failed {
        Failed::NoMemory
    }
}

/// The most files.
pub const MOST: usize = 10_000;

// The length of a path up to its last `/`.
fn folder_len(path: &[u8]) -> usize
    ensures place { result ≡ folder_len 0 0 path.now }
    ensures within { result ≤ length path.now }
{
    let mut n = 0;
    let mut k: usize = 0;
    let mut rest = path;
    'bytes: while let [b, more @ ..] = rest {
        k += 1;
        if *b == b'/' {
            n = k;
        }
        rest = more;
    }
    n
}

fn is_absolute(path: &[u8]) -> bool
    ensures { result ≡ begins 0x2F path.now }
{
    match path {
        [b, ..] => *b == b'/',
        [] => false,
    }
}

// The path that a line of a file names: beside that file, where it isn't absolute.
fn beside(alloc: Global, file: &[u8], path: &[u8]) -> Result<Vec<u8>, AllocError>
    ensures { IfOk result (λ p. p.items ≡ beside file.now path.now) }
{
    let mut bytes = Vec::new(alloc);
    if !is_absolute(path) {
        let n = folder_len(file);
        bytes.extend_from_slice(&file[..n])?;
    }
    bytes.extend_from_slice(path)?;
    Ok(bytes)
}

/// The number of the file of this path.
pub fn find(files: &[File], path: &[u8]) -> Option<usize>
    ensures { result ≡ find path.now files.now }
{
    files.iter().position(|f| f.path.as_bytes() == path)
}

// The rest of the open file.
#[tactic(auto, using(crate::proofs::LoadedLemmas::whole, crate::proofs::LoadedLemmas::long_read, crate::proofs::LoadedLemmas::reads_rest))]
fn read_open<D: Depot>(alloc: Global, depot: &mut D, path: &str) -> Result<Vec<u8>, Failed>
    requires room { HasRoom (D.state depot.old) }
    requires open { (D.state depot.old).opened ≡ Reading path.now 0 }
    requires there { IsThere ((D.state depot.old).file path.now) }
    ensures room { OnOk result (HasRoom (D.state depot.new)) }
    ensures reads { OnlyReads (D.state depot.old) (D.state depot.new) }
    ensures absent { OnOk result ((D.state depot.new).absent ≡ (D.state depot.old).absent) }
    ensures faults { ShowsFaults (D.state depot.old) (D.state depot.new) result }
    ensures told { IfOk result (λ b. IsFile b.items ((D.state depot.old).file path.now)) }
    ensures failed { IfErr result (NotRead (λ p. p ≡ path.now) (D.state depot.old)
        (D.state depot.new)) }
{
    let mut bytes = Vec::new(alloc);
    match read_rest(depot, &mut bytes) {
        Ok(()) => Ok(bytes),
        Err(ReadFault::Failed) => Err(Failed::Outside),
        Err(ReadFault::TooLong) => {
            let path = String::from_str(alloc, path)?;
            Err(Failed::TooLong(path))
        }
        Err(ReadFault::NoMemory) => Err(Failed::NoMemory),
    }
}

// The path's file.
fn read_file<D: Depot>(alloc: Global, depot: &mut D, path: &str) -> Result<Vec<u8>, Failed>
    requires { HasRoom (D.state depot.old) }
    ensures room { OnOk result (HasRoom (D.state depot.new)) }
    ensures reads { OnlyReads (D.state depot.old) (D.state depot.new) }
    ensures absent { OnOk result ((D.state depot.new).absent ≡ (D.state depot.old).absent) }
    ensures faults { ShowsFaults (D.state depot.old) (D.state depot.new) result }
    ensures told { IfOk result (λ b. IsFile b.items ((D.state depot.old).file path.now)) }
    ensures failed { IfErr result (NotRead (λ p. p ≡ path.now) (D.state depot.old)
        (D.state depot.new)) }
{
    match depot.open_read(path) {
        Ok(true) => read_open(alloc, depot, path),
        Ok(false) => {
            let path = String::from_str(alloc, path)?;
            Err(Failed::Absent(path))
        }
        Err(_) => Err(Failed::Outside),
    }
}

// A file of this path is there.
fn has_path(files: &[File], path: &[u8]) -> bool
    ensures { result ≡ list_any (λ f. bytes_eq (string_bytes f.path) path.now) files.now }
{
    files.iter().any(|f| f.path.as_bytes() == path)
}

// Keeps a file.
fn keep(files: &mut Vec<File>, path: String, bytes: Vec<u8>) -> Result<(), Failed>
    ensures kept { OnOk result (files.new.items
        ≡ files.old.items ++ record { path = path; bytes = bytes } ∷ []) }
    ensures failed { IfErr result (λ e. e ≡ NoMemory) }
{
    if files.push(File { path, bytes }).is_err() {
        return Err(Failed::NoMemory);
    }
    Ok(())
}

// Reads the file of this path, where it wasn't read before.
#[tactic(auto, using(crate::proofs::LoadedLemmas::added, crate::proofs::LoadedLemmas::added_path, crate::proofs::LoadedLemmas::faults_from, crate::proofs::LoadedLemmas::found_path, crate::proofs::LoadedLemmas::more_none, crate::proofs::LoadedLemmas::more_one))]
fn add<D: Depot>(
    alloc: Global,
    depot: &mut D,
    files: &mut Vec<File>,
    path: &str,
) -> Result<(), Failed>
    requires room { HasRoom (D.state depot.old) }
    requires told { AreFiles (D.state depot.old).file files.old.items }
    ensures room { OnOk result (HasRoom (D.state depot.new)) }
    ensures reads { OnlyReads (D.state depot.old) (D.state depot.new) }
    ensures absent { OnOk result ((D.state depot.new).absent ≡ (D.state depot.old).absent) }
    ensures faults { ShowsFaults (D.state depot.old) (D.state depot.new) result }
    ensures told { OnOk result (AreFiles (D.state depot.new).file files.new.items) }
    ensures more { OnOk result (IsMore (λ p. p ≡ path.now) files.old.items files.new.items) }
    ensures paths { OnOk result (paths_of files.new.items
        ≡ with_path (paths_of files.old.items) path.now) }
    ensures failed { IfErr result (NotRead (λ p. p ≡ path.now) (D.state depot.old)
        (D.state depot.new)) }
{
    if has_path(files, path.as_bytes()) {
        return Ok(());
    }
    let bytes = read_file(alloc, depot, path)?;
    let path = String::from_str(alloc, path)?;
    keep(files, path, bytes)?;
    Ok(())
}

/// The path that a line of a file names; none where its bytes are no text.
#[tactic(auto, using(crate::proofs::NamedLemmas::text_is, crate::proofs::NamedLemmas::no_text))]
pub fn path_beside(alloc: Global, file: &File, path: &[u8]) -> Result<Option<String>, AllocError>
    ensures { IfOk result (λ p. option_map string_bytes p
        ≡ text_of (beside (string_bytes file.now.path) path.now)) }
{
    let bytes = beside(alloc, file.path.as_bytes(), path)?;
    match String::from_utf8(bytes) {
        Ok(path) => Ok(Some(path)),
        Err(_) => Ok(None),
    }
}

// The path that a line of a file names.
fn named_by(alloc: Global, file: &File, line: &[u8]) -> Result<Option<String>, AllocError>
    ensures { IfOk result (λ p. option_map string_bytes p
        ≡ named_by (string_bytes file.now.path) (directive line.now)) }
{
    match directive_of(line) {
        Directive::Include(path) => path_beside(alloc, file, path),
        Directive::Section(path, _) => path_beside(alloc, file, path),
        _ => Ok(None),
    }
}

// The paths that the lines of a file name.
fn named(alloc: Global, file: &File) -> Result<Vec<String>, AllocError>
    ensures { IfOk result (λ ps. map string_bytes ps.items ≡ named file.now) }
{
    let mut paths = Vec::new(alloc);
    let mut rest = file.bytes.as_slice();
    'lines: while !rest.is_empty() {
        let (line, behind) = next_line(rest);
        if let Some(path) = named_by(alloc, file, line)? {
            paths.push(path)?;
        }
        rest = behind;
    }
    Ok(paths)
}

// Reads the files of these paths, each once.
#[tactic(auto, using(crate::proofs::LoadedLemmas::faults_from, crate::proofs::LoadedLemmas::reads_on, crate::proofs::LoadedLemmas::reads_none))]
fn add_all<D: Depot>(
    alloc: Global,
    depot: &mut D,
    files: &mut Vec<File>,
    paths: &[String],
) -> Result<(), Failed>
    requires room { HasRoom (D.state depot.old) }
    requires told { AreFiles (D.state depot.old).file files.old.items }
    ensures room { OnOk result (HasRoom (D.state depot.new)) }
    ensures reads { OnlyReads (D.state depot.old) (D.state depot.new) }
    ensures absent { OnOk result ((D.state depot.new).absent ≡ (D.state depot.old).absent) }
    ensures faults { ShowsFaults (D.state depot.old) (D.state depot.new) result }
    ensures told { OnOk result (AreFiles (D.state depot.new).file files.new.items) }
    ensures more { OnOk result (IsMore (λ p. has_path (map string_bytes paths.now) p ≡ true)
        files.old.items files.new.items) }
    ensures paths { OnOk result (paths_of files.new.items
        ≡ with_paths (paths_of files.old.items) (map string_bytes paths.now)) }
    ensures failed { IfErr result (NotRead (λ p. has_path (map string_bytes paths.now) p ≡ true)
        (D.state depot.old) (D.state depot.new)) }
{
    let mut rest = paths;
    'paths: while let [path, more @ ..] = rest {
        add(alloc, depot, files, path.as_str())?;
        rest = more;
    }
    Ok(())
}

/// These files and all that they name, at once or through others, each once: the inputs first.
/// Linear in the bytes, but for looking up each named path among the files. No file changes. The
/// errors: the store has no file of a path, or a longer one than `LIMIT`; a call on the store
/// failed; more than `MOST` files; no memory.
#[tactic(auto, using(crate::proofs::LoadedLemmas::apart, crate::proofs::LoadedLemmas::go_back, crate::proofs::LoadedLemmas::reads_on, crate::proofs::LoadedLemmas::faults_from))]
pub fn load_files<D: Depot>(
    alloc: Global,
    depot: &mut D,
    inputs: &[String],
) -> Result<Vec<File>, Failed>
    requires { HasRoom (D.state depot.old) }
    ensures room { OnOk result (HasRoom (D.state depot.new)) }
    ensures reads { OnlyReads (D.state depot.old) (D.state depot.new) }
    ensures absent { OnOk result ((D.state depot.new).absent ≡ (D.state depot.old).absent) }
    ensures faults { ShowsFaults (D.state depot.old) (D.state depot.new) result }
    ensures told { IfOk result (λ f. AreFiles (D.state depot.old).file f.items) }
    ensures inputs { IfOk result (λ f. has_twins (map string_bytes inputs.now) ≡ false
        → StartsWith (paths_of f.items) (map string_bytes inputs.now)) }
    ensures asked { IfOk result (λ f. AreAsked (map string_bytes inputs.now) f.items) }
    ensures failed { IfErr result (SaysFailed (map string_bytes inputs.now) (D.state depot.old)
        (D.state depot.new)) }
{
    let mut files = Vec::new(alloc);
    add_all(alloc, depot, &mut files, inputs)?;
    for k in 0..MOST + 1 {
        if k >= files.len() {
            return Ok(files);
        }
        let paths = named(alloc, &files[k])?;
        add_all(alloc, depot, &mut files, &paths)?;
    }
    Err(Failed::TooMany)
}
