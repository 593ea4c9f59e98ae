//! One text of the lines of files, with those of the files that they name in their places.

ghost use Rattle.std.specs.Prelude.{◌≡◌, ◌≤◌, IfOk, IfErr, OnOk, Ok, Err, Some, None, slice_get};
ghost use Rattle.std.specs.Prelude.{[], length, if◌then◌else◌};
ghost use Rattle.std.specs.Option.{option_copied};
ghost use Rattle.netlist_join.specs.Joining.{call_in, call_of, ended, file_joined, has_card};
ghost use Rattle.netlist_join.specs.Joining.{ends_file, joined, pushed, said, shown};
ghost use Rattle.netlist_join.specs.Joining.{why_of};
ghost use Rattle.netlist_join.specs.Directives.{without_blanks};
ghost use Rattle.netlist_join.specs.JoinLaw.{AllThereLaw};
ghost use Rattle.netlist_join.specs.Paths.{beside, find, text_of};
ghost use Rattle.rule_lines.specs.Lines.{begins, lines_of};
ghost use Rattle.netlist_join.specs.Seen.{SaysFault, call_seen, call_some, says, seen};
ghost use Rattle.netlist_join.specs.declared.join.JoinFault.TheVariants.{NoMemory};

use crate::directive::{Directive, directive_of, skip_blanks};
use crate::files::{File, find, path_beside};
use crate::part::Part;
use netlist_lines::{Cleaned, LineFault, clean_line};
use rule_lines::next_line;
use std::alloc::{AllocError, Global};

/// Where a line came from: the number of its file, and its own, from 1.
#[derive(Clone, Copy)]
pub struct Origin {
    pub file: usize,
    pub line: u64,
}

/// Why a line can't be joined: the file that it names isn't there; files are taken in too deep, or
/// in a cycle; a file hasn't the section; the line has another form; quotes or braces don't end, or
/// two words stand in them; or a `+` begins a file, or stands right behind one that was taken in.
#[derive(Clone, Copy)]
pub enum Why {
    Absent,
    Deep,
    NoSection,
    BadForm,
    OpenQuotes,
    SplitText,
    EarlyMore,
}

fn why_of(fault: LineFault) -> Why
    ensures { result ≡ why_of fault }
{
    match fault {
        LineFault::Open => Why::OpenQuotes,
        LineFault::Split => Why::SplitText,
    }
}

/// The first line that can't be joined.
#[derive(Drop)]
pub enum JoinFault {
    At(Why, Origin),
    NoMemory,
}

impl From<AllocError> for JoinFault {
    ghost from_gives = { λ _ e. e ≡ NoMemory };

    fn from(_: AllocError) -> JoinFault {
        JoinFault::NoMemory
    }
}

/// A text, and where each of its lines came from.
#[derive(Drop)]
pub struct Joined {
    pub text: Vec<u8>,
    pub origins: Vec<Origin>,
    /// How many comments at the ends of lines were left out, up to 2^64 - 1.
    pub comments: u64,
    has_title: bool,
    is_fresh: bool,
}

// How deep files may take in others.
const DEPTH: u32 = 32;

// A file that a line takes in: its number, and the section, where one is named.
#[derive(Clone, Copy)]
struct Call<'a> {
    file: usize,
    section: Option<&'a [u8]>,
}

// The file of the path that a line names.
fn called<'a>(
    alloc: Global,
    files: &[File],
    path: &[u8],
    section: Option<&'a [u8]>,
    at: Origin,
) -> Result<Option<Call<'a>>, JoinFault>
    ensures call { IfOk result (λ c. call_in files.now (slice_get files.now at.file) path.now
        (option_copied section.entry) at ≡ Ok (call_some c)) }
    ensures fault { IfErr result (λ e. SaysFault e (call_in files.now
        (slice_get files.now at.file) path.now (option_copied section.entry) at)) }
{
    let Some(file) = files.get(at.file) else {
        return Err(JoinFault::At(Why::Absent, at));
    };
    let Some(path) = path_beside(alloc, file, path)? else {
        return Err(JoinFault::At(Why::BadForm, at));
    };
    match find(files, path.as_bytes()) {
        Some(file) => Ok(Some(Call { file, section })),
        None => Err(JoinFault::At(Why::Absent, at)),
    }
}

// The file that a line takes in.
fn call_of<'a>(
    alloc: Global,
    files: &[File],
    directive: Directive<'a>,
    at: Origin,
) -> Result<Option<Call<'a>>, JoinFault>
    ensures call { IfOk result (λ c. call_of files.now (says directive.entry) at ≡ Ok (call_some c)) }
    ensures fault { IfErr result (λ e. SaysFault e (call_of files.now (says directive.entry) at)) }
{
    match directive {
        Directive::Include(path) => called(alloc, files, path, None, at),
        Directive::Section(path, name) => called(alloc, files, path, Some(name), at),
        Directive::Bad => Err(JoinFault::At(Why::BadForm, at)),
        Directive::Begins(_) => Ok(None),
        Directive::Ends => Ok(None),
        Directive::EndsFile => Ok(None),
        Directive::None => Ok(None),
    }
}

fn begins_more(line: &[u8]) -> bool
    ensures { result ≡ begins 0x2B (without_blanks line.now) }
{
    match skip_blanks(line) {
        [] => false,
        [b, ..] => *b == b'+',
    }
}

// A card, or a line that goes on with one, stands there.
fn has_card(line: &[u8]) -> bool
    ensures { result ≡ has_card (without_blanks line.now) }
{
    match skip_blanks(line) {
        [] => false,
        [b, ..] => *b != b'*',
    }
}

impl Joined {
    // Ends a line.
    fn end_line(&mut self, at: Origin) -> Result<(), AllocError>
        ensures { OnOk result (seen self.new ≡ ended (seen self.old) at) }
    {
        self.text.push(b'\n')?;
        self.origins.push(at)?;
        Ok(())
    }

    // Adds a line, cleaned.
    fn show_line(&mut self, line: &[u8], at: Origin) -> Result<(), JoinFault>
        ensures made { OnOk result (shown (seen self.old) line.now at ≡ Ok (seen self.new)) }
        ensures fault { IfErr result (λ e. SaysFault e (shown (seen self.old) line.now at)) }
    {
        if self.is_fresh && begins_more(line) {
            return Err(JoinFault::At(Why::EarlyMore, at));
        }
        if has_card(line) {
            self.is_fresh = false;
        }
        match clean_line(&mut self.text, line)? {
            Cleaned::Refused(fault) => return Err(JoinFault::At(why_of(fault), at)),
            Cleaned::Cut => self.comments = self.comments.saturating_add(1),
            Cleaned::Whole => {}
        }
        self.end_line(at)?;
        Ok(())
    }

    // Adds a line, cleaned. A title is left out.
    fn push_line(&mut self, line: &[u8], at: Origin) -> Result<(), JoinFault>
        ensures made { OnOk result (pushed (seen self.old) line.now at ≡ Ok (seen self.new)) }
        ensures fault { IfErr result (λ e. SaysFault e (pushed (seen self.old) line.now at)) }
    {
        if !self.has_title {
            return self.show_line(line, at);
        }
        self.has_title = false;
        self.end_line(at)?;
        Ok(())
    }

    // What a line says of files: nothing where it is a title.
    fn said<'a>(&self, line: &'a [u8]) -> Directive<'a>
        ensures { says result ≡ said (seen self.now) line.now }
    {
        if self.has_title {
            return Directive::None;
        }
        directive_of(line)
    }
}

// What is read behind a line: nothing of its file behind `.END`.
fn lines_behind<'a>(directive: Directive, behind: &'a [u8]) -> &'a [u8]
    ensures lines { lines_of result.now ≡ (if ends_file (says directive.entry) then []
        else lines_of behind.now) }
    ensures less { length result.now ≤ length behind.now }
{
    match directive {
        Directive::EndsFile => b"",
        _ => behind,
    }
}

// Adds the lines of a file, or of a section of it, that a line takes in.
#[tactic(auto, using(crate::proofs::Steps::file_step, crate::proofs::Steps::lines_rest))]
fn join_file(
    alloc: Global,
    files: &[File],
    joined: &mut Joined,
    call: Call,
    depth: u32,
    by: Origin,
) -> Result<(), JoinFault>
    ensures made { OnOk result (file_joined depth files.now (call_seen call.entry) by (seen joined.old)
        ≡ Ok (seen joined.new)) }
    ensures fault { IfErr result (λ e. SaysFault e (file_joined depth files.now (call_seen call.entry) by
        (seen joined.old))) }
{
    if depth == 0 {
        return Err(JoinFault::At(Why::Deep, by));
    }
    let Some(file) = files.get(call.file) else {
        return Err(JoinFault::At(Why::Absent, by));
    };
    let mut part = Part::new(call.section);
    let mut at = Origin {
        file: call.file,
        line: 0,
    };
    joined.is_fresh = true;
    let mut rest = file.bytes.as_slice();
    'lines: while !rest.is_empty() {
        let (line, behind) = next_line(rest);
        at.line = at.line.saturating_add(1);
        let directive = joined.said(line);
        if part.takes(alloc, &directive)? {
            joined.push_line(line, at)?;
            if let Some(inner) = call_of(alloc, files, directive, at)? {
                join_file(alloc, files, joined, inner, depth - 1, at)?;
                joined.is_fresh = true;
            }
        }
        rest = lines_behind(directive, behind);
    }
    if !part.is_met {
        return Err(JoinFault::At(Why::NoSection, by));
    }
    Ok(())
}

/// The lines of the first files, `count` of them, one after another; where there is a title, it is
/// the first line of all. Linear in what is joined, but for looking up each named path among the
/// files.
#[tactic(auto, using(crate::proofs::Steps::all_step))]
pub fn join_files(
    alloc: Global,
    files: &[File],
    count: usize,
    has_title: bool,
) -> Result<Joined, JoinFault>
    ensures made { IfOk result (λ j. joined files.now count has_title ≡ Ok (seen j)) }
    ensures fault { IfErr result (λ e. SaysFault e (joined files.now count has_title)) }
{
    let mut joined = Joined {
        text: Vec::new(alloc),
        origins: Vec::new(alloc),
        comments: 0,
        has_title,
        is_fresh: true,
    };
    let mut file = 0;
    'files: while file < count {
        let call = Call {
            file,
            section: None,
        };
        let by = Origin { file, line: 0 };
        join_file(alloc, files, &mut joined, call, DEPTH, by)?;
        file += 1;
    }
    Ok(joined)
}

/// Where all that the inputs ask for was loaded, no line is refused for a file that isn't there.
pub fn joined_laws()
    ensures { AllThereLaw }
{}
