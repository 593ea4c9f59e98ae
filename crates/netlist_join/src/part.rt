//! Which lines of a file are taken: those of one section, or those outside all sections.

ghost use Rattle.std.specs.Prelude.{◌≡◌, IfOk, OnOk, None};
ghost use Rattle.std.specs.Option.{option_copied};
ghost use Rattle.std.specs.Str.{bytes_eq};
ghost use Rattle.net_names.specs.Folding.{folded_bytes};
ghost use Rattle.netlist_join.specs.Parts.{behind, is_asked, takes, taking_of};
ghost use Rattle.netlist_join.specs.Seen.{says, taking_seen};

use crate::directive::Directive;
use netlist_turn::folded;
use std::alloc::{AllocError, Global};

/// The part of a file that is taken, and whether its lines are taken now.
#[derive(Clone, Copy)]
pub struct Part<'a> {
    pub section: Option<&'a [u8]>,
    pub is_taken: bool,
    pub is_met: bool,
}

fn is_same(alloc: Global, a: &[u8], b: &[u8]) -> Result<bool, AllocError>
    ensures { IfOk result (λ same. same ≡ bytes_eq (folded_bytes a.now) (folded_bytes b.now)) }
{
    let left = folded(alloc, a)?;
    let right = folded(alloc, b)?;
    Ok(left.as_slice() == right.as_slice())
}

// Whether a section of this name is asked for.
fn is_asked(alloc: Global, section: Option<&[u8]>, name: &[u8]) -> Result<bool, AllocError>
    ensures { IfOk result (λ b. b ≡ is_asked (option_copied section.entry) name.now) }
{
    match section {
        None => Ok(false),
        Some(section) => is_same(alloc, section, name),
    }
}

impl<'a> Part<'a> {
    /// The part before the file's first line.
    pub fn new(section: Option<&'a [u8]>) -> Part<'a>
        ensures { taking_seen result ≡ taking_of (option_copied section.entry) }
    {
        Part {
            section,
            is_taken: section.is_none(),
            is_met: section.is_none(),
        }
    }

    /// Whether the line of this directive is taken; the lines of `.LIB section` and `.ENDL` that
    /// bound the part are.
    pub fn takes(&mut self, alloc: Global, directive: &Directive) -> Result<bool, AllocError>
        ensures taken { IfOk result (λ b. b ≡ takes (taking_seen self.old) (says directive.now)) }
        ensures behind { OnOk result (taking_seen self.new
            ≡ behind (taking_seen self.old) (says directive.now)) }
    {
        let was = self.is_taken;
        match directive {
            Directive::Begins(name) => {
                let asked = is_asked(alloc, self.section, name)?;
                self.is_taken = asked;
                self.is_met = self.is_met || asked;
                Ok(was || asked)
            }
            Directive::Ends => {
                self.is_taken = self.section.is_none();
                Ok(was || self.is_taken)
            }
            _ => Ok(was),
        }
    }
}
