//! The text that is made of cards, card by card, and what is told of each change.

ghost use Rattle.std.specs.Prelude.{◌≡◌, OnOk};

use crate::rows::{Row, is_kept_key, left_out};
use crate::scale::{Factor, push_size, scaled};
use crate::settings::{Settings, factor_at, meant, value_for};
use crate::words::{has_escape, unquoted};
use spice_cards::Param;
use std::alloc::{AllocError, Global};

/// What a change is.
#[derive(Clone, Copy)]
pub enum Kind {
    /// A card is left out.
    Card,
    /// A parameter is left out.
    Parameter,
    /// The `/` before a circuit's name is left out.
    Slash,
    /// The word `PARAMS:` is left out.
    Params,
    /// The value of a `.PARAM` stands for its name.
    Value,
    /// The quotes or braces round a value are left out.
    Quotes,
    /// A backslash stands for itself in the word.
    Name,
    /// A size is turned by the scale.
    Size,
    /// A card of a listed name is a device.
    Device,
    /// A number behind a card's nets or words is left out.
    Number,
    /// What `$` marks stands where it does on other cards.
    Marked,
    /// A call that names pins is one by place.
    Pins,
}

/// A change: the line of its card, what it is, and the word that stood there.
#[derive(Clone, Copy)]
pub struct Told<'a> {
    pub line: u64,
    pub kind: Kind,
    pub word: &'a [u8],
}

/// Where a card stands: outside all circuits, in one that is kept, or in one that is left out.
#[derive(Clone, Copy)]
pub enum Where {
    Outside,
    Kept,
    Left,
}

/// How a card begins: its line, what its first word makes of it, and that word.
#[derive(Clone, Copy)]
pub struct Head<'a> {
    pub line: u64,
    pub row: Row,
    pub first: &'a [u8],
}

/// What was made of cards: the text, the line of the card that each of its lines was, the changes
/// in their order, and where the next card stands.
#[derive(Drop)]
pub struct Turned<'a> {
    pub text: Vec<u8>,
    pub lines: Vec<u64>,
    pub told: Vec<Told<'a>>,
    pub at: Where,
}

impl<'a> Turned<'a> {
    ghost use Rattle.std.specs.Prelude.{◌≡◌, ◌∷◌, [], OnOk};
    ghost use Rattle.std.specs.Option.{option_copied};
    ghost use Rattle.netlist_turn.specs.Words.{unquoted};
    ghost use Rattle.spice_cards.specs.Seen.{params_seen, param_seen, words_seen};
    ghost use Rattle.netlist_turn.specs.Made.{card_made, line_made, param_made, params_made};
    ghost use Rattle.netlist_turn.specs.Made.{by_factor, naming, size_made, telling, unquoting};
    ghost use Rattle.netlist_turn.specs.Made.{value_made, word_made, word_or, words_made, writing};
    ghost use Rattle.netlist_turn.specs.Scale.{scaled, size_text};
    ghost use Rattle.netlist_turn.specs.Seen.{seen};
    ghost use Rattle.netlist_turn.specs.Turning.{nothing};

    /// Nothing.
    pub fn new(alloc: Global) -> Turned<'a>
        ensures { seen result ≡ nothing }
    {
        Turned {
            text: Vec::new(alloc),
            lines: Vec::new(alloc),
            told: Vec::new(alloc),
            at: Where::Outside,
        }
    }

    /// Tells a change.
    pub fn tell(&mut self, line: u64, kind: Kind, word: &'a [u8]) -> Result<(), AllocError>
        ensures { OnOk result (seen self.new ≡ telling (seen self.old) line kind word.now) }
    {
        self.told.push(Told { line, kind, word })?;
        Ok(())
    }

    /// Writes a text.
    pub fn write(&mut self, text: &[u8]) -> Result<(), AllocError>
        ensures { OnOk result (seen self.new ≡ writing (seen self.old) text.now) }
    {
        self.text.extend_from_slice(text)?;
        Ok(())
    }

    fn push_word(&mut self, line: u64, word: &'a [u8]) -> Result<(), AllocError>
        ensures { OnOk result (seen self.new ≡ word_made (seen self.old) line word.now) }
    {
        self.write(word)?;
        self.write(b" ")?;
        if has_escape(word) {
            self.tell(line, Kind::Name, word)?;
        }
        Ok(())
    }

    fn push_word_or(
        &mut self,
        line: u64,
        word: &'a [u8],
        kind: Option<Kind>,
    ) -> Result<(), AllocError>
        ensures { OnOk result (seen self.new ≡ word_or (seen self.old) line word.now kind) }
    {
        match kind {
            None => self.push_word(line, word),
            Some(kind) => self.tell(line, kind, word),
        }
    }

    fn push_words(&mut self, row: Row, line: u64, words: &[&'a [u8]]) -> Result<(), AllocError>
        ensures { OnOk result
            (seen self.new ≡ words_made row (seen self.old) line (words_seen words.now)) }
    {
        let mut rest = words;
        'words: while let [word, more @ ..] = rest {
            self.push_word_or(line, *word, left_out(row, word, more))?;
            rest = more;
        }
        Ok(())
    }

    fn unquote(&mut self, line: u64, value: &'a [u8], plain: &[u8]) -> Result<(), AllocError>
        requires { plain.now ≡ unquoted value.now }
        ensures { OnOk result (seen self.new ≡ unquoting (seen self.old) line value.now) }
    {
        if plain.len() != value.len() {
            self.tell(line, Kind::Quotes, value)?;
        }
        Ok(())
    }

    fn name(
        &mut self,
        line: u64,
        plain: &'a [u8],
        found: Option<&Vec<u8>>,
    ) -> Result<(), AllocError>
        ensures { OnOk result (seen self.new
            ≡ naming (seen self.old) line plain.now (option_copied found.entry)) }
    {
        match found {
            None => Ok(()),
            Some(_) => self.tell(line, Kind::Value, plain),
        }
    }

    fn push_size(&mut self, alloc: Global, factor: Factor, n: u128) -> Result<(), AllocError>
        ensures { OnOk result (seen self.new ≡ writing (seen self.old) (size_text factor n)) }
    {
        push_size(alloc, &mut self.text, factor, n)
    }

    fn push_by_factor(
        &mut self,
        alloc: Global,
        line: u64,
        key: &'a [u8],
        text: &[u8],
        factor: Option<Factor>,
    ) -> Result<(), AllocError>
        ensures { OnOk result
            (seen self.new ≡ by_factor (seen self.old) line key.now text.now factor) }
    {
        let Some(factor) = factor else {
            return self.write(text);
        };
        match scaled(factor, text) {
            Ok(n) => {
                self.push_size(alloc, factor, n)?;
                self.tell(line, Kind::Size, key)
            }
            Err(_) => self.write(text),
        }
    }

    fn push_value(
        &mut self,
        alloc: Global,
        settings: &Settings,
        row: Row,
        line: u64,
        param: &Param<'a>,
    ) -> Result<(), AllocError>
        ensures { OnOk result
            (seen self.new ≡ value_made settings.now row (seen self.old) line
            (param_seen param.now)) }
    {
        let plain = unquoted(param.value);
        self.unquote(line, param.value, plain)?;
        let found = value_for(alloc, settings, plain)?;
        self.name(line, plain, found)?;
        let factor = factor_at(settings, row, param.key);
        self.push_by_factor(alloc, line, param.key, meant(plain, found), factor)?;
        self.write(b" ")
    }

    fn push_param(
        &mut self,
        alloc: Global,
        settings: &Settings,
        row: Row,
        line: u64,
        param: &Param<'a>,
    ) -> Result<(), AllocError>
        ensures { OnOk result
            (seen self.new ≡ param_made settings.now row (seen self.old) line
            (param_seen param.now)) }
    {
        if !is_kept_key(settings.scale.is_some(), row, param.key) {
            return self.tell(line, Kind::Parameter, param.key);
        }
        self.write(param.key)?;
        self.write(b"=")?;
        self.push_value(alloc, settings, row, line, param)
    }

    fn push_params(
        &mut self,
        alloc: Global,
        settings: &Settings,
        row: Row,
        line: u64,
        params: &[Param<'a>],
    ) -> Result<(), AllocError>
        ensures { OnOk result (seen self.new
            ≡ params_made settings.now row (seen self.old) line (params_seen params.now)) }
    {
        let mut rest = params;
        'params: while let [param, more @ ..] = rest {
            self.push_param(alloc, settings, row, line, param)?;
            rest = more;
        }
        Ok(())
    }

    fn end_line(&mut self, line: u64) -> Result<(), AllocError>
        ensures { OnOk result (seen self.new ≡ line_made (seen self.old) line) }
    {
        self.text.push(b'\n')?;
        self.lines.push(line)?;
        Ok(())
    }

    /// Adds a card that is kept.
    pub fn push_card(
        &mut self,
        alloc: Global,
        settings: &Settings,
        head: Head<'a>,
        words: &[&'a [u8]],
        params: &[Param<'a>],
    ) -> Result<(), AllocError>
        ensures { OnOk result (seen self.new ≡ card_made settings.now head.entry.row (seen self.old)
            head.entry.line head.entry.first.now (words_seen words.now) (params_seen params.now)) }
    {
        let Head { line, row, first } = head;
        self.push_word(line, first)?;
        self.push_words(row, line, words)?;
        self.push_params(alloc, settings, row, line, params)?;
        self.end_line(line)
    }
}
