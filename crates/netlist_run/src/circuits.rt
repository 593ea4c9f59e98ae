//! The circuits that cards name, and their calls.

ghost use Rattle.std.specs.Prelude.{◌≡◌, IfOk, OnOk};
ghost use Rattle.std.specs.Option.{option_copied};
ghost use Rattle.spice_cards.specs.Parts.{words_of};
ghost use Rattle.spice_cards.specs.Seen.{tokens_seen, words_seen};
ghost use Rattle.netlist_run.specs.Circuits.{begun_at, called, calling, is_begun, named};
ghost use Rattle.netlist_run.specs.Circuits.{is_behind_name};
ghost use Rattle.netlist_run.specs.Circuits.{none, number_of, opened, with_call, with_card, with_row};
ghost use Rattle.netlist_run.specs.CircuitsSeen.{circuits_seen};

use netlist_turn::{Row, folded, is_params, is_pins_word, row_of};
use spice_cards::{Token, read_words};
use std::alloc::{AllocError, Global};
use text_table::TextTable;

/// The circuits of the cards so far; `inside` is the number of the one that they stand in.
#[derive(Drop)]
pub struct Circuits {
    pub names: TextTable,
    pub calls: Vec<Vec<usize>>,
    pub begun: Vec<bool>,
    pub inside: Option<usize>,
}

// A word that stands behind the name.
fn is_behind_name(word: &[u8]) -> bool
    ensures { result ≡ is_behind_name word.now }
{
    is_params(word) || is_pins_word(word)
}

// The name of a called circuit: the last word, but `PARAMS:` and `$PINS`.
fn called<'a>(words: &[&'a [u8]]) -> Option<&'a [u8]>
    ensures { option_copied result ≡ called (words_seen words.now) }
{
    let mut rest = words;
    'words: while let [word, more @ ..] = rest {
        match more {
            [] => return Some(*word),
            [last] => return Some(if is_behind_name(last) { *word } else { *last }),
            _ => rest = more,
        }
    }
    None
}

impl Circuits {
    /// No circuits.
    pub fn new(alloc: Global) -> Circuits
        ensures { circuits_seen result ≡ none }
    {
        Circuits {
            names: TextTable::new(alloc),
            calls: Vec::new(alloc),
            begun: Vec::new(alloc),
            inside: None,
        }
    }

    // The number of a name, which is put with the others where it is new.
    #[tactic(auto, using(crate::proofs::Rows::lists_long, crate::proofs::Rows::lists_more))]
    fn number(&mut self, alloc: Global, word: &[u8]) -> Result<usize, AllocError>
        ensures number { IfOk result (λ k. k ≡ number_of (circuits_seen self.old) word.now) }
        ensures named { OnOk result (circuits_seen self.new
            ≡ named (circuits_seen self.old) word.now) }
    {
        let name = folded(alloc, word)?;
        let k = self.names.number(alloc, &name)?;
        if k >= self.calls.len() {
            self.calls.push(Vec::new(alloc))?;
            self.begun.push(false)?;
        }
        Ok(k)
    }

    // Begins the circuit of a number.
    #[tactic(auto, using(crate::proofs::Rows::set_past))]
    fn begin_number(&mut self, k: usize)
        ensures { circuits_seen self.new ≡ begun_at (circuits_seen self.old) k }
    {
        self.inside = Some(k);
        if k < self.begun.len() {
            self.begun[k] = true;
        }
    }

    // Begins a circuit of the first word's name.
    fn begin(&mut self, alloc: Global, words: &[&[u8]]) -> Result<(), AllocError>
        ensures { OnOk result (circuits_seen self.new
            ≡ opened (circuits_seen self.old) (words_seen words.now)) }
    {
        match words {
            [] => Ok(()),
            [name, _more @ ..] => {
                let k = self.number(alloc, name)?;
                self.begin_number(k);
                Ok(())
            }
        }
    }

    // Puts a call into the row of a number.
    #[tactic(auto, using(crate::proofs::Rows::lists_at, crate::proofs::Rows::lists_long, crate::proofs::Rows::lists_set, crate::proofs::Rows::set_past))]
    fn push_call(&mut self, from: usize, to: usize) -> Result<(), AllocError>
        ensures { OnOk result (circuits_seen self.new
            ≡ with_call (circuits_seen self.old) from to) }
    {
        if from < self.calls.len() {
            self.calls[from].push(to)?;
        }
        Ok(())
    }

    // Takes a call's words.
    fn add_call(&mut self, alloc: Global, words: &[&[u8]]) -> Result<(), AllocError>
        ensures { OnOk result (circuits_seen self.new ≡ calling (circuits_seen self.old)
            (circuits_seen self.old).inside (called (words_seen words.now))) }
    {
        let Some(from) = self.inside else {
            return Ok(());
        };
        let Some(word) = called(words) else {
            return Ok(());
        };
        let to = self.number(alloc, word)?;
        self.push_call(from, to)
    }

    // Takes the words of a card that begins a circuit or calls one.
    fn take_words(&mut self, alloc: Global, row: Row, tokens: &[Token]) -> Result<(), AllocError>
        ensures { OnOk result (circuits_seen self.new
            ≡ with_row (circuits_seen self.old) row (words_of (tokens_seen tokens.now))) }
    {
        let mut words = Vec::new(alloc);
        let _rest = read_words(&mut words, tokens)?;
        match row {
            Row::Opening => self.begin(alloc, &words),
            Row::Call => self.add_call(alloc, &words),
            Row::Ending => {
                self.inside = None;
                Ok(())
            }
            _ => Ok(()),
        }
    }

    // Takes a card of this row. The words of most cards say nothing here, and aren't read.
    fn take_row(&mut self, alloc: Global, row: Row, tokens: &[Token]) -> Result<(), AllocError>
        ensures { OnOk result (circuits_seen self.new
            ≡ with_row (circuits_seen self.old) row (words_of (tokens_seen tokens.now))) }
    {
        match row {
            Row::Opening => self.take_words(alloc, row, tokens),
            Row::Call => self.take_words(alloc, row, tokens),
            Row::Ending => self.take_words(alloc, row, tokens),
            _ => Ok(()),
        }
    }

    /// Takes a card more. Linear in the card.
    pub fn take(&mut self, alloc: Global, tokens: &[Token]) -> Result<(), AllocError>
        ensures { OnOk result (circuits_seen self.new
            ≡ with_card (circuits_seen self.old) (tokens_seen tokens.now)) }
    {
        match tokens {
            [Token::Word(first), behind @ ..] => self.take_row(alloc, row_of(first), behind),
            _ => Ok(()),
        }
    }

    /// The number of a name, or how many there are, and whether a circuit of that name begins.
    #[tactic(auto, using(crate::proofs::Rows::lists_long))]
    pub fn find(&self, alloc: Global, word: &[u8]) -> Result<(usize, bool), AllocError>
        ensures number { IfOk result (λ r. r.0 ≡ number_of (circuits_seen self.now) word.now) }
        ensures begun { IfOk result (λ r. r.1 ≡ is_begun (circuits_seen self.now) word.now) }
    {
        let name = folded(alloc, word)?;
        let k = self.names.place(&name);
        let begun = self.begun.get(k).copied().unwrap_or(false);
        Ok((k, k < self.calls.len() && begun))
    }
}
