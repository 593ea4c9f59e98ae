//! The reader of a rule file: each line's statement is tested, then kept.

ghost use Rattle.std.specs.Prelude.{◌≡◌, ◌<◌, length, IfOk, IfSome};
ghost use Rattle.rule_lines.specs.Seen.{seen_all};
ghost use Rattle.net_names.specs.Folding.{folded_bytes};
ghost use Rattle.rule_text.specs.Rules.{uses_of, is_definition, statement_of, is_unknown, goes_on};
ghost use Rattle.rule_text.specs.Seen.{words as words_seen, statement as statement_seen};
ghost use Rattle.rule_text.specs.Seen.{statements, more as more_seen};
ghost use Rattle.rule_text.specs.Filled.{IsFilled, class_of};
ghost use Rattle.rule_text.specs.Reading.{lesser, loose_of};

use crate::choices::choice_of;
use crate::devices::devices_of;
use crate::fault::RuleFault;
use crate::reach::reach_by;
use crate::rows::{
    Choice, Form, More, Mos, Statement, definition_of, flattening_of, setting_of, wiring_of,
};
use crate::rules::{LayerForm, LayerRule, MoreRule, MosRule, Output, RuleSet, SelectRule};
use crate::slots::{is_name, is_statement_word};
use crate::tables::{KeyTable, TextTable};
use geo_base::LayerKey;
use net_names::{Name, folded};
use rule_lines::{Token, next_line, read_tokens};
use std::alloc::{AllocError, Global};

/// How far a name may reach, in squares.
const MOST_REACH: u64 = 10_000;

/// The most names that a rule file may define.
const MOST_NAMES: usize = 256;

/// The layer of selections, one beyond those of streams; its datatypes are their names' numbers.
const SELECT_LAYER: u32 = 65_536;

/// The rules so far; how far each name reaches; tables of what may stand once alone (classes and
/// circuits with their letters folded); the lines of the devices.
#[derive(Drop)]
pub struct Reader {
    pub rules: RuleSet,
    pub reaches: Vec<u32>,
    pub names: TextTable,
    pub keys: KeyTable,
    pub classes: TextTable,
    pub others: TextTable,
    pub layouts: TextTable,
    pub schematics: TextTable,
    pub flat_layouts: TextTable,
    pub flat_schematics: TextTable,
    pub device_lines: Vec<u64>,
    pub more_lines: Vec<u64>,
}

fn class_of<'a>(m: &More<'a>) -> &'a [u8]
    ensures { result.now ≡ class_of (more_seen m.now) }
{
    match m {
        More::Resistor { class, .. } => class,
        More::Diode { class, .. } => class,
    }
}

impl<'a> Statement<'a> {
    fn uses(&self, alloc: Global) -> Result<Vec<&'a [u8]>, AllocError>
        ensures { IfOk result (λ found. words_seen found.items
            ≡ uses_of (statement_seen self.now)) }
    {
        match self {
            Statement::Define(_, Form::Binary(_, a, b)) => Ok(vec![in alloc; *a, *b]?),
            Statement::Define(_, Form::Sized(a, _)) => Ok(vec![in alloc; *a]?),
            Statement::Define(_, _) => Ok(Vec::new(alloc)),
            Statement::Choose(_, choice) => Ok(vec![in alloc; choice.region, choice.other]?),
            Statement::Draw(name, _) => Ok(vec![in alloc; *name]?),
            Statement::Connect(a, b) => Ok(vec![in alloc; *a, *b]?),
            Statement::Global(a, _) => Ok(vec![in alloc; *a]?),
            Statement::Extract(m) => Ok(vec![in alloc; m.sd, m.g, m.w, m.ts, m.tg, m.tb]?),
            Statement::Further(
                More::Resistor {
                    r,
                    c,
                    w,
                    ta,
                    tw,
                    ..
                },
            ) => Ok(vec![in alloc; *r, *c, *w, *ta, *tw]?),
            Statement::Further(More::Diode { p, n, ta, tc, .. }) => {
                Ok(vec![in alloc; *p, *n, *ta, *tc]?)
            }
            Statement::Same(_, _) => Ok(Vec::new(alloc)),
            Statement::FlattenLayout(_) => Ok(Vec::new(alloc)),
            Statement::FlattenSchematic(_) => Ok(Vec::new(alloc)),
            Statement::FlattenUnmatched => Ok(Vec::new(alloc)),
            Statement::SamePins => Ok(Vec::new(alloc)),
            Statement::KeepCovered => Ok(Vec::new(alloc)),
            Statement::Combine => Ok(Vec::new(alloc)),
            Statement::MaxGuesses(_) => Ok(Vec::new(alloc)),
            Statement::Accepted => Ok(Vec::new(alloc)),
        }
    }

    fn is_definition(&self) -> bool
        ensures { result ≡ is_definition (statement_seen self.now) }
    {
        matches!(self, Statement::Define(_, _) | Statement::Choose(_, _))
    }
}

fn statement_of<'a>(tokens: &[Token<'a>]) -> Option<Statement<'a>>
    ensures is { statements result ≡ statement_of (seen_all tokens.now) }
    ensures filled { IfSome result (λ s. IsFilled (statement_seen s)) }
{
    if let Some(found) = definition_of(tokens) {
        return Some(found);
    }
    if let Some(found) = wiring_of(tokens) {
        return Some(found);
    }
    if let Some(found) = devices_of(tokens) {
        return Some(found);
    }
    if let Some(found) = flattening_of(tokens) {
        return Some(found);
    }
    if let Some(found) = setting_of(tokens) {
        return Some(found);
    }
    choice_of(tokens)
}

fn goes_on(tokens: &[Token]) -> bool
    ensures { result ≡ goes_on (seen_all tokens.now) }
{
    match tokens {
        [Token::Mark(b), Token::Word(w), ..] => *b == b'='
            || *b == b'.' && *w == b"output".as_slice(),
        [Token::Mark(b), ..] => *b == b'=',
        _ => false,
    }
}

fn is_unknown(tokens: &[Token]) -> bool
    ensures { result ≡ is_unknown (seen_all tokens.now) }
{
    match tokens {
        [Token::Word(w), rest @ ..] => is_name(w) && !is_statement_word(w) && !goes_on(rest),
        _ => false,
    }
}

// The lesser of two numbers, if any.
fn lesser(one: Option<u64>, other: Option<u64>) -> Option<u64>
    ensures { result ≡ lesser one other }
{
    match (one, other) {
        (None, other) => other,
        (Some(a), None) => Some(a),
        (Some(a), Some(b)) => { if a <= b { Some(a) } else { Some(b) } }
    }
}

fn folded_copy(alloc: Global, bytes: &[u8]) -> Result<Name, AllocError>
    requires { 0 < length bytes.now }
    ensures { IfOk result (λ name. name ≡ folded_bytes bytes.now) }
{
    let name = name_of(alloc, bytes)?;
    folded(alloc, &name)
}

fn name_of(alloc: Global, bytes: &[u8]) -> Result<Name, AllocError>
    requires { 0 < length bytes.now }
    ensures { IfOk result (λ name. name ≡ bytes.now) }
{
    Ok(Name::from_vec(bytes.to_vec(alloc)?))
}

impl Reader {
    ghost use Rattle.std.specs.Prelude.{◌≡◌, ◌≤◌, ◌<◌, ◌++◌, [], ◌∷◌, Ok, Some, None, true, false};
    ghost use Rattle.std.specs.Prelude.{length, ◌&&◌, nat_le, not, map, IfOk, IfErr, IfSome, OnOk};
    ghost use Rattle.std.specs.List.{list_all, list_any};
    ghost use Rattle.rule_lines.specs.Lines.{lines_of};
    ghost use Rattle.rule_lines.specs.Tokens.{tokens_of};
    ghost use Rattle.rule_lines.specs.Seen.{seen_all};
    ghost use Rattle.net_names.specs.Folding.{folded_bytes};
    ghost use Rattle.std.specs.Str.{bytes_eq};
    ghost use Rattle.rule_text.specs.Rules.{no_rules, is_defined, place_of, is_labels};
    ghost use Rattle.geo_base.specs.Layers.{is_same_key};
    ghost use Rattle.rule_text.specs.Rules.{is_far, reach_of};
    ghost use Rattle.rule_text.specs.Reaches.{MOST_REACH, reach_by, reaches};
    ghost use Rattle.rule_text.specs.Rules.{uses_of, is_twice, is_misplaced, statement_fault};
    ghost use Rattle.rule_text.specs.Rules.{fault_of, numbered, named, drawn, extracting, paired};
    ghost use Rattle.rule_text.specs.Rules.{choosing};
    ghost use Rattle.rule_text.specs.Rules.{names_layout, names_schematic, flattening_layout};
    ghost use Rattle.rule_text.specs.Rules.{flattening_schematic};
    ghost use Rattle.rule_text.specs.Rules.{with_statement, extraction_line, further_line};
    ghost use Rattle.rule_text.specs.Rules.{further_rule, going_on, has_class, more_classes};
    ghost use Rattle.rule_text.specs.Filled.{class_of};
    ghost use Rattle.rule_text.specs.Seen.{more as more_seen, choice as choice_seen};
    ghost use Rattle.rule_text.specs.Reading.{reading, closed};
    ghost use Rattle.rule_text.specs.Seen.{words as words_seen, form as form_seen, mos as mos_seen};
    ghost use Rattle.rule_text.specs.Seen.{statement as statement_seen, rules_seen};
    ghost use Rattle.rule_text.specs.Filled.{IsFilled};
    ghost use Rattle.rule_text.specs.Sound.{IsFormed, IsSound};
    ghost use Rattle.rule_text.specs.Reader.{IsReady, Takes, TakesAll, Says, SaysFirst};

    pub fn new(alloc: Global) -> Reader
        ensures rules { rules_seen result.rules ≡ no_rules }
        ensures device_lines { result.device_lines.items ≡ [] }
        ensures more_lines { result.more_lines.items ≡ [] }
        ensures ready { IsReady result }
    {
        let rules = RuleSet {
            names: Vec::new(alloc),
            selects: Vec::new(alloc),
            outputs: Vec::new(alloc),
            connects: Vec::new(alloc),
            globals: Vec::new(alloc),
            devices: Vec::new(alloc),
            more: Vec::new(alloc),
            same: Vec::new(alloc),
            flat_layouts: Vec::new(alloc),
            flat_schematics: Vec::new(alloc),
            flattens_unmatched: false,
            tells_pins: false,
            covered: false,
            combine: false,
            max_guesses: 1000,
        };
        Reader {
            rules,
            reaches: Vec::new(alloc),
            names: TextTable::new(alloc),
            keys: KeyTable::new(alloc),
            classes: TextTable::new(alloc),
            others: TextTable::new(alloc),
            layouts: TextTable::new(alloc),
            schematics: TextTable::new(alloc),
            flat_layouts: TextTable::new(alloc),
            flat_schematics: TextTable::new(alloc),
            device_lines: Vec::new(alloc),
            more_lines: Vec::new(alloc),
        }
    }

    fn is_defined(&self, word: &[u8]) -> bool
        requires { IsReady self.now }
        ensures { result ≡ is_defined word.now (rules_seen self.now.rules) }
    {
        self.names.contains(word)
    }

    fn place(&self, word: &[u8]) -> u32
        requires { IsReady self.now }
        ensures { result ≡ place_of word.now (rules_seen self.now.rules) }
    {
        self.names.place(word) as u32
    }

    fn is_labels(&self, word: &[u8]) -> bool
        requires { IsReady self.now }
        ensures { result ≡ is_labels word.now (rules_seen self.now.rules) }
    {
        self.rules.has_texts(self.names.place(word))
    }

    fn are_defined(&self, words: &[&[u8]]) -> bool
        requires { IsReady self.now }
        ensures { result ≡ list_all (λ w. is_defined w (rules_seen self.now.rules))
            (words_seen words.now) }
    {
        match words {
            [] => true,
            [first, rest @ ..] => self.is_defined(first) && self.are_defined(rest),
        }
    }

    fn has_labels(&self, words: &[&[u8]]) -> bool
        requires { IsReady self.now }
        ensures { result ≡ list_any (λ w. is_labels w (rules_seen self.now.rules))
            (words_seen words.now) }
    {
        match words {
            [] => false,
            [first, rest @ ..] => self.is_labels(first) || self.has_labels(rest),
        }
    }

    // Whether a line names this circuit of the layout, its letters folded.
    fn names_layout(&self, name: &[u8]) -> bool
        requires { IsReady self.now }
        ensures { result ≡ names_layout (rules_seen self.now.rules) name.now }
    {
        self.layouts.contains(name) || self.flat_layouts.contains(name)
    }

    fn names_schematic(&self, name: &[u8]) -> bool
        requires { IsReady self.now }
        ensures { result ≡ names_schematic (rules_seen self.now.rules) name.now }
    {
        self.schematics.contains(name) || self.flat_schematics.contains(name)
    }

    fn has_class(&self, alloc: Global, class: &[u8]) -> Result<bool, AllocError>
        requires ready { IsReady self.now }
        requires filled { 0 < length class.now }
        ensures { IfOk result (λ b. b
            ≡ has_class (folded_bytes class.now) (rules_seen self.now.rules)) }
    {
        let class = folded_copy(alloc, class)?;
        Ok(self.classes.contains(class.bytes()) || self.others.contains(class.bytes()))
    }

    // Whether the name of a definition would reach too far.
    fn is_far(&self, s: &Statement) -> bool
        requires { IsReady self.now }
        ensures { result ≡ is_far (rules_seen self.now.rules) (statement_seen s.now) }
    {
        match s {
            Statement::Define(_, form) => {
                reach_by(&self.reaches, self.numbered(form)) > MOST_REACH
            }
            _ => false,
        }
    }

    fn is_twice(&self, alloc: Global, s: &Statement) -> Result<bool, AllocError>
        requires ready { IsReady self.now }
        requires filled { IsFilled (statement_seen s.now) }
        ensures { IfOk result (λ b. b ≡ is_twice (rules_seen self.now.rules)
            (statement_seen s.now)) }
    {
        match s {
            Statement::Define(name, _) => Ok(self.is_defined(name)),
            Statement::Choose(name, _) => Ok(self.is_defined(name)),
            Statement::Draw(_, key) => Ok(self.keys.contains(*key)),
            Statement::Extract(m) => self.has_class(alloc, m.class),
            Statement::Further(m) => self.has_class(alloc, class_of(m)),
            Statement::Same(a, b) => {
                let (a, b) = (folded_copy(alloc, a)?, folded_copy(alloc, b)?);
                Ok(self.names_layout(a.bytes()) || self.names_schematic(b.bytes()))
            }
            Statement::FlattenLayout(a) => Ok(self.names_layout(folded_copy(alloc, a)?.bytes())),
            Statement::FlattenSchematic(b) => Ok(self.names_schematic(folded_copy(
                alloc, b,
            )?.bytes())),
            Statement::FlattenUnmatched => Ok(self.rules.flattens_unmatched),
            Statement::SamePins => Ok(self.rules.tells_pins),
            Statement::KeepCovered => Ok(self.rules.covered),
            _ => Ok(false),
        }
    }

    fn is_misplaced(&self, s: &Statement, uses: &[&[u8]]) -> bool
        requires ready { IsReady self.now }
        requires uses { words_seen uses.now ≡ uses_of (statement_seen s.now) }
        ensures { result ≡ is_misplaced (rules_seen self.now.rules) (statement_seen s.now) }
    {
        match s {
            Statement::Connect(a, b) => self.is_labels(a) && self.is_labels(b),
            _ => self.has_labels(uses),
        }
    }

    // The tests of a statement, in the order in which they answer.
    fn check(&self, alloc: Global, s: &Statement, line: u64) -> Result<(), RuleFault>
        requires ready { IsReady self.now }
        requires filled { IsFilled (statement_seen s.now) }
        ensures passed { OnOk result (statement_fault (rules_seen self.now.rules) line
            (statement_seen s.now) ≡ None) }
        ensures fault { IfErr result (λ e.
            Says e (statement_fault (rules_seen self.now.rules) line (statement_seen s.now))) }
    {
        let uses = s.uses(alloc)?;
        if !self.are_defined(&uses) {
            return Err(RuleFault::UnknownName(line));
        }
        if self.is_far(s) {
            return Err(RuleFault::BadForm(line));
        }
        if self.is_twice(alloc, s)? {
            return Err(RuleFault::NameTwice(line));
        }
        if self.is_misplaced(s, &uses) {
            return Err(RuleFault::NotConductor(line));
        }
        if s.is_definition() && self.rules.names.len() >= MOST_NAMES {
            return Err(RuleFault::TooManyLayers(line));
        }
        Ok(())
    }

    fn define(&mut self, alloc: Global, name: &[u8], form: LayerForm) -> Result<(), AllocError>
        requires ready { IsReady self.old }
        requires filled { 0 < length name.now }
        requires fresh { is_defined name.now (rules_seen self.old.rules) ≡ false }
        requires room { length self.old.rules.names.items < 256 }
        requires near { reach_by (reaches self.old.rules.names.items) form ≤ MOST_REACH }
        ensures rules { OnOk result (rules_seen self.new.rules
            ≡ named (rules_seen self.old.rules) name.now form) }
        ensures device_lines { OnOk result
            (self.new.device_lines.items ≡ self.old.device_lines.items) }
        ensures more_lines { OnOk result
            (self.new.more_lines.items ≡ self.old.more_lines.items) }
        ensures ready { OnOk result (IsReady self.new) }
    {
        let reach = reach_by(&self.reaches, form) as u32;
        self.reaches.push(reach)?;
        self.names.add(alloc, name)?;
        self.rules.names.push(LayerRule {
            name: name_of(alloc, name)?,
            form,
        })?;
        Ok(())
    }

    fn choose(&mut self, alloc: Global, name: &[u8], choice: &Choice) -> Result<(), AllocError>
        requires ready { IsReady self.old }
        requires filled { 0 < length name.now }
        requires fresh { is_defined name.now (rules_seen self.old.rules) ≡ false }
        requires room { length self.old.rules.names.items < 256 }
        ensures rules { OnOk result (rules_seen self.new.rules
            ≡ choosing (rules_seen self.old.rules) name.now (choice_seen choice.now)) }
        ensures device_lines { OnOk result
            (self.new.device_lines.items ≡ self.old.device_lines.items) }
        ensures more_lines { OnOk result
            (self.new.more_lines.items ≡ self.old.more_lines.items) }
        ensures ready { OnOk result (IsReady self.new) }
    {
        let number = self.rules.names.len();
        let rule = SelectRule {
            name: number as u32,
            ask: choice.ask,
            others: choice.others,
            region: self.place(choice.region),
            other: self.place(choice.other),
        };
        let key = LayerKey {
            layer: SELECT_LAYER,
            datatype: number as u16,
        };
        self.define(alloc, name, LayerForm::Input(key))?;
        self.rules.selects.push(rule)?;
        Ok(())
    }

    fn draw(&mut self, name: &[u8], key: LayerKey) -> Result<(), AllocError>
        requires ready { IsReady self.old }
        requires fresh { list_any (is_same_key key) (map (λ o. o.key) self.old.rules.outputs.items)
            ≡ false }
        ensures rules { OnOk result (rules_seen self.new.rules
            ≡ drawn (rules_seen self.old.rules) name.now key) }
        ensures device_lines { OnOk result
            (self.new.device_lines.items ≡ self.old.device_lines.items) }
        ensures more_lines { OnOk result
            (self.new.more_lines.items ≡ self.old.more_lines.items) }
        ensures ready { OnOk result (IsReady self.new) }
    {
        let layer = self.place(name);
        self.keys.add(key)?;
        self.rules.outputs.push(Output { layer, key })?;
        Ok(())
    }

    fn extract(&mut self, alloc: Global, m: &Mos, line: u64) -> Result<(), AllocError>
        requires ready { IsReady self.old }
        requires filled { 0 < length m.now.class.now }
        requires fresh { list_any (bytes_eq (folded_bytes m.now.class.now))
            (map (λ d. folded_bytes d.class) self.old.rules.devices.items) ≡ false }
        ensures rules { OnOk result (rules_seen self.new.rules
            ≡ extracting (rules_seen self.old.rules) (mos_seen m.now)) }
        ensures device_lines { OnOk result
            (self.new.device_lines.items ≡ self.old.device_lines.items ++ line ∷ []) }
        ensures more_lines { OnOk result
            (self.new.more_lines.items ≡ self.old.more_lines.items) }
        ensures ready { OnOk result (IsReady self.new) }
    {
        let device = MosRule {
            class: name_of(alloc, m.class)?,
            sd: self.place(m.sd),
            g: self.place(m.g),
            w: self.place(m.w),
            ts: self.place(m.ts),
            tg: self.place(m.tg),
            tb: self.place(m.tb),
        };
        self.classes
            .add(alloc, folded_copy(alloc, m.class)?.bytes())?;
        self.rules.devices.push(device)?;
        self.device_lines.push(line)?;
        Ok(())
    }

    // A resistor or a diode with numbers in place of its layers' names.
    fn further_rule(&self, alloc: Global, m: &More) -> Result<MoreRule, AllocError>
        requires ready { IsReady self.now }
        requires filled { 0 < length (class_of (more_seen m.now)) }
        ensures { IfOk result (λ d. d
            ≡ further_rule (rules_seen self.now.rules) (more_seen m.now)) }
    {
        let class = name_of(alloc, class_of(m))?;
        match m {
            More::Resistor {
                r,
                c,
                w,
                ta,
                tw,
                ..
            } => Ok(MoreRule::Resistor {
                class,
                r: self.place(r),
                c: self.place(c),
                w: self.place(w),
                ta: self.place(ta),
                tw: self.place(tw),
            }),
            More::Diode { p, n, ta, tc, .. } => Ok(MoreRule::Diode {
                class,
                p: self.place(p),
                n: self.place(n),
                ta: self.place(ta),
                tc: self.place(tc),
            }),
        }
    }

    fn go_on(&mut self, alloc: Global, m: &More, line: u64) -> Result<(), AllocError>
        requires ready { IsReady self.old }
        requires filled { 0 < length (class_of (more_seen m.now)) }
        requires fresh { list_any (bytes_eq (folded_bytes (class_of (more_seen m.now))))
            (more_classes (rules_seen self.old.rules)) ≡ false }
        ensures rules { OnOk result (rules_seen self.new.rules
            ≡ going_on (rules_seen self.old.rules) (more_seen m.now)) }
        ensures device_lines { OnOk result
            (self.new.device_lines.items ≡ self.old.device_lines.items) }
        ensures more_lines { OnOk result
            (self.new.more_lines.items ≡ self.old.more_lines.items ++ line ∷ []) }
        ensures ready { OnOk result (IsReady self.new) }
    {
        let device = self.further_rule(alloc, m)?;
        self.others
            .add(alloc, folded_copy(alloc, class_of(m))?.bytes())?;
        self.rules.more.push(device)?;
        self.more_lines.push(line)?;
        Ok(())
    }

    fn pair(&mut self, alloc: Global, a: &[u8], b: &[u8]) -> Result<(), AllocError>
        requires ready { IsReady self.old }
        requires filled_a { 0 < length a.now }
        requires filled_b { 0 < length b.now }
        requires fresh_a { names_layout (rules_seen self.old.rules) (folded_bytes a.now) ≡ false }
        requires fresh_b { names_schematic (rules_seen self.old.rules) (folded_bytes b.now)
            ≡ false }
        ensures rules { OnOk result (rules_seen self.new.rules
            ≡ paired (rules_seen self.old.rules) a.now b.now) }
        ensures device_lines { OnOk result
            (self.new.device_lines.items ≡ self.old.device_lines.items) }
        ensures more_lines { OnOk result
            (self.new.more_lines.items ≡ self.old.more_lines.items) }
        ensures ready { OnOk result (IsReady self.new) }
    {
        self.layouts.add(alloc, folded_copy(alloc, a)?.bytes())?;
        self.schematics.add(alloc, folded_copy(alloc, b)?.bytes())?;
        self.rules
            .same
            .push((name_of(alloc, a)?, name_of(alloc, b)?))?;
        Ok(())
    }

    fn flatten_layout(&mut self, alloc: Global, a: &[u8]) -> Result<(), AllocError>
        requires ready { IsReady self.old }
        requires filled { 0 < length a.now }
        requires fresh { names_layout (rules_seen self.old.rules) (folded_bytes a.now) ≡ false }
        ensures rules { OnOk result (rules_seen self.new.rules
            ≡ flattening_layout (rules_seen self.old.rules) a.now) }
        ensures device_lines { OnOk result
            (self.new.device_lines.items ≡ self.old.device_lines.items) }
        ensures more_lines { OnOk result
            (self.new.more_lines.items ≡ self.old.more_lines.items) }
        ensures ready { OnOk result (IsReady self.new) }
    {
        self.flat_layouts
            .add(alloc, folded_copy(alloc, a)?.bytes())?;
        self.rules.flat_layouts.push(name_of(alloc, a)?)?;
        Ok(())
    }

    fn flatten_schematic(&mut self, alloc: Global, b: &[u8]) -> Result<(), AllocError>
        requires ready { IsReady self.old }
        requires filled { 0 < length b.now }
        requires fresh { names_schematic (rules_seen self.old.rules) (folded_bytes b.now)
            ≡ false }
        ensures rules { OnOk result (rules_seen self.new.rules
            ≡ flattening_schematic (rules_seen self.old.rules) b.now) }
        ensures device_lines { OnOk result
            (self.new.device_lines.items ≡ self.old.device_lines.items) }
        ensures more_lines { OnOk result
            (self.new.more_lines.items ≡ self.old.more_lines.items) }
        ensures ready { OnOk result (IsReady self.new) }
    {
        self.flat_schematics
            .add(alloc, folded_copy(alloc, b)?.bytes())?;
        self.rules.flat_schematics.push(name_of(alloc, b)?)?;
        Ok(())
    }

    fn numbered(&self, form: &Form) -> LayerForm
        requires { IsReady self.now }
        ensures { result ≡ numbered (rules_seen self.now.rules) (form_seen form.now) }
    {
        match form {
            Form::Input(key) => LayerForm::Input(*key),
            Form::Labels(key) => LayerForm::Labels(*key),
            Form::Empty => LayerForm::Empty,
            Form::Binary(op, a, b) => LayerForm::Binary(*op, self.place(a), self.place(b)),
            Form::Sized(a, by) => LayerForm::Sized(self.place(a), *by),
        }
    }

    // Takes a statement that passed.
    fn keep(&mut self, alloc: Global, s: &Statement, line: u64) -> Result<(), AllocError>
        requires ready { IsReady self.old }
        requires filled { IsFilled (statement_seen s.now) }
        requires passed { statement_fault (rules_seen self.old.rules) line (statement_seen s.now)
            ≡ None }
        ensures rules { OnOk result (rules_seen self.new.rules
            ≡ with_statement (rules_seen self.old.rules) (statement_seen s.now)) }
        ensures device_lines { OnOk result
            (self.new.device_lines.items ≡ self.old.device_lines.items
            ++ extraction_line line (Some (statement_seen s.now))) }
        ensures more_lines { OnOk result
            (self.new.more_lines.items ≡ self.old.more_lines.items
            ++ further_line line (Some (statement_seen s.now))) }
        ensures ready { OnOk result (IsReady self.new) }
    {
        match s {
            Statement::Define(name, form) => {
                let form = self.numbered(form);
                self.define(alloc, name, form)
            }
            Statement::Choose(name, choice) => self.choose(alloc, name, choice),
            Statement::Draw(name, key) => self.draw(name, *key),
            Statement::Connect(a, b) => {
                let pair = (self.place(a), self.place(b));
                self.rules.connects.push(pair)?;
                Ok(())
            }
            Statement::Global(a, net) => {
                let global = (self.place(a), name_of(alloc, net)?);
                self.rules.globals.push(global)?;
                Ok(())
            }
            Statement::Extract(m) => self.extract(alloc, m, line),
            Statement::Further(m) => self.go_on(alloc, m, line),
            Statement::Same(a, b) => self.pair(alloc, a, b),
            Statement::FlattenLayout(a) => self.flatten_layout(alloc, a),
            Statement::FlattenSchematic(b) => self.flatten_schematic(alloc, b),
            Statement::FlattenUnmatched => {
                self.rules.flattens_unmatched = true;
                Ok(())
            }
            Statement::SamePins => {
                self.rules.tells_pins = true;
                Ok(())
            }
            Statement::KeepCovered => {
                self.rules.covered = true;
                Ok(())
            }
            Statement::Combine => {
                self.rules.combine = true;
                Ok(())
            }
            Statement::MaxGuesses(n) => {
                self.rules.max_guesses = *n;
                Ok(())
            }
            Statement::Accepted => Ok(()),
        }
    }

    #[tactic(auto, using(crate::proofs::SoundLemmas::formed_more))]
    fn tokens(&mut self, alloc: Global, tokens: &[Token], line: u64) -> Result<(), RuleFault>
        requires { IsReady self.old }
        ensures taken { OnOk result (Takes self.old self.new line (seen_all tokens.now)) }
        ensures fault { IfErr result (λ e.
            Says e (fault_of (rules_seen self.old.rules) line (seen_all tokens.now))) }
    {
        if is_unknown(tokens) {
            return Err(RuleFault::UnknownStatement(line));
        }
        let Some(s) = statement_of(tokens) else {
            return Err(RuleFault::BadForm(line));
        };
        self.check(alloc, &s, line)?;
        self.keep(alloc, &s, line)?;
        Ok(())
    }

    fn line(&mut self, alloc: Global, bytes: &[u8], line: u64) -> Result<(), RuleFault>
        requires { IsReady self.old }
        ensures taken { OnOk result (Takes self.old self.new line (tokens_of bytes.now)) }
        ensures fault { IfErr result (λ e.
            Says e (fault_of (rules_seen self.old.rules) line (tokens_of bytes.now))) }
    {
        let found = read_tokens(alloc, bytes)?;
        self.tokens(alloc, &found, line)
    }

    /// Takes the lines of the bytes, or says the first fault.
    pub fn lines(&mut self, alloc: Global, bytes: &[u8]) -> Result<(), RuleFault>
        requires { IsReady self.old }
        ensures taken { OnOk result (TakesAll self.old self.new (lines_of bytes.now)) }
        ensures fault { IfErr result (λ e.
            SaysFirst e (reading 1 (rules_seen self.old.rules) (lines_of bytes.now))) }
    {
        let mut rest = bytes;
        let mut number = 1;
        while rest.len() > 0 {
            let (line, behind) = next_line(rest);
            self.line(alloc, line, number)?;
            number += 1;
            rest = behind;
        }
        Ok(())
    }

    // Whether conductors connect each device.
    fn check_connected(&self, alloc: Global) -> Result<(), RuleFault>
        requires { IsReady self.now }
        ensures ok { IfOk result (λ _. loose_of (rules_seen self.now.rules)
            self.now.device_lines.items self.now.more_lines.items ≡ None) }
        ensures fault { IfErr result (λ e.
            SaysFirst e (closed self.now.device_lines.items self.now.more_lines.items
            (Ok (rules_seen self.now.rules)))) }
    {
        let conductors = self.rules.conductors(alloc)?;
        let one = self.rules.first_loose(&conductors, &self.device_lines);
        let other = self.rules.first_loose_more(&conductors, &self.more_lines);
        match lesser(one, other) {
            Some(line) => Err(RuleFault::NotConductor(line)),
            None => Ok(()),
        }
    }

    fn into_rules(self) -> RuleSet
        ensures { result ≡ self.rules }
    {
        self.rules
    }

    /// The rules, where each device is connected in the end.
    pub fn close(self, alloc: Global) -> Result<RuleSet, RuleFault>
        requires { IsReady self }
        ensures ok { IfOk result (λ r. closed self.device_lines.items self.more_lines.items
            (Ok (rules_seen self.rules)) ≡ Ok (rules_seen r)) }
        ensures sound { IfOk result (λ r. IsFormed (rules_seen self.rules)
            → IsSound (rules_seen r)) }
        ensures fault { IfErr result (λ e.
            SaysFirst e (closed self.device_lines.items self.more_lines.items
            (Ok (rules_seen self.rules)))) }
    {
        let connected = self.check_connected(alloc);
        let rules = self.into_rules();
        connected?;
        Ok(rules)
    }
}
