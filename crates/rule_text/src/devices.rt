//! The statement `extract_devices`: its entries, and the device that they give.

ghost use Rattle.std.specs.Prelude.{◌≡◌, ◌≤◌, true, IfSome, length, take, drop};
ghost use Rattle.rule_lines.specs.Seen.{seen_all};
ghost use Rattle.rule_text.specs.Devices.{entry, entry_or, is_entry_at, is_comma_at};
ghost use Rattle.rule_text.specs.Devices.{is_last_at, are_entries, has_parts, are_one_layer};
ghost use Rattle.rule_text.specs.Devices.{mos_of, are_mos_entries, is_head, mos_line, devices_of};
ghost use Rattle.rule_text.specs.Devices.{are_resistor_entries, resistor_of, resistor_behind};
ghost use Rattle.rule_text.specs.Devices.{is_resistor_head, is_digits_head, is_point_head};
ghost use Rattle.rule_text.specs.Devices.{resistor_line, are_diode_entries, diode_of};
ghost use Rattle.rule_text.specs.Devices.{is_diode_head, diode_line};
ghost use Rattle.rule_text.specs.Rows.{word_at};
ghost use Rattle.rule_text.specs.Seen.{word, words, mos, more, statement, statements};
ghost use Rattle.rule_text.specs.Filled.{IsFilled, IsString};

use crate::rows::{More, Mos, Statement};
use crate::slots::{Slot, fits, is_among, sign_at, word_at};
use rule_lines::Token;

const MOS_KEYS: [&[u8]; 7] = [b"SD", b"G", b"W", b"tS", b"tD", b"tG", b"tB"];

const RESISTOR_KEYS: [&[u8]; 6] = [b"R", b"C", b"W", b"tA", b"tB", b"tW"];

const DIODE_KEYS: [&[u8]; 4] = [b"P", b"N", b"tA", b"tC"];

fn entry<'a>(key: &[u8], tokens: &[Token<'a>]) -> Option<&'a [u8]>
    ensures { word result ≡ entry key.now (seen_all tokens.now) }
{
    match tokens {
        [Token::Text(k), Token::Arrow, Token::Word(a), rest @ ..] => {
            if *k == key {
                Some(*a)
            } else {
                entry(key, rest)
            }
        }
        [_, rest @ ..] => entry(key, rest),
        [] => None,
    }
}

fn entry_or<'a>(key: &[u8], tokens: &[Token<'a>], other: &'a [u8]) -> &'a [u8]
    ensures { result.now ≡ entry_or key.now (seen_all tokens.now) other.now }
{
    entry(key, tokens).unwrap_or(other)
}

#[tactic(auto, unfolding(crate::specs::Devices::is_entry_at))]
fn is_entry_at(keys: &[&[u8]], tokens: &[Token]) -> bool
    ensures is { result ≡ is_entry_at (words keys.now) (seen_all tokens.now) }
    ensures room { result ≡ true → 4 ≤ length tokens.now }
{
    if tokens.len() < 4 {
        return false;
    }
    let key = word_at(tokens, 0);
    fits(&[Slot::Quoted, Slot::Maps, Slot::Name], &tokens[..3])
        && is_among(key, keys)
        && entry(key, &tokens[4..]).is_none()
}

#[tactic(auto, unfolding(crate::specs::Devices::is_comma_at))]
fn is_comma_at(tokens: &[Token]) -> bool
    ensures { result ≡ is_comma_at (seen_all tokens.now) }
{
    sign_at(tokens, 3) == b','
}

#[tactic(auto, unfolding(crate::specs::Devices::is_last_at))]
fn is_last_at(tokens: &[Token]) -> bool
    requires { 4 ≤ length tokens.now }
    ensures { result ≡ is_last_at (seen_all tokens.now) }
{
    fits(&[Slot::Sign(b'}'), Slot::Sign(b')')], &tokens[3..])
}

#[tactic(auto, using(crate::proofs::DeviceLemmas::entries_more))]
fn are_entries(keys: &[&[u8]], tokens: &[Token]) -> bool
    ensures { result ≡ are_entries (words keys.now) (seen_all tokens.now) }
{
    if !is_entry_at(keys, tokens) {
        return false;
    }
    if is_last_at(tokens) {
        return true;
    }
    is_comma_at(tokens) && are_entries(keys, &tokens[4..])
}

#[tactic(auto, unfolding(crate::specs::Devices::has_parts))]
fn has_parts(tokens: &[Token]) -> bool
    ensures { result ≡ has_parts (seen_all tokens.now) }
{
    entry(b"SD", tokens).is_some() && entry(b"G", tokens).is_some() && entry(b"W", tokens).is_some()
}

#[tactic(auto, unfolding(crate::specs::Devices::are_one_layer))]
fn are_one_layer(found: &Mos, tokens: &[Token]) -> bool
    ensures { result ≡ are_one_layer (mos found.now) (seen_all tokens.now) }
{
    entry_or(b"tD", tokens, found.sd) == found.ts
}

fn mos_of<'a>(class: &'a [u8], tokens: &[Token<'a>]) -> Mos<'a>
    ensures { mos result ≡ mos_of class.now (seen_all tokens.now) }
{
    let sd = entry_or(b"SD", tokens, &[]);
    let g = entry_or(b"G", tokens, &[]);
    let w = entry_or(b"W", tokens, &[]);
    Mos {
        class,
        sd,
        g,
        w,
        ts: entry_or(b"tS", tokens, sd),
        tg: entry_or(b"tG", tokens, g),
        tb: entry_or(b"tB", tokens, w),
    }
}

#[tactic(auto, unfolding(crate::specs::Devices::are_mos_entries))]
fn are_mos_entries(class: &[u8], tokens: &[Token]) -> bool
    ensures { result ≡ are_mos_entries class.now (seen_all tokens.now) }
{
    if !are_entries(&MOS_KEYS, tokens) {
        return false;
    }
    if !has_parts(tokens) {
        return false;
    }
    are_one_layer(&mos_of(class, tokens), tokens)
}

#[tactic(auto, unfolding(crate::specs::Devices::is_head), using(crate::proofs::FilledLemmas::head_word))]
fn is_head(tokens: &[Token]) -> bool
    ensures is { result ≡ is_head (seen_all tokens.now) }
    ensures room { result ≡ true → 8 ≤ length tokens.now }
    ensures filled { result ≡ true → IsString (word_at 4 (seen_all tokens.now)) }
{
    if tokens.len() < 8 {
        return false;
    }
    fits(
        &[
            Slot::Key(b"extract_devices"),
            Slot::Sign(b'('),
            Slot::Key(b"mos4"),
            Slot::Sign(b'('),
            Slot::Quoted,
            Slot::Sign(b')'),
            Slot::Sign(b','),
            Slot::Sign(b'{'),
        ],
        &tokens[..8],
    )
}

#[tactic(auto, unfolding(crate::specs::Devices::mos_line))]
fn mos_line<'a>(tokens: &[Token<'a>]) -> Option<Statement<'a>>
    ensures is { statements result ≡ mos_line (seen_all tokens.now) }
    ensures filled { IfSome result (λ s. IsFilled (statement s)) }
{
    if !is_head(tokens) {
        return None;
    }
    let class = word_at(tokens, 4);
    let entries = &tokens[8..];
    if !are_mos_entries(class, entries) {
        return None;
    }
    Some(Statement::Extract(mos_of(class, entries)))
}

#[tactic(auto, unfolding(crate::specs::Devices::are_resistor_entries))]
fn are_resistor_entries(tokens: &[Token]) -> bool
    ensures { result ≡ are_resistor_entries (seen_all tokens.now) }
{
    if !are_entries(&RESISTOR_KEYS, tokens) {
        return false;
    }
    let contacts = entry_or(b"C", tokens, &[]);
    entry(b"R", tokens).is_some()
        && entry(b"C", tokens).is_some()
        && entry(b"W", tokens).is_some()
        && entry_or(b"tB", tokens, contacts) == entry_or(b"tA", tokens, contacts)
}

fn resistor_of<'a>(class: &'a [u8], tokens: &[Token<'a>]) -> More<'a>
    ensures { more result ≡ resistor_of class.now (seen_all tokens.now) }
{
    let r = entry_or(b"R", tokens, &[]);
    let c = entry_or(b"C", tokens, &[]);
    let w = entry_or(b"W", tokens, &[]);
    More::Resistor {
        class,
        r,
        c,
        w,
        ta: entry_or(b"tA", tokens, c),
        tw: entry_or(b"tW", tokens, w),
    }
}

#[tactic(auto, unfolding(crate::specs::Devices::resistor_behind))]
fn resistor_behind<'a>(class: &'a [u8], entries: &[Token<'a>]) -> Option<Statement<'a>>
    requires { IsString class.now }
    ensures is { statements result ≡ resistor_behind class.now (seen_all entries.now) }
    ensures filled { IfSome result (λ s. IsFilled (statement s)) }
{
    if !are_resistor_entries(entries) {
        return None;
    }
    Some(Statement::Further(resistor_of(class, entries)))
}

#[tactic(auto, unfolding(crate::specs::Devices::is_resistor_head), using(crate::proofs::FilledLemmas::head_word))]
fn is_resistor_head(tokens: &[Token]) -> bool
    ensures is { result ≡ is_resistor_head (seen_all tokens.now) }
    ensures room { result ≡ true → 8 ≤ length tokens.now }
    ensures filled { result ≡ true → IsString (word_at 4 (seen_all tokens.now)) }
{
    if tokens.len() < 8 {
        return false;
    }
    fits(
        &[
            Slot::Key(b"extract_devices"),
            Slot::Sign(b'('),
            Slot::Key(b"resistor_with_bulk"),
            Slot::Sign(b'('),
            Slot::Quoted,
            Slot::Sign(b')'),
            Slot::Sign(b','),
            Slot::Sign(b'{'),
        ],
        &tokens[..8],
    )
}

#[tactic(auto, unfolding(crate::specs::Devices::is_digits_head), using(crate::proofs::FilledLemmas::digits_word))]
fn is_digits_head(tokens: &[Token]) -> bool
    ensures is { result ≡ is_digits_head (seen_all tokens.now) }
    ensures room { result ≡ true → 10 ≤ length tokens.now }
    ensures filled { result ≡ true → IsString (word_at 4 (seen_all tokens.now)) }
{
    if tokens.len() < 10 {
        return false;
    }
    fits(
        &[
            Slot::Key(b"extract_devices"),
            Slot::Sign(b'('),
            Slot::Key(b"resistor_with_bulk"),
            Slot::Sign(b'('),
            Slot::Quoted,
            Slot::Sign(b','),
            Slot::Digits,
            Slot::Sign(b')'),
            Slot::Sign(b','),
            Slot::Sign(b'{'),
        ],
        &tokens[..10],
    )
}

#[tactic(auto, unfolding(crate::specs::Devices::is_point_head), using(crate::proofs::FilledLemmas::point_word))]
fn is_point_head(tokens: &[Token]) -> bool
    ensures is { result ≡ is_point_head (seen_all tokens.now) }
    ensures room { result ≡ true → 12 ≤ length tokens.now }
    ensures filled { result ≡ true → IsString (word_at 4 (seen_all tokens.now)) }
{
    if tokens.len() < 12 {
        return false;
    }
    fits(
        &[
            Slot::Key(b"extract_devices"),
            Slot::Sign(b'('),
            Slot::Key(b"resistor_with_bulk"),
            Slot::Sign(b'('),
            Slot::Quoted,
            Slot::Sign(b','),
            Slot::Digits,
            Slot::Sign(b'.'),
            Slot::Digits,
            Slot::Sign(b')'),
            Slot::Sign(b','),
            Slot::Sign(b'{'),
        ],
        &tokens[..12],
    )
}

#[tactic(auto, unfolding(crate::specs::Devices::resistor_line))]
fn resistor_line<'a>(tokens: &[Token<'a>]) -> Option<Statement<'a>>
    ensures is { statements result ≡ resistor_line (seen_all tokens.now) }
    ensures filled { IfSome result (λ s. IsFilled (statement s)) }
{
    if is_resistor_head(tokens) {
        return resistor_behind(word_at(tokens, 4), &tokens[8..]);
    }
    if is_digits_head(tokens) {
        return resistor_behind(word_at(tokens, 4), &tokens[10..]);
    }
    if is_point_head(tokens) {
        return resistor_behind(word_at(tokens, 4), &tokens[12..]);
    }
    None
}

#[tactic(auto, unfolding(crate::specs::Devices::are_diode_entries))]
fn are_diode_entries(tokens: &[Token]) -> bool
    ensures { result ≡ are_diode_entries (seen_all tokens.now) }
{
    if !are_entries(&DIODE_KEYS, tokens) {
        return false;
    }
    entry(b"P", tokens).is_some() && entry(b"N", tokens).is_some()
}

fn diode_of<'a>(class: &'a [u8], tokens: &[Token<'a>]) -> More<'a>
    ensures { more result ≡ diode_of class.now (seen_all tokens.now) }
{
    let p = entry_or(b"P", tokens, &[]);
    let n = entry_or(b"N", tokens, &[]);
    More::Diode {
        class,
        p,
        n,
        ta: entry_or(b"tA", tokens, p),
        tc: entry_or(b"tC", tokens, n),
    }
}

#[tactic(auto, unfolding(crate::specs::Devices::is_diode_head), using(crate::proofs::FilledLemmas::head_word))]
fn is_diode_head(tokens: &[Token]) -> bool
    ensures is { result ≡ is_diode_head (seen_all tokens.now) }
    ensures room { result ≡ true → 8 ≤ length tokens.now }
    ensures filled { result ≡ true → IsString (word_at 4 (seen_all tokens.now)) }
{
    if tokens.len() < 8 {
        return false;
    }
    fits(
        &[
            Slot::Key(b"extract_devices"),
            Slot::Sign(b'('),
            Slot::Key(b"diode"),
            Slot::Sign(b'('),
            Slot::Quoted,
            Slot::Sign(b')'),
            Slot::Sign(b','),
            Slot::Sign(b'{'),
        ],
        &tokens[..8],
    )
}

#[tactic(auto, unfolding(crate::specs::Devices::diode_line))]
fn diode_line<'a>(tokens: &[Token<'a>]) -> Option<Statement<'a>>
    ensures is { statements result ≡ diode_line (seen_all tokens.now) }
    ensures filled { IfSome result (λ s. IsFilled (statement s)) }
{
    if !is_diode_head(tokens) {
        return None;
    }
    let class = word_at(tokens, 4);
    let entries = &tokens[8..];
    if !are_diode_entries(entries) {
        return None;
    }
    Some(Statement::Further(diode_of(class, entries)))
}

pub fn devices_of<'a>(tokens: &[Token<'a>]) -> Option<Statement<'a>>
    ensures is { statements result ≡ devices_of (seen_all tokens.now) }
    ensures filled { IfSome result (λ s. IsFilled (statement s)) }
{
    if let Some(found) = mos_line(tokens) {
        return Some(found);
    }
    if let Some(found) = resistor_line(tokens) {
        return Some(found);
    }
    diode_line(tokens)
}
