//! Names of nets and of circuits, each once.
ghost use Rattle.std.specs.Prelude.{◌≡◌, ◌<◌, ◌++◌, if◌then◌else◌, [], ◌∷◌, get_or};
ghost use Rattle.std.specs.Prelude.{length, IfOk, OnOk};
ghost use Rattle.flat_layout.specs.Names.{circuit_ending, circuit_names, circuit_needs, has_two};
ghost use Rattle.flat_layout.specs.Names.{net_ending, net_names, net_needs};
ghost use Rattle.net_names.specs.Folding.{folded_bytes};
ghost use Rattle.text_table.specs.Texts.{with_text};
ghost use Rattle.circuit_phase.specs.Names.{folded_base, folded_bases, folded_names};

use net_names::{Name, folded};
use std::alloc::{AllocError, Global};
use text_table::TextTable;

// The byte at a place of the text, zero past its end.
fn byte_at(text: &[u8], n: usize) -> u8
    ensures { result ≡ get_or text.now n 0 }
{
    if n < text.len() { text[n] } else { 0 }
}

// Two `$` in a row.
fn has_two(name: &[u8]) -> bool
    ensures { result ≡ has_two name.now }
{
    for i in 0..name.len() {
        if name[i] == b'$' && byte_at(name, i + 1) == b'$' {
            return true;
        }
    }
    false
}

fn net_needs(earlier: &TextTable, base: &[u8]) -> bool
    ensures { result ≡ net_needs earlier.now base.now }
{
    base.is_empty() || base.contains(&b'$') || earlier.contains(base)
}

fn circuit_needs(earlier: &TextTable, name: &[u8]) -> bool
    ensures { result ≡ circuit_needs earlier.now name.now }
{
    has_two(name) || earlier.contains(name)
}

fn with_ending(mut text: Vec<u8>, ending: &[u8]) -> Result<Name, AllocError>
    requires { 0 < length ending.now }
    ensures { IfOk result (λ n. n ≡ text.items ++ ending.now) }
{
    text.extend_from_slice(ending)?;
    Ok(Name::from_vec(text))
}

// A net's name by its folded base, those of earlier nets, and its number.
fn net_name(
    alloc: Global,
    earlier: &TextTable,
    base: &[u8],
    number: usize,
) -> Result<Name, AllocError>
    ensures { IfOk result (λ n. n ≡ (if net_needs earlier.now base.now
        then base.now ++ net_ending number else base.now)) }
{
    let text = base.to_vec(alloc)?;
    if net_needs(earlier, base) {
        let ending = format!(in alloc; "${number}")?;
        return with_ending(text, ending.as_bytes());
    }
    Ok(Name::from_vec(text))
}

// A circuit's name by its cell's folded name, those of earlier cells, and its number.
fn circuit_name(
    alloc: Global,
    earlier: &TextTable,
    name: &Name,
    number: usize,
) -> Result<Name, AllocError>
    ensures { IfOk result (λ n. n ≡ (if circuit_needs earlier.now name.now
        then name.now ++ circuit_ending number else name.now)) }
{
    if circuit_needs(earlier, name.bytes()) {
        let ending = format!(in alloc; "$${number}")?;
        return with_ending(name.bytes().to_vec(alloc)?, ending.as_bytes());
    }
    name.try_clone(alloc)
}

fn folded_base(alloc: Global, base: Option<&Name>) -> Result<Vec<u8>, AllocError>
    ensures { IfOk result (λ s. s.items ≡ folded_base base.entry) }
{
    match base {
        None => Ok(Vec::new(alloc)),
        Some(name) => folded(alloc, name)?.bytes().to_vec(alloc),
    }
}

// Adds the name of the next net, by its base name.
fn push_net_name(
    alloc: Global,
    base: Option<&Name>,
    number: usize,
    earlier: &mut TextTable,
    names: &mut Vec<Name>,
) -> Result<(), AllocError>
    ensures names { OnOk result (names.new.items ≡ names.old.items
        ++ (if net_needs earlier.old (folded_base base.entry)
        then folded_base base.entry ++ net_ending number else folded_base base.entry) ∷ []) }
    ensures earlier { OnOk result (earlier.new ≡ with_text earlier.old (folded_base base.entry)) }
{
    let text = folded_base(alloc, base)?;
    names.push(net_name(alloc, earlier, &text, number)?)?;
    earlier.number(alloc, &text)?;
    Ok(())
}

/// The names of a circuit's nets from their base names, which it folds: `a` to `z` become `A` to
/// `Z`. A net gets `$` and its number, from 1, where its base is empty, has a `$` or is an earlier
/// net's. Linear in the bytes of the bases.
pub fn net_names(alloc: Global, bases: &[Option<&Name>]) -> Result<Vec<Name>, AllocError>
    ensures { IfOk result (λ names. names.items ≡ net_names [] 1 (folded_bases bases.now)) }
{
    let mut earlier = TextTable::new(alloc);
    let mut names = Vec::new(alloc);
    for i in 0..bases.len() {
        push_net_name(alloc, bases[i], i + 1, &mut earlier, &mut names)?;
    }
    Ok(names)
}

// Adds the name of the next circuit, by its cell's name.
fn push_circuit_name(
    alloc: Global,
    cell: &Name,
    number: usize,
    earlier: &mut TextTable,
    names: &mut Vec<Name>,
) -> Result<(), AllocError>
    ensures names { OnOk result (names.new.items ≡ names.old.items
        ++ (if circuit_needs earlier.old (folded_bytes cell.now)
        then folded_bytes cell.now ++ circuit_ending number else folded_bytes cell.now) ∷ []) }
    ensures earlier { OnOk result (earlier.new ≡ with_text earlier.old (folded_bytes cell.now)) }
{
    let name = folded(alloc, cell)?;
    names.push(circuit_name(alloc, earlier, &name, number)?)?;
    earlier.number(alloc, name.bytes())?;
    Ok(())
}

/// The names of circuits from their cells' names, which it folds: `a` to `z` become `A` to `Z`. A
/// circuit gets `$$` and its number, from 1, where its cell's name has `$$` or is an earlier
/// cell's. Linear in the bytes of the names.
pub fn circuit_names(alloc: Global, cells: &[&Name]) -> Result<Vec<Name>, AllocError>
    ensures { IfOk result (λ names. names.items ≡ circuit_names [] 1 (folded_names cells.now)) }
{
    let mut earlier = TextTable::new(alloc);
    let mut names = Vec::new(alloc);
    for i in 0..cells.len() {
        push_circuit_name(alloc, cells[i], i + 1, &mut earlier, &mut names)?;
    }
    Ok(names)
}
