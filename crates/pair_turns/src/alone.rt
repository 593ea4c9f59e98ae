//! Circuits without a partner, told by lines as those of `same_circuits`.
ghost use Rattle.std.specs.Prelude.{◌≡◌, ◌<◌, ◌++◌, ◌&&◌, not, IfOk, OnOk, length, map, if◌then◌else◌};
ghost use Rattle.std.specs.List.{filter};
ghost use Rattle.net_model.specs.Rows.{plain_circuit, plain_netlist};
ghost use Rattle.pair_turns.specs.Alone.{all_names, circuit_names, first_names, gone_names, greater};
ghost use Rattle.pair_turns.specs.Alone.{has_name, is_untouched, longest, same_alone};
ghost use Rattle.pair_turns.specs.Alone.{second_names, stranger, with_gone};
ghost use Rattle.pair_turns.specs.Seen.{IsTableOf, names_in};
ghost use Rattle.net_names.specs.Folding.{folded_bytes};
ghost use Rattle.text_table.specs.Texts.{with_text};

use net_model::{Circuit, Netlist};
use net_names::{Name, folded};
use std::alloc::{AllocError, Global};
use text_table::TextTable;

/// The names of the circuits of the layout and of the schematic that have no partner.
#[derive(Drop)]
pub struct Alone {
    pub lefts: Vec<Name>,
    pub rights: Vec<Name>,
}

// The greater one of a name's length and a number.
fn longer(name: &Name, most: usize) -> usize
    ensures { result ≡ greater (length name.now) most }
{
    let length = name.bytes().len();
    if length < most { most } else { length }
}

fn longest_name_of(names: &[Name], most: usize) -> usize
    ensures { result ≡ greater (longest names.now) most }
{
    let mut most = most;
    let mut rest = names;
    'names: while let [name, more @ ..] = rest {
        most = longer(name, most);
        rest = more;
    }
    most
}

fn longest_circuit(circuits: &[Circuit], most: usize) -> usize
    ensures { result ≡ greater
        (longest (map (λ c. c.name) (map plain_circuit circuits.now))) most }
{
    let mut most = most;
    let mut rest = circuits;
    'circuits: while let [circuit, more @ ..] = rest {
        most = longer(&circuit.name, most);
        rest = more;
    }
    most
}

fn longest_first(same: &[(Name, Name)], most: usize) -> usize
    ensures { result ≡ greater (longest (first_names same.now)) most }
{
    let mut most = most;
    let mut rest = same;
    'lines: while let [line, more @ ..] = rest {
        most = longer(&line.0, most);
        rest = more;
    }
    most
}

fn longest_second(same: &[(Name, Name)], most: usize) -> usize
    ensures { result ≡ greater (longest (second_names same.now)) most }
{
    let mut most = most;
    let mut rest = same;
    'lines: while let [line, more @ ..] = rest {
        most = longer(&line.1, most);
        rest = more;
    }
    most
}

/// The length of the longest name of a circuit, or in a line. Linear in the names.
pub fn longest_name(
    layout: &Netlist,
    schematic: &Netlist,
    same: &[(Name, Name)],
    alone: &Alone,
) -> usize
    ensures { result ≡ longest (all_names (plain_netlist layout.now) (plain_netlist schematic.now)
        same.now (names_in alone.now)) }
{
    let rights = longest_name_of(&alone.rights, 0);
    let lefts = longest_name_of(&alone.lefts, rights);
    let seconds = longest_second(same, lefts);
    let firsts = longest_first(same, seconds);
    let schematics = longest_circuit(&schematic.circuits, firsts);
    longest_circuit(&layout.circuits, schematics)
}

// A name that no circuit and no line has: longer than each.
fn stranger(alloc: Global, most: usize, name: &Name) -> Result<Name, AllocError>
    ensures { IfOk result (λ other. other ≡ stranger most name.now) }
{
    let mut bytes = vec![in alloc; b'-'; most]?;
    bytes.push(b'-')?;
    bytes.extend_from_slice(name.bytes())?;
    Ok(Name::from_vec(bytes))
}

// Adds a name, small letters being large ones, where it isn't there.
fn add_folded(alloc: Global, table: &mut TextTable, name: &Name) -> Result<(), AllocError>
    ensures { OnOk result (table.new ≡ with_text table.old (folded_bytes name.now)) }
{
    table.number(alloc, folded(alloc, name)?.bytes())?;
    Ok(())
}

// The names with their letters folded, each once.
fn folded_table(alloc: Global, names: &[Name]) -> Result<TextTable, AllocError>
    ensures { IfOk result (IsTableOf names.now) }
{
    let mut table = TextTable::new(alloc);
    let mut rest = names;
    'names: while let [name, more @ ..] = rest {
        add_folded(alloc, &mut table, name)?;
        rest = more;
    }
    Ok(table)
}

// Whether a line names none of the circuits of these tables.
fn is_untouched(
    alloc: Global,
    alone: &Alone,
    lefts: &TextTable,
    rights: &TextTable,
    line: &(Name, Name),
) -> Result<bool, AllocError>
    requires lefts { IsTableOf alone.now.lefts.items lefts.now }
    requires rights { IsTableOf alone.now.rights.items rights.now }
    ensures { IfOk result (λ b. b ≡ is_untouched (names_in alone.now) line.now) }
{
    let (left, right) = (folded(alloc, &line.0)?, folded(alloc, &line.1)?);
    Ok(!lefts.contains(left.bytes()) && !rights.contains(right.bytes()))
}

// The lines that name none of these circuits.
fn untouched(
    alloc: Global,
    same: &[(Name, Name)],
    alone: &Alone,
) -> Result<Vec<(Name, Name)>, AllocError>
    ensures { IfOk result (λ lines. lines.items ≡ filter (is_untouched (names_in alone.now))
        same.now) }
{
    let lefts = folded_table(alloc, &alone.lefts)?;
    let rights = folded_table(alloc, &alone.rights)?;
    untouched_by(alloc, same, alone, &lefts, &rights)
}

// The lines that name none of the circuits of these tables.
fn untouched_by(
    alloc: Global,
    same: &[(Name, Name)],
    alone: &Alone,
    lefts: &TextTable,
    rights: &TextTable,
) -> Result<Vec<(Name, Name)>, AllocError>
    requires lefts { IsTableOf alone.now.lefts.items lefts.now }
    requires rights { IsTableOf alone.now.rights.items rights.now }
    ensures { IfOk result (λ lines. lines.items ≡ filter (is_untouched (names_in alone.now))
        same.now) }
{
    let mut lines = Vec::new(alloc);
    let mut rest = same;
    'lines: while let [line, more @ ..] = rest {
        if is_untouched(alloc, alone, lefts, rights, line)? {
            lines.push(copy_of(alloc, line)?)?;
        }
        rest = more;
    }
    Ok(lines)
}

fn copy_of(alloc: Global, line: &(Name, Name)) -> Result<(Name, Name), AllocError>
    ensures { IfOk result (λ copy. copy ≡ line.now) }
{
    Ok((line.0.try_clone(alloc)?, line.1.try_clone(alloc)?))
}

// A line for each of these circuits of the layout.
fn add_lefts(
    alloc: Global,
    lines: &mut Vec<(Name, Name)>,
    names: &[Name],
    most: usize,
) -> Result<(), AllocError>
    ensures { OnOk result (lines.new.items ≡ lines.old.items
        ++ map (λ name. (name, stranger most name)) names.now) }
{
    let mut rest = names;
    'names: while let [name, more @ ..] = rest {
        lines.push((name.try_clone(alloc)?, stranger(alloc, most, name)?))?;
        rest = more;
    }
    Ok(())
}

fn add_rights(
    alloc: Global,
    lines: &mut Vec<(Name, Name)>,
    names: &[Name],
    most: usize,
) -> Result<(), AllocError>
    ensures { OnOk result (lines.new.items ≡ lines.old.items
        ++ map (λ name. (stranger most name, name)) names.now) }
{
    let mut rest = names;
    'names: while let [name, more @ ..] = rest {
        lines.push((stranger(alloc, most, name)?, name.try_clone(alloc)?))?;
        rest = more;
    }
    Ok(())
}

/// The lines by which these circuits have no partner, and all others are partners as before: each
/// of them stands beside a name that no circuit has, longer than `most` bytes. Lines that named one
/// of them are left out. Linear in the names.
pub fn same_alone(
    alloc: Global,
    same: &[(Name, Name)],
    alone: &Alone,
    most: usize,
) -> Result<Vec<(Name, Name)>, AllocError>
    ensures { IfOk result (λ lines. lines.items ≡ same_alone most (names_in alone.now) same.now) }
{
    let mut lines = untouched(alloc, same, alone)?;
    add_lefts(alloc, &mut lines, &alone.lefts, most)?;
    add_rights(alloc, &mut lines, &alone.rights, most)?;
    Ok(lines)
}

// Adds the names of the circuits that go.
fn add_gone(
    alloc: Global,
    names: &mut Vec<Name>,
    circuits: &[Circuit],
    goes: &[bool],
) -> Result<(), AllocError>
    ensures { OnOk result (names.new.items ≡ names.old.items
        ++ gone_names goes.now (map plain_circuit circuits.now)) }
{
    let mut rest = circuits;
    let mut marks = goes;
    'circuits: while let [circuit, more @ ..] = rest {
        let [mark, others @ ..] = marks else {
            return Ok(());
        };
        if *mark {
            names.push(circuit.name.try_clone(alloc)?)?;
        }
        rest = more;
        marks = others;
    }
    Ok(())
}

impl Alone {
    /// The circuits of the pairs that go have no partner either.
    pub fn add(
        &mut self,
        alloc: Global,
        left: &Netlist,
        right: &Netlist,
        goes: &[bool],
    ) -> Result<(), AllocError>
        ensures { OnOk result (names_in self.new ≡ with_gone (names_in self.old)
            (plain_netlist left.now) (plain_netlist right.now) goes.now) }
    {
        add_gone(alloc, &mut self.lefts, &left.circuits, goes)?;
        add_gone(alloc, &mut self.rights, &right.circuits, goes)
    }
}
