//! The partner of a layout's circuit by its name.
ghost use Rattle.std.specs.Prelude.{◌≡◌, ◌++◌, ◌∷◌, [], false, IfOk, OnOk, length};
ghost use Rattle.net_align.specs.Names.{AreOnce, IsNaming, found_in, names_of, left_names};
ghost use Rattle.net_align.specs.Names.{right_names, partner_named, partners_named};
ghost use Rattle.net_model.specs.Rows.{plain_netlist};
ghost use Rattle.net_names.specs.Folding.{folded_bytes};
ghost use Rattle.text_table.specs.Texts.{has_text};

use net_model::Netlist;
use net_names::{Name, folded};
use std::alloc::{AllocError, Global};
use text_table::TextTable;

/// The schematic's circuits, and the lines `same_circuits`, by folded names.
#[derive(Drop)]
pub struct Naming {
    pub circuits: TextTable,
    pub lefts: TextTable,
    pub rights: TextTable,
    pub right_names: Vec<Name>,
}

impl Naming {
    /// Linear in the names.
    pub fn new(
        alloc: Global,
        schematic: &Netlist,
        same: &[(Name, Name)],
    ) -> Result<Naming, AllocError>
        requires circuits { AreOnce (names_of (plain_netlist schematic.now)) }
        requires lefts { AreOnce (left_names same.now) }
        requires rights { AreOnce (right_names same.now) }
        ensures { IfOk result (IsNaming (plain_netlist schematic.now) same.now) }
    {
        let right_names = right_names(alloc, same)?;
        let circuits = circuit_table(alloc, schematic)?;
        let (lefts, rights) = line_tables(alloc, same)?;
        Ok(Naming {
            circuits,
            lefts,
            rights,
            right_names,
        })
    }

    /// The partner by name of a layout circuit of this folded name. Takes the time of a few hashes.
    pub fn partner(&self, name: &Name) -> Option<usize>
        ensures { result ≡ partner_named self.now name.now }
    {
        match find(&self.lefts, name) {
            Some(line) => match self.right_names.get(line) {
                Some(other) => find(&self.circuits, other),
                None => None,
            },
            None => match find(&self.rights, name) {
                Some(_) => None,
                None => find(&self.circuits, name),
            },
        }
    }

    /// The partner by name of each circuit of the layout. Linear in the names.
    pub fn partners(
        &self,
        alloc: Global,
        layout: &Netlist,
    ) -> Result<Vec<Option<usize>>, AllocError>
        ensures { IfOk result (λ of.
            of.items ≡ partners_named self.now (plain_netlist layout.now)) }
    {
        let mut of = Vec::new(alloc);
        for circuit in &layout.circuits {
            of.push(self.partner(&folded(alloc, &circuit.name)?))?;
        }
        Ok(of)
    }
}

/// The place of a name in a table.
pub fn find(table: &TextTable, name: &Name) -> Option<usize>
    ensures { result ≡ found_in table.now name.now }
{
    let place = table.place(name.bytes());
    if place < table.len() {
        Some(place)
    } else {
        None
    }
}

// Adds a name, small letters being large ones, as the last.
fn add_folded(alloc: Global, table: &mut TextTable, name: &Name) -> Result<(), AllocError>
    requires { has_text table.old (folded_bytes name.now) ≡ false }
    ensures { OnOk result (table.new ≡ table.old ++ folded_bytes name.now ∷ []) }
{
    table.add(alloc, folded(alloc, name)?.bytes())
}

fn circuit_table(alloc: Global, netlist: &Netlist) -> Result<TextTable, AllocError>
    requires { AreOnce (names_of (plain_netlist netlist.now)) }
    ensures { IfOk result (λ table. table ≡ names_of (plain_netlist netlist.now)) }
{
    let mut table = TextTable::new(alloc);
    for circuit in &netlist.circuits {
        add_folded(alloc, &mut table, &circuit.name)?;
    }
    Ok(table)
}

// The names on the left of the lines, and those on the right.
fn line_tables(alloc: Global, same: &[(Name, Name)]) -> Result<(TextTable, TextTable), AllocError>
    requires lefts { AreOnce (left_names same.now) }
    requires rights { AreOnce (right_names same.now) }
    ensures lefts { IfOk result (λ tables. tables.0 ≡ left_names same.now) }
    ensures rights { IfOk result (λ tables. tables.1 ≡ right_names same.now) }
{
    let lefts = left_table(alloc, same)?;
    let rights = right_table(alloc, same)?;
    Ok((lefts, rights))
}

fn left_table(alloc: Global, same: &[(Name, Name)]) -> Result<TextTable, AllocError>
    requires { AreOnce (left_names same.now) }
    ensures { IfOk result (λ table. table ≡ left_names same.now) }
{
    let mut table = TextTable::new(alloc);
    for line in same {
        add_folded(alloc, &mut table, &line.0)?;
    }
    Ok(table)
}

fn right_table(alloc: Global, same: &[(Name, Name)]) -> Result<TextTable, AllocError>
    requires { AreOnce (right_names same.now) }
    ensures { IfOk result (λ table. table ≡ right_names same.now) }
{
    let mut table = TextTable::new(alloc);
    for line in same {
        add_folded(alloc, &mut table, &line.1)?;
    }
    Ok(table)
}

fn right_names(alloc: Global, same: &[(Name, Name)]) -> Result<Vec<Name>, AllocError>
    ensures { IfOk result (λ names. names.items ≡ right_names same.now) }
{
    let mut names = Vec::new(alloc);
    for line in same {
        names.push(folded(alloc, &line.1)?)?;
    }
    Ok(names)
}
