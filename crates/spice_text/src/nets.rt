//! The nets of a circuit by number, in order of first appearance.

ghost use Rattle.std.specs.Prelude.{◌≡◌, ◌∷◌, [], ◌<◌, ◌^◌, flat_map, map, length, slice_index_or};
ghost use Rattle.std.specs.Prelude.{IfOk, OnOk};
ghost use Rattle.call_order.specs.Order.{lists};
ghost use Rattle.spice_rows.specs.Seen.{call_seen};
ghost use Rattle.spice_text.specs.Needs.{first_seen, device_nets, HaveBytes};
ghost use Rattle.spice_text.specs.Table.{picked, needed_of, seen_with_needs};

use net_names::Name;
use spice_rows::{CallCard, DeviceCard};
use std::alloc::{AllocError, Global};
use text_table::TextTable;

/// The names of nets, each once and by its number, in order of first appearance.
#[derive(Drop)]
pub struct Nets {
    pub table: TextTable,
}

impl Nets {
    ghost use Rattle.std.specs.Prelude.{◌≡◌, ◌<◌, ◌∷◌, [], flat_map, length, map, IfOk, OnOk};
    ghost use Rattle.call_order.specs.Order.{lists};
    ghost use Rattle.spice_rows.specs.Seen.{call_seen};
    ghost use Rattle.spice_text.specs.Needs.{first_seen, device_nets, HaveBytes};
    ghost use Rattle.spice_text.specs.Table.{picked, needed_of, seen_with_needs};

    fn new(alloc: Global) -> Nets
        ensures table { result.table ≡ [] }
        ensures names { HaveBytes result.table }
    {
        Nets {
            table: TextTable::new(alloc),
        }
    }

    /// The nets of these names.
    pub fn of(alloc: Global, names: &[Name]) -> Result<Nets, AllocError>
        ensures table { IfOk result (λ nets. nets.table ≡ first_seen [] names.now) }
        ensures names { IfOk result (λ nets. HaveBytes nets.table) }
    {
        let mut nets = Nets::new(alloc);
        nets.see_all(alloc, names)?;
        Ok(nets)
    }

    fn see(&mut self, alloc: Global, name: &[u8]) -> Result<(), AllocError>
        requires names { HaveBytes self.old.table }
        requires some { 0 < length name.now }
        ensures table { OnOk result (self.new.table ≡ first_seen self.old.table (name.now ∷ [])) }
        ensures names { OnOk result (HaveBytes self.new.table) }
    {
        if !self.table.contains(name) {
            self.table.add(alloc, name)?;
        }
        Ok(())
    }

    fn see_all(&mut self, alloc: Global, names: &[Name]) -> Result<(), AllocError>
        requires { HaveBytes self.old.table }
        ensures table { OnOk result (self.new.table ≡ first_seen self.old.table names.now) }
        ensures names { OnOk result (HaveBytes self.new.table) }
    {
        let mut rest = names;
        'names: while let [name, more @ ..] = rest {
            self.see(alloc, name.bytes())?;
            rest = more;
        }
        Ok(())
    }

    /// The global names that a row says are needed.
    pub fn see_needed(
        &mut self,
        alloc: Global,
        row: &[u32],
        globals: &[Name],
    ) -> Result<(), AllocError>
        requires { HaveBytes self.old.table }
        ensures table { OnOk result
            (self.new.table ≡ first_seen self.old.table (picked row.now globals.now)) }
        ensures names { OnOk result (HaveBytes self.new.table) }
    {
        let mut rest = row;
        'numbers: while let [j, more @ ..] = rest {
            if let Some(name) = globals.get(*j as usize) {
                self.see(alloc, name.bytes())?;
            }
            rest = more;
        }
        Ok(())
    }

    fn see_device(&mut self, alloc: Global, d: &DeviceCard) -> Result<(), AllocError>
        requires { HaveBytes self.old.table }
        ensures table { OnOk result
            (self.new.table ≡ first_seen self.old.table (device_nets d.now)) }
        ensures names { OnOk result (HaveBytes self.new.table) }
    {
        'nets: for place in 0..d.kind().terminals() {
            self.see(alloc, d.net(place))?;
        }
        Ok(())
    }

    pub fn see_devices(&mut self, alloc: Global, devices: &[DeviceCard]) -> Result<(), AllocError>
        requires { HaveBytes self.old.table }
        ensures table { OnOk result (self.new.table
            ≡ first_seen self.old.table (flat_map device_nets devices.now)) }
        ensures names { OnOk result (HaveBytes self.new.table) }
    {
        let mut rest = devices;
        'devices: while let [device, more @ ..] = rest {
            self.see_device(alloc, device)?;
            rest = more;
        }
        Ok(())
    }

    /// The nets of calls, with the global names that the called circuits need.
    pub fn see_calls_with(
        &mut self,
        alloc: Global,
        calls: &[CallCard],
        names: &TextTable,
        rows: &[Vec<u32>],
        globals: &[Name],
    ) -> Result<(), AllocError>
        requires { HaveBytes self.old.table }
        ensures table { OnOk result (self.new.table
            ≡ seen_with_needs names.now (needed_of (lists rows.now) globals.now) self.old.table
            (map call_seen calls.now)) }
        ensures names { OnOk result (HaveBytes self.new.table) }
    {
        let mut rest = calls;
        'calls: while let [call, more @ ..] = rest {
            self.see_all(alloc, &call.nets)?;
            let row = row_at(rows, names.place(call.circuit.bytes()));
            self.see_needed(alloc, row, globals)?;
            rest = more;
        }
        Ok(())
    }

    /// The names, in their order. None is copied.
    pub fn into_names(self, alloc: Global) -> Result<Vec<Name>, AllocError>
        requires { HaveBytes self.table }
        ensures { IfOk result (λ names. names.items ≡ self.table) }
    {
        let texts = self.table.into_texts(alloc)?;
        let mut names = Vec::with_capacity(alloc, texts.len())?;
        'texts: for text in texts {
            names.push(Name::from_vec(text))?;
        }
        Ok(names)
    }
}

/// The row of a circuit, or an empty one.
pub fn row_at(rows: &[Vec<u32>], k: usize) -> &[u32]
    ensures { result.now ≡ slice_index_or (lists rows.now) k [] }
{
    match rows.get(k) {
        None => &[],
        Some(row) => row.as_slice(),
    }
}
