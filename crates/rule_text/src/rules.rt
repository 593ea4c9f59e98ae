//! The rules of a rule file: names, selections, outputs, connections, devices, pairs of circuits
//! and circuits without one.

use geo_base::{LayerKey, Op};
use net_names::Name;
use std::alloc::{AllocError, Global};

/// What a name stands for. Operands are numbers of names. A sized layer is another grown by so many
/// squares on all sides, or shrunk where the number is below 0.
#[derive(Clone, Copy, Debug, PartialEq, Eq)]
pub enum LayerForm {
    Input(LayerKey),
    Labels(LayerKey),
    Empty,
    Binary(Op, u32, u32),
    Sized(u32, i32),
}

/// A defined name; its number is its place in `RuleSet::names`.
#[derive(Drop)]
pub struct LayerRule {
    pub name: Name,
    pub form: LayerForm,
}

/// What is asked of a region, and of another layer.
#[derive(Clone, Copy, Debug, PartialEq, Eq)]
pub enum Ask {
    /// It touches the other layer, at a corner too, or shares squares with it.
    Interacting,
    /// It shares squares with it.
    Overlapping,
    /// All its squares are in it.
    Inside,
    /// None of its squares is in it.
    Outside,
    /// It has so many squares, from `low` on and below `high`; the other layer counts for nothing.
    WithArea { low: u64, high: Option<u64> },
}

/// A name whose squares are the regions of another name of which something holds, or all its other
/// regions: a layer of its own, which no stream has.
#[derive(Clone, Copy, Debug, PartialEq, Eq)]
pub struct SelectRule {
    pub name: u32,
    pub ask: Ask,
    pub others: bool,
    pub region: u32,
    pub other: u32,
}

/// A layer that is written, and where.
#[derive(Clone, Copy, Debug, PartialEq, Eq)]
pub struct Output {
    pub layer: u32,
    pub key: LayerKey,
}

/// A transistor's class, as the file writes it, and its layers: source and drain, gate, bulk, and
/// the conductors of the terminals.
#[derive(Drop)]
pub struct MosRule {
    pub class: Name,
    pub sd: u32,
    pub g: u32,
    pub w: u32,
    pub ts: u32,
    pub tg: u32,
    pub tb: u32,
}

/// A resistor's or a diode's class, as the file writes it, and its layers: of a resistor its body,
/// its contacts and its well, of a diode both sides of its junction; and the conductors of the
/// terminals.
#[derive(Drop)]
pub enum MoreRule {
    Resistor {
        class: Name,
        r: u32,
        c: u32,
        w: u32,
        ta: u32,
        tw: u32,
    },
    Diode {
        class: Name,
        p: u32,
        n: u32,
        ta: u32,
        tc: u32,
    },
}

/// The rules of a rule file, each list in the order of the file. Layers are numbers of names.
pub struct RuleSet {
    pub names: Vec<LayerRule>,
    pub selects: Vec<SelectRule>,
    pub outputs: Vec<Output>,
    pub connects: Vec<(u32, u32)>,
    pub globals: Vec<(u32, Name)>,
    pub devices: Vec<MosRule>,
    pub more: Vec<MoreRule>,
    pub same: Vec<(Name, Name)>,
    pub flat_layouts: Vec<Name>,
    pub flat_schematics: Vec<Name>,
    pub flattens_unmatched: bool,
    pub tells_pins: bool,
    pub covered: bool,
    pub combine: bool,
    pub max_guesses: u32,
}

// Written out, so that its owners drop it by one call.
impl Drop for RuleSet {
    fn drop(self) {
        let RuleSet {
            names: _,
            selects: _,
            outputs: _,
            connects: _,
            globals: _,
            devices: _,
            more: _,
            same: _,
            flat_layouts: _,
            flat_schematics: _,
            flattens_unmatched: _,
            tells_pins: _,
            covered: _,
            combine: _,
            max_guesses: _,
        } = self;
    }
}

impl RuleSet {
    ghost use Rattle.std.specs.Prelude.{◌≡◌, ◌≤◌, ◌^◌, ◌==◌, ◌||◌, length, IfOk};
    ghost use Rattle.std.specs.List.{list_any};
    ghost use Rattle.rule_text.specs.Rules.{has_texts};
    ghost use Rattle.rule_text.specs.Reading.{is_conductor, is_connected, first_loose};
    ghost use Rattle.rule_text.specs.Reading.{TellsConductors, is_more_connected, first_loose_more};
    ghost use Rattle.rule_text.specs.Seen.{rules_seen};

    /// Whether the name of this number is a labels name.
    pub fn has_texts(&self, layer: usize) -> bool
        ensures { result ≡ has_texts layer self.now.names.items }
    {
        match self.names.get(layer) {
            Some(rule) => matches!(rule.form, LayerForm::Labels(_)),
            None => false,
        }
    }

    fn is_connect_end(&self, layer: u32) -> bool
        ensures { result ≡ list_any (λ c. c.0 == layer || c.1 == layer) self.now.connects.items }
    {
        self.connects.iter().any(|c| c.0 == layer || c.1 == layer)
    }

    fn is_global(&self, layer: u32) -> bool
        ensures { result ≡ list_any (λ g. g.0 == layer) self.now.globals.items }
    {
        self.globals.iter().any(|g| g.0 == layer)
    }

    fn is_conductor(&self, layer: u32) -> bool
        ensures { result ≡ is_conductor layer (rules_seen self.now) }
    {
        !self.has_texts(layer as usize) && (self.is_connect_end(layer) || self.is_global(layer))
    }

    /// Which names are conductors. Linear in the names times the `connect` and `connect_global`
    /// lines.
    pub fn conductors(&self, alloc: Global) -> Result<Vec<bool>, AllocError>
        requires { length self.now.names.items ≤ 2 ^ 32 }
        ensures all { IfOk result (λ table. length table.items ≡ length self.now.names.items) }
        ensures each { IfOk result (λ table. TellsConductors table.items (rules_seen self.now)) }
    {
        let mut table = Vec::new(alloc);
        for layer in 0..self.names.len() {
            table.push(self.is_conductor(layer as u32))?;
        }
        Ok(table)
    }

    fn conducts(&self, conductors: &[bool], layer: u32) -> bool
        requires { TellsConductors conductors.now (rules_seen self.now) }
        ensures { result ≡ is_conductor layer (rules_seen self.now) }
    {
        match conductors.get(layer as usize) {
            Some(known) => *known,
            None => self.is_conductor(layer),
        }
    }

    fn is_connected(&self, conductors: &[bool], device: &MosRule) -> bool
        requires { TellsConductors conductors.now (rules_seen self.now) }
        ensures { result ≡ is_connected device.now (rules_seen self.now) }
    {
        self.conducts(conductors, device.ts)
            && self.conducts(conductors, device.tg)
            && self.conducts(conductors, device.tb)
    }

    /// The line of the first device that isn't connected, of the lines of all devices.
    pub fn first_loose(&self, conductors: &[bool], lines: &[u64]) -> Option<u64>
        requires { TellsConductors conductors.now (rules_seen self.now) }
        ensures { result ≡ first_loose (rules_seen self.now) self.now.devices.items lines.now }
    {
        let mut devices = self.devices.as_slice();
        let mut lines = lines;
        while let [device, more_devices @ ..] = devices {
            let [line, more_lines @ ..] = lines else {
                return None;
            };
            if !self.is_connected(conductors, device) {
                return Some(*line);
            }
            devices = more_devices;
            lines = more_lines;
        }
        None
    }

    fn is_more_connected(&self, conductors: &[bool], device: &MoreRule) -> bool
        requires { TellsConductors conductors.now (rules_seen self.now) }
        ensures { result ≡ is_more_connected device.now (rules_seen self.now) }
    {
        match device {
            MoreRule::Resistor { ta, tw, .. } => {
                self.conducts(conductors, *ta) && self.conducts(conductors, *tw)
            }
            MoreRule::Diode { ta, tc, .. } => {
                self.conducts(conductors, *ta) && self.conducts(conductors, *tc)
            }
        }
    }

    /// The same of the devices that are no transistors.
    pub fn first_loose_more(&self, conductors: &[bool], lines: &[u64]) -> Option<u64>
        requires { TellsConductors conductors.now (rules_seen self.now) }
        ensures { result ≡ first_loose_more (rules_seen self.now) self.now.more.items lines.now }
    {
        let mut devices = self.more.as_slice();
        let mut lines = lines;
        while let [device, more_devices @ ..] = devices {
            let [line, more_lines @ ..] = lines else {
                return None;
            };
            if !self.is_more_connected(conductors, device) {
                return Some(*line);
            }
            devices = more_devices;
            lines = more_lines;
        }
        None
    }
}
