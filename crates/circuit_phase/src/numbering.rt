//! Nets of a cell, numbered as they are first named.
ghost use Rattle.std.specs.Prelude.{◌≡◌, ◌<◌, ◌∷◌, ℕ, [], Some, length};
ghost use Rattle.std.specs.Prelude.{get_or, slice_get, IfOk, OnOk};
ghost use Rattle.plain_netlist.specs.Lists.{AreApart};
ghost use Rattle.plain_netlist.specs.Normal.{AreNumbered};
ghost use Rattle.circuit_phase.specs.Numbering.{AreNumbersOf, with_net};

use list_base::small;
use std::alloc::{AllocError, Global};
use std::marker::Model;

/// The nets of a cell that a circuit names, in the order in which it first names them, so that they
/// are numbered as normal form wants. Contracts see that list, and how many nets the cell has.
#[derive(Drop)]
pub struct Numbering {
    numbers: Vec<Option<u32>>,
    nets: Vec<u32>,
}

impl Model for Numbering {
    ghost use Rattle.circuit_phase.specs.Numbered.{IsNumbering, numbered_seen};
    ghost use Rattle.circuit_phase.specs.Numbering.{Numbered};

    ghost Value = { Numbered };

    ghost view = { numbered_seen };

    ghost invariant = { IsNumbering };
}

impl Numbering {
    /// No net of so many is numbered yet.
    pub fn new(alloc: Global, count: u32) -> Result<Numbering, AllocError>
        ensures count { IfOk result (λ n. n.count ≡ count) }
        ensures nets { IfOk result (λ n. n.nets ≡ []) }
    {
        let numbers = vec![in alloc; None; count as usize]?;
        Ok(Numbering {
            numbers,
            nets: Vec::new(alloc),
        })
    }

    /// The number of a net: the next one where the net has none yet. More than 2^32 are refused.
    /// Constant time.
    pub fn number(&mut self, net: u32) -> Result<u32, AllocError>
        requires { net < self.old.count }
        ensures count { OnOk result (self.new.count ≡ self.old.count) }
        ensures nets { OnOk result (self.new.nets ≡ with_net self.old.nets net) }
        ensures number { IfOk result (λ n. slice_get self.new.nets n ≡ Some net) }
        ensures next { IfOk result (λ n.
            AreNumbered (length self.new.nets) (length self.old.nets) (n ∷ [])) }
    {
        if let Some(number) = self.numbers[net as usize] {
            return Ok(number);
        }
        let number = small(self.nets.len()).ok_or(AllocError)?;
        self.nets.push(net)?;
        self.numbers[net as usize] = Some(number);
        Ok(number)
    }

    /// The nets by their numbers, each once. It takes no memory.
    pub fn into_nets(self) -> Vec<u32>
        ensures nets { result.items ≡ self.nets }
        ensures apart { AreApart self.nets }
    {
        self.nets
    }
}

/// The numbers of some nets, in order. Constant time a net.
pub fn number_nets(
    alloc: Global,
    nets: &[u32],
    numbering: &mut Numbering,
) -> Result<Vec<u32>, AllocError>
    requires { (i : ℕ) → i < length nets.now → get_or nets.now i 0 < numbering.old.count }
    ensures count { OnOk result (numbering.new.count ≡ numbering.old.count) }
    ensures numbers { IfOk result (λ v.
        AreNumbersOf numbering.old.nets numbering.new.nets nets.now v.items) }
{
    let mut numbers = Vec::with_capacity(alloc, nets.len())?;
    for i in 0..nets.len() {
        numbers.push(numbering.number(nets[i])?)?;
    }
    Ok(numbers)
}
