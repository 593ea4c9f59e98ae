//! Which classes the next round looks at.

ghost use Rattle.std.specs.Prelude.{◌<◌};

use std::alloc::AllocError;

/// Which classes the next round looks at.
#[derive(Drop)]
pub struct Marks {
    /// For each class whether it is one of them.
    pub is_fresh: Vec<bool>,
    /// Those classes.
    pub fresh: Vec<u32>,
}

impl Marks {
    ghost use Rattle.std.specs.Prelude.{◌≡◌, ◌<◌, ◌^◌, ℕ, false, length, OnOk};
    ghost use Rattle.match_rounds.specs.Marks.{AreListed, IsHalved, is_marked};

    /// Adds a class that was part of this one. Where the whole was to be looked at, both parts
    /// are; else the smaller one is.
    pub fn split_off(&mut self, whole: u32, is_smaller: bool) -> Result<(), AllocError>
        requires listed { AreListed self.old }
        requires whole { whole < length self.old.is_fresh.items }
        requires small { length self.old.is_fresh.items < 2 ^ 32 }
        ensures listed { OnOk result (AreListed self.new) }
        ensures halved { OnOk result (IsHalved self.old self.new whole) }
    {
        let part = self.is_fresh.len() as u32;
        let is_looked_at = self.is_fresh[whole as usize] || is_smaller;
        self.is_fresh.push(is_looked_at)?;
        if is_looked_at {
            self.fresh.push(part)?;
        } else {
            self.is_fresh[whole as usize] = true;
            self.fresh.push(whole)?;
        }
        Ok(())
    }

    /// Marks no class any more.
    pub fn clear(&mut self)
        requires { AreListed self.old }
        ensures listed { AreListed self.new }
        ensures long { length self.new.is_fresh.items ≡ length self.old.is_fresh.items }
        ensures none { (d : ℕ) → is_marked self.new d ≡ false }
        ensures empty { length self.new.fresh.items ≡ 0 }
    {
        for i in 0..self.fresh.len() {
            let class = self.fresh[i] as usize;
            self.is_fresh[class] = false;
        }
        self.fresh.clear();
    }
}
