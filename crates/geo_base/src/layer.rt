//! Layers of a GDSII stream, and their operators.

/// A layer: its number and its datatype (or texttype). Those of a stream have numbers from 0 to
/// 65,535; a layer that isn't drawn may have a greater one.
#[derive(Clone, Copy, Debug, PartialEq, Eq, PartialOrd, Ord, Hash)]
pub struct LayerKey {
    pub layer: u32,
    pub datatype: u16,
}

impl LayerKey {
    ghost use Rattle.std.specs.Prelude.{◌≡◌};
    ghost use Rattle.geo_base.specs.Layers.{is_same_key};

    /// Whether both have the same numbers.
    pub fn is_same(self, other: LayerKey) -> bool
        ensures { result ≡ is_same_key self other }
    {
        self.layer == other.layer && self.datatype == other.datatype
    }
}

/// A Boolean of two layers: `&`, `|`, `-` (and not) and `^`.
#[derive(Clone, Copy, Debug, PartialEq, Eq)]
pub enum Op {
    And,
    Or,
    Not,
    Xor,
}

impl Op {
    ghost use Rattle.std.specs.Prelude.{◌≡◌};
    ghost use Rattle.geo_base.specs.Layers.{combined};

    /// What it says of one square, given whether each of two sets has it.
    pub fn holds(self, first: bool, second: bool) -> bool
        ensures { result ≡ combined self first second }
    {
        match self {
            Op::And => first && second,
            Op::Or => first || second,
            Op::Not => first && !second,
            Op::Xor => first != second,
        }
    }
}
