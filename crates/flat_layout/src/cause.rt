//! Why a gate is bad.

/// Why a gate is bad: the first test that it fails.
#[derive(Clone, Copy, Debug, PartialEq, Eq)]
pub enum GateCause {
    /// It hasn't two groups of source or drain, but so many.
    Groups(u128),
    /// A square of it isn't on the conductor of gates.
    OffGate,
    /// A square of a group isn't on the conductor of sources and drains.
    OffSd,
    /// The conductor of bulks has no global, and a square of the gate isn't on it.
    NoBulk,
    /// It has no boundary but to source and drain.
    NoLength,
}
