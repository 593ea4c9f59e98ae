//! The partners of all nodes of a pair.

use crate::partners::Partners;

/// The partners of the nets, pins, devices and calls of two circuits.
#[derive(Drop)]
pub struct Proposal {
    pub nets: Partners,
    pub pins: Partners,
    pub devices: Partners,
    pub calls: Partners,
}
